// The pieces that replace a taken range.
ghost use Rattle.std.specs.Prelude.{◌≡◌, ◌+◌, ◌-◌, ◌*◌, ◌≤◌, length};
ghost use Rattle.study.specs.Pieces.{pieces, put_slots};

use crate::lists::write_slot;
use orders::Range;

// How many pieces there are: one for each row whose high in `grown` is below its taken high.
pub(crate) fn count_pieces(rows: usize, taken: &Range, grown: &Range) -> usize
    requires { rows ≤ 32 }
    ensures { result ≡ length (pieces taken.now grown.now rows) }
{
    let mut count = 0;
    for place in 0..rows {
        if grown.highs[place] < taken.highs[place] {
            count += 1;
        }
    }
    count
}

// Writes the pieces into the slots from `k` on.
pub(crate) fn write_pieces(list: &mut [u32], k: usize, rows: usize, taken: &Range, grown: &Range)
    requires few { (rows ≤ 32) × (k ≤ 4096) }
    requires room { let count = length (pieces taken.now grown.now rows) in
        (1 ≤ k) × (64 * (k - 1 + count) ≤ length list.old) }
    ensures { list.new ≡ put_slots list.old k (pieces taken.now grown.now rows) }
{
    let mut slot = k;
    let mut cut = *taken;
    for place in 0..rows {
        let high = grown.highs[place];
        if high < taken.highs[place] {
            let mut piece = cut;
            piece.lows[place] = high + 1;
            write_slot(list, slot, &piece);
            slot += 1;
        }
        cut.highs[place] = high.min(taken.highs[place]);
    }
}
