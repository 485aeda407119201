// The range that a search begins with.
ghost use Rattle.std.specs.Prelude.{◌≡◌, slice_index};
ghost use Rattle.study.specs.Whole.{deadlines, whole};

use bounds::estimates::wcets_of;
use orders::Range;
use std::array;
use table::Row;

// The deadline of the row at a place, and 0 where there is no row.
fn deadline_at(rows: &[Row], place: usize) -> u32
    ensures { result ≡ slice_index (deadlines rows.now) place }
{
    rows.get(place).map_or(0, |row| row.deadline())
}

// The range of all C to D.
pub(crate) fn whole_range(rows: &[Row]) -> Range
    ensures { result ≡ whole rows.now }
{
    Range {
        lows: wcets_of(rows),
        highs: array::from_fn(|place| deadline_at(rows, place)),
    }
}
