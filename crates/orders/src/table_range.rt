// A range of a table, and its ends moved out while it stays one.
ghost use Rattle.std.specs.Prelude.{◌≡◌, ◌+◌, ◌<◌, ◌≤◌, length, MatchOption};
ghost use Rattle.table.specs.Rows.{view};
ghost use Rattle.orders.specs.Growth.{moved as moved_out, reach as reach_of};
ghost use Rattle.orders.specs.Ranges.{Within};

use crate::assign::is_range;
use crate::end::End;
use crate::range::Range;
use table::Table;

// Each row's low and high lie from its wcet to its deadline, the low at most the high.
#[derive(Clone, Copy)]
pub(crate) struct TableRange<'a> {
    pub table: &'a Table,
    pub ends: Range,
    ghost within: { Within (view table.now) ends },
}

impl<'a> TableRange<'a> {
    // The range, if it is one of the table.
    pub(crate) fn new(table: &'a Table, range: &Range) -> Option<Self>
        ensures { MatchOption result (¬ Within (view table.now) range.now)
            (λ q. (q.table.now ≡ table.now) × (q.ends ≡ range.now)) }
    {
        if !is_range(table, range) {
            return None;
        }
        let range = TableRange {
            table,
            ends: *range,
        };
        Some(range)
    }

    // How far an end of the row at a place may be moved out.
    pub(crate) fn reach(&self, end: End, place: usize) -> u32
        requires { place < length (view self.now.table.now) }
        ensures { result ≡ reach_of end (view self.now.table.now) self.now.ends (place + 1) }
    {
        let row = self.table.rows()[place];
        match end {
            End::Low => self.ends.lows[place] - row.wcet(),
            End::High => row.deadline() - self.ends.highs[place],
        }
    }

    // The range with an end of the row at a place moved out.
    pub(crate) fn moved(&self, end: End, place: usize, by: u32) -> Self
        requires place { place < length (view self.now.table.now) }
        requires short { by ≤ reach_of end (view self.now.table.now) self.now.ends (place + 1) }
        ensures table { result.table.now ≡ self.now.table.now }
        ensures ends { result.ends ≡ moved_out end self.now.ends (place + 1) by }
    {
        let mut ends = self.ends;
        match end {
            End::Low => ends.lows[place] -= by,
            End::High => ends.highs[place] += by,
        }
        TableRange {
            table: self.table,
            ends,
        }
    }
}
