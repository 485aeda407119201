// A closed range of a table, and its ends moved out while it stays closed.
ghost use Rattle.std.specs.Prelude.{◌≡◌, ◌+◌, ◌*◌, ◌<◌, ◌≤◌, length, IfOk, IfErr, Some, None};
ghost use Rattle.table.specs.Rows.{view};
ghost use Rattle.orders.specs.Assigner.{Assigns, FillsLowest};
ghost use Rattle.orders.specs.Growth.{EndGrown, GrownTo};
ghost use Rattle.orders.specs.Ranges.{Closed};

use crate::assign::{find_order, high_wanted};
use crate::end::End;
use crate::range::Range;
use crate::table_range::TableRange;
use bounds::Test;

// No order passes the range under the test.
#[derive(Drop)]
pub(crate) struct ClosedRange<'a, T: Test> {
    test: &'a T,
    pub range: TableRange<'a>,
    ghost closed: { Closed (T.answer test.now) (view range.table.now) range.ends },
}

impl<'a, T: Test> ClosedRange<'a, T> {
    // The range, where it is closed; or else the assigner's order for it.
    pub(crate) fn new(test: &'a T, range: TableRange<'a>) -> Result<Self, [usize; 32]>
        ensures ok { IfOk result (λ q.
            (q.test.now ≡ test.now) × (q.range.table.now ≡ range.entry.table.now)
            × (q.range.ends ≡ range.entry.ends)
            × Assigns (T.answer test.now) (view range.entry.table.now) range.entry.ends None) }
        ensures err { let rows = view range.entry.table.now in let r = range.entry.ends in
            IfErr result (λ order.
            Assigns (T.answer test.now) rows r (Some order)
            × FillsLowest (T.answer test.now) rows r (Some order)
            × ¬ Closed (T.answer test.now) rows r) }
    {
        match find_order(test, &range) {
            None => Ok(ClosedRange { test, range }),
            Some(order) => Err(order),
        }
    }

    // How far an end is tried to be moved out in a round, with this much left: first all of it. A
    // high is tried in round 1 at the last value at which its task would not be placed, or as near
    // to it as may be, and in round 2 one further out than it then stands. In any other round half
    // of what is left is tried.
    fn tried_in(&self, round: u32, end: End, place: usize, left: u32) -> u32
        requires place { place < length (view self.now.range.table.now) }
        requires left { 1 ≤ left }
        ensures within { (1 ≤ result) × (result ≤ left) }
        ensures halves { 3 ≤ round → (left ≤ 2 * result) × (2 * result ≤ left + 1) }
    {
        match (round, end) {
            (0, _) => left,
            (1, End::High) => self.last_closed(place).max(1).min(left),
            (2, End::High) => 1,
            _ => left.div_ceil(2),
        }
    }

    // How far a high may be moved out if it is this task alone that keeps the range closed.
    fn last_closed(&self, place: usize) -> u32
        requires { place < length (view self.now.range.table.now) }
    {
        match high_wanted(self.test, &self.range, place) {
            Some(high) => high
                .saturating_sub(1)
                .saturating_sub(self.range.ends.highs[place]),
            None => 0,
        }
    }

    // The range with an end of the row at a place moved out as far as it stays closed.
    pub(crate) fn grow_end(self, end: End, place: usize) -> Self
        requires { place < length (view self.range.table.now) }
        ensures test { result.test.now ≡ self.entry.test.now }
        ensures table { result.range.table.now ≡ self.entry.range.table.now }
        ensures grown { let rows = view self.entry.range.table.now in
            let before = self.entry.range.ends in
            EndGrown (T.answer self.entry.test.now) rows end before (place + 1) result.range.ends }
    {
        let mut grown = self;
        let mut left = grown.range.reach(end, place);
        // What is left is below 2^20, and each round from the fourth on leaves at most half of it.
        for round in 0..23u32 {
            if left == 0 {
                return grown;
            }
            let tried = grown.tried_in(round, end, place, left);
            let wider = grown.range.moved(end, place, tried);
            match ClosedRange::new(grown.test, wider) {
                Ok(wider) => {
                    grown = wider;
                    left -= tried;
                }
                Err(_) => left = tried - 1,
            }
        }
        grown
    }

    // The range with its ends moved out: row by row its low, and then its high.
    pub(crate) fn grow(self) -> Range
        ensures grown { let rows = view self.entry.range.table.now in
            GrownTo (T.answer self.entry.test.now) rows self.entry.range.ends (length rows) result }
    {
        let mut grown = self;
        for place in 0..grown.range.table.len() {
            grown = grown.grow_end(End::Low, place).grow_end(End::High, place);
        }
        grown.range.ends
    }
}
