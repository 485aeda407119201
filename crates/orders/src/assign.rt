// The assigner: Audsley's method for a range.
ghost use Rattle.std.specs.Prelude.{◌≡◌, ℕ, ◌<◌, ◌≤◌, ◌↔◌, length, take, false, IsTrue, None, Some, MatchOption};
ghost use Rattle.table.specs.Places.{put};
ghost use Rattle.table.specs.Rows.{view};
ghost use Rattle.bounds.specs.Orders.{task_at};
ghost use Rattle.bounds.specs.Questions.{question};
ghost use Rattle.orders.specs.Assigner.{assigned, candidate, full, Assigns, FindsIfOpen, FillsLowest};
ghost use Rattle.orders.specs.Ranges.{Within};
ghost use Rattle.orders.specs.Relations.{Relations};

use crate::range::Range;
use crate::table_range::TableRange;
use bounds::{Question, Test};
use std::array;
use table::Table;

/// Whether this is a range of the table.
pub fn is_range(table: &Table, range: &Range) -> bool
    ensures { IsTrue result ↔ Within (view table.now) range.now }
{
    let ends = range.lows.iter().zip(&range.highs);
    table
        .rows()
        .iter()
        .zip(ends)
        .all(|(row, (&low, &high))| row.spans(low, high))
}

// All tasks of `rows` rows, as a set.
fn all_tasks(rows: usize) -> [bool; 32]
    ensures { result ≡ full rows }
{
    array::from_fn(|place| place < rows)
}

// What the assigner is asked: a range of a table, and a test.
#[derive(Drop)]
struct Assigner<'a, T> {
    test: &'a T,
    table: &'a Table,
    range: &'a Range,
}

impl<T: Test> Assigner<'_, T> {
    // A task's answer below all the other unplaced tasks.
    fn answer(&self, left: &[bool; 32], k: usize) -> Option<u32>
        requires { (1 ≤ k) × (k ≤ 32) }
        ensures { let rows = view self.now.table.now in let lows = self.now.range.now.lows in
            result ≡ T.answer self.now.test.now (question rows k (put left.now k false) lows) }
    {
        let mut above = *left;
        above[k - 1] = false;
        let question = Question {
            table: self.table,
            task: k,
            above: &above,
            estimates: &self.range.lows,
        };
        self.test.ask(&question)
    }

    // Whether an unplaced task passes below all the others.
    fn passes(&self, left: &[bool; 32], k: usize) -> bool
        requires { (1 ≤ k) × (k ≤ 32) }
        ensures { let rows = view self.now.table.now in
            result ≡ candidate (T.answer self.now.test.now) rows self.now.range.now left.now k }
    {
        if !left[k - 1] {
            return false;
        }
        self.answer(left, k)
            .is_some_and(|bound| bound <= self.range.highs[k - 1])
    }

    // The order of the filled levels, the highest task first, with 0 after the last: from the
    // lowest level up each takes the lowest-numbered task left that passes there. None where no
    // task passes at a level; `left` then has the tasks that are not placed.
    fn fill_levels(&self, left: &mut [bool; 32]) -> Option<[usize; 32]>
        requires { left.old ≡ full (length (view self.now.table.now)) }
        ensures { let rows = view self.now.table.now in
            let order = assigned (T.answer self.now.test.now) rows self.now.range.now in
            MatchOption result (order ≡ None)
            (λ tasks. (order ≡ Some (take (length rows) tasks))
            × ((p : ℕ) → length rows ≤ p → task_at tasks p ≡ 0)) }
    {
        let rows = self.table.len();
        // An array with 0 past the last task, since no library crate has a heap.
        let mut order = [0; 32];
        let mut level = rows;
        'levels: loop {
            if level == 0 {
                break Some(order);
            }
            let mut candidate = 1;
            let task = loop {
                if candidate > rows {
                    break 'levels None;
                }
                if self.passes(left, candidate) {
                    break candidate;
                }
                candidate += 1;
            };
            level -= 1;
            left[task - 1] = false;
            order[level] = task;
        }
    }
}

// What a row's high must be for its task to be placed once no other task passes, or none if it is
// late then. The lower levels are filled by the other tasks as far as they pass.
pub(crate) fn high_wanted<T: Test>(test: &T, range: &TableRange<'_>, place: usize) -> Option<u32>
    requires { place < length (view range.now.table.now) }
{
    let mut others = range.ends;
    // No answer is 0, so the task itself does not pass.
    others.highs[place] = 0;
    let assigner = Assigner {
        test,
        table: range.table,
        range: &others,
    };
    let mut left = all_tasks(range.table.len());
    // They end with none.
    assigner.fill_levels(&mut left);
    assigner.answer(&left, place + 1)
}

// The assigner's order for a range of the table, if it finds one.
pub(crate) fn find_order<T: Test>(test: &T, range: &TableRange<'_>) -> Option<[usize; 32]>
    ensures rule { let rows = view range.now.table.now in
        Assigns (T.answer test.now) rows range.now.ends result }
    ensures decides { let rows = view range.now.table.now in
        FindsIfOpen (T.answer test.now) rows range.now.ends result }
    ensures lowest { let rows = view range.now.table.now in
        FillsLowest (T.answer test.now) rows range.now.ends result }
{
    let assigner = Assigner {
        test,
        table: range.table,
        range: &range.ends,
    };
    assigner.fill_levels(&mut all_tasks(range.table.len()))
}

/// An order that passes the range, the highest task first, if there is one. Levels are filled from
/// the lowest up, each by the lowest-numbered task left that passes there.
pub fn assign<T: Test>(test: &T, table: &Table, range: &Range) -> Option<[usize; 32]>
    ensures rule { Assigns (T.answer test.now) (view table.now) range.now result }
    ensures decides { FindsIfOpen (T.answer test.now) (view table.now) range.now result }
    ensures lowest { FillsLowest (T.answer test.now) (view table.now) range.now result }
    ensures relations { Relations (T.answer test.now) (view table.now) }
{
    let range = TableRange::new(table, range)?;
    find_order(test, &range)
}
