// A test over another: a number is added to the answer below.
ghost use Rattle.std.specs.Prelude.{◌≡◌, ◌+◌, ◌≤◌};
ghost use Rattle.table.specs.Rows.{row, Names};
ghost use Rattle.bounds.specs.Questions.{timely as timely_bound};

use crate::question::Question;
use crate::test::Test;
use crate::work::timely;
use table::{Fault, Place, Row};

/// The greatest number that an overhead may add.
pub const MOST_ADDED: u32 = 1_000_000;

/// An overhead over a test: the number that is added, and the test below.
#[derive(Drop)]
pub struct Overhead<T> {
    added: u32,
    below: T,
    ghost ok: { added ≤ 1000000 },
}

impl<T: Drop> Overhead<T> {
    ghost use Rattle.bounds.specs.Overheads.{MadeOverhead};

    /// An overhead of `added` over a test, or a refusal where the number is too great (12).
    pub fn new(added: u32, below: T) -> Result<Overhead<T>, Fault>
        ensures { MadeOverhead added below result }
    {
        if added <= MOST_ADDED {
            Ok(Overhead { added, below })
        } else {
            Err(Fault::BadTest(Place::NOWHERE))
        }
    }
}

// The bound with the number added, or none past the task's deadline.
fn add_within(rows: &[Row], task: usize, bound: u32, added: u32) -> Option<u32>
    requires names { Names rows.now task }
    requires low { (bound ≤ 1000000) × (added ≤ 1000000) }
    ensures { result ≡ timely_bound (row rows.now task).deadline (bound + added) }
{
    timely(rows[task - 1].deadline(), bound + added)
}

impl<T: Test> Test for Overhead<T> {
    ghost use Rattle.bounds.specs.Overheads.{over_answer};
    ghost use Rattle.bounds.specs.OverLaws.{over_laws};

    ghost answer = { over_answer T.Test.answer };

    ghost kept = { over_laws T.Test.kept };

    fn ask(&self, q: &Question<'_>) -> Option<u32> {
        let bound = self.below.ask(q)?;
        add_within(q.table.rows(), q.task, bound, self.added)
    }
}
