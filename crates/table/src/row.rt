// A row of a table.
ghost use Rattle.std.specs.Prelude.{◌≡◌, ◌≤◌, ◌↔◌, IsTrue};
ghost use Rattle.table.specs.declared.numbers.TheConstants.Numbers.{MOST};

use crate::fault::{Fault, Place};
use crate::numbers::Numbers;

/// One task: it runs for at most `wcet` in each `period`, and is done `deadline` after its release.
/// Two rows are equal where their numbers are.
#[derive(Clone, Copy, PartialEq, Eq, Debug)]
pub struct Row {
    wcet: u32,
    period: u32,
    deadline: u32,
    ghost ok: { (1 ≤ wcet) × (wcet ≤ deadline) × (deadline ≤ period) × (period ≤ MOST) },
}

impl Row {
    ghost use Rattle.table.specs.Rows.{MadeRow, spans};

    /// What stands past the end of a table.
    pub(crate) const FILLER: Row = Row {
        wcet: 1,
        period: 1,
        deadline: 1,
    };

    /// The row of these numbers, or a refusal where they make none (11).
    pub fn new(numbers: Numbers) -> Result<Row, Fault>
        ensures { MadeRow numbers result }
    {
        if !numbers.make_row() {
            return Err(Fault::BadRow(Place::NOWHERE));
        }
        let Numbers {
            wcet,
            period,
            deadline,
        } = numbers;
        Ok(Row {
            wcet,
            period,
            deadline,
        })
    }

    /// The longest time that one job runs.
    pub fn wcet(&self) -> u32
        ensures { result ≡ self.now.wcet }
    {
        self.wcet
    }

    /// The least time between two releases.
    pub fn period(&self) -> u32
        ensures { result ≡ self.now.period }
    {
        self.period
    }

    /// The time from a job's release by which it must be done.
    pub fn deadline(&self) -> u32
        ensures { result ≡ self.now.deadline }
    {
        self.deadline
    }

    /// Whether `low` to `high` lies between the wcet and the deadline.
    pub fn spans(&self, low: u32, high: u32) -> bool
        ensures value { result ≡ spans self.now low high }
        ensures lies { IsTrue result
            ↔ ((self.now.wcet ≤ low) × (low ≤ high) × (high ≤ self.now.deadline)) }
    {
        let Row { wcet, deadline, .. } = *self;
        wcet <= low && low <= high && high <= deadline
    }
}
