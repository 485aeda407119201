// The numbers that a row is made of, and the question that is asked of them.
ghost use Rattle.std.specs.Prelude.{◌≡◌, ◌↔◌, IsTrue};

/// The numbers of a row, of any values: a name for each, so that no call takes them by place.
#[derive(Clone, Copy, PartialEq, Eq, Debug)]
pub struct Numbers {
    /// The longest time that one job runs.
    pub wcet: u32,
    /// The least time between two releases.
    pub period: u32,
    /// The time from a job's release by which it must be done.
    pub deadline: u32,
}

impl Numbers {
    ghost use Rattle.table.specs.Rows.{IsRow};

    /// The greatest period of a row.
    pub const MOST: u32 = 1_000_000;

    /// The wcet, the period and the deadline by place, where that reads well, as in a test.
    pub fn of(wcet: u32, period: u32, deadline: u32) -> Numbers
        ensures { result ≡ record { wcet = wcet; period = period; deadline = deadline } }
    {
        Numbers {
            wcet,
            period,
            deadline,
        }
    }

    // Whether they make a row.
    pub(crate) fn make_row(self) -> bool
        ensures { IsTrue result ↔ IsRow self }
    {
        1 <= self.wcet
            && self.wcet <= self.deadline
            && self.deadline <= self.period
            && self.period <= Numbers::MOST
    }
}
