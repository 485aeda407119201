// The work of one task in a window, and a bound that is held to a deadline.
ghost use Rattle.std.specs.Prelude.{◌≡◌, ◌≤◌};
ghost use Rattle.bounds.specs.Loads.{work};
ghost use Rattle.bounds.specs.Questions.{timely as timely_bound};

use table::Row;

// The most that a task runs in `q`, if it runs as early as it may.
pub(crate) fn work_in(row: Row, q: u32) -> u32
    requires { q ≤ 2000000 }
    ensures { result ≡ work row q }
{
    let wcet = row.wcet();
    let period = row.period();
    q / period * wcet + wcet.min(q % period)
}

// The bound, or none past the deadline.
pub(crate) fn timely(deadline: u32, bound: u32) -> Option<u32>
    ensures { result ≡ timely_bound deadline bound }
{
    (bound <= deadline).then_some(bound)
}
