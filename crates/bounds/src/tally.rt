// What is added up of the uncapped loads of a window, and the next cap that it leaves.
ghost use Rattle.std.specs.Prelude.{ℕ, ◌*◌, ◌<◌, ◌≤◌, List};
ghost use Rattle.bounds.specs.Climbs.{Tallied, Limited, NoneFit, ZeroPast};

use crate::processors::Processors;

// What `least` starts at: a load before the cap is at most a window and a deadline long. A bound
// and no flag; with an `Option` the climb took a third longer.
const LONGEST: u32 = 2_000_000;

#[derive(Clone, Copy)]
pub(crate) struct Tally {
    /// The loads, each held to the cap.
    pub sum: u32,
    /// How many are above the cap.
    pub over: u32,
    /// None of those is below this.
    pub least: u32,
    /// The sum of the others.
    pub rest: u32,
}

impl Tally {
    // What the loads make up at a cap. None past the rows is looked at.
    pub(crate) fn of(loads: &[u32; 32], rows: usize, cap: u32) -> Tally
        requires few { rows ≤ 32 }
        requires past { ZeroPast rows loads.now }
        requires short { cap ≤ 1000000 }
        ensures sums { Tallied loads.now 32 cap result }
        ensures limits { Limited result }
    {
        let mut tally = Tally {
            sum: 0,
            over: 0,
            least: LONGEST,
            rest: 0,
        };
        for &load in &loads[..rows] {
            if load > cap {
                tally.sum += cap;
                tally.over += 1;
                tally.least = tally.least.min(load);
            } else {
                tally.sum += load;
                tally.rest += load;
            }
        }
        tally
    }

    // The next cap at which the loads could fit on `m` processors. The limits are no invariant of
    // the type: one function gives them, and this one alone relies on them.
    pub(crate) fn next_cap(self, m: Processors) -> u32
        requires { Limited self }
        ensures rises { (y : ℕ) → m.count * y ≤ self.sum → y < result }
        ensures skips { (loads : List ℕ) (y : ℕ) → Tallied loads 32 y self
            → NoneFit loads m.count y result }
    {
        let count = m.count();
        let jump = if self.over < count {
            (self.rest / (count - self.over) + 1).min(self.least + 1)
        } else {
            self.least + 1
        };
        (self.sum / count + 1).max(jump)
    }
}
