// The deadline analysis: each task above is taken to run as late as its deadline allows.
ghost use Rattle.std.specs.Prelude.{◌≡◌};
ghost use Rattle.bounds.specs.Loads.{deadline_load, da, DaMeaning};
ghost use Rattle.bounds.specs.Posing.{question_of};
ghost use Rattle.bounds.specs.Questions.{LateIfUnsound};

use crate::posed::Posed;
use crate::processors::Processors;
use crate::question::Question;
use crate::test::Test;
use crate::window::Window;
use crate::work::timely;

/// The test `da`, on a number of processors.
#[derive(Clone, Copy, PartialEq, Eq, Debug)]
pub struct Da {
    processors: Processors,
}

impl Da {
    /// The test on so many processors.
    pub fn new(processors: Processors) -> Da
        ensures made { result.processors ≡ processors }
        ensures meaning { DaMeaning }
        ensures unsound { LateIfUnsound (da processors.count) }
    {
        Da { processors }
    }
}

// The carried loads of the tasks above, each with its deadline as estimate.
fn load_above(q: &Posed<'_>) -> u32
    ensures { result ≡ deadline_load (question_of q.now) }
{
    let window = Window {
        posed: *q,
        length: q.own().deadline(),
    };
    let mut sum = 0;
    for (row, above) in q.rows.iter().zip(q.above) {
        if *above {
            let load = window.carried_load(*row, row.deadline());
            sum += load;
        }
    }
    sum
}

impl Test for Da {
    ghost use Rattle.bounds.specs.DaLaws.{da_laws};

    ghost answer = { λ d. da d.processors.count };

    ghost kept = { λ d. da_laws d.processors };

    fn ask(&self, q: &Question<'_>) -> Option<u32> {
        let q = q.posed()?;
        let own = q.own();
        let bound = own.wcet() + load_above(&q) / self.processors.count();
        timely(own.deadline(), bound)
    }
}
