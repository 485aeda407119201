// The response-time analysis: each task above is taken to run as late as its estimate allows.
ghost use Rattle.std.specs.Prelude.{◌≡◌};
ghost use Rattle.bounds.specs.Questions.{LateIfUnsound};
ghost use Rattle.bounds.specs.Responses.{rta as answered, RtaMeaning};

use crate::climb::answer_by_climb;
use crate::processors::Processors;
use crate::question::Question;
use crate::test::Test;

/// The test `rta`, on a number of processors.
#[derive(Clone, Copy, PartialEq, Eq, Debug)]
pub struct Rta {
    processors: Processors,
}

impl Rta {
    /// The test on so many processors.
    pub fn new(processors: Processors) -> Rta
        ensures made { result.processors ≡ processors }
        ensures meaning { RtaMeaning }
        ensures unsound { LateIfUnsound (answered processors.count) }
    {
        Rta { processors }
    }
}

impl Test for Rta {
    ghost use Rattle.bounds.specs.ResponseLoads.{rta_laws};

    ghost answer = { λ t. answered t.processors.count };

    ghost kept = { λ t. rta_laws t.processors };

    fn ask(&self, q: &Question<'_>) -> Option<u32> {
        answer_by_climb(self.processors, None, q)
    }
}
