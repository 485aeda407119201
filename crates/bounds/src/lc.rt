// The response-time analysis with limited carry-in: fewer tasks carry load in than there are
// processors.
ghost use Rattle.std.specs.Prelude.{◌≡◌};
ghost use Rattle.bounds.specs.Questions.{LateIfUnsound};
ghost use Rattle.bounds.specs.Responses.{lc as answered, LcMeaning};

use crate::climb::answer_by_climb;
use crate::processors::Processors;
use crate::question::Question;
use crate::test::Test;

/// The test `lc`, on a number of processors.
#[derive(Clone, Copy, PartialEq, Eq, Debug)]
pub struct Lc {
    processors: Processors,
}

impl Lc {
    /// The test on so many processors.
    pub fn new(processors: Processors) -> Lc
        ensures made { result.processors ≡ processors }
        ensures meaning { LcMeaning }
        ensures unsound { LateIfUnsound (answered processors.count) }
    {
        Lc { processors }
    }
}

impl Test for Lc {
    ghost use Rattle.bounds.specs.ResponseLoads.{lc_laws};

    ghost answer = { λ t. answered t.processors.count };

    ghost kept = { λ t. lc_laws t.processors };

    fn ask(&self, q: &Question<'_>) -> Option<u32> {
        let limit = self.processors.count() - 1;
        answer_by_climb(self.processors, Some(limit), q)
    }
}
