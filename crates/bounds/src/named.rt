// A test chosen by its name.
ghost use Rattle.std.specs.Prelude.{◌≡◌, ◌↔◌, IsTrue};

use crate::da::Da;
use crate::lc::Lc;
use crate::processors::Processors;
use crate::question::Question;
use crate::rta::Rta;
use crate::test::Test;
use table::{Fault, Place};

/// One of the three tests. Their cases have names of their own, since `Da`, `Rta` and `Lc` are the
/// tests.
#[derive(Clone, Copy, PartialEq, Eq, Debug)]
pub enum NamedTest {
    ByDeadline(Da),
    ByResponse(Rta),
    ByLimited(Lc),
}

impl NamedTest {
    ghost use Rattle.bounds.specs.Named.{IsTestName, MadeNamed};

    /// Whether a test has this name.
    pub fn has_name(name: &[u8]) -> bool
        ensures { IsTrue result ↔ IsTestName name.now }
    {
        matches!(name, b"da" | b"rta" | b"lc")
    }

    /// The test of this name on so many processors, or a refusal where there is none of the name
    /// (12).
    pub fn new(name: &[u8], processors: Processors) -> Result<NamedTest, Fault>
        ensures { MadeNamed name.now processors result }
    {
        match name {
            b"da" => Ok(NamedTest::ByDeadline(Da::new(processors))),
            b"rta" => Ok(NamedTest::ByResponse(Rta::new(processors))),
            b"lc" => Ok(NamedTest::ByLimited(Lc::new(processors))),
            _ => Err(Fault::BadTest(Place::NOWHERE)),
        }
    }
}

impl Test for NamedTest {
    ghost use Rattle.bounds.specs.Named.{named_answer};
    ghost use Rattle.bounds.specs.NamedLaws.{named_laws};

    ghost answer = { named_answer };

    ghost kept = { named_laws };

    // A match and no `dyn Test`: a maker may not hand one out, and there is no heap for a `Box`.
    fn ask(&self, q: &Question<'_>) -> Option<u32> {
        match self {
            NamedTest::ByDeadline(test) => test.ask(q),
            NamedTest::ByResponse(test) => test.ask(q),
            NamedTest::ByLimited(test) => test.ask(q),
        }
    }
}
