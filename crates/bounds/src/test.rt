// What a schedulability test is.
ghost use Rattle.std.specs.Prelude.{◌≡◌};
ghost use Rattle.bounds.specs.Questions.{Meaning, asked, Laws};

use crate::question::Question;

/// A schedulability test: whoever has one knows its answers and their laws, and nothing else of it.
pub trait Test {
    // What the test means: its answer to every question.
    ghost answer: { Self → Meaning };

    /// The bound on the task's response time, or none where the task is late.
    fn ask(&self, q: &Question<'_>) -> Option<u32>
        ensures { result ≡ answer self.now (asked q.now) };

    // What each test keeps.
    ghost kept: { (test : Self) → Laws (answer test) };
}
