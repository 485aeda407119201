// A sound question on its rows.
ghost use Rattle.std.specs.Prelude.{◌≡◌};
ghost use Rattle.bounds.specs.Questions.{Asked, Sound, own};

use table::Row;

/// A task, the tasks above it and the estimates, on rows on which they are sound.
#[derive(Clone, Copy)]
pub(crate) struct Posed<'a> {
    pub rows: &'a [Row],
    pub task: usize,
    pub above: &'a [bool; 32],
    pub estimates: &'a [u32; 32],
    ghost sound: { Sound (record {
      rows = rows.now;
      task = task;
      above = above.now;
      estimates = estimates.now;
    }) },
}

impl Posed<'_> {
    ghost use Rattle.bounds.specs.Posing.{question_of};

    // The row of the task.
    pub(crate) fn own(&self) -> Row
        ensures { result ≡ own (question_of self.now) }
    {
        self.rows[self.task - 1]
    }
}
