// The three sheets.
ghost use Rattle.std.specs.Prelude.{MatchResult};
ghost use Rattle.sheets.specs.Sheets.{IsFull};
ghost use Rattle.marking.specs.Questions.{TextsFail};
ghost use Rattle.marking.specs.Reports.{Read};

use sheets::{Form, Sheet};
use table::Fault;

/// A board, its tasks and an answer.
#[derive(Drop)]
pub(crate) struct Trio<'a> {
    pub board: Sheet<'a>,
    pub tasks: Sheet<'a>,
    pub answer: Sheet<'a>,
}

impl<'a> Trio<'a> {
    /// Reads three texts, the board first.
    pub(crate) fn read(
        board: &'a [u8],
        tasks: &'a [u8],
        answer: &'a [u8],
    ) -> Result<Trio<'a>, Fault>
        ensures { MatchResult result
            (λ s. Read board.now tasks.now answer.now s.board s.tasks s.answer
            × (IsFull s.board × IsFull s.tasks × IsFull s.answer))
            (λ fault. TextsFail board.now tasks.now answer.now fault) }
    {
        Ok(Trio {
            board: Sheet::read(Form::Board, 1, board)?,
            tasks: Sheet::read(Form::Tasks, 2, tasks)?,
            answer: Sheet::read(Form::Answer, 3, answer)?,
        })
    }
}
