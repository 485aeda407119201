// Text in, report out.
ghost use Rattle.std.specs.Prelude.{◌≡◌, Ok, Err};
ghost use Rattle.table.specs.declared.fault.Fault.{Fault as OneFault};
ghost use Rattle.marking.specs.declared.report.Report.{Report as OneReport};
ghost use Rattle.marking.specs.Reports.{Marks, SameReport};

use crate::case::Case;
use crate::report::Report;
use crate::trio::Trio;
use table::Fault;

/// The report on a board, its tasks and an answer: the search of the tasks' rows under the board's
/// test, and the check of the answer; or the first fault.
pub fn mark<'a>(board: &'a [u8], tasks: &'a [u8], answer: &'a [u8]) -> Result<Report<'a>, Fault>
    ensures marks { Marks board.now tasks.now answer.now result }
    // Three texts have one report or one fault, and never both.
    ensures same { (r q : OneReport) → Marks board.now tasks.now answer.now (Ok r)
        → Marks board.now tasks.now answer.now (Ok q) → SameReport r q }
    ensures one { (f g : OneFault) → Marks board.now tasks.now answer.now (Err f)
        → Marks board.now tasks.now answer.now (Err g) → f ≡ g }
    ensures either { (r : OneReport) (f : OneFault) → Marks board.now tasks.now answer.now (Ok r)
        → Marks board.now tasks.now answer.now (Err f) → ⊥ }
{
    let Trio {
        board,
        tasks,
        answer,
    } = Trio::read(board, tasks, answer)?;
    let case = Case::new(&board, &tasks, &answer)?;
    case.report(&tasks, &answer)
}
