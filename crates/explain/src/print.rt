// Text in, printed tables out, and their explanation to an output of its own.
ghost use Rattle.std.specs.Prelude.{IfOk, OnOk};
ghost use Rattle.std.specs.Process.{exit_status};
ghost use Rattle.marking.specs.Printed.{Prints};
ghost use Rattle.explain.specs.Printed.{Explains};

use crate::cause::Given;
use crate::explanation::explain;
use marking::mark::mark;
use marking::print::print_marked;
use std::alloc::Global;
use std::io;
use std::io::Write;
use std::process::ExitCode;

/// Prints the report on three texts, or their fault, as `print_marks` does, and says what it means
/// on another output. The texts are marked once. It gives the status to end with, and fails where
/// an output cannot be written or memory is lacking.
pub fn print_explained<W: Write, E: Write>(
    alloc: Global,
    board: Given<'_>,
    tasks: Given<'_>,
    answer: Given<'_>,
    out: &mut W,
    err: &mut E,
) -> io::Result<ExitCode>
    ensures prints { IfOk result (λ status.
        Prints board.entry.text.now tasks.entry.text.now answer.entry.text.now
        (W.contents out.old) (W.contents out.new) (exit_status status)) }
    ensures explains { OnOk result
        (Explains board.entry tasks.entry answer.entry (E.contents err.old) (E.contents err.new)) }
{
    let marked = mark(board.text, tasks.text, answer.text);
    let status = print_marked(alloc, &marked, out)?;
    err.write_all(&explain(alloc, &marked, board, tasks, answer)?)?;
    Ok(status)
}
