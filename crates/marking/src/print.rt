// Text in, printed tables out.
ghost use Rattle.std.specs.Prelude.{◌≡◌, IfOk};
ghost use Rattle.std.specs.Process.{exit_status};
ghost use Rattle.sheets.specs.Texts.{text_of};
ghost use Rattle.marking.specs.Printed.{printed_lines, status_after, PrintsMarked, Prints};

use crate::mark::mark;
use crate::render::{render_fault, render_report};
use crate::report::Report;
use std::alloc::{AllocError, Global};
use std::io;
use std::io::Write;
use std::process::ExitCode;
use table::Fault;

// The bytes of a report or of a fault.
fn render(alloc: Global, marked: &Result<Report<'_>, Fault>) -> Result<Vec<u8>, AllocError>
    ensures { IfOk result (λ bytes. bytes.items ≡ text_of (printed_lines marked.now)) }
{
    match marked {
        Ok(report) => render_report(alloc, report),
        Err(fault) => render_fault(alloc, *fault),
    }
}

// The status to end with after a report or a fault.
fn status_after(marked: &Result<Report<'_>, Fault>) -> ExitCode
    ensures { exit_status result ≡ status_after marked.now }
{
    match marked {
        Ok(_) => ExitCode::SUCCESS,
        Err(_) => ExitCode::FAILURE,
    }
}

/// Prints a report or a fault, and gives the status to end with.
pub fn print_marked<W: Write>(
    alloc: Global,
    marked: &Result<Report<'_>, Fault>,
    out: &mut W,
) -> io::Result<ExitCode>
    ensures { IfOk result (λ status. PrintsMarked marked.now
        (W.contents out.old) (W.contents out.new) (exit_status status)) }
{
    out.write_all(&render(alloc, marked)?)?;
    Ok(status_after(marked))
}

/// Prints the report on three texts, or their fault, and gives the status to end with.
pub fn print_marks<W: Write>(
    alloc: Global,
    board: &[u8],
    tasks: &[u8],
    answer: &[u8],
    out: &mut W,
) -> io::Result<ExitCode>
    ensures { IfOk result (λ status. Prints board.now tasks.now answer.now
        (W.contents out.old) (W.contents out.new) (exit_status status)) }
{
    let marked = mark(board, tasks, answer);
    print_marked(alloc, &marked, out)
}
