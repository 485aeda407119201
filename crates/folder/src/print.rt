// What is printed of the sheets in a folder.
ghost use Rattle.std.specs.Prelude.{IfOk, OnOk};
ghost use Rattle.std.specs.Fn.{FnReturnsAt};
ghost use Rattle.std.specs.Process.{exit_status};
ghost use Rattle.folder.specs.Folders.{PrintsTexts, PrintsSheets, PrintsThree};
ghost use Rattle.folder.specs.Folders.{ExplainsTexts, ExplainsSheets, ExplainsThree};

use crate::files::open_file;
use crate::stream::Stream;
use crate::text::Texts;
use crate::texts::read_sheets;
use explain::print::print_explained;
use marking::print::print_marks;
use std::alloc::Global;
use std::fs::Files;
use std::io;
use std::io::Write;
use std::process::ExitCode;

/// Prints what there is to say of the three texts, and gives the status to end with.
pub fn print_texts<W: Write>(alloc: Global, texts: &Texts, out: &mut W) -> io::Result<ExitCode>
    ensures { IfOk result (λ status. PrintsTexts texts.now
        (W.contents out.old) (W.contents out.new) (exit_status status)) }
{
    let board = &texts.board.bytes;
    let tasks = &texts.tasks.bytes;
    let answer = &texts.answer.bytes;
    print_marks(alloc, board, tasks, answer, out)
}

/// Prints what there is to say of the three texts, and says what it means on another output; gives
/// the status to end with.
pub fn explain_texts<W: Write, E: Write>(
    alloc: Global,
    texts: &Texts,
    out: &mut W,
    err: &mut E,
) -> io::Result<ExitCode>
    ensures prints { IfOk result (λ status. PrintsTexts texts.now
        (W.contents out.old) (W.contents out.new) (exit_status status)) }
    ensures explains { OnOk result
        (ExplainsTexts texts.now (E.contents err.old) (E.contents err.new)) }
{
    let board = texts.board.given();
    let tasks = texts.tasks.given();
    let answer = texts.answer.given();
    print_explained(alloc, board, tasks, answer, out, err)
}

/// Prints what there is to say of the sheets in a folder, each of what the opener gives at its
/// file's path, and gives the status to end with.
pub fn print_sheets<S: Stream, F: Fn(&str) -> io::Result<Option<S>>, W: Write>(
    alloc: Global,
    folder: &str,
    opener: F,
    out: &mut W,
) -> io::Result<ExitCode>
    requires { F.IsAlwaysCallable opener }
    ensures { IfOk result (λ status.
        PrintsSheets S.remaining S.fails (FnReturnsAt F.Fn opener) folder.now
        (W.contents out.old) (W.contents out.new) (exit_status status)) }
{
    let texts = read_sheets(alloc, folder, opener)?;
    print_texts(alloc, &texts, out)
}

/// Prints what there is to say of the sheets in a folder, and gives the status to end with.
pub fn print_folder<R: Files + AllocGlobal, W: Write>(
    rt: &R,
    folder: &str,
    out: &mut W,
) -> io::Result<ExitCode>
    ensures { IfOk result (λ status. PrintsThree
        (W.contents out.old) (W.contents out.new) (exit_status status)) }
{
    print_sheets(rt.alloc(), folder, |path: &str| open_file(rt, path), out)
}

/// Prints what there is to say of the sheets in a folder, each of what the opener gives at its
/// file's path, and says what it means on another output; gives the status to end with.
pub fn explain_sheets<S: Stream, F: Fn(&str) -> io::Result<Option<S>>, W: Write, E: Write>(
    alloc: Global,
    folder: &str,
    opener: F,
    out: &mut W,
    err: &mut E,
) -> io::Result<ExitCode>
    requires { F.IsAlwaysCallable opener }
    ensures { IfOk result (λ status.
        ExplainsSheets S.remaining S.fails (FnReturnsAt F.Fn opener) folder.now
        (W.contents out.old) (W.contents out.new)
        (E.contents err.old) (E.contents err.new) (exit_status status)) }
{
    explain_texts(alloc, &read_sheets(alloc, folder, opener)?, out, err)
}

/// Prints what there is to say of the sheets in a folder, and says what it means on another output;
/// gives the status to end with.
pub fn explain_folder<R: Files + AllocGlobal, W: Write, E: Write>(
    rt: &R,
    folder: &str,
    out: &mut W,
    err: &mut E,
) -> io::Result<ExitCode>
    ensures { IfOk result (λ status. ExplainsThree
        (W.contents out.old) (W.contents out.new)
        (E.contents err.old) (E.contents err.new) (exit_status status)) }
{
    explain_sheets(
        rt.alloc(),
        folder,
        |path: &str| open_file(rt, path),
        out,
        err,
    )
}
