// What is said of a report and of a fault.
ghost use Rattle.std.specs.Prelude.{◌≡◌, [], ◌∷◌, ◌++◌, IfOk, OnOk};
ghost use Rattle.explain.specs.Explained.{lines_text, ends_in_return, given_of, cause_lines};
ghost use Rattle.explain.specs.Explained.{hint_lines, fault_notes};
ghost use Rattle.explain.specs.Explained.{explained_fault, explained_report, explanation};

use crate::cause::{Given, cause_of};
use crate::file::form_at;
use crate::lines::{cause_line, fault_line, hint_line, miss_line, verdict_line};
use marking::report::{Outcome, Report};
use sheets::Form;
use std::alloc::{AllocError, Global};
use table::Fault;

// Adds a line.
fn push_line(out: &mut Vec<u8>, line: &[u8]) -> Result<(), AllocError>
    ensures { OnOk result (out.new.items ≡ out.old.items ++ lines_text (line.now ∷ [])) }
{
    out.extend_from_slice(line)?;
    out.push(b'\n')?;
    Ok(())
}

// Whether a line of a text ends in a carriage return.
fn ends_in_return(text: &[u8], line: u32) -> bool
    ensures { result ≡ ends_in_return text.now line }
{
    if line == 0 {
        return false;
    }
    match text.split(|byte| *byte == b'\n').nth(line as usize - 1) {
        Some(part) => part.ends_with(b"\r"),
        None => false,
    }
}

// The text of a sheet of the form, and how it was come by.
fn given_of<'a>(form: Form, board: Given<'a>, tasks: Given<'a>, answer: Given<'a>) -> Given<'a>
    ensures { result ≡ given_of form board.entry tasks.entry answer.entry }
{
    match form {
        Form::Board => board,
        Form::Tasks => tasks,
        Form::Answer => answer,
    }
}

// Adds why question 1 fails of a text, if that is the fault.
fn push_cause(
    alloc: Global,
    out: &mut Vec<u8>,
    fault: Fault,
    form: Form,
    given: Given<'_>,
) -> Result<(), AllocError>
    ensures { OnOk result
        (out.new.items ≡ out.old.items ++ lines_text (cause_lines fault form given.entry)) }
{
    if fault.number() == 1
        && let Some(cause) = cause_of(given)
    {
        push_line(out, cause_line(alloc, form, cause)?.as_bytes())?;
    }
    Ok(())
}

// Adds the hint where a line of a text ends in a carriage return.
fn push_hint(
    alloc: Global,
    out: &mut Vec<u8>,
    form: Form,
    text: &[u8],
    line: u32,
) -> Result<(), AllocError>
    ensures { OnOk result
        (out.new.items ≡ out.old.items ++ lines_text (hint_lines form text.now line)) }
{
    if ends_in_return(text, line) {
        push_line(out, hint_line(alloc, form, line)?.as_bytes())?;
    }
    Ok(())
}

// Adds what else is known of a fault on a sheet.
fn push_notes(
    alloc: Global,
    out: &mut Vec<u8>,
    fault: Fault,
    board: Given<'_>,
    tasks: Given<'_>,
    answer: Given<'_>,
) -> Result<(), AllocError>
    ensures { OnOk result
        (out.new.items ≡ out.old.items
        ++ lines_text (fault_notes fault board.entry tasks.entry answer.entry)) }
{
    let place = fault.place();
    let Some(form) = form_at(place.sheet) else {
        return Ok(());
    };
    let given = given_of(form, board, tasks, answer);
    push_cause(alloc, out, fault, form, given)?;
    push_hint(alloc, out, form, given.text, place.line)
}

// What is said of a fault.
fn explain_fault(
    alloc: Global,
    fault: Fault,
    board: Given<'_>,
    tasks: Given<'_>,
    answer: Given<'_>,
) -> Result<Vec<u8>, AllocError>
    ensures { IfOk result (λ bytes.
        bytes.items ≡ lines_text (explained_fault fault board.entry tasks.entry answer.entry)) }
{
    let mut out = Vec::new(alloc);
    push_line(&mut out, fault_line(alloc, fault)?.as_bytes())?;
    push_notes(alloc, &mut out, fault, board, tasks, answer)?;
    Ok(out)
}

// What is said of a report.
fn explain_report(alloc: Global, report: &Report<'_>) -> Result<Vec<u8>, AllocError>
    ensures { IfOk result (λ bytes. bytes.items ≡ lines_text (explained_report report.now)) }
{
    let mut out = Vec::new(alloc);
    push_line(&mut out, verdict_line(report.verdict).as_bytes())?;
    if let Outcome::Fails { task, bound } = report.outcome {
        push_line(&mut out, &miss_line(alloc, task, bound)?)?;
    }
    Ok(out)
}

/// The words, for people, on what `mark` says of a board, its tasks and an answer: of a report its
/// verdict, and the first task that misses its estimate, if one does; of a fault where it lies and
/// what it is, and more where more is known. It fails only where memory is lacking.
pub fn explain(
    alloc: Global,
    marked: &Result<Report<'_>, Fault>,
    board: Given<'_>,
    tasks: Given<'_>,
    answer: Given<'_>,
) -> Result<Vec<u8>, AllocError>
    ensures { IfOk result (λ bytes.
        bytes.items ≡ lines_text (explanation marked.now board.entry tasks.entry answer.entry)) }
{
    match marked {
        Ok(report) => explain_report(alloc, report),
        Err(fault) => explain_fault(alloc, *fault, board, tasks, answer),
    }
}
