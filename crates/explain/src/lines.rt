// The lines of an explanation, each without its line feed.
ghost use Rattle.std.specs.Prelude.{◌≡◌, IfOk, string_bytes};
ghost use Rattle.explain.specs.Files.{form_at};
ghost use Rattle.explain.specs.Explained.{numbered, place_words, fault_line, cause_line};
ghost use Rattle.explain.specs.Explained.{hint_line, verdict_line, miss_words, miss_line};

use crate::cause::{Cause, cause_words};
use crate::file::{file_name, form_at};
use marking::report::Verdict;
use sheets::Form;
use std::alloc::{AllocError, Global};
use table::{Fault, Place};

// Words and a number behind them; nothing where it is 0.
fn numbered(alloc: Global, words: &str, number: u32) -> Result<String, AllocError>
    ensures { IfOk result (λ text. string_bytes text ≡ numbered words.now number) }
{
    if number == 0 {
        Ok(String::new(alloc))
    } else {
        format!(in alloc; "{words}{number}")
    }
}

// Where a fault lies; nothing where there is no sheet.
fn place_words(alloc: Global, place: Place) -> Result<String, AllocError>
    ensures { IfOk result (λ text. string_bytes text ≡ place_words (form_at place.sheet) place) }
{
    let Some(form) = form_at(place.sheet) else {
        return Ok(String::new(alloc));
    };
    let file = file_name(form);
    let line = numbered(alloc, ", line ", place.line)?;
    let field = numbered(alloc, ", field ", place.field)?;
    format!(in alloc; "{file}{line}{field}: ")
}

/// The line of a fault: where it lies, its words, and the number of its question.
pub(crate) fn fault_line(alloc: Global, fault: Fault) -> Result<String, AllocError>
    ensures { IfOk result (λ line. string_bytes line ≡ fault_line fault) }
{
    let place = place_words(alloc, fault.place())?;
    let number = fault.number();
    format!(in alloc; "{place}{fault} (question {number})")
}

/// The line of a cause.
pub(crate) fn cause_line(alloc: Global, form: Form, cause: Cause) -> Result<String, AllocError>
    ensures { IfOk result (λ line. string_bytes line ≡ cause_line form cause) }
{
    let file = file_name(form);
    let words = cause_words(cause);
    format!(in alloc; "{file} {words}")
}

/// The hint on a line that ends in a carriage return.
pub(crate) fn hint_line(alloc: Global, form: Form, line: u32) -> Result<String, AllocError>
    ensures { IfOk result (λ hint. string_bytes hint ≡ hint_line form line) }
{
    let file = file_name(form);
    format!(in alloc;
        "{file}, line {line} ends in a carriage return: a line must end in a line feed alone"
    )
}

/// The line of a verdict.
pub(crate) fn verdict_line(verdict: Verdict) -> &'static str
    ensures { result.now ≡ verdict_line verdict }
{
    match verdict {
        Verdict::Found => "found: in this order no task is late under the board's test",
        Verdict::None => "none: each order of these tasks has a late task under the board's test",
        Verdict::Stopped => {
            "stopped: the lists of the search are full, which says nothing of whether there is \
             an order"
        }
    }
}

// What a bound, or that there is none, says of a task that misses its estimate.
fn miss_words(alloc: Global, bound: Option<u32>) -> Result<String, AllocError>
    ensures { IfOk result (λ words. string_bytes words ≡ miss_words bound) }
{
    match bound {
        Some(bound) => format!(in alloc; " has the bound {bound}, above its estimate"),
        None => String::from_str(alloc, " is late"),
    }
}

/// The line of the first task that misses its estimate.
pub(crate) fn miss_line(
    alloc: Global,
    task: &[u8],
    bound: Option<u32>,
) -> Result<Vec<u8>, AllocError>
    ensures { IfOk result (λ line. line.items ≡ miss_line task.now bound) }
{
    let mut line = Vec::from_slice(alloc, b"fails: task ")?;
    line.extend_from_slice(task)?;
    line.extend_from_slice(miss_words(alloc, bound)?.as_bytes())?;
    Ok(line)
}
