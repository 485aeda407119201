// The bytes that are printed of a report and of a fault.
ghost use Rattle.std.specs.Prelude.{◌≡◌, [], ◌∷◌, ◌++◌, OnOk, IfOk};
ghost use Rattle.sheets.specs.Texts.{line_of, text_of};
ghost use Rattle.marking.specs.Rendered.{texts_of, word_of, bound_text, levels_shown};
ghost use Rattle.marking.specs.Rendered.{level_lines, outcome_line, report_lines, fault_lines};

use crate::report::{Level, Outcome, Report, Verdict};
use itoa::Buffer;
use sheets::Column;
use std::alloc::{AllocError, Global};
use table::Fault;

/// The word of a verdict.
fn word(verdict: Verdict) -> &'static [u8]
    ensures { result.now ≡ word_of verdict }
{
    match verdict {
        Verdict::Found => b"found",
        Verdict::None => b"none",
        Verdict::Stopped => b"stopped",
    }
}

/// Adds a line: the fields with one space between two, and a line feed.
fn push_line(out: &mut Vec<u8>, fields: &[&[u8]]) -> Result<(), AllocError>
    ensures { OnOk result
        (out.new.items ≡ out.old.items ++ line_of (texts_of fields.now) ++ 10 ∷ []) }
{
    if let [first, rest @ ..] = fields {
        out.extend_from_slice(first)?;
        for field in rest {
            out.push(b' ')?;
            out.extend_from_slice(field)?;
        }
    }
    out.push(b'\n')?;
    Ok(())
}

/// Adds the lines of the levels.
fn push_levels(out: &mut Vec<u8>, report: &Report<'_>) -> Result<(), AllocError>
    ensures { OnOk result (out.new.items
        ≡ out.old.items ++ text_of (level_lines report.now (levels_shown report.now))) }
{
    let levels: &[Level<'_>] = &report.levels;
    for place in 0..report.level_count.min(levels.len()) {
        let level = levels[place];
        let mut number = Buffer::new();
        let mut estimate = Buffer::new();
        push_line(
            out,
            &[
                number.format(place + 1).as_bytes(),
                level.task,
                estimate.format(level.estimate).as_bytes(),
            ],
        )?;
    }
    Ok(())
}

/// A bound in decimal, or that it is late.
fn bound_text(buffer: &mut Buffer, bound: Option<u32>) -> &[u8]
    ensures { result.now ≡ bound_text bound }
{
    match bound {
        Some(bound) => buffer.format(bound).as_bytes(),
        None => b"late",
    }
}

/// Adds the line of the answer.
fn push_outcome(out: &mut Vec<u8>, outcome: &Outcome<'_>) -> Result<(), AllocError>
    ensures { OnOk result
        (out.new.items ≡ out.old.items ++ line_of (outcome_line outcome.now) ++ 10 ∷ []) }
{
    match *outcome {
        Outcome::Passes => push_line(out, &[b"passes", b"-", b"0"]),
        Outcome::Fails { task, bound } => {
            let mut buffer = Buffer::new();
            push_line(out, &[b"fails", task, bound_text(&mut buffer, bound)])
        }
    }
}

/// The bytes of a report.
pub fn render_report(alloc: Global, report: &Report<'_>) -> Result<Vec<u8>, AllocError>
    ensures { IfOk result (λ bytes. bytes.items ≡ text_of (report_lines report.now)) }
{
    let mut out = Vec::new(alloc);
    let mut ranges = Buffer::new();
    let mut steps = Buffer::new();
    let ranges = ranges.format(report.ranges).as_bytes();
    let steps = steps.format(report.steps).as_bytes();
    push_line(&mut out, &[b"verdict", b"ranges", b"steps"])?;
    push_line(&mut out, &[word(report.verdict), ranges, steps])?;
    push_line(
        &mut out,
        &[b"level", Column::Task.name(), Column::Estimate.name()],
    )?;
    push_levels(&mut out, report)?;
    push_line(&mut out, &[b"answer", Column::Task.name(), b"bound"])?;
    push_outcome(&mut out, &report.outcome)?;
    Ok(out)
}

/// The bytes of a fault.
pub fn render_fault(alloc: Global, fault: Fault) -> Result<Vec<u8>, AllocError>
    ensures { IfOk result (λ bytes. bytes.items ≡ text_of (fault_lines fault)) }
{
    let place = fault.place();
    let mut number = Buffer::new();
    let mut sheet = Buffer::new();
    let mut line = Buffer::new();
    let mut field = Buffer::new();
    let mut out = Vec::new(alloc);
    push_line(&mut out, &[b"fault", b"sheet", b"line", b"field"])?;
    push_line(
        &mut out,
        &[
            number.format(fault.number()).as_bytes(),
            sheet.format(place.sheet).as_bytes(),
            line.format(place.line).as_bytes(),
            field.format(place.field).as_bytes(),
        ],
    )?;
    Ok(out)
}
