// What a value line is asked.
ghost use Rattle.std.specs.Prelude.{◌≡◌, ◌+◌, ◌<◌, ◌≤◌, ◌↔◌, [], length, slice_index_or};
ghost use Rattle.std.specs.Prelude.{IsTrue, MatchOption, MatchResult};
ghost use Rattle.sheets.specs.Texts.{fields_in};
ghost use Rattle.sheets.specs.Reading.{IsOfKind};
ghost use Rattle.sheets.specs.Lines.{FitsAt, FirstMisfit, Fits, LineFails};

use crate::field::{is_name, number};
use crate::form::{Column, Kind, place};
use crate::reader::{LONGEST, Part, Reader};
use table::fault::Fault;

// Whether the field has the form of its kind.
fn is_of_kind(field: &[u8], kind: Kind) -> bool
    ensures { IsTrue result ↔ IsOfKind kind field.now }
{
    match kind {
        Kind::Name => is_name(field),
        Kind::Number => number(field).is_some(),
    }
}

// How many fields the line has.
fn count_fields(line: &[u8]) -> usize
    requires { length line.now ≤ LONGEST }
    ensures { result ≡ length (fields_in line.now) }
{
    line.iter().filter(|b| **b == b' ').count() + 1
}

// The number of the first field that has not the form of its column's kind, of as many as columns.
fn first_misfit(columns: &[Column], line: &[u8]) -> Option<u32>
    requires small { length line.now ≤ LONGEST }
    requires full { length (fields_in line.now) ≡ length columns.now }
    ensures { MatchOption result
        ((j : _) → j < length columns.now → FitsAt columns.now (fields_in line.now) j)
        (λ field. (j : _) × (field ≡ j + 1) × FirstMisfit columns.now (fields_in line.now) j) }
{
    let mut fields = Reader::new(line, b' ');
    for column in columns {
        let field = fields.next()?;
        if !is_of_kind(field.bytes, column.kind()) {
            return Some(field.number);
        }
    }
    None
}

/// Asks of a value line whether it has as many fields as columns, and each the form of its kind.
/// The faults are on the sheet of this number.
pub(crate) fn ask_line(sheet: u32, columns: &[Column], line: Part<'_>) -> Result<(), Fault>
    requires { length line.bytes.now ≤ LONGEST }
    ensures { MatchResult result
        (λ _. Fits columns.now (fields_in line.entry.bytes.now))
        (LineFails sheet columns.now line.entry.number (fields_in line.entry.bytes.now)) }
{
    if count_fields(line.bytes) != columns.len() {
        return Err(Fault::BadFieldCount(place(sheet, line.number, 0)));
    }
    match first_misfit(columns, line.bytes) {
        None => Ok(()),
        Some(field) => Err(Fault::BadField(place(sheet, line.number, field))),
    }
}

/// The field with so many fields on its left.
pub(crate) fn field_at(line: &[u8], at: usize) -> Option<Part<'_>>
    requires { length line.now ≤ LONGEST }
    ensures { MatchOption result
        (length (fields_in line.now) ≤ at)
        (λ part. (at < length (fields_in line.now))
        × (part.bytes.now ≡ slice_index_or (fields_in line.now) at []) × (part.number ≡ at + 1)) }
{
    let mut fields = Reader::new(line, b' ');
    for _ in 0..at {
        fields.next()?;
    }
    fields.next()
}
