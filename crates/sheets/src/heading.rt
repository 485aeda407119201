// The columns that line 1 names.
ghost use Rattle.std.specs.Prelude.{◌≡◌, ◌+◌, ◌≤◌, ◌↔◌, ◌∷◌, length, All, Contains};
ghost use Rattle.std.specs.Prelude.{IsTrue, IfSome, MatchOption};
ghost use Rattle.sheets.specs.Forms.{columns_of, first_columns};
ghost use Rattle.sheets.specs.Readers.{left};
ghost use Rattle.sheets.specs.Texts.{fields_in};
ghost use Rattle.sheets.specs.Reading.{Heads, HasNames};

use crate::form::{Column, Form, MOST_COLUMNS};
use crate::reader::{LONGEST, Reader};

// Whether the column is in the list.
fn has(given: &[Column], column: Column) -> bool
    ensures { IsTrue result ↔ Contains given.now column }
{
    given.contains(&column)
}

// Whether the list has as many columns as the form, and each of these.
fn are_columns(form: Form, given: &[Column]) -> bool
    ensures { IsTrue result
        ↔ ((length given.now ≡ length (columns_of form))
        × All (Contains given.now) (columns_of form)) }
{
    let columns = form.columns();
    given.len() == columns.len() && columns.iter().all(|column| has(given, *column))
}

/// The columns from left to right, if they are the form's, each once; past them stands a filler.
pub(crate) fn columns_named(form: Form, names: &[u8]) -> Option<[Column; MOST_COLUMNS]>
    requires { length names.now ≤ LONGEST }
    ensures { MatchOption result
        (¬ HasNames form (fields_in names.now))
        (λ columns. Heads form (fields_in names.now) (first_columns form columns)) }
{
    let columns = form.columns();
    let mut given = [Column::Task; MOST_COLUMNS];
    let mut count = 0;
    let mut fields = Reader::new(names, b' ');
    while let Some(field) = fields.next() {
        let column = Column::named(field.bytes)?;
        if count == columns.len() {
            return None;
        }
        given[count] = column;
        count += 1;
    }
    are_columns(form, &given[..count]).then_some(given)
}

/// The columns that the next line names, if they are the form's, each once.
pub(crate) fn next_columns(form: Form, lines: &mut Reader<'_>) -> Option<[Column; MOST_COLUMNS]>
    ensures columns { MatchOption result
        ((names : _) (rest : _) → left lines.old ≡ names ∷ rest → ¬ HasNames form (fields_in names))
        (λ columns. (names : _) × (left lines.old ≡ names ∷ left lines.new)
        × Heads form (fields_in names) (first_columns form columns)) }
    ensures number { IfSome result (λ _. lines.new.number ≡ lines.old.number + 1) }
{
    let names = lines.next()?;
    columns_named(form, names.bytes)
}
