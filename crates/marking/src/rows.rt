// The rows of a tasks sheet.
ghost use Rattle.std.specs.Prelude.{◌≡◌, ◌≤◌, MatchResult};
ghost use Rattle.table.specs.Rows.{view};
ghost use Rattle.sheets.specs.declared.form.Form.TheVariants.{Tasks};
ghost use Rattle.sheets.specs.Pairs.{count_of, EachLine};
ghost use Rattle.sheets.specs.Sheets.{IsFull};
ghost use Rattle.marking.specs.Questions.{numbers_at as line_numbers, HasRow, RowFails};
ghost use Rattle.marking.specs.Reports.{RowsOf, HasHistory};

use crate::fields::{field, number};
use sheets::{Column, Sheet};
use study::Study;
use table::{Fault, Numbers, Place};

// A line as a whole, where a field of it stands.
fn whole_line(place: Place) -> Place
    ensures { (result.sheet ≡ place.sheet) × (result.line ≡ place.line)
        × (result.field ≡ 0) }
{
    Place { field: 0, ..place }
}

// The numbers in a value line.
fn numbers_at(tasks: &Sheet<'_>, k: usize) -> Numbers
    requires sheet { (tasks.now.form ≡ Tasks) × IsFull tasks.now }
    requires line { (1 ≤ k) × (k ≤ count_of tasks.now) }
    ensures { result ≡ line_numbers tasks.now k }
{
    Numbers {
        wcet: number(tasks, k, Column::Wcet),
        period: number(tasks, k, Column::Period),
        deadline: number(tasks, k, Column::Deadline),
    }
}

/// A study of the rows of the sheet.
pub(crate) fn study_of(tasks: &Sheet<'_>) -> Result<Study, Fault>
    requires { (tasks.now.form ≡ Tasks) × IsFull tasks.now }
    ensures { MatchResult result
        (λ s. EachLine (HasRow tasks.now) (count_of tasks.now)
        × RowsOf tasks.now (count_of tasks.now) (view s.table) × HasHistory s)
        (λ fault. RowFails tasks.now fault) }
{
    let mut study = Study::new();
    for i in 0..tasks.len() {
        if study.add(numbers_at(tasks, i + 1)).is_err() {
            let place = field(tasks, i + 1, Column::Task).place;
            return Err(Fault::BadRow(whole_line(place)));
        }
    }
    Ok(study)
}
