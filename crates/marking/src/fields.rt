// The fields of a sheet that was read, where they are known to be there.
ghost use Rattle.std.specs.Prelude.{◌≡◌};
ghost use Rattle.sheets.specs.Sheets.{HasField, field_of, field_place};
ghost use Rattle.marking.specs.Questions.{number_under, HasNumber};

use sheets::{Column, Field, Sheet};

/// The field under a column in the k-th value line.
pub(crate) fn field<'a>(sheet: &Sheet<'a>, k: usize, column: Column) -> Field<'a>
    requires { HasField sheet.now k column }
    ensures bytes { result.bytes.now ≡ field_of sheet.now k column }
    ensures place { result.place ≡ field_place sheet.now k column }
{
    sheet.field(k, column).unwrap()
}

/// The number under a column in the k-th value line.
pub(crate) fn number(sheet: &Sheet<'_>, k: usize, column: Column) -> u32
    requires { HasNumber sheet.now k column }
    ensures { result ≡ number_under sheet.now k column }
{
    field(sheet, k, column).number().unwrap()
}
