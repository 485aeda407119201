// The board's test.
ghost use Rattle.std.specs.Prelude.{◌≡◌, ◌↔◌, IsTrue, MatchOption, MatchResult};
ghost use Rattle.table.specs.declared.fault.Fault.TheVariants.{BadTest as Bad};
ghost use Rattle.bounds.specs.Made.{Allowed};
ghost use Rattle.sheets.specs.declared.form.Form.TheVariants.{Board};
ghost use Rattle.sheets.specs.declared.form.Column.TheVariants.{Processors as M};
ghost use Rattle.sheets.specs.Sheets.{HasField, IsFull};
ghost use Rattle.sheets.specs.Pairs.{count_of};
ghost use Rattle.marking.specs.Questions.{number_under, HasNumber, HasTest, TestFails, IsTest};

use crate::fields::{field, number};
use bounds::{NamedTest, Overhead, Processors};
use sheets::{Column, Sheet};
use table::{Fault, Place};

// The place of the leftmost field at fault, if there is one.
fn misfit(board: &Sheet<'_>, allowed: bool) -> Option<Place>
    requires sheet { (board.now.form ≡ Board) × (count_of board.now ≡ 1) × IsFull board.now }
    requires allowed { IsTrue allowed ↔ Allowed (number_under board.now 1 M) }
    ensures { MatchOption result (HasTest board.now) (λ place. TestFails board.now (Bad place)) }
{
    let processors = field(board, 1, Column::Processors).place;
    let test = field(board, 1, Column::Test);
    match (allowed, NamedTest::has_name(test.bytes)) {
        (true, true) => None,
        (true, false) => Some(test.place),
        (false, true) => Some(processors),
        (false, false) if processors.field < test.place.field => Some(processors),
        (false, false) => Some(test.place),
    }
}

/// The board's test, under an overhead of its V.
pub(crate) fn test_of(board: &Sheet<'_>) -> Result<Overhead<NamedTest>, Fault>
    requires { (board.now.form ≡ Board) × (count_of board.now ≡ 1) × IsFull board.now }
    ensures { MatchResult result
        (λ test. HasTest board.now × IsTest board.now test)
        (λ fault. TestFails board.now fault) }
{
    let processors = Processors::new(number(board, 1, Column::Processors));
    if let Some(place) = misfit(board, processors.is_ok()) {
        return Err(Fault::BadTest(place));
    }
    let name = field(board, 1, Column::Test).bytes;
    let test = NamedTest::new(name, processors?)?;
    Overhead::new(number(board, 1, Column::Overhead), test)
}
