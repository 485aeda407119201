// What a field is: a part of the text that is a name, or writes a number.
ghost use Rattle.std.specs.Prelude.{◌≡◌, ◌≤◌, ◌↔◌, IsTrue, MatchOption, All};
ghost use Rattle.sheets.specs.Fields.{IsName, IsNameByte, IsDigit, value, ReadsNumber};

use table::fault::Place;

/// The greatest number that a field may write.
const MOST: u32 = 1_000_000;

fn is_name_byte(b: u8) -> bool
    ensures { IsTrue result ↔ IsNameByte b }
{
    matches!(b, b'a'..=b'z' | b'0'..=b'9' | b'-')
}

/// Whether the field is a name.
pub(crate) fn is_name(field: &[u8]) -> bool
    ensures { IsTrue result ↔ IsName field.now }
{
    (1..=16).contains(&field.len()) && field.iter().all(|b| is_name_byte(*b))
}

/// The number that digits write, if they are digits and it is not too great.
fn digits_value(digits: &[u8]) -> Option<u32>
    ensures { MatchOption result
        (All IsDigit digits.now → ¬ (value digits.now ≤ MOST))
        (λ n. All IsDigit digits.now × (value digits.now ≡ n) × (n ≤ MOST)) }
{
    let mut n = 0;
    for digit in digits {
        if !digit.is_ascii_digit() {
            return None;
        }
        n = 10 * n + u32::from(digit - b'0');
        if n > MOST {
            return None;
        }
    }
    Some(n)
}

/// The number that the field writes: a lone zero, or digits of which the first is not zero.
pub(crate) fn number(field: &[u8]) -> Option<u32>
    ensures { ReadsNumber field.now result }
{
    match field {
        [b'0'] => Some(0),
        [b'1'..=b'9', ..] => digits_value(field),
        _ => None,
    }
}

/// A field: a part of the text, and where it stands on the sheet.
#[derive(Clone, Copy)]
pub struct Field<'a> {
    pub bytes: &'a [u8],
    pub place: Place,
}

impl Field<'_> {
    /// The number that the field writes, if it writes one.
    pub fn number(&self) -> Option<u32>
        ensures { ReadsNumber self.now.bytes.now result }
    {
        number(self.bytes)
    }
}
