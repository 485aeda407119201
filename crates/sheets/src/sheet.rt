// A sheet: how a text is read as one, and the fields that it then gives.
ghost use Rattle.std.specs.Prelude.{◌≡◌, ◌≤◌, ◌++◌, ◌∷◌, [], length, position};
ghost use Rattle.std.specs.Prelude.{bytes_eq, All, MatchOption};
ghost use Rattle.sheets.specs.declared.form.TheConstants.{MOST_LINES};
ghost use Rattle.sheets.specs.declared.reader.TheConstants.{LONGEST};
ghost use Rattle.sheets.specs.Forms.{name_of};
ghost use Rattle.sheets.specs.Reading.{IsSized};
ghost use Rattle.sheets.specs.Texts.{line_feed};

use crate::field::Field;
use crate::form::{Column, Form, MOST_COLUMNS, MOST_LINES, place};
use crate::heading::next_columns;
use crate::line::{ask_line, field_at};
use crate::reader::{LONGEST, Reader};
use table::fault::{Fault, Place};

/// A sheet that was read: it holds its value lines, as parts of the text, and its columns.
#[derive(Drop)]
pub struct Sheet<'a> {
    form: Form,
    number: u32,
    // From left to right; past the last column a filler.
    columns: [Column; MOST_COLUMNS],
    lines: [&'a [u8]; MOST_LINES],
    len: usize,
    ghost few: { len ≤ MOST_LINES },
    ghost short: { All (λ line. length line.now ≤ LONGEST) lines },
}

// The text without its last line feed, if it has one and the text is not too long.
fn body_of(text: &[u8]) -> Option<&[u8]>
    ensures { MatchOption result
        (¬ IsSized text.now)
        (λ body. IsSized text.now × (text.now ≡ body.now ++ line_feed ∷ [])) }
{
    let (last, body) = text.split_last()?;
    if *last == b'\n' && text.len() <= LONGEST {
        Some(body)
    } else {
        None
    }
}

// Where the column stands.
fn position_of(columns: &[Column], column: Column) -> Option<usize>
    ensures { result ≡ position (λ c. bytes_eq (name_of c) (name_of column)) columns.now }
{
    columns.iter().position(|c| c.is(column))
}

impl<'a> Sheet<'a> {
    ghost use Rattle.std.specs.Prelude.{◌≢◌, ◌+◌, ◌<◌, List, ℕ, IsOk, IfOk, IfSome};
    ghost use Rattle.table.specs.declared.fault.Fault.{Fault};
    ghost use Rattle.table.specs.Places.{nth};
    ghost use Rattle.sheets.specs.Forms.{place};
    ghost use Rattle.sheets.specs.Readers.{left};
    ghost use Rattle.sheets.specs.Reading.{IsFirst, IsSheet};
    ghost use Rattle.sheets.specs.Lines.{ReadsLines};
    ghost use Rattle.sheets.specs.Texts.{IsText};
    ghost use Rattle.sheets.specs.Sheets.{columns_in, lines_of, values_of, left_of};
    ghost use Rattle.sheets.specs.Sheets.{HasField, field_of, field_place, line_place};
    ghost use Rattle.sheets.specs.Sheets.{IsFull, ReadsText};
    ghost use Rattle.sheets.specs.Pairs.{task_of, name_place, EachLine};

    /// Reads a text as a sheet of the form, with any number: the places of its fields and in faults
    /// are on the sheet of this number. Refused where the text is no such sheet (1 to 5).
    #[tactic(auto, using(crate::proofs::Cuts::one_text, crate::proofs::Outcomes::one_first))]
    pub fn read(form: Form, number: u32, text: &'a [u8]) -> Result<Sheet<'a>, Fault>
        ensures read { ReadsText form number text.now result }
        ensures full { IfOk result IsFull }
        // What is a sheet is read, so a fault is given only for what is none.
        ensures whole { (lines : List (List (List ℕ))) (columns : _)
            → IsSheet form text.now lines columns → IsOk result }
        // A text is of no other lines.
        ensures one { (lines others : List (List (List ℕ)))
            → IsText text.now lines → IsText text.now others → lines ≡ others }
        // It has no other first fault.
        ensures first { (one other : Fault)
            → IsFirst form number text.now one → IsFirst form number text.now other → one ≡ other }
    {
        let Some(body) = body_of(text) else {
            return Err(Fault::BadText(place(number, 0, 0)));
        };
        let mut lines = Reader::new(body, b'\n');
        match next_columns(form, &mut lines) {
            Some(columns) => Sheet::read_values(form, number, columns, lines),
            None => Err(Fault::BadNames(place(number, 1, 0))),
        }
    }

    // The value lines: line by line what each is asked, then how many they are.
    fn read_values(
        form: Form,
        number: u32,
        given: [Column; MOST_COLUMNS],
        mut lines: Reader<'a>,
    ) -> Result<Sheet<'a>, Fault>
        requires { lines.number ≡ 1 }
        ensures { ReadsLines form number given (left lines.entry) result }
    {
        let columns = &given[..form.columns().len()];
        let mut kept: [&'a [u8]; MOST_LINES] = [&[]; MOST_LINES];
        let mut len = 0;
        while let Some(line) = lines.next() {
            ask_line(number, columns, line)?;
            if len < kept.len() {
                kept[len] = line.bytes;
            }
            len += 1;
        }
        if len == 0 {
            return Err(Fault::BadLineCount(place(number, 1, 0)));
        }
        if len > form.most() {
            return Err(Fault::BadLineCount(place(number, form.most() as u32 + 2, 0)));
        }
        Ok(Sheet {
            form,
            number,
            columns: given,
            lines: kept,
            len,
        })
    }

    /// How many value lines there are.
    pub fn len(&self) -> usize
        ensures count { result ≡ length (values_of self.now) }
        ensures few { result ≤ MOST_LINES }
    {
        self.len
    }

    /// The field under a column in the k-th value line, if there is one.
    pub fn field(&self, k: usize, column: Column) -> Option<Field<'a>>
        ensures { MatchOption result
            (¬ HasField self.now k column)
            (λ field. HasField self.now k column × (field.bytes.now ≡ field_of self.now k column)
            × (field.place ≡ field_place self.now k column)) }
    {
        let line = self.line(k)?;
        let part = field_at(line, self.left_of(column))?;
        Some(Field {
            bytes: part.bytes,
            place: place(self.number, k as u32 + 1, part.number),
        })
    }

    // The k-th value line.
    fn line(&self, k: usize) -> Option<&'a [u8]>
        ensures line { MatchOption result
            (¬ ((1 ≤ k) × (k ≤ length (lines_of self.now))))
            (λ line. (1 ≤ k) × (k ≤ length (lines_of self.now))
            × (line.now ≡ nth (lines_of self.now) k [])) }
        ensures small { IfSome result (λ line. (k ≤ MOST_LINES) × (length line.now ≤ LONGEST)) }
    {
        let Sheet { lines, len, .. } = self;
        let place = k.checked_sub(1)?;
        if place < *len {
            Some(lines[place])
        } else {
            None
        }
    }

    // The columns, from left to right.
    fn columns(&self) -> &[Column]
        ensures { result.now ≡ columns_in self.now }
    {
        &self.columns[..self.form.columns().len()]
    }

    // How many columns stand left of one.
    fn left_of(&self, column: Column) -> usize
        ensures value { result ≡ left_of self.now column }
        ensures few { result ≤ MOST_COLUMNS }
    {
        let columns = self.columns();
        position_of(columns, column).unwrap_or(columns.len())
    }

    // The name in the k-th value line, or no byte where there is none.
    pub(crate) fn name(&self, k: usize) -> Field<'a>
        requires { k ≤ MOST_LINES }
        ensures name { result.bytes.now ≡ task_of self.now k }
        ensures place { result.place ≡ name_place self.now k }
    {
        let place = place(
            self.number,
            k as u32 + 1,
            self.left_of(Column::Task) as u32 + 1,
        );
        match self.field(k, Column::Task) {
            Some(field) => field,
            None => Field { bytes: &[], place },
        }
    }

    // The first of the first `count` value lines with this name.
    pub(crate) fn line_named(&self, name: &[u8], count: usize) -> Option<usize>
        requires { count ≤ MOST_LINES }
        ensures { MatchOption result
            (EachLine (λ k. task_of self.now k ≢ name.now) count)
            (λ k. (1 ≤ k) × (k ≤ count) × (task_of self.now k ≡ name.now)
            × ((i : _) → 1 ≤ i → i < k → task_of self.now i ≢ name.now)) }
    {
        for i in 0..count {
            if self.name(i + 1).bytes == name {
                return Some(i + 1);
            }
        }
        None
    }

    // The place of the k-th value line.
    pub(crate) fn line_place(&self, k: usize) -> Place
        requires { k ≤ MOST_LINES }
        ensures { result ≡ line_place self.now k }
    {
        place(self.number, k as u32 + 1, 0)
    }
}
