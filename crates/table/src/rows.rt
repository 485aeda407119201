// A table of 0 to 32 rows, in an array with a length: no library crate has a heap for a `Vec`.
// It has no model: that a refused call leaves it as it was is said of the whole table, not of
// what clients see.
ghost use Rattle.std.specs.Prelude.{◌≡◌, ◌+◌, ◌-◌, ◌<◌, ◌≤◌, ◌↔◌, [], length};
ghost use Rattle.std.specs.Prelude.{IsTrue, IfSome, IfNone};
ghost use Rattle.std.specs.Borrow.{sem, LendsIf};
ghost use Rattle.table.specs.Places.{nth, put};
ghost use Rattle.table.specs.declared.rows.TheConstants.{MOST_ROWS};

use crate::fault::Fault;
use crate::numbers::Numbers;
use crate::row::Row;

/// The most rows that a table may have.
pub const MOST_ROWS: usize = 32;

/// The rows of a table, row 1 first. What they are is a parameter, so that one row can be lent.
#[derive(Drop)]
pub struct Rows<X> {
    rows: [X; MOST_ROWS],
    len: usize,
    ghost ok: { len ≤ MOST_ROWS },
}

/// A table of tasks.
pub type Table = Rows<Row>;

impl<X> Rows<X> {
    ghost use Rattle.table.specs.Rows.{table_type, with_row, view};

    // The place of row `k`, counted from 0, if there is such a row.
    fn place_of(&self, k: usize) -> Option<usize>
        ensures named { IfSome result (λ place. (k ≡ place + 1) × (place < self.now.len)) }
        ensures none { IfNone result (¬ ((1 ≤ k) × (k ≤ self.now.len))) }
    {
        let place = k.checked_sub(1)?;
        (place < self.len).then_some(place)
    }

    // Lends row `k`, if there is one.
    fn row_mut(&mut self, k: usize) -> Option<&mut X>
        ensures* follows { sem 𝓛 (LendsIf (table_type X.row) X.row
            self.entry result (with_row self.old (k - 1)) self.old) }
        ensures value { IfSome result (λ row. (d : X) → row.now ≡ nth (view self.old) k d) }
        ensures same { IfSome result (λ row. with_row self.old (k - 1) row.now ≡ self.old) }
        ensures rows { IfSome result (λ _. (w : X)
            → view (with_row self.old (k - 1) w) ≡ put (view self.old) k w) }
        ensures named { IfSome result (λ _. (1 ≤ k) × (k ≤ length (view self.old))) }
        ensures none { IfNone result (¬ ((1 ≤ k) × (k ≤ length (view self.old)))) }
    {
        let place = self.place_of(k)?;
        Some(&mut self.rows[place])
    }
}

impl Rows<Row> {
    ghost use Rattle.table.specs.Rows.{view, Adds, Alters, Removes, Reads};

    /// A table of no rows; the places past its end hold a filler.
    pub fn new() -> Table
        ensures { view result ≡ [] }
    {
        Rows {
            rows: [Row::FILLER; MOST_ROWS],
            len: 0,
        }
    }

    /// How many rows there are.
    pub fn len(&self) -> usize
        ensures rows { result ≡ length (view self.now) }
        ensures len { result ≡ self.now.len }
    {
        self.rows().len()
    }

    /// The rows, row 1 first.
    pub fn rows(&self) -> &[Row]
        ensures value { result.now ≡ view self.now }
        ensures len { length result.now ≡ self.now.len }
    {
        &self.rows[0..self.len]
    }

    /// Row `k`, or a refusal where there is none (10).
    pub fn row(&self, k: usize) -> Result<Row, Fault>
        ensures { Reads self.now k result }
    {
        let place = self.place_of(k).ok_or(Fault::NoRow)?;
        Ok(self.rows[place])
    }

    // The rules name this call. A derived `==` would compare the places past the end too.
    /// Whether both tables have the same rows in the same places.
    pub fn same(&self, other: &Table) -> bool
        ensures { IsTrue result ↔ (view self.now ≡ view other.now) }
    {
        self.rows() == other.rows()
    }

    /// Puts the row of these numbers after the last one. Refused where the table is full (9), and
    /// where the numbers make no row (11); the table is then as it was.
    pub fn add(&mut self, numbers: Numbers) -> Result<(), Fault>
        ensures { Adds self.old numbers result self.new }
    {
        if self.len() >= MOST_ROWS {
            return Err(Fault::Full);
        }
        let row = Row::new(numbers)?;
        self.rows[self.len] = row;
        self.len += 1;
        Ok(())
    }

    /// Makes row `k` that of these numbers; every other row stands as it stood. Refused where there
    /// is no row `k` (10), and where the numbers make no row (11); the table is then as it was.
    pub fn alter(&mut self, k: usize, numbers: Numbers) -> Result<(), Fault>
        ensures { Alters self.old k numbers result self.new }
    {
        let row = self.row_mut(k).ok_or(Fault::NoRow)?;
        *row = Row::new(numbers)?;
        Ok(())
    }

    /// Takes row `k` out; the later rows move up by one. Refused where there is no row `k` (10);
    /// the table is then as it was.
    pub fn remove(&mut self, k: usize) -> Result<(), Fault>
        ensures { Removes self.old k result self.new }
    {
        let place = self.place_of(k).ok_or(Fault::NoRow)?;
        self.rows[place..self.len].rotate_left(1);
        self.len -= 1;
        Ok(())
    }
}
