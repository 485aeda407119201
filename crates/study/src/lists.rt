// Ranges in a lent list: 64 numbers to a slot, the lows of 32 rows and then their highs.
ghost use Rattle.std.specs.Prelude.{◌≡◌, ℕ, ◌+◌, ◌*◌, ◌≤◌, ◌↔◌, length, take, drop, IfSome, IfNone, IsTrue};
ghost use Rattle.table.specs.Rows.{view};
ghost use Rattle.study.specs.Steps.{ZeroPast, IsSlot};
ghost use Rattle.study.specs.Slots.{written_over, slot, put_slot, HasSlots};

use orders::Range;
use orders::assign::is_range;
use table::{Row, Table};

// How many numbers a slot has, and how many rows they are for.
pub(crate) const SLOT: usize = 64;

const ROWS: usize = 32;

// The most slots that a list may have.
const MOST: usize = 4096;

// How many slots a list has, if it has 1 to 4,096 whole ones and nothing over.
pub(crate) fn slots_in(list: &[u32]) -> Option<usize>
    ensures some { IfSome result (λ slots. HasSlots list.now slots) }
    ensures none { IfNone result ((slots : ℕ) → HasSlots list.now slots → ⊥) }
{
    let slots = list.len() / SLOT;
    if slots < 1 || slots > MOST || slots * SLOT != list.len() {
        return None;
    }
    Some(slots)
}

// Writes 32 numbers, the first at a place counted from 0.
fn write_part(list: &mut [u32], at: usize, part: &[u32; 32])
    requires { at + 32 ≤ length list.old }
    ensures { list.new ≡ written_over list.old at part.now }
{
    list[at..at + ROWS].copy_from_slice(part);
}

// Reads 32 numbers, the first at a place counted from 0.
fn read_part(list: &[u32], at: usize) -> [u32; 32]
    requires { at + 32 ≤ length list.now }
    ensures { result ≡ take 32 (drop at list.now) }
{
    let mut part = [0; ROWS];
    part.copy_from_slice(&list[at..at + ROWS]);
    part
}

// Writes a range into a slot.
pub(crate) fn write_slot(list: &mut [u32], k: usize, range: &Range)
    requires { (1 ≤ k) × (64 * k ≤ length list.old) }
    ensures { list.new ≡ put_slot list.old k range.now }
{
    let at = SLOT * (k - 1);
    write_part(list, at, &range.lows);
    write_part(list, at + ROWS, &range.highs);
}

// The range in a slot.
pub(crate) fn read_slot(list: &[u32], k: usize) -> Range
    requires { (1 ≤ k) × (64 * k ≤ length list.now) }
    ensures { result ≡ slot list.now k }
{
    let at = SLOT * (k - 1);
    Range {
        lows: read_part(list, at),
        highs: read_part(list, at + ROWS),
    }
}

// Whether a list by row has 0 past its last row.
fn is_zero_past(numbers: &[u32; 32], rows: usize) -> bool
    requires { rows ≤ 32 }
    ensures { IsTrue result ↔ ZeroPast rows numbers.now }
{
    numbers[rows..].iter().all(|&number| number == 0)
}

// Whether this is a range of the table, with 0 past the last row.
pub(crate) fn is_slot(table: &Table, range: &Range) -> bool
    ensures { IsTrue result ↔ IsSlot (view table.now) range.now }
{
    let rows = table.len();
    is_range(table, range) && is_zero_past(&range.lows, rows) && is_zero_past(&range.highs, rows)
}
