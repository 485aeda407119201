// Lists of 32 places, by row.
ghost use Rattle.std.specs.Prelude.{◌≡◌, slice_index};
ghost use Rattle.bounds.specs.Orders.{padded as filled, wcet_list, wcets};

use std::array;
use table::Row;

// The numbers in their places, and 0 past the last.
pub(crate) fn padded(numbers: &[u32]) -> [u32; 32]
    ensures { result ≡ filled numbers.now }
{
    array::from_fn(|place| numbers.get(place).copied().unwrap_or(0))
}

// The wcet of the row at a place, and 0 where there is no row.
fn wcet_at(rows: &[Row], place: usize) -> u32
    ensures { result ≡ slice_index (wcet_list rows.now) place }
{
    rows.get(place).map_or(0, |row| row.wcet())
}

/// Each row's wcet in its place, and 0 past the last row.
pub fn wcets_of(rows: &[Row]) -> [u32; 32]
    ensures { result ≡ wcets rows.now }
{
    array::from_fn(|place| wcet_at(rows, place))
}
