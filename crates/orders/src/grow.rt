// Growth: the ends of a closed range moved out as far as it stays closed.
ghost use Rattle.table.specs.Rows.{view};
ghost use Rattle.orders.specs.Growth.{Grown, GivenBack, GrownMaximal, Narrowing};

use crate::range::Range;
use crate::settle::settle;
use crate::settled::Settled;
use bounds::Test;
use table::Table;

/// The grown form of a closed range: row by row the low goes down to the least value, at least the
/// wcet, that leaves the range closed, and then the high up to the greatest, at most the deadline.
/// What is open, or no range of the table, is given back as it is.
pub fn grow<T: Test>(test: &T, table: &Table, range: &Range) -> Range
    ensures rule { Grown (T.answer test.now) (view table.now) range.now result }
    ensures back { GivenBack (T.answer test.now) (view table.now) range.now result }
    ensures maximal { GrownMaximal (T.answer test.now) (view table.now) range.now result }
    ensures narrowing { Narrowing (T.answer test.now) (view table.now) }
{
    match settle(test, table, range) {
        Settled::Order(_) => *range,
        Settled::Grown(grown) => grown,
    }
}
