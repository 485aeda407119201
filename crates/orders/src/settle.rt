// A range settled: an order that passes it, or its grown form.
ghost use Rattle.table.specs.Rows.{view};
ghost use Rattle.orders.specs.Assigner.{Assigns, FindsIfOpen, FillsLowest};
ghost use Rattle.orders.specs.Growth.{Grown, GivenBack, GrownMaximal, Narrowing};
ghost use Rattle.orders.specs.Settling.{order_of, grown_of};

use crate::closed::ClosedRange;
use crate::range::Range;
use crate::settled::Settled;
use crate::table_range::TableRange;
use bounds::Test;
use table::Table;

/// The order that `assign` gives, if it gives one, or else the range that `grow` gives. The
/// assigner is asked about the range once.
pub fn settle<T: Test>(test: &T, table: &Table, range: &Range) -> Settled
    ensures order { Assigns (T.answer test.now) (view table.now) range.now (order_of result) }
    ensures decides { FindsIfOpen (T.answer test.now) (view table.now) range.now (order_of result) }
    ensures lowest { FillsLowest (T.answer test.now) (view table.now) range.now (order_of result) }
    ensures grown { let grown = grown_of range.now result in
        Grown (T.answer test.now) (view table.now) range.now grown }
    ensures back { let grown = grown_of range.now result in
        GivenBack (T.answer test.now) (view table.now) range.now grown }
    ensures maximal { let grown = grown_of range.now result in
        GrownMaximal (T.answer test.now) (view table.now) range.now grown }
    ensures narrowing { Narrowing (T.answer test.now) (view table.now) }
{
    let Some(own) = TableRange::new(table, range) else {
        return Settled::Grown(*range);
    };
    match ClosedRange::new(test, own) {
        Ok(closed) => Settled::Grown(closed.grow()),
        Err(order) => Settled::Order(order),
    }
}
