// The bounds of an order, from the top down.
ghost use Rattle.std.specs.Prelude.{◌≡◌, length};
ghost use Rattle.table.specs.Rows.{view};
ghost use Rattle.bounds.specs.Orders.{Found, Analyses};

use crate::estimates::wcets_of;
use crate::ordered::Ordered;
use crate::question::Question;
use crate::test::Test;
use table::{Fault, Table};

// Goes down the order until a task is late, and writes each bound in its row's place.
fn find_bounds<T: Test>(test: &T, ordered: &Ordered<'_>, bounds: &mut [u32]) -> Option<usize>
    requires { length bounds.old ≡ length (view ordered.now.table.now) }
    ensures { let rows = view ordered.now.table.now in
        Found (T.answer test.now) rows ordered.now.order.now result bounds.new }
{
    let mut above = [false; 32];
    let mut estimates = wcets_of(ordered.table.rows());
    bounds.fill(0);
    for &task in ordered.order {
        let question = Question {
            table: ordered.table,
            task,
            above: &above,
            estimates: &estimates,
        };
        let Some(bound) = test.ask(&question) else {
            return Some(task);
        };
        above[task - 1] = true;
        estimates[task - 1] = bound;
        bounds[task - 1] = bound;
    }
    None
}

/// Finds the bounds of the order's tasks from the top down, writes row `k`'s in place `k`, and 0
/// for the first late task and all below it. The answer is the first late task, if there is one.
/// Refused where the table has no row (13), the list is no order of its rows (17), or the list for
/// the bounds has not one place a row (18); the bounds are then as they were.
pub fn analyse<T: Test>(
    test: &T,
    table: &Table,
    order: &[usize],
    bounds: &mut [u32],
) -> Result<Option<usize>, Fault>
    ensures { Analyses (T.answer test.now) (view table.now) order.now bounds.old result bounds.new }
{
    let ordered = Ordered::new(table, order)?;
    if bounds.len() != table.len() {
        return Err(Fault::BadLength);
    }
    Ok(find_bounds(test, &ordered, bounds))
}
