// A table with an order of its rows.
ghost use Rattle.std.specs.Prelude.{◌≡◌, ◌≤◌, ◌↔◌, length, IsTrue, IfOk, IfErr};
ghost use Rattle.table.specs.Rows.{view};
ghost use Rattle.bounds.specs.Orders.{Order, RefusesOrder};

use table::{Fault, Place, Table};

// The table has a row, and the list names each of its rows once.
#[derive(Clone, Copy)]
pub(crate) struct Ordered<'a> {
    pub table: &'a Table,
    pub order: &'a [usize],
    ghost some: { 1 ≤ length (view table.now) },
    ghost each_once: { Order (view table.now) order.now },
}

// Whether the list names each of the table's rows once.
fn is_order(table: &Table, order: &[usize]) -> bool
    ensures { IsTrue result ↔ Order (view table.now) order.now }
{
    let rows = table.len();
    if order.len() != rows {
        return false;
    }
    let mut seen = [false; 32];
    for &task in order {
        if task == 0 || task > rows || seen[task - 1] {
            return false;
        }
        seen[task - 1] = true;
    }
    true
}

impl Ordered<'_> {
    // The table with this order, or a refusal: it has no row, or the list is no order of its rows.
    pub(crate) fn new<'a>(table: &'a Table, order: &'a [usize]) -> Result<Ordered<'a>, Fault>
        ensures parts { IfOk result (λ o. (o.table.now ≡ table.now) × (o.order.now ≡ order.now)) }
        ensures refused { IfErr result (λ fault. RefusesOrder (view table.now) order.now fault) }
    {
        if table.rows().is_empty() {
            return Err(Fault::Empty);
        }
        if !is_order(table, order) {
            return Err(Fault::BadOrder(Place::NOWHERE));
        }
        Ok(Ordered { table, order })
    }
}
