// An order and estimates, checked from the top down.
ghost use Rattle.std.specs.Prelude.{◌≡◌, ℕ, ◌↔◌, length, IsTrue};
ghost use Rattle.std.specs.List.{list_all, zip};
ghost use Rattle.table.specs.declared.row.Row.{Row as OneRow};
ghost use Rattle.table.specs.Rows.{view, spans};
ghost use Rattle.bounds.specs.Orders.{Estimates, FirstMiss, Checks};

use crate::estimates::padded;
use crate::miss::Miss;
use crate::ordered::Ordered;
use crate::question::Question;
use crate::test::Test;
use table::{Fault, Place, Row, Table};

// Whether each estimate lies from its row's wcet to its deadline.
fn all_lie(rows: &[Row], estimates: &[u32]) -> bool
    ensures { let pairs = zip rows.now estimates.now in
        result ≡ list_all (λ (p : OneRow × ℕ). spans p.0 p.1 p.1) pairs }
{
    rows.iter()
        .zip(estimates)
        .all(|(row, &estimate)| row.spans(estimate, estimate))
}

// Whether there is one estimate for each row, from its wcet to its deadline.
fn are_estimates(rows: &[Row], estimates: &[u32]) -> bool
    ensures { IsTrue result ↔ Estimates rows.now estimates.now }
{
    estimates.len() == rows.len() && all_lie(rows, estimates)
}

// Goes down the order to the first task that misses its estimate.
fn first_miss<T: Test>(test: &T, ordered: &Ordered<'_>, estimates: &[u32]) -> Option<Miss>
    requires { length estimates.now ≡ length (view ordered.now.table.now) }
    ensures { let rows = view ordered.now.table.now in
        FirstMiss (T.answer test.now) rows ordered.now.order.now estimates.now result }
{
    let all = padded(estimates);
    let mut above = [false; 32];
    for &task in ordered.order {
        let question = Question {
            table: ordered.table,
            task,
            above: &above,
            estimates: &all,
        };
        let bound = test.ask(&question);
        let estimate = estimates[task - 1];
        if !bound.is_some_and(|found| found <= estimate) {
            return Some(Miss { task, bound });
        }
        above[task - 1] = true;
    }
    None
}

/// Checks an order and an estimate for each row, in its place. The answer is the first task from
/// the top whose own answer is late or above its estimate, with that answer, if there is one.
/// Refused where the table has no row (13), or the lists are no order and estimates of its rows
/// (17).
pub fn check<T: Test>(
    test: &T,
    table: &Table,
    order: &[usize],
    estimates: &[u32],
) -> Result<Option<Miss>, Fault>
    ensures { Checks (T.answer test.now) (view table.now) order.now estimates.now result }
{
    let ordered = Ordered::new(table, order)?;
    if !are_estimates(table.rows(), estimates) {
        return Err(Fault::BadOrder(Place::NOWHERE));
    }
    Ok(first_miss(test, &ordered, estimates))
}
