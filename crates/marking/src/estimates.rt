// The estimates of an answer.
ghost use Rattle.std.specs.Prelude.{◌≡◌, ◌≤◌, ◌↔◌};
ghost use Rattle.std.specs.Prelude.{IsTrue, Ok, length, MatchResult};
ghost use Rattle.sheets.specs.declared.form.Form.TheVariants.{Tasks, Answer};
ghost use Rattle.sheets.specs.Pairs.{count_of, EachLine, EachRowOnce, Pairs};
ghost use Rattle.sheets.specs.Sheets.{IsFull};
ghost use Rattle.marking.specs.Questions.{HasEstimate, EstimateFails};
ghost use Rattle.marking.specs.Reports.{EstimatesOf};

use crate::fields::{field, number};
use sheets::{Column, Sheet};
use table::Fault;

// Whether an estimate lies from a wcet to a deadline.
fn lies(estimate: u32, wcet: u32, deadline: u32) -> bool
    ensures { IsTrue result ↔ ((wcet ≤ estimate) × (estimate ≤ deadline)) }
{
    (wcet..=deadline).contains(&estimate)
}

/// The estimates by row, where `order` has the rows that the answer names, line by line.
pub(crate) fn estimates_of(
    tasks: &Sheet<'_>,
    answer: &Sheet<'_>,
    order: &[usize; 32],
) -> Result<[u32; 32], Fault>
    requires tasks { (tasks.now.form ≡ Tasks) × IsFull tasks.now }
    requires answer { (answer.now.form ≡ Answer) × IsFull answer.now }
    requires order { Pairs tasks.now answer.now (Ok order.now)
        × EachRowOnce tasks.now answer.now order.now }
    ensures { MatchResult result
        (λ estimates. EachLine (HasEstimate tasks.now answer.now) (count_of answer.now)
        × EstimatesOf answer.now order.now estimates (count_of answer.now)
        × (length estimates ≡ 32))
        (λ fault. EstimateFails tasks.now answer.now fault) }
{
    let mut estimates = [0; 32];
    for i in 0..answer.len() {
        let row = order[i];
        let wcet = number(tasks, row, Column::Wcet);
        let deadline = number(tasks, row, Column::Deadline);
        let estimate = number(answer, i + 1, Column::Estimate);
        if !lies(estimate, wcet, deadline) {
            let place = field(answer, i + 1, Column::Estimate).place;
            return Err(Fault::BadOrder(place));
        }
        estimates[row - 1] = estimate;
    }
    Ok(estimates)
}
