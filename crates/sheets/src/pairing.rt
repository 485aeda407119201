// The pairing of a tasks sheet and an answer sheet.
ghost use Rattle.std.specs.Prelude.{◌≡◌, ◌+◌, IfOk, MatchResult};
ghost use Rattle.sheets.specs.Sheets.{line_place};
ghost use Rattle.sheets.specs.Pairs.{count_of, name_place, IsNewName, Answers, IsAnswered};
ghost use Rattle.sheets.specs.Pairs.{EachLine, FirstLine, RowsNamed, EachRowOnce, Pairs};

use crate::form::MOST_LINES;
use crate::sheet::Sheet;
use table::fault::Fault;

// Asks whether each name stands on the sheet only once.
fn ask_names(tasks: &Sheet<'_>) -> Result<(), Fault>
    ensures { MatchResult result
        (λ _. EachLine (IsNewName tasks.now) (count_of tasks.now))
        (λ fault. (k : _) × (fault ≡ Fault.RepeatedTask (name_place tasks.now k))
        × FirstLine (IsNewName tasks.now) (count_of tasks.now) k) }
{
    for i in 0..tasks.len() {
        let name = tasks.name(i + 1);
        if tasks.line_named(name.bytes, i).is_some() {
            return Err(Fault::RepeatedTask(name.place));
        }
    }
    Ok(())
}

// The rows that the answer names, line by line.
fn rows_named(tasks: &Sheet<'_>, answer: &Sheet<'_>) -> Result<[usize; MOST_LINES], Fault>
    ensures { MatchResult result
        (λ rows. EachLine (Answers tasks.now answer.now) (count_of answer.now)
        × RowsNamed tasks.now answer.now rows)
        (λ fault. (k : _) × (fault ≡ Fault.BadAnswer (name_place answer.now k))
        × FirstLine (Answers tasks.now answer.now) (count_of answer.now) k) }
{
    let mut rows = [0; MOST_LINES];
    for i in 0..answer.len() {
        let name = answer.name(i + 1);
        let Some(row) = tasks.line_named(name.bytes, tasks.len()) else {
            return Err(Fault::BadAnswer(name.place));
        };
        if answer.line_named(name.bytes, i).is_some() {
            return Err(Fault::BadAnswer(name.place));
        }
        rows[i] = row;
    }
    Ok(rows)
}

// Asks whether each task stands on the answer sheet.
fn ask_answered(tasks: &Sheet<'_>, answer: &Sheet<'_>) -> Result<(), Fault>
    ensures { MatchResult result
        (λ _. EachLine (IsAnswered tasks.now answer.now) (count_of tasks.now))
        (λ fault. (k : _) × (fault ≡ Fault.NoAnswer (line_place tasks.now k))
        × FirstLine (IsAnswered tasks.now answer.now) (count_of tasks.now) k) }
{
    for i in 0..tasks.len() {
        let name = tasks.name(i + 1);
        if answer.line_named(name.bytes, answer.len()).is_none() {
            return Err(Fault::NoAnswer(tasks.line_place(i + 1)));
        }
    }
    Ok(())
}

/// The rows that the value lines of the answer name, with 0 past the last. Refused where a name
/// stands on the tasks sheet twice (6), where an answered name is no task or is answered twice (7),
/// and where a task has no answer (8).
pub fn pair(tasks: &Sheet<'_>, answer: &Sheet<'_>) -> Result<[usize; MOST_LINES], Fault>
    ensures pair { Pairs tasks.now answer.now result }
    // So they are an order of the rows.
    ensures order { IfOk result (λ rows. EachRowOnce tasks.now answer.now rows) }
{
    ask_names(tasks)?;
    let rows = rows_named(tasks, answer)?;
    ask_answered(tasks, answer)?;
    Ok(rows)
}
