// The worked examples, under one statement.
#![tactic(auto)]

ghost use Rattle.std.specs.Prelude.{◌≡◌, Ok};
ghost use Rattle.table.specs.Rows.{Table as TaskTable, view};
ghost use Rattle.worked.specs.Examples.{tasks, WorkedExamples};

use table::{Fault, Numbers, Table};

/// The table of the worked examples. Its contract states them.
pub fn worked_table() -> Result<Table, Fault>
    ensures rows { (t : TaskTable) × (result ≡ Ok t) × (view t ≡ tasks) }
    ensures examples { WorkedExamples }
{
    let mut table = Table::new();
    table.add(Numbers::of(2, 5, 5))?;
    table.add(Numbers::of(2, 5, 5))?;
    table.add(Numbers::of(3, 6, 6))?;
    Ok(table)
}
