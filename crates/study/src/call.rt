// What may be asked of a study.
use crate::edit::Edit;

/// A call of a study, as data.
#[derive(Clone, Copy, PartialEq, Eq, Debug)]
pub enum Call {
    /// Edits the table.
    Edit(Edit),
    /// Begins a search.
    Begin,
    /// Does one step of a search.
    Step,
}
