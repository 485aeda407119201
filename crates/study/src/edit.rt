// The edits of a study's table.
use table::Numbers;

/// An edit of a study's table.
#[derive(Clone, Copy, PartialEq, Eq, Debug)]
pub enum Edit {
    /// Puts the row of these numbers after the last one.
    Add { numbers: Numbers },
    /// Makes row `k` that of these numbers.
    Alter { k: usize, numbers: Numbers },
    /// Takes row `k` out.
    Remove { k: usize },
}
