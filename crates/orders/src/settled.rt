// What settling a range gives.
use crate::range::Range;

/// What is made of a range.
#[derive(Clone, Copy, PartialEq, Eq, Debug)]
pub enum Settled {
    /// It is open: the assigner's order for it.
    Order([usize; 32]),
    /// It is closed: its grown form. What is no range of the table is here as it is.
    Grown(Range),
}
