// What a search found.

/// An order that a search found, the highest task first and 0 past the last, and the estimates that
/// it was found for, by row.
#[derive(Clone, Copy, PartialEq, Eq, Debug)]
pub struct Finding {
    pub order: [usize; 32],
    pub estimates: [u32; 32],
}
