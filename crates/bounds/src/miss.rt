// What check finds.

/// A task that misses its estimate, and its answer: late (none), or above the estimate.
#[derive(Clone, Copy, PartialEq, Eq, Debug)]
pub struct Miss {
    pub task: usize,
    pub bound: Option<u32>,
}
