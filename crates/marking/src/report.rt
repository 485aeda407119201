// What `mark` says of a board, its tasks and an answer.

/// How the search ended.
#[derive(Clone, Copy, PartialEq, Eq, Debug)]
pub enum Verdict {
    Found,
    None,
    Stopped,
}

/// What came of the answer: it passes, or this is the first task that does not, with its bound if
/// it is not late.
#[derive(Clone, Copy, PartialEq, Eq, Debug)]
pub enum Outcome<'a> {
    Passes,
    Fails { task: &'a [u8], bound: Option<u32> },
}

/// A level of the order that was found: the name of its task, and the task's estimate.
#[derive(Clone, Copy, PartialEq, Eq, Debug)]
pub struct Level<'a> {
    pub task: &'a [u8],
    pub estimate: u32,
}

/// The verdict with its counts, the levels of the order that was found, and the outcome of the
/// answer.
#[derive(Clone, Copy, PartialEq, Eq, Debug)]
pub struct Report<'a> {
    pub verdict: Verdict,
    /// How many ledger ranges are counted.
    pub ranges: usize,
    pub steps: usize,
    /// How many levels there are: one a task where an order was found, and otherwise none.
    pub level_count: usize,
    /// The levels, the highest first. Past the last the name has no byte, and the estimate is 0.
    pub levels: [Level<'a>; 32],
    pub outcome: Outcome<'a>,
}
