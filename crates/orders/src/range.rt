// A range of a table.

/// A low and a high for each row, in its place. Two arrays and not one of pairs: the lows are lent
/// to a question as its estimates, as they stand.
#[derive(Clone, Copy, PartialEq, Eq, Debug)]
pub struct Range {
    pub lows: [u32; 32],
    pub highs: [u32; 32],
}
