//! What came to a terminal.

/// What came to a terminal, and what it answered.
#[derive(Clone, Copy, Debug, PartialEq, Eq)]
pub struct Arrived {
    /// Records of 3270 data that were taken: shown, answered, or No-operation.
    pub taken: u64,
    /// Records that were refused.
    pub refused: u64,
    /// Records of other types that were passed over.
    pub passed: u64,
    /// What came while no record passes, at a tolerant terminal.
    pub ignored: u64,
    /// Answers that were sent, to reads and to keys.
    pub answers: u64,
}
