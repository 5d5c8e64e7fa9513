//! What a terminal's run tells.

/// How a terminal's run ended.
#[derive(Clone, Copy, Debug, PartialEq, Eq)]
pub enum RunEnd {
    /// The keyboard has been free, and no key is left.
    KeysUsed,
    /// The host closed the line.
    Closed,
}

/// What a terminal's run did.
#[derive(Clone, Copy, Debug, PartialEq, Eq)]
pub struct Report {
    /// How it ended.
    pub end: RunEnd,
    /// Answers that were sent, to reads and to keys.
    pub answers: u64,
    /// Records of other types that were passed over.
    pub passed: u64,
    /// Records that were refused.
    pub refused: u64,
}

/// What a tolerant terminal's run did.
#[derive(Clone, Copy, Debug, PartialEq, Eq)]
pub struct TolerantReport {
    /// How it ended.
    pub end: RunEnd,
    /// Answers that were sent, to reads and to keys.
    pub answers: u64,
    /// Records that were passed over.
    pub passed: u64,
    /// Records that were refused.
    pub refused: u64,
    /// What came while no record passes, and was ignored.
    pub ignored: u64,
    /// Keys that were inhibited.
    pub inhibited: u64,
}
