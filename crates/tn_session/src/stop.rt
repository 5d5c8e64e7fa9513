//! Why a line stopped.

/// Why nothing more passes over a line.
#[derive(Clone, Copy, Debug, PartialEq, Eq)]
pub enum Stop {
    /// A read gave nothing.
    Ended,
    /// A read answered an error.
    ReadFailed,
    /// A write answered an error, or took nothing.
    WriteFailed,
}
