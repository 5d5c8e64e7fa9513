//! What is told of a record that was applied.

/// What a record asks of the terminal beside its cells.
#[derive(Clone, Copy, Debug, PartialEq, Eq)]
pub struct Effect {
    /// The alarm sounds (bit 04 of the write control character).
    pub alarm: bool,
    /// The keyboard is restored (bit 02, or Erase All Unprotected).
    pub restored: bool,
}
