//! What became of a key.

/// What became of a key that was pressed at a terminal's session.
#[derive(Clone, Copy, Debug, PartialEq, Eq)]
pub enum Pressed {
    /// It did what it is for.
    Done,
    /// It can't act here, and the keyboard is in error.
    Inhibited,
    /// The keyboard is locked, the session isn't ready, or there is no such key: nothing changed.
    Ignored,
    /// The terminal sent its answer.
    Sent,
}
