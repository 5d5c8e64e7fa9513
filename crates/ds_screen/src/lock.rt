//! The keyboard's lock.

/// Whether the operator's keys act (GA23-0059, "Keyboard").
#[derive(Clone, Copy, Debug, PartialEq, Eq)]
pub enum Lock {
    /// Keys act.
    Free,
    /// A record has to free the keyboard.
    Waiting,
    /// A key was inhibited: Reset frees the keyboard.
    Error,
}
