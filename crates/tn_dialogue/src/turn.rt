//! What an event does to a session.

/// What an event does to a session.
#[derive(Clone, Copy)]
pub(crate) enum Turn {
    /// It goes on.
    Goes,
    /// It is over.
    Finishes,
}
