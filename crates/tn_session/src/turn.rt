//! What becomes of a run.

/// What an event does to a run.
#[derive(Clone, Copy)]
pub(crate) enum Turn {
    /// It goes on.
    Goes,
    /// It is over.
    Finishes,
}

/// How a run ends that doesn't fail.
#[derive(Clone, Copy)]
pub(crate) enum Finish {
    /// An event finished it.
    Finished,
    /// A read gave nothing.
    Closed,
}
