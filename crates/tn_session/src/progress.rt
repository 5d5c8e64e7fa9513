//! How far a session has come.

/// What a piece of the peer's stream made of a session.
#[derive(Clone, Copy, Debug, PartialEq, Eq)]
pub enum Progress {
    /// It waits for more of the stream.
    More,
    /// It is over. So many bytes of the piece were taken; those after them were not looked at.
    Done {
        /// The bytes up to and including the one that ended the session.
        taken: usize,
    },
}
