//! How many terminals are served.

/// How many terminals are served, and until when.
#[derive(Clone, Copy, Debug, PartialEq, Eq)]
pub struct Asked {
    /// How many are served; 0 is any number.
    pub count: u16,
    /// How many at once; 0 is one.
    pub at_once: u16,
    /// After how many answers it ends; 0 is any number.
    pub answers: u16,
    /// For how many seconds nothing need come of a terminal; 0 is any time.
    pub idle: u16,
    /// How many of one address are accepted in a second; 0 is any number.
    pub per_second: u16,
}
