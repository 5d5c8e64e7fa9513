//! The files by whose names a log tells where results stand.

/// The paths of a layout and of records, as they were given.
#[derive(Clone, Copy, Debug, PartialEq, Eq)]
pub struct Paths<'a> {
    pub layout: &'a str,
    /// `stdin` for standard input.
    pub records: &'a str,
}
