//! What is done at the terminal of a script.

use ds_keys::Key;

/// A deed. Contracts see what was done in turn.
#[derive(Clone, Copy, Debug, PartialEq, Eq)]
pub enum Deed {
    /// A session began, with a terminal anew.
    Begun,
    /// So many bytes of the host were heard.
    Heard(usize),
    /// A key was pressed.
    Pressed(Key),
}
