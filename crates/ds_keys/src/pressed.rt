//! What is answered to a key.

use ds_codec::Aid;

/// The answer to a key.
#[derive(Clone, Copy, Debug, PartialEq, Eq)]
pub enum Pressed {
    /// The key did what it is for.
    Done,
    /// The key cannot act here, and the keyboard is in error.
    Inhibited,
    /// The keyboard is locked, or there is no such key: nothing changed.
    Ignored,
    /// The terminal sends, for this attention identifier.
    Sent(Aid),
}
