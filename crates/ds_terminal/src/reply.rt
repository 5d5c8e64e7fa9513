//! What a terminal replies.

use crate::refused::Refused;
use ds_screen::Effect;

/// What becomes of a record.
#[derive(Debug, Drop)]
pub enum RecordReply {
    /// It is shown.
    Shown(Effect),
    /// It is a read, and these bytes answer it.
    Sent(Vec<u8>),
    /// It is a No-operation.
    Nothing,
    /// It is refused, and changes nothing.
    Refused(Refused),
}

/// What becomes of a key.
#[derive(Debug, Drop)]
pub enum KeyReply {
    /// The key did what it is for.
    Done,
    /// The key can't act here, and the keyboard is in error.
    Inhibited,
    /// The keyboard is locked, or there is no such key: nothing changed.
    Ignored,
    /// The terminal sends these bytes, the answer to Read Modified.
    Sent(Vec<u8>),
}
