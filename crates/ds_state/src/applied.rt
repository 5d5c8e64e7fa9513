//! What becomes of a record.

use ds_screen::Effect;
use ds_terminal::Refused;

/// What becomes of a record.
#[derive(Clone, Copy, Debug, PartialEq, Eq)]
pub enum Applied {
    /// It is shown.
    Shown(Effect),
    /// It is Read Buffer, which asks for an answer.
    ReadBuffer,
    /// It is Read Modified.
    ReadModified,
    /// It is Read Modified All.
    ReadModifiedAll,
    /// It is a No-operation.
    Nothing,
    /// It is refused, and changes nothing.
    Refused(Refused),
}
