//! Actions that press keys.

use crate::target::Target;
use ds_keys::Key;

/// What an action presses (s3270 4.1, in keys of the profile).
#[derive(Clone, Copy, Debug, PartialEq, Eq)]
pub enum Keys {
    /// This key. After an operator's error it does nothing, unless it is Reset.
    Plain(Key),
    /// This key, and Reset before it after an operator's error.
    Freeing(Key),
    /// Left and Delete, where an attribute isn't right before the cursor.
    Erase,
    /// To the end of what is typed in the field.
    FieldEnd,
    /// The whole field.
    DeleteField,
    /// The cursor to a place.
    MoveTo(Target),
}
