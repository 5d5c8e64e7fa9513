//! What a line of a script waits for.

use crate::came::Need;
use crate::host::Host;
use script_keys::Keys;
use script_requests::Wait;
use script_screens::Outcome;

/// A text that is being typed.
#[derive(Debug, Drop)]
pub(crate) struct Typing {
    /// What is left of the text.
    pub(crate) text: Vec<u8>,
    /// A key of it was sent.
    pub(crate) after_send: bool,
}

/// What is under way.
#[derive(Debug, Drop)]
pub(crate) enum Doing {
    /// What has arrived of the host is taken, before the line.
    Arriving,
    /// A host is called.
    Calling(Host),
    /// The host is connected, and its first record waited for.
    Opening,
    /// A key that sends was pressed, and the keyboard is waited for.
    Sent,
    /// Keys are to be pressed once the keyboard is free.
    Pressing(Keys),
    /// A character is to be typed once it is.
    TypingCode(u8),
    /// A text is.
    Typing(Typing),
    Waiting(Wait),
    /// The screen is written to this file.
    Writing(Vec<u8>),
    /// The screen is judged by the layout of this file.
    Checking(Vec<u8>),
}

/// How far an action has come.
#[derive(Debug, Drop)]
pub(crate) enum Step {
    /// It is over.
    Ended(Outcome),
    /// It goes on once this came.
    Waits(Doing, Need),
    /// It ends the script.
    Quits,
}
