//! Keys.

use ds_codec::Aid;

/// A key of the operator (GA23-0059, "Keyboard").
#[derive(Clone, Copy, Debug, PartialEq, Eq)]
pub enum Key {
    /// A character key: the code, 40 to FE.
    Typed(u8),
    Left,
    Right,
    Up,
    Down,
    Tab,
    BackTab,
    NewLine,
    Home,
    EraseEof,
    EraseInput,
    Delete,
    Reset,
    /// Enter, a PF or PA key, or Clear.
    Attention(Aid),
}
