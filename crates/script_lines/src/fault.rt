//! What is wrong with a line.

/// Why a line is no list of actions.
#[derive(Clone, Copy, Debug, PartialEq, Eq)]
pub enum SyntaxWhy {
    /// An action begins with no letter and no digit.
    NoName,
    /// Something else than a blank, `(` or the end comes after a name.
    BadName,
    /// The line ends before `)`.
    Close,
    /// Something else than `)` or `,` comes after an argument.
    CloseOrComma,
    /// The line ends before the closing quote.
    Unclosed,
}

/// A fault of syntax.
#[derive(Clone, Copy, Debug, PartialEq, Eq)]
pub struct SyntaxFault {
    /// What is wrong.
    pub why: SyntaxWhy,
    /// The column, from 1, counted from the beginning of the action at fault; at the end of the line the one after it.
    pub column: usize,
}
