//! Why a record is refused.

ghost use Rattle.std.specs.Prelude.{◌≡◌};
ghost use Rattle.ds_codec.specs.Refused.{why_words};

use std::fmt;
use thiserror::Error;

/// What is wrong at a place of a record.
#[derive(Clone, Copy, Debug, PartialEq, Eq)]
pub enum Why {
    /// O1: there is no byte.
    Empty,
    /// O2: the first byte is no command.
    UnknownCommand,
    /// O3: structured fields are not taken.
    StructuredField,
    /// O4: a write ends before its write control character.
    NoWcc,
    /// O5: the byte begins no order and is no text.
    UnknownOrder,
    /// O6: a byte of the order is missing.
    Truncated,
    /// O7: the address begins with the bits 10.
    ReservedAddress,
    /// O8: a type of a pair, or of Set Attribute, is not known.
    BadType,
    /// O9: the code of Graphic Escape or the character of Repeat to Address does not exist.
    BadCharacter,
    /// O10: bytes follow a command that takes none.
    Trailing,
}

impl Why {
    /// The printed words, as `O6 Truncated`.
    pub fn words(self) -> &'static str
        ensures { result.now ≡ why_words self }
    {
        match self {
            Why::Empty => "O1 Empty",
            Why::UnknownCommand => "O2 UnknownCommand",
            Why::StructuredField => "O3 StructuredField",
            Why::NoWcc => "O4 NoWcc",
            Why::UnknownOrder => "O5 UnknownOrder",
            Why::Truncated => "O6 Truncated",
            Why::ReservedAddress => "O7 ReservedAddress",
            Why::BadType => "O8 BadType",
            Why::BadCharacter => "O9 BadCharacter",
            Why::Trailing => "O10 Trailing",
        }
    }
}

impl fmt::Display for Why {
    ghost use Rattle.std.specs.Prelude.{Some};
    ghost use Rattle.ds_codec.specs.Refused.{why_words};

    ghost output = { λ why. Some (why_words why) };

    fn fmt<W: fmt::Write>(&self, f: &mut fmt::Formatter<W>) -> fmt::Result {
        f.write_str(self.words())
    }
}

/// A record is refused: its leftmost fault.
#[derive(Clone, Copy, Debug, PartialEq, Eq, Error)]
#[error("{why} at {at}")]
pub struct Refused {
    /// The first byte of the order at fault, counted from 0; 0 for O1 to O3, 1 for O4 and O10.
    pub at: usize,
    pub why: Why,
}
