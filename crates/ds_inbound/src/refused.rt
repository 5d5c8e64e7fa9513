//! Why an answer is refused.

ghost use Rattle.std.specs.Prelude.{◌≡◌};
ghost use Rattle.ds_inbound.specs.Refused.{why_words};

use std::fmt;
use thiserror::Error;

/// What is wrong at a place of an answer.
#[derive(Clone, Copy, Debug, PartialEq, Eq)]
pub enum Why {
    /// I1: there is no byte.
    Empty,
    /// I2: the first byte is no attention identifier.
    UnknownAid,
    /// I3: a byte of the cursor's address, of a field's place or of a pair is missing.
    Truncated,
    /// I4: the address begins with the bits 10, or is not below the number of cells.
    BadAddress,
    /// I5: the byte is no text, or the code of a pair is not 40 to FE.
    BadCharacter,
    /// I6: a null, which is never sent.
    Null,
}

impl Why {
    /// The printed words, as `I6 Null`.
    pub fn words(self) -> &'static str
        ensures { result.now ≡ why_words self }
    {
        match self {
            Why::Empty => "I1 Empty",
            Why::UnknownAid => "I2 UnknownAid",
            Why::Truncated => "I3 Truncated",
            Why::BadAddress => "I4 BadAddress",
            Why::BadCharacter => "I5 BadCharacter",
            Why::Null => "I6 Null",
        }
    }
}

impl fmt::Display for Why {
    ghost use Rattle.std.specs.Prelude.{Some};
    ghost use Rattle.ds_inbound.specs.Refused.{why_words};

    ghost output = { λ why. Some (why_words why) };

    fn fmt<W: fmt::Write>(&self, f: &mut fmt::Formatter<W>) -> fmt::Result {
        f.write_str(self.words())
    }
}

/// An answer is refused: its leftmost fault.
#[derive(Clone, Copy, Debug, PartialEq, Eq, Error)]
#[error("{why} at {at}")]
pub struct Refused {
    /// The first byte of the item at fault, counted from 0: 0 for the attention identifier, 1 for the cursor, the
    /// 11 of a field, the 08 of a pair.
    pub at: usize,
    pub why: Why,
}
