//! Why a record is not applied.

ghost use Rattle.std.specs.Prelude.{◌≡◌};
ghost use Rattle.ds_screen.specs.Refused.{why_words};

use std::fmt;
use thiserror::Error;

/// What keeps a record from being applied.
#[derive(Clone, Copy, Debug, PartialEq, Eq)]
pub enum Why {
    /// A1: the address of SBA, RA or EUA is not below the number of cells.
    AddressOutside,
    /// A2: no attribute stands where MF is to change one.
    NoFieldHere,
    /// A3: the command is a read or No-operation.
    NotAWrite,
}

impl Why {
    /// The printed words, as `A1 AddressOutside`.
    pub fn words(self) -> &'static str
        ensures { result.now ≡ why_words self }
    {
        match self {
            Why::AddressOutside => "A1 AddressOutside",
            Why::NoFieldHere => "A2 NoFieldHere",
            Why::NotAWrite => "A3 NotAWrite",
        }
    }
}

impl fmt::Display for Why {
    ghost use Rattle.std.specs.Prelude.{Some};
    ghost use Rattle.ds_screen.specs.Refused.{why_words};

    ghost output = { λ why. Some (why_words why) };

    fn fmt<W: fmt::Write>(&self, f: &mut fmt::Formatter<W>) -> fmt::Result {
        f.write_str(self.words())
    }
}

/// A record is refused: the least order at fault.
#[derive(Clone, Copy, Debug, PartialEq, Eq, Error)]
#[error("{why} at {at}")]
pub struct Refused {
    /// The order's first byte in the record, counted from 0; 0 for A3.
    pub at: usize,
    pub why: Why,
}
