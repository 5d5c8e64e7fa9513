//! Why a record is refused.

ghost use Rattle.std.specs.Prelude.{◌≡◌};
ghost use Rattle.ds_terminal.specs.Refused.{refused_at, refused_words};

use std::fmt;

/// Why a record is refused, by reading or by applying.
#[derive(Clone, Copy, Debug, PartialEq, Eq)]
pub enum Refused {
    /// Its bytes are no record.
    Read(ds_codec::Refused),
    /// The screen can't do what it says.
    Apply(ds_screen::Refused),
}

impl Refused {
    /// The place in the record, a byte counted from 0.
    pub fn at(self) -> usize
        ensures { result ≡ refused_at self }
    {
        match self {
            Refused::Read(refused) => refused.at,
            Refused::Apply(refused) => refused.at,
        }
    }

    /// The printed words, as `O6 Truncated`.
    pub fn words(self) -> &'static str
        ensures { result.now ≡ refused_words self }
    {
        match self {
            Refused::Read(refused) => refused.why.words(),
            Refused::Apply(refused) => refused.why.words(),
        }
    }
}

impl fmt::Display for Refused {
    ghost use Rattle.std.specs.Prelude.{Some};
    ghost use Rattle.ds_terminal.specs.Refused.{refused_text};

    ghost output = { λ refused. Some (refused_text refused) };

    /// As `refused at 2: O6 Truncated`.
    fn fmt<W: fmt::Write>(&self, f: &mut fmt::Formatter<W>) -> fmt::Result {
        let at = self.at();
        let words = self.words();
        write!(f, "refused at {at}: {words}")
    }
}

impl std::error::Error for Refused {}
