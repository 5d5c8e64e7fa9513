//! What is refused of the manifest of an application.

ghost use Rattle.std.specs.Prelude.{◌≡◌, Some};
ghost use Rattle.cli_applications.specs.Fault.{refusal_text, key_text, fault_text, at_key, flaw_at, why_of, in_screen, not_toml};

use manifest_tables::{Flaw, Key};
use std::alloc::{AllocError, AllocFailed};
use std::fmt;
use thiserror::Error;

/// A key of a manifest.
#[derive(Clone, Copy, Debug, PartialEq, Eq)]
pub enum ManifestKey {
    /// A key that a manifest does not have.
    Unknown,
    Start,
    Screen,
    Name,
    Records,
    Layout,
    Next,
    Enter,
    Clear,
    Pa1,
    Pa2,
    Pa3,
    Pf1,
    Pf2,
    Pf3,
    Pf4,
    Pf5,
    Pf6,
    Pf7,
    Pf8,
    Pf9,
    Pf10,
    Pf11,
    Pf12,
    Pf13,
    Pf14,
    Pf15,
    Pf16,
    Pf17,
    Pf18,
    Pf19,
    Pf20,
    Pf21,
    Pf22,
    Pf23,
    Pf24,
}

impl ManifestKey {
    /// The key as it stands in the text, or `unknown`.
    pub fn word(self) -> &'static str
        ensures { result.now ≡ key_text self }
    {
        match self {
            ManifestKey::Unknown => "unknown",
            ManifestKey::Start => "start",
            ManifestKey::Screen => "screen",
            ManifestKey::Name => "name",
            ManifestKey::Records => "records",
            ManifestKey::Layout => "layout",
            ManifestKey::Next => "next",
            ManifestKey::Enter => "enter",
            ManifestKey::Clear => "clear",
            ManifestKey::Pa1 => "pa1",
            ManifestKey::Pa2 => "pa2",
            ManifestKey::Pa3 => "pa3",
            ManifestKey::Pf1 => "pf1",
            ManifestKey::Pf2 => "pf2",
            ManifestKey::Pf3 => "pf3",
            ManifestKey::Pf4 => "pf4",
            ManifestKey::Pf5 => "pf5",
            ManifestKey::Pf6 => "pf6",
            ManifestKey::Pf7 => "pf7",
            ManifestKey::Pf8 => "pf8",
            ManifestKey::Pf9 => "pf9",
            ManifestKey::Pf10 => "pf10",
            ManifestKey::Pf11 => "pf11",
            ManifestKey::Pf12 => "pf12",
            ManifestKey::Pf13 => "pf13",
            ManifestKey::Pf14 => "pf14",
            ManifestKey::Pf15 => "pf15",
            ManifestKey::Pf16 => "pf16",
            ManifestKey::Pf17 => "pf17",
            ManifestKey::Pf18 => "pf18",
            ManifestKey::Pf19 => "pf19",
            ManifestKey::Pf20 => "pf20",
            ManifestKey::Pf21 => "pf21",
            ManifestKey::Pf22 => "pf22",
            ManifestKey::Pf23 => "pf23",
            ManifestKey::Pf24 => "pf24",
        }
    }
}

impl Key for ManifestKey {
    ghost use Rattle.cli_applications.specs.declared.fault.ManifestKey.TheVariants.{Unknown};
    ghost use Rattle.cli_applications.specs.Fault.{key_text, flaw_at};

    type Fault = ManifestFault;

    ghost spelling = { key_text };

    ghost told = { flaw_at };

    ghost other = { Unknown };

    fn text(self) -> &'static str {
        self.word()
    }

    fn fault(self, flaw: Flaw) -> ManifestFault {
        ManifestFault::at_key(self, Why::of(flaw))
    }

    fn unknown() -> ManifestKey {
        ManifestKey::Unknown
    }
}

/// Why a manifest is refused.
#[derive(Clone, Copy, Debug, PartialEq, Eq)]
pub enum Why {
    /// The text is no TOML.
    NotToml,
    /// A key that has to be there is not.
    MissingKey,
    /// A value of another type.
    WrongKind,
    /// A key that the table does not have.
    UnknownKey,
    /// A text that is empty, or has a control character.
    BadText,
    /// A name that an earlier screen has, or `end`, which no screen can have.
    Twice,
    /// No screens, or more than 1,000.
    BadCount,
    /// A name that no screen has.
    NoSuchScreen,
    /// A screen that isn't the first, and to which no other one leads.
    NoWay,
    /// A file that can't be read.
    Missing,
    /// A layout that has other sizes than that of the first screen.
    OtherSizes,
}

impl Why {
    /// Why a manifest with a flaw at a key is refused.
    fn of(flaw: Flaw) -> Why
        ensures { result ≡ why_of flaw }
    {
        match flaw {
            Flaw::MissingKey => Why::MissingKey,
            Flaw::WrongKind => Why::WrongKind,
            Flaw::UnknownKey => Why::UnknownKey,
            Flaw::BadText => Why::BadText,
        }
    }

    fn words(self) -> &'static str
        ensures { result.now ≡ refusal_text self }
    {
        match self {
            Why::NotToml => "P1 NotToml",
            Why::MissingKey => "P2 MissingKey",
            Why::WrongKind => "P3 WrongKind",
            Why::UnknownKey => "P4 UnknownKey",
            Why::BadText => "P5 BadText",
            Why::Twice => "P6 Twice",
            Why::BadCount => "P7 BadCount",
            Why::NoSuchScreen => "P8 NoSuchScreen",
            Why::NoWay => "P9 NoWay",
            Why::Missing => "P10 Missing",
            Why::OtherSizes => "P11 OtherSizes",
        }
    }
}

/// The first refusal of a manifest.
#[derive(Clone, Copy, Debug, PartialEq, Eq)]
pub struct ManifestFault {
    /// The screen at fault, counted from 0, or `None` at the top.
    pub screen: Option<usize>,
    /// The key at fault, or `None` where the text is no TOML.
    pub which: Option<ManifestKey>,
    pub why: Why,
}

impl ManifestFault {
    ghost use Rattle.std.specs.Prelude.{None};

    /// A text that is no TOML.
    pub(crate) fn not_toml() -> ManifestFault
        ensures { result ≡ not_toml }
    {
        ManifestFault {
            screen: None,
            which: None,
            why: Why::NotToml,
        }
    }

    /// A key at fault, at the top, or in a screen that [`in_screen`](ManifestFault::in_screen) numbers.
    pub fn at_key(key: ManifestKey, why: Why) -> ManifestFault
        ensures { result ≡ at_key key why }
    {
        ManifestFault {
            screen: None,
            which: Some(key),
            why,
        }
    }

    /// The same in the screen of this number.
    pub fn in_screen(self, index: usize) -> ManifestFault
        ensures { result ≡ in_screen index self }
    {
        ManifestFault {
            screen: Some(index),
            ..self
        }
    }
}

impl fmt::Display for ManifestFault {
    ghost output = { λ fault. Some (fault_text fault) };

    fn fmt<W: fmt::Write>(&self, f: &mut fmt::Formatter<W>) -> fmt::Result {
        f.write_str(self.why.words())?;
        if let Some(key) = self.which {
            f.write_str(" ")?;
            f.write_str(key.word())?;
        }
        if let Some(index) = self.screen {
            write!(f, " in screen {index}")?;
        }
        Ok(())
    }
}

/// Why a manifest could not be read.
#[derive(Clone, Copy, Debug, PartialEq, Eq, Error)]
pub enum ManifestError {
    #[error("{0}")]
    Refused(ManifestFault),
    #[error("out of memory")]
    OutOfMemory,
}

impl From<ManifestFault> for ManifestError {
    ghost use Rattle.cli_applications.specs.declared.fault.ManifestError.TheVariants.{Refused};

    ghost from_gives = { λ fault e. e ≡ Refused fault };

    fn from(fault: ManifestFault) -> ManifestError {
        ManifestError::Refused(fault)
    }
}

impl From<AllocError> for ManifestError {
    ghost use Rattle.cli_applications.specs.declared.fault.ManifestError.TheVariants.{OutOfMemory};

    ghost from_gives = { λ _ e. e ≡ OutOfMemory };

    fn from(_e: AllocError) -> ManifestError {
        ManifestError::OutOfMemory
    }
}

impl<T: Drop> From<AllocFailed<T>> for ManifestError {
    ghost use Rattle.cli_applications.specs.declared.fault.ManifestError.TheVariants.{OutOfMemory};

    ghost from_gives = { λ _ e. e ≡ OutOfMemory };

    fn from(_e: AllocFailed<T>) -> ManifestError {
        ManifestError::OutOfMemory
    }
}
