//! What is refused of a manifest.

ghost use Rattle.std.specs.Prelude.{◌≡◌, Some};
ghost use Rattle.cli_suites.specs.Fault.{refusal_text, key_text, fault_text, at_key, flaw_at, why_of, in_table, not_toml};

use manifest_tables::{Flaw, Key};
use std::alloc::{AllocError, AllocFailed};
use std::fmt;
use thiserror::Error;

/// A key of a manifest.
#[derive(Clone, Copy, Debug, PartialEq, Eq)]
pub enum ManifestKey {
    /// A key that a manifest does not have.
    Unknown,
    Screen,
    Dialogue,
    Map,
    Accepted,
    Name,
    Records,
    Layout,
    Layouts,
    Source,
    Finding,
    Reason,
}

impl ManifestKey {
    /// The key as it stands in the text, or `unknown`.
    pub fn word(self) -> &'static str
        ensures { result.now ≡ key_text self }
    {
        match self {
            ManifestKey::Unknown => "unknown",
            ManifestKey::Screen => "screen",
            ManifestKey::Dialogue => "dialogue",
            ManifestKey::Map => "map",
            ManifestKey::Accepted => "accepted",
            ManifestKey::Name => "name",
            ManifestKey::Records => "records",
            ManifestKey::Layout => "layout",
            ManifestKey::Layouts => "layouts",
            ManifestKey::Source => "source",
            ManifestKey::Finding => "finding",
            ManifestKey::Reason => "reason",
        }
    }
}

impl Key for ManifestKey {
    ghost use Rattle.cli_suites.specs.declared.fault.ManifestKey.TheVariants.{Unknown};
    ghost use Rattle.cli_suites.specs.Fault.{key_text, flaw_at};

    type Fault = ManifestFault;

    ghost spelling = { key_text };

    ghost told = { flaw_at };

    ghost other = { Unknown };

    fn text(self) -> &'static str {
        self.word()
    }

    fn fault(self, flaw: Flaw) -> ManifestFault {
        ManifestFault::at_key(self, Why::of(flaw))
    }

    fn unknown() -> ManifestKey {
        ManifestKey::Unknown
    }
}

/// Why a manifest is refused.
#[derive(Clone, Copy, Debug, PartialEq, Eq)]
pub enum Why {
    /// The text is no TOML.
    NotToml,
    /// A key that has to be there is not.
    MissingKey,
    /// A value of another type.
    WrongKind,
    /// A key that the table does not have.
    UnknownKey,
    /// A text that is empty, or has a control character.
    BadText,
    /// A name that an earlier table has, or a finding that is accepted already.
    Twice,
    /// A list of no layouts, or more than 10,000 tables or layouts.
    BadCount,
    /// A finding of a name that no table `screen` has.
    NoSuchScreen,
    /// A finding that is none of a field, F8 to F13: nothing more is checked after it.
    NotAcceptable,
}

impl Why {
    /// Why a manifest with a flaw at a key is refused.
    fn of(flaw: Flaw) -> Why
        ensures { result ≡ why_of flaw }
    {
        match flaw {
            Flaw::MissingKey => Why::MissingKey,
            Flaw::WrongKind => Why::WrongKind,
            Flaw::UnknownKey => Why::UnknownKey,
            Flaw::BadText => Why::BadText,
        }
    }

    fn words(self) -> &'static str
        ensures { result.now ≡ refusal_text self }
    {
        match self {
            Why::NotToml => "S1 NotToml",
            Why::MissingKey => "S2 MissingKey",
            Why::WrongKind => "S3 WrongKind",
            Why::UnknownKey => "S4 UnknownKey",
            Why::BadText => "S5 BadText",
            Why::Twice => "S6 Twice",
            Why::BadCount => "S7 BadCount",
            Why::NoSuchScreen => "S8 NoSuchScreen",
            Why::NotAcceptable => "S9 NotAcceptable",
        }
    }
}

/// A table of a manifest: its kind, and its number among those of its kind, counted from 0.
#[derive(Clone, Copy, Debug, PartialEq, Eq)]
pub struct Place {
    pub table: ManifestKey,
    pub index: usize,
}

/// The first refusal of a manifest.
#[derive(Clone, Copy, Debug, PartialEq, Eq)]
pub struct ManifestFault {
    /// The table at fault, or `None` at the top.
    pub place: Option<Place>,
    /// The key at fault, or `None` where the text is no TOML.
    pub which: Option<ManifestKey>,
    pub why: Why,
}

impl ManifestFault {
    ghost use Rattle.std.specs.Prelude.{None};

    /// A text that is no TOML.
    pub(crate) fn not_toml() -> ManifestFault
        ensures { result ≡ not_toml }
    {
        ManifestFault {
            place: None,
            which: None,
            why: Why::NotToml,
        }
    }

    /// A key at fault, at the top or in a table that `in_table` names.
    pub(crate) fn at_key(key: ManifestKey, why: Why) -> ManifestFault
        ensures { result ≡ at_key key why }
    {
        ManifestFault {
            place: None,
            which: Some(key),
            why,
        }
    }

    pub(crate) fn in_table(self, table: ManifestKey, index: usize) -> ManifestFault
        ensures { result ≡ in_table table index self }
    {
        ManifestFault {
            place: Some(Place { table, index }),
            ..self
        }
    }
}

impl fmt::Display for ManifestFault {
    ghost output = { λ fault. Some (fault_text fault) };

    fn fmt<W: fmt::Write>(&self, f: &mut fmt::Formatter<W>) -> fmt::Result {
        f.write_str(self.why.words())?;
        if let Some(key) = self.which {
            f.write_str(" ")?;
            f.write_str(key.word())?;
        }
        if let Some(place) = self.place {
            let table = place.table.word();
            let index = place.index;
            write!(f, " in {table} {index}")?;
        }
        Ok(())
    }
}

/// Why a manifest could not be read.
#[derive(Clone, Copy, Debug, PartialEq, Eq, Error)]
pub enum ManifestError {
    #[error("{0}")]
    Refused(ManifestFault),
    #[error("out of memory")]
    OutOfMemory,
}

impl From<ManifestFault> for ManifestError {
    ghost use Rattle.cli_suites.specs.declared.fault.ManifestError.TheVariants.{Refused};

    ghost from_gives = { λ fault e. e ≡ Refused fault };

    fn from(fault: ManifestFault) -> ManifestError {
        ManifestError::Refused(fault)
    }
}

impl From<AllocError> for ManifestError {
    ghost use Rattle.cli_suites.specs.declared.fault.ManifestError.TheVariants.{OutOfMemory};

    ghost from_gives = { λ _ e. e ≡ OutOfMemory };

    fn from(_e: AllocError) -> ManifestError {
        ManifestError::OutOfMemory
    }
}

impl<T: Drop> From<AllocFailed<T>> for ManifestError {
    ghost use Rattle.cli_suites.specs.declared.fault.ManifestError.TheVariants.{OutOfMemory};

    ghost from_gives = { λ _ e. e ≡ OutOfMemory };

    fn from(_e: AllocFailed<T>) -> ManifestError {
        ManifestError::OutOfMemory
    }
}
