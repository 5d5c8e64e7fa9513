//! What is refused of a layout.

ghost use Rattle.std.specs.Prelude.{◌≡◌, Some};
ghost use Rattle.scr_layout.specs.Fault.{refusal_text, key_text, fault_text, at_key, in_field, not_toml};

use std::alloc::{AllocError, AllocFailed};
use std::fmt;
use thiserror::Error;

/// A key of a layout.
#[derive(Clone, Copy, Debug, PartialEq, Eq)]
pub enum LayoutKey {
    /// A key that a layout does not have.
    Unknown,
    Version,
    Addresses,
    Default,
    Alternate,
    Screen,
    Field,
    Name,
    Row,
    Col,
    Length,
    Kind,
    Count,
    Down,
}

impl LayoutKey {
    /// The key as it stands in the text, or `unknown`.
    pub fn word(self) -> &'static str
        ensures { result.now ≡ key_text self }
    {
        match self {
            LayoutKey::Unknown => "unknown",
            LayoutKey::Version => "version",
            LayoutKey::Addresses => "addresses",
            LayoutKey::Default => "default",
            LayoutKey::Alternate => "alternate",
            LayoutKey::Screen => "screen",
            LayoutKey::Field => "field",
            LayoutKey::Name => "name",
            LayoutKey::Row => "row",
            LayoutKey::Col => "col",
            LayoutKey::Length => "length",
            LayoutKey::Kind => "kind",
            LayoutKey::Count => "count",
            LayoutKey::Down => "down",
        }
    }
}

impl fmt::Display for LayoutKey {
    ghost output = { λ key. Some (key_text key) };

    fn fmt<W: fmt::Write>(&self, f: &mut fmt::Formatter<W>) -> fmt::Result {
        f.write_str(self.word())
    }
}

/// Why a layout is refused.
#[derive(Clone, Copy, Debug, PartialEq, Eq)]
pub enum Why {
    /// The text is no TOML.
    NotToml,
    /// A key that has to be there is not.
    MissingKey,
    /// A value of another type, or another word.
    WrongKind,
    /// A key that a layout does not have.
    UnknownKey,
    /// A size that is not `RxC` in decimal without leading zeros, or that no terminal has.
    BadSize,
    /// A name that is not 1 to 32 letters A-Z and a-z, digits, `-` and `_`.
    BadName,
    /// A name that an earlier field has.
    NameTwice,
    /// A row or a column outside the named screen.
    PlaceOutside,
    /// A place where an earlier field stands.
    PlaceTwice,
    /// A length that is not 1 to the cells of the screen less 1.
    BadLength,
    /// More than 1,000 fields.
    TooManyFields,
    /// A count of rows, or of rows from one field down to the next, that is not 1 to 255.
    BadCount,
}

impl Why {
    fn words(self) -> &'static str
        ensures { result.now ≡ refusal_text self }
    {
        match self {
            Why::NotToml => "L1 NotToml",
            Why::MissingKey => "L2 MissingKey",
            Why::WrongKind => "L3 WrongKind",
            Why::UnknownKey => "L4 UnknownKey",
            Why::BadSize => "L5 BadSize",
            Why::BadName => "L6 BadName",
            Why::NameTwice => "L7 NameTwice",
            Why::PlaceOutside => "L8 PlaceOutside",
            Why::PlaceTwice => "L9 PlaceTwice",
            Why::BadLength => "L10 BadLength",
            Why::TooManyFields => "L11 TooManyFields",
            Why::BadCount => "L12 BadCount",
        }
    }
}

impl fmt::Display for Why {
    ghost output = { λ why. Some (refusal_text why) };

    fn fmt<W: fmt::Write>(&self, f: &mut fmt::Formatter<W>) -> fmt::Result {
        f.write_str(self.words())
    }
}

/// The first refusal of a layout.
#[derive(Clone, Copy, Debug, PartialEq, Eq)]
pub struct LayoutFault {
    /// The table of the field at fault, counted from 0, or `None` at the top.
    pub field: Option<usize>,
    /// The key at fault, or `None` where the text is no TOML.
    pub which: Option<LayoutKey>,
    pub why: Why,
}

impl LayoutFault {
    ghost use Rattle.std.specs.Prelude.{None};

    /// A text that is no TOML.
    pub(crate) fn not_toml() -> LayoutFault
        ensures { result ≡ not_toml }
    {
        LayoutFault {
            field: None,
            which: None,
            why: Why::NotToml,
        }
    }

    /// A key at fault, at the top or in a field that `in_field` names.
    pub(crate) fn at_key(key: LayoutKey, why: Why) -> LayoutFault
        ensures { result ≡ at_key key why }
    {
        LayoutFault {
            field: None,
            which: Some(key),
            why,
        }
    }

    pub(crate) fn in_field(self, field: usize) -> LayoutFault
        ensures { result ≡ in_field field self }
    {
        LayoutFault {
            field: Some(field),
            ..self
        }
    }
}

impl fmt::Display for LayoutFault {
    ghost output = { λ fault. Some (fault_text fault) };

    fn fmt<W: fmt::Write>(&self, f: &mut fmt::Formatter<W>) -> fmt::Result {
        f.write_str(self.why.words())?;
        if let Some(key) = self.which {
            f.write_str(" ")?;
            f.write_str(key.word())?;
        }
        if let Some(field) = self.field {
            write!(f, " in field {field}")?;
        }
        Ok(())
    }
}

/// Why a layout could not be read.
#[derive(Clone, Copy, Debug, PartialEq, Eq, Error)]
pub enum LayoutError {
    #[error("{0}")]
    Refused(LayoutFault),
    #[error("out of memory")]
    OutOfMemory,
}

impl From<LayoutFault> for LayoutError {
    ghost use Rattle.scr_layout.specs.declared.fault.LayoutError.TheVariants.{Refused};

    ghost from_gives = { λ fault e. e ≡ Refused fault };

    fn from(fault: LayoutFault) -> LayoutError {
        LayoutError::Refused(fault)
    }
}

impl From<AllocError> for LayoutError {
    ghost use Rattle.scr_layout.specs.declared.fault.LayoutError.TheVariants.{OutOfMemory};

    ghost from_gives = { λ _ e. e ≡ OutOfMemory };

    fn from(_e: AllocError) -> LayoutError {
        LayoutError::OutOfMemory
    }
}

impl<T: Drop> From<AllocFailed<T>> for LayoutError {
    ghost use Rattle.scr_layout.specs.declared.fault.LayoutError.TheVariants.{OutOfMemory};

    ghost from_gives = { λ _ e. e ≡ OutOfMemory };

    fn from(_e: AllocFailed<T>) -> LayoutError {
        LayoutError::OutOfMemory
    }
}
