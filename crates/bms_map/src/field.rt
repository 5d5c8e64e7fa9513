//! Fields of a map, as they stand on the screen.

ghost use Rattle.std.specs.Prelude.{◌≡◌, ◌≤◌};
ghost use Rattle.bms_map.specs.Lookup.{or_else, looks_or};
ghost use Rattle.bms_map.specs.Entries.{effect, effects};

use ds_codec::Attr;
use std::marker::Model;

/// The pairs that a field has besides its attribute: none, or a value, which is 0 where it has no effect.
#[derive(Clone, Copy, Debug, PartialEq, Eq)]
pub struct Looks {
    pub highlight: Option<u8>,
    pub color: Option<u8>,
    pub validation: Option<u8>,
    pub outline: Option<u8>,
}

impl Looks {
    /// These, and where they are absent the others.
    pub(crate) fn or(self, others: Looks) -> Looks
        ensures { result ≡ looks_or self others }
    {
        Looks {
            highlight: or(self.highlight, others.highlight),
            color: or(self.color, others.color),
            validation: or(self.validation, others.validation),
            outline: or(self.outline, others.outline),
        }
    }

    /// How many pairs are written.
    pub(crate) fn count(self) -> u32
        ensures count { result ≡ effects self }
        ensures few { result ≤ 4 }
    {
        count(self.highlight) + count(self.color) + count(self.validation) + count(self.outline)
    }
}

fn or(value: Option<u8>, other: Option<u8>) -> Option<u8>
    ensures { result ≡ or_else value other }
{
    match value {
        Some(value) => Some(value),
        None => other,
    }
}

/// Whether there is a value with an effect.
fn count(value: Option<u8>) -> u32
    ensures count { result ≡ effect value }
    ensures few { result ≤ 1 }
{
    match value {
        None | Some(0) => 0,
        Some(_) => 1,
    }
}

/// A text of a later field of a group.
#[derive(Debug, Drop)]
pub struct Later {
    /// The position of its first character on the screen.
    pub cell: u32,
    pub text: Vec<u8>,
}

impl Model for Later {
    ghost use Rattle.bms_map.specs.Maps.{LaterText};

    ghost Value = { LaterText };

    ghost view = { λ l. record { cell = l.cell; text = l.text.items } };
}

/// A field, a group of fields, or one occurrence of a field.
#[derive(Debug, Drop)]
pub struct Field {
    /// The position of its attribute on the screen, counted from 0.
    pub cell: u32,
    /// How many characters it has; of a group all together.
    pub length: u32,
    pub attribute: Attr,
    /// The pairs of Start Field Extended, the attribute's first; none where Start Field says all.
    pub pairs: Vec<u8>,
    /// As many codes as the field has characters, or none.
    pub text: Vec<u8>,
    pub later: Vec<Later>,
    /// Its label in upper case, of a group the name; empty where it has none.
    pub label: Vec<u8>,
    /// Which occurrence it is, counted from 1; 0 where it is the only one.
    pub occurrence: u16,
    /// The number of the line of its macro.
    pub line: usize,
    /// The line and the column of its attribute in the map, counted from 1.
    pub row: u32,
    pub column: u32,
}

impl Model for Field {
    ghost use Rattle.bms_map.specs.Maps.{Shown};

    ghost Value = { Shown };

    ghost view = { λ f. record { cell = f.cell; length = f.length; attribute = f.attribute; pairs = f.pairs.items; text = f.text.items; later = f.later.items; label = f.label.items; occurrence = f.occurrence; line = f.line; row = f.row; column = f.column } };
}

impl Field {
    ghost use Rattle.std.specs.Prelude.{◌≡◌};
    ghost use Rattle.bms_map.specs.Overlaps.{is_input, is_declared};

    /// Whether an operator can type there.
    pub fn is_input(&self) -> bool
        ensures { result ≡ is_input self.now }
    {
        !self.attribute.protected()
    }

    /// Whether the layout has an entry for it.
    pub fn is_declared(&self) -> bool
        ensures { result ≡ is_declared self.now }
    {
        !self.label.is_empty() && (self.is_input() || self.attribute.modified())
    }
}
