//! A cell as it is stored: a kind and a code.

ghost use Rattle.std.specs.Prelude.{◌≡◌, true};
ghost use Rattle.ds_screen.specs.Fields.{attribute_of, ruling_after};
ghost use Rattle.ds_screen.specs.Planes.{stored_cell, is_storable};
ghost use Rattle.ds_screen.specs.declared.stored.Kind.TheVariants.{Plain};

use ds_codec::{Attr, Cell, Char};

/// What the code of a position is.
#[derive(Clone, Copy, PartialEq, Eq)]
pub(crate) enum Kind {
    /// The bits of an attribute.
    Attribute,
    /// A character.
    Plain,
    /// A character of the alternate set.
    Alternate,
}

/// Whether the code is a character of the plain set.
pub(crate) fn is_plain(kind: Kind) -> bool
    ensures { (result ≡ true) → kind ≡ Plain }
{
    match kind {
        Kind::Plain => true,
        Kind::Attribute | Kind::Alternate => false,
    }
}

/// The kind and the code of a position.
#[derive(Clone, Copy)]
pub(crate) struct Stored {
    pub kind: Kind,
    pub code: u8,
}

/// The kind and the code of a character.
pub(crate) fn character_stored(character: Char) -> Stored
    ensures same { stored_cell result.kind result.code ≡ Cell.Char character }
    ensures storable { is_storable result.kind result.code ≡ true }
{
    let kind = if character.alt() {
        Kind::Alternate
    } else {
        Kind::Plain
    };
    Stored {
        kind,
        code: character.code(),
    }
}

/// The kind and the code of a cell.
pub(crate) fn cell_stored(cell: Cell) -> Stored
    ensures same { stored_cell result.kind result.code ≡ cell }
    ensures storable { is_storable result.kind result.code ≡ true }
{
    match cell {
        Cell::Field(attribute) => Stored {
            kind: Kind::Attribute,
            code: attribute.bits(),
        },
        Cell::Char(character) => character_stored(character),
    }
}

/// The cell of a kind and a code.
pub(crate) fn cell_of(stored: Stored) -> Cell
    requires { is_storable stored.kind stored.code ≡ true }
    ensures { result ≡ stored_cell stored.kind stored.code }
{
    match stored.kind {
        Kind::Attribute => Cell::Field(Attr::new(stored.code)),
        Kind::Plain => Cell::Char(Char::new(stored.code, false).unwrap()),
        Kind::Alternate => Cell::Char(Char::new(stored.code, true).unwrap()),
    }
}

/// The attribute of a kind and a code, if they are those of one.
#[inline(always)]
pub(crate) fn attribute_of(stored: Stored) -> Option<Attr>
    requires { is_storable stored.kind stored.code ≡ true }
    ensures { result ≡ attribute_of (stored_cell stored.kind stored.code) }
{
    match stored.kind {
        Kind::Attribute => Some(Attr::new(stored.code)),
        Kind::Plain | Kind::Alternate => None,
    }
}

/// What rules a position of this kind and code, by what rules the one before it.
#[inline(always)]
pub(crate) fn ruled_by(before: Attr, stored: Stored) -> Attr
    requires { is_storable stored.kind stored.code ≡ true }
    ensures { result ≡ ruling_after before (stored_cell stored.kind stored.code) }
{
    match stored.kind {
        Kind::Attribute => Attr::new(stored.code),
        Kind::Plain | Kind::Alternate => before,
    }
}
