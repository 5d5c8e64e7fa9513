//! A field that a layout declares.

use std::alloc::{AllocError, Global};
use std::marker::Model;

/// Whether an operator may type into a field.
#[derive(Clone, Copy, Debug, PartialEq, Eq)]
pub enum Kind {
    /// An unprotected field.
    Input,
    /// A protected field. If it comes modified it is sent as it came.
    Fixed,
}

/// A field of a layout.
#[derive(Debug, Drop)]
pub struct Entry {
    /// 1 to 32 letters A-Z and a-z, digits, `-` and `_`.
    pub name: String,
    /// The position of its first character, counted from 0 in the named screen.
    pub place: u32,
    /// How many cells it has, from 1 to all cells of the screen less 1.
    pub length: u32,
    pub kind: Kind,
}

impl Model for Entry {
    ghost use Rattle.std.specs.Prelude.{string_bytes};
    ghost use Rattle.scr_layout.specs.Entry.{Declared};

    ghost Value = { Declared };

    ghost view = { λ e. record { name = string_bytes e.name; place = e.place; length = e.length; kind = e.kind } };
}

impl Entry {
    ghost use Rattle.std.specs.Prelude.{◌≡◌, IfOk};

    /// The same entry once more.
    pub(crate) fn copy(&self, alloc: Global) -> Result<Entry, AllocError>
        ensures { IfOk result (λ entry. entry ≡ self.now) }
    {
        Ok(Entry {
            name: String::from_str(alloc, self.name.as_str())?,
            place: self.place,
            length: self.length,
            kind: self.kind,
        })
    }
}
