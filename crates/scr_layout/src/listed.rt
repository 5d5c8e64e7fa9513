//! The entries that were read so far, and what they are looked up by.

ghost use Rattle.std.specs.Prelude.{◌≡◌, ◌++◌, [], ◌∷◌, length, IfOk};
ghost use Rattle.scr_layout.specs.Located.{AreLocated};
ghost use Rattle.scr_layout.specs.Rows.{has_name, has_place};

use crate::entry::Entry;
use crate::located::Located;
use ds_places::{add, held};
use std::alloc::{AllocError, Global};
use std::collections::BTreeSet;
use std::marker::Model;

/// Entries in the order of the text, with a set of their names and a table of their places.
#[derive(Drop)]
pub(crate) struct Listed {
    entries: Vec<Entry>,
    names: BTreeSet<String>,
    table: Vec<Located>,
}

impl Model for Listed {
    ghost use Rattle.std.specs.Prelude.{List};
    ghost use Rattle.scr_layout.specs.Entry.{Declared};
    ghost use Rattle.scr_layout.specs.Located.{AreNamed, AreLocated};

    ghost Value = { List Declared };

    ghost view = { λ l. l.entries.items };

    ghost invariant = { λ l. AreNamed l.entries.items l.names × AreLocated l.entries.items l.table.items };
}

impl Listed {
    pub(crate) fn new(alloc: Global) -> Listed
        ensures { result ≡ [] }
    {
        Listed {
            entries: Vec::new(alloc),
            names: BTreeSet::new(alloc),
            table: Vec::new(alloc),
        }
    }

    pub(crate) fn len(&self) -> usize
        ensures { result ≡ length self.now }
    {
        self.entries.len()
    }

    pub(crate) fn has_name(&self, name: &str) -> bool
        ensures { result ≡ has_name name.now self.now }
    {
        self.names.contains(name)
    }

    pub(crate) fn has_place(&self, place: u32) -> bool
        ensures { result ≡ has_place place self.now }
    {
        held(&self.table, place).is_some()
    }

    /// These entries, with one more behind them.
    pub(crate) fn with(self, alloc: Global, entry: Entry) -> Result<Listed, AllocError>
        ensures { IfOk result (λ now. now ≡ self ++ entry ∷ []) }
    {
        let Listed {
            mut entries,
            mut names,
            mut table,
        } = self;
        let found = Located {
            place: entry.place,
            index: entries.len(),
        };
        names.insert(String::from_str(alloc, &entry.name)?)?;
        add(&mut table, found)?;
        entries.push(entry)?;
        Ok(Listed {
            entries,
            names,
            table,
        })
    }

    /// The entries, and the table of their places.
    pub(crate) fn parts(self) -> (Vec<Entry>, Vec<Located>)
        ensures entries { result.0.items ≡ self }
        ensures table { AreLocated self result.1.items }
    {
        let Listed { entries, table, .. } = self;
        (entries, table)
    }
}
