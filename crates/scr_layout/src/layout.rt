//! A layout, read from TOML.

ghost use Rattle.std.specs.Prelude.{◌≡◌, [], IfOk};
ghost use Rattle.toml.specs.View.{table_view, items_view};
ghost use Rattle.scr_layout.specs.Results.{Gives, in_field};
ghost use Rattle.scr_layout.specs.Top.{tables_in};
ghost use Rattle.scr_layout.specs.Rows.{IsSmall};
ghost use Rattle.scr_layout.specs.Field.{with_table};
ghost use Rattle.scr_layout.specs.Layout.{table_of, entries_of};

use crate::entry::Entry;
use crate::fault::{LayoutError, LayoutFault};
use crate::field::with_table;
use crate::listed::Listed;
use crate::located::Located;
use crate::plain::plain_parts;
use crate::top::{
    Head, Version, alternate_of, default_of, fields_of, mode_of, screen_of, top_of, version_of,
};
use ds_codec::{Geometry, Size};
use ds_places::{held, held_near};
use std::alloc::{AllocError, Global};
use std::marker::Model;
use toml::{Table, Value};

/// The fields of a screen, and the terminal that it is for.
#[derive(Debug, Drop)]
pub struct Layout {
    geometry: Geometry,
    size: Size,
    entries: Vec<Entry>,
    table: Vec<Located>,
}

impl Model for Layout {
    ghost use Rattle.scr_layout.specs.Layout.{Declaration, IsLayout};
    ghost use Rattle.scr_layout.specs.Located.{AreLocated};

    ghost Value = { Declaration };

    ghost view = { λ l. record { geometry = l.geometry; size = l.size; entries = l.entries.items } };

    ghost invariant = { λ l. IsLayout (record { geometry = l.geometry; size = l.size; entries = l.entries.items })
        × AreLocated l.entries.items l.table.items };
}

impl Layout {
    ghost use Rattle.std.specs.Prelude.{◌==◌, IfOk, None, Ok, Err, position};
    ghost use Rattle.ds_codec.specs.Geometry.{IsGood};
    ghost use Rattle.toml.specs.Parse.{parse_document};
    ghost use Rattle.scr_layout.specs.Fault.{not_toml};
    ghost use Rattle.scr_layout.specs.Results.{IsRefused};
    ghost use Rattle.scr_layout.specs.Layout.{Declaration, declaration_of, layout_of, IsLayout};
    ghost use Rattle.scr_layout.specs.Says.{TextSays};
    ghost use Rattle.scr_layout.specs.Section.{declared};

    /// The layout that a text says. Each name is looked for in a set of those before it, each place by
    /// halving: with 1,000 entries about ten comparisons of either.
    ///
    /// # Errors
    ///
    /// The first refusal, or `OutOfMemory` in its place where a request for memory was refused.
    pub fn from_text(alloc: Global, text: &str) -> Result<Layout, LayoutError>
        // What is read is what the text says, and what it says is read.
        ensures says { IfOk result (TextSays text.now) }
        ensures only { (layout : Declaration) → TextSays text.now layout →
            Gives (λ l. l) result (Ok layout) }

        // Which refusal it is.
        ensures exact { Gives (λ l. l) result (layout_of text.now) }
        ensures not_toml { (result ≡ Err (LayoutError.Refused not_toml)) →
            parse_document text.now ≡ None }
        ensures only_toml { parse_document text.now ≡ None → IsRefused result not_toml }

        ensures law { IfOk result IsLayout }
    {
        Layout::read(alloc, text)
    }

    fn read(alloc: Global, text: &str) -> Result<Layout, LayoutError>
        ensures exact { Gives (λ l. l) result (layout_of text.now) }
        ensures not_toml { (result ≡ Err (LayoutError.Refused not_toml)) →
            parse_document text.now ≡ None }
        ensures only_toml { parse_document text.now ≡ None → IsRefused result not_toml }
        ensures law { IfOk result IsLayout }
    {
        if let Some((head, listed)) = plain_parts(alloc, text)? {
            return Ok(Layout::of_parts(head, listed));
        }
        let table = table_of(alloc, text)?;
        Layout::from_table(alloc, &table)
    }

    /// The layout of a top and of its fields.
    fn of_parts(head: Head, listed: Listed) -> Layout
        requires { IsLayout (declared head listed) }
        ensures { result ≡ declared head listed }
    {
        let (entries, table) = listed.parts();
        let geometry = Geometry::new(head.default, head.alternate, head.mode).unwrap();
        Layout {
            geometry,
            size: head.size,
            entries,
            table,
        }
    }

    #[tactic(auto, unfolding(crate::specs::Layout::declaration_of))]
    fn from_table(alloc: Global, document: &Table) -> Result<Layout, LayoutError>
        ensures { Gives (λ l. l) result (declaration_of (table_view document.now)) }
    {
        let top = top_of(document)?;
        let version = version_of(top)?;
        let mode = mode_of(top)?;
        let default = default_of(mode, top)?;
        let alternate = alternate_of(mode, default, top)?;
        let size = screen_of(default, alternate, top)?;
        let fields = fields_of(top)?;
        let listed = entries_of(alloc, version, size, fields)?;
        let head = Head {
            version,
            mode,
            default,
            alternate,
            size,
        };
        Ok(Layout::of_parts(head, listed))
    }

    /// The same layout once more, for less than its text is read for.
    ///
    /// # Errors
    ///
    /// Where a request for memory was refused.
    pub fn copy(&self, alloc: Global) -> Result<Layout, AllocError>
        ensures { IfOk result (λ layout. layout ≡ self.now) }
    {
        Ok(Layout {
            geometry: self.geometry,
            size: self.size,
            entries: copied(alloc, &self.entries)?,
            table: self.table.as_slice().to_vec(alloc)?,
        })
    }

    /// The terminal that the layout is for.
    pub fn geometry(&self) -> Geometry
        ensures { result ≡ self.now.geometry }
    {
        self.geometry
    }

    /// The size of the named screen.
    pub fn size(&self) -> Size
        ensures value { result ≡ self.now.size }
        ensures good { IsGood self.now.geometry.mode result }
    {
        self.size
    }

    /// The fields in the order of the text.
    pub fn entries(&self) -> &[Entry]
        ensures value { result.now ≡ self.now.entries }
        ensures law { IsLayout self.now }
    {
        &self.entries
    }

    /// The index of the entry whose first character stands at this position, counted from 0. It
    /// is found by halving.
    pub fn entry_at(&self, place: u32) -> Option<usize>
        ensures { result ≡ position (λ entry. place == entry.place) self.now.entries }
    {
        match held(&self.table, place) {
            Some(found) => Some(found.index),
            None => None,
        }
    }

    /// The same, for one that asks for positions in turn: `guess` is what the question before left there, and any number at
    /// first. It spares the search where the entry is near, and changes nothing of what is found.
    pub fn entry_near(&self, place: u32, guess: &mut usize) -> Option<usize>
        ensures { result ≡ position (λ entry. place == entry.place) self.now.entries }
    {
        match held_near(&self.table, place, guess) {
            Some(found) => Some(found.index),
            None => None,
        }
    }
}

/// The same entries once more.
fn copied(alloc: Global, entries: &[Entry]) -> Result<Vec<Entry>, AllocError>
    ensures { IfOk result (λ v. v.items ≡ entries.now) }
{
    let mut all = Vec::with_capacity(alloc, entries.len())?;
    for entry in entries {
        all.push(entry.copy(alloc)?)?;
    }
    Ok(all)
}

/// The table that a text is, by TOML.
fn table_of(alloc: Global, text: &str) -> Result<Table, LayoutError>
    ensures { Gives table_view result (table_of text.now) }
{
    match toml::table_from_str(alloc, text) {
        Ok(table) => Ok(table),
        Err(error) => {
            if error.is_memory() {
                Err(LayoutError::OutOfMemory)
            } else {
                Err(LayoutError::Refused(LayoutFault::not_toml()))
            }
        }
    }
}

/// The entries before, and behind them those of the table of this number, counted from 0.
fn with_field(
    alloc: Global,
    version: Version,
    size: Size,
    field: usize,
    before: Listed,
    table: &Table,
) -> Result<Listed, LayoutError>
    requires { IsSmall size }
    ensures { Gives (λ listed. listed) result
        (in_field field (with_table version size before (table_view table.now))) }
{
    match with_table(alloc, version, size, before, table) {
        Ok(listed) => Ok(listed),
        Err(LayoutError::Refused(fault)) => Err(LayoutError::Refused(fault.in_field(field))),
        Err(LayoutError::OutOfMemory) => Err(LayoutError::OutOfMemory),
    }
}

/// The entries of the tables, in order.
fn entries_of(
    alloc: Global,
    version: Version,
    size: Size,
    values: &[Value],
) -> Result<Listed, LayoutError>
    requires { IsSmall size }
    ensures { Gives (λ listed. listed) result
        (entries_of version size 0 [] (tables_in (items_view values.now))) }
{
    let mut listed = Listed::new(alloc);
    let mut field = 0usize;
    for value in values {
        if let Some(table) = value.as_table() {
            listed = with_field(alloc, version, size, field, listed, table)?;
            field += 1;
        }
    }
    Ok(listed)
}
