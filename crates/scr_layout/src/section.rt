//! A field of the usual form: each of its keys at most once, with a value of its type.

ghost use Rattle.std.specs.Prelude.{◌≡◌, ◌≤◌, ◌<◌, ◌++◌, [], ◌∷◌, ℕ, List, length, None, Some, Ok, true, false, IfOk, IfSome};
ghost use Rattle.toml.specs.View.{view};
ghost use Rattle.ds_codec.specs.Geometry.{cells_of};
ghost use Rattle.scr_layout.specs.Entry.{is_name};
ghost use Rattle.scr_layout.specs.Rows.{IsSmall, has_name, has_place, names_of, are_free, step_of, count_of, entries_from};
ghost use Rattle.scr_layout.specs.Field.{with_table};
ghost use Rattle.scr_layout.specs.Section.{text_data, number_data, members_of};

use crate::entry::{Entry, Kind};
use crate::fault::LayoutError;
use crate::field::named_kind;
use crate::listed::Listed;
use crate::name::is_name;
use crate::rows::{Rows, are_free, count_of, names_of, step_of, with_names};
use crate::top::Version;
use crate::values::from_one_to;
use ds_codec::Size;
use std::alloc::{AllocError, Global};
use toml::Value;

/// What each key of a field holds.
#[derive(Drop)]
pub(crate) struct Section {
    name: Option<String>,
    row: Option<u32>,
    col: Option<u32>,
    length: Option<u32>,
    kind: Option<String>,
    count: Option<u32>,
    down: Option<u32>,
}

/// What a field says of its own.
#[derive(Clone, Copy)]
pub(crate) struct Said<'a> {
    pub name: &'a str,
    pub rows: Option<Rows>,
    pub place: u32,
    pub length: u32,
    pub kind: Kind,
}

/// Puts a text where none is; whether it did.
fn put_text(slot: &mut Option<String>, value: Value) -> bool
    ensures put { (result ≡ true) → (slot.old ≡ None) × (text_data slot.new ≡ Some (view value)) }
{
    if slot.is_some() {
        return false;
    }
    match value {
        Value::String(text) => {
            *slot = Some(text);
            true
        }
        _ => false,
    }
}

/// Puts a number of 1 or more where none is; whether it did.
fn put_number(slot: &mut Option<u32>, value: &Value) -> bool
    ensures put { (result ≡ true) → (slot.old ≡ None)
        × (number_data slot.new ≡ Some (view value.now)) }
{
    if slot.is_some() {
        return false;
    }
    let Some(number) = value.as_integer() else {
        return false;
    };
    *slot = from_one_to(u32::MAX, number);
    slot.is_some()
}

/// The number, if it is one of 1 to 255.
fn small(number: u32) -> Option<u8>
    ensures { IfSome result (λ n. (number ≡ n) × (1 ≤ n) × (n ≤ 255)) }
{
    if 1 <= number && number <= 255 {
        Some(number as u8)
    } else {
        None
    }
}

impl Section {
    ghost use Rattle.toml.specs.Data.{no_members};
    ghost use Rattle.scr_layout.specs.Values.{has_only};
    ghost use Rattle.scr_layout.specs.Rows.{rows_of};
    ghost use Rattle.scr_layout.specs.Field.{field_keys, name_of, length_of, kind_of};
    ghost use Rattle.plain_tables.specs.Plain.{IsPut};
    ghost use Rattle.scr_layout.specs.Section.{IsPlaced, IsSaid};

    /// No pair.
    pub(crate) fn new() -> Section
        ensures { members_of result ≡ no_members }
    {
        Section {
            name: None,
            row: None,
            col: None,
            length: None,
            kind: None,
            count: None,
            down: None,
        }
    }

    /// Puts a pair of a key of a field that isn't there yet; whether it did.
    pub(crate) fn put(&mut self, key: &str, value: Value) -> bool
        ensures { (result ≡ true) → IsPut (members_of self.old) key.now (view value)
            (members_of self.new) }
    {
        match key {
            "name" => put_text(&mut self.name, value),
            "row" => put_number(&mut self.row, &value),
            "col" => put_number(&mut self.col, &value),
            "length" => put_number(&mut self.length, &value),
            "kind" => put_text(&mut self.kind, value),
            "count" => put_number(&mut self.count, &value),
            "down" => put_number(&mut self.down, &value),
            _ => false,
        }
    }

    /// Whether the keys are those of a field of the version.
    fn has_keys_of(&self, version: Version) -> bool
        ensures { (result ≡ true) → has_only (field_keys version) (members_of self.now) ≡ true }
    {
        match version {
            Version::One => self.count.is_none() && self.down.is_none(),
            Version::Two => true,
        }
    }

    fn name(&self) -> Option<&str>
        ensures { IfSome result (λ name. (name_of (members_of self.now) ≡ Ok name.now)
            × (is_name name.now ≡ true)) }
    {
        match &self.name {
            Some(name) if is_name(name.as_str()) => Some(name.as_str()),
            _ => None,
        }
    }

    /// How many entries it stands for, and how they lie.
    fn rows(&self) -> Option<Option<Rows>>
        ensures { IfSome result (λ rows. rows_of (members_of self.now) ≡ Ok rows) }
    {
        match (self.count, self.down) {
            (None, None) => Some(None),
            (None, Some(_)) => None,
            (Some(count), None) => {
                let count = small(count)?;
                Some(Some(Rows { count, down: 1 }))
            }
            (Some(count), Some(down)) => {
                let count = small(count)?;
                let down = small(down)?;
                Some(Some(Rows { count, down }))
            }
        }
    }

    fn place(&self, size: Size) -> Option<u32>
        requires { IsSmall size }
        ensures { IfSome result (IsPlaced size (members_of self.now)) }
    {
        let row = self.row?;
        let col = self.col?;
        if row < 1 || u32::from(size.rows) < row || col < 1 || u32::from(size.cols) < col {
            return None;
        }
        Some((row - 1) * u32::from(size.cols) + (col - 1))
    }

    fn length(&self, size: Size) -> Option<u32>
        ensures { IfSome result (λ length. length_of size (members_of self.now) ≡ Ok length) }
    {
        let length = self.length?;
        if 1 <= length && length < size.cells() {
            Some(length)
        } else {
            None
        }
    }

    fn kind(&self) -> Option<Kind>
        ensures { IfSome result (λ kind. kind_of (members_of self.now) ≡ Ok kind) }
    {
        match &self.kind {
            Some(word) => named_kind(word.as_str()).ok(),
            None => Some(Kind::Input),
        }
    }

    /// What the field says, where it has each key that every field has, and no value is one that it may not have.
    pub(crate) fn said(&self, version: Version, size: Size) -> Option<Said<'_>>
        requires { IsSmall size }
        ensures { IfSome result (λ said. IsSaid version size (members_of self.now)
            said.name.now said.rows said.place said.length said.kind) }
    {
        if !self.has_keys_of(version) {
            return None;
        }
        Some(Said {
            name: self.name()?,
            rows: self.rows()?,
            place: self.place(size)?,
            length: self.length(size)?,
            kind: self.kind()?,
        })
    }
}

/// The entries before, and behind them one more: none where they are too many, or its name or its place is taken.
fn with_entry(alloc: Global, before: Listed, entry: Entry) -> Result<Option<Listed>, AllocError>
    ensures { IfOk result (λ found. IfSome found (λ listed. (length before < 1000)
        × (has_name entry.name before ≡ false) × (has_place entry.place before ≡ false)
        × (listed ≡ before ++ entry ∷ []))) }
{
    if before.len() >= 1000 || before.has_name(&entry.name) || before.has_place(entry.place) {
        return Ok(None);
    }
    Ok(Some(before.with(alloc, entry)?))
}

/// The entries before, and behind them those of the rows of a field: none where something of them is to be refused.
fn with_rows(
    alloc: Global,
    size: Size,
    before: Listed,
    said: &Said<'_>,
) -> Result<Option<Listed>, AllocError>
    requires small { IsSmall size }
    requires inside { said.now.place < cells_of size }
    ensures { IfOk result (λ found. IfSome found (λ listed. (names : List (List ℕ))
        × (names_of before said.now.name.now said.now.rows ≡ Ok names)
        × (are_free size before (step_of size said.now.rows) said.now.place
        (count_of said.now.rows) ≡ Ok tt)
        × (listed ≡ before ++ entries_from (step_of size said.now.rows) said.now.place
        said.now.length said.now.kind names))) }
{
    let names = match names_of(alloc, &before, said.name, said.rows) {
        Ok(names) => names,
        Err(LayoutError::OutOfMemory) => return Err(AllocError),
        Err(LayoutError::Refused(_)) => return Ok(None),
    };
    let step = step_of(size, said.rows);
    if are_free(size, &before, step, said.place, count_of(said.rows)).is_err() {
        return Ok(None);
    }
    let listed = with_names(
        alloc,
        before,
        names,
        step,
        said.place,
        said.length,
        said.kind,
    )?;
    Ok(Some(listed))
}

/// The entries before, and behind them those that a field stands for on a screen of this size: none where something of it is to be
/// refused.
pub(crate) fn with_section(
    alloc: Global,
    version: Version,
    size: Size,
    before: Listed,
    section: &Section,
) -> Result<Option<Listed>, AllocError>
    requires { IsSmall size }
    ensures { IfOk result (λ found. IfSome found (λ listed.
        with_table version size before (members_of section.now) ≡ Ok listed)) }
{
    let Some(said) = section.said(version, size) else {
        return Ok(None);
    };
    if said.rows.is_some() {
        return with_rows(alloc, size, before, &said);
    }
    let entry = Entry {
        name: String::from_str(alloc, said.name)?,
        place: said.place,
        length: said.length,
        kind: said.kind,
    };
    with_entry(alloc, before, entry)
}
