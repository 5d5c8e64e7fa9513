//! The entries of one table: how many there are, how they are named, and where they begin.

ghost use Rattle.std.specs.Prelude.{◌≡◌, ◌≤◌, ◌<◌, ◌++◌, [], ◌∷◌, IfOk, map, length, string_bytes, Some};
ghost use Rattle.std.specs.List.{list_all, range_with_len};
ghost use Rattle.ds_codec.specs.Geometry.{cells_of};
ghost use Rattle.toml.specs.View.{view, table_view};
ghost use Rattle.scr_layout.specs.Entry.{is_name};
ghost use Rattle.scr_layout.specs.Results.{Tells, Gives};
ghost use Rattle.scr_layout.specs.Values.{value_at};
ghost use Rattle.scr_layout.specs.Rows.{number_of, down_or, rows_of, count_of, numbered, names_in, has_any, asked_by, new_names, names_of, IsSmall, step_of, free_at, are_free, entries_from};

use crate::entry::{Entry, Kind};
use crate::fault::{LayoutError, LayoutFault, LayoutKey, Why};
use crate::listed::Listed;
use crate::name::is_name;
use crate::values::{from_one_to, integer_of, value_at};
use ds_codec::Size;
use std::alloc::{AllocError, Global};
use toml::{Table, Value};

/// How many entries a table stands for, and how many rows each lies below the one before it. Both are 1 to 255.
#[derive(Clone, Copy)]
pub(crate) struct Rows {
    pub count: u8,
    pub down: u8,
}

/// A number of 1 to 255.
#[tactic(auto, unfolding(crate::specs::Rows::number_of))]
fn number_of(key: LayoutKey, value: &Value) -> Result<u8, LayoutFault>
    ensures { result ≡ number_of key (view value.now) }
{
    match from_one_to(255, integer_of(key, value)?) {
        Some(number) => Ok(number as u8),
        None => Err(LayoutFault::at_key(key, Why::BadCount)),
    }
}

/// `down`: 1 where it is absent.
fn down_of(field: &Table) -> Result<u8, LayoutFault>
    ensures { result ≡ down_or (value_at LayoutKey.Down (table_view field.now)) }
{
    match value_at(LayoutKey::Down, field) {
        Some(value) => number_of(LayoutKey::Down, value),
        None => Ok(1),
    }
}

/// `count`, and with it `down`: none where both are absent.
#[tactic(auto, unfolding(crate::specs::Rows::rows_of))]
pub(crate) fn rows_of(field: &Table) -> Result<Option<Rows>, LayoutFault>
    ensures { result ≡ rows_of (table_view field.now) }
{
    match value_at(LayoutKey::Count, field) {
        Some(value) => {
            let count = number_of(LayoutKey::Count, value)?;
            let down = down_of(field)?;
            Ok(Some(Rows { count, down }))
        }
        None => match value_at(LayoutKey::Down, field) {
            Some(_) => Err(LayoutFault::at_key(LayoutKey::Count, Why::MissingKey)),
            None => Ok(None),
        },
    }
}

/// How many entries the table stands for.
pub(crate) fn count_of(rows: Option<Rows>) -> u8
    ensures { result ≡ count_of rows }
{
    match rows {
        Some(rows) => rows.count,
        None => 1,
    }
}

/// How many cells each begins behind the one before it.
pub(crate) fn step_of(size: Size, rows: Option<Rows>) -> u32
    requires { IsSmall size }
    ensures value { result ≡ step_of size rows }
    ensures small { result ≤ 65025 }
{
    match rows {
        Some(rows) => u32::from(rows.down) * u32::from(size.cols),
        None => u32::from(size.cols),
    }
}

/// As `item-3`.
fn numbered(alloc: Global, name: &str, number: u8) -> Result<String, AllocError>
    ensures { IfOk result (λ s. string_bytes s ≡ numbered name.now number) }
{
    format!(in alloc; "{name}-{number}")
}

/// The name with each number from 1 on.
fn numbered_names(alloc: Global, name: &str, count: u8) -> Result<Vec<String>, AllocError>
    ensures names { IfOk result (λ names. map string_bytes names.items
        ≡ map (numbered name.now) (range_with_len 1 count)) }
    ensures len { IfOk result (λ names. length names.items ≡ count) }
{
    let mut names = Vec::with_capacity(alloc, usize::from(count))?;
    for index in 0..count {
        names.push(numbered(alloc, name, index + 1)?)?;
    }
    Ok(names)
}

/// The name itself, alone.
fn one_name(alloc: Global, name: &str) -> Result<Vec<String>, AllocError>
    ensures name { IfOk result (λ names. map string_bytes names.items ≡ name.now ∷ []) }
    ensures len { IfOk result (λ names. length names.items ≡ 1) }
{
    let mut names = Vec::with_capacity(alloc, 1)?;
    names.push(String::from_str(alloc, name)?)?;
    Ok(names)
}

/// The name itself where the table stands for one entry, and else with each number from 1 on.
fn names_in(alloc: Global, name: &str, rows: Option<Rows>) -> Result<Vec<String>, AllocError>
    ensures names { IfOk result (λ names. map string_bytes names.items ≡ names_in name.now rows) }
    ensures few { IfOk result (λ names. length names.items ≤ 255) }
{
    match rows {
        Some(rows) => numbered_names(alloc, name, rows.count),
        None => one_name(alloc, name),
    }
}

fn are_names(names: &[String]) -> bool
    ensures { result ≡ list_all is_name (map string_bytes names.now) }
{
    names.iter().all(|name| is_name(name.as_str()))
}

fn has_any(names: &[String], before: &Listed) -> bool
    ensures { result ≡ has_any (map string_bytes names.now) before.now }
{
    names.iter().any(|name| before.has_name(name.as_str()))
}

/// The names, if each is one and no entry before has it.
#[tactic(auto, unfolding(crate::specs::Rows::new_names))]
fn new_names(before: &Listed, names: Vec<String>) -> Result<Vec<String>, LayoutFault>
    ensures value { Tells (λ now. map string_bytes now.items) result
        (new_names before.now (map string_bytes names.items)) }
    ensures same { IfOk result (λ now. now.items ≡ names.items) }
{
    if !are_names(&names) {
        return Err(LayoutFault::at_key(LayoutKey::Name, Why::BadName));
    }
    if has_any(&names, before) {
        return Err(LayoutFault::at_key(LayoutKey::Name, Why::NameTwice));
    }
    Ok(names)
}

/// The key that asks for more entries than there is room for.
fn asked_by(rows: Option<Rows>) -> LayoutKey
    ensures { result ≡ asked_by rows }
{
    match rows {
        Some(_) => LayoutKey::Count,
        None => LayoutKey::Name,
    }
}

/// The names of a table's entries, of which there are at most 1,000 with those before.
#[tactic(auto, unfolding(crate::specs::Rows::names_of))]
pub(crate) fn names_of(
    alloc: Global,
    before: &Listed,
    name: &str,
    rows: Option<Rows>,
) -> Result<Vec<String>, LayoutError>
    ensures value { Gives (λ names. map string_bytes names.items) result
        (names_of before.now name.now rows) }
    ensures few { IfOk result (λ names. length names.items ≤ 255) }
{
    if before.len() > 1000 - usize::from(count_of(rows)) {
        let fault = LayoutFault::at_key(asked_by(rows), Why::TooManyFields);
        return Err(LayoutError::Refused(fault));
    }
    let names = names_in(alloc, name, rows)?;
    Ok(new_names(before, names)?)
}

/// The place, if it is on the screen and no entry before stands there.
#[tactic(auto, unfolding(crate::specs::Rows::free_at))]
fn free_at(size: Size, before: &Listed, place: u32) -> Result<u32, LayoutFault>
    ensures value { result ≡ free_at size before.now place }
    ensures inside { IfOk result (λ here. here < cells_of size) }
{
    if place >= size.cells() {
        return Err(LayoutFault::at_key(LayoutKey::Row, Why::PlaceOutside));
    }
    if before.has_place(place) {
        return Err(LayoutFault::at_key(LayoutKey::Row, Why::PlaceTwice));
    }
    Ok(place)
}

/// Tests so many places, one after the other.
pub(crate) fn are_free(
    size: Size,
    before: &Listed,
    step: u32,
    first: u32,
    count: u8,
) -> Result<(), LayoutFault>
    requires size { IsSmall size }
    requires step { step ≤ 65025 }
    ensures { result ≡ are_free size before.now step first count }
{
    let mut place = first;
    for _row in 0..count {
        place = free_at(size, before, place)? + step;
    }
    Ok(())
}

/// The entries before, and behind them those of these names, from a place on.
pub(crate) fn with_names(
    alloc: Global,
    before: Listed,
    names: Vec<String>,
    step: u32,
    first: u32,
    cells: u32,
    kind: Kind,
) -> Result<Listed, AllocError>
    requires step { step ≤ 65025 }
    requires first { first ≤ 65025 }
    requires few { length names.items ≤ 255 }
    ensures { IfOk result (λ now. now
        ≡ before ++ entries_from step first cells kind (map string_bytes names.items)) }
{
    let mut listed = before;
    let mut place = first;
    for name in names {
        let entry = Entry {
            name,
            place,
            length: cells,
            kind,
        };
        listed = listed.with(alloc, entry)?;
        place += step;
    }
    Ok(listed)
}
