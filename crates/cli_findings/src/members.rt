//! A finding as a JSON object.

ghost use Rattle.std.specs.Prelude.{◌≡◌, ◌≤◌, ◌++◌, map, option_map, option_and_then, slice_get, IfOk, OnOk, Some};
ghost use Rattle.std.specs.String.{string_bytes};
ghost use Rattle.hex.specs.Hex.{encode_upper};
ghost use Rattle.serde_json.specs.View.{view, members_view};
ghost use Rattle.cli_findings.specs.Facts.{sent_from};
ghost use Rattle.cli_findings.specs.Members.{with_count, with_text, with_words, with_spot, with_end, with_place, with_entry, with_sizes, with_keys, with_help, spot_data, key_data, pressed, keys_data, finding_members, finding_data};

use crate::facts::{
    byte_of, column_at, entry_of, length_of, place_of, record_of, row_at, size_text, sizes_of,
};
use crate::help::help_text;
use crate::names::name_of;
use crate::object::{Members, put_str};
use demo_screens::Rehearsal;
use ds_codec::Size;
use ds_screen::PlaneCells;
use order_lines::push_bytes;
use scr_check::{Demo, Finding, Origin, Traced};
use scr_layout::{Entry, Layout};
use serde_json::{Map, Value, put};
use std::alloc::{AllocError, Global};

/// A number at a key, where there is one.
fn put_count(
    alloc: Global,
    members: &mut Members,
    key: &str,
    count: Option<usize>,
) -> Result<(), AllocError>
    ensures { OnOk result (members_view members.new.entries
        ≡ with_count key.now count (members_view members.old.entries)) }
{
    match count {
        Some(count) => put(members, alloc, key, Value::from(count)),
        None => Ok(()),
    }
}

/// The same of a number of 64 bits.
///
/// # Errors
///
/// Where a request for memory was refused.
pub fn put_number(
    alloc: Global,
    members: &mut Members,
    key: &str,
    number: Option<u64>,
) -> Result<(), AllocError>
    ensures { OnOk result (members_view members.new.entries
        ≡ with_count key.now number (members_view members.old.entries)) }
{
    match number {
        Some(number) => put(members, alloc, key, Value::from(number)),
        None => Ok(()),
    }
}

/// A text at a key.
///
/// # Errors
///
/// Where a request for memory was refused.
pub fn put_text(
    alloc: Global,
    members: &mut Members,
    key: &str,
    text: String,
) -> Result<(), AllocError>
    ensures { OnOk result (members_view members.new.entries
        ≡ with_text key.now (Some (string_bytes text)) (members_view members.old.entries)) }
{
    put(members, alloc, key, Value::String(text))
}

fn put_words(
    alloc: Global,
    members: &mut Members,
    entries: &[Entry],
    finding: &Finding,
) -> Result<(), AllocError>
    ensures { OnOk result (members_view members.new.entries
        ≡ with_words entries.now finding.now (members_view members.old.entries)) }
{
    put_number(alloc, members, "number", Some(u64::from(finding.number())))?;
    put_str(alloc, members, "name", name_of(finding))?;
    let mut words = String::new(alloc);
    finding.push_text(&mut words, entries)?;
    put_text(alloc, members, "words", words)
}

/// The line of a record, of those on which records stand, where there is one.
fn line_of(numbers: &[usize], index: Option<usize>) -> Option<usize>
    ensures { result ≡ option_and_then (slice_get numbers.now) index }
{
    numbers.get(index?).copied()
}

/// A record, its line, of those on which records stand, and a byte of it, where there are such.
///
/// # Errors
///
/// Where a request for memory was refused.
pub fn put_spot(
    alloc: Global,
    members: &mut Members,
    numbers: &[usize],
    index: Option<usize>,
    byte: Option<usize>,
) -> Result<(), AllocError>
    ensures { OnOk result (members_view members.new.entries
        ≡ with_spot numbers.now index byte (members_view members.old.entries)) }
{
    put_count(alloc, members, "record", index)?;
    put_count(alloc, members, "line", line_of(numbers, index))?;
    put_count(alloc, members, "byte", byte)
}

/// Where an order stands.
fn spot_value(alloc: Global, numbers: &[usize], origin: Origin) -> Result<Value, AllocError>
    ensures { IfOk result (λ value. view value ≡ spot_data numbers.now origin) }
{
    let mut members = Map::new(alloc);
    put_spot(
        alloc,
        &mut members,
        numbers,
        Some(origin.index),
        Some(origin.at),
    )?;
    Ok(Value::Object(members))
}

/// The order that ends the field, where one is known.
fn put_end(
    alloc: Global,
    members: &mut Members,
    numbers: &[usize],
    end: Option<Origin>,
) -> Result<(), AllocError>
    ensures { OnOk result (members_view members.new.entries
        ≡ with_end numbers.now end (members_view members.old.entries)) }
{
    match end {
        Some(origin) => put(members, alloc, "end", spot_value(alloc, numbers, origin)?),
        None => Ok(()),
    }
}

/// The place of a finding, with its row and its column, where it has one.
///
/// # Errors
///
/// Where a request for memory was refused.
pub fn put_place(
    alloc: Global,
    members: &mut Members,
    size: Size,
    place: Option<u32>,
) -> Result<(), AllocError>
    requires { 1 ≤ size.cols }
    ensures { OnOk result (members_view members.new.entries
        ≡ with_place size place (members_view members.old.entries)) }
{
    let Some(place) = place else {
        return Ok(());
    };
    put_number(alloc, members, "place", Some(u64::from(place)))?;
    put_number(alloc, members, "row", Some(row_at(size, place)))?;
    put_number(alloc, members, "column", Some(column_at(size, place)))
}

/// What a finding tells of an entry: how many cells its field has, how many are declared, and its name.
///
/// # Errors
///
/// Where a request for memory was refused.
pub fn put_entry(
    alloc: Global,
    members: &mut Members,
    entries: &[Entry],
    finding: &Finding,
) -> Result<(), AllocError>
    ensures { OnOk result (members_view members.new.entries
        ≡ with_entry entries.now finding.now (members_view members.old.entries)) }
{
    put_number(alloc, members, "length", length_of(finding))?;
    let Some(entry) = entry_of(entries, finding) else {
        return Ok(());
    };
    put_number(alloc, members, "declared", Some(u64::from(entry.length)))?;
    put_text(alloc, members, "entry", entry.name.clone()?)
}

fn put_sizes(
    alloc: Global,
    members: &mut Members,
    sizes: Option<(Size, Size)>,
) -> Result<(), AllocError>
    ensures { OnOk result (members_view members.new.entries
        ≡ with_sizes sizes (members_view members.old.entries)) }
{
    let Some((shown, declared)) = sizes else {
        return Ok(());
    };
    put_text(alloc, members, "size", size_text(alloc, shown)?)?;
    put_text(alloc, members, "layout", size_text(alloc, declared)?)
}

/// A key as a line of keys, with how often it is pressed.
fn key_value(alloc: Global, line: &str, times: u32) -> Result<Value, AllocError>
    ensures { IfOk result (λ value. view value ≡ key_data line.now times) }
{
    let mut members = Map::new(alloc);
    put_str(alloc, &mut members, "key", line)?;
    put(&mut members, alloc, "times", Value::from(times))?;
    Ok(Value::Object(members))
}

/// The same among others; nothing where it isn't pressed.
fn push_key(alloc: Global, keys: &mut Vec<Value>, line: &str, times: u32) -> Result<(), AllocError>
    ensures { OnOk result (map view keys.new.items
        ≡ map view keys.old.items ++ pressed line.now times) }
{
    if times == 0 {
        return Ok(());
    }
    keys.push(key_value(alloc, line, times)?)?;
    Ok(())
}

/// The keys of a demo, each with how often it is pressed.
fn keys_value(alloc: Global, demo: Demo) -> Result<Value, AllocError>
    ensures { IfOk result (λ value. view value ≡ keys_data demo) }
{
    let mut keys = Vec::new(alloc);
    push_key(alloc, &mut keys, "right", demo.rights)?;
    push_key(alloc, &mut keys, "type C1", demo.types)?;
    push_key(alloc, &mut keys, "enter", 1)?;
    Ok(Value::Array(keys))
}

/// What the keys of a demo send, in hexadecimal.
fn sends_text(
    alloc: Global,
    rehearsal: &mut Rehearsal<PlaneCells>,
    demo: Demo,
) -> Result<String, AllocError>
    ensures text { IfOk result (λ text. Some (string_bytes text)
        ≡ option_map encode_upper (sent_from (Some rehearsal.old) (Some demo))) }
    ensures kept { rehearsal.new ≡ rehearsal.old }
{
    let bytes = rehearsal.sends(alloc, demo)?;
    let mut text = String::new(alloc);
    push_bytes(&mut text, bytes.as_slice())?;
    Ok(text)
}

/// The keys that show a finding, and what they send where they are tried.
///
/// # Errors
///
/// Where a request for memory was refused.
pub fn put_keys(
    alloc: Global,
    members: &mut Members,
    rehearsal: &mut Option<Rehearsal<PlaneCells>>,
    demo: Option<Demo>,
) -> Result<(), AllocError>
    ensures put { OnOk result (members_view members.new.entries
        ≡ with_keys rehearsal.old demo (members_view members.old.entries)) }
    ensures kept { rehearsal.new ≡ rehearsal.old }
{
    let Some(demo) = demo else {
        return Ok(());
    };
    put(members, alloc, "keys", keys_value(alloc, demo)?)?;
    match rehearsal {
        Some(rehearsal) => put_text(alloc, members, "sends", sends_text(alloc, rehearsal, demo)?),
        None => Ok(()),
    }
}

/// What to do, where it is known.
fn put_help(
    alloc: Global,
    members: &mut Members,
    layout: &Layout,
    traced: &Traced,
) -> Result<(), AllocError>
    ensures { OnOk result (members_view members.new.entries
        ≡ with_help layout.now traced.now (members_view members.old.entries)) }
{
    match help_text(alloc, layout, traced)? {
        Some(help) => put_text(alloc, members, "help", help),
        None => Ok(()),
    }
}

/// The members of a finding of records on these lines: its number, its name and its words, and each of the others that it has: `record`,
/// `line` and `byte`, `end`, `place`, `row` and `column`, `length`, `declared` and `entry`, `size` and `layout`, `keys` and `sends`,
/// and `help`.
///
/// # Errors
///
/// Where a request for memory was refused.
pub fn finding_members(
    alloc: Global,
    layout: &Layout,
    numbers: &[usize],
    rehearsal: &mut Option<Rehearsal<PlaneCells>>,
    traced: &Traced,
) -> Result<Members, AllocError>
    ensures members { IfOk result (λ members. members_view members.entries
        ≡ finding_members layout.now numbers.now rehearsal.old traced.now) }
    ensures kept { rehearsal.new ≡ rehearsal.old }
{
    let entries = layout.entries();
    let finding = &traced.finding;
    let place = place_of(entries, finding);
    let mut members = Map::new(alloc);
    put_words(alloc, &mut members, entries, finding)?;
    put_spot(
        alloc,
        &mut members,
        numbers,
        record_of(traced),
        byte_of(traced),
    )?;
    put_end(alloc, &mut members, numbers, traced.end)?;
    put_place(alloc, &mut members, layout.size(), place)?;
    put_entry(alloc, &mut members, entries, finding)?;
    put_sizes(alloc, &mut members, sizes_of(finding))?;
    put_keys(alloc, &mut members, rehearsal, finding.demo())?;
    put_help(alloc, &mut members, layout, traced)?;
    Ok(members)
}

/// The same as a JSON object.
pub(crate) fn finding_value(
    alloc: Global,
    layout: &Layout,
    numbers: &[usize],
    rehearsal: &mut Option<Rehearsal<PlaneCells>>,
    traced: &Traced,
) -> Result<Value, AllocError>
    ensures value { IfOk result (λ value. view value
        ≡ finding_data layout.now numbers.now rehearsal.old traced.now) }
    ensures kept { rehearsal.new ≡ rehearsal.old }
{
    let members = finding_members(alloc, layout, numbers, rehearsal, traced)?;
    Ok(Value::Object(members))
}
