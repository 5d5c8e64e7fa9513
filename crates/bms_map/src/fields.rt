//! What is wrong with a field, and what it is.

ghost use Rattle.std.specs.Prelude.{◌≡◌, ◌≤◌, ◌<◌, ◌+◌, ◌*◌, ◌==◌, map, length, IfOk, IfSome};
ghost use Rattle.std.specs.Vec.{vec_len};
ghost use Rattle.std.specs.Option.{option_map};
ghost use Rattle.bms_source.specs.Results.{Gives};
ghost use Rattle.bms_source.specs.Told.{place_at};
ghost use Rattle.bms_map.specs.Maps.{its_ground};
ghost use Rattle.bms_map.specs.LayoutText.{lower};
ghost use Rattle.bms_map.specs.Entries.{names_of};
ghost use Rattle.bms_map.specs.Pictures.{length_of};
ghost use Rattle.bms_map.specs.Lookup.{told_at_operand, later_of, occurs_in};
ghost use Rattle.bms_map.specs.Fields.{needed, missing, field_length, label_of, needed_label, field_label, judge_conflicts, unless_later, text_name, judge_text, side_in, if_inside, index_of, occurs_or, with_room, place_of, judged_place, digits_for, is_short, is_taken, judge_name};

use crate::lookup::{is_given, later_of, length_in, occurs_in, pos_in, refused_at, value_at};
use crate::macros::{FieldMacro, is_taken};
use crate::names::name_of;
use crate::operands::Setting;
use crate::picture::length_of;
use crate::place::Area;
use crate::refuse::refused_name;
use crate::values::{Pos, if_within};
use bms_source::{Letter, Place, SourceError, Statement, Why, is_symbol, upper_word};
use std::alloc::{AllocError, Global};

/// The refusal of an operand that is missing, at the operation.
pub(crate) fn missing(
    alloc: Global,
    name: &[u8],
    statement: &Statement,
) -> Result<SourceError, AllocError>
    ensures { IfOk result (λ error. error
        ≡ SourceError.Refused (missing name.now statement.now)) }
{
    refused_name(alloc, Why::MissingOperand, name, statement.place)
}

/// A length, or a refusal at its operand.
fn needed_length(
    alloc: Global,
    operands: &[Setting<'_>],
    name: &[u8],
    picture: &[Letter],
) -> Result<u32, SourceError>
    ensures length { Gives (λ n. n) result
        (needed (told_at_operand Why.BadValue name.now operands.now) (length_of picture.now)) }
    ensures most { IfOk result (λ n. n ≤ 256) }
{
    match length_of(picture) {
        Some(length) => Ok(length),
        None => Err(refused_at(alloc, Why::BadValue, operands, name)?),
    }
}

/// LENGTH, or the positions of the picture.
pub(crate) fn field_length(
    alloc: Global,
    statement: &Statement,
    operands: &[Setting<'_>],
) -> Result<u32, SourceError>
    ensures length { Gives (λ n. n) result (field_length statement.now operands.now) }
    ensures most { IfOk result (λ n. n ≤ 256) }
{
    if let Some(length) = length_in(operands) {
        return Ok(length);
    }
    match (value_at(operands, b"PICIN"), value_at(operands, b"PICOUT")) {
        (Some(picture), _) => needed_length(alloc, operands, b"PICIN", picture),
        (None, Some(picture)) => needed_length(alloc, operands, b"PICOUT", picture),
        (None, None) => Err(missing(alloc, b"LENGTH", statement)?),
    }
}

/// The place of a label.
pub(crate) fn label_place(statement: &Statement) -> Place
    ensures { result ≡ place_at statement.now.line 1 }
{
    Place {
        line: statement.line,
        column: 1,
    }
}

/// The number of the first line of a macro.
pub(crate) fn line_of(statement: &Statement) -> usize
    ensures { result ≡ statement.now.line }
{
    statement.line
}

/// The label in upper case, which has to be a symbol of at most so many characters.
fn label_of(alloc: Global, statement: &Statement, most: usize) -> Result<Vec<u8>, SourceError>
    ensures { Gives (λ label. label.items) result (label_of statement.now most) }
{
    let label = statement.label.as_slice();
    if is_symbol(label) && label.len() <= most {
        return Ok(upper_word(alloc, label)?);
    }
    Err(SourceError::at(alloc, Why::BadLabel, label_place(statement)))
}

/// Whether a macro has no label.
fn is_unlabelled(statement: &Statement) -> bool
    ensures { result ≡ (length statement.now.label == 0) }
{
    statement.label.is_empty()
}

pub(crate) fn needed_label(
    alloc: Global,
    statement: &Statement,
    most: usize,
) -> Result<Vec<u8>, SourceError>
    ensures { Gives (λ label. label.items) result (needed_label statement.now most) }
{
    if is_unlabelled(statement) {
        return Err(SourceError::at(alloc, Why::MissingLabel, statement.place));
    }
    label_of(alloc, statement, most)
}

/// The label of a field: empty where it has none and needs none.
pub(crate) fn field_label(
    alloc: Global,
    statement: &Statement,
    operands: &[Setting<'_>],
) -> Result<Vec<u8>, SourceError>
    ensures { Gives (λ label. label.items) result (field_label statement.now operands.now) }
{
    if is_given(operands, b"OCCURS") || is_given(operands, b"GRPNAME") {
        return needed_label(alloc, statement, 30);
    }
    if is_unlabelled(statement) {
        return Ok(Vec::new(alloc));
    }
    label_of(alloc, statement, 30)
}

/// The later one of two operands that exclude each other is refused.
fn unless_later(
    alloc: Global,
    operands: &[Setting<'_>],
    one: &[u8],
    other: &[u8],
) -> Result<(), SourceError>
    ensures { Gives (λ done. done) result
        (unless_later operands.now (later_of one.now other.now operands.now)) }
{
    match later_of(one, other, operands) {
        None => Ok(()),
        Some(name) => Err(refused_at(alloc, Why::Conflict, operands, name)?),
    }
}

/// Operands that exclude each other.
#[tactic(auto, unfolding(crate::specs::Fields::judge_conflicts))]
pub(crate) fn judge_conflicts(
    alloc: Global,
    statement: &Statement,
    operands: &[Setting<'_>],
    length: u32,
) -> Result<(), SourceError>
    ensures { Gives (λ done. done) result
        (judge_conflicts statement.now operands.now length) }
{
    unless_later(alloc, operands, b"INITIAL", b"XINIT")?;
    unless_later(alloc, operands, b"OCCURS", b"GRPNAME")?;
    if length == 0 && !is_unlabelled(statement) {
        return Err(refused_at(alloc, Why::Conflict, operands, b"LENGTH")?);
    }
    Ok(())
}

fn text_name(operands: &[Setting<'_>]) -> &'static [u8]
    ensures { result.now ≡ text_name operands.now }
{
    if is_given(operands, b"INITIAL") {
        b"INITIAL"
    } else {
        b"XINIT"
    }
}

/// The text has at most as many characters as the field.
pub(crate) fn judge_text(
    alloc: Global,
    operands: &[Setting<'_>],
    text: &Option<Vec<u8>>,
    length: u32,
) -> Result<(), SourceError>
    ensures judged { Gives (λ done. done) result
        (judge_text operands.now (option_map (λ t. t.items) text.now) length) }
    ensures short { IfOk result (λ done. IfSome text.now (λ t. vec_len t ≤ length)) }
{
    match text {
        None => Ok(()),
        Some(text) => {
            if (length as usize) < text.len() {
                return Err(refused_at(alloc, Why::TooLong, operands, text_name(operands))?);
            }
            Ok(())
        }
    }
}

/// A line or a column, counted from 0, if it is one of so many.
fn side_in(number: u32, most: u8) -> Option<u32>
    ensures side { result ≡ side_in number most }
    ensures few { IfSome result (λ n. n < most) }
{
    match if_within(1, u32::from(most), number) {
        Some(number) => Some(number - 1),
        None => None,
    }
}

fn if_inside(places: u32, index: u32) -> Option<u32>
    ensures inside { result ≡ if_inside places index }
    ensures few { IfSome result (λ n. n < places) }
{
    if index < places { Some(index) } else { None }
}

/// The place in a line and a column that are counted from 0.
fn place_in(line: u32, column: u32, columns: u8) -> u32
    requires line { line < 255 }
    requires column { column < 255 }
    ensures place { result ≡ line * columns + column }
    ensures few { result ≤ 65025 }
{
    line * u32::from(columns) + column
}

/// The place of a field in its map, counted from 0.
fn index_of(area: Area, pos: Pos) -> Option<u32>
    ensures index { result ≡ index_of (its_ground area) pos }
    ensures few { IfSome result (λ n. n ≤ 65025) }
{
    match pos {
        Pos::Pair(line, column) => {
            let line = side_in(line, area.extent.lines)?;
            let column = side_in(column, area.extent.columns)?;
            Some(place_in(line, column, area.extent.columns))
        }
        Pos::Number(index) => if_inside(area.places(), index),
    }
}

fn occurs_or(occurs: Option<u32>) -> u32
    ensures { result ≡ occurs_or occurs }
{
    match occurs {
        None => 1,
        Some(number) => number,
    }
}

/// How often a field stands.
pub(crate) fn occurs_of(operands: &[Setting<'_>]) -> u32
    ensures occurs { result ≡ occurs_or (occurs_in operands.now) }
    ensures few { result ≤ 1000 }
{
    match occurs_in(operands) {
        None => 1,
        Some(number) => number,
    }
}

/// The place of an occurrence, counted from 0.
fn place_at(index: u32, length: u32, k: u32) -> u32
    requires index { index ≤ 65025 }
    requires length { length ≤ 256 }
    requires few { k ≤ 1000 }
    ensures { result ≡ index + k * (length + 1) }
{
    index + k * (length + 1)
}

/// The place, if that of the last occurrence is in the map too.
fn with_room(area: Area, length: u32, occurs: u32, index: u32) -> Option<u32>
    requires index { index ≤ 65025 }
    requires length { length ≤ 256 }
    requires few { occurs ≤ 1000 }
    ensures place { result ≡ with_room (its_ground area) length occurs index }
    ensures few { IfSome result (λ n. n ≤ 65025) }
{
    match if_inside(
        area.places(),
        place_at(index, length, occurs.saturating_sub(1)),
    ) {
        Some(_last) => Some(index),
        None => None,
    }
}

/// The place of a field in its map, of which each occurrence has to be there.
fn place_of_field(area: Area, operands: &[Setting<'_>], length: u32) -> Option<u32>
    requires { length ≤ 256 }
    ensures place { result ≡ place_of (its_ground area) operands.now length }
    ensures few { IfSome result (λ n. n ≤ 65025) }
{
    match pos_in(operands) {
        None => None,
        Some(pos) => match index_of(area, pos) {
            None => None,
            Some(index) => with_room(area, length, occurs_of(operands), index),
        },
    }
}

pub(crate) fn judged_place(
    alloc: Global,
    area: Area,
    operands: &[Setting<'_>],
    length: u32,
) -> Result<u32, SourceError>
    requires { length ≤ 256 }
    ensures place { Gives (λ n. n) result
        (judged_place (its_ground area) operands.now length) }
    ensures few { IfOk result (λ n. n ≤ 65025) }
{
    match place_of_field(area, operands, length) {
        Some(index) => Ok(index),
        None => Err(refused_at(alloc, Why::PosOutside, operands, b"POS")?),
    }
}

/// The characters of the number of the last occurrence, with a hyphen.
fn digits_for(occurs: u32) -> usize
    ensures digits { result ≡ digits_for occurs }
    ensures few { result ≤ 5 }
{
    if occurs < 2 {
        0
    } else if occurs < 10 {
        2
    } else if occurs < 100 {
        3
    } else if occurs < 1000 {
        4
    } else {
        5
    }
}

/// The longest layout name has at most 32 characters.
fn is_short(label: &[u8], occurs: u32) -> bool
    ensures { result ≡ is_short label.now occurs }
{
    label.len() <= 32 - digits_for(occurs)
}

/// Whether a label is the name of another field.
fn is_used(alloc: Global, entries: &[FieldMacro], label: &[u8]) -> Result<bool, AllocError>
    ensures { IfOk result (λ used. used ≡ is_taken (names_of entries.now) (map lower label.now)) }
{
    let name = name_of(alloc, label)?;
    Ok(is_taken(entries, &name))
}

/// A name is short enough with its number, and new.
#[tactic(auto, unfolding(crate::specs::Fields::judge_name))]
pub(crate) fn judge_name(
    alloc: Global,
    statement: &Statement,
    entries: &[FieldMacro],
    label: &[u8],
    occurs: u32,
) -> Result<(), SourceError>
    ensures { Gives (λ done. done) result
        (judge_name statement.now entries.now label.now occurs) }
{
    if !is_short(label, occurs) {
        return Err(SourceError::at(alloc, Why::BadLabel, label_place(statement)));
    }
    if !label.is_empty() && is_used(alloc, entries, label)? {
        return Err(refused_name(alloc, Why::NameTwice, label, label_place(statement))?);
    }
    Ok(())
}
