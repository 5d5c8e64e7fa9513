//! Groups of fields, and room for a field in its map.

ghost use Rattle.std.specs.Prelude.{◌≡◌, ◌≤◌, ◌<◌, ◌+◌, ◌*◌, ◌++◌, map, length, IfOk, IfSome, Some};
ghost use Rattle.std.specs.Vec.{vec_len};
ghost use Rattle.std.specs.Option.{option_map};
ghost use Rattle.bms_source.specs.Results.{Gives};
ghost use Rattle.bms_map.specs.Maps.{its_ground};
ghost use Rattle.bms_map.specs.Overlaps.{cell_in, last_of};
ghost use Rattle.bms_map.specs.LayoutText.{lower};
ghost use Rattle.bms_map.specs.Entries.{label_name, names_of, same};
ghost use Rattle.bms_map.specs.Fields.{is_taken, last_entry, same_group, goes_on, end_in, follows, too_much, bad_group, judge_end, judge_later, judge_occurrence, judge_each, judge_all, judge_group, judge_first, judge_entry, judged_entry, judge_text, judge_name, judged_place, entry_of, field_of, occurs_or};
ghost use Rattle.bms_map.specs.Lookup.{initial_in, occurs_in, group_in};

use crate::fields::{
    field_label, judge_conflicts, judge_name, judge_text, judged_place, line_of, occurs_of,
};
use crate::lookup::{
    attribute_in, cursor_in, group_in, initial_in, keyword_at, looks_in, refused_at,
};
use crate::macros::{
    FieldMacro, MapMacro, are_most, has_attribute, is_label_name, is_taken, is_too_much,
    last_entry, same,
};
use crate::names::name_of;
use crate::operands::Setting;
use crate::place::Area;
use crate::refuse::{place_of, refused_name};
use bms_source::{SourceError, Statement, Why};
use std::alloc::{AllocError, Global};

fn too_much(alloc: Global, statement: &Statement) -> SourceError
    ensures { result ≡ SourceError.Refused (too_much statement.now) }
{
    SourceError::at(alloc, Why::TooMuch, statement.place)
}

fn bad_group(alloc: Global, operands: &[Setting<'_>]) -> Result<SourceError, AllocError>
    ensures { IfOk result (λ error. error ≡ SourceError.Refused (bad_group operands.now)) }
{
    refused_at(alloc, Why::BadGroup, operands, b"GRPNAME")
}

/// Whether two groups are one.
fn same_group(one: &Option<Vec<u8>>, other: &Option<Vec<u8>>) -> bool
    ensures { result ≡ same_group (option_map (λ g. g.items) one.now)
        (option_map (λ g. g.items) other.now) }
{
    match one {
        None => false,
        Some(one) => match other {
            None => false,
            Some(other) => same(one.as_slice(), other.as_slice()),
        },
    }
}

/// Whether a field of a group goes on with that of the field before it.
fn goes_on(entries: &[FieldMacro], group: &Option<Vec<u8>>) -> bool
    ensures { result
        ≡ goes_on (last_entry entries.now) (option_map (λ g. g.items) group.now) }
{
    match last_entry(entries) {
        None => false,
        Some(before) => same_group(&before.group, group),
    }
}

/// The position of the last character.
fn end_in(area: Area, entry: &FieldMacro) -> u32
    ensures { result ≡ end_in (its_ground area) entry.now }
{
    entry.cell(area) + entry.size()
}

/// Whether a field stands at the last position of the one before it.
fn follows(area: Area, entries: &[FieldMacro], entry: &FieldMacro) -> bool
    ensures { result ≡ follows (its_ground area) (last_entry entries.now) entry.now }
{
    match last_entry(entries) {
        None => false,
        Some(before) => entry.cell(area) == end_in(area, before),
    }
}

/// A group lies in its map.
fn judge_end(
    alloc: Global,
    area: Area,
    operands: &[Setting<'_>],
    entry: &FieldMacro,
) -> Result<(), SourceError>
    ensures { Gives (λ done. done) result
        (judge_end (its_ground area) operands.now entry.now) }
{
    if area.last() < end_in(area, entry) {
        return Err(bad_group(alloc, operands)?);
    }
    Ok(())
}

/// A later field of a group.
#[tactic(auto, unfolding(crate::specs::Fields::judge_later))]
fn judge_later(
    alloc: Global,
    section: &MapMacro,
    statement: &Statement,
    operands: &[Setting<'_>],
    entry: &FieldMacro,
) -> Result<(), SourceError>
    ensures { Gives (λ done. done) result
        (judge_later section.now statement.now operands.now entry.now) }
{
    if !follows(section.its_area(), section.its_entries(), entry) {
        return Err(bad_group(alloc, operands)?);
    }
    judge_end(alloc, section.its_area(), operands, entry)?;
    if is_too_much(section.its_entries(), entry.later_size()) {
        return Err(too_much(alloc, statement));
    }
    Ok(())
}

/// An occurrence, counted from 0.
#[tactic(auto, unfolding(crate::specs::Fields::judge_occurrence))]
fn judge_occurrence(
    alloc: Global,
    section: &MapMacro,
    statement: &Statement,
    operands: &[Setting<'_>],
    entry: &FieldMacro,
    k: u32,
) -> Result<(), SourceError>
    requires { k < 1000 }
    ensures { Gives (λ done. done) result
        (judge_occurrence section.now statement.now operands.now entry.now k) }
{
    let area = section.its_area();
    if has_attribute(area, section.its_entries(), entry.cell_at(area, k)) {
        return Err(refused_at(alloc, Why::PosTwice, operands, b"POS")?);
    }
    if are_most(area, section.its_entries(), k) {
        return Err(too_much(alloc, statement));
    }
    if is_too_much(section.its_entries(), entry.size_of(k + 1)) {
        return Err(too_much(alloc, statement));
    }
    Ok(())
}

/// Each occurrence.
fn judge_all(
    alloc: Global,
    section: &MapMacro,
    statement: &Statement,
    operands: &[Setting<'_>],
    entry: &FieldMacro,
) -> Result<(), SourceError>
    ensures { Gives (λ done. done) result
        (judge_all section.now statement.now operands.now entry.now) }
{
    let count = entry.count();
    'occurrences: for k in 0..count {
        judge_occurrence(alloc, section, statement, operands, entry, k)?;
    }
    Ok(())
}

/// Whether the name of a group is that of another field, or of its own first field.
fn is_group_used(
    alloc: Global,
    entries: &[FieldMacro],
    label: &[u8],
    group: &[u8],
) -> Result<bool, AllocError>
    ensures { IfOk result (λ used. used
        ≡ is_taken (names_of entries.now ++ label_name label.now) (map lower group.now)) }
{
    let name = name_of(alloc, group)?;
    if is_taken(entries, &name) {
        return Ok(true);
    }
    Ok(is_label_name(label, &name))
}

/// The first field of a group.
fn judge_named(
    alloc: Global,
    section: &MapMacro,
    operands: &[Setting<'_>],
    entry: &FieldMacro,
    group: &[u8],
) -> Result<(), SourceError>
    ensures { Gives (λ done. done) result
        (judge_group section.now operands.now entry.now (Some group.now)) }
{
    if is_group_used(alloc, section.its_entries(), entry.its_label(), group)? {
        let place = place_of(keyword_at(operands, b"GRPNAME"));
        return Err(refused_name(alloc, Why::NameTwice, group, place)?);
    }
    judge_end(alloc, section.its_area(), operands, entry)
}

fn judge_group(
    alloc: Global,
    section: &MapMacro,
    operands: &[Setting<'_>],
    entry: &FieldMacro,
) -> Result<(), SourceError>
    ensures { Gives (λ done. done) result
        (judge_group section.now operands.now entry.now entry.now.group) }
{
    match &entry.group {
        None => Ok(()),
        Some(group) => judge_named(alloc, section, operands, entry, group.as_slice()),
    }
}

/// Whether it goes on with a group, or begins one or stands alone.
fn judge_entry(
    alloc: Global,
    section: &MapMacro,
    statement: &Statement,
    operands: &[Setting<'_>],
    entry: &FieldMacro,
) -> Result<(), SourceError>
    ensures { Gives (λ done. done) result
        (judge_entry section.now statement.now operands.now entry.now) }
{
    if entry.is_later {
        return judge_later(alloc, section, statement, operands, entry);
    }
    judge_group(alloc, section, operands, entry)?;
    judge_all(alloc, section, statement, operands, entry)
}

/// What a DFHMDF tells.
fn entry_of(
    alloc: Global,
    section: &MapMacro,
    statement: &Statement,
    operands: &[Setting<'_>],
    label: Vec<u8>,
    text: Option<Vec<u8>>,
    length: u32,
    index: u32,
) -> Result<FieldMacro, AllocError>
    requires text { option_map (λ t. t.items) text ≡ initial_in operands.now }
    requires short { IfSome text (λ t. vec_len t ≤ length) }
    requires length { length ≤ 256 }
    requires index { index ≤ 65025 }
    ensures { IfOk result (λ entry. entry
        ≡ entry_of section.now statement.now operands.now label.items length index) }
{
    let group = group_in(alloc, operands)?;
    let is_later = goes_on(section.its_entries(), &group);
    let attribute = attribute_in(alloc, operands)?;
    let has_cursor = cursor_in(alloc, operands)?;
    let looks = looks_in(alloc, operands)?;
    Ok(FieldMacro {
        label,
        group,
        is_later,
        index,
        length,
        occurs: occurs_of(operands),
        text,
        attribute,
        has_cursor,
        looks: looks.or(section.its_looks()),
        line: line_of(statement),
    })
}

/// A field that is judged.
fn judged_entry(
    alloc: Global,
    section: &MapMacro,
    statement: &Statement,
    operands: &[Setting<'_>],
    entry: FieldMacro,
) -> Result<FieldMacro, SourceError>
    ensures { Gives (λ more. more) result
        (judged_entry section.now statement.now operands.now entry) }
{
    judge_entry(alloc, section, statement, operands, &entry)?;
    Ok(entry)
}

/// Its place in the map.
fn place_in(
    alloc: Global,
    section: &MapMacro,
    operands: &[Setting<'_>],
    length: u32,
) -> Result<u32, SourceError>
    requires { length ≤ 256 }
    ensures place { Gives (λ n. n) result
        (judged_place section.now.area operands.now length) }
    ensures few { IfOk result (λ n. n ≤ 65025) }
{
    judged_place(alloc, section.its_area(), operands, length)
}

/// The text of a field, if it isn't too long.
fn judged_text(
    alloc: Global,
    operands: &[Setting<'_>],
    length: u32,
) -> Result<Option<Vec<u8>>, SourceError>
    ensures text { IfOk result (λ text. option_map (λ t. t.items) text ≡ initial_in operands.now) }
    ensures judged { Gives (λ text. tt) result
        (judge_text operands.now (initial_in operands.now) length) }
    ensures short { IfOk result (λ text. IfSome text (λ t. vec_len t ≤ length)) }
{
    let text = initial_in(alloc, operands)?;
    judge_text(alloc, operands, &text, length)?;
    Ok(text)
}

/// Its name is short enough, and new.
fn judge_label(
    alloc: Global,
    section: &MapMacro,
    statement: &Statement,
    operands: &[Setting<'_>],
    label: &[u8],
) -> Result<(), SourceError>
    ensures { Gives (λ done. done) result
        (judge_name statement.now section.now.entries label.now
        (occurs_or (occurs_in operands.now))) }
{
    judge_name(
        alloc,
        statement,
        section.its_entries(),
        label,
        occurs_of(operands),
    )
}

/// The field of a DFHMDF of this length, behind the others of its map.
#[tactic(auto, unfolding(crate::specs::Fields::field_of))]
pub(crate) fn field_of(
    alloc: Global,
    section: &MapMacro,
    statement: &Statement,
    operands: &[Setting<'_>],
    length: u32,
) -> Result<FieldMacro, SourceError>
    requires { length ≤ 256 }
    ensures { Gives (λ entry. entry) result
        (field_of section.now statement.now operands.now length) }
{
    let label = field_label(alloc, statement, operands)?;
    judge_conflicts(alloc, statement, operands, length)?;
    let text = judged_text(alloc, operands, length)?;
    let index = place_in(alloc, section, operands, length)?;
    judge_label(alloc, section, statement, operands, &label)?;
    let entry = entry_of(
        alloc, section, statement, operands, label, text, length, index,
    )?;
    judged_entry(alloc, section, statement, operands, entry)
}
