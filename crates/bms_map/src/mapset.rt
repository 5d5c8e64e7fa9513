//! The maps of a source.

ghost use Rattle.std.specs.Prelude.{◌≡◌, ◌≤◌, ◌<◌, ◌^◌, ◌+◌, ◌++◌, [], ◌∷◌, Some, drop, map, IfOk, OnOk, length};
ghost use Rattle.std.specs.Option.{option_map};
ghost use Rattle.std.specs.List.{list_any};
ghost use Rattle.bms_source.specs.Results.{Gives};
ghost use Rattle.bms_source.specs.Seen.{seen};
ghost use Rattle.bms_source.specs.Rows.{lines_in};
ghost use Rattle.bms_map.specs.Maps.{Sheet, its_ground};
ghost use Rattle.bms_map.specs.Entries.{same};
ghost use Rattle.bms_map.specs.Lookup.{control_in};
ghost use Rattle.bms_map.specs.Fields.{field_of};
ghost use Rattle.bms_map.specs.Source.{source_from};
ghost use Rattle.bms_map.specs.Mapset.{nothing, is_inside, is_before, out_of_order, sheets_in, closed, or_number, begun, finished, with_kind, with_mapset, name_in, has_map, screen_for, ground_on, ground_of, section_of, with_map, with_told, with_length, with_found, with_field, with_operands, with_macro, is_after, whole, told_by, maps_of};

use crate::bits::Bits;
use crate::field::Looks;
use crate::fields::{field_length, label_place, line_of, missing, needed_label};
use crate::groups::field_of;
use crate::lookup::{control_in, kind_in, left_in, looks_in, pos_in, refused_at, size_in, top_in};
use crate::macros::{FieldMacro, MapMacro, same};
use crate::map::Map;
use crate::operands::{Setting, operands_of};
use crate::place::{Area, Extent};
use crate::refuse::refused_name;
use crate::screen::screen_for;
use crate::sheet::sheet_of;
use crate::values::Kind;
use bms_source::{
    Letter, Operation, Place, Read, SourceError, Statement, Why, lines_of, read_statement,
};
use std::alloc::{AllocError, Global};
use std::marker::Model;

/// How far the macros have come: before DFHMSD, in a mapset, or behind its end.
#[derive(Clone, Copy, PartialEq, Eq)]
pub(crate) enum Stage {
    Before,
    Inside,
    After,
}

/// What macros have told.
#[derive(Drop)]
struct Mapset {
    stage: Stage,
    control: Bits,
    looks: Looks,
    /// The maps before the last.
    done: Vec<Map>,
    last: Option<MapMacro>,
}

impl Model for Mapset {
    ghost use Rattle.bms_map.specs.Mapset.{Progress};

    ghost Value = { Progress };

    ghost view = { λ m. record { stage = m.stage; control = m.control.bits; looks = m.looks; done = m.done.items; last = m.last } };
}

impl Mapset {
    fn its_stage(&self) -> Stage
        ensures { result ≡ self.now.stage }
    {
        self.stage
    }
}

/// A macro out of its order.
fn out_of_order(alloc: Global, statement: &Statement) -> SourceError
    ensures { result ≡ SourceError.Refused (out_of_order statement.now) }
{
    SourceError::at(alloc, Why::OutOfOrder, statement.place)
}

/// Whether a mapset has begun, and not ended.
fn is_inside(stage: Stage) -> bool
    ensures { result ≡ is_inside stage }
{
    match stage {
        Stage::Before => false,
        Stage::Inside => true,
        Stage::After => false,
    }
}

fn is_before(stage: Stage) -> bool
    ensures { result ≡ is_before stage }
{
    match stage {
        Stage::Before => true,
        Stage::Inside => false,
        Stage::After => false,
    }
}

fn is_after(stage: Stage) -> bool
    ensures { result ≡ is_after stage }
{
    match stage {
        Stage::Before => false,
        Stage::Inside => false,
        Stage::After => true,
    }
}

/// The bits of CTRL, or else others.
fn control_or(alloc: Global, operands: &[Setting<'_>], other: Bits) -> Result<Bits, AllocError>
    ensures { IfOk result (λ bits. bits.bits ≡ or_number (control_in operands.now) other.bits) }
{
    match control_in(alloc, operands)? {
        None => Ok(other),
        Some(bits) => Ok(bits),
    }
}

/// Adds the map of the last section.
fn push_last(alloc: Global, done: &mut Vec<Map>, last: Option<MapMacro>) -> Result<(), AllocError>
    ensures { OnOk result (done.new.items ≡ done.old.items ++ sheets_in last) }
{
    match last {
        None => Ok(()),
        Some(section) => {
            let map = sheet_of(alloc, section)?;
            done.push(map)?;
            Ok(())
        }
    }
}

/// No field comes to the last map any more.
fn closed(alloc: Global, mapset: Mapset) -> Result<Mapset, AllocError>
    ensures { IfOk result (λ more. more ≡ closed mapset) }
{
    let mut done = mapset.done;
    push_last(alloc, &mut done, mapset.last)?;
    Ok(Mapset {
        stage: mapset.stage,
        control: mapset.control,
        looks: mapset.looks,
        done,
        last: None,
    })
}

/// The mapset begins.
#[tactic(auto, unfolding(crate::specs::Mapset::begun))]
fn begun(
    alloc: Global,
    mapset: Mapset,
    statement: &Statement,
    operands: &[Setting<'_>],
) -> Result<Mapset, SourceError>
    ensures { Gives (λ more. more) result (begun mapset statement.now operands.now) }
{
    if !is_before(mapset.its_stage()) {
        return Err(out_of_order(alloc, statement));
    }
    let _name = needed_label(alloc, statement, 7)?;
    let control = control_or(alloc, operands, mapset.control)?;
    let looks = looks_in(alloc, operands)?;
    Ok(Mapset {
        stage: Stage::Inside,
        control,
        looks,
        done: mapset.done,
        last: mapset.last,
    })
}

fn with_stage(mapset: Mapset, stage: Stage) -> Mapset
    ensures { result ≡ record mapset { stage = stage } }
{
    Mapset {
        stage,
        control: mapset.control,
        looks: mapset.looks,
        done: mapset.done,
        last: mapset.last,
    }
}

/// The mapset ends.
fn finished(alloc: Global, mapset: Mapset, statement: &Statement) -> Result<Mapset, SourceError>
    ensures { Gives (λ more. more) result (finished mapset statement.now) }
{
    if !is_inside(mapset.its_stage()) {
        return Err(out_of_order(alloc, statement));
    }
    let more = closed(alloc, mapset)?;
    Ok(with_stage(more, Stage::After))
}

fn with_mapset(
    alloc: Global,
    mapset: Mapset,
    statement: &Statement,
    operands: &[Setting<'_>],
) -> Result<Mapset, SourceError>
    ensures { Gives (λ more. more) result (with_mapset mapset statement.now operands.now) }
{
    match kind_in(operands) {
        None => Err(missing(alloc, b"TYPE", statement)?),
        Some(Kind::Begin) => begun(alloc, mapset, statement, operands),
        Some(Kind::Final) => finished(alloc, mapset, statement),
    }
}

/// Whether a map before the last has a name.
fn is_done(maps: &[Map], name: &[u8]) -> bool
    ensures { result ≡ list_any (λ (sheet : Sheet). same name.now sheet.name) maps.now }
{
    let mut rest = maps;
    while let [map, others @ ..] = rest {
        if same(name, map.name.as_slice()) {
            return true;
        }
        rest = others;
    }
    false
}

fn is_last(last: &Option<MapMacro>, name: &[u8]) -> bool
    ensures { result ≡ list_any (same name.now) (name_in last.now) }
{
    match last {
        None => false,
        Some(section) => same(name, section.name.as_slice()),
    }
}

fn has_map(mapset: &Mapset, name: &[u8]) -> bool
    ensures { result ≡ has_map mapset.now name.now }
{
    is_done(mapset.done.as_slice(), name) || is_last(&mapset.last, name)
}

/// Where a map lies.
fn area_of(top: u8, left: u8, extent: Extent) -> Option<Area>
    ensures { option_map its_ground result
        ≡ ground_on top left (extent.lines, extent.columns)
        (screen_for (top + extent.lines) (left + extent.columns)) }
{
    let lines = u32::from(top) + u32::from(extent.lines);
    let columns = u32::from(left) + u32::from(extent.columns);
    match screen_for(lines, columns) {
        None => None,
        Some(screen) => Some(Area {
            screen,
            top,
            left,
            extent,
        }),
    }
}

/// A DFHMDI, so far without fields.
fn section_of(
    alloc: Global,
    mapset: &Mapset,
    statement: &Statement,
    operands: &[Setting<'_>],
    name: Vec<u8>,
    area: Area,
) -> Result<MapMacro, AllocError>
    ensures { IfOk result (λ section. section
        ≡ section_of mapset.now statement.now operands.now name.items (its_ground area)) }
{
    let control = control_or(alloc, operands, mapset.control)?;
    let looks = looks_in(alloc, operands)?;
    Ok(MapMacro {
        name,
        line: line_of(statement),
        area,
        control,
        looks: looks.or(mapset.looks),
        entries: Vec::new(alloc),
    })
}

fn with_last(mapset: Mapset, section: MapMacro) -> Mapset
    ensures { result ≡ record mapset { last = Some section } }
{
    Mapset {
        stage: mapset.stage,
        control: mapset.control,
        looks: mapset.looks,
        done: mapset.done,
        last: Some(section),
    }
}

#[tactic(auto, unfolding(crate::specs::Mapset::with_map))]
fn with_map(
    alloc: Global,
    mapset: Mapset,
    statement: &Statement,
    operands: &[Setting<'_>],
) -> Result<Mapset, SourceError>
    ensures { Gives (λ more. more) result (with_map mapset statement.now operands.now) }
{
    let Some(extent) = size_in(operands) else {
        return Err(missing(alloc, b"SIZE", statement)?);
    };
    if !is_inside(mapset.its_stage()) {
        return Err(out_of_order(alloc, statement));
    }
    let name = needed_label(alloc, statement, 7)?;
    if has_map(&mapset, &name) {
        return Err(refused_name(alloc, Why::NameTwice, &name, label_place(statement))?);
    }
    let Some(area) = area_of(top_in(operands), left_in(operands), extent) else {
        return Err(refused_at(alloc, Why::NoScreen, operands, b"SIZE")?);
    };
    let section = section_of(alloc, &mapset, statement, operands, name, area)?;
    let more = closed(alloc, mapset)?;
    Ok(with_last(more, section))
}

/// A map with one more field.
fn with_entry(section: MapMacro, entry: FieldMacro) -> Result<MapMacro, AllocError>
    ensures { IfOk result (λ more. more
        ≡ record section { entries = section.entries ++ entry ∷ [] }) }
{
    let mut entries = section.entries;
    entries.push(entry)?;
    Ok(MapMacro {
        name: section.name,
        line: section.line,
        area: section.area,
        control: section.control,
        looks: section.looks,
        entries,
    })
}

/// A map with the field of a DFHMDF of this length.
fn with_told(
    alloc: Global,
    section: MapMacro,
    statement: &Statement,
    operands: &[Setting<'_>],
    length: u32,
) -> Result<MapMacro, SourceError>
    requires { length ≤ 256 }
    ensures { Gives (λ more. more) result
        (with_told section (field_of section statement.now operands.now length)) }
{
    let entry = field_of(alloc, &section, statement, operands, length)?;
    Ok(with_entry(section, entry)?)
}

/// A mapset whose last map has a field of this length.
fn with_length(
    alloc: Global,
    mapset: Mapset,
    statement: &Statement,
    operands: &[Setting<'_>],
    length: u32,
) -> Result<Mapset, SourceError>
    requires { length ≤ 256 }
    ensures { Gives (λ more. more) result
        (with_length mapset statement.now operands.now length) }
{
    let Mapset {
        stage,
        control,
        looks,
        done,
        last,
    } = mapset;
    match last {
        None => Err(out_of_order(alloc, statement)),
        Some(section) => {
            let more = with_told(alloc, section, statement, operands, length)?;
            Ok(Mapset {
                stage,
                control,
                looks,
                done,
                last: Some(more),
            })
        }
    }
}

#[tactic(auto, unfolding(crate::specs::Mapset::with_field))]
fn with_field(
    alloc: Global,
    mapset: Mapset,
    statement: &Statement,
    operands: &[Setting<'_>],
) -> Result<Mapset, SourceError>
    ensures { Gives (λ more. more) result (with_field mapset statement.now operands.now) }
{
    match pos_in(operands) {
        None => Err(missing(alloc, b"POS", statement)?),
        Some(_pos) => {
            let length = field_length(alloc, statement, operands)?;
            with_length(alloc, mapset, statement, operands, length)
        }
    }
}

fn with_operands(
    alloc: Global,
    operation: Operation,
    mapset: Mapset,
    statement: &Statement,
    operands: &[Setting<'_>],
) -> Result<Mapset, SourceError>
    ensures { Gives (λ more. more) result
        (with_operands operation mapset statement.now operands.now) }
{
    match operation {
        Operation::Mapset => with_mapset(alloc, mapset, statement, operands),
        Operation::Map => with_map(alloc, mapset, statement, operands),
        Operation::Field => with_field(alloc, mapset, statement, operands),
        Operation::Passed => with_field(alloc, mapset, statement, operands),
        Operation::End => with_field(alloc, mapset, statement, operands),
    }
}

/// The operands of a macro.
fn operands_in(statement: &Statement) -> &[Letter]
    ensures { result.now ≡ statement.now.operands }
{
    statement.operands.as_slice()
}

fn operation_of(statement: &Statement) -> Operation
    ensures { result ≡ statement.now.operation }
{
    statement.operation
}

/// What is told with one more macro.
#[tactic(auto, unfolding(crate::specs::Mapset::with_macro))]
fn with_macro(alloc: Global, mapset: Mapset, statement: &Statement) -> Result<Mapset, SourceError>
    ensures { Gives (λ more. more) result (with_macro mapset statement.now) }
{
    let operation = operation_of(statement);
    let operands = operands_of(alloc, operation, operands_in(statement))?;
    with_operands(alloc, operation, mapset, statement, &operands)
}

/// What is told with what stands at the front of lines; and the place of END, where it is that.
fn with_read(
    alloc: Global,
    mapset: Mapset,
    read: Read,
) -> Result<(Mapset, Option<Place>), SourceError>
    ensures { Gives (λ more. more) result (with_found mapset (seen read)) }
{
    match read {
        Read::Passed => Ok((mapset, None)),
        Read::End(place) => Ok((mapset, Some(place))),
        Read::Macro(statement) => {
            let more = with_macro(alloc, mapset, &statement)?;
            Ok((more, None))
        }
    }
}

/// The maps, once the source has ended at this place.
fn whole(alloc: Global, mapset: Mapset, place: Place) -> Result<Vec<Map>, SourceError>
    ensures { Gives (λ maps. maps.items) result (whole mapset place) }
{
    if is_after(mapset.its_stage()) {
        Ok(mapset.done)
    } else {
        Err(SourceError::at(alloc, Why::NoFinal, place))
    }
}

/// Nothing is told so far.
fn nothing(alloc: Global) -> Mapset
    ensures { result ≡ nothing }
{
    Mapset {
        stage: Stage::Before,
        control: Bits { bits: 0 },
        looks: Looks {
            highlight: None,
            color: None,
            validation: None,
            outline: None,
        },
        done: Vec::new(alloc),
        last: None,
    }
}

/// The lines behind so many.
fn behind<'a, 'b>(lines: &'b [&'a [u8]], count: usize) -> &'b [&'a [u8]]
    requires { count ≤ length lines.now }
    ensures lines { map (λ line. line.now) result.now
        ≡ drop count (map (λ line. line.now) lines.now) }
    ensures count { length result.now + count ≡ length lines.now }
{
    lines.split_at(count).1
}

/// The maps of lines.
fn maps_in(alloc: Global, lines: &[&[u8]]) -> Result<Vec<Map>, SourceError>
    requires { length lines.now < 2 ^ 62 }
    ensures { Gives (λ maps. maps.items) result
        (told_by nothing (source_from 0 1 (map (λ line. line.now) lines.now))) }
{
    let mut mapset = nothing(alloc);
    let mut number = 1usize;
    let mut rest = lines;
    while !rest.is_empty() {
        let (read, count) = read_statement(alloc, number, rest)?;
        let (more, end) = with_read(alloc, mapset, read)?;
        if let Some(place) = end {
            return whole(alloc, more, place);
        }
        mapset = more;
        rest = behind(rest, count);
        number += count;
    }
    whole(
        alloc,
        mapset,
        Place {
            line: number,
            column: 1,
        },
    )
}

/// The maps of a source, in its order, with the fields of each in the order of their positions.
///
/// # Errors
///
/// The first refusal; out of memory.
pub fn read_maps(alloc: Global, text: &[u8]) -> Result<Vec<Map>, SourceError>
    requires { length text.now < 2 ^ 62 }
    ensures { Gives (λ maps. maps.items) result (maps_of text.now) }
{
    let lines = lines_of(alloc, text)?;
    maps_in(alloc, lines.as_slice())
}
