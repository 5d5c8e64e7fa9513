//! The commands `show --map` and `draft --map`.

ghost use Rattle.std.specs.Prelude.{◌≡◌, ◌≤◌, ◌+◌, ◌++◌, Result as AResult, List, IfOk, IfSome, length};
ghost use Rattle.std.specs.String.{string_bytes};
ghost use Rattle.bms_source.specs.Results.{Gives as GivesMaps};
ghost use Rattle.bms_source.specs.Told.{Told};
ghost use Rattle.bms_map.specs.Maps.{Sheet};
ghost use Rattle.bms_map.specs.LayoutText.{layout_text};
ghost use Rattle.cli_commands.specs.Causes.{EndsBy, ToldBy};
ghost use Rattle.cli_commands.specs.Fault.{Gives, GivesOrFails};
ghost use Rattle.cli_commands.specs.Held.{answer_seen};
ghost use Rattle.cli_commands.specs.Streams.{Prints};
ghost use Rattle.cli_pictures.specs.Annotated.{annotated};
ghost use Rattle.cli_maps.specs.Printed.{one_rendered, printed_rendered, render_source, render_told, rendered, sized_record};
ghost use Rattle.cli_maps.specs.Asked.{name_in};
ghost use Rattle.cli_maps.specs.Refused.{or_refused};
ghost use Rattle.cli_maps.specs.Told.{record_line};

use crate::asked::{Asked, Rendering};
use crate::each::push_record;
use crate::judged::record_due;
use crate::refusal::refused;
use crate::told::{maps_asked, without_place};
use bms_map::{Control, Map, layout_text};
use bms_source::{SourceError, Why};
use cli_commands::{
    Answer, CommandError, GivesBytes, Status, TakesBytes, finish, read_text, show_text,
    within_limit,
};
use cli_drafts::draft_text;
use cli_pictures::{Annotated, Drawing, annotated_text, picture_text};
use std::alloc::{AllocError, Global};

/// The line of the sizes, and the record.
fn sized_record(alloc: Global, map: &Map, bytes: &[u8]) -> Result<String, AllocError>
    ensures { IfOk result (λ text. string_bytes text ≡ sized_record map.now bytes.now) }
{
    let rows = map.area.screen.rows;
    let cols = map.area.screen.cols;
    let mut text = format!(in alloc; "size 24x80 {rows}x{cols}\n")?;
    push_record(&mut text, bytes)?;
    Ok(text)
}

fn record_line(alloc: Global, bytes: &[u8]) -> Result<String, AllocError>
    ensures { IfOk result (λ text. string_bytes text ≡ record_line bytes.now) }
{
    let mut text = String::new(alloc);
    push_record(&mut text, bytes)?;
    Ok(text)
}

/// The drawing of a record, with the names of the map's layout.
fn annotated(
    alloc: Global,
    form: Annotated,
    map: &Map,
    bytes: &[u8],
) -> Result<Answer, CommandError>
    ensures { Gives answer_seen result
        (annotated form (layout_text map.now) (record_line bytes.now)) }
{
    let layout = layout_text(alloc, map)?;
    let record = record_line(alloc, bytes)?;
    annotated_text(alloc, form, layout.as_bytes(), record.as_bytes())
}

fn pictured(alloc: Global, map: &Map, bytes: &[u8]) -> Result<Answer, CommandError>
    ensures { Gives answer_seen result (rendered Rendering.Json map.now bytes.now) }
{
    let text = sized_record(alloc, map, bytes)?;
    picture_text(alloc, Drawing::Json, text.as_bytes())
}

fn seen(alloc: Global, map: &Map, bytes: &[u8]) -> Result<Answer, CommandError>
    ensures { Gives answer_seen result (rendered Rendering.Rows map.now bytes.now) }
{
    let text = sized_record(alloc, map, bytes)?;
    picture_text(alloc, Drawing::Rows, text.as_bytes())
}

fn shown(alloc: Global, map: &Map, bytes: &[u8]) -> Result<Answer, CommandError>
    ensures { Gives answer_seen result (rendered Rendering.Text map.now bytes.now) }
{
    let text = sized_record(alloc, map, bytes)?;
    show_text(alloc, text.as_bytes())
}

fn drafted(alloc: Global, map: &Map, bytes: &[u8]) -> Result<Answer, CommandError>
    ensures { Gives answer_seen result (rendered Rendering.Draft map.now bytes.now) }
{
    let text = sized_record(alloc, map, bytes)?;
    draft_text(alloc, text.as_bytes())
}

/// What is made of the screen of a map's record.
fn rendered(
    alloc: Global,
    rendering: Rendering,
    map: &Map,
    bytes: &[u8],
) -> Result<Answer, CommandError>
    ensures { Gives answer_seen result (rendered rendering map.now bytes.now) }
{
    match rendering {
        Rendering::Text => shown(alloc, map, bytes),
        Rendering::Json => pictured(alloc, map, bytes),
        Rendering::Rows => seen(alloc, map, bytes),
        Rendering::Svg => annotated(alloc, Annotated::Svg, map, bytes),
        Rendering::Html => annotated(alloc, Annotated::Html, map, bytes),
        Rendering::Draft => drafted(alloc, map, bytes),
    }
}

/// That of the one map.
fn one_rendered(
    alloc: Global,
    rendering: Rendering,
    control: Control,
    maps: &[Map],
) -> Result<Answer, CommandError>
    ensures { Gives answer_seen result (one_rendered rendering control maps.now) }
{
    match maps {
        [map] => {
            let bytes = record_due(alloc, map, control)?;
            rendered(alloc, rendering, map, bytes.as_slice())
        }
        _ => Ok(refused(alloc, &without_place(alloc, Why::SeveralMaps))?),
    }
}

/// What is printed of the maps that are asked for.
fn rendered_or_refused(
    alloc: Global,
    rendering: Rendering,
    control: Control,
    maps: Result<Vec<Map>, SourceError>,
) -> Result<Answer, CommandError>
    ensures { (due : AResult (List Sheet) Told) → GivesMaps (λ maps. maps.items) maps due
        → Gives answer_seen result (or_refused (one_rendered rendering control) due) }
{
    match maps {
        Ok(maps) => one_rendered(alloc, rendering, control, maps.as_slice()),
        Err(SourceError::Refused(refusal)) => Ok(refused(alloc, &refusal)?),
        Err(SourceError::OutOfMemory) => Err(CommandError::OutOfMemory),
    }
}

fn render_within(
    alloc: Global,
    rendering: Rendering,
    asked: Asked<'_>,
    source: &[u8],
) -> Result<Answer, CommandError>
    requires { length source.now ≤ 16777216 }
    ensures { Gives answer_seen result
        (render_told rendering (name_in asked.entry.name) asked.entry.control source.now) }
{
    let maps = maps_asked(alloc, source, asked.name);
    rendered_or_refused(alloc, rendering, asked.control, maps)
}

/// What `show --map` and `draft --map` answer to a source.
///
/// # Errors
///
/// An input that is too long; out of memory. A refusal is an answer of status `BadInput`.
pub fn render_map_text(
    alloc: Global,
    rendering: Rendering,
    source: &[u8],
    asked: Asked<'_>,
) -> Result<Answer, CommandError>
    ensures { Gives answer_seen result
        (render_source rendering (name_in asked.entry.name) asked.entry.control source.now) }
{
    match within_limit(source) {
        Ok(source) => render_within(alloc, rendering, asked, source),
        Err(error) => Err(error),
    }
}

fn render_read<R: GivesBytes>(
    alloc: Global,
    rendering: Rendering,
    reader: &mut R,
    asked: Asked<'_>,
) -> Result<Answer, CommandError>
    ensures answer { IfSome (R.remaining reader.old) (λ input. GivesOrFails answer_seen result
        (render_source rendering (name_in asked.entry.name) asked.entry.control input)) }
    ensures cause { ToldBy (R.failures reader.old) (R.failures reader.new) result }
{
    match read_text(alloc, reader) {
        Ok(source) => render_map_text(alloc, rendering, source.as_slice(), asked),
        Err(error) => Err(error),
    }
}

/// Reads the source of BMS maps, and prints what is made of the screen of the one map's record: its text, a drawing with the names
/// of its fields, or a layout that is drafted; or the first refusal, with the status `BadInput`. The other statuses are those
/// of `run_map`.
pub fn run_render_map<R: GivesBytes, W: TakesBytes>(
    alloc: Global,
    rendering: Rendering,
    reader: &mut R,
    writer: &mut W,
    asked: Asked<'_>,
) -> Status
    ensures prints { IfSome (R.remaining reader.old) (λ input.
        Prints (W.contents writer.old) (W.contents writer.new) result
        (printed_rendered rendering (name_in asked.entry.name) asked.entry.control input)) }
    ensures cause { IfSome (R.remaining reader.old) (λ input.
        EndsBy (R.failures reader.old + W.failures writer.old)
        (R.failures reader.new + W.failures writer.new)
        (printed_rendered rendering (name_in asked.entry.name) asked.entry.control input).status
        result) }
{
    let answer = render_read(alloc, rendering, reader, asked);
    finish(alloc, writer, answer)
}
