//! The command `map`.

ghost use Rattle.std.specs.Prelude.{◌≡◌, ◌≤◌, ◌+◌, Result as AResult, List, IfSome, length};
ghost use Rattle.bms_source.specs.Results.{Gives as GivesMaps};
ghost use Rattle.bms_source.specs.Told.{Told};
ghost use Rattle.bms_map.specs.Maps.{Sheet};
ghost use Rattle.cli_commands.specs.Causes.{EndsBy, ToldBy};
ghost use Rattle.cli_commands.specs.Fault.{Gives, GivesOrFails};
ghost use Rattle.cli_commands.specs.Held.{answer_seen};
ghost use Rattle.cli_commands.specs.Streams.{Prints};
ghost use Rattle.cli_maps.specs.Asked.{name_in};
ghost use Rattle.cli_maps.specs.Printed.{layout_told, map_source, map_told, mapped, printed_map};
ghost use Rattle.cli_maps.specs.Refused.{or_refused};

use crate::asked::{Asked, Form};
use crate::each::{MapForm, all_told};
use crate::refusal::refused;
use crate::told::{maps_asked, without_place};
use bms_map::{Control, Map, layout_text};
use bms_source::{SourceError, Why};
use cli_commands::{
    Answer, CommandError, GivesBytes, Status, TakesBytes, finish, read_text, within_limit,
};
use std::alloc::{AllocError, Global};

/// The layout of the one map.
fn layout_told(alloc: Global, maps: &[Map]) -> Result<Answer, CommandError>
    ensures { Gives answer_seen result (layout_told maps.now) }
{
    match maps {
        [map] => Ok(Answer {
            text: layout_text(alloc, map)?,
            status: Status::Done,
        }),
        _ => Ok(refused(alloc, &without_place(alloc, Why::SeveralMaps))?),
    }
}

fn mapped(alloc: Global, form: Form, control: Control, maps: &[Map]) -> Result<Answer, CommandError>
    ensures { Gives answer_seen result (mapped form control maps.now) }
{
    match form {
        Form::Records => all_told(alloc, MapForm::Record, maps, control),
        Form::Layout => layout_told(alloc, maps),
    }
}

/// What is printed of the maps that are asked for.
fn mapped_or_refused(
    alloc: Global,
    form: Form,
    control: Control,
    maps: Result<Vec<Map>, SourceError>,
) -> Result<Answer, CommandError>
    ensures { (due : AResult (List Sheet) Told) → GivesMaps (λ maps. maps.items) maps due
        → Gives answer_seen result (or_refused (mapped form control) due) }
{
    match maps {
        Ok(maps) => mapped(alloc, form, control, maps.as_slice()),
        Err(SourceError::Refused(refusal)) => Ok(refused(alloc, &refusal)?),
        Err(SourceError::OutOfMemory) => Err(CommandError::OutOfMemory),
    }
}

fn map_within(
    alloc: Global,
    form: Form,
    asked: Asked<'_>,
    source: &[u8],
) -> Result<Answer, CommandError>
    requires { length source.now ≤ 16777216 }
    ensures { Gives answer_seen result
        (map_told form (name_in asked.entry.name) asked.entry.control source.now) }
{
    let maps = maps_asked(alloc, source, asked.name);
    mapped_or_refused(alloc, form, asked.control, maps)
}

/// What `map` answers to a source.
///
/// # Errors
///
/// An input that is too long; out of memory. A refusal is an answer of status `BadInput`.
pub fn map_text(
    alloc: Global,
    source: &[u8],
    asked: Asked<'_>,
    form: Form,
) -> Result<Answer, CommandError>
    ensures { Gives answer_seen result
        (map_source form (name_in asked.entry.name) asked.entry.control source.now) }
{
    match within_limit(source) {
        Ok(source) => map_within(alloc, form, asked, source),
        Err(error) => Err(error),
    }
}

fn map_read<R: GivesBytes>(
    alloc: Global,
    reader: &mut R,
    asked: Asked<'_>,
    form: Form,
) -> Result<Answer, CommandError>
    ensures answer { IfSome (R.remaining reader.old) (λ input. GivesOrFails answer_seen result
        (map_source form (name_in asked.entry.name) asked.entry.control input)) }
    ensures cause { ToldBy (R.failures reader.old) (R.failures reader.new) result }
{
    match read_text(alloc, reader) {
        Ok(source) => map_text(alloc, source.as_slice(), asked, form),
        Err(error) => Err(error),
    }
}

/// Reads the source of BMS maps, and prints for each map a comment with its name, its line and its screen, and its record in
/// hexadecimal; or the layout of the one map; or the first refusal, with the status `BadInput`. At most 16,777,216 bytes.
/// After a read or a write that failed the status is `Failed`, where memory was refused `NoMemory`, and a front of the text
/// was written.
pub fn run_map<R: GivesBytes, W: TakesBytes>(
    alloc: Global,
    reader: &mut R,
    writer: &mut W,
    asked: Asked<'_>,
    form: Form,
) -> Status
    ensures prints { IfSome (R.remaining reader.old) (λ input.
        Prints (W.contents writer.old) (W.contents writer.new) result
        (printed_map form (name_in asked.entry.name) asked.entry.control input)) }
    ensures cause { IfSome (R.remaining reader.old) (λ input.
        EndsBy (R.failures reader.old + W.failures writer.old)
        (R.failures reader.new + W.failures writer.new)
        (printed_map form (name_in asked.entry.name) asked.entry.control input).status result) }
{
    let answer = map_read(alloc, reader, asked, form);
    finish(alloc, writer, answer)
}
