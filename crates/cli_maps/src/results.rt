//! The command `check --map`, as results of a log of SARIF.

ghost use Rattle.std.specs.Prelude.{◌≡◌, ◌≤◌, Result as AResult, List, [], ◌∷◌, IfOk, length};
ghost use Rattle.bms_source.specs.Results.{Gives as GivesMaps};
ghost use Rattle.bms_source.specs.Rows.{lines_in};
ghost use Rattle.bms_source.specs.Told.{Told};
ghost use Rattle.bms_map.specs.Maps.{Sheet};
ghost use Rattle.cli_commands.specs.Fault.{Gives};
ghost use Rattle.cli_findings.specs.Results.{results_seen};
ghost use Rattle.cli_maps.specs.Asked.{name_in};
ghost use Rattle.cli_maps.specs.Refused.{refusal_words};
ghost use Rattle.cli_maps.specs.Results.{map_results, or_refused_results, results_told};
ghost use Rattle.cli_maps.specs.Sarif.{refused_result};
ghost use Rattle.cli_maps.specs.Source.{refusal_region};
ghost use Rattle.cli_maps.specs.Told.{all_results};

use crate::asked::Asked;
use crate::each::all_results;
use crate::refusal::refusal_words;
use crate::rules::MapRule;
use crate::source::refusal_region;
use crate::told::maps_asked;
use bms_map::{Control, Map};
use bms_source::{Refusal, SourceError, lines_of};
use cli_commands::{CommandError, within_limit};
use cli_findings::{Results, one_result};
use std::alloc::{AllocError, Global};

/// The results of maps.
fn found_results(
    alloc: Global,
    path: &str,
    control: Control,
    source: &[u8],
    maps: &[Map],
) -> Result<Results, CommandError>
    ensures { Gives results_seen result
        (all_results path.now (lines_in source.now) control maps.now) }
{
    let lines = lines_of(alloc, source)?;
    let values = all_results(alloc, path, lines.as_slice(), maps, control)?;
    Ok(Results::of(values))
}

/// The one result of a source that is refused.
fn refused_results(alloc: Global, path: &str, refusal: &Refusal) -> Result<Results, AllocError>
    ensures { IfOk result (λ results. results_seen results ≡ refused_result path.now
        (refusal_region refusal.now.place) (refusal_words refusal.now) ∷ []) }
{
    let rule = MapRule::Refused;
    let words = refusal_words(alloc, refusal)?;
    let region = refusal_region(refusal.place);
    let index = rule.index_among();
    one_result(alloc, rule.id(), index, path, region, words.as_str())
}

/// The results of the maps that are asked for.
fn results_or_refused(
    alloc: Global,
    path: &str,
    control: Control,
    source: &[u8],
    maps: Result<Vec<Map>, SourceError>,
) -> Result<Results, CommandError>
    ensures { (due : AResult (List Sheet) Told) → GivesMaps (λ maps. maps.items) maps due
        → Gives results_seen result (or_refused_results path.now
        (all_results path.now (lines_in source.now) control) due) }
{
    match maps {
        Ok(maps) => found_results(alloc, path, control, source, maps.as_slice()),
        Err(SourceError::Refused(refusal)) => Ok(refused_results(alloc, path, &refusal)?),
        Err(SourceError::OutOfMemory) => Err(CommandError::OutOfMemory),
    }
}

fn results_within(
    alloc: Global,
    path: &str,
    source: &[u8],
    asked: Asked<'_>,
) -> Result<Results, CommandError>
    requires { length source.now ≤ 16777216 }
    ensures { Gives results_seen result (results_told path.now
        (name_in asked.entry.name) asked.entry.control source.now) }
{
    let maps = maps_asked(alloc, source, asked.name);
    results_or_refused(alloc, path, asked.control, source, maps)
}

/// What `check --map` finds of a source as results of a log of SARIF 2.1.0: one for each finding, at its macro in the file of this
/// path, or one that says where the source is refused.
///
/// # Errors
///
/// An input that is too long, a record or a layout of a map that is refused; out of memory.
pub fn map_results(
    alloc: Global,
    path: &str,
    source: &[u8],
    asked: Asked<'_>,
) -> Result<Results, CommandError>
    ensures { Gives results_seen result (map_results path.now
        (name_in asked.entry.name) asked.entry.control source.now) }
{
    match within_limit(source) {
        Ok(source) => results_within(alloc, path, source, asked),
        Err(error) => Err(error),
    }
}
