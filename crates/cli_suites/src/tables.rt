//! The tables of a manifest, each by itself.

ghost use Rattle.std.specs.Prelude.{◌≡◌, ◌≤◌, ◌++◌, [], ◌∷◌, IfOk, map, length, string_bytes, option_map};
ghost use Rattle.toml.specs.View.{view, table_view, items_view};
ghost use Rattle.manifest_tables.specs.Results.{Tells};
ghost use Rattle.manifest_tables.specs.Tables.{tables_in};
ghost use Rattle.cli_suites.specs.Results.{Gives};
ghost use Rattle.cli_suites.specs.Tables.{accepted_of, accepted_keys, dialogue_keys, dialogue_of, job_of, key_of, list_of, map_keys, map_of, screen_keys, screen_of, tables_at, tables_of, texts_of, with_text};
ghost use Rattle.cli_suites.specs.Values.{with_only};

use crate::fault::{ManifestError, ManifestFault, ManifestKey, Why};
use crate::job::{Accepted, Job, Kind};
use crate::values::needed_text;
use manifest_tables::{are_tables, needed_at, text_of, value_at, with_only};
use std::alloc::{AllocError, Global};
use toml::{Table, Value};

/// A kind of table that names something to check.
#[derive(Clone, Copy, Debug, PartialEq, Eq)]
pub(crate) enum JobTable {
    Screen,
    Dialogue,
    Map,
}

impl JobTable {
    /// The key of these tables.
    pub(crate) fn key(self) -> ManifestKey
        ensures { result ≡ key_of self }
    {
        match self {
            JobTable::Screen => ManifestKey::Screen,
            JobTable::Dialogue => ManifestKey::Dialogue,
            JobTable::Map => ManifestKey::Map,
        }
    }
}

const SCREEN_KEYS: [ManifestKey; 3] = [
    ManifestKey::Name,
    ManifestKey::Records,
    ManifestKey::Layout,
];

const DIALOGUE_KEYS: [ManifestKey; 3] = [
    ManifestKey::Name,
    ManifestKey::Records,
    ManifestKey::Layouts,
];

const MAP_KEYS: [ManifestKey; 2] = [ManifestKey::Name, ManifestKey::Source];

const ACCEPTED_KEYS: [ManifestKey; 3] = [
    ManifestKey::Screen,
    ManifestKey::Finding,
    ManifestKey::Reason,
];

/// One path.
pub(crate) fn single(alloc: Global, path: String) -> Result<Vec<String>, AllocError>
    ensures { IfOk result
        (λ paths. map string_bytes paths.items ≡ string_bytes path ∷ []) }
{
    let mut paths = Vec::new(alloc);
    paths.push(path)?;
    Ok(paths)
}

/// A table `screen`.
#[tactic(auto, unfolding(crate::specs::Tables::screen_of))]
fn screen_of(alloc: Global, table: &Table) -> Result<Job, ManifestError>
    ensures { Gives (λ job. job) result (screen_of (table_view table.now)) }
{
    let own = with_only(&SCREEN_KEYS, table)?;
    let name = needed_text(alloc, ManifestKey::Name, own)?;
    let records = needed_text(alloc, ManifestKey::Records, own)?;
    let layout = needed_text(alloc, ManifestKey::Layout, own)?;
    Ok(Job {
        kind: Kind::Screen,
        name,
        records,
        layouts: single(alloc, layout)?,
    })
}

/// The texts before, and behind them the one that a value is.
fn with_text(
    alloc: Global,
    key: ManifestKey,
    before: Vec<String>,
    value: &Value,
) -> Result<Vec<String>, ManifestError>
    ensures { Gives (λ texts. map string_bytes texts.items) result
        (with_text key (map string_bytes before.items) (view value.now)) }
{
    let text = text_of(key, value)?;
    let mut texts = before;
    texts.push(String::from_str(alloc, text)?)?;
    Ok(texts)
}

/// The texts that values are.
fn texts_of(alloc: Global, key: ManifestKey, values: &[Value]) -> Result<Vec<String>, ManifestError>
    ensures { Gives (λ texts. map string_bytes texts.items) result
        (texts_of key [] (items_view values.now)) }
{
    let mut texts = Vec::new(alloc);
    for value in values {
        texts = with_text(alloc, key, texts, value)?;
    }
    Ok(texts)
}

/// The list of 1 to 10,000 texts that a value is.
#[tactic(auto, unfolding(crate::specs::Tables::list_of))]
fn list_of(alloc: Global, key: ManifestKey, value: &Value) -> Result<Vec<String>, ManifestError>
    ensures { Gives (λ texts. map string_bytes texts.items) result (list_of key (view value.now)) }
{
    let Some(values) = value.as_array() else {
        return Err(ManifestError::Refused(ManifestFault::at_key(key, Why::WrongKind)));
    };
    let texts = texts_of(alloc, key, values)?;
    if texts.is_empty() || texts.len() > 10_000 {
        return Err(ManifestError::Refused(ManifestFault::at_key(key, Why::BadCount)));
    }
    Ok(texts)
}

/// A table `dialogue`.
#[tactic(auto, unfolding(crate::specs::Tables::dialogue_of))]
fn dialogue_of(alloc: Global, table: &Table) -> Result<Job, ManifestError>
    ensures { Gives (λ job. job) result (dialogue_of (table_view table.now)) }
{
    let own = with_only(&DIALOGUE_KEYS, table)?;
    let name = needed_text(alloc, ManifestKey::Name, own)?;
    let records = needed_text(alloc, ManifestKey::Records, own)?;
    let value = needed_at(ManifestKey::Layouts, own)?;
    let layouts = list_of(alloc, ManifestKey::Layouts, value)?;
    Ok(Job {
        kind: Kind::Dialogue,
        name,
        records,
        layouts,
    })
}

/// A table `map`.
#[tactic(auto, unfolding(crate::specs::Tables::map_of))]
fn map_of(alloc: Global, table: &Table) -> Result<Job, ManifestError>
    ensures { Gives (λ job. job) result (map_of (table_view table.now)) }
{
    let own = with_only(&MAP_KEYS, table)?;
    let name = needed_text(alloc, ManifestKey::Name, own)?;
    let records = needed_text(alloc, ManifestKey::Source, own)?;
    Ok(Job {
        kind: Kind::Map,
        name,
        records,
        layouts: Vec::new(alloc),
    })
}

/// A table of a kind.
pub(crate) fn job_of(alloc: Global, kind: JobTable, table: &Table) -> Result<Job, ManifestError>
    ensures { Gives (λ job. job) result (job_of kind (table_view table.now)) }
{
    match kind {
        JobTable::Screen => screen_of(alloc, table),
        JobTable::Dialogue => dialogue_of(alloc, table),
        JobTable::Map => map_of(alloc, table),
    }
}

/// A table `accepted`.
#[tactic(auto, unfolding(crate::specs::Tables::accepted_of))]
pub(crate) fn accepted_of(alloc: Global, table: &Table) -> Result<Accepted, ManifestError>
    ensures { Gives (λ known. known) result (accepted_of (table_view table.now)) }
{
    let own = with_only(&ACCEPTED_KEYS, table)?;
    let screen = needed_text(alloc, ManifestKey::Screen, own)?;
    let finding = needed_text(alloc, ManifestKey::Finding, own)?;
    let reason = needed_text(alloc, ManifestKey::Reason, own)?;
    Ok(Accepted {
        screen,
        finding,
        reason,
    })
}

#[tactic(auto, unfolding(crate::specs::Tables::tables_of))]
fn tables_of(key: ManifestKey, value: &Value) -> Result<&[Value], ManifestFault>
    ensures { Tells (λ vs. tables_in (items_view vs.now)) result (tables_of key (view value.now)) }
{
    let Some(values) = value.as_array() else {
        return Err(ManifestFault::at_key(key, Why::WrongKind));
    };
    if !are_tables(values) {
        return Err(ManifestFault::at_key(key, Why::WrongKind));
    }
    if values.len() > 10_000 {
        return Err(ManifestFault::at_key(key, Why::BadCount));
    }
    Ok(values)
}

/// The tables of a key, at most 10,000, none where it is absent.
#[tactic(auto, unfolding(crate::specs::Tables::tables_at))]
pub(crate) fn tables_at(key: ManifestKey, top: &Table) -> Result<&[Value], ManifestFault>
    ensures { Tells (λ vs. tables_in (items_view vs.now)) result
        (tables_at key (table_view top.now)) }
{
    match value_at(key, top) {
        Some(value) => tables_of(key, value),
        None => Ok(&[]),
    }
}
