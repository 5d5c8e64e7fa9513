//! The manifest of a suite, read from TOML.

ghost use Rattle.std.specs.Prelude.{◌≡◌, ◌++◌, [], ◌∷◌};
ghost use Rattle.toml.specs.View.{table_view, items_view};
ghost use Rattle.cli_suites.specs.Results.{Gives, in_table};
ghost use Rattle.manifest_tables.specs.Tables.{tables_in};
ghost use Rattle.cli_suites.specs.Tables.{key_of};
ghost use Rattle.cli_suites.specs.Manifest.{accepted_from, accepted_with, accepted_at, declaration_of, has_name, has_known, is_acceptable, is_known, is_screen, is_screen_of, jobs_from, jobs_at, manifest_of, manifest_in, manifest_seen, refused, table_of, with_accepted, with_job};

use crate::fault::{ManifestError, ManifestFault, ManifestKey, Why};
use crate::job::{Accepted, Job, Kind};
use crate::named_jobs::NamedJobs;
use crate::plain::plain_manifest;
use crate::tables::{JobTable, accepted_of, job_of, tables_at};
use manifest_tables::{text_in, with_only};
use std::alloc::Global;
use toml::{Table, Value};

/// What a suite checks, and the findings that are known.
#[derive(Debug, Drop)]
pub struct Manifest {
    /// The screens, the dialogues and the sources of maps, each in the order of the text.
    pub jobs: Vec<Job>,
    pub accepted: Vec<Accepted>,
}

const TOP_KEYS: [ManifestKey; 4] = [
    ManifestKey::Screen,
    ManifestKey::Dialogue,
    ManifestKey::Map,
    ManifestKey::Accepted,
];

pub(crate) fn has_name(name: &str, jobs: &[Job]) -> bool
    ensures { result ≡ has_name name.now jobs.now }
{
    jobs.iter().any(|job| job.name.as_str() == name)
}

/// The jobs before, and behind them that of a table.
#[tactic(auto, unfolding(crate::specs::Manifest::with_job))]
fn with_job(
    alloc: Global,
    kind: JobTable,
    before: NamedJobs,
    table: &Table,
) -> Result<NamedJobs, ManifestError>
    ensures { Gives (λ jobs. jobs) result
        (with_job kind before (table_view table.now)) }
{
    let job = job_of(alloc, kind, table)?;
    if before.has(job.name.as_str()) {
        return Err(ManifestError::Refused(ManifestFault::at_key(ManifestKey::Name, Why::Twice)));
    }
    Ok(before.and(alloc, job)?)
}

/// The same, where a fault is one of the table of this number.
fn with_table(
    alloc: Global,
    kind: JobTable,
    index: usize,
    before: NamedJobs,
    table: &Table,
) -> Result<NamedJobs, ManifestError>
    ensures { Gives (λ jobs. jobs) result (in_table (key_of kind) index
        (with_job kind before (table_view table.now))) }
{
    match with_job(alloc, kind, before, table) {
        Ok(jobs) => Ok(jobs),
        Err(ManifestError::Refused(fault)) => {
            Err(ManifestError::Refused(fault.in_table(kind.key(), index)))
        }
        Err(ManifestError::OutOfMemory) => Err(ManifestError::OutOfMemory),
    }
}

/// The jobs before, and behind them those of tables.
fn jobs_from(
    alloc: Global,
    kind: JobTable,
    before: NamedJobs,
    values: &[Value],
) -> Result<NamedJobs, ManifestError>
    ensures { Gives (λ jobs. jobs) result
        (jobs_from kind 0 before (tables_in (items_view values.now))) }
{
    let mut jobs = before;
    let mut index = 0usize;
    for value in values {
        if let Some(table) = value.as_table() {
            jobs = with_table(alloc, kind, index, jobs, table)?;
            index += 1;
        }
    }
    Ok(jobs)
}

/// The jobs before, and behind them those of a kind.
#[tactic(auto, unfolding(crate::specs::Manifest::jobs_at))]
fn jobs_at(
    alloc: Global,
    kind: JobTable,
    before: NamedJobs,
    top: &Table,
) -> Result<NamedJobs, ManifestError>
    ensures { Gives (λ jobs. jobs) result
        (jobs_at kind before (table_view top.now)) }
{
    let values = tables_at(kind.key(), top)?;
    jobs_from(alloc, kind, before, values)
}

fn is_screen(kind: Kind) -> bool
    ensures { result ≡ is_screen kind }
{
    match kind {
        Kind::Screen => true,
        Kind::Dialogue | Kind::Map | Kind::Alone => false,
    }
}

fn is_screen_of(name: &str, jobs: &[Job]) -> bool
    ensures { result ≡ is_screen_of name.now jobs.now }
{
    jobs.iter()
        .any(|job| is_screen(job.kind) && job.name.as_str() == name)
}

/// Whether a finding is of a field: one of the records ends the check, and would hide what comes after it.
fn is_acceptable(finding: &str) -> bool
    ensures { result ≡ is_acceptable finding.now }
{
    let text = finding.as_bytes();
    text.starts_with(b"F8 ".as_slice())
        || text.starts_with(b"F9 ".as_slice())
        || text.starts_with(b"F10 ".as_slice())
        || text.starts_with(b"F11 ".as_slice())
        || text.starts_with(b"F12 ".as_slice())
        || text.starts_with(b"F13 ".as_slice())
}

fn is_known(screen: &str, finding: &str, known: &Accepted) -> bool
    ensures { result ≡ is_known screen.now finding.now known.now }
{
    known.screen.as_str() == screen && known.finding.as_str() == finding
}

/// Whether a finding of a screen is accepted.
pub(crate) fn is_accepted(screen: &str, finding: &str, accepted: &[Accepted]) -> bool
    ensures { result ≡ has_known screen.now finding.now accepted.now }
{
    accepted
        .iter()
        .any(|known| is_known(screen, finding, known))
}

fn refused(key: ManifestKey, why: Why) -> ManifestError
    ensures { result ≡ refused key why }
{
    ManifestError::Refused(ManifestFault::at_key(key, why))
}

/// The findings before, and behind them one more.
#[tactic(auto, unfolding(crate::specs::Manifest::accepted_with))]
fn accepted_with(
    jobs: &[Job],
    before: Vec<Accepted>,
    known: Accepted,
) -> Result<Vec<Accepted>, ManifestError>
    ensures { Gives (λ accepted. accepted.items) result
        (accepted_with jobs.now before.items known) }
{
    let screen = known.screen.as_str();
    let finding = known.finding.as_str();
    if !is_screen_of(screen, jobs) {
        return Err(refused(ManifestKey::Screen, Why::NoSuchScreen));
    }
    if !is_acceptable(finding) {
        return Err(refused(ManifestKey::Finding, Why::NotAcceptable));
    }
    if is_accepted(screen, finding, before.as_slice()) {
        return Err(refused(ManifestKey::Finding, Why::Twice));
    }
    let mut accepted = before;
    accepted.push(known)?;
    Ok(accepted)
}

/// The same of a table.
#[tactic(auto, unfolding(crate::specs::Manifest::with_accepted))]
fn with_accepted(
    alloc: Global,
    jobs: &[Job],
    before: Vec<Accepted>,
    table: &Table,
) -> Result<Vec<Accepted>, ManifestError>
    ensures { Gives (λ accepted. accepted.items) result
        (with_accepted jobs.now before.items (table_view table.now)) }
{
    let known = accepted_of(alloc, table)?;
    accepted_with(jobs, before, known)
}

/// The same, where a fault is one of the table of this number.
fn accepted_in(
    alloc: Global,
    jobs: &[Job],
    index: usize,
    before: Vec<Accepted>,
    table: &Table,
) -> Result<Vec<Accepted>, ManifestError>
    ensures { Gives (λ accepted. accepted.items) result (in_table ManifestKey.Accepted index
        (with_accepted jobs.now before.items (table_view table.now))) }
{
    match with_accepted(alloc, jobs, before, table) {
        Ok(accepted) => Ok(accepted),
        Err(ManifestError::Refused(fault)) => Err(ManifestError::Refused(fault.in_table(
            ManifestKey::Accepted,
            index,
        ))),
        Err(ManifestError::OutOfMemory) => Err(ManifestError::OutOfMemory),
    }
}

/// The findings of tables.
fn accepted_from(
    alloc: Global,
    jobs: &[Job],
    values: &[Value],
) -> Result<Vec<Accepted>, ManifestError>
    ensures { Gives (λ accepted. accepted.items) result
        (accepted_from jobs.now 0 [] (tables_in (items_view values.now))) }
{
    let mut accepted = Vec::new(alloc);
    let mut index = 0usize;
    for value in values {
        if let Some(table) = value.as_table() {
            accepted = accepted_in(alloc, jobs, index, accepted, table)?;
            index += 1;
        }
    }
    Ok(accepted)
}

#[tactic(auto, unfolding(crate::specs::Manifest::accepted_at))]
fn accepted_at(alloc: Global, jobs: &[Job], top: &Table) -> Result<Vec<Accepted>, ManifestError>
    ensures { Gives (λ accepted. accepted.items) result
        (accepted_at jobs.now (table_view top.now)) }
{
    let values = tables_at(ManifestKey::Accepted, top)?;
    accepted_from(alloc, jobs, values)
}

#[tactic(auto, unfolding(crate::specs::Manifest::declaration_of))]
fn declaration_of(alloc: Global, table: &Table) -> Result<Manifest, ManifestError>
    ensures { Gives manifest_seen result (declaration_of (table_view table.now)) }
{
    let top = with_only(&TOP_KEYS, table)?;
    let screens = jobs_at(alloc, JobTable::Screen, NamedJobs::new(alloc), top)?;
    let dialogues = jobs_at(alloc, JobTable::Dialogue, screens, top)?;
    let jobs = jobs_at(alloc, JobTable::Map, dialogues, top)?.into_jobs();
    let accepted = accepted_at(alloc, jobs.as_slice(), top)?;
    Ok(Manifest { jobs, accepted })
}

/// The table that a text is, by TOML.
fn table_of(alloc: Global, text: &str) -> Result<Table, ManifestError>
    ensures { Gives table_view result (table_of text.now) }
{
    match toml::table_from_str(alloc, text) {
        Ok(table) => Ok(table),
        Err(error) => {
            if error.is_memory() {
                Err(ManifestError::OutOfMemory)
            } else {
                Err(ManifestError::Refused(ManifestFault::not_toml()))
            }
        }
    }
}

fn manifest_of(alloc: Global, text: &str) -> Result<Manifest, ManifestError>
    ensures { Gives manifest_seen result (manifest_of text.now) }
{
    if let Some(manifest) = plain_manifest(alloc, text)? {
        return Ok(manifest);
    }
    let table = table_of(alloc, text)?;
    declaration_of(alloc, &table)
}

/// The manifest that bytes are. First come the screens, then the dialogues, then the sources of maps, each kind in the order of
/// the text.
///
/// # Errors
///
/// The first refusal: of the keys at the top, of each table in turn, of the findings that are accepted; out of memory.
pub fn manifest_in(alloc: Global, text: &[u8]) -> Result<Manifest, ManifestError>
    ensures { Gives manifest_seen result (manifest_in text.now) }
{
    match text_in(text) {
        Some(text) => manifest_of(alloc, text),
        None => Err(ManifestError::Refused(ManifestFault::not_toml())),
    }
}
