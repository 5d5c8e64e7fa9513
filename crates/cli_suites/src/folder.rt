//! The screens of a folder, by the paths of its files.

ghost use Rattle.std.specs.Prelude.{◌≡◌, ◌++◌, [], ◌∷◌, IfOk, OnOk, chars, option_map, map, string_bytes};
ghost use Rattle.std.specs.List.{flat_map};
ghost use Rattle.cli_suites.specs.Folder.{jobs_in, jobs_of_paths, layout_jobs, map_job, map_jobs, other_jobs, pair, plain_char, plain_name, records_job, stem_of};

use crate::job::{Job, Kind};
use crate::paths::Paths;
use manifest_tables::text_in;
use std::alloc::{AllocError, Global};

/// A character of a name: what is no graphic is a question mark.
fn push_plain(out: &mut String, character: char) -> Result<(), AllocError>
    ensures { OnOk result (string_bytes out.new ≡ string_bytes out.old ++ plain_char character) }
{
    match character {
        '\0'..='\x1F' | '\x7F' => out.push_str("?"),
        _ => out.push(character),
    }
}

/// The name that a path gives.
fn plain_name(alloc: Global, path: &str) -> Result<String, AllocError>
    ensures { IfOk result (λ name. string_bytes name ≡ plain_name path.now) }
{
    let mut name = String::new(alloc);
    for character in path.chars() {
        push_plain(&mut name, character)?;
    }
    Ok(name)
}

/// What a path has before a suffix, if it ends in it.
fn stem_of<'a>(path: &'a str, suffix: &[u8]) -> Option<&'a str>
    ensures { option_map (λ stem. stem.now) result ≡ stem_of path.now suffix.now }
{
    let bytes = path.as_bytes();
    if !bytes.ends_with(suffix) {
        return None;
    }
    text_in(&bytes[..bytes.len() - suffix.len()])
}

/// A job of one path, and of another beside it.
fn pair(alloc: Global, kind: Kind, name: &str, path: &str, other: String) -> Result<Job, AllocError>
    ensures { IfOk result (λ job. job ≡ pair kind name.now path.now (string_bytes other)) }
{
    let mut layouts = Vec::new(alloc);
    layouts.push(other)?;
    Ok(Job {
        kind,
        name: plain_name(alloc, name)?,
        records: String::from_str(alloc, path)?,
        layouts,
    })
}

/// The screen of records, or a refusal where their layout isn't beside them.
fn records_job(alloc: Global, paths: &Paths<'_>, stem: &str, path: &str) -> Result<Job, AllocError>
    ensures { IfOk result
        (λ job. job ≡ records_job paths.now stem.now path.now) }
{
    let layout = format!(in alloc; "{stem}.toml")?;
    if paths.has(layout.as_str()) {
        pair(alloc, Kind::Screen, stem, path, layout)
    } else {
        pair(alloc, Kind::Alone, path, path, layout)
    }
}

/// Adds a refusal of a layout beside which there are no records.
fn push_layout(
    alloc: Global,
    jobs: &mut Vec<Job>,
    paths: &Paths<'_>,
    stem: &str,
    path: &str,
) -> Result<(), AllocError>
    ensures { OnOk result (jobs.new.items ≡ jobs.old.items
        ++ layout_jobs paths.now stem.now path.now) }
{
    let records = format!(in alloc; "{stem}.hex")?;
    if !paths.has(records.as_str()) {
        jobs.push(pair(alloc, Kind::Alone, path, path, records)?)?;
    }
    Ok(())
}

/// The maps of a source.
fn map_job(alloc: Global, path: &str) -> Result<Job, AllocError>
    ensures { IfOk result (λ job. job ≡ map_job path.now) }
{
    Ok(Job {
        kind: Kind::Map,
        name: plain_name(alloc, path)?,
        records: String::from_str(alloc, path)?,
        layouts: Vec::new(alloc),
    })
}

/// Adds the maps of a source, if the path is one of a source.
fn push_map(alloc: Global, jobs: &mut Vec<Job>, path: &str) -> Result<(), AllocError>
    ensures { OnOk result (jobs.new.items ≡ jobs.old.items ++ map_jobs path.now) }
{
    match stem_of(path, b".bms".as_slice()) {
        Some(_stem) => Ok(jobs.push(map_job(alloc, path)?)?),
        None => Ok(()),
    }
}

/// The same, of a layout without records too.
fn push_other(
    alloc: Global,
    jobs: &mut Vec<Job>,
    paths: &Paths<'_>,
    path: &str,
) -> Result<(), AllocError>
    ensures { OnOk result (jobs.new.items ≡ jobs.old.items
        ++ other_jobs paths.now path.now) }
{
    match stem_of(path, b".toml".as_slice()) {
        Some(stem) => push_layout(alloc, jobs, paths, stem, path),
        None => push_map(alloc, jobs, path),
    }
}

/// Adds what a path stands for.
fn push_jobs(
    alloc: Global,
    jobs: &mut Vec<Job>,
    paths: &Paths<'_>,
    path: &str,
) -> Result<(), AllocError>
    ensures { OnOk result (jobs.new.items ≡ jobs.old.items
        ++ jobs_in paths.now path.now) }
{
    match stem_of(path, b".hex".as_slice()) {
        Some(stem) => Ok(jobs.push(records_job(alloc, paths, stem, path)?)?),
        None => push_other(alloc, jobs, paths, path),
    }
}

/// What paths stand for, of which the files beside them are looked up among others.
fn all_jobs(alloc: Global, paths: &Paths<'_>, list: &[String]) -> Result<Vec<Job>, AllocError>
    ensures { IfOk result
        (λ jobs. jobs.items ≡ flat_map (jobs_in paths.now) (map string_bytes list.now)) }
{
    let mut jobs = Vec::new(alloc);
    for path in list {
        push_jobs(alloc, &mut jobs, paths, path.as_str())?;
    }
    Ok(jobs)
}

/// The screens and the sources of maps among files, in the order of their paths.
pub(crate) fn jobs_of_paths(alloc: Global, list: &[String]) -> Result<Vec<Job>, AllocError>
    ensures { IfOk result (λ jobs. jobs.items ≡ jobs_of_paths (map string_bytes list.now)) }
{
    let paths = Paths::new(alloc, list)?;
    all_jobs(alloc, &paths, list)
}
