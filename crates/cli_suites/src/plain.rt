//! A manifest in the usual form, read in one walk: screens alone, each with its name, its records and its layout in this order. One of
//! another form, and one that is refused, is left to TOML's own reader, which keeps a tree for all that may still come.

ghost use Rattle.std.specs.Prelude.{◌≡◌, ◌++◌, [], ◌∷◌, true, false, Ok, IfOk, IfSome, string_bytes};
ghost use Rattle.toml.specs.Data.{string};
ghost use Rattle.toml.specs.View.{view};
ghost use Rattle.manifest_tables.specs.Values.{is_plain};
ghost use Rattle.cli_suites.specs.Manifest.{has_name, manifest_of, manifest_seen};
ghost use Rattle.cli_suites.specs.Plain.{IsText, IsScreen, HasScreens};

use crate::fault::ManifestKey;
use crate::job::{Job, Kind};
use crate::manifest::Manifest;
use crate::named_jobs::NamedJobs;
use crate::tables::single;
use manifest_tables::is_plain;
use plain_tables::{header, pair};
use std::alloc::{AllocError, Global};
use toml::Value;
use toml_parser::text::{first, skip_blank};

/// The text that a value is, where a manifest may have it.
fn text_in(value: Value) -> Option<String>
    ensures { IfSome result (λ text. (view value ≡ string (string_bytes text))
        × (is_plain (string_bytes text) ≡ true)) }
{
    match value {
        Value::String(text) => {
            if is_plain(text.as_bytes()) {
                Some(text)
            } else {
                None
            }
        }
        _ => None,
    }
}

/// The text of a key on the next line, and what follows it: none where another stands there.
fn text_of_line(
    alloc: Global,
    key: ManifestKey,
    s: &str,
) -> Result<Option<(String, &str)>, AllocError>
    ensures { IfOk result (λ found. IfSome found (IsText key s.now)) }
{
    let Some((found, rest)) = pair(alloc, skip_blank(s, true))? else {
        return Ok(None);
    };
    let (word, value) = found;
    if word != key.word() {
        return Ok(None);
    }
    match text_in(value) {
        Some(text) => Ok(Some((text, rest))),
        None => Ok(None),
    }
}

/// The screen behind its header, and what follows it.
fn screen(alloc: Global, s: &str) -> Result<Option<(Job, &str)>, AllocError>
    ensures { IfOk result (λ found. IfSome found (IsScreen s.now)) }
{
    let Some((name, behind_name)) = text_of_line(alloc, ManifestKey::Name, s)? else {
        return Ok(None);
    };
    let Some((records, behind_records)) = text_of_line(alloc, ManifestKey::Records, behind_name)?
    else {
        return Ok(None);
    };
    let Some((layout, rest)) = text_of_line(alloc, ManifestKey::Layout, behind_records)? else {
        return Ok(None);
    };
    let job = Job {
        kind: Kind::Screen,
        name,
        records,
        layouts: single(alloc, layout)?,
    };
    Ok(Some((job, rest)))
}

/// The jobs before, and behind them one more: none where one of them has its name.
fn with_screen(alloc: Global, before: NamedJobs, job: Job) -> Result<Option<NamedJobs>, AllocError>
    ensures { IfOk result (λ found. IfSome found (λ all. (has_name job.name before ≡ false)
        × (all ≡ before ++ job ∷ []))) }
{
    if before.has(job.name.as_str()) {
        return Ok(None);
    }
    Ok(Some(before.and(alloc, job)?))
}

/// The screens behind the first header `[[screen]]`, up to the end of the text: none where one isn't of the usual form.
fn screens(alloc: Global, s: &str) -> Result<Option<NamedJobs>, AllocError>
    ensures { IfOk result (λ found. IfSome found (HasScreens s.now)) }
{
    let mut jobs = NamedJobs::new(alloc);
    let mut rest = s;
    'screens: for count in 0..10_000u32 {
        let Some((job, after)) = screen(alloc, rest)? else {
            return Ok(None);
        };
        let Some(more) = with_screen(alloc, jobs, job)? else {
            return Ok(None);
        };
        let start = skip_blank(after, true);
        if start.is_empty() {
            return Ok(Some(more));
        }
        let Some(behind) = header(ManifestKey::Screen.word(), start) else {
            return Ok(None);
        };
        jobs = more;
        rest = behind;
    }
    Ok(None)
}

/// The manifest that the text is, where it has the usual form and nothing of it is to be refused.
///
/// # Errors
///
/// Where a request for memory was refused.
pub(crate) fn plain_manifest(alloc: Global, text: &str) -> Result<Option<Manifest>, AllocError>
    ensures { IfOk result (λ found. IfSome found (λ manifest.
        manifest_of text.now ≡ Ok (manifest_seen manifest))) }
{
    if first(text) == 0xEF {
        return Ok(None);
    }
    let Some(behind) = header(ManifestKey::Screen.word(), skip_blank(text, true)) else {
        return Ok(None);
    };
    match screens(alloc, behind)? {
        Some(jobs) => Ok(Some(Manifest {
            jobs: jobs.into_jobs(),
            accepted: Vec::new(alloc),
        })),
        None => Ok(None),
    }
}
