//! The manifest of an application, read from TOML.

ghost use Rattle.std.specs.Prelude.{◌≡◌};
ghost use Rattle.toml.specs.View.{table_view};
ghost use Rattle.cli_applications.specs.Chains.{Declares};
ghost use Rattle.manifest_tables.specs.Results.{Tells};
ghost use Rattle.cli_applications.specs.Results.{Gives};
ghost use Rattle.cli_applications.specs.Manifest.{declaration_of, first_of, manifest_of, manifest_said, table_of};

use crate::fault::{ManifestError, ManifestFault, ManifestKey, Why};
use crate::led::with_ways;
use crate::plan::{index_of, plans_from};
use crate::screen::{Manifest, NamedScreen};
use crate::tables::screens_at;
use crate::values::needed_text;
use manifest_tables::{text_in, with_only};
use std::alloc::Global;
use toml::Table;

const TOP_KEYS: [ManifestKey; 2] = [ManifestKey::Start, ManifestKey::Screen];

/// The number of the screen that is shown first.
fn first_of(name: &str, screens: &[NamedScreen]) -> Result<usize, ManifestFault>
    ensures { Tells (λ first. first) result (first_of name.now screens.now) }
{
    match index_of(name, screens) {
        Some(first) => Ok(first),
        None => Err(ManifestFault::at_key(ManifestKey::Start, Why::NoSuchScreen)),
    }
}

#[tactic(auto, unfolding(crate::specs::Manifest::declaration_of))]
fn declaration_of(alloc: Global, table: &Table) -> Result<Manifest, ManifestError>
    ensures { Gives (λ manifest. manifest) result (declaration_of (table_view table.now)) }
{
    let top = with_only(&TOP_KEYS, table)?;
    let start = needed_text(alloc, ManifestKey::Start, top)?;
    let named = screens_at(alloc, top)?;
    let first = first_of(start.as_str(), named.as_slice())?;
    let screens = plans_from(alloc, named.as_slice())?;
    Ok(Manifest { first, screens })
}

/// The table that a text is, by TOML.
fn table_of(alloc: Global, text: &str) -> Result<Table, ManifestError>
    ensures { Gives table_view result (table_of text.now) }
{
    match toml::table_from_str(alloc, text) {
        Ok(table) => Ok(table),
        Err(error) => {
            if error.is_memory() {
                Err(ManifestError::OutOfMemory)
            } else {
                Err(ManifestError::Refused(ManifestFault::not_toml()))
            }
        }
    }
}

fn manifest_of(alloc: Global, text: &str) -> Result<Manifest, ManifestError>
    ensures { Gives (λ manifest. manifest) result (manifest_of text.now) }
{
    let table = table_of(alloc, text)?;
    declaration_of(alloc, &table)
}

/// What bytes say, whether or not a way leads to each screen.
fn manifest_said(alloc: Global, text: &[u8]) -> Result<Manifest, ManifestError>
    ensures { Gives (λ manifest. manifest) result (manifest_said text.now) }
{
    match text_in(text) {
        Some(text) => manifest_of(alloc, text),
        None => Err(ManifestError::Refused(ManifestFault::not_toml())),
    }
}

/// The manifest of an application that bytes are.
///
/// # Errors
///
/// The first refusal: of the keys at the top and of the text of `start`, of each screen in turn, of the screen that is first, of
/// where the keys of each screen lead; of the first screen to which no chain of keys leads from the one that is shown first; out
/// of memory.
pub fn manifest_in(alloc: Global, text: &[u8]) -> Result<Manifest, ManifestError>
    ensures { Declares result (manifest_said text.now) }
{
    let manifest = manifest_said(alloc, text)?;
    with_ways(alloc, manifest)
}
