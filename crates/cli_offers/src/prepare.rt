//! An application, from its manifest and its files to what can be served.

ghost use Rattle.std.specs.Prelude.{◌≡◌, [], ◌∷◌, IfOk, map, string_bytes};
ghost use Rattle.cli_offers.specs.Held.{Reads, scenes_held, scenes_seen};
ghost use Rattle.cli_offers.specs.Outcome.{Prepares, PreparesApplication, names_of};
ghost use Rattle.cli_offers.specs.Prepare.{prepare, shown_of, unless_found};
ghost use Rattle.cli_offers.specs.Ways.{erases, ways};

use crate::judging::ways_text;
use crate::sizes::sized_as;
use crate::sources::{Files, Stop, scenes_from};
use crate::ways::{Shown, Way, erases};
use cli_applications::{Manifest, PlannedScreen};
use cli_commands::{Answer, Status};
use cli_dialogues::{Application, Telling};
use std::alloc::{AllocError, Global};
use tn_dialogue::Screen;

/// What a manifest and its files lead to.
#[derive(Drop)]
pub enum Prepared {
    /// The application can be served.
    Ready(Application),
    /// It can't: what is printed, and the status.
    Stops(Answer),
}

/// Of each screen, whether it begins with an erase.
fn erased(alloc: Global, screens: &[Screen]) -> Result<Vec<bool>, AllocError>
    ensures { IfOk result (λ v. v.items
        ≡ map (λ scene. erases scene.records) (scenes_held screens.now)) }
{
    let mut erased = Vec::new(alloc);
    for screen in screens {
        erased.push(erases(screen.records.as_slice()))?;
    }
    Ok(erased)
}

/// The ways that are judged.
fn ways_of(alloc: Global, manifest: &Manifest, screens: &[Screen]) -> Result<Vec<Way>, AllocError>
    ensures { IfOk result (λ v. v.items
        ≡ ways (shown_of manifest.now (scenes_held screens.now))) }
{
    let erased = erased(alloc, screens)?;
    let shown = Shown {
        first: manifest.first,
        plans: manifest.screens.as_slice(),
        erased: erased.as_slice(),
    };
    shown.ways(alloc)
}

/// That nothing was found.
fn unless_found(text: String) -> Result<(), Stop>
    ensures { Reads (λ done. done) result (unless_found (string_bytes text)) }
{
    if text.is_empty() {
        return Ok(());
    }
    let status = Status::Findings;
    Err(Stop::Answers(Answer { text, status }))
}

/// The screens of an application, where nothing stands against it.
fn screens_of(alloc: Global, manifest: &Manifest, files: &[Files]) -> Result<Vec<Screen>, Stop>
    ensures { Reads scenes_seen result (prepare manifest.now files.now) }
{
    let plans = manifest.screens.as_slice();
    let screens = scenes_from(alloc, files, plans)?;
    sized_as(alloc, screens.as_slice(), manifest.first)?;
    let ways = ways_of(alloc, manifest, screens.as_slice())?;
    unless_found(ways_text(alloc, plans, files, ways.as_slice())?)?;
    Ok(screens)
}

/// The names of screens.
fn names_of(alloc: Global, plans: &[PlannedScreen]) -> Result<Vec<String>, AllocError>
    ensures { IfOk result (λ names. map string_bytes names.items ≡ names_of plans.now) }
{
    let mut names = Vec::new(alloc);
    for plan in plans {
        names.push(String::from_str(alloc, plan.name.as_str())?)?;
    }
    Ok(names)
}

fn application_of(
    alloc: Global,
    manifest: &Manifest,
    files: &[Files],
    telling: Telling,
) -> Result<Application, Stop>
    ensures { PreparesApplication manifest.now files.now telling result }
{
    let screens = screens_of(alloc, manifest, files)?;
    let names = names_of(alloc, manifest.screens.as_slice())?;
    Ok(Application {
        screens,
        names,
        first: manifest.first,
        telling,
    })
}

/// What is to be done with an application: it is served, or there is an answer to print: the first file that can't be read or is
/// refused, a screen of other sizes, or what `check` and `talk` find.
///
/// Each screen that begins with an erase is checked by itself, and the first in any case. Those that don't are judged as turns
/// after each one that does, as far as keys lead, or where a key without a lead shows a screen again: each screen and a next one
/// after the first way that comes to the former (`ways_law`).
///
/// # Errors
///
/// Where a request for memory was refused.
pub fn prepare_application(
    alloc: Global,
    manifest: &Manifest,
    files: &[Files],
    telling: Telling,
) -> Result<Prepared, AllocError>
    ensures { Prepares manifest.now files.now telling result }
{
    match application_of(alloc, manifest, files, telling) {
        Ok(application) => Ok(Prepared::Ready(application)),
        Err(Stop::Answers(answer)) => Ok(Prepared::Stops(answer)),
        Err(Stop::OutOfMemory) => Err(AllocError),
    }
}
