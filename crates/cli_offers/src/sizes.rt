//! The sizes of the screens of an application, which are those of one terminal.

ghost use Rattle.std.specs.Prelude.{◌≡◌, IfOk, slice_get};
ghost use Rattle.cli_commands.specs.Held.{answer_seen};
ghost use Rattle.ds_codec.specs.Same.{same_sizes};
ghost use Rattle.cli_sessions.specs.Prepare.{has_model};
ghost use Rattle.cli_offers.specs.Held.{Reads, scene_seen, scenes_held};
ghost use Rattle.cli_offers.specs.Prepare.{no_model, other_from, sized_as, unless_other, with_model};

use crate::sources::{Stop, refusal};
use cli_applications::{ManifestFault, ManifestKey, Why};
use cli_commands::{Answer, Status};
use ds_codec::Geometry;
use scr_layout::Layout;
use std::alloc::{AllocError, Global};
use tn_cores::HostCore;
use tn_dialogue::Screen;

/// Whether a layout is for a terminal of this geometry.
#[tactic(auto, using(ds_codec::proofs::Same::modes_compared))]
pub(crate) fn is_geometry(layout: &Layout, geometry: &Geometry) -> bool
    ensures { result ≡ same_sizes layout.now.geometry geometry.now }
{
    layout.geometry() == *geometry
}

/// The first screen whose layout is for a terminal of another geometry.
fn other(screens: &[Screen], geometry: &Geometry) -> Option<usize>
    ensures { result ≡ other_from geometry.now 0 (scenes_held screens.now) }
{
    for (index, screen) in screens.iter().enumerate() {
        if !is_geometry(&screen.layout, geometry) {
            return Some(index);
        }
    }
    None
}

/// That no screen is for another terminal.
fn unless_other(alloc: Global, other: Option<usize>) -> Result<(), Stop>
    ensures { Reads (λ done. done) result (unless_other other) }
{
    match other {
        None => Ok(()),
        Some(index) => {
            let fault = ManifestFault::at_key(ManifestKey::Layout, Why::OtherSizes);
            Err(Stop::Answers(refusal(alloc, fault.in_screen(index))?))
        }
    }
}

/// Whether some model of the 3278 has the layout's two sizes.
pub(crate) fn has_model(layout: &Layout) -> bool
    ensures { result ≡ has_model layout.now.geometry }
{
    HostCore::new(layout, true, true).is_ok()
}

pub(crate) fn no_model(alloc: Global) -> Result<Answer, AllocError>
    ensures { IfOk result (λ answer. answer_seen answer ≡ no_model) }
{
    Ok(Answer {
        text: String::from_str(alloc, "no model has these sizes\n")?,
        status: Status::BadInput,
    })
}

/// That some model has a layout's sizes.
fn with_model(alloc: Global, has: bool) -> Result<(), Stop>
    ensures { Reads (λ done. done) result (with_model has) }
{
    if has {
        Ok(())
    } else {
        Err(Stop::Answers(no_model(alloc)?))
    }
}

/// That all screens are of the sizes of the one of this number, and some model has them.
pub(crate) fn sized_as(alloc: Global, screens: &[Screen], first: usize) -> Result<(), Stop>
    ensures { Reads (λ done. done) result
        (sized_as (slice_get (scenes_held screens.now) first) (scenes_held screens.now)) }
{
    let Some(screen) = screens.get(first) else {
        return Err(Stop::Answers(no_model(alloc)?));
    };
    unless_other(alloc, other(screens, &screen.layout.geometry()))?;
    with_model(alloc, has_model(&screen.layout))
}
