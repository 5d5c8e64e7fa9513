//! Actions that read a screen.

ghost use Rattle.std.specs.Prelude.{◌≡◌, map, IfOk};
ghost use Rattle.script_screens.specs.Lines.{Says};
ghost use Rattle.script_screens.specs.Snap.{snap_of};
ghost use Rattle.cli_scripts.specs.Acts.{MayRead};
ghost use Rattle.cli_scripts.specs.Desks.{Keeps};
ghost use Rattle.cli_scripts.specs.Says.{Reads, Snaps, after_first, said_of_copy};

use crate::answer::Saying;
use crate::desk::Desk;
use crate::kept::KeptScreen;
use script_screens::{CodePage, Kept, Outcome, Reading, Snap, SnapFault, snap_of};
use std::alloc::{AllocError, Global};

/// Reads the screen.
pub(crate) fn read(
    alloc: Global,
    desk: &mut Desk,
    code_page: CodePage,
    reading: Reading,
    arguments: &[Vec<u8>],
    saying: &mut Saying,
) -> Result<Outcome, AllocError>
    ensures keeps { Keeps desk.old desk.new }
    ensures deeds { MayRead desk.old desk.new }
    ensures reads { IfOk result (λ outcome. Reads code_page reading
        (map (λ argument. argument.items) arguments.now) desk.old saying.old outcome desk.new
        saying.new) }
{
    let outcome = saying.read(alloc, desk.screen(), code_page, reading, arguments)?;
    desk.note_read();
    Ok(outcome)
}

/// The arguments after the first.
fn after_first(arguments: &[Vec<u8>]) -> &[Vec<u8>]
    ensures { map (λ argument. argument.items) result.now
        ≡ after_first (map (λ argument. argument.items) arguments.now) }
{
    match arguments {
        [] => &[],
        [_word, words @ ..] => words,
    }
}

/// Says what is read of what was kept.
fn say_kept(
    alloc: Global,
    kept_screen: &Option<KeptScreen>,
    code_page: CodePage,
    kept: Kept,
    arguments: &[Vec<u8>],
    saying: &mut Saying,
) -> Result<Outcome, AllocError>
    ensures { IfOk result (λ outcome. Says saying.old saying.new outcome
        (said_of_copy code_page kept_screen.now kept
        (after_first (map (λ argument. argument.items) arguments.now)))) }
{
    match kept_screen {
        Some(it) => saying.read_kept(alloc, it, code_page, kept, after_first(arguments)),
        None => saying.fail_snap(alloc, SnapFault::NotSaved),
    }
}

/// Keeps the screen, or reads what was kept.
pub(crate) fn snap(
    alloc: Global,
    desk: &Desk,
    kept_screen: &mut Option<KeptScreen>,
    code_page: CodePage,
    arguments: &[Vec<u8>],
    saying: &mut Saying,
) -> Result<Outcome, AllocError>
    ensures { IfOk result (λ outcome.
        Snaps (snap_of (map (λ argument. argument.items) arguments.now)) code_page
        (map (λ argument. argument.items) arguments.now) desk.now kept_screen.old saying.old outcome
        kept_screen.new saying.new) }
{
    match snap_of(arguments) {
        Snap::Save => {
            *kept_screen = Some(KeptScreen::of(alloc, desk)?);
            Ok(Outcome::Done)
        }
        Snap::Kept(kept) => say_kept(alloc, kept_screen, code_page, kept, arguments, saying),
        Snap::Fault(fault) => saying.fail_snap(alloc, fault),
    }
}
