//! The rule of the first turn, and where its records lead.

ghost use Rattle.std.specs.Prelude.{◌≡◌};
ghost use Rattle.scr_check.specs.Opening.{erases, writes, command_fault};
ghost use Rattle.scr_check.specs.Seen.{IsReadyFor, IsReadyOn};

use crate::finding::Finding;
use crate::taking::TurnRule;
use ds_codec::{Command, Record, Size};
use ds_screen::{Lock, Outline};

/// Where the records lead: to the outline of a screen, or to the one finding that comes first.
#[derive(Drop)]
pub(crate) enum Opening {
    Leads(Outline),
    Stands(Finding),
}

fn erases(command: &Command) -> bool
    ensures { result ≡ erases command.now }
{
    matches!(
        command,
        Command::EraseWrite(_) | Command::EraseWriteAlternate(_)
    )
}

pub(crate) fn writes(command: &Command) -> bool
    ensures { result ≡ writes command.now }
{
    match command {
        Command::ReadBuffer
        | Command::ReadModified
        | Command::ReadModifiedAll
        | Command::NoOperation => false,
        _ => true,
    }
}

/// What the command of the record of this number is at fault for.
fn command_fault(index: usize, command: &Command) -> Option<Finding>
    ensures { result ≡ command_fault index command.now }
{
    if index == 0 && !erases(command) {
        Some(Finding::FirstNotErase)
    } else if writes(command) {
        None
    } else {
        Some(Finding::NotAWrite(index))
    }
}

/// The rule of the first turn: the first record erases, and each one writes.
pub enum FirstTurn {}

impl TurnRule for FirstTurn {
    ghost use Rattle.scr_check.specs.Opening.{command_fault};

    ghost fault_of = { λ index command orders. command_fault index command };

    fn fault(index: usize, outbound: &Record<'_>) -> Option<Finding> {
        command_fault(index, &outbound.command())
    }
}

/// What keeps the operator from a screen with this lock, of this size, where one with fields is declared.
///
/// # Errors
///
/// The first of these: F5 where the keyboard isn't free, F6 where the sizes differ, F7 where it has no field.
pub fn ready_for(lock: Lock, shown: Size, declared: Size, has_fields: bool) -> Result<(), Finding>
    ensures { IsReadyFor lock shown declared has_fields result }
{
    if lock != Lock::Free {
        return Err(Finding::KeyboardLocked);
    }
    if shown != declared {
        return Err(Finding::OtherSize(shown, declared));
    }
    if has_fields {
        Ok(())
    } else {
        Err(Finding::Unformatted)
    }
}

/// What keeps the operator from a screen of this size with fields, by its outline.
pub(crate) fn ready(outline: &Outline, size: Size) -> Result<(), Finding>
    ensures { IsReadyOn outline.now size result }
{
    let has_fields = outline.fields().next().is_some();
    ready_for(outline.lock(), outline.size(), size, has_fields)
}
