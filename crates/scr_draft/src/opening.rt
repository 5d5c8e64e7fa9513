//! The screen that records open for an operator.

ghost use Rattle.std.specs.Prelude.{◌≡◌, [], IfOk, Ok};
ghost use Rattle.ds_codec.specs.Reading.{read_of};
ghost use Rattle.scr_check.specs.Opening.{taken, taken_from, ready};
ghost use Rattle.scr_draft.specs.Opened.{opened, held, LeadsTo, IsOpened};
ghost use Rattle.scr_draft.specs.Best.{FitsNone};

use ds_codec::Geometry;
use ds_screen::{PlaneCells, Screen};
use scr_check::{Finding, FirstTurn, ready_for, take_by};
use std::alloc::{AllocError, Global};

/// Where records lead: to a screen, or to the one finding that comes first.
#[derive(Drop)]
pub enum Opened {
    Leads(Screen<PlaneCells>),
    Stands(Finding),
}

/// Reads and applies the record of this number, which in the first turn erases.
fn take(screen: &mut Screen<PlaneCells>, index: usize, bytes: &[u8]) -> Result<(), Finding>
    ensures { LeadsTo screen.new
        (taken index screen.old (read_of screen.old.geometry.mode bytes.now)) result }
{
    take_by::<FirstTurn, Screen<PlaneCells>>(screen, index, bytes)
}

/// Takes the records in turn, up to the first against which something stands.
fn take_all(screen: &mut Screen<PlaneCells>, records: &[Vec<u8>]) -> Result<(), Finding>
    ensures { LeadsTo screen.new (taken_from 0 screen.old (held records.now)) result }
{
    for (index, bytes) in records.iter().enumerate() {
        take(screen, index, bytes.as_slice())?;
    }
    Ok(())
}

/// What keeps the operator from a screen with fields.
fn ready(screen: &Screen<PlaneCells>) -> Result<(), Finding>
    ensures { LeadsTo screen.now (ready screen.now.size screen.now) result }
{
    let size = screen.size();
    let has_fields = screen.fields().next().is_some();
    ready_for(screen.lock(), size, size, has_fields)
}

/// Opens a new terminal with records: the screen on which an operator can type, or the finding of the checker that
/// comes first: no record, a record that is refused, the first one doesn't erase, one is no write, the keyboard stays
/// locked, or no field. To such records no layout for this terminal conforms.
///
/// # Errors
///
/// Where a request for memory was refused.
pub fn open(alloc: Global, geometry: Geometry, records: &[Vec<u8>]) -> Result<Opened, AllocError>
    ensures opened { IfOk result (IsOpened (opened geometry (held records.now))) }
    ensures none { IfOk result (FitsNone geometry (held records.now)) }
    ensures no_record { records.now ≡ [] → result ≡ Ok (Opened.Stands Finding.NoRecord) }
{
    opened_by(alloc, geometry, records)
}

fn opened_by(alloc: Global, geometry: Geometry, records: &[Vec<u8>]) -> Result<Opened, AllocError>
    ensures opened { IfOk result (IsOpened (opened geometry (held records.now))) }
    ensures no_record { records.now ≡ [] → result ≡ Ok (Opened.Stands Finding.NoRecord) }
{
    if records.is_empty() {
        return Ok(Opened::Stands(Finding::NoRecord));
    }
    let mut screen = Screen::<PlaneCells>::new(alloc, geometry)?;
    if let Err(finding) = take_all(&mut screen, records) {
        return Ok(Opened::Stands(finding));
    }
    match ready(&screen) {
        Ok(()) => Ok(Opened::Leads(screen)),
        Err(finding) => Ok(Opened::Stands(finding)),
    }
}
