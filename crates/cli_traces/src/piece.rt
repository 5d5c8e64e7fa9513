//! A piece of what a side sent, event by event.

ghost use Rattle.std.specs.Prelude.{◌≡◌, ◌++◌, ◌<◌, ◌^◌, [], None, OnOk, OnErr};
ghost use Rattle.std.specs.String.{string_bytes};
ghost use Rattle.tn_wire.specs.Calls.{told_of};
ghost use Rattle.cli_traces.specs.Held.{IsOpen};
ghost use Rattle.cli_traces.specs.Reading.{event_log};
ghost use Rattle.cli_traces.specs.Taking.{TakesEvent, TakesPiece};

use crate::reading::{Reading, Task};
use crate::record::{take_negotiated, take_told};
use crate::spelled::{len_of, open_after};
use tn_session::RunFault;
use tn_wire::{Deframer, Event, Step};

/// Takes one event.
fn take_event(
    task: Task,
    reading: &mut Reading,
    out: &mut String,
    event: &Event<'_>,
) -> Result<(), RunFault>
    ensures { TakesEvent
        (event_log task.asked task.side task.line reading.old (told_of event.now))
        (string_bytes out.old) result reading.new (string_bytes out.new) }
{
    match event {
        Event::Record(bytes) => take_told(task, reading, out, bytes),
        other => Ok(take_negotiated(task, reading, out, other)?),
    }
}

/// Takes the events of a piece, one after the other, and counts the bytes that are open.
pub(crate) fn take_piece(
    task: Task,
    deframer: &mut Deframer,
    count: &mut usize,
    reading: &mut Reading,
    out: &mut String,
    piece: &[u8],
) -> Result<(), RunFault>
    requires open { IsOpen deframer.old count.old }
    ensures taken { TakesPiece (event_log task.asked task.side task.line) deframer.old.content
        reading.old piece.now (string_bytes out.old) result deframer.new.content reading.new
        (string_bytes out.new) }
    ensures open { OnOk result (IsOpen deframer.new count.new) }
{
    let mut rest = piece;
    'events: loop {
        let left = len_of(rest);
        match deframer.next(&mut rest) {
            Ok(Step::NeedMore) => {
                *count += left;
                return Ok(());
            }
            Ok(Step::Event(event)) => {
                *count = open_after(*count, left - rest.len(), &event);
                take_event(task, reading, out, &event)?;
            }
            Err(fault) => return Err(RunFault::Wire(fault)),
        }
    }
}
