//! A session without a line: pieces of the terminal's stream go in, and the bytes that are due after them come out.

ghost use Rattle.std.specs.Prelude.{◌≡◌, [], OnOk, None};
ghost use Rattle.tn_wire.specs.Calls.{told_of};
ghost use Rattle.tn_wire.specs.Stream.{Tells};
ghost use Rattle.tn_session.specs.Talk.{Adds};
ghost use Rattle.tn_dialogue.specs.Dialogue.{dialogue_act};
ghost use Rattle.tn_dialogue.specs.DialogueTalk.{TakesEvent, TakesPiece};

use crate::machine::Machine;
use crate::turn::Turn;
use std::alloc::Global;
use tn_session::RunFault;
use tn_wire::{Deframer, Event, Step};

/// Takes one event, and adds what is due after it.
fn take_event(
    alloc: Global,
    machine: &mut Machine<'_>,
    made: &mut Vec<u8>,
    due: &mut Vec<u8>,
    event: &Event<'_>,
) -> Result<Turn, RunFault>
    ensures { Adds due.old.items due.new.items (λ given.
        TakesEvent (dialogue_act machine.old (told_of event.now)) result given machine.new) }
{
    made.clear();
    let turn = machine.take(alloc, event, made)?;
    due.extend_from_slice(made)?;
    Ok(turn)
}

/// Takes the events of a piece of the stream, one after the other, and adds what is due after each.
pub(crate) fn take_piece(
    alloc: Global,
    deframer: &mut Deframer,
    machine: &mut Machine<'_>,
    made: &mut Vec<u8>,
    due: &mut Vec<u8>,
    rest: &mut &[u8],
) -> Result<Turn, RunFault>
    requires fresh { deframer.old.fault ≡ None }
    requires opens { Tells deframer.old.content [] deframer.old.content }
    ensures taken { Adds due.old.items due.new.items (λ given.
        TakesPiece dialogue_act deframer.old.content machine.old rest.old.now result given
        machine.new deframer.new.content rest.new.now) }
    ensures fresh { OnOk result (deframer.new.fault ≡ None) }
{
    'events: loop {
        match deframer.next(rest) {
            Ok(Step::NeedMore) => return Ok(Turn::Goes),
            Ok(Step::Event(event)) => match take_event(alloc, machine, made, due, &event)? {
                Turn::Goes => {}
                Turn::Finishes => return Ok(Turn::Finishes),
            },
            Err(fault) => return Err(RunFault::Wire(fault)),
        }
    }
}
