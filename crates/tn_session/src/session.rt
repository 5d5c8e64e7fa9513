//! A session without a line: pieces of the peer's stream go in, and the bytes that are due after them come out. It reads and
//! writes nothing, and waits for nothing.

ghost use Rattle.std.specs.Prelude.{◌≡◌, [], None, IfOk, OnOk, option_map};
ghost use Rattle.tn_wire.specs.Calls.{told_of};
ghost use Rattle.tn_wire.specs.Stream.{Tells};
ghost use Rattle.tn_session.specs.Talk.{Adds, TakesEvent, TakesPiece, Takes, stands, listening_in, last_in, IsMachineOf};
ghost use Rattle.tn_session.specs.OneLog.{waits};
ghost use Rattle.tn_session.specs.TerminalTalk.{GivesKey, Presses};

use crate::fault::RunFault;
use crate::keystroke::Keystroke;
use crate::machine::Machine;
use crate::pressed::Pressed;
use crate::progress::Progress;
use crate::terminal_state::TerminalState;
use crate::turn::Turn;
use std::alloc::{AllocError, Global};
use std::marker::Model;
use tn_wire::{Deframer, Event, Step};

/// Why a session takes no more.
#[derive(Clone, Copy)]
pub(crate) enum End {
    /// An event finished it.
    Over,
    /// It failed.
    Failed(RunFault),
}

/// A session: the deframer of its stream, and the machine that its events go to.
#[derive(Drop)]
pub(crate) struct Session<M: Machine> {
    deframer: Deframer,
    pub(crate) machine: M,
    /// What the last event made due.
    made: Vec<u8>,
    end: Option<End>,
}

impl<M: Machine> Model for Session<M> {
    ghost use Rattle.std.specs.Prelude.{◌≡◌, [], None};
    ghost use Rattle.tn_wire.specs.Stream.{Tells};
    ghost use Rattle.tn_session.specs.Talk.{Talk};
    ghost use Rattle.tn_session.specs.SessionView.{talk_of, IsListening};

    ghost Value = { Talk M };

    ghost view = { λ s. talk_of s.end s.machine s.deframer.content };

    ghost invariant = { λ s. IsListening s.end s.deframer };
}

/// Takes one event, and adds what is due after it.
fn take_event<M: Machine>(
    alloc: Global,
    machine: &mut M,
    made: &mut Vec<u8>,
    due: &mut Vec<u8>,
    event: &Event<'_>,
) -> Result<Turn, RunFault>
    ensures { Adds due.old.items due.new.items (λ given.
        TakesEvent (M.act machine.old (told_of event.now)) result given machine.new) }
{
    made.clear();
    let turn = machine.take(alloc, event, made)?;
    due.extend_from_slice(made)?;
    Ok(turn)
}

/// Takes the events of a piece of the stream, one after the other, and adds what is due after each.
fn take_piece<M: Machine>(
    alloc: Global,
    deframer: &mut Deframer,
    machine: &mut M,
    made: &mut Vec<u8>,
    due: &mut Vec<u8>,
    rest: &mut &[u8],
) -> Result<Turn, RunFault>
    requires fresh { deframer.old.fault ≡ None }
    requires opens { Tells deframer.old.content [] deframer.old.content }
    ensures taken { Adds due.old.items due.new.items (λ given.
        TakesPiece M.act deframer.old.content machine.old rest.old.now result given
        machine.new deframer.new.content rest.new.now) }
    ensures fresh { OnOk result (deframer.new.fault ≡ None) }
{
    'events: loop {
        match deframer.next(rest) {
            Ok(Step::NeedMore) => return Ok(Turn::Goes),
            Ok(Step::Event(event)) => match take_event(alloc, machine, made, due, &event)? {
                Turn::Goes => {}
                Turn::Finishes => return Ok(Turn::Finishes),
            },
            Err(fault) => return Err(RunFault::Wire(fault)),
        }
    }
}

impl<M: Machine> Session<M> {
    /// A session at the beginning of its stream. Takes memory for a whole record, 32,768 bytes.
    pub(crate) fn new(alloc: Global, machine: M) -> Result<Session<M>, AllocError>
        ensures { IfOk result (λ session. session ≡ stands (waits machine [])) }
    {
        Ok(Session {
            deframer: Deframer::new(alloc)?,
            machine,
            made: Vec::new(alloc),
            end: None,
        })
    }

    /// Takes a piece of what the peer sent, of any length, and adds the bytes that are due after it.
    pub(crate) fn take(
        &mut self,
        alloc: Global,
        piece: &[u8],
        due: &mut Vec<u8>,
    ) -> Result<Progress, RunFault>
        ensures { Adds due.old.items due.new.items (λ given.
            Takes M.act self.old piece.now result given self.new) }
    {
        match self.end {
            Some(End::Over) => return Ok(Progress::Done { taken: 0 }),
            Some(End::Failed(why)) => return Err(why),
            None => {}
        }
        let mut rest = piece;
        let (deframer, machine) = (&mut self.deframer, &mut self.machine);
        match take_piece(alloc, deframer, machine, &mut self.made, due, &mut rest) {
            Ok(Turn::Goes) => Ok(Progress::More),
            Ok(Turn::Finishes) => {
                self.end = Some(End::Over);
                let taken = piece.len() - rest.len();
                Ok(Progress::Done { taken })
            }
            Err(why) => {
                self.end = Some(End::Failed(why));
                Err(why)
            }
        }
    }

    /// The machine of a session. Where it failed it is as that left it.
    pub(crate) fn machine(&self) -> &M
        ensures { IsMachineOf self.now result.now }
    {
        &self.machine
    }

    /// The machine, while the session takes more.
    pub(crate) fn listening(&self) -> Option<&M>
        ensures { option_map (λ machine. machine.now) result ≡ listening_in self.now }
    {
        match self.end {
            None => Some(&self.machine),
            Some(_) => None,
        }
    }

    /// The machine of a session that is over.
    pub(crate) fn last(&self) -> Option<&M>
        ensures { option_map (λ machine. machine.now) result ≡ last_in self.now }
    {
        match self.end {
            Some(End::Over) => Some(&self.machine),
            _ => None,
        }
    }

    /// The machine of a session that is over.
    pub(crate) fn into_last(self) -> Option<M>
        ensures { result ≡ last_in self }
    {
        let Session { machine, end, .. } = self;
        match end {
            Some(End::Over) => Some(machine),
            _ => None,
        }
    }
}

impl Session<TerminalState> {
    /// Presses a key, or strikes, and adds the bytes that this sends.
    pub(crate) fn press<K: Keystroke>(
        &mut self,
        alloc: Global,
        key: &K,
        due: &mut Vec<u8>,
    ) -> Result<Pressed, RunFault>
        ensures { Adds due.old.items due.new.items (λ given.
            Presses self.old (K.strike key.now) result given self.new) }
    {
        match self.end {
            Some(End::Over) => return Ok(Pressed::Ignored),
            Some(End::Failed(why)) => return Err(why),
            None => {}
        }
        let pressed = press_key(alloc, &mut self.machine, &mut self.made, due, key);
        if let Err(why) = pressed {
            self.end = Some(End::Failed(why));
        }
        pressed
    }
}

/// Presses a key, or strikes, and adds what this sends.
fn press_key<K: Keystroke>(
    alloc: Global,
    state: &mut TerminalState,
    made: &mut Vec<u8>,
    due: &mut Vec<u8>,
    key: &K,
) -> Result<Pressed, RunFault>
    ensures { Adds due.old.items due.new.items (λ given.
        GivesKey state.old (K.strike key.now) result given state.new) }
{
    made.clear();
    let answer = state.work(alloc, made, key)?;
    if matches!(answer, Pressed::Sent) {
        due.extend_from_slice(made)?;
    }
    Ok(answer)
}
