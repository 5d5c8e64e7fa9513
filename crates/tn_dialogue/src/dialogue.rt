//! A host's session of several screens.

ghost use Rattle.std.specs.Prelude.{◌≡◌, ◌≤◌, ◌++◌, vec_len, IfOk, IfErr, is_ok, if◌then◌else◌, map, slice_get};
ghost use Rattle.tn_session.specs.HostTalk.{NotMade};
ghost use Rattle.tn_session.specs.Talk.{Adds, Takes};
ghost use Rattle.tn_dialogue.specs.Answers.{answered_view};
ghost use Rattle.tn_dialogue.specs.Dialogue.{dialogue_act};
ghost use Rattle.tn_dialogue.specs.DialogueTalk.{first_said, answers_in, fault_in, is_done, begun, IsFit, IsNotMade};

use crate::machine::Machine;
use crate::screen::{Answered, Screen};
use crate::session::take_piece;
use crate::turn::Turn;
use std::alloc::{AllocError, Global};
use std::marker::Model;
use tn_cores::{HostCore, Out, SessionFault};
use tn_session::{Progress, RunFault};
use tn_wire::Deframer;

/// Why a session takes no more.
#[derive(Clone, Copy)]
pub(crate) enum End {
    /// A key led to the end, or an event was at fault.
    Over,
    /// It failed.
    Failed(RunFault),
}

/// A host's session of several screens: bytes of the terminal go in, in pieces of any length, and the bytes that are due to it come
/// out. It shows a screen, reads the answer to it, and goes where the key leads.
///
/// Contracts see how it stands by the log of what it was given: that it waits for more, is over, or failed.
#[derive(Drop)]
pub struct DialogueSession<'a> {
    deframer: Deframer,
    machine: Machine<'a>,
    /// What the last event made due.
    made: Vec<u8>,
    end: Option<End>,
}

impl<'a> Model for DialogueSession<'a> {
    ghost use Rattle.tn_session.specs.Talk.{Talk};
    ghost use Rattle.tn_dialogue.specs.Dialogue.{Running};
    ghost use Rattle.tn_dialogue.specs.SessionView.{talk_of, IsListening};

    ghost Value = { Talk Running };

    ghost view = { λ s. talk_of s.end s.machine s.deframer.content };

    ghost invariant = { λ s. IsListening s.end s.deframer };
}

impl<'a> DialogueSession<'a> {
    /// A session at its beginning, that asks for TN3270E with RESPONSES, and begins with the screen of this index. The sizes of
    /// the terminal are those of that screen's layout.
    ///
    /// # Errors
    ///
    /// `NoDevice` where no model has these sizes, or there is no such screen; else `OutOfMemory`.
    pub fn new(
        alloc: Global,
        screens: &'a [Screen],
        first: usize,
    ) -> Result<DialogueSession<'a>, RunFault>
        ensures made { IfOk result (λ session. session ≡ begun screens.now first) }
        ensures fit { IfOk result (λ session. IsFit (slice_get screens.now first)) }
        ensures not_made { IfErr result (λ why. IsNotMade why (slice_get screens.now first)) }
    {
        let Some(screen) = screens.get(first) else {
            return Err(RunFault::Session(SessionFault::NoDevice));
        };
        let core = match HostCore::new(&screen.layout, true, true) {
            Ok(core) => core,
            Err(why) => return Err(RunFault::Session(why)),
        };
        Ok(DialogueSession {
            deframer: Deframer::new(alloc)?,
            machine: Machine::new(alloc, screens, first, core),
            made: Vec::new(alloc),
            end: None,
        })
    }

    /// Adds what a host says first. It is called once, before anything is taken. Where memory was refused nothing is added.
    pub fn begin(&self, due: &mut Vec<u8>) -> Result<(), AllocError>
        ensures { due.new.items ≡ (if is_ok result then due.old.items ++ first_said self.now
            else due.old.items) }
    {
        if self.end.is_some() {
            return Ok(());
        }
        let mut out = Out::new();
        self.machine.begin(&mut out);
        due.extend_from_slice(&out)
    }

    /// Takes a piece of what the terminal sent, of any length, and adds the bytes that are due after it. A session that is over
    /// takes nothing more.
    ///
    /// # Errors
    ///
    /// A fault of the stream, or `OutOfMemory` where a request for memory was refused. What was due before it is added. It is the
    /// session's last word. A fault of an event, as of an answer or of its fields, is none: the session is over, and
    /// [`fault`](DialogueSession::fault) tells it.
    pub fn take(
        &mut self,
        alloc: Global,
        piece: &[u8],
        due: &mut Vec<u8>,
    ) -> Result<Progress, RunFault>
        ensures took { Adds due.old.items due.new.items (λ given.
            Takes dialogue_act self.old piece.now result given self.new) }
        ensures grows { vec_len due.old ≤ vec_len due.new }
    {
        match self.end {
            Some(End::Over) => return Ok(Progress::Done { taken: 0 }),
            Some(End::Failed(why)) => return Err(why),
            None => {}
        }
        let mut rest = piece;
        let (deframer, machine) = (&mut self.deframer, &mut self.machine);
        match take_piece(alloc, deframer, machine, &mut self.made, due, &mut rest) {
            Ok(Turn::Goes) => Ok(Progress::More),
            Ok(Turn::Finishes) => {
                self.end = Some(End::Over);
                let taken = piece.len() - rest.len();
                Ok(Progress::Done { taken })
            }
            Err(why) => {
                self.end = Some(End::Failed(why));
                Err(why)
            }
        }
    }

    /// The fault that ended it.
    pub fn fault(&self) -> Option<RunFault>
        ensures { result ≡ fault_in self.now }
    {
        match self.end {
            None => None,
            Some(End::Over) => self.machine.fault(),
            Some(End::Failed(why)) => Some(why),
        }
    }

    /// Whether a key led to its end.
    pub fn is_done(&self) -> bool
        ensures { result ≡ is_done self.now }
    {
        match self.end {
            Some(End::Over) => self.machine.fault().is_none(),
            _ => false,
        }
    }

    /// What was answered, each at its screen, in turn. It is lost where the stream was at fault, or memory was refused.
    pub fn into_answers(self, alloc: Global) -> Vec<Answered>
        ensures { map answered_view result.items ≡ answers_in self.entry }
    {
        let DialogueSession { machine, end, .. } = self;
        match end {
            Some(End::Failed(_)) => Vec::new(alloc),
            _ => machine.into_answers(),
        }
    }
}
