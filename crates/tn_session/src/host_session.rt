//! A host's session without a line.

ghost use Rattle.std.specs.Prelude.{◌≡◌, ◌+◌, ◌≤◌, ◌++◌, map, None, IfOk, IfErr, option_map, is_ok, if◌then◌else◌, vec_len};
ghost use Rattle.tn_session.specs.HostLog.{host_act};
ghost use Rattle.tn_session.specs.HostTalk.{IsMade, NotMade, first_said, outcome_in, HasCome};
ghost use Rattle.tn_session.specs.HostView.{outcome_view, some_outcome};
ghost use Rattle.tn_session.specs.RanSession.{IsFresh, RanSession};
ghost use Rattle.tn_session.specs.Talk.{Adds, Takes};

use crate::fault::RunFault;
use crate::host_machine::HostMachine;
use crate::outcome::HostOutcome;
use crate::progress::Progress;
use crate::run::run_over;
use crate::session::Session;
use crate::turn::Finish;
use crate::wire::Wire;
use scr_layout::Layout;
use std::alloc::{AllocError, Global};
use std::io::{Read, Write};
use std::marker::Model;
use tn_cores::{HostCore, Out};

/// A host's session: bytes of the terminal go in, in pieces of any length, and the bytes that are due to it come out. It reads
/// and writes nothing, so that one thread serves as many terminals as it likes.
///
/// Contracts see how it stands by the log of what it was given: that it waits for more, is over, or failed.
#[derive(Drop)]
pub struct HostSession<'a> {
    session: Session<HostMachine<'a>>,
}

impl<'a> Model for HostSession<'a> {
    ghost use Rattle.tn_session.specs.HostLog.{HostRunning};
    ghost use Rattle.tn_session.specs.Talk.{Talk};

    ghost Value = { Talk HostRunning };

    ghost view = { λ h. h.session };
}

impl<'a> HostSession<'a> {
    /// A session at its beginning, that sends these records once it is ready and reads the first answer by the layout.
    /// `enhanced` says whether it asks for TN3270E, `responses` whether it takes RESPONSES there.
    ///
    /// # Errors
    ///
    /// `NoDevice` where no model has the layout's sizes, else `OutOfMemory` where room for a record, 32,768 bytes, was refused.
    pub fn new(
        alloc: Global,
        layout: &'a Layout,
        records: &'a [&'a [u8]],
        enhanced: bool,
        responses: bool,
    ) -> Result<HostSession<'a>, RunFault>
        ensures made { IfOk result (IsMade layout.now (map (λ bytes. bytes.now) records.now)
            enhanced responses) }
        ensures not_made { IfErr result (NotMade layout.now) }
    {
        let core = match HostCore::new(layout, enhanced, responses) {
            Ok(core) => core,
            Err(why) => return Err(RunFault::Session(why)),
        };
        let session = Session::new(alloc, HostMachine::new(layout, records, core))?;
        Ok(HostSession { session })
    }

    /// Adds what a host says first: DO TN3270E, or DO TERMINAL-TYPE for a classic session. It is called once, before anything
    /// is taken. Where memory was refused nothing is added.
    pub fn begin(&self, due: &mut Vec<u8>) -> Result<(), AllocError>
        ensures { due.new.items ≡ (if is_ok result then due.old.items ++ first_said self.now
            else due.old.items) }
    {
        let Some(machine) = self.session.listening() else {
            return Ok(());
        };
        let mut out = Out::new();
        machine.begin(&mut out);
        due.extend_from_slice(&out)
    }

    /// Takes a piece of what the terminal sent, of any length, and adds the bytes that are due after it.
    ///
    /// The session is over with the first answer, which [`outcome`](HostSession::outcome) tells; what is left of the piece
    /// was not looked at. A session that is over takes nothing more.
    ///
    /// # Errors
    ///
    /// A fault of the bytes, of the session, of the answer or of its fields, in the stream's order, or `OutOfMemory` where a
    /// request for memory was refused. What was due before it is added. It is the session's last word: every later call
    /// answers it again, takes nothing and adds nothing.
    pub fn take(
        &mut self,
        alloc: Global,
        bytes: &[u8],
        due: &mut Vec<u8>,
    ) -> Result<Progress, RunFault>
        // What is added is due by the log of the bytes, and so the session then stands.
        ensures took { Adds due.old.items due.new.items (λ given.
            Takes host_act self.old bytes.now result given self.new) }
        ensures grows { vec_len due.old ≤ vec_len due.new }
        // What came of it is there once it is over.
        ensures outcome { HasCome self.old → HasCome self.new }
    {
        self.session.take(alloc, bytes, due)
    }

    /// What came of the session, once it is over.
    pub fn outcome(&self) -> Option<&HostOutcome>
        ensures { option_map (λ outcome. outcome_view outcome.now) result ≡ outcome_in self.now }
    {
        match self.session.last() {
            Some(machine) => machine.outcome(),
            None => None,
        }
    }

    /// What came of the session, once it is over.
    pub fn into_outcome(self) -> Option<HostOutcome>
        ensures { some_outcome result ≡ outcome_in self.entry }
    {
        match self.session.into_last() {
            Some(machine) => machine.into_outcome(),
            None => None,
        }
    }

    /// Runs the session over a line, after an opening.
    pub(crate) fn run<L: Read + Write>(
        &mut self,
        alloc: Global,
        wire: &mut Wire<L>,
        opening: &[u8],
    ) -> Result<Finish, RunFault>
        requires goes { wire.old.stop ≡ None }
        requires counts { wire.old.reads + 1000000 ≤ u64.MAX }
        requires first { IsFresh self.old }
        ensures { RanSession host_act opening.now self.old wire.old result self.new wire.new }
    {
        run_over(alloc, wire, &mut self.session, opening)
    }
}
