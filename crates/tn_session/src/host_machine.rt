//! A host's run over a line: what each event does.

ghost use Rattle.std.specs.Prelude.{◌≡◌, [], ◌++◌, map, OnOk};
ghost use Rattle.tn_session.specs.HostLog.{records_due, wanted};

use crate::fault::RunFault;
use crate::machine::Machine;
use crate::outcome::{HostOutcome, owned_fields};
use crate::sent::{next_sequence, push_data};
use crate::turn::Turn;
use ds_inbound::Inbound;
use scr_check::bind;
use scr_layout::Layout;
use std::alloc::{AllocError, Global};
use std::marker::Model;
use tn_cores::{Agreed, HostCore, Out, SessionFault, Told};
use tn_wire::{DataType, Event, Header};

/// A host's run: the session, and which records wait for a RESPONSE.
#[derive(Drop)]
pub(crate) struct HostMachine<'a> {
    layout: &'a Layout,
    records: &'a [&'a [u8]],
    core: HostCore,
    /// How many records no RESPONSE came for.
    unanswered: usize,
    /// The sequence number of the first of them.
    sequence: u16,
    outcome: Option<HostOutcome>,
}

impl<'a> Model for HostMachine<'a> {
    ghost use Rattle.std.specs.Prelude.{map};
    ghost use Rattle.tn_session.specs.HostLog.{HostRunning};
    ghost use Rattle.tn_session.specs.HostView.{some_outcome};

    ghost Value = { HostRunning };

    ghost view = { λ h. record {
      layout = h.layout.now;
      records = map (λ bytes. bytes.now) h.records.now;
      core = h.core;
      unanswered = h.unanswered;
      sequence = h.sequence;
      outcome = some_outcome h.outcome;
    } };
}

/// Adds the records, in turn, as the session sends them.
fn push_records(due: &mut Vec<u8>, agreed: Agreed, records: &[&[u8]]) -> Result<(), AllocError>
    ensures { OnOk result (due.new.items
        ≡ due.old.items ++ records_due agreed 0 (map (λ bytes. bytes.now) records.now)) }
{
    let response = if agreed.responses { 2 } else { 0 };
    let mut sequence = 0;
    for bytes in records {
        push_data(due, agreed, response, sequence, bytes)?;
        sequence = next_sequence(sequence);
    }
    Ok(())
}

impl<'a> HostMachine<'a> {
    ghost use Rattle.std.specs.Prelude.{length, None, option_map};
    ghost use Rattle.tn_cores.specs.Host.{host_agreed, opening};
    ghost use Rattle.tn_cores.specs.Replies.{bytes_of};
    ghost use Rattle.tn_session.specs.HostLog.{HostRunning, taken_response, taken_answer, taken_typed, taken_record, is_awaited};
    ghost use Rattle.tn_session.specs.Ran.{Does};
    ghost use Rattle.tn_session.specs.HostView.{outcome_view, some_outcome};

    /// A run at its beginning.
    pub(crate) fn new(
        layout: &'a Layout,
        records: &'a [&'a [u8]],
        core: HostCore,
    ) -> HostMachine<'a>
        ensures { result ≡ record {
          layout = layout.now;
          records = map (λ bytes. bytes.now) records.now;
          core = core;
          unanswered = length records.now;
          sequence = 0;
          outcome = None;
        } }
    {
        HostMachine {
            layout,
            records,
            core,
            unanswered: records.len(),
            sequence: 0,
            outcome: None,
        }
    }

    /// What a host says first.
    pub(crate) fn begin(&self, out: &mut Out)
        ensures { out.new.items ≡ bytes_of (opening self.now.core) }
    {
        self.core.begin(out);
    }

    /// What came of the session, once an answer finished it.
    pub(crate) fn outcome(&self) -> Option<&HostOutcome>
        ensures { option_map (λ outcome. outcome_view outcome.now) result ≡ self.now.outcome }
    {
        self.outcome.as_ref()
    }

    /// What came of the session, once an answer finished it.
    pub(crate) fn into_outcome(self) -> Option<HostOutcome>
        ensures { some_outcome result ≡ self.entry.outcome }
    {
        let HostMachine { outcome, .. } = self;
        outcome
    }

    /// Whether a RESPONSE of this number answers the first record that none came for.
    fn is_awaited(&self, agreed: Agreed, sequence: u16) -> bool
        ensures { result ≡ is_awaited agreed self.now sequence }
    {
        agreed.responses && self.unanswered > 0 && sequence == self.sequence
    }

    /// Takes a RESPONSE.
    fn take_response(
        &mut self,
        agreed: Agreed,
        header: Header,
        bytes: &[u8],
    ) -> Result<Turn, RunFault>
        ensures { Does (taken_response agreed self.old header bytes.now) result self.new [] }
    {
        if !self.is_awaited(agreed, header.seq) {
            return Err(RunFault::Session(SessionFault::BadResponse));
        }
        let [code] = bytes else {
            return Err(RunFault::Session(SessionFault::BadResponse));
        };
        if header.response == 0 && *code == 0 {
            self.unanswered -= 1;
            self.sequence = next_sequence(self.sequence);
            return Ok(Turn::Goes);
        }
        if header.response == 1 && *code <= 3 {
            return Err(RunFault::Session(SessionFault::TerminalRefused(*code)));
        }
        Err(RunFault::Session(SessionFault::BadResponse))
    }

    /// Takes the terminal's answer, with which the run is over.
    fn take_answer(&mut self, alloc: Global, agreed: Agreed, bytes: &[u8]) -> Result<Turn, RunFault>
        ensures { Does (taken_answer agreed self.old bytes.now) result self.new [] }
    {
        let mode = self.layout.geometry().mode();
        let answer = match Inbound::read(mode, self.layout.size().cells(), bytes) {
            Ok(answer) => answer,
            Err(refused) => return Err(RunFault::Inbound(refused)),
        };
        let bound = bind(alloc, self.layout, &answer)?;
        let fields = owned_fields(alloc, bound.as_slice())?;
        self.outcome = Some(HostOutcome {
            agreed,
            aid: answer.aid(),
            fields,
        });
        Ok(Turn::Finishes)
    }

    /// Takes a record of an enhanced session, by its type.
    fn take_typed(
        &mut self,
        alloc: Global,
        agreed: Agreed,
        header: Header,
        bytes: &[u8],
    ) -> Result<Turn, RunFault>
        ensures { Does (taken_typed agreed self.old header bytes.now header.data_type) result
            self.new [] }
    {
        match header.data_type {
            DataType::Data3270 => self.take_answer(alloc, agreed, bytes),
            DataType::Response => self.take_response(agreed, header, bytes),
            _ => Ok(Turn::Goes),
        }
    }

    /// Takes a record.
    fn take_record(&mut self, alloc: Global, bytes: &[u8]) -> Result<Turn, RunFault>
        ensures { Does (taken_record self.old (host_agreed self.old.core) bytes.now) result
            self.new [] }
    {
        let Some(agreed) = self.core.agreed() else {
            return Ok(Turn::Goes);
        };
        if !agreed.enhanced {
            return self.take_answer(alloc, agreed, bytes);
        }
        match Header::read(bytes) {
            Ok((header, rest)) => self.take_typed(alloc, agreed, header, rest),
            Err(fault) => Err(RunFault::Header(fault)),
        }
    }
}

impl<'a> Machine for HostMachine<'a> {
    ghost use Rattle.tn_session.specs.HostLog.{host_act};

    ghost act = { host_act };

    fn take(
        &mut self,
        alloc: Global,
        event: &Event<'_>,
        due: &mut Vec<u8>,
    ) -> Result<Turn, RunFault> {
        let mut out = Out::new();
        let told = match self.core.step(event, &mut out) {
            Ok(told) => told,
            Err(why) => return Err(RunFault::Session(why)),
        };
        if let Event::Record(bytes) = event {
            return self.take_record(alloc, bytes);
        }
        due.extend_from_slice(&out)?;
        if let Told::Ready(agreed) = told {
            push_records(due, agreed, self.records)?;
        }
        Ok(Turn::Goes)
    }
}
