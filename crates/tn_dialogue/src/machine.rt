//! What a host of several screens does at each event.

ghost use Rattle.std.specs.Prelude.{◌≡◌, [], ◌∷◌, ◌++◌, None, IfOk, IfErr, OnOk};
ghost use Rattle.tn_dialogue.specs.Dialogue.{fields_fault};

use crate::screen::{Answered, Next, Reading, Screen};
use crate::sent::push_records;
use crate::turn::Turn;
use ds_inbound::Inbound;
use scr_check::{BindError, BindFault, bind};
use std::alloc::{AllocError, Global};
use std::marker::Model;
use tn_cores::{Agreed, HostCore, Out, SessionFault, Told};
use tn_session::{RunFault, next_sequence};
use tn_wire::{DataType, Event, Header};

/// A copy of bytes.
fn owned(alloc: Global, bytes: &[u8]) -> Result<Vec<u8>, AllocError>
    ensures { IfOk result (λ copy. copy.items ≡ bytes.now) }
{
    let mut copy = Vec::with_capacity(alloc, bytes.len())?;
    copy.extend_from_slice(bytes)?;
    Ok(copy)
}

/// Why the fields of an answer aren't the layout's, where that is asked.
fn fields_fault(
    alloc: Global,
    screen: &Screen,
    answer: &Inbound<'_>,
) -> Result<Option<BindFault>, AllocError>
    ensures fault { IfOk result (λ found.
        found ≡ fields_fault screen.now.reading screen.now answer.now) }
    ensures refused { IfErr result (λ e.
        fields_fault screen.now.reading screen.now answer.now ≡ None) }
{
    match screen.reading {
        Reading::Any => Ok(None),
        Reading::Fields => match bind(alloc, &screen.layout, answer) {
            Ok(_) => Ok(None),
            Err(BindError::Refused(fault)) => Ok(Some(fault)),
            Err(BindError::OutOfMemory) => Err(AllocError),
        },
    }
}

/// A session between two events.
#[derive(Drop)]
pub(crate) struct Machine<'a> {
    screens: &'a [Screen],
    core: HostCore,
    /// The screen that is shown.
    shown: usize,
    /// The sequence number of the first record that no RESPONSE came for.
    awaited: u16,
    /// The sequence number of the next record.
    sequence: u16,
    answers: Vec<Answered>,
    /// The fault that ended it.
    fault: Option<RunFault>,
}

impl<'a> Model for Machine<'a> {
    ghost use Rattle.std.specs.Prelude.{map};
    ghost use Rattle.tn_dialogue.specs.Dialogue.{Running};
    ghost use Rattle.tn_dialogue.specs.Answers.{answered_view};

    ghost Value = { Running };

    ghost view = { λ m. record {
      screens = m.screens.now;
      core = m.core;
      shown = m.shown;
      awaited = m.awaited;
      sequence = m.sequence;
      answers = map answered_view m.answers.items;
      fault = m.fault;
    } };
}

impl<'a> Machine<'a> {
    ghost use Rattle.std.specs.Prelude.{map, Ok};
    ghost use Rattle.tn_cores.specs.Host.{host_agreed, opening};
    ghost use Rattle.tn_cores.specs.Replies.{bytes_of};
    ghost use Rattle.tn_wire.specs.Calls.{told_of};
    ghost use Rattle.tn_dialogue.specs.Answers.{answered_view};
    ghost use Rattle.tn_dialogue.specs.Dialogue.{Running, stopped, screen_due, showing, with_answer, led, taken_response, taken_answer, taken_typed, taken_record, is_awaited, meant, dialogue_act};
    ghost use Rattle.tn_dialogue.specs.DialogueTalk.{Does};

    /// A session at its beginning.
    pub(crate) fn new(
        alloc: Global,
        screens: &'a [Screen],
        first: usize,
        core: HostCore,
    ) -> Machine<'a>
        ensures { result ≡ record {
          screens = screens.now;
          core = core;
          shown = first;
          awaited = 0;
          sequence = 0;
          answers = [];
          fault = None;
        } }
    {
        Machine {
            screens,
            core,
            shown: first,
            awaited: 0,
            sequence: 0,
            answers: Vec::new(alloc),
            fault: None,
        }
    }

    /// What a host says first.
    pub(crate) fn begin(&self, out: &mut Out)
        ensures { out.new.items ≡ bytes_of (opening self.now.core) }
    {
        self.core.begin(out);
    }

    /// The fault that ended it.
    pub(crate) fn fault(&self) -> Option<RunFault>
        ensures { result ≡ self.now.fault }
    {
        self.fault
    }

    /// What was answered.
    pub(crate) fn into_answers(self) -> Vec<Answered>
        ensures { map answered_view result.items ≡ self.entry.answers }
    {
        let Machine { answers, .. } = self;
        answers
    }

    /// The records of a screen go out.
    fn show(&mut self, agreed: Agreed, screen: usize, due: &mut Vec<u8>) -> Result<(), AllocError>
        ensures due { OnOk result
            (due.new.items ≡ due.old.items ++ screen_due agreed self.old screen) }
        ensures shown { OnOk result (self.new ≡ showing self.old screen) }
    {
        let records = match self.screens.get(screen) {
            Some(found) => found.records.as_slice(),
            None => &[],
        };
        self.sequence = push_records(due, agreed, self.sequence, records)?;
        self.shown = screen;
        Ok(())
    }

    /// Whether a RESPONSE of this number answers the first record that none came for.
    fn is_awaited(&self, agreed: Agreed, sequence: u16) -> bool
        ensures { result ≡ is_awaited agreed self.now sequence }
    {
        agreed.responses && self.awaited != self.sequence && sequence == self.awaited
    }

    /// A fault ends the session.
    fn stop(&mut self, why: RunFault) -> Turn
        ensures { Does (stopped self.old why) (Ok result) self.new [] }
    {
        self.fault = Some(why);
        Turn::Finishes
    }

    /// Takes a RESPONSE.
    fn take_response(&mut self, agreed: Agreed, header: Header, bytes: &[u8]) -> Turn
        ensures { Does (taken_response agreed self.old header bytes.now) (Ok result) self.new [] }
    {
        if !self.is_awaited(agreed, header.seq) {
            return self.stop(RunFault::Session(SessionFault::BadResponse));
        }
        let [code] = bytes else {
            return self.stop(RunFault::Session(SessionFault::BadResponse));
        };
        if header.response == 0 && *code == 0 {
            self.awaited = next_sequence(self.awaited);
            return Turn::Goes;
        }
        if header.response == 1 && *code <= 3 {
            return self.stop(RunFault::Session(SessionFault::TerminalRefused(*code)));
        }
        self.stop(RunFault::Session(SessionFault::BadResponse))
    }

    /// Keeps an answer.
    fn keep(&mut self, alloc: Global, bytes: &[u8]) -> Result<(), AllocError>
        ensures { OnOk result (self.new ≡ with_answer self.old bytes.now) }
    {
        let bytes = owned(alloc, bytes)?;
        self.answers.push(Answered {
            screen: self.shown,
            bytes,
        })?;
        Ok(())
    }

    /// Goes where a key leads.
    fn lead(&mut self, agreed: Agreed, next: Next, due: &mut Vec<u8>) -> Result<Turn, RunFault>
        requires { due.old.items ≡ [] }
        ensures { Does (led agreed self.old next) result self.new due.new.items }
    {
        match next {
            Next::Shows(screen) => {
                self.show(agreed, screen, due)?;
                Ok(Turn::Goes)
            }
            Next::Ends => Ok(Turn::Finishes),
        }
    }

    /// Keeps an answer, and goes where its key leads.
    fn accept(
        &mut self,
        alloc: Global,
        agreed: Agreed,
        bytes: &[u8],
        next: Next,
        due: &mut Vec<u8>,
    ) -> Result<Turn, RunFault>
        requires { due.old.items ≡ [] }
        ensures { Does (led agreed (with_answer self.old bytes.now) next) result self.new
            due.new.items }
    {
        self.keep(alloc, bytes)?;
        self.lead(agreed, next, due)
    }

    /// Takes the terminal's answer.
    fn take_answer(
        &mut self,
        alloc: Global,
        agreed: Agreed,
        bytes: &[u8],
        due: &mut Vec<u8>,
    ) -> Result<Turn, RunFault>
        requires { due.old.items ≡ [] }
        ensures { Does (taken_answer agreed self.old bytes.now) result self.new due.new.items }
    {
        let Some(screen) = self.screens.get(self.shown) else {
            return Ok(Turn::Finishes);
        };
        let mode = screen.layout.geometry().mode();
        let answer = match Inbound::read(mode, screen.layout.size().cells(), bytes) {
            Ok(answer) => answer,
            Err(refused) => return Ok(self.stop(RunFault::Inbound(refused))),
        };
        if let Some(fault) = fields_fault(alloc, screen, &answer)? {
            return Ok(self.stop(RunFault::Bind(fault)));
        }
        let next = screen.next(answer.aid());
        self.accept(alloc, agreed, bytes, next, due)
    }

    /// Takes a record of an enhanced session, by its type.
    fn take_typed(
        &mut self,
        alloc: Global,
        agreed: Agreed,
        header: Header,
        bytes: &[u8],
        due: &mut Vec<u8>,
    ) -> Result<Turn, RunFault>
        requires { due.old.items ≡ [] }
        ensures { Does (taken_typed agreed self.old header bytes.now header.data_type) result
            self.new due.new.items }
    {
        match header.data_type {
            DataType::Data3270 => self.take_answer(alloc, agreed, bytes, due),
            DataType::Response => Ok(self.take_response(agreed, header, bytes)),
            _ => Ok(Turn::Goes),
        }
    }

    /// Takes a record.
    fn take_record(
        &mut self,
        alloc: Global,
        bytes: &[u8],
        due: &mut Vec<u8>,
    ) -> Result<Turn, RunFault>
        requires { due.old.items ≡ [] }
        ensures { Does (taken_record self.old (host_agreed self.old.core) bytes.now) result
            self.new due.new.items }
    {
        let Some(agreed) = self.core.agreed() else {
            return Ok(Turn::Goes);
        };
        if !agreed.enhanced {
            return self.take_answer(alloc, agreed, bytes, due);
        }
        match Header::read(bytes) {
            Ok((header, rest)) => self.take_typed(alloc, agreed, header, rest, due),
            Err(fault) => Ok(self.stop(RunFault::Header(fault))),
        }
    }

    /// Does what the core's word asks for, once its reply is due.
    fn mean(&mut self, told: Told, due: &mut Vec<u8>) -> Result<Turn, RunFault>
        ensures { Does (meant self.old due.old.items told) result self.new due.new.items }
    {
        if let Told::Ready(agreed) = told {
            self.show(agreed, self.shown, due)?;
        }
        Ok(Turn::Goes)
    }

    /// Takes an event, with the bytes that are then due in `due`, which held none.
    pub(crate) fn take(
        &mut self,
        alloc: Global,
        event: &Event<'_>,
        due: &mut Vec<u8>,
    ) -> Result<Turn, RunFault>
        requires empty { due.old.items ≡ [] }
        ensures { Does (dialogue_act self.old (told_of event.now)) result self.new due.new.items }
    {
        let mut out = Out::new();
        let told = match self.core.step(event, &mut out) {
            Ok(told) => told,
            Err(why) => return Ok(self.stop(RunFault::Session(why))),
        };
        if let Event::Record(bytes) = event {
            return self.take_record(alloc, bytes, due);
        }
        due.extend_from_slice(&out)?;
        self.mean(told, due)
    }
}
