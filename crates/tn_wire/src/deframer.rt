//! The deframer: bytes in any pieces, events out.

ghost use Rattle.std.specs.Prelude.{◌≡◌, ◌≢◌, ◌<◌, ℕ, List, [], ◌++◌, length, None, Some, Ok, Err, IfOk};
ghost use Rattle.std.specs.Borrow.{sem};
ghost use Rattle.std.specs.Io.BufRead.{Rests};
ghost use Rattle.tn_wire.specs.contracts.deframer.Deframer.{the_row};
ghost use Rattle.tn_wire.specs.Calls.{Answers, events_in, step_events, IsOnlyAnswer};
ghost use Rattle.tn_wire.specs.Deframer.{Moves};
ghost use Rattle.tn_wire.specs.declared.event.WireFault.{WireFault};
ghost use Rattle.tn_wire.specs.Open.{found_result, found_events};

use crate::codes::RECORD_LIMIT;
use crate::event::{Event, Step, WireFault};
use crate::open_token::{Found, Open, Parameters};
use crate::run::take_event;
use arrayvec::ArrayVec;
use std::alloc::{AllocError, Global};
use std::marker::Model;

/// Cuts a Telnet stream into events, in whatever pieces it comes.
///
/// Its content, what callers' contracts see, is what is open of the stream as it was spelled: the data of the record
/// that has not ended, and the token that is not whole.
#[derive(Drop)]
pub struct Deframer {
    kept: Vec<u8>,
    parameters: Parameters,
    state: Open,
    fault: Option<WireFault>,
}

impl Model for Deframer {
    ghost use Rattle.std.specs.Prelude.{vec_capacity};
    ghost use Rattle.tn_wire.specs.Deframer.{Held};

    ghost Value = { Held };

    ghost use Rattle.tn_wire.specs.Open.{content_of, lent_of, HasRoom};

    ghost view = { λ s. record {
      content = content_of s.kept.items s.parameters.items s.state;
      fault = s.fault;
      lent = lent_of s.kept.items s.parameters.items s.state;
    } };

    ghost invariant = { λ s. HasRoom s.kept.items (vec_capacity s.kept) s.parameters.items };
}

impl Deframer {
    /// A deframer at the beginning of a stream. It takes memory for a whole record, 32,768 bytes, and no later call
    /// takes any.
    pub fn new(alloc: Global) -> Result<Deframer, AllocError>
        ensures content { IfOk result (λ deframer. deframer.content ≡ []) }
        ensures fault { IfOk result (λ deframer. deframer.fault ≡ None) }
    {
        Ok(Deframer {
            kept: Vec::with_capacity(alloc, RECORD_LIMIT)?,
            parameters: ArrayVec::new(),
            state: Open::Nothing,
            fault: None,
        })
    }

    /// Takes bytes from the front of the input up to an event, a fault or the input's end.
    ///
    /// The record or the subnegotiation of an event is lent until the next call. With [`Step::NeedMore`] the input is
    /// used up. A call that meets a fault has taken the bytes up to and including the one at fault, the second of a
    /// doubled IAC; every call after it answers the same fault and takes nothing.
    pub fn next(&mut self, input: &mut &[u8]) -> Result<Step<'_>, WireFault>
        // The bytes taken and what was open before them tell the answer, and leave something open.
        ensures answer { self.old.fault ≡ None → (taken : List ℕ) × (left : List ℕ)
            × (input.old.now ≡ taken ++ input.new.now) × Answers self.old.content taken (events_in result) left }
        ensures used_up { result ≡ Ok Step.NeedMore → input.new.now ≡ [] }
        ensures shorter { IfOk result (λ step. step ≢ Step.NeedMore
            → length input.new.now < length input.old.now) }
        // No other answer is right.
        ensures only { self.old.fault ≡ None
            → IsOnlyAnswer self.old.content input.old.now (events_in result) input.new.now }
        ensures faulted { (fault : WireFault) → self.old.fault ≡ Some fault
            → (result ≡ Err fault) × (input.new.now ≡ input.old.now) }
        // The same of what is open once the event is no longer borrowed, and whether a fault was met.
        ensures* after { sem 𝓛 (Rests the_row self.entry (λ new.
            Moves self.old input.old.now (events_in result) new input.new.now)) }
    {
        let found = self.advance(input)?;
        Ok(self.step(found))
    }

    /// Takes bytes as [`next`](Deframer::next) does, and lends nothing.
    fn advance(&mut self, input: &mut &[u8]) -> Result<Option<Found>, WireFault>
        ensures { Moves self.old input.old.now (found_result result self.new.lent)
            self.new input.new.now }
    {
        if let Some(fault) = self.fault {
            return Err(fault);
        }
        let found = take_event(&mut self.kept, &mut self.parameters, &mut self.state, input);
        if let Err(fault) = found {
            self.fault = Some(fault);
        }
        found
    }

    /// The bytes that the event found last lends.
    fn lent(&self) -> &[u8]
        ensures { result.now ≡ self.now.lent }
    {
        match self.state {
            Open::Told => self.kept.as_slice(),
            _ => self.parameters.as_slice(),
        }
    }

    /// What was found, with the bytes that it lends.
    fn step(&self, found: Option<Found>) -> Step<'_>
        ensures { step_events result ≡ found_events found self.now.lent }
    {
        match found {
            None => Step::NeedMore,
            Some(Found::Record) => Step::Event(Event::Record(self.lent())),
            Some(Found::Verb(verb, option)) => Step::Event(Event::Verb(verb, option)),
            Some(Found::Sub(option)) => Step::Event(Event::Sub(option, self.lent())),
            Some(Found::Passed(byte)) => Step::Event(Event::Passed(byte)),
        }
    }
}
