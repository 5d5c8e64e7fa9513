//! A terminal that somebody works, without a line.

ghost use Rattle.std.specs.Prelude.{◌≡◌, ◌≤◌, ◌-◌, map, is_some, IfOk, option_map, vec_len};
ghost use Rattle.tn_session.specs.declared.progress.Progress.TheVariants.{More};
ghost use Rattle.tn_session.specs.KeptView.{kept_view};
ghost use Rattle.tn_session.specs.Strikes.{by_key, by_stroke};
ghost use Rattle.tn_session.specs.Talk.{Adds};
ghost use Rattle.tn_session.specs.TerminalTalk.{Presses, new_worked, tolerant_worked, counts_of, since, OfStanding, agreed_in, lu_name_in, records_kept};
ghost use Rattle.tn_session.specs.TerminalTalk.{heard_act, TerminalTakes, Tolerates, TakesByte, tolerates, takes_input, takes_input_in};

use crate::arrived::Arrived;
use crate::fault::RunFault;
use crate::kept::{KeptRecord, KeptRecords};
use crate::keystroke::Keystroke;
use crate::pressed::Pressed;
use crate::progress::Progress;
use crate::session::Session;
use crate::terminal_state::TerminalState;
use ds_keys::Key;
use ds_screen::{Lock, PlaneCells, Screen};
use ds_strokes::Stroke;
use std::alloc::{AllocError, Global};
use std::marker::Model;
use tn_cores::{Agreed, Device};
use tn_wire::{EOR, IAC};

/// A terminal's session, worked by whoever holds it: bytes of the host go in, in pieces of any length, keys are pressed, and
/// the bytes that are due to the host come out. It reads and writes nothing, and presses no key by itself.
#[derive(Drop)]
pub struct TerminalSession {
    session: Session<TerminalState>,
    told: Arrived,
}

impl Model for TerminalSession {
    ghost use Rattle.tn_session.specs.TerminalTalk.{Worked, IsNotOver};

    ghost Value = { Worked };

    ghost view = { λ t. record { talk = t.session; told = t.told } };

    ghost invariant = { λ t. IsNotOver t.session };
}

/// How much was added to a count.
fn added(now: u64, before: u64) -> u64
    ensures { result ≡ now - before }
{
    if before < now { now - before } else { 0 }
}

/// No records yet.
const NOTHING: Arrived = Arrived {
    taken: 0,
    refused: 0,
    passed: 0,
    ignored: 0,
    answers: 0,
};

/// Whether a session that waits is of a tolerant terminal.
fn tolerates(session: &Session<TerminalState>) -> bool
    ensures { result ≡ tolerates session.now }
{
    match session.listening() {
        Some(state) => state.core.is_tolerant(),
        None => false,
    }
}

/// What a session agreed on, while records pass.
fn agreed(session: &Session<TerminalState>) -> Option<Agreed>
    ensures { result ≡ agreed_in session.now }
{
    match session.listening() {
        Some(state) => state.core.agreed(),
        None => None,
    }
}

/// Whether a screen takes input.
fn takes_input(screen: &Screen<PlaneCells>) -> bool
    ensures { result ≡ takes_input screen.now }
{
    let cursor = screen.cursor();
    !matches!(screen.lock(), Lock::Waiting) && cursor != 0 && screen.attr_before(cursor).is_some()
}

/// Takes a byte. Where records begin to pass by it, what is open of a record is ended, and so dropped.
fn take_byte(
    alloc: Global,
    session: &mut Session<TerminalState>,
    byte: u8,
    due: &mut Vec<u8>,
) -> Result<Progress, RunFault>
    ensures { Adds due.old.items due.new.items (λ given.
        TakesByte session.old byte result given session.new) }
{
    let passed = agreed(session).is_some();
    let told = session.take(alloc, &[byte], due);
    if passed || agreed(session).is_none() {
        return told;
    }
    session.take(alloc, &[IAC, EOR], due)
}

/// Takes bytes, each in turn.
fn take_bytes(
    alloc: Global,
    session: &mut Session<TerminalState>,
    bytes: &[u8],
    due: &mut Vec<u8>,
) -> Result<Progress, RunFault>
    ensures { Adds due.old.items due.new.items (λ given.
        Tolerates bytes.now session.old result given session.new) }
{
    let mut rest = bytes;
    'bytes: while let Some((byte, others)) = rest.split_first() {
        take_byte(alloc, session, *byte, due)?;
        rest = others;
    }
    Ok(Progress::More)
}

/// Takes bytes, as a terminal of its manner.
fn take_any(
    alloc: Global,
    session: &mut Session<TerminalState>,
    bytes: &[u8],
    due: &mut Vec<u8>,
) -> Result<Progress, RunFault>
    ensures { Adds due.old.items due.new.items (λ given.
        TerminalTakes session.old bytes.now result given session.new) }
{
    if tolerates(session) {
        take_bytes(alloc, session, bytes, due)
    } else {
        session.take(alloc, bytes, due)
    }
}

impl TerminalSession {
    /// A terminal of this device at the beginning of a session. `enhanced` says whether it takes TN3270E, `responses` whether
    /// it asks for RESPONSES there. Takes memory for two buffers of the device's larger size, and for a record.
    pub fn new(
        alloc: Global,
        device: Device,
        enhanced: bool,
        responses: bool,
    ) -> Result<TerminalSession, AllocError>
        ensures { IfOk result (λ session. session ≡ new_worked device enhanced responses) }
    {
        let state = TerminalState::new(alloc, device, enhanced, responses)?;
        let state = state.keeping(alloc);
        Ok(TerminalSession {
            session: Session::new(alloc, state)?,
            told: NOTHING,
        })
    }

    /// A tolerant terminal of this device at the beginning of a session, which gets through where the other ends with a fault
    /// of the session: it ignores and counts what it isn't prepared for. It is the device that the host grants, of a model
    /// from 2 to 5, whose screen is made anew where the model is another.
    pub fn tolerant(
        alloc: Global,
        device: Device,
        enhanced: bool,
        responses: bool,
    ) -> Result<TerminalSession, AllocError>
        ensures { IfOk result (λ session. session ≡ tolerant_worked device enhanced responses) }
    {
        let state = TerminalState::tolerant(alloc, device, enhanced, responses)?;
        Ok(TerminalSession {
            session: Session::new(alloc, state)?,
            told: NOTHING,
        })
    }

    /// Adds what a terminal says first, which is nothing: the host begins.
    pub fn begin(&self, due: &mut Vec<u8>) -> Result<(), AllocError>
        ensures { due.new.items ≡ due.old.items }
    {
        due.extend_from_slice(&[])
    }

    /// Takes a piece of what the host sent, of any length, and adds the bytes that are due after it: the session's replies,
    /// RESPONSES, and answers to reads. A terminal's session is over where its line ends, never by itself.
    ///
    /// # Errors
    ///
    /// `Wire`, `Header` or `Session` where the host's bytes, or their record, are no session's; `OutOfMemory` where a request
    /// for memory was refused. What was due before it is added. It is the session's last word: every later call answers it
    /// again, takes nothing and adds nothing.
    pub fn take(
        &mut self,
        alloc: Global,
        bytes: &[u8],
        due: &mut Vec<u8>,
    ) -> Result<Progress, RunFault>
        // What is added is due by the log of the bytes, and so the session then stands.
        ensures took { Adds due.old.items due.new.items (λ given.
            TerminalTakes self.old.talk bytes.now result given self.new.talk) }
        ensures goes_on { IfOk result (λ progress. progress ≡ More) }
        ensures told { self.new.told ≡ self.old.told }
        ensures grows { vec_len due.old ≤ vec_len due.new }
    {
        take_any(alloc, &mut self.session, bytes, due)
    }

    /// Presses a key, and adds the bytes that it sends. While the keyboard waits for a record every key is ignored. It does what
    /// it does without insert mode, and leaves insert mode as it is: an operator who uses that strikes, keys too.
    ///
    /// # Errors
    ///
    /// The fault of a session that failed, or `OutOfMemory` where a request for memory was refused, which only a key that sends
    /// makes; it is then the session's last word.
    pub fn press(&mut self, alloc: Global, key: Key, due: &mut Vec<u8>) -> Result<Pressed, RunFault>
        ensures pressed { Adds due.old.items due.new.items (λ given.
            Presses self.old.talk (by_key key) result given self.new.talk) }
        ensures told { self.new.told ≡ self.old.told }
        ensures grows { vec_len due.old ≤ vec_len due.new }
    {
        self.session.press(alloc, &key, due)
    }

    /// Presses a key, or strikes.
    pub(crate) fn work<K: Keystroke>(
        &mut self,
        alloc: Global,
        key: &K,
        due: &mut Vec<u8>,
    ) -> Result<Pressed, RunFault>
        ensures worked { Adds due.old.items due.new.items (λ given.
            Presses self.old.talk (K.strike key.now) result given self.new.talk) }
        ensures told { self.new.told ≡ self.old.told }
        ensures grows { vec_len due.old ≤ vec_len due.new }
    {
        self.session.press(alloc, key, due)
    }

    /// Strikes: a key in insert mode or without, or what begins this, or a character duplicate or field mark; and adds the bytes
    /// that it sends. Insert mode is off at first, and after Reset and each stroke that sends. Without it a stroke that is a key
    /// does what `press` does. While the keyboard waits for a record every stroke is ignored.
    ///
    /// # Errors
    ///
    /// As `press`.
    pub fn strike(
        &mut self,
        alloc: Global,
        stroke: Stroke,
        due: &mut Vec<u8>,
    ) -> Result<Pressed, RunFault>
        ensures struck { Adds due.old.items due.new.items (λ given.
            Presses self.old.talk (by_stroke stroke) result given self.new.talk) }
        ensures told { self.new.told ≡ self.old.told }
        ensures grows { vec_len due.old ≤ vec_len due.new }
    {
        self.session.press(alloc, &stroke, due)
    }

    /// Whether insert mode is on. After a fault it is as that left it.
    pub fn inserts(&self) -> bool
        ensures { OfStanding (λ state. state.inserts) self.now.talk result }
    {
        self.session.machine().inserts
    }

    /// What the terminal shows and keeps. After a fault it is as that left it.
    pub fn screen(&self) -> &Screen<PlaneCells>
        ensures { OfStanding (λ state. state.terminal) self.now.talk result.now }
    {
        self.session.machine().terminal.screen()
    }

    /// What the session agreed on, once it is ready. None after a fault.
    pub fn agreed(&self) -> Option<Agreed>
        ensures { result ≡ agreed_in self.now.talk }
    {
        agreed(&self.session)
    }

    /// The name of the logical unit that the host granted, while the session is ready by TN3270E: at most its first 32 bytes. Empty
    /// in a classic session, after a fault, and where the host named none.
    pub fn lu_name(&self) -> &[u8]
        ensures { result.now ≡ lu_name_in self.now.talk }
    {
        match self.session.listening() {
            Some(state) => state.lu_name(),
            None => &[],
        }
    }

    /// Whether the screen takes input: the session is ready, the screen has a field, the keyboard doesn't wait for the host,
    /// and the cursor isn't at 0, where a host leaves it that places none.
    pub fn takes_input(&self) -> bool
        ensures { result ≡ takes_input_in self.now.talk }
    {
        match self.session.listening() {
            Some(state) => state.core.agreed().is_some() && takes_input(state.terminal.screen()),
            None => false,
        }
    }

    /// The text that the host sent a tolerant terminal in records of NVT-DATA: lines of printable ASCII, each with its end, 0A;
    /// at most 1,000 of them, and 65,536 bytes.
    pub fn text(&self) -> &[u8]
        ensures { OfStanding (λ state. state.noted.text) self.now.talk result.now }
    {
        self.session.machine().noted.text()
    }

    /// Whether the session is ready, so that records and answers pass.
    pub fn is_ready(&self) -> bool
        ensures { result ≡ is_some (agreed_in self.now.talk) }
    {
        self.agreed().is_some()
    }

    /// What came, and was answered, since this was last asked.
    pub fn arrived(&mut self) -> Arrived
        ensures arrived { OfStanding (λ state. since (counts_of state) self.old.told)
            self.old.talk result }
        ensures told { OfStanding counts_of self.old.talk self.new.told }
        ensures talk { self.new.talk ≡ self.old.talk }
    {
        let now = self.session.machine().counts();
        let before = self.told;
        self.told = now;
        Arrived {
            taken: added(now.taken, before.taken),
            refused: added(now.refused, before.refused),
            passed: added(now.passed, before.passed),
            ignored: added(now.ignored, before.ignored),
            answers: added(now.answers, before.answers),
        }
    }

    /// The records that made the screen which is shown, from the last erase on, parted where the operator sent, so that the
    /// screen can be judged as it stands. None past 1,000 records or 8,388,608 bytes, until the next erase.
    pub fn turns(&self) -> Option<&[KeptRecord]>
        ensures { OfStanding (λ state. records_kept state.kept) self.now.talk
            (option_map (λ records. map kept_view records.now) result) }
    {
        match &self.session.machine().kept {
            Some(kept) => kept.records(),
            None => None,
        }
    }
}
