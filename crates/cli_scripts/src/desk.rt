//! The terminal that a script works, and what is known of its line.

ghost use Rattle.std.specs.Prelude.{◌≡◌, ◌++◌, [], ◌∷◌, length, map, nat_lt, not, ◌&&◌, option_map, replicate, Some, None, is_some, true, false, IfOk, OnErr, OnOk};
ghost use Rattle.std.specs.List.{flat_map};
ghost use Rattle.script_screens.specs.Laws.{LinkIsWhole, is_whole};
ghost use Rattle.script_screens.specs.Status.{link_seen};
ghost use Rattle.script_keys.specs.Runs.{keys_of_run, keys_of};
ghost use Rattle.tn_session.specs.KeptView.{kept_view};
ghost use Rattle.tn_session.specs.TerminalTalk.{OfStanding, tolerant_worked, records_kept, agreed_in, lu_name_in, takes_input_in};
ghost use Rattle.cli_scripts.specs.declared.deed.Deed.TheVariants.{Begun, Heard, Pressed as PressedKey};
ghost use Rattle.cli_scripts.specs.Acts.{cleared};
ghost use Rattle.cli_scripts.specs.Pressing.{after_key, answer_to, is_inhibited, after_keys, all_typed_at, any_inhibited, typed_at};
ghost use Rattle.cli_scripts.specs.Deeds.{new_talk};
ghost use Rattle.cli_scripts.specs.Desks.{DidAll, HearsOnce, KeepsScreens, TakesBytes, counted, fault_in, opened, read_again, why_of, handed_due, handed_screens, desk_of, device_in, device_of, is_error, is_waiting, link_in, model_number, protocol_of, Shows};

use crate::answer::add_bytes;
use crate::deed::Deed;
use crate::host::{Host, connection_to};
use crate::sent_screen::{SentScreen, collect};
use ds_keys::Key;
use ds_screen::{Lock, PlaneCells, Screen};
use script_keys::Run;
use script_screens::{Connection, Protocol};
use std::alloc::{AllocError, Global};
use std::marker::Model;
use tn_cores::Agreed;
use tn_session::{
    Arrived, Device, History, KeptRecord, Pressed, Progress, RunFault, ScreenModel, SessionFault,
    TerminalSession,
};

/// How often the host is read in one session, at most.
const MAX_READS: u32 = 1_000_000;

/// A terminal, connected or not. Contracts see its session, and all that was done at it: the bytes that were due are those that these deeds
/// give, and no others.
#[derive(Drop)]
pub(crate) struct Desk {
    device: Device,
    session: TerminalSession,
    /// Bytes that are due to the host.
    due: Vec<u8>,
    /// The host, while it is connected.
    host: Option<Host>,
    /// How often it was read.
    reads: u32,
    /// The screen was read since a record came.
    was_read: bool,
    /// Why the last session failed.
    fault: Option<RunFault>,
    deeds: History<Deed>,
    heard: History<u8>,
    gone: History<u8>,
    /// Screens on which keys send are kept, to be judged.
    collects: bool,
    judged: History<SentScreen>,
    /// Those that were not handed out.
    unjudged: Vec<SentScreen>,
}

impl Model for Desk {
    ghost use Rattle.std.specs.Prelude.{◌++◌};
    ghost use Rattle.cli_scripts.specs.Deeds.{DidSo};
    ghost use Rattle.cli_scripts.specs.Desks.{Worked};

    ghost Value = { Worked };

    ghost view = { λ d. record {
      device = d.device;
      talk = d.session.talk;
      host = d.host;
      was_read = d.was_read;
      reads = d.reads;
      fault = d.fault;
      deeds = d.deeds.items;
      heard = d.heard.items;
      gone = d.gone.items;
      due = d.due.items;
      collects = d.collects;
      judged = d.judged.items;
      unjudged = d.unjudged.items;
      told = d.session.told.taken;
    } };

    ghost invariant = { λ d. DidSo d.device d.deeds.items d.heard.items (d.gone.items ++ d.due.items) d.session.talk d.collects (d.judged.items ++ d.unjudged.items) };
}

fn deed_of(key: Key) -> Deed
    ensures { result ≡ PressedKey key }
{
    Deed::Pressed(key)
}

/// Adds screens to a history.
fn add_screens(history: &mut History<SentScreen>, screens: &[SentScreen])
    ensures { history.new.items ≡ history.old.items ++ screens.now }
{
    'screens: for screen in screens {
        *history = history.and(screen);
    }
}

/// Whether a record of 3270 data was taken, and not refused.
fn is_shown(arrived: Arrived) -> bool
    ensures { result ≡ nat_lt 0 arrived.taken }
{
    0 < arrived.taken
}

fn is_inhibited(pressed: Pressed) -> bool
    ensures { result ≡ is_inhibited pressed }
{
    matches!(pressed, Pressed::Inhibited)
}

fn model_number(model: ScreenModel) -> u8
    ensures { result ≡ model_number model }
{
    match model {
        ScreenModel::Two => 2,
        ScreenModel::Three => 3,
        ScreenModel::Four => 4,
        ScreenModel::Five => 5,
    }
}

fn protocol_of(agreed: Option<Agreed>) -> Protocol
    ensures { result ≡ protocol_of agreed }
{
    match agreed {
        Some(agreed) => {
            if agreed.enhanced {
                Protocol::Tn3270e
            } else {
                Protocol::Tn3270
            }
        }
        None => Protocol::Tn3270,
    }
}

/// One read more, up to the last one of a session.
fn read_again(reads: u32) -> u32
    ensures { result ≡ read_again reads }
{
    if reads < MAX_READS { reads + 1 } else { reads }
}

/// Whether a session failed, and why.
fn ended_by(told: Result<Progress, RunFault>) -> Result<(), RunFault>
    ensures { why_of result ≡ why_of told }
{
    match told {
        Ok(_progress) => Ok(()),
        Err(why) => Err(why),
    }
}

/// A terminal's session, which gets through where it can.
fn new_session(alloc: Global, device: Device) -> Result<TerminalSession, AllocError>
    ensures { IfOk result (λ session. session ≡ tolerant_worked device true true) }
{
    TerminalSession::tolerant(alloc, device, true, true)
}

impl Desk {
    /// A terminal that isn't connected, and whether screens on which its keys send are collected.
    pub(crate) fn new(alloc: Global, device: Device, collects: bool) -> Result<Desk, AllocError>
        ensures { IfOk result (λ desk. desk ≡ desk_of device collects) }
    {
        Ok(Desk {
            device,
            session: new_session(alloc, device)?,
            due: Vec::new(alloc),
            host: None,
            reads: 0,
            was_read: false,
            fault: None,
            deeds: History::new(),
            heard: History::new(),
            gone: History::new(),
            collects,
            judged: History::new(),
            unjudged: Vec::new(alloc),
        })
    }

    /// Puts a terminal anew in place of the one that is there.
    fn renew(&mut self, alloc: Global) -> Result<(), AllocError>
        ensures deeds { OnOk result (self.new.deeds ≡ self.old.deeds ++ Begun ∷ []) }
        ensures heard { self.new.heard ≡ self.old.heard }
        ensures gone { self.new.gone ≡ self.old.gone }
        ensures screens { KeepsScreens self.old self.new }
        ensures host { self.new.host ≡ self.old.host }
        ensures renewed { OnOk result (self.new ≡ record self.old {
          talk = new_talk self.old.device;
          deeds = self.old.deeds ++ Begun ∷ [];
          told = 0;
        }) }
        ensures same { OnErr result (self.new ≡ self.old) }
    {
        let session = new_session(alloc, self.device)?;
        self.session = session;
        self.deeds = self.deeds.and(&Deed::Begun);
        Ok(())
    }

    /// Begins a session with a host.
    pub(crate) fn open_session(&mut self, alloc: Global, host: Host) -> Result<(), AllocError>
        ensures deeds { OnOk result (self.new.deeds ≡ self.old.deeds ++ Begun ∷ []) }
        ensures heard { self.new.heard ≡ self.old.heard }
        ensures gone { self.new.gone ≡ self.old.gone }
        ensures screens { KeepsScreens self.old self.new }
        ensures host { OnOk result (self.new.host ≡ Some host) }
        ensures opened { OnOk result (self.new ≡ opened self.old host) }
        ensures same { OnErr result (self.new ≡ self.old) }
    {
        self.renew(alloc)?;
        self.host = Some(host);
        self.reads = 0;
        self.was_read = false;
        self.fault = None;
        Ok(())
    }

    /// Ends the session. The screen stays.
    pub(crate) fn close(&mut self)
        ensures { self.new ≡ record self.old { host = None } }
    {
        self.host = None;
    }

    /// Ends a session that failed.
    fn fail(&mut self, why: RunFault)
        ensures { self.new ≡ record self.old { host = None; fault = Some why } }
    {
        self.fault = Some(why);
        self.host = None;
    }

    /// Takes bytes of the host.
    fn take(&mut self, alloc: Global, bytes: &[u8]) -> Result<(), RunFault>
        ensures deeds { self.new.deeds ≡ self.old.deeds ++ Heard (length bytes.now) ∷ [] }
        ensures heard { self.new.heard ≡ self.old.heard ++ bytes.now }
        ensures gone { self.new.gone ≡ self.old.gone }
        ensures screens { KeepsScreens self.old self.new }
        ensures host { self.new.host ≡ self.old.host }
        ensures rest { (self.new.reads ≡ self.old.reads) × (self.new.fault ≡ self.old.fault)
            × (self.new.was_read ≡ self.old.was_read) }
        ensures same { (self.new.device ≡ self.old.device)
            × (self.new.unjudged ≡ self.old.unjudged) × (self.new.told ≡ self.old.told) }
        ensures takes { TakesBytes self.old bytes.now self.new }
        // It fails where the session does, for that reason.
        ensures told { why_of result ≡ fault_in self.new.talk }
    {
        let told = self.session.take(alloc, bytes, &mut self.due);
        self.deeds = self.deeds.and(&Deed::Heard(bytes.len()));
        add_bytes(&mut self.heard, bytes);
        ended_by(told)
    }

    /// Takes bytes of the host: whether a record was shown, or answered. After a fault of the session, and after 1,000,000 reads, the
    /// session is over.
    pub(crate) fn hear(&mut self, alloc: Global, bytes: &[u8]) -> Result<bool, AllocError>
        ensures deeds { self.new.deeds ≡ self.old.deeds ++ Heard (length bytes.now) ∷ [] }
        ensures heard { self.new.heard ≡ self.old.heard ++ bytes.now }
        ensures gone { self.new.gone ≡ self.old.gone }
        ensures screens { KeepsScreens self.old self.new }
        ensures once { IfOk result (λ shown. HearsOnce self.old bytes.now shown self.new) }
    {
        let told = self.take(alloc, bytes);
        self.count_read();
        match told {
            Ok(()) => Ok(self.has_arrived()),
            Err(RunFault::OutOfMemory) => Err(AllocError),
            Err(why) => {
                self.fail(why);
                Ok(false)
            }
        }
    }

    /// Counts a read, up to the last one.
    fn count_read(&mut self)
        ensures { self.new ≡ counted self.old }
    {
        self.reads = read_again(self.reads);
        if self.reads >= MAX_READS {
            self.fail(RunFault::Session(SessionFault::TooManyReads));
        }
    }

    /// Whether a record came since this was last asked. Then the screen wasn't read since.
    fn has_arrived(&mut self) -> bool
        ensures read { self.new.was_read ≡ (self.old.was_read && not result) }
        ensures deeds { self.new.deeds ≡ self.old.deeds }
        ensures heard { self.new.heard ≡ self.old.heard }
        ensures gone { self.new.gone ≡ self.old.gone }
        ensures screens { KeepsScreens self.old self.new }
        ensures host { self.new.host ≡ self.old.host }
        ensures rest { (self.new.reads ≡ self.old.reads) × (self.new.fault ≡ self.old.fault)
            × (self.new.talk ≡ self.old.talk) × (self.new.due ≡ self.old.due) }
        ensures same { (self.new.device ≡ self.old.device)
            × (self.new.unjudged ≡ self.old.unjudged) }
        ensures shown { OfStanding (λ state. nat_lt self.old.told state.taken) self.old.talk
            result }
        ensures told { OfStanding (λ state. state.taken) self.old.talk self.new.told }
    {
        let came = is_shown(self.session.arrived());
        if came {
            self.was_read = false;
        }
        came
    }

    /// Clears the screen of a terminal that isn't connected.
    pub(crate) fn clear(&mut self, alloc: Global) -> Result<(), AllocError>
        ensures deeds { OnOk result (self.new.deeds ≡ self.old.deeds ++ Begun ∷ []) }
        ensures heard { self.new.heard ≡ self.old.heard }
        ensures gone { self.new.gone ≡ self.old.gone }
        ensures screens { KeepsScreens self.old self.new }
        ensures host { self.new.host ≡ self.old.host }
        ensures cleared { OnOk result (self.new ≡ cleared self.old) }
    {
        self.renew(alloc)
    }

    /// Presses a key. The screen on which it sends is collected before.
    pub(crate) fn press(&mut self, alloc: Global, key: &Key) -> Result<Pressed, AllocError>
        ensures deeds { OnOk result (self.new.deeds ≡ self.old.deeds ++ PressedKey key.now ∷ []) }
        ensures talk { OnOk result (self.new.talk ≡ after_key self.old.talk key.now) }
        ensures answer { IfOk result (λ pressed. pressed ≡ answer_to self.old.talk key.now) }
        ensures typed { OnOk result (self.new ≡ typed_at self.old key.now) }
        ensures heard { self.new.heard ≡ self.old.heard }
        ensures gone { self.new.gone ≡ self.old.gone }
        ensures screens { KeepsScreens self.old self.new }
        ensures host { self.new.host ≡ self.old.host }
    {
        let deed = deed_of(*key);
        collect(alloc, self.collects, &self.session, key, &mut self.unjudged)?;
        let pressed = self.session.press(alloc, *key, &mut self.due);
        self.deeds = self.deeds.and(&deed);
        match pressed {
            Ok(pressed) => Ok(pressed),
            Err(RunFault::OutOfMemory) => Err(AllocError),
            Err(_why) => Ok(Pressed::Ignored),
        }
    }

    /// Presses a key so many times: whether it was inhibited.
    fn press_times(&mut self, alloc: Global, key: &Key, times: u32) -> Result<bool, AllocError>
        ensures deeds { OnOk result (self.new.deeds
            ≡ self.old.deeds ++ replicate times (PressedKey key.now)) }
        ensures talk { OnOk result (self.new.talk
            ≡ after_keys self.old.talk (replicate times key.now)) }
        ensures inhibited { IfOk result (λ inhibited. inhibited
            ≡ any_inhibited self.old.talk (replicate times key.now)) }
        ensures typed { OnOk result (self.new ≡ all_typed_at self.old (replicate times key.now)) }
        ensures heard { self.new.heard ≡ self.old.heard }
        ensures gone { self.new.gone ≡ self.old.gone }
        ensures screens { KeepsScreens self.old self.new }
        ensures host { self.new.host ≡ self.old.host }
    {
        let mut inhibited = false;
        'times: for _time in 0..times {
            let pressed = self.press(alloc, key)?;
            inhibited |= is_inhibited(pressed);
        }
        Ok(inhibited)
    }

    /// Presses the keys of a run: whether one was inhibited.
    fn press_run(&mut self, alloc: Global, run: &Run) -> Result<bool, AllocError>
        ensures deeds { OnOk result (self.new.deeds
            ≡ self.old.deeds ++ map PressedKey (keys_of_run run.now)) }
        ensures talk { OnOk result (self.new.talk
            ≡ after_keys self.old.talk (keys_of_run run.now)) }
        ensures inhibited { IfOk result (λ inhibited. inhibited
            ≡ any_inhibited self.old.talk (keys_of_run run.now)) }
        ensures typed { OnOk result (self.new ≡ all_typed_at self.old (keys_of_run run.now)) }
        ensures heard { self.new.heard ≡ self.old.heard }
        ensures gone { self.new.gone ≡ self.old.gone }
        ensures screens { KeepsScreens self.old self.new }
        ensures host { self.new.host ≡ self.old.host }
    {
        self.press_times(alloc, &run.key, run.times)
    }

    /// Presses keys in turn: whether one was inhibited.
    pub(crate) fn press_runs(&mut self, alloc: Global, runs: &[Run]) -> Result<bool, AllocError>
        ensures deeds { OnOk result (self.new.deeds
            ≡ self.old.deeds ++ map PressedKey (keys_of runs.now)) }
        ensures talk { OnOk result (self.new.talk ≡ after_keys self.old.talk (keys_of runs.now)) }
        ensures inhibited { IfOk result (λ inhibited. inhibited
            ≡ any_inhibited self.old.talk (keys_of runs.now)) }
        ensures typed { OnOk result (self.new ≡ all_typed_at self.old (keys_of runs.now)) }
        ensures heard { self.new.heard ≡ self.old.heard }
        ensures gone { self.new.gone ≡ self.old.gone }
        ensures screens { KeepsScreens self.old self.new }
        ensures host { self.new.host ≡ self.old.host }
    {
        let mut inhibited = false;
        'runs: for run in runs {
            let stopped = self.press_run(alloc, run)?;
            inhibited |= stopped;
        }
        Ok(inhibited)
    }

    /// The bytes that are due to the host.
    pub(crate) fn due(&self) -> &[u8]
        ensures value { result.now ≡ self.now.due }
        ensures did { DidAll self.now }
    {
        &self.due
    }

    /// Notes that they were handed out.
    pub(crate) fn hand_out(&mut self)
        ensures { self.new ≡ handed_due self.old }
    {
        add_bytes(&mut self.gone, &self.due);
        self.due.clear();
    }

    /// The screens on which keys sent that were not handed out.
    pub(crate) fn sent_screens(&self) -> &[SentScreen]
        ensures value { result.now ≡ self.now.unjudged }
        ensures did { DidAll self.now }
    {
        &self.unjudged
    }

    /// Notes that they were handed out.
    pub(crate) fn hand_out_screens(&mut self)
        ensures { self.new ≡ handed_screens self.old }
    {
        add_screens(&mut self.judged, &self.unjudged);
        self.unjudged.clear();
    }

    pub(crate) fn screen(&self) -> &Screen<PlaneCells>
        ensures { OfStanding (λ state. state.terminal) self.now.talk result.now }
    {
        self.session.screen()
    }

    /// The records that made the screen.
    pub(crate) fn turns(&self) -> Option<&[KeptRecord]>
        ensures { OfStanding (λ state. records_kept state.kept) self.now.talk
            (option_map (λ kept. map kept_view kept.now) result) }
    {
        self.session.turns()
    }

    /// Whether the keyboard waits for the host.
    pub(crate) fn waits(&self) -> bool
        ensures { OfStanding (λ state. is_waiting state.terminal.lock) self.now.talk result }
    {
        matches!(self.screen().lock(), Lock::Waiting)
    }

    /// Whether the keyboard is in error.
    pub(crate) fn is_in_error(&self) -> bool
        ensures { OfStanding (λ state. is_error state.terminal.lock) self.now.talk result }
    {
        matches!(self.screen().lock(), Lock::Error)
    }

    pub(crate) fn is_connected(&self) -> bool
        ensures { result ≡ is_some self.now.host }
    {
        self.host.is_some()
    }

    /// Whether records pass.
    pub(crate) fn is_ready(&self) -> bool
        ensures { result ≡ is_some (agreed_in self.now.talk) }
    {
        self.session.is_ready()
    }

    pub(crate) fn takes_input(&self) -> bool
        ensures { result ≡ takes_input_in self.now.talk }
    {
        self.session.takes_input()
    }

    /// Whether the screen was read since a record came.
    pub(crate) fn was_read(&self) -> bool
        ensures { result ≡ self.now.was_read }
    {
        self.was_read
    }

    /// Notes that the screen was read.
    pub(crate) fn note_read(&mut self)
        ensures { self.new ≡ record self.old { was_read = true } }
    {
        self.was_read = true;
    }

    /// Why the last session failed, once.
    pub(crate) fn take_fault(&mut self) -> Option<RunFault>
        ensures fault { result ≡ self.old.fault }
        ensures rest { self.new ≡ record self.old { fault = None } }
    {
        self.fault.take()
    }

    /// The device that was agreed on, or the one that is asked for.
    pub(crate) fn device(&self) -> Device
        ensures { result ≡ device_in self.now }
    {
        match self.session.agreed() {
            Some(agreed) => agreed.device,
            None => self.device,
        }
    }

    /// The number of the device's model.
    pub(crate) fn model(&self) -> u8
        ensures { result ≡ model_number (device_in self.now).model }
    {
        model_number(self.device().model)
    }

    pub(crate) fn protocol(&self) -> Protocol
        ensures { result ≡ protocol_of (agreed_in self.now.talk) }
    {
        protocol_of(self.session.agreed())
    }

    pub(crate) fn host(&self) -> &Option<Host>
        ensures { result.now ≡ self.now.host }
    {
        &self.host
    }

    /// The name of the logical unit that the host granted.
    pub(crate) fn lu_name(&self) -> &[u8]
        ensures { result.now ≡ lu_name_in self.now.talk }
    {
        self.session.lu_name()
    }

    /// What is known of the connection, the logical unit's name left aside.
    pub(crate) fn connection(&self) -> Option<Connection<'_>>
        ensures whole { LinkIsWhole (link_seen result) }
        ensures value { link_seen result ≡ link_in self.now [] }
    {
        self.connection_of(&[])
    }

    /// What is known of the connection, where the logical unit's name is to be told so.
    pub(crate) fn connection_of<'a>(&'a self, lu_name: &'a [u8]) -> Option<Connection<'a>>
        requires { is_whole lu_name.now ≡ true }
        ensures whole { LinkIsWhole (link_seen result) }
        ensures value { link_seen result ≡ link_in self.now lu_name.now }
    {
        connection_to(&self.host, self.protocol(), lu_name)
    }
}
