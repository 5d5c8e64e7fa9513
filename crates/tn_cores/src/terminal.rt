//! The terminal's end of a session.

ghost use Rattle.std.specs.Prelude.{◌≡◌, Ok, OnErr, option_map};
ghost use Rattle.tn_wire.specs.Calls.{told_of};
ghost use Rattle.tn_cores.specs.Grants.{granted_lu_name};
ghost use Rattle.tn_cores.specs.HeardView.{heard_view, joined_view};
ghost use Rattle.tn_cores.specs.ReplyView.{rowed};
ghost use Rattle.tn_cores.specs.Steps.{Takes, terminal_step};
ghost use Rattle.tn_cores.specs.Terminal.{new_terminal, terminal_agreed, agreed_classic, is_classic, is_named, is_type_on};
ghost use Rattle.tn_cores.specs.Terminal.{terminal_do, do_type, do_enhanced, terminal_will, terminal_dont, dont_enhanced, terminal_wont};
ghost use Rattle.tn_cores.specs.Terminal.{terminal_send_type, terminal_send_device, terminal_device, named_device, terminal_reject};
ghost use Rattle.tn_cores.specs.Terminal.{terminal_functions, terminal_functions_request, terminal_row};
ghost use Rattle.tn_cores.specs.Tolerant.{new_tolerant};

use crate::device::Device;
use crate::grant::granted_in;
use crate::heard::{FunctionList, Heard, Joined};
use crate::option::{Sides, TelnetOption};
use crate::reply::{Reply, once, unless_on};
use crate::session::{Agreed, Out, SessionFault, Told, told_after};
use crate::tolerant::TolerantCore;
use tn_wire::{Event, Verb};

/// TERMINAL-TYPE on the terminal's side.
#[derive(Clone, Copy)]
pub(crate) enum TypeState {
    /// Not in force.
    Off,
    /// In force.
    On,
    /// In force, and the device's name was sent.
    Named,
}

impl TypeState {
    pub(crate) fn is_on(self) -> bool
        ensures { result ≡ is_type_on self }
    {
        match self {
            TypeState::Off => false,
            TypeState::On | TypeState::Named => true,
        }
    }

    fn is_named(self) -> bool
        ensures { result ≡ is_named self }
    {
        match self {
            TypeState::Off | TypeState::On => false,
            TypeState::Named => true,
        }
    }
}

/// How far TN3270E has come.
#[derive(Clone, Copy)]
pub(crate) enum TerminalPhase {
    /// The terminal refuses it.
    Classic,
    /// It is off.
    Opening,
    /// It is on, and no device was asked for.
    Enhanced,
    /// The host asked for the device, and was told it.
    Device,
    /// The host granted the device, and this set of functions was asked for: RESPONSES or none.
    Functions(bool),
    /// Ready with this set of functions.
    Ready(bool),
}

/// The terminal's core: an event in, bytes out. It keeps what is in force; it reads and writes nothing itself.
#[derive(Clone, Copy)]
pub struct TermCore {
    pub(crate) device: Device,
    pub(crate) responses: bool,
    pub(crate) terminal_type: TypeState,
    pub(crate) binary: Sides,
    pub(crate) end_of_record: Sides,
    pub(crate) phase: TerminalPhase,
}

impl TermCore {
    /// A terminal of this device, at the beginning of a session.
    ///
    /// `enhanced` says whether it takes TN3270E, `responses` whether it asks for RESPONSES there.
    pub fn new(device: Device, enhanced: bool, responses: bool) -> TermCore
        ensures { result ≡ new_terminal device enhanced responses }
    {
        TermCore {
            device,
            responses,
            terminal_type: TypeState::Off,
            binary: Sides::NEITHER,
            end_of_record: Sides::NEITHER,
            phase: if enhanced {
                TerminalPhase::Opening
            } else {
                TerminalPhase::Classic
            },
        }
    }

    /// A tolerant terminal of this device, at the beginning of a session.
    ///
    /// `enhanced` says whether it takes TN3270E, `responses` whether it asks for RESPONSES there.
    pub fn tolerant(device: Device, enhanced: bool, responses: bool) -> TolerantCore
        ensures { result ≡ new_tolerant device enhanced responses }
    {
        TolerantCore::new(device, enhanced, responses)
    }

    /// Takes an event: what it means, with the reply's bytes in `out`, which held others before.
    ///
    /// # Errors
    ///
    /// `Rejected`, `WrongList`, `BadSubnegotiation`, `OptionRefused` or `NotReady`. The core is then as before, and `out`
    /// is empty.
    pub fn step(&mut self, event: &Event<'_>, out: &mut Out) -> Result<Told, SessionFault>
        ensures { Takes (terminal_step self.old (told_of event.now))
            self.old result self.new out.new.items }
    {
        out.clear();
        match Heard::of(event) {
            Heard::Record => match self.agreed() {
                Some(_agreed) => Ok(Told::Record),
                None => Err(SessionFault::NotReady),
            },
            heard => {
                let before = self.agreed();
                let reply = self.row(&heard)?;
                reply.write(out);
                Ok(told_after(before, self.agreed()))
            }
        }
    }

    /// What the session agreed on, once it is ready.
    pub fn agreed(&self) -> Option<Agreed>
        ensures { result ≡ terminal_agreed self.now }
    {
        match self.phase {
            TerminalPhase::Ready(responses) => Some(Agreed {
                enhanced: true,
                device: self.device,
                responses,
            }),
            TerminalPhase::Classic | TerminalPhase::Opening => self.agreed_classic(),
            _ => None,
        }
    }

    /// The name of the logical unit that an event grants before it is taken: what DEVICE-TYPE IS connects to, once a device was
    /// asked for. It is empty where the host names none.
    pub fn granted_lu_name<'a>(&self, event: &Event<'a>) -> Option<&'a [u8]>
        ensures { option_map (λ name. name.now) result
            ≡ granted_lu_name self.now (told_of event.now) }
    {
        granted_in(self.phase, &Heard::of(event))
    }

    /// Whether the name was sent, and records in binary are agreed on both sides.
    pub(crate) fn is_classic(&self) -> bool
        ensures { result ≡ is_classic self.now }
    {
        self.terminal_type.is_named() && self.binary.are_both() && self.end_of_record.are_both()
    }

    fn agreed_classic(&self) -> Option<Agreed>
        ensures { result ≡ agreed_classic self.now }
    {
        if self.is_classic() {
            Some(Agreed {
                enhanced: false,
                device: self.device,
                responses: false,
            })
        } else {
            None
        }
    }

    /// One row of the table.
    fn row(&mut self, heard: &Heard<'_>) -> Result<Reply, SessionFault>
        ensures row { rowed result self.new ≡ terminal_row self.old (heard_view heard.now) }
        ensures err { OnErr result (self.new ≡ self.old) }
    {
        match *heard {
            Heard::Record | Heard::Nothing => Ok(Reply::Nothing),
            Heard::Verb(Verb::Do, option) => Ok(self.on_do(option)),
            Heard::Verb(Verb::Will, option) => Ok(self.on_will(option)),
            Heard::Verb(Verb::Dont, option) => self.on_dont(option),
            Heard::Verb(Verb::Wont, option) => self.on_wont(option),
            Heard::SendType => self.on_send_type(),
            Heard::SendDevice => self.on_send_device(),
            Heard::DeviceIs(name, joined) => self.on_device(name, &joined),
            Heard::DeviceReject(reason) => self.on_reject(reason),
            Heard::FunctionsAre(list) => self.on_functions(list),
            Heard::FunctionsRequest(list) => self.on_functions_request(list),
            Heard::TypeIs(_name) => Err(SessionFault::BadSubnegotiation),
            Heard::DeviceRequest(_name, _joined) => Err(SessionFault::BadSubnegotiation),
            Heard::Bad => Err(SessionFault::BadSubnegotiation),
        }
    }

    /// DO.
    pub(crate) fn on_do(&mut self, option: TelnetOption) -> Reply
        ensures { rowed (Ok result) self.new ≡ terminal_do self.old option }
    {
        match option {
            TelnetOption::Binary => once(&mut self.binary.ours, Verb::Will, option),
            TelnetOption::TerminalType => self.on_do_type(),
            TelnetOption::EndOfRecord => once(&mut self.end_of_record.ours, Verb::Will, option),
            TelnetOption::Tn3270e => self.on_do_enhanced(),
            TelnetOption::Other(_code) => Reply::Verb(Verb::Wont, option),
        }
    }

    fn on_do_type(&mut self) -> Reply
        ensures { rowed (Ok result) self.new ≡ do_type self.old self.old.terminal_type }
    {
        match self.terminal_type {
            TypeState::Off => {
                self.terminal_type = TypeState::On;
                Reply::Verb(Verb::Will, TelnetOption::TerminalType)
            }
            TypeState::On | TypeState::Named => Reply::Nothing,
        }
    }

    pub(crate) fn on_do_enhanced(&mut self) -> Reply
        ensures { rowed (Ok result) self.new ≡ do_enhanced self.old self.old.phase }
    {
        match self.phase {
            TerminalPhase::Classic => Reply::Verb(Verb::Wont, TelnetOption::Tn3270e),
            TerminalPhase::Opening => {
                if self.is_classic() {
                    Reply::Verb(Verb::Wont, TelnetOption::Tn3270e)
                } else {
                    self.phase = TerminalPhase::Enhanced;
                    Reply::Verb(Verb::Will, TelnetOption::Tn3270e)
                }
            }
            _ => Reply::Nothing,
        }
    }

    /// WILL.
    pub(crate) fn on_will(&mut self, option: TelnetOption) -> Reply
        ensures { rowed (Ok result) self.new ≡ terminal_will self.old option }
    {
        match option {
            TelnetOption::Binary => once(&mut self.binary.theirs, Verb::Do, option),
            TelnetOption::EndOfRecord => once(&mut self.end_of_record.theirs, Verb::Do, option),
            TelnetOption::TerminalType => Reply::Verb(Verb::Dont, option),
            TelnetOption::Tn3270e => Reply::Verb(Verb::Dont, option),
            TelnetOption::Other(_code) => Reply::Verb(Verb::Dont, option),
        }
    }

    /// DONT.
    fn on_dont(&mut self, option: TelnetOption) -> Result<Reply, SessionFault>
        ensures row { rowed result self.new ≡ terminal_dont self.old option }
        ensures err { OnErr result (self.new ≡ self.old) }
    {
        match option {
            TelnetOption::Binary => unless_on(self.binary.ours, option),
            TelnetOption::TerminalType => unless_on(self.terminal_type.is_on(), option),
            TelnetOption::EndOfRecord => unless_on(self.end_of_record.ours, option),
            TelnetOption::Tn3270e => self.on_dont_enhanced(),
            TelnetOption::Other(_code) => Ok(Reply::Nothing),
        }
    }

    fn on_dont_enhanced(&mut self) -> Result<Reply, SessionFault>
        ensures row { rowed result self.new ≡ dont_enhanced self.old self.old.phase }
        ensures err { OnErr result (self.new ≡ self.old) }
    {
        match self.phase {
            TerminalPhase::Classic | TerminalPhase::Opening => Ok(Reply::Nothing),
            TerminalPhase::Ready(_responses) => Err(SessionFault::OptionRefused(40)),
            _ => {
                self.phase = TerminalPhase::Opening;
                Ok(Reply::Verb(Verb::Wont, TelnetOption::Tn3270e))
            }
        }
    }

    /// WONT.
    fn on_wont(&self, option: TelnetOption) -> Result<Reply, SessionFault>
        ensures { rowed result self.now ≡ terminal_wont self.now option }
    {
        match option {
            TelnetOption::Binary => unless_on(self.binary.theirs, option),
            TelnetOption::EndOfRecord => unless_on(self.end_of_record.theirs, option),
            TelnetOption::TerminalType => Ok(Reply::Nothing),
            TelnetOption::Tn3270e => Ok(Reply::Nothing),
            TelnetOption::Other(_code) => Ok(Reply::Nothing),
        }
    }

    /// TERMINAL-TYPE SEND.
    pub(crate) fn on_send_type(&mut self) -> Result<Reply, SessionFault>
        ensures row { rowed result self.new ≡ terminal_send_type self.old self.old.terminal_type }
        ensures err { OnErr result (self.new ≡ self.old) }
    {
        if !self.terminal_type.is_on() {
            return Err(SessionFault::BadSubnegotiation);
        }
        self.terminal_type = TypeState::Named;
        Ok(Reply::TypeIs(self.device))
    }

    /// SEND DEVICE-TYPE.
    fn on_send_device(&mut self) -> Result<Reply, SessionFault>
        ensures row { rowed result self.new ≡ terminal_send_device self.old self.old.phase }
        ensures err { OnErr result (self.new ≡ self.old) }
    {
        match self.phase {
            TerminalPhase::Enhanced | TerminalPhase::Device => {
                self.phase = TerminalPhase::Device;
                Ok(Reply::DeviceRequest(self.device))
            }
            _ => Err(SessionFault::BadSubnegotiation),
        }
    }

    /// DEVICE-TYPE IS.
    fn on_device(&mut self, name: &[u8], joined: &Joined<'_>) -> Result<Reply, SessionFault>
        ensures row { rowed result self.new
            ≡ terminal_device self.old name.now (joined_view joined.now) self.old.phase }
        ensures err { OnErr result (self.new ≡ self.old) }
    {
        match (self.phase, joined) {
            (TerminalPhase::Device, Joined::Alone | Joined::Connect(_)) => self.on_named(name),
            _ => Err(SessionFault::BadSubnegotiation),
        }
    }

    /// The host granted a device of this name.
    fn on_named(&mut self, name: &[u8]) -> Result<Reply, SessionFault>
        ensures row { rowed result self.new ≡ named_device self.old name.now }
        ensures err { OnErr result (self.new ≡ self.old) }
    {
        if !name.eq_ignore_ascii_case(&self.device.name()) {
            return Err(SessionFault::BadSubnegotiation);
        }
        self.phase = TerminalPhase::Functions(self.responses);
        Ok(Reply::FunctionsRequest(self.responses))
    }

    /// DEVICE-TYPE REJECT REASON.
    fn on_reject(&self, reason: u8) -> Result<Reply, SessionFault>
        ensures { rowed result self.now ≡ terminal_reject reason self.now.phase }
    {
        match self.phase {
            TerminalPhase::Device => Err(SessionFault::Rejected(reason)),
            _ => Err(SessionFault::BadSubnegotiation),
        }
    }

    /// FUNCTIONS IS.
    fn on_functions(&mut self, list: FunctionList) -> Result<Reply, SessionFault>
        ensures row { rowed result self.new ≡ terminal_functions self.old list self.old.phase }
        ensures err { OnErr result (self.new ≡ self.old) }
    {
        let TerminalPhase::Functions(responses) = self.phase else {
            return Err(SessionFault::BadSubnegotiation);
        };
        if !list.is_set(responses) {
            return Err(SessionFault::WrongList);
        }
        self.phase = TerminalPhase::Ready(responses);
        Ok(Reply::Nothing)
    }

    /// FUNCTIONS REQUEST.
    pub(crate) fn on_functions_request(&mut self, list: FunctionList) -> Result<Reply, SessionFault>
        ensures row { rowed result self.new
            ≡ terminal_functions_request self.old list self.old.phase }
        ensures err { OnErr result (self.new ≡ self.old) }
    {
        let TerminalPhase::Functions(_responses) = self.phase else {
            return Err(SessionFault::BadSubnegotiation);
        };
        if list.is_within(self.responses) {
            self.phase = TerminalPhase::Ready(list.responses);
            Ok(Reply::FunctionsAre(list.responses))
        } else {
            let supported = list.responses && self.responses;
            self.phase = TerminalPhase::Functions(supported);
            Ok(Reply::FunctionsRequest(supported))
        }
    }
}
