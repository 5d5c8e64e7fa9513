//! The terminal's end of a session that gets through: what it isn't prepared for it ignores, and it refuses nothing.

ghost use Rattle.std.specs.Prelude.{◌≡◌, ◌≤◌, ◌&&◌, true, false, [], length, option_map, Ok};
ghost use Rattle.tn_wire.specs.Calls.{told_of};
ghost use Rattle.tn_cores.specs.Grants.{granted_lu_name};
ghost use Rattle.tn_cores.specs.HeardView.{heard_view};
ghost use Rattle.tn_cores.specs.ReplyView.{tokens_of, answered};
ghost use Rattle.tn_cores.specs.Steps.{Takes};
ghost use Rattle.tn_cores.specs.Tolerant.{new_tolerant, tolerant_step, tolerant_agreed, answered_by, settles, settled_agreed, is_unnegotiated, or_ignores};
ghost use Rattle.tn_cores.specs.Tolerant.{do_other, tolerant_do, tolerant_dont_enhanced, tolerant_dont, tolerant_wont, tolerant_send_device};
ghost use Rattle.tn_cores.specs.Tolerant.{tolerant_device, granted, gives_up, tolerant_reject, tolerant_functions, tolerant_functions_request, tolerant_row};
ghost use Rattle.tn_cores.specs.Devices.{device_of};
ghost use Rattle.tn_cores.specs.Terminal.{is_classic, terminal_send_type};

use crate::device::Device;
use crate::heard::{FunctionList, Heard};
use crate::option::TelnetOption;
use crate::reply::Reply;
use crate::session::{Agreed, Out, Told, told_after};
use crate::terminal::{TermCore, TerminalPhase, TypeState};
use tn_wire::{Event, Verb};

/// A tolerant terminal's core: an event in, bytes out. It keeps what is in force; it reads and writes nothing itself.
#[derive(Clone, Copy)]
pub struct TolerantCore {
    pub(crate) core: TermCore,
    /// It was ready without TN3270E.
    pub(crate) settled: bool,
}

/// Whether TN3270E is off, or refused.
fn is_unnegotiated(phase: TerminalPhase) -> bool
    ensures { result ≡ is_unnegotiated phase }
{
    matches!(phase, TerminalPhase::Classic | TerminalPhase::Opening)
}

/// An option that a peer ends: where it is in force, this is answered.
fn ends_option(in_force: &mut bool, verb: Verb, option: TelnetOption) -> Reply
    ensures on { in_force.old ≡ true → result ≡ Reply.Verb verb option }
    ensures off { in_force.old ≡ false → result ≡ Reply.Nothing }
    ensures over { in_force.new ≡ false }
{
    if !*in_force {
        return Reply::Nothing;
    }
    *in_force = false;
    Reply::Verb(verb, option)
}

/// DO of an option that isn't ours: TIMING-MARK alone is answered by WILL (RFC 860).
fn on_do_other(core: &TermCore, code: u8) -> Reply
    ensures { answered result core.now ≡ do_other core.now code }
{
    let verb = if code == 6 { Verb::Will } else { Verb::Wont };
    Reply::Verb(verb, TelnetOption::Other(code))
}

/// DO.
fn on_do(core: &mut TermCore, settled: bool, option: TelnetOption) -> Reply
    ensures { answered result core.new ≡ tolerant_do settled core.old option }
{
    match option {
        TelnetOption::Tn3270e if settled => Reply::Verb(Verb::Wont, option),
        TelnetOption::Tn3270e => core.on_do_enhanced(),
        TelnetOption::Other(code) => on_do_other(core, code),
        TelnetOption::Binary | TelnetOption::TerminalType | TelnetOption::EndOfRecord => {
            core.on_do(option)
        }
    }
}

/// DONT TERMINAL-TYPE.
fn on_dont_type(core: &mut TermCore) -> Reply
    ensures { answered result core.new ≡ tolerant_dont core.old TelnetOption.TerminalType }
{
    if !core.terminal_type.is_on() {
        return Reply::Nothing;
    }
    core.terminal_type = TypeState::Off;
    Reply::Verb(Verb::Wont, TelnetOption::TerminalType)
}

/// DONT TN3270E.
fn on_dont_enhanced(core: &mut TermCore) -> Reply
    ensures { answered result core.new ≡ tolerant_dont_enhanced core.old core.old.phase }
{
    match core.phase {
        TerminalPhase::Classic | TerminalPhase::Opening => Reply::Nothing,
        _ => {
            core.phase = TerminalPhase::Opening;
            Reply::Verb(Verb::Wont, TelnetOption::Tn3270e)
        }
    }
}

/// DONT.
fn on_dont(core: &mut TermCore, option: TelnetOption) -> Reply
    ensures { answered result core.new ≡ tolerant_dont core.old option }
{
    match option {
        TelnetOption::Binary => ends_option(&mut core.binary.ours, Verb::Wont, option),
        TelnetOption::TerminalType => on_dont_type(core),
        TelnetOption::EndOfRecord => {
            ends_option(&mut core.end_of_record.ours, Verb::Wont, option)
        }
        TelnetOption::Tn3270e => on_dont_enhanced(core),
        TelnetOption::Other(_code) => Reply::Nothing,
    }
}

/// WONT.
fn on_wont(core: &mut TermCore, option: TelnetOption) -> Reply
    ensures { answered result core.new ≡ tolerant_wont core.old option }
{
    match option {
        TelnetOption::Binary => ends_option(&mut core.binary.theirs, Verb::Dont, option),
        TelnetOption::EndOfRecord => {
            ends_option(&mut core.end_of_record.theirs, Verb::Dont, option)
        }
        TelnetOption::TerminalType => Reply::Nothing,
        TelnetOption::Tn3270e => Reply::Nothing,
        TelnetOption::Other(_code) => Reply::Nothing,
    }
}

/// TERMINAL-TYPE SEND.
fn on_send_type(core: &mut TermCore) -> Reply
    ensures { answered result core.new
        ≡ or_ignores core.old (terminal_send_type core.old core.old.terminal_type) }
{
    match core.on_send_type() {
        Ok(reply) => reply,
        Err(_why) => Reply::Nothing,
    }
}

/// SEND DEVICE-TYPE.
fn on_send_device(core: &mut TermCore) -> Reply
    ensures { answered result core.new ≡ tolerant_send_device core.old core.old.phase }
{
    match core.phase {
        TerminalPhase::Classic | TerminalPhase::Opening => Reply::Nothing,
        _ => {
            core.phase = TerminalPhase::Device;
            Reply::DeviceRequest(core.device)
        }
    }
}

/// The device that a host granted by this name.
fn granted(ours: Device, name: &[u8]) -> Device
    ensures { result ≡ granted ours (device_of name.now) }
{
    match Device::from_name(name) {
        Some(device) => device,
        None => ours,
    }
}

/// DEVICE-TYPE IS.
fn on_device(core: &mut TermCore, name: &[u8]) -> Reply
    ensures { answered result core.new ≡ tolerant_device core.old name.now core.old.phase }
{
    let TerminalPhase::Device = core.phase else {
        return Reply::Nothing;
    };
    core.device = granted(core.device, name);
    core.phase = TerminalPhase::Functions(core.responses);
    Reply::FunctionsRequest(core.responses)
}

/// Gives TN3270E up.
fn give_up(core: &mut TermCore) -> Reply
    ensures { answered result core.new ≡ gives_up core.old }
{
    core.phase = TerminalPhase::Classic;
    Reply::Verb(Verb::Wont, TelnetOption::Tn3270e)
}

/// DEVICE-TYPE REJECT.
fn on_reject(core: &mut TermCore) -> Reply
    ensures { answered result core.new ≡ tolerant_reject core.old core.old.phase }
{
    match core.phase {
        TerminalPhase::Device => give_up(core),
        _ => Reply::Nothing,
    }
}

/// FUNCTIONS IS.
fn on_functions(core: &mut TermCore, list: FunctionList) -> Reply
    ensures { answered result core.new ≡ tolerant_functions core.old list core.old.phase }
{
    let TerminalPhase::Functions(responses) = core.phase else {
        return Reply::Nothing;
    };
    if !list.is_within(responses) {
        return give_up(core);
    }
    core.phase = TerminalPhase::Ready(list.responses);
    Reply::Nothing
}

/// FUNCTIONS REQUEST.
fn on_functions_request(core: &mut TermCore, list: FunctionList) -> Reply
    ensures { answered result core.new ≡ tolerant_functions_request core.old list core.old.phase }
{
    match core.phase {
        TerminalPhase::Functions(_) | TerminalPhase::Ready(_) => {
            if list.is_within(core.responses) {
                core.phase = TerminalPhase::Ready(list.responses);
                Reply::FunctionsAre(list.responses)
            } else {
                let supported = list.responses && core.responses;
                core.phase = TerminalPhase::Functions(supported);
                Reply::FunctionsRequest(supported)
            }
        }
        _ => Reply::Nothing,
    }
}

/// One row of the table.
fn row(core: &mut TermCore, settled: bool, heard: &Heard<'_>) -> Reply
    ensures { answered result core.new ≡ tolerant_row settled core.old (heard_view heard.now) }
{
    match *heard {
        Heard::Verb(Verb::Do, option) => on_do(core, settled, option),
        Heard::Verb(Verb::Will, option) => core.on_will(option),
        Heard::Verb(Verb::Dont, option) => on_dont(core, option),
        Heard::Verb(Verb::Wont, option) => on_wont(core, option),
        Heard::SendType => on_send_type(core),
        Heard::SendDevice => on_send_device(core),
        Heard::DeviceIs(name, _joined) => on_device(core, name),
        Heard::DeviceReject(_reason) => on_reject(core),
        Heard::FunctionsAre(list) => on_functions(core, list),
        Heard::FunctionsRequest(list) => on_functions_request(core, list),
        Heard::TypeIs(_name) => Reply::Nothing,
        Heard::DeviceRequest(_name, _joined) => Reply::Nothing,
        Heard::Record | Heard::Nothing | Heard::Bad => Reply::Nothing,
    }
}

impl TolerantCore {
    /// A tolerant terminal of this device, at the beginning of a session.
    pub(crate) fn new(device: Device, enhanced: bool, responses: bool) -> TolerantCore
        ensures { result ≡ new_tolerant device enhanced responses }
    {
        TolerantCore {
            core: TermCore::new(device, enhanced, responses),
            settled: false,
        }
    }

    /// Takes an event: what it means, with the reply's bytes in `out`, which held others before.
    pub fn step(&mut self, event: &Event<'_>, out: &mut Out) -> Told
        ensures took { Takes (Ok (tolerant_step self.old (told_of event.now)))
            self.old (Ok result) self.new out.new.items }
        ensures bound { length out.new.items ≤ 64 }
    {
        out.clear();
        match Heard::of(event) {
            Heard::Record => match self.agreed() {
                Some(_agreed) => Told::Record,
                None => Told::Nothing,
            },
            heard => self.hear(&heard, out),
        }
    }

    /// Takes what an event says that is no record.
    fn hear(&mut self, heard: &Heard<'_>, out: &mut Out) -> Told
        requires { out.old.items ≡ [] }
        ensures { Takes (Ok (answered_by self.old
            (tolerant_row self.old.settled self.old.core (heard_view heard.now))))
            self.old (Ok result) self.new out.new.items }
    {
        let before = self.agreed();
        let reply = self.answer(heard);
        reply.write(out);
        told_after(before, self.agreed())
    }

    /// Does a row of the table, and sees whether the session is ready with it.
    fn answer(&mut self, heard: &Heard<'_>) -> Reply
        ensures says { tokens_of result
            ≡ (tolerant_row self.old.settled self.old.core (heard_view heard.now)).0 }
        ensures core { self.new ≡ settles self.old.settled
            (tolerant_row self.old.settled self.old.core (heard_view heard.now)).1 }
    {
        let reply = row(&mut self.core, self.settled, heard);
        self.settled = self.settled || self.settles();
        reply
    }

    /// What the session agreed on, while records pass.
    pub fn agreed(&self) -> Option<Agreed>
        ensures { result ≡ tolerant_agreed self.now }
    {
        match self.core.phase {
            TerminalPhase::Ready(responses) => Some(Agreed {
                enhanced: true,
                device: self.core.device,
                responses,
            }),
            TerminalPhase::Classic | TerminalPhase::Opening => self.agreed_classic(),
            _ => None,
        }
    }

    /// The name of the logical unit that an event grants before it is taken: what DEVICE-TYPE IS connects to, once a device was
    /// asked for. It is empty where the host names none.
    pub fn granted_lu_name<'a>(&self, event: &Event<'a>) -> Option<&'a [u8]>
        ensures { option_map (λ name. name.now) result
            ≡ granted_lu_name self.now.core (told_of event.now) }
    {
        self.core.granted_lu_name(event)
    }

    /// The device that it is: the one that it was made with, or that a host granted.
    pub fn device(&self) -> Device
        ensures { result ≡ self.now.core.device }
    {
        self.core.device
    }

    fn agreed_classic(&self) -> Option<Agreed>
        ensures { result ≡ settled_agreed self.now.settled self.now.core }
    {
        if self.settled && self.core.end_of_record.are_both() {
            Some(Agreed {
                enhanced: false,
                device: self.core.device,
                responses: false,
            })
        } else {
            None
        }
    }

    /// Whether it is ready without TN3270E.
    fn settles(&self) -> bool
        ensures { result ≡ (is_classic self.now.core && is_unnegotiated self.now.core.phase) }
    {
        self.core.is_classic() && is_unnegotiated(self.core.phase)
    }
}
