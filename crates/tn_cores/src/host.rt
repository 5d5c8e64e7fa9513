//! The host's end of a session.

ghost use Rattle.std.specs.Prelude.{◌≡◌, ◌≤◌, ◌↔◌, true, Ok, OnErr, IfOk, IfErr, IsOk, length};
ghost use Rattle.tn_wire.specs.Calls.{told_of};
ghost use Rattle.tn_cores.specs.Devices.{fits};
ghost use Rattle.tn_cores.specs.HeardView.{heard_view, joined_view};
ghost use Rattle.tn_cores.specs.ReplyView.{rowed, tokens_of};
ghost use Rattle.tn_cores.specs.declared.device.ScreenModel.{ScreenModel as ScreenModelValue};
ghost use Rattle.tn_cores.specs.Replies.{bytes_of, said, unless};
ghost use Rattle.tn_cores.specs.Steps.{Takes, host_step};
ghost use Rattle.tn_cores.specs.Host.{new_host, opening, host_agreed, host_will, will_enhanced, will_type, host_do, is_offered};
ghost use Rattle.tn_cores.specs.Host.{host_wont, wont_enhanced, wont_type, host_dont, is_needed, host_device_request, request_joined, grants};
ghost use Rattle.tn_cores.specs.Host.{host_functions_request, host_functions, host_type, type_fitting, is_last, host_row, any_fits};

use crate::device::{Device, DeviceName, ScreenModel, fits, fitting};
use crate::heard::{FunctionList, Heard, Joined};
use crate::option::{Reason, Sides, TelnetOption};
use crate::reply::{Reply, once, unless_on};
use crate::session::{Agreed, Out, SessionFault, Told, told_after};
use arrayvec::ArrayVec;
use ds_codec::Geometry;
use scr_layout::Layout;
use tn_wire::{Event, Verb};

/// The name of a terminal type: at most 40 bytes.
pub(crate) type TypeName = ArrayVec<u8, 40>;

/// How far the session has come.
#[derive(Drop)]
pub(crate) enum HostPhase {
    /// DO TN3270E was said.
    AskedEnhanced,
    /// TN3270E is on, and the device was asked for.
    Device,
    /// The device was granted; the set of functions that was asked for, if one was.
    Functions(Device, Option<bool>),
    /// Ready with TN3270E, the device and the set of functions.
    Ready(Device, bool),
    /// DO TERMINAL-TYPE was said.
    AskedType,
    /// TERMINAL-TYPE is on, and the name was asked for; the name that came before, if one did.
    AskedName(Option<TypeName>),
    /// The device fits, and DO and WILL of BINARY and END-OF-RECORD were said.
    Options(Device),
}

/// The host's core: an event in, bytes out. It keeps what is in force; it reads and writes nothing itself.
#[derive(Drop)]
pub struct HostCore {
    geometry: Geometry,
    responses: bool,
    binary: Sides,
    end_of_record: Sides,
    phase: HostPhase,
}

impl HostPhase {
    /// Whether DO and WILL of BINARY and END-OF-RECORD were said.
    fn is_offered(&self) -> bool
        ensures { result ≡ is_offered self.now }
    {
        matches!(self, HostPhase::Options(_))
    }
}

impl HostCore {
    /// A host for this layout, at the beginning of a session.
    ///
    /// `enhanced` says whether it asks for TN3270E, `responses` whether it takes RESPONSES there.
    ///
    /// # Errors
    ///
    /// `NoDevice` exactly where no model has the layout's two sizes.
    pub fn new(layout: &Layout, enhanced: bool, responses: bool) -> Result<HostCore, SessionFault>
        ensures core { IfOk result (λ core.
            core ≡ new_host layout.now.geometry enhanced responses) }
        ensures found { IsOk result
            ↔ ((model : ScreenModelValue) × (fits layout.now.geometry model ≡ true)) }
        ensures none { IfErr result (λ why. why ≡ SessionFault.NoDevice) }
    {
        let geometry = layout.geometry();
        if !any_fits(&geometry) {
            return Err(SessionFault::NoDevice);
        }
        Ok(HostCore {
            geometry,
            responses,
            binary: Sides::NEITHER,
            end_of_record: Sides::NEITHER,
            phase: if enhanced {
                HostPhase::AskedEnhanced
            } else {
                HostPhase::AskedType
            },
        })
    }

    /// What a host says first, before any event: DO TN3270E, or DO TERMINAL-TYPE for a classic session.
    pub fn begin(&self, out: &mut Out)
        ensures { out.new.items ≡ bytes_of (opening self.now) }
    {
        out.clear();
        let option = match self.phase {
            HostPhase::AskedEnhanced => TelnetOption::Tn3270e,
            HostPhase::AskedType => TelnetOption::TerminalType,
            _ => return,
        };
        Reply::Verb(Verb::Do, option).write(out);
    }

    /// Takes an event: what it means, with the reply's bytes in `out`, which held others before.
    ///
    /// # Errors
    ///
    /// `WrongList`, `BadSubnegotiation`, `OptionRefused`, `NotReady` or `NoDevice`. The core is then as before, and `out`
    /// is empty.
    pub fn step(&mut self, event: &Event<'_>, out: &mut Out) -> Result<Told, SessionFault>
        ensures { Takes (host_step self.old (told_of event.now))
            self.old result self.new out.new.items }
    {
        out.clear();
        match Heard::of(event) {
            Heard::Record => match self.agreed() {
                Some(_agreed) => Ok(Told::Record),
                None => Err(SessionFault::NotReady),
            },
            heard => {
                let before = self.agreed();
                let reply = self.row(&heard)?;
                reply.write(out);
                Ok(told_after(before, self.agreed()))
            }
        }
    }

    /// What the session agreed on, once it is ready.
    pub fn agreed(&self) -> Option<Agreed>
        ensures { result ≡ host_agreed self.now }
    {
        match self.phase {
            HostPhase::Ready(device, responses) => Some(Agreed {
                enhanced: true,
                device,
                responses,
            }),
            HostPhase::Options(device) if self.binary.are_both() && self.end_of_record.are_both() =>
                {
                    Some(Agreed {
                        enhanced: false,
                        device,
                        responses: false,
                    })
                }
            _ => None,
        }
    }

    /// One row of the table.
    fn row(&mut self, heard: &Heard<'_>) -> Result<Reply, SessionFault>
        ensures row { rowed result self.new ≡ host_row self.old (heard_view heard.now) }
        ensures err { OnErr result (self.new ≡ self.old) }
    {
        match *heard {
            Heard::Record | Heard::Nothing => Ok(Reply::Nothing),
            Heard::Verb(Verb::Will, option) => Ok(self.on_will(option)),
            Heard::Verb(Verb::Wont, option) => self.on_wont(option),
            Heard::Verb(Verb::Do, option) => Ok(self.on_do(option)),
            Heard::Verb(Verb::Dont, option) => self.on_dont(option),
            Heard::DeviceRequest(name, joined) => self.on_device_request(name, &joined),
            Heard::FunctionsRequest(list) => self.on_functions_request(list),
            Heard::FunctionsAre(list) => self.on_functions(list),
            Heard::TypeIs(name) => self.on_type(name),
            Heard::SendType | Heard::SendDevice | Heard::Bad => Err(
                SessionFault::BadSubnegotiation,
            ),
            Heard::DeviceIs(_name, _joined) => Err(SessionFault::BadSubnegotiation),
            Heard::DeviceReject(_reason) => Err(SessionFault::BadSubnegotiation),
        }
    }

    /// WILL.
    fn on_will(&mut self, option: TelnetOption) -> Reply
        ensures { rowed (Ok result) self.new ≡ host_will self.old option }
    {
        let offered = self.phase.is_offered();
        match option {
            TelnetOption::Binary => agree(&mut self.binary.theirs, offered, Verb::Do, option),
            TelnetOption::EndOfRecord => agree(
                &mut self.end_of_record.theirs,
                offered,
                Verb::Do,
                option,
            ),
            TelnetOption::TerminalType => self.on_will_type(),
            TelnetOption::Tn3270e => self.on_will_enhanced(),
            TelnetOption::Other(_code) => Reply::Verb(Verb::Dont, option),
        }
    }

    fn on_will_enhanced(&mut self) -> Reply
        ensures { rowed (Ok result) self.new ≡ will_enhanced self.old self.old.phase }
    {
        match self.phase {
            HostPhase::AskedEnhanced => {
                self.phase = HostPhase::Device;
                Reply::SendDevice
            }
            HostPhase::Device | HostPhase::Functions(_, _) | HostPhase::Ready(_, _) =>
                Reply::Nothing,
            _ => Reply::Verb(Verb::Dont, TelnetOption::Tn3270e),
        }
    }

    fn on_will_type(&mut self) -> Reply
        ensures { rowed (Ok result) self.new ≡ will_type self.old self.old.phase }
    {
        match self.phase {
            HostPhase::AskedType => {
                self.phase = HostPhase::AskedName(None);
                Reply::SendType
            }
            HostPhase::AskedName(_) | HostPhase::Options(_) => Reply::Nothing,
            _ => Reply::Verb(Verb::Dont, TelnetOption::TerminalType),
        }
    }

    /// DO.
    fn on_do(&mut self, option: TelnetOption) -> Reply
        ensures { rowed (Ok result) self.new ≡ host_do self.old option }
    {
        let offered = self.phase.is_offered();
        match option {
            TelnetOption::Binary => agree(&mut self.binary.ours, offered, Verb::Will, option),
            TelnetOption::EndOfRecord => agree(
                &mut self.end_of_record.ours,
                offered,
                Verb::Will,
                option,
            ),
            TelnetOption::TerminalType => Reply::Verb(Verb::Wont, option),
            TelnetOption::Tn3270e => Reply::Verb(Verb::Wont, option),
            TelnetOption::Other(_code) => Reply::Verb(Verb::Wont, option),
        }
    }

    /// WONT.
    fn on_wont(&mut self, option: TelnetOption) -> Result<Reply, SessionFault>
        ensures row { rowed result self.new ≡ host_wont self.old option }
        ensures err { OnErr result (self.new ≡ self.old) }
    {
        let offered = self.phase.is_offered();
        match option {
            TelnetOption::Binary => unless_on(offered || self.binary.theirs, option),
            TelnetOption::EndOfRecord => unless_on(offered || self.end_of_record.theirs, option),
            TelnetOption::TerminalType => self.on_wont_type(),
            TelnetOption::Tn3270e => self.on_wont_enhanced(),
            TelnetOption::Other(_code) => Ok(Reply::Nothing),
        }
    }

    fn on_wont_enhanced(&mut self) -> Result<Reply, SessionFault>
        ensures row { rowed result self.new ≡ wont_enhanced self.old self.old.phase }
        ensures err { OnErr result (self.new ≡ self.old) }
    {
        match self.phase {
            HostPhase::AskedEnhanced => {
                self.phase = HostPhase::AskedType;
                Ok(Reply::Verb(Verb::Do, TelnetOption::TerminalType))
            }
            HostPhase::Device | HostPhase::Functions(_, _) | HostPhase::Ready(_, _) => {
                Err(SessionFault::OptionRefused(40))
            }
            _ => Ok(Reply::Nothing),
        }
    }

    fn on_wont_type(&self) -> Result<Reply, SessionFault>
        ensures { rowed result self.now ≡ wont_type self.now self.now.phase }
    {
        match self.phase {
            HostPhase::AskedType => Err(SessionFault::OptionRefused(24)),
            _ => Ok(Reply::Nothing),
        }
    }

    /// DONT.
    fn on_dont(&self, option: TelnetOption) -> Result<Reply, SessionFault>
        ensures { rowed result self.now ≡ host_dont self.now option }
    {
        let offered = self.phase.is_offered();
        match option {
            TelnetOption::Binary => unless_on(offered || self.binary.ours, option),
            TelnetOption::EndOfRecord => unless_on(offered || self.end_of_record.ours, option),
            TelnetOption::TerminalType => Ok(Reply::Nothing),
            TelnetOption::Tn3270e => Ok(Reply::Nothing),
            TelnetOption::Other(_code) => Ok(Reply::Nothing),
        }
    }

    /// DEVICE-TYPE REQUEST.
    fn on_device_request(&mut self, name: &[u8], joined: &Joined<'_>) -> Result<Reply, SessionFault>
        ensures row { rowed result self.new
            ≡ host_device_request self.old name.now (joined_view joined.now) self.old.phase }
        ensures err { OnErr result (self.new ≡ self.old) }
    {
        let HostPhase::Device = self.phase else {
            return Err(SessionFault::BadSubnegotiation);
        };
        match fitting(&self.geometry, name) {
            None => Ok(Reply::DeviceReject(Reason::InvalidDeviceType)),
            Some(device) => Ok(self.on_fitting_device(device, name, joined)),
        }
    }

    /// The same of a device that fits.
    fn on_fitting_device(&mut self, device: Device, name: &[u8], joined: &Joined<'_>) -> Reply
        requires { length name.now ≤ 12 }
        ensures { rowed (Ok result) self.new
            ≡ request_joined self.old name.now device (joined_view joined.now) }
    {
        match joined {
            Joined::Associate => Reply::DeviceReject(Reason::UnsupportedRequest),
            Joined::Connect(resource) if *resource != b"TERM3270".as_slice() => {
                Reply::DeviceReject(Reason::InvalidName)
            }
            _ => {
                self.phase = HostPhase::Functions(device, None);
                let mut granted = DeviceName::new();
                granted.try_extend_from_slice(name).unwrap();
                Reply::DeviceIs(granted)
            }
        }
    }

    /// FUNCTIONS REQUEST.
    fn on_functions_request(&mut self, list: FunctionList) -> Result<Reply, SessionFault>
        ensures row { rowed result self.new ≡ host_functions_request self.old list self.old.phase }
        ensures err { OnErr result (self.new ≡ self.old) }
    {
        let HostPhase::Functions(device, _) = self.phase else {
            return Err(SessionFault::BadSubnegotiation);
        };
        if list.is_within(self.responses) {
            self.phase = HostPhase::Ready(device, list.responses);
            Ok(Reply::FunctionsAre(list.responses))
        } else {
            let supported = list.responses && self.responses;
            self.phase = HostPhase::Functions(device, Some(supported));
            Ok(Reply::FunctionsRequest(supported))
        }
    }

    /// FUNCTIONS IS.
    fn on_functions(&mut self, list: FunctionList) -> Result<Reply, SessionFault>
        ensures row { rowed result self.new ≡ host_functions self.old list self.old.phase }
        ensures err { OnErr result (self.new ≡ self.old) }
    {
        let HostPhase::Functions(device, Some(responses)) = self.phase else {
            return Err(SessionFault::BadSubnegotiation);
        };
        if !list.is_set(responses) {
            return Err(SessionFault::WrongList);
        }
        self.phase = HostPhase::Ready(device, responses);
        Ok(Reply::Nothing)
    }

    /// TERMINAL-TYPE IS.
    fn on_type(&mut self, name: &[u8]) -> Result<Reply, SessionFault>
        ensures row { rowed result self.new ≡ host_type self.old name.now self.old.phase }
        ensures err { OnErr result (self.new ≡ self.old) }
    {
        let HostPhase::AskedName(last) = &self.phase else {
            return Err(SessionFault::BadSubnegotiation);
        };
        if name.len() > 40 {
            return Err(SessionFault::BadSubnegotiation);
        }
        if let Some(device) = fitting(&self.geometry, name) {
            let reply = Reply::Offers(self.end_of_record, self.binary);
            self.phase = HostPhase::Options(device);
            return Ok(reply);
        }
        if is_last(last, name) {
            return Err(SessionFault::NoDevice);
        }
        let mut kept = TypeName::new();
        kept.try_extend_from_slice(name).unwrap();
        self.phase = HostPhase::AskedName(Some(kept));
        Ok(Reply::SendType)
    }
}

/// Whether the name that came before is this one.
fn is_last(last: &Option<TypeName>, name: &[u8]) -> bool
    ensures { result ≡ is_last last.now name.now }
{
    match last {
        None => false,
        Some(last) => last.as_slice() == name,
    }
}

/// Whether a model has both sizes.
fn any_fits(geometry: &Geometry) -> bool
    ensures { result ≡ any_fits geometry.now }
{
    fits(geometry, ScreenModel::Two)
        || fits(geometry, ScreenModel::Three)
        || fits(geometry, ScreenModel::Four)
        || fits(geometry, ScreenModel::Five)
}

/// An option that the session needs comes into force: it is answered where it wasn't offered already.
fn agree(in_force: &mut bool, offered: bool, verb: Verb, option: TelnetOption) -> Reply
    ensures reply { tokens_of result ≡ unless in_force.old (unless offered (said verb option)) }
    ensures on { in_force.new ≡ true }
{
    let reply = once(in_force, verb, option);
    if offered { Reply::Nothing } else { reply }
}
