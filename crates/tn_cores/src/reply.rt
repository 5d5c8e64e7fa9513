//! What a core says, and its bytes.

ghost use Rattle.std.specs.Prelude.{◌≡◌, true, false, Ok, Err, ◌+◌, ◌*◌, ◌≤◌, [], ◌∷◌, ◌++◌, length};
ghost use Rattle.tn_wire.specs.Telnet.{command, subnegotiation, spelling, quoted};
ghost use Rattle.tn_wire.specs.Verbs.{verb_code};
ghost use Rattle.tn_cores.specs.Options.{option_code};
ghost use Rattle.tn_cores.specs.ReplyView.{tokens_of};
ghost use Rattle.tn_cores.specs.Replies.{bytes_of, said, unless, offers, device_is, function_list};

use crate::device::{Device, DeviceName};
use crate::option::{Reason, Sides, TelnetOption};
use crate::session::{Out, SessionFault};
use arrayvec::ArrayVec;
use tn_wire::{IAC, SB, SE, Verb};

/// What a core says.
#[derive(Drop)]
pub(crate) enum Reply {
    /// Nothing.
    Nothing,
    /// A verb.
    Verb(Verb, TelnetOption),
    /// TERMINAL-TYPE SEND.
    SendType,
    /// TERMINAL-TYPE IS, and the device's name.
    TypeIs(Device),
    /// DO and WILL of END-OF-RECORD and BINARY, where not agreed.
    Offers(Sides, Sides),
    /// SEND DEVICE-TYPE.
    SendDevice,
    /// DEVICE-TYPE REQUEST, and the device's name.
    DeviceRequest(Device),
    /// DEVICE-TYPE IS, this name, CONNECT and the resource.
    DeviceIs(DeviceName),
    /// DEVICE-TYPE REJECT REASON.
    DeviceReject(Reason),
    /// FUNCTIONS REQUEST, with RESPONSES or without.
    FunctionsRequest(bool),
    /// FUNCTIONS IS, with RESPONSES or without.
    FunctionsAre(bool),
}

impl Reply {
    /// Writes the reply's bytes.
    pub(crate) fn write(&self, out: &mut Out)
        requires { out.old.items ≡ [] }
        ensures { out.new.items ≡ bytes_of (tokens_of self.now) }
    {
        match self {
            Reply::Nothing => {}
            Reply::Verb(verb, option) => push_verb(out, *verb, *option),
            Reply::SendType => push_sub(out, TelnetOption::TerminalType, &[1]),
            Reply::TypeIs(device) => push_named(
                out,
                TelnetOption::TerminalType,
                &[0],
                &device.name(),
            ),
            Reply::Offers(end_of_record, binary) => push_offers(out, *end_of_record, *binary),
            Reply::SendDevice => push_sub(out, TelnetOption::Tn3270e, &[8, 2]),
            Reply::DeviceRequest(device) => push_named(
                out,
                TelnetOption::Tn3270e,
                &[2, 7],
                &device.name(),
            ),
            Reply::DeviceIs(name) => push_grant(out, name),
            Reply::DeviceReject(reason) => push_sub(
                out,
                TelnetOption::Tn3270e,
                &[2, 6, 5, reason.code()],
            ),
            Reply::FunctionsRequest(responses) => push_functions(out, 7, *responses),
            Reply::FunctionsAre(responses) => push_functions(out, 4, *responses),
        }
    }
}

/// An option that is asked for: it is answered once, when it comes into force.
pub(crate) fn once(in_force: &mut bool, verb: Verb, option: TelnetOption) -> Reply
    ensures reply { tokens_of result ≡ unless in_force.old (said verb option) }
    ensures on { in_force.new ≡ true }
{
    if *in_force {
        return Reply::Nothing;
    }
    *in_force = true;
    Reply::Verb(verb, option)
}

/// An option that is refused: one in force is needed.
pub(crate) fn unless_on(in_force: bool, option: TelnetOption) -> Result<Reply, SessionFault>
    ensures on { in_force ≡ true → result ≡ Err (SessionFault.OptionRefused (option_code option)) }
    ensures off { in_force ≡ false → result ≡ Ok Reply.Nothing }
{
    if in_force {
        Err(SessionFault::OptionRefused(option.code()))
    } else {
        Ok(Reply::Nothing)
    }
}

/// Adds a verb and its option.
fn push_verb(out: &mut Out, verb: Verb, option: TelnetOption)
    requires { length out.old.items + 3 ≤ 64 }
    ensures { out.new.items
        ≡ out.old.items ++ spelling (command (verb_code verb) (option_code option)) }
{
    out.push(IAC);
    out.push(verb.byte());
    out.push(option.code());
}

/// Adds those of DO and WILL that are not yet agreed, first of END-OF-RECORD, then of BINARY.
fn push_offers(out: &mut Out, end_of_record: Sides, binary: Sides)
    requires { out.old.items ≡ [] }
    ensures { out.new.items ≡ bytes_of (offers end_of_record binary) }
{
    if !end_of_record.theirs {
        push_verb(out, Verb::Do, TelnetOption::EndOfRecord);
    }
    if !end_of_record.ours {
        push_verb(out, Verb::Will, TelnetOption::EndOfRecord);
    }
    if !binary.theirs {
        push_verb(out, Verb::Do, TelnetOption::Binary);
    }
    if !binary.ours {
        push_verb(out, Verb::Will, TelnetOption::Binary);
    }
}

/// Adds the words of a subnegotiation, each IAC doubled.
fn push_quoted(out: &mut Out, words: &[u8])
    requires { length out.old.items + 2 * length words.now ≤ 64 }
    ensures bytes { out.new.items ≡ out.old.items ++ quoted words.now }
    ensures room { length out.new.items ≤ length out.old.items + 2 * length words.now }
{
    for word in words {
        out.push(*word);
        if *word == IAC {
            out.push(IAC);
        }
    }
}

/// Adds a subnegotiation.
fn push_sub(out: &mut Out, option: TelnetOption, words: &[u8])
    requires room { length out.old.items + 2 * length words.now + 6 ≤ 64 }
    ensures { out.new.items
        ≡ out.old.items ++ spelling (subnegotiation (option_code option) words.now) }
{
    out.push(IAC);
    out.push(SB);
    push_quoted(out, &[option.code()]);
    push_quoted(out, words);
    out.push(IAC);
    out.push(SE);
}

/// Adds a subnegotiation of words and a name.
fn push_named(out: &mut Out, option: TelnetOption, words: &[u8], name: &[u8])
    requires empty { out.old.items ≡ [] }
    requires few { length words.now ≤ 2 }
    requires short { length name.now ≤ 12 }
    ensures { out.new.items
        ≡ spelling (subnegotiation (option_code option) (words.now ++ name.now)) }
{
    let mut all: ArrayVec<u8, 24> = ArrayVec::new();
    all.try_extend_from_slice(words).unwrap();
    all.try_extend_from_slice(name).unwrap();
    push_sub(out, option, &all);
}

/// Adds DEVICE-TYPE IS, the name, CONNECT and the one resource.
fn push_grant(out: &mut Out, name: &DeviceName)
    requires { out.old.items ≡ [] }
    ensures { out.new.items ≡ bytes_of (device_is name.now.items) }
{
    let mut words: ArrayVec<u8, 24> = ArrayVec::new();
    words.try_extend_from_slice(&[2, 4]).unwrap();
    words.try_extend_from_slice(name).unwrap();
    words.push(1);
    words.try_extend_from_slice(b"TERM3270").unwrap();
    push_sub(out, TelnetOption::Tn3270e, &words);
}

/// Adds a message on a set of functions.
fn push_functions(out: &mut Out, word: u8, responses: bool)
    requires { out.old.items ≡ [] }
    ensures { out.new.items ≡ spelling (subnegotiation 40 (3 ∷ word ∷ function_list responses)) }
{
    if responses {
        push_sub(out, TelnetOption::Tn3270e, &[3, word, 2]);
    } else {
        push_sub(out, TelnetOption::Tn3270e, &[3, word]);
    }
}
