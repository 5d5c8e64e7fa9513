//! The device that a session names, and its sizes.

ghost use Rattle.std.specs.Prelude.{◌≡◌, ◌++◌, ◌<◌, nat_le, IfSome, OnOk, map, position};
ghost use Rattle.std.specs.Option.{option_map};
ghost use Rattle.std.specs.String.{string_bytes};
ghost use Rattle.tn_cores.specs.Devices.{device_of};
ghost use Rattle.tn_wire.specs.Calls.{told_of};
ghost use Rattle.cli_traces.specs.Device.{shown, name_before, type_named, enhanced_named, named_in, device_named, size_words, model_of, model_words, device_text};

use std::alloc::AllocError;
use tn_cores::{Device, ScreenModel};
use tn_traces::Sender;
use tn_wire::Event;

/// The option TERMINAL-TYPE (RFC 1091).
const TERMINAL_TYPE: u8 = 24;

/// The option TN3270E (RFC 2355).
const TN3270E: u8 = 40;

fn join_in(bytes: &[u8]) -> Option<usize>
    ensures { result ≡ position (λ b. nat_le b 1) bytes.now }
{
    bytes.iter().position(|byte| *byte <= 1)
}

/// The name, without what a byte 00 or 01 joins to it.
fn name_before(bytes: &[u8]) -> &[u8]
    ensures { result.now ≡ name_before bytes.now }
{
    match join_in(bytes) {
        None => bytes,
        Some(end) => &bytes[..end],
    }
}

/// The name in the parameters of TERMINAL-TYPE IS.
fn type_named(parameters: &[u8]) -> Option<&[u8]>
    ensures { option_map (λ name. name.now) result ≡ type_named parameters.now }
{
    match parameters {
        [0, name @ ..] => Some(name),
        _ => None,
    }
}

/// The name in the parameters of TN3270E DEVICE-TYPE IS or REQUEST, as the code says.
fn enhanced_named(code: u8, parameters: &[u8]) -> Option<&[u8]>
    ensures { option_map (λ name. name.now) result ≡ enhanced_named code parameters.now }
{
    match parameters {
        [2, second, rest @ ..] if *second == code => Some(name_before(rest)),
        _ => None,
    }
}

fn named_in(sender: Sender, option: u8, parameters: &[u8]) -> Option<&[u8]>
    ensures { option_map (λ name. name.now) result ≡ named_in sender option parameters.now }
{
    match (sender, option) {
        (Sender::Host | Sender::OnlyHost, TN3270E) => enhanced_named(4, parameters),
        (Sender::OnlyTerminal, TN3270E) => enhanced_named(7, parameters),
        (Sender::Terminal | Sender::OnlyTerminal, TERMINAL_TYPE) => type_named(parameters),
        _ => None,
    }
}

/// The name of the device that an event names: the host's DEVICE-TYPE IS, the terminal's
/// TERMINAL-TYPE IS, and its DEVICE-TYPE REQUEST where the host isn't seen.
pub(crate) fn device_named<'a>(sender: Sender, event: &Event<'a>) -> Option<&'a [u8]>
    ensures { option_map (λ name. name.now) result ≡ device_named sender (told_of event.now) }
{
    match event {
        Event::Sub(option, parameters) => named_in(sender, *option, parameters),
        _ => None,
    }
}

/// The sizes of a model, the default and the alternate one, as a line of sizes has them.
pub(crate) fn size_words(model: ScreenModel) -> &'static str
    ensures { result.now ≡ size_words model }
{
    match model {
        ScreenModel::Two => "24x80 24x80",
        ScreenModel::Three => "24x80 32x80",
        ScreenModel::Four => "24x80 43x80",
        ScreenModel::Five => "24x80 27x132",
    }
}

/// A byte that ASCII prints, and `?` in place of another.
fn shown(byte: u8) -> u8
    ensures value { result ≡ shown byte }
    ensures ascii { result < 128 }
{
    if b'!' <= byte && byte <= b'~' {
        byte
    } else {
        b'?'
    }
}

fn push_shown(out: &mut String, bytes: &[u8]) -> Result<(), AllocError>
    ensures { OnOk result (string_bytes out.new ≡ string_bytes out.old ++ map shown bytes.now) }
{
    let mut rest = bytes;
    while let [byte, others @ ..] = rest {
        out.push(char::from(shown(*byte)))?;
        rest = others;
    }
    Ok(())
}

/// The model that a name tells.
pub(crate) fn model_of(name: &[u8]) -> Option<ScreenModel>
    ensures { result ≡ model_of name.now }
{
    Some(Device::from_name(name)?.model)
}

fn push_model(out: &mut String, model: Option<ScreenModel>) -> Result<(), AllocError>
    ensures { OnOk result (string_bytes out.new ≡ string_bytes out.old ++ model_words model) }
{
    match model {
        None => Ok(()),
        Some(model) => {
            out.push_str(", size ")?;
            out.push_str(size_words(model))
        }
    }
}

/// That a device of this name was agreed.
pub(crate) fn push_device(out: &mut String, name: &[u8]) -> Result<(), AllocError>
    ensures { OnOk result
        (string_bytes out.new ≡ string_bytes out.old ++ device_text name.now) }
{
    out.push_str("# device ")?;
    push_shown(out, name)?;
    push_model(out, model_of(name))?;
    out.push_str("\n")
}
