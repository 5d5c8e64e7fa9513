//! Connect.

ghost use Rattle.std.specs.Prelude.{◌≡◌, ◌++◌, is_some, codes, IfOk, OnOk};
ghost use Rattle.script_requests.specs.Addresses.{read_address, address_fault_text};
ghost use Rattle.script_screens.specs.Lines.{failed};
ghost use Rattle.cli_scripts.specs.Answers.{printed_text};
ghost use Rattle.cli_scripts.specs.Desks.{Keeps, opened};
ghost use Rattle.cli_scripts.specs.Says.{CallsHost, Connects, EndsSaying, IsOpening, unconnected_said, unconnected_text};

use crate::answer::Saying;
use crate::came::Need;
use crate::desk::Desk;
use crate::doing::{Doing, Step};
use crate::host::Host;
use itoa::Buffer;
use script_requests::{push_address_fault, read_address};
use std::alloc::{AllocError, Global};

/// The port of a host that names none (RFC 854).
const TELNET: u16 = 23;

fn failed(alloc: Global, saying: &mut Saying, text: &[u8]) -> Result<Step, AllocError>
    ensures { IfOk result (λ step.
        EndsSaying (failed (printed_text text.now)) step saying.old saying.new) }
{
    Ok(Step::Ended(saying.fail(alloc, text)?))
}

/// Asks for a connection to a host.
fn call(alloc: Global, host: &[u8], port: Option<u16>) -> Result<Step, AllocError>
    ensures { IfOk result (λ step. CallsHost host.now port step) }
{
    let host = Host::new(alloc, host, port.unwrap_or(TELNET))?;
    Ok(Step::Waits(Doing::Calling(host), Need::Connection))
}

/// Connects to the host of an address.
pub(crate) fn connect(
    alloc: Global,
    desk: &Desk,
    text: &[u8],
    saying: &mut Saying,
) -> Result<Step, AllocError>
    ensures { IfOk result (λ step. Connects (is_some desk.now.host) text.now
        (read_address text.now) step saying.old saying.new) }
{
    if desk.is_connected() {
        return failed(alloc, saying, b"Already connected");
    }
    match read_address(text) {
        Ok(address) => call(alloc, address.host, address.port),
        Err(fault) => {
            let mut words = Vec::new(alloc);
            push_address_fault(&mut words, text, fault)?;
            failed(alloc, saying, &words)
        }
    }
}

/// Begins the session with a host that is connected, and waits for its first record.
pub(crate) fn connected(alloc: Global, desk: &mut Desk, host: Host) -> Result<Step, AllocError>
    ensures keeps { Keeps desk.old desk.new }
    ensures opened { OnOk result (desk.new ≡ opened desk.old host) }
    ensures waits { IfOk result (λ step. IsOpening step) }
{
    desk.open_session(alloc, host)?;
    Ok(Step::Waits(Doing::Opening, Need::Bytes))
}

/// Adds a host, its port, and why it could not be connected.
fn push_unconnected(text: &mut Vec<u8>, host: &Host, why: &[u8]) -> Result<(), AllocError>
    ensures { OnOk result (text.new.items
        ≡ text.old.items ++ unconnected_text host.now why.now) }
{
    let mut digits = Buffer::new();
    text.extend_from_slice(host.name())?;
    text.extend_from_slice(b", port ")?;
    text.extend_from_slice(digits.format(host.port()).as_bytes())?;
    text.extend_from_slice(b": ")?;
    text.extend_from_slice(why)
}

/// Says why a host could not be connected.
pub(crate) fn unconnected(
    alloc: Global,
    host: &Host,
    why: &[u8],
    saying: &mut Saying,
) -> Result<Step, AllocError>
    ensures { IfOk result (λ step.
        EndsSaying (unconnected_said host.now why.now) step saying.old saying.new) }
{
    saying.say(alloc, b"Connection failed:")?;
    let mut text = Vec::new(alloc);
    push_unconnected(&mut text, host, why)?;
    failed(alloc, saying, &text)
}

/// Says that the host ended the line.
pub(crate) fn disconnected(alloc: Global, saying: &mut Saying) -> Result<Step, AllocError>
    ensures { IfOk result (λ step.
        EndsSaying (failed (printed_text (codes "Host disconnected"))) step saying.old saying.new) }
{
    failed(alloc, saying, b"Host disconnected")
}
