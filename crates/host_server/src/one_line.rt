//! One terminal's line: its stream, as far as it goes without a wait.

ghost use Rattle.std.specs.Prelude.{◌≡◌};

use cli_hosts::{Hosts, Stand};
use mio::net::TcpStream;
use std::alloc::Global;
use std::io::{ErrorKind, Read, Write};

/// How often a line is written and read in one turn.
const MOST_STEPS: u32 = 4;

/// What became of a write.
enum Wrote {
    /// The stream took some of what is due.
    Some,
    /// Nothing is due, or the stream takes nothing now.
    Waits,
    /// It failed.
    Failed,
}

/// Writes what is due to the terminal of a token, once.
fn write_due<H: Hosts>(stream: &mut TcpStream, hosts: &mut H, token: usize) -> Wrote
    ensures kept { H.content hosts.new ≡ H.content hosts.old }
    ensures counted { (H.room hosts.new).came ≡ (H.room hosts.old).came }
{
    let due = hosts.due(token);
    if due.is_empty() {
        return Wrote::Waits;
    }
    match stream.write(due) {
        Ok(0) => Wrote::Failed,
        Ok(count) => {
            hosts.send(token, count);
            Wrote::Some
        }
        Err(error) => match error.kind() {
            ErrorKind::WouldBlock => Wrote::Waits,
            ErrorKind::Interrupted => Wrote::Some,
            _ => Wrote::Failed,
        },
    }
}

/// What became of a read.
enum Came {
    /// The terminal's session took something.
    Some,
    /// Nothing is there now.
    Nothing,
    /// No more comes.
    Ended,
}

/// Reads what came of the terminal of a token, once.
fn read_some<H: Hosts>(
    alloc: Global,
    stream: &mut TcpStream,
    hosts: &mut H,
    token: usize,
    now: u64,
    buffer: &mut [u8],
) -> Came
    ensures kept { H.content hosts.new ≡ H.content hosts.old }
    ensures counted { (H.room hosts.new).came ≡ (H.room hosts.old).came }
{
    match stream.read(buffer) {
        Ok(0) => {
            hosts.close(token);
            Came::Ended
        }
        Ok(count) => {
            hosts.hear(alloc, token, now, &buffer[..count]);
            Came::Some
        }
        Err(error) => match error.kind() {
            ErrorKind::WouldBlock => Came::Nothing,
            ErrorKind::Interrupted => Came::Some,
            _ => {
                hosts.break_off(token);
                Came::Ended
            }
        },
    }
}

/// Whether the session of a token goes on, so that more is read.
fn goes<H: Hosts>(hosts: &H, token: usize) -> bool {
    matches!(hosts.stand(token), Some(Stand::Goes))
}

/// Writes and reads the line of a token until it would block, or has ended: whether it may have more to do, and is to be looked
/// at again.
pub(crate) fn work_line<H: Hosts>(
    alloc: Global,
    stream: &mut TcpStream,
    hosts: &mut H,
    token: usize,
    now: u64,
    buffer: &mut [u8],
) -> bool
    ensures kept { H.content hosts.new ≡ H.content hosts.old }
    ensures counted { (H.room hosts.new).came ≡ (H.room hosts.old).came }
{
    for _ in 0..MOST_STEPS {
        match write_due(stream, hosts, token) {
            Wrote::Some => continue,
            Wrote::Waits => {}
            Wrote::Failed => {
                hosts.break_off(token);
                return false;
            }
        }
        if !goes(hosts, token) {
            return false;
        }
        match read_some(alloc, stream, hosts, token, now, buffer) {
            Came::Some => {}
            Came::Nothing | Came::Ended => return false,
        }
    }
    true
}
