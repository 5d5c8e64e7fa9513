//! Calls on a session that is held: it is made and freed, takes bytes of the host and keys, and shows its screen.

ghost use Rattle.std.specs.Prelude.{◌≡◌, ◌⊎◌, IfOk, None, Some, pos};
ghost use Rattle.session_calls.specs.Calls.{HoldsNew, HoldsTaken, HoldsPressed, IsPressed, IsTaken, TellsScreen, begun_worked, fault_code, keyed_code, pressed_code, pressed_told, taken_code};

use crate::held::HeldSession;
use crate::talking::Talking;
use ds_keys::Key;
use std::alloc::{AllocError, Global};
use terminal_calls::{HeldTerminal, hold_screen, key_at};
use tn_session::{Device, Pressed, Progress, RunFault, TerminalSession};

/// A session at its beginning, of a manner.
fn begin(
    alloc: Global,
    device: Device,
    enhanced: bool,
    responses: bool,
    tolerant: bool,
) -> Result<TerminalSession, AllocError>
    ensures { IfOk result (λ session. session ≡ begun_worked tolerant device enhanced responses) }
{
    if tolerant {
        TerminalSession::tolerant(alloc, device, enhanced, responses)
    } else {
        TerminalSession::new(alloc, device, enhanced, responses)
    }
}

/// Holds a session, in place of one that is held. The status is 0; 4 where a request for memory was refused: then nothing changes.
fn hold(held: &mut HeldSession, alloc: Global, line: Talking) -> u8
    ensures held { result ≡ 0 → held.new.line ≡ Some line }
    ensures unchanged { result ≡ 4 → held.new.line ≡ held.old.line }
    ensures status { (result ≡ 0) ⊎ (result ≡ 4) }
{
    match Box::new(alloc, line) {
        Ok(kept) => {
            held.put(alloc, kept);
            0
        }
        Err(_) => 4,
    }
}

/// Begins a terminal's session, in place of one that is held: of the device with this name, by TN3270E where it is `enhanced`, asking for RESPONSES there
/// where it does `responses`, and tolerant or not. The status is 0; 2 where no device has this name, and 4 where a request for memory was refused: then
/// nothing changes.
pub fn new_session(
    held: &mut HeldSession,
    alloc: Global,
    name: &[u8],
    enhanced: bool,
    responses: bool,
    tolerant: bool,
) -> u8
    ensures { HoldsNew name.now enhanced responses tolerant
        held.old.line held.new.line (pos result) }
{
    let Some(device) = Device::from_name(name) else {
        return 2;
    };
    match begin(alloc, device, enhanced, responses, tolerant) {
        Ok(session) => {
            let due = Vec::new(alloc);
            hold(held, alloc, Talking { session, due })
        }
        Err(_) => 4,
    }
}

/// Frees a session that is held; the handle is null then.
pub fn free_session(held: &mut HeldSession, alloc: Global)
    ensures { held.new.line ≡ None }
{
    drop(held.take(alloc));
}

fn fault_code(why: RunFault) -> u8
    ensures { result ≡ fault_code why }
{
    match why {
        RunFault::OutOfMemory => 4,
        _ => 1,
    }
}

fn taken_code(taken: Result<Progress, RunFault>) -> u8
    ensures { result ≡ taken_code taken }
{
    match taken {
        Ok(_) => 0,
        Err(why) => fault_code(why),
    }
}

pub(crate) fn take_bytes(
    line: &mut Talking,
    alloc: Global,
    bytes: &[u8],
) -> Result<Progress, RunFault>
    ensures { IsTaken bytes.now line.old line.new result }
{
    line.session.take(alloc, bytes, &mut line.due)
}

/// Takes bytes that the host sent, in a piece of any length, and adds what is due after them. The status is 0; 1 where the session failed, and 4 where a
/// request for memory was refused, which are its last word: each later call answers it too; 2 where the handle is null.
pub fn take_left(held: &mut HeldSession, alloc: Global, bytes: &[u8]) -> u8
    ensures { HoldsTaken bytes.now held.old.line held.new.line (pos result) }
{
    let Some(mut line) = held.take(alloc) else {
        return 2;
    };
    let taken = take_bytes(&mut line, alloc, bytes);
    held.put(alloc, line);
    taken_code(taken)
}

fn keyed_code(pressed: Pressed) -> u8
    ensures { result ≡ keyed_code pressed }
{
    match pressed {
        Pressed::Done => 0,
        Pressed::Inhibited => 1,
        Pressed::Ignored => 2,
        Pressed::Sent => 3,
    }
}

fn press_one(line: &mut Talking, alloc: Global, key: Key) -> Result<Pressed, RunFault>
    ensures { IsPressed key line.old line.new result }
{
    line.session.press(alloc, key, &mut line.due)
}

/// Presses a key, adds what it sends to what is due, and leaves 0 where it was done, 1 inhibited, 2 ignored, 3 where the terminal sent. The status is as
/// that of `take_left`; 2 also where there is no such key.
pub fn press_session(
    held: &mut HeldSession,
    alloc: Global,
    kind: u8,
    code: u8,
    pressed: &mut u8,
) -> u8
    ensures { HoldsPressed kind code held.old.line held.new.line
        pressed.old pressed.new (pos result) }
{
    let Some(key) = key_at(kind, code) else {
        return 2;
    };
    let Some(mut line) = held.take(alloc) else {
        return 2;
    };
    let told = press_one(&mut line, alloc, key);
    held.put(alloc, line);
    match told {
        Ok(answer) => {
            *pressed = keyed_code(answer);
            0
        }
        Err(why) => fault_code(why),
    }
}

/// Holds a copy of the session's screen as a terminal, in place of one that is held. After a fault the screen is as that left it. The status is 0; 2 where
/// the session's handle is null, and 4 where a request for memory was refused: then nothing changes.
pub fn screen_left(held: &mut HeldSession, alloc: Global, screen: &mut HeldTerminal) -> u8
    ensures told { TellsScreen held.old.line screen.old.screen screen.new.screen (pos result) }
    ensures unchanged { held.new.line ≡ held.old.line }
{
    let Some(line) = held.take(alloc) else {
        return 2;
    };
    let copied = line.session.screen().copied(alloc);
    held.put(alloc, line);
    match copied {
        Ok(shown) => hold_screen(screen, alloc, shown),
        Err(_) => 4,
    }
}
