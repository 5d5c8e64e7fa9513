//! A terminal's session for C, held behind a handle.

ghost use Rattle.std.specs.Prelude.{◌≡◌, None};
ghost use Rattle.session_calls.specs.Calls.{HoldsDue, HoldsFault, HoldsNew, HoldsPressed, HoldsTaken, TellsAgreed, TellsScreen};

use session_calls::{
    HeldSession, SessionStatus, agreed_left, due_left, fault_left, free_session, new_session,
    press_session, screen_left, take_left,
};
use std::alloc::Global;
use terminal_calls::HeldTerminal;

/// A session at its beginning, in place of one that is held.
#[unsafe(no_mangle)]
pub extern "C" fn takvorn_session_new(
    alloc: Global,
    device: &[u8],
    enhanced: bool,
    responses: bool,
    tolerant: bool,
    session: &mut HeldSession,
) -> i32
    ensures { HoldsNew device.now enhanced responses tolerant
        session.old.line session.new.line result }
{
    i32::from(new_session(session, alloc, device, enhanced, responses, tolerant))
}

/// Frees a session that is held.
#[unsafe(no_mangle)]
pub extern "C" fn takvorn_session_free(alloc: Global, session: &mut HeldSession)
    ensures { session.new.line ≡ None }
{
    free_session(session, alloc);
}

/// Bytes of the host are taken.
#[unsafe(no_mangle)]
pub extern "C" fn takvorn_session_take(
    alloc: Global,
    session: &mut HeldSession,
    bytes: &[u8],
) -> i32
    ensures { HoldsTaken bytes.now session.old.line session.new.line result }
{
    i32::from(take_left(session, alloc, bytes))
}

/// A key is pressed.
#[unsafe(no_mangle)]
pub extern "C" fn takvorn_session_press(
    alloc: Global,
    session: &mut HeldSession,
    kind: u8,
    code: u8,
    pressed: &mut u8,
) -> i32
    ensures { HoldsPressed kind code session.old.line session.new.line
        pressed.old pressed.new result }
{
    i32::from(press_session(session, alloc, kind, code, pressed))
}

/// The bytes that are due to the host.
#[unsafe(no_mangle)]
pub extern "C" fn takvorn_session_due(
    alloc: Global,
    session: &mut HeldSession,
    out: &mut [u8],
    needed: &mut usize,
) -> i32
    ensures { HoldsDue session.old.line session.new.line out.old out.new needed.new result }
{
    i32::from(due_left(session, alloc, out, needed))
}

/// Why the session failed.
#[unsafe(no_mangle)]
pub extern "C" fn takvorn_session_fault(
    alloc: Global,
    session: &mut HeldSession,
    out: &mut [u8],
    needed: &mut usize,
) -> i32
    ensures { HoldsFault session.old.line session.new.line out.old out.new needed.new result }
{
    i32::from(fault_left(session, alloc, out, needed))
}

/// What the session agreed on.
#[unsafe(no_mangle)]
pub extern "C" fn takvorn_session_agreed(
    alloc: Global,
    session: &mut HeldSession,
    agreed: &mut SessionStatus,
) -> i32
    ensures told { TellsAgreed session.old.line agreed.old agreed.new result }
    ensures unchanged { session.new.line ≡ session.old.line }
{
    i32::from(agreed_left(session, alloc, agreed))
}

/// A copy of the session's screen, as a terminal that is held.
#[unsafe(no_mangle)]
pub extern "C" fn takvorn_session_screen(
    alloc: Global,
    session: &mut HeldSession,
    screen: &mut HeldTerminal,
) -> i32
    ensures told { TellsScreen session.old.line screen.old.screen screen.new.screen result }
    ensures unchanged { session.new.line ≡ session.old.line }
{
    i32::from(screen_left(session, alloc, screen))
}
