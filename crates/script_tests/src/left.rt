//! What a script reads of a session's screen, also once the session failed.

use crate::words::{arguments_of, push_said};
use script_screens::{CodePage, Reading, push_reading};
use test_words::Row;
use tn_session::{Device, ScreenModel, TerminalSession};

/// A terminal of 24 rows of 80 of the classic protocol.
const DEVICE: Device = Device {
    model: ScreenModel::Two,
    extended: false,
};

/// Takes a stream, and adds its fault where it has one.
fn take_stream(row: &mut Row, session: &mut TerminalSession, stream: &[u8]) {
    let mut due = Vec::new(row.alloc());
    if let Err(fault) = session.take(row.alloc(), stream, &mut due) {
        row.show(&fault);
        row.word(" ");
    }
}

/// What `Ascii(0,0,4)` says of the screen of a session that took the stream of `LABEL > HEX`, after its fault where it failed.
fn push_left(row: &mut Row, words: &str) {
    let (_label, stream) = row.cut(words, " > ");
    let stream = row.read_bytes(stream);
    let made = TerminalSession::new(row.alloc(), DEVICE, false, false);
    let Some(mut session) = row.take(made) else {
        return;
    };
    take_stream(row, &mut session, stream.as_slice());
    let arguments = arguments_of(row, "Ascii|0|0|4");
    let mut out = Vec::new(row.alloc());
    let outcome = push_reading(
        &mut out,
        session.screen(),
        CodePage::Bracket,
        Reading::Ascii,
        &arguments,
    );
    push_said(row, &out, outcome);
}

/// Adds what a verb of sessions answers; whether it is one of these.
pub(crate) fn push_answer(row: &mut Row, verb: &str, words: &str) -> bool {
    if verb != "left" {
        return false;
    }
    push_left(row, words);
    true
}
