//! The ends' sessions without a line: fed the bytes of a run in pieces of several lengths, they give and tell what the run does.

use crate::asked::{Asked, End, Hosted, push_piece};
use crate::runs::{lent, push_outcome, push_report};
use ds_codec::Aid;
use ds_keys::Key;
use ds_screen::Lock;
use ds_strokes::Stroke;
use std::alloc::{AllocError, Global};
use test_words::Row;
use tn_session::{
    Device, HostSession, Pressed, Progress, Report, RunEnd, RunFault, ScreenModel, SessionFault,
    TerminalSession,
};

/// What is done at a terminal's session.
trait Act {
    fn act(
        &self,
        alloc: Global,
        session: &mut TerminalSession,
        due: &mut Vec<u8>,
    ) -> Result<Pressed, RunFault>;
}

impl Act for Key {
    fn act(
        &self,
        alloc: Global,
        session: &mut TerminalSession,
        due: &mut Vec<u8>,
    ) -> Result<Pressed, RunFault> {
        session.press(alloc, *self, due)
    }
}

impl Act for Stroke {
    fn act(
        &self,
        alloc: Global,
        session: &mut TerminalSession,
        due: &mut Vec<u8>,
    ) -> Result<Pressed, RunFault> {
        session.strike(alloc, *self, due)
    }
}

/// What a session gave, and what it told at its end; and whether it told its fault again, and took and gave nothing then.
#[derive(Drop)]
pub(crate) struct Given {
    pub told: Row,
    pub written: Vec<u8>,
    pub stays: bool,
}

fn nothing(alloc: Global) -> Given {
    Given {
        told: Row::new(alloc),
        written: Vec::new(alloc),
        stays: true,
    }
}

/// The bytes in pieces of so many at most. A piece ends with a record too, so that keys can be pressed right after it.
fn cut(row: &mut Row, bytes: &[u8], most: usize) -> Vec<Vec<u8>> {
    let mut pieces = Vec::new(row.alloc());
    let mut piece = Vec::new(row.alloc());
    let mut last = 0;
    for byte in bytes {
        if piece.push(*byte).is_err() {
            row.spoil();
        }
        if piece.len() >= most || (last == 0xff && *byte == 0xef) {
            push_piece(row, &mut pieces, piece.as_slice());
            piece.clear();
        }
        last = *byte;
    }
    push_piece(row, &mut pieces, piece.as_slice());
    pieces
}

/// Whether a host's session that failed answers its fault again, and gives nothing more.
fn host_stays(
    alloc: Global,
    session: &mut HostSession<'_>,
    given: &mut Given,
    fault: RunFault,
) -> bool {
    let before = given.written.len();
    let again = session.take(alloc, &[0xff, 0xef], &mut given.written);
    again == Err(fault) && given.written.len() == before && session.outcome().is_none()
}

/// What a host's session tells at its end.
fn host_told(session: HostSession<'_>, given: &mut Given) {
    match session.into_outcome() {
        Some(outcome) => push_outcome(&mut given.told, &outcome),
        None => given.told.word("none"),
    }
}

fn feed_host(alloc: Global, asked: &Asked, host: &Hosted, pieces: &[Vec<u8>]) -> Given {
    let mut given = nothing(alloc);
    let records = lent(&mut given.told, host.records.as_slice());
    let made = HostSession::new(
        alloc,
        &host.layout,
        records.as_slice(),
        asked.enhanced,
        asked.responses,
    );
    let mut session = match made {
        Ok(session) => session,
        Err(fault) => {
            given.told.show(&fault);
            return given;
        }
    };
    let begun = session.begin(&mut given.written);
    given.told.note(begun);
    for piece in pieces {
        match session.take(alloc, piece.as_slice(), &mut given.written) {
            Ok(Progress::More) => {}
            Ok(Progress::Done { .. }) => {
                host_told(session, &mut given);
                return given;
            }
            Err(fault) => {
                given.told.show(&fault);
                given.stays = host_stays(alloc, &mut session, &mut given, fault);
                return given;
            }
        }
    }
    given.told.show(&RunFault::Session(SessionFault::Closed));
    given
}

/// What came to a terminal's session, as a run reports it.
fn terminal_told(session: &mut TerminalSession, given: &mut Given, end: RunEnd) {
    let arrived = session.arrived();
    let report = Report {
        end,
        answers: arrived.answers,
        passed: arrived.passed,
        refused: arrived.refused,
    };
    push_report(&mut given.told, &report);
}

/// Whether a terminal's session that failed answers its fault again to bytes, to a key and to a stroke, and gives nothing more.
fn terminal_stays(
    alloc: Global,
    session: &mut TerminalSession,
    given: &mut Given,
    fault: RunFault,
) -> bool {
    let before = given.written.len();
    let again = session.take(alloc, &[0xff, 0xef], &mut given.written);
    let pressed = session.press(alloc, Key::Home, &mut given.written);
    let struck = session.strike(alloc, Stroke::Insert, &mut given.written);
    again == Err(fault)
        && pressed == Err(fault)
        && struck == Err(fault)
        && given.written.len() == before
        && !session.is_ready()
}

/// Presses the keys that are left, or strikes, until the keyboard waits: how many are pressed then.
fn press_keys<A: Act>(
    alloc: Global,
    session: &mut TerminalSession,
    keys: &[A],
    pressed: usize,
    given: &mut Given,
) -> usize {
    let mut count = pressed;
    for key in keys.iter().skip(pressed) {
        if session.screen().lock() == Lock::Waiting {
            return count;
        }
        if key.act(alloc, session, &mut given.written).is_err() {
            given.told.spoil();
        }
        count = count.saturating_add(1);
    }
    count
}

fn feed_terminal<A: Act>(alloc: Global, asked: &Asked, keys: &[A], pieces: &[Vec<u8>]) -> Given {
    let device = Device {
        model: ScreenModel::Two,
        extended: false,
    };
    let mut given = nothing(alloc);
    let made = TerminalSession::new(alloc, device, asked.enhanced, asked.responses);
    let Some(mut session) = given.told.take(made) else {
        return given;
    };
    let begun = session.begin(&mut given.written);
    given.told.note(begun);
    let mut pressed = 0;
    let mut was_free = false;
    for piece in pieces {
        if let Err(fault) = session.take(alloc, piece.as_slice(), &mut given.written) {
            given.told.show(&fault);
            given.stays = terminal_stays(alloc, &mut session, &mut given, fault);
            return given;
        }
        was_free = was_free || session.screen().lock() == Lock::Free;
        pressed = press_keys(alloc, &mut session, keys, pressed, &mut given);
        if was_free && pressed >= keys.len() {
            terminal_told(&mut session, &mut given, RunEnd::KeysUsed);
            return given;
        }
    }
    terminal_told(&mut session, &mut given, RunEnd::Closed);
    given
}

/// What the end gives and tells that is fed the bytes in pieces of so many at most.
pub(crate) fn feed(row: &mut Row, asked: &Asked, bytes: &[u8], most: usize) -> Given {
    let pieces = cut(row, bytes, most);
    match &asked.end {
        End::Terminal(keys) => feed_terminal(
            row.alloc(),
            asked,
            keys.as_slice(),
            pieces.as_slice(),
        ),
        End::Operator(strokes) => feed_terminal(
            row.alloc(),
            asked,
            strokes.as_slice(),
            pieces.as_slice(),
        ),
        End::Host(host) => feed_host(row.alloc(), asked, host, pieces.as_slice()),
    }
}

/// Adds what becomes of a key or a stroke, and whether insert mode is on then.
fn push_act<A: Act>(row: &mut Row, session: &mut TerminalSession, due: &mut Vec<u8>, act: &A) {
    match act.act(row.alloc(), session, due) {
        Ok(pressed) => {
            row.word(match pressed {
                Pressed::Done => "done ",
                Pressed::Inhibited => "inhibited ",
                Pressed::Ignored => "ignored ",
                Pressed::Sent => "sent ",
            });
            row.word(if session.inserts() { "on " } else { "off " });
        }
        Err(_) => row.spoil(),
    }
}

/// A terminal that is struck before its session is ready, and is pressed and struck once it has taken the bytes: what became of
/// each key and stroke, whether insert mode was on then, and what it gave.
pub(crate) fn push_insert_mode(row: &mut Row, words: &str) {
    let device = Device {
        model: ScreenModel::Two,
        extended: false,
    };
    let bytes = row.read_bytes(words);
    let mut due = Vec::new(row.alloc());
    let made = TerminalSession::new(row.alloc(), device, false, false);
    let Some(mut session) = row.take(made) else {
        return;
    };
    push_act(row, &mut session, &mut due, &Stroke::Insert);
    let taken = session.take(row.alloc(), bytes.as_slice(), &mut due);
    row.word_if(taken.is_err(), "fault ");
    push_act(row, &mut session, &mut due, &Stroke::Insert);
    push_act(row, &mut session, &mut due, &Key::Typed(0xe8));
    push_act(row, &mut session, &mut due, &Stroke::Key(Key::Typed(0xe7)));
    push_act(row, &mut session, &mut due, &Stroke::Key(Key::Reset));
    push_act(row, &mut session, &mut due, &Stroke::Insert);
    push_act(
        row,
        &mut session,
        &mut due,
        &Stroke::Key(Key::Attention(Aid::enter())),
    );
    row.bytes(due.as_slice());
}
