//! Names of logical units: what cores say that an event grants, and what sessions tell.

use std::alloc::AllocError;
use test_words::Row;
use tn_session::{Device, Out, ScreenModel, TermCore, TerminalSession, TolerantCore};
use tn_wire::{Deframer, Event, Step};

/// A terminal's core of either manner.
trait Grants {
    /// The name that an event grants, which is then taken: whether that went well.
    fn take(&mut self, row: &mut Row, event: &Event<'_>) -> bool;
}

/// The name that was granted, if one was.
fn push_granted(row: &mut Row, granted: Option<&[u8]>) {
    if let Some(name) = granted {
        row.bytes(name);
        row.word(".");
    }
}

impl Grants for TermCore {
    fn take(&mut self, row: &mut Row, event: &Event<'_>) -> bool {
        push_granted(row, self.granted_lu_name(event));
        self.step(event, &mut Out::new()).is_ok()
    }
}

impl Grants for TolerantCore {
    fn take(&mut self, row: &mut Row, event: &Event<'_>) -> bool {
        push_granted(row, self.granted_lu_name(event));
        let _told = self.step(event, &mut Out::new());
        true
    }
}

/// What a core says of the events of a stream, up to one that it refuses.
fn push_events<G: Grants>(row: &mut Row, core: &mut G, deframer: &mut Deframer, stream: &[u8]) {
    let mut rest = stream;
    'events: while let Ok(Step::Event(event)) = deframer.next(&mut rest) {
        if !core.take(row, &event) {
            return row.word("refused");
        }
    }
}

fn push_core<G: Grants>(row: &mut Row, core: &mut G, stream: &[u8]) {
    let deframer = Deframer::new(row.alloc());
    if let Some(mut deframer) = row.take(deframer) {
        push_events(row, core, &mut deframer, stream);
    }
    row.word(" ");
}

/// The name that a session tells once it has taken a stream.
fn push_session(row: &mut Row, made: Result<TerminalSession, AllocError>, stream: &[u8]) {
    let Some(mut session) = row.take(made) else {
        return;
    };
    let mut due = Vec::new(row.alloc());
    let taken = session.take(row.alloc(), stream, &mut due);
    row.word_if(taken.is_err(), "fault ");
    row.word("[");
    row.bytes(session.lu_name());
    row.word("]");
}

/// What both cores say of the events of `LABEL > HEX`, and the names that both sessions tell after them.
fn push_names(row: &mut Row, words: &str) {
    let (_label, stream) = row.cut(words, " > ");
    let stream = row.read_bytes(stream);
    let device = Device {
        model: ScreenModel::Two,
        extended: false,
    };
    push_core(
        row,
        &mut TermCore::new(device, true, false),
        stream.as_slice(),
    );
    push_core(
        row,
        &mut TermCore::tolerant(device, true, false),
        stream.as_slice(),
    );
    let strict = TerminalSession::new(row.alloc(), device, true, false);
    push_session(row, strict, stream.as_slice());
    let tolerant = TerminalSession::tolerant(row.alloc(), device, true, false);
    push_session(row, tolerant, stream.as_slice());
}

/// Adds what a verb of names answers; whether it is one of these.
pub(crate) fn push_answer(row: &mut Row, verb: &str, words: &str) -> bool {
    if verb != "lu-name" {
        return false;
    }
    push_names(row, words);
    true
}
