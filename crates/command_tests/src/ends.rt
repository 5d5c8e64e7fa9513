//! A core of either end, over a stream whole and byte by byte.

use std::alloc::Global;
use test_words::Row;
use tn_session::{Agreed, Device, HostCore, Out, SessionFault, TermCore, Told, TolerantCore};
use tn_wire::{Deframer, Event, Step};

/// A core of either end.
pub(crate) trait Core {
    /// One step.
    fn take(&mut self, event: &Event<'_>, out: &mut Out) -> Result<Told, SessionFault>;
}

impl Core for TermCore {
    fn take(&mut self, event: &Event<'_>, out: &mut Out) -> Result<Told, SessionFault> {
        self.step(event, out)
    }
}

impl Core for TolerantCore {
    fn take(&mut self, event: &Event<'_>, out: &mut Out) -> Result<Told, SessionFault> {
        Ok(self.step(event, out))
    }
}

impl Core for HostCore {
    fn take(&mut self, event: &Event<'_>, out: &mut Out) -> Result<Told, SessionFault> {
        self.step(event, out)
    }
}

pub(crate) fn push_name(row: &mut Row, device: Device) {
    for byte in device.name().as_slice() {
        let pushed = row.text.push(char::from(*byte));
        row.note(pushed);
    }
}

/// What a session agreed on, in words.
fn push_agreed(row: &mut Row, agreed: &Agreed) {
    row.word(if agreed.enhanced {
        "ready enhanced "
    } else {
        "ready classic "
    });
    push_name(row, agreed.device);
    row.word_if(agreed.responses, " responses");
}

fn push_told(row: &mut Row, told: &Told) {
    match told {
        Told::Nothing => {}
        Told::Record => row.word("record"),
        Told::Ready(agreed) => push_agreed(row, agreed),
    }
}

/// The number of a fault.
fn push_fault_number(row: &mut Row, fault: &SessionFault) {
    if let Some(words) = row.take(fault.to_string(row.alloc())) {
        let (number, _name) = row.cut(words.as_str(), " ");
        row.word(number);
    }
}

/// A fault's number, and the code that it carries.
fn push_fault(row: &mut Row, fault: &SessionFault) {
    push_fault_number(row, fault);
    match fault {
        SessionFault::Rejected(code) => row.word_hex(" ", *code),
        SessionFault::OptionRefused(code) => row.word_hex(" ", *code),
        _ => {}
    }
}

/// What is told of an event, after a reply or none; a dash for neither.
fn push_result(row: &mut Row, is_silent: bool, taken: Result<Told, SessionFault>) {
    if taken == Ok(Told::Nothing) {
        row.word_if(is_silent, "-");
        return;
    }
    row.word_if(!is_silent, " ");
    match taken {
        Ok(told) => push_told(row, &told),
        Err(fault) => push_fault(row, &fault),
    }
}

/// What one event gives: the reply's bytes, and what is told.
fn push_step<C: Core>(row: &mut Row, core: &mut C, event: &Event<'_>) {
    let mut reply = Out::new();
    let taken = core.take(event, &mut reply);
    row.bytes(reply.as_slice());
    push_result(row, reply.as_slice().is_empty(), taken);
    row.word(";");
}

/// What a piece gives, event by event.
fn push_piece<C: Core>(row: &mut Row, core: &mut C, deframer: &mut Deframer, piece: &[u8]) {
    let mut rest = piece;
    'events: loop {
        match deframer.next(&mut rest) {
            Ok(Step::NeedMore) => return,
            Ok(Step::Event(event)) => push_step(row, core, &event),
            Err(fault) => {
                row.show(&fault);
                return row.word(";");
            }
        }
    }
}

/// What a core gives to a stream that comes whole.
fn whole<C: Core>(alloc: Global, core: &mut C, stream: &[u8]) -> Row {
    let mut row = Row::new(alloc);
    match Deframer::new(alloc) {
        Ok(mut deframer) => push_piece(&mut row, core, &mut deframer, stream),
        Err(_) => row.spoil(),
    }
    row
}

fn push_bytewise<C: Core>(row: &mut Row, core: &mut C, deframer: &mut Deframer, stream: &[u8]) {
    for byte in stream.chunks(1) {
        push_piece(row, core, deframer, byte);
    }
}

/// What it gives to the stream byte by byte.
fn byte_by_byte<C: Core>(alloc: Global, core: &mut C, stream: &[u8]) -> Row {
    let mut row = Row::new(alloc);
    match Deframer::new(alloc) {
        Ok(mut deframer) => push_bytewise(&mut row, core, &mut deframer, stream),
        Err(_) => row.spoil(),
    }
    row
}

/// Spoils a row where what is not printed is spoilt.
fn pass(row: &mut Row, unprinted: Row) {
    let _text = row.take(unprinted.finish());
}

/// What a core answers to these events after those before, and whether an equal one answers the same byte by byte.
pub(crate) fn push_answers<C: Core>(
    row: &mut Row,
    core: &mut C,
    again: &mut C,
    before: &[u8],
    events: &[u8],
) {
    let alloc = row.alloc();
    pass(row, whole(alloc, core, before));
    let text = whole(alloc, core, events);
    pass(row, byte_by_byte(alloc, again, before));
    let pieces = byte_by_byte(alloc, again, events);
    row.join(&text);
    if !pieces.says(text.text.as_str()) {
        row.word(" but byte by byte ");
        row.join(&pieces);
    }
}
