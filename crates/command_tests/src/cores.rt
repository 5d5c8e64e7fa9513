//! The cores of sessions: what they answer to events, say first, and refuse with.

use crate::ends::{push_answers, push_name};
use ds_codec::Size;
use scr_layout::Layout;
use std::alloc::Global;
use test_words::Row;
use tn_session::{
    Device, HostCore, Out, ScreenModel, SessionFault, TermCore, delivery_law, key_law, one_log,
    outcome_law, pair_law, pieces_law, reply_law, storm_law, tolerant_pair_law, work_law,
};

/// Whose core it is.
#[derive(Clone, Copy)]
enum End {
    Terminal,
    Tolerant,
    Host,
}

/// Which core events come to.
#[derive(Drop)]
pub(crate) struct Setup {
    end: End,
    enhanced: bool,
    responses: bool,
    before: Vec<u8>,
}

/// A new terminal, classic and without RESPONSES.
pub(crate) fn first_setup(alloc: Global) -> Setup {
    Setup {
        end: End::Terminal,
        enhanced: false,
        responses: false,
        before: Vec::new(alloc),
    }
}

/// The setup of `terminal classic responses HEX` or `host enhanced none`.
fn read_setup(row: &mut Row, end: End, words: &str) -> Setup {
    let (kind, rest) = row.cut(words, " ");
    let (responses, before) = rest.split_once(' ').unwrap_or((rest, ""));
    Setup {
        end,
        enhanced: kind == "enhanced",
        responses: responses == "responses",
        before: row.read_bytes(before),
    }
}

/// Takes a line that says which core events come to; whether it is one.
pub(crate) fn take_line(row: &mut Row, setup: &mut Setup, verb: &str, words: &str) -> bool {
    match verb {
        "terminal" => *setup = read_setup(row, End::Terminal, words),
        "tolerant" => *setup = read_setup(row, End::Tolerant, words),
        "host" => *setup = read_setup(row, End::Host, words),
        _ => return false,
    }
    true
}

fn push_of_terminal(row: &mut Row, setup: &Setup, events: &[u8]) {
    let device = Device {
        model: ScreenModel::Two,
        extended: false,
    };
    let mut core = TermCore::new(device, setup.enhanced, setup.responses);
    let mut again = core;
    push_answers(row, &mut core, &mut again, setup.before.as_slice(), events);
}

fn push_of_tolerant(row: &mut Row, setup: &Setup, events: &[u8]) {
    let device = Device {
        model: ScreenModel::Two,
        extended: false,
    };
    let mut core = TermCore::tolerant(device, setup.enhanced, setup.responses);
    let mut again = core;
    push_answers(row, &mut core, &mut again, setup.before.as_slice(), events);
    row.word(" ");
    push_name(row, core.device());
}

fn host_core(row: &mut Row, setup: &Setup) -> Option<HostCore> {
    let layout = row.take(Layout::from_text(row.alloc(), ""))?;
    row.take(HostCore::new(&layout, setup.enhanced, setup.responses))
}

fn push_of_host(row: &mut Row, setup: &Setup, events: &[u8]) {
    if let Some(mut core) = host_core(row, setup) {
        if let Some(mut again) = host_core(row, setup) {
            push_answers(row, &mut core, &mut again, setup.before.as_slice(), events);
        }
    }
}

/// What a core of this setup answers to the events of `LABEL > HEX`, once the events before have come.
fn push_events(row: &mut Row, setup: &Setup, words: &str) {
    let (_label, events) = row.cut(words, " > ");
    let events = row.read_bytes(events);
    match setup.end {
        End::Terminal => push_of_terminal(row, setup, events.as_slice()),
        End::Tolerant => push_of_tolerant(row, setup, events.as_slice()),
        End::Host => push_of_host(row, setup, events.as_slice()),
    }
}

fn push_size(row: &mut Row, size: Size) {
    row.word_number(" ", u32::from(size.rows));
    row.word_number("x", u32::from(size.cols));
}

/// The device of a name, as it is written, and its sizes.
fn push_device(row: &mut Row, name: &str) {
    match Device::from_name(name.as_bytes()) {
        Some(device) => {
            push_name(row, device);
            push_size(row, device.geometry().default_size());
            push_size(row, device.geometry().alternate_size());
        }
        None => row.word("none"),
    }
}

fn push_layout_text(row: &mut Row, sizes: &str) {
    let (default, alternate) = row.cut(sizes, " ");
    row.word("default = \"");
    row.word(default);
    row.word("\"\nalternate = \"");
    row.word(alternate);
    row.word("\"\n");
}

/// A layout of two sizes.
fn read_layout(row: &mut Row, sizes: &str) -> Option<Layout> {
    let mut text = Row::new(row.alloc());
    push_layout_text(&mut text, sizes);
    let text = row.take(text.finish())?;
    row.take(Layout::from_text(row.alloc(), text.as_str()))
}

/// What a host says first, after a byte that is there already.
fn push_opening(row: &mut Row, core: &HostCore) {
    let mut out = Out::new();
    out.push(0x41);
    core.begin(&mut out);
    row.bytes(out.as_slice());
}

/// What a host for a layout says first.
fn push_first(row: &mut Row, layout: &Layout, enhanced: bool) {
    match HostCore::new(layout, enhanced, true) {
        Ok(core) => push_opening(row, &core),
        Err(fault) => row.show(&fault),
    }
    row.word(";");
}

/// What a host for a layout of these two sizes says first, for either kind of session.
fn push_layout(row: &mut Row, sizes: &str) {
    if let Some(layout) = read_layout(row, sizes) {
        push_first(row, &layout, true);
        push_first(row, &layout, false);
    }
}

/// Every refusal's words.
fn push_faults(row: &mut Row) {
    let faults = [
        SessionFault::Rejected(4),
        SessionFault::WrongList,
        SessionFault::BadSubnegotiation,
        SessionFault::OptionRefused(40),
        SessionFault::NotReady,
        SessionFault::BadResponse,
        SessionFault::TooManyReads,
        SessionFault::LineFault,
        SessionFault::NoDevice,
        SessionFault::Closed,
        SessionFault::TerminalRefused(2),
    ];
    for fault in faults {
        row.show(&fault);
        row.word(";");
    }
}

/// Each law does nothing.
fn push_laws(row: &mut Row) {
    pair_law();
    delivery_law();
    reply_law();
    key_law();
    one_log::<u8>();
    outcome_law();
    pieces_law::<u8>();
    work_law();
    tolerant_pair_law();
    storm_law();
    row.word("done");
}

/// Adds what a verb of the cores answers; whether it is one of these.
pub(crate) fn push_answer(row: &mut Row, setup: &Setup, verb: &str, words: &str) -> bool {
    match verb {
        "event" => push_events(row, setup, words),
        "name" => push_device(row, words),
        "layout" => push_layout(row, words),
        "faults" => push_faults(row),
        "session-laws" => push_laws(row),
        _ => return false,
    }
    true
}
