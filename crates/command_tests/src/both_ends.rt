//! Both ends of a session in one process, without a socket: the bytes of each are handed to the other until neither has more
//! to say. A host shows a screen, somebody types at the terminal and presses Enter, and the answer is bound to its field.

use ds_codec::Aid;
use ds_keys::Key;
use scr_layout::Layout;
use std::alloc::Global;
use test_words::Row;
use tn_session::{Device, HostSession, RunFault, ScreenModel, TerminalSession};

/// The field that the host's program reads back.
const LAYOUT: &str = "[[field]]\nname = \"userid\"\nrow = 1\ncol = 9\nlength = 8\n";

/// Erase/Write: USERID, an input of eight characters with the cursor, and the attribute that ends it.
const SCREEN: [u8; 18] = [
    0xf5, 0xc3, 0x1d, 0xf0, 0xe4, 0xe2, 0xc5, 0xd9, 0xc9, 0xc4, 0x1d, 0x40, 0x13, 0x11, 0x40, 0x50,
    0x1d, 0xf0,
];

/// Bytes on their way.
#[derive(Drop)]
struct Bytes {
    to_terminal: Vec<u8>,
    to_host: Vec<u8>,
}

/// Hands the bytes of each end to the other, until neither has more to say.
fn hand_on(
    alloc: Global,
    host: &mut HostSession<'_>,
    terminal: &mut TerminalSession,
    bytes: &mut Bytes,
) -> Result<(), RunFault> {
    for _turn in 0..16 {
        terminal.take(alloc, bytes.to_terminal.as_slice(), &mut bytes.to_host)?;
        bytes.to_terminal.clear();
        host.take(alloc, bytes.to_host.as_slice(), &mut bytes.to_terminal)?;
        bytes.to_host.clear();
    }
    Ok(())
}

/// How bytes are handed on: so many at a time, and to the ends in the order of four bits, again and again; or each end's whole
/// bytes in turn, where there is no order.
#[derive(Clone, Copy)]
struct Handing {
    most: usize,
    order: u32,
}

/// The terminal takes some of the bytes that wait for it.
fn give_terminal(
    alloc: Global,
    terminal: &mut TerminalSession,
    bytes: &mut Bytes,
    most: usize,
) -> Result<(), RunFault> {
    let count = bytes.to_terminal.len().min(most);
    let (piece, rest) = bytes.to_terminal.as_slice().split_at(count);
    terminal.take(alloc, piece, &mut bytes.to_host)?;
    bytes.to_terminal = rest.to_vec(alloc)?;
    Ok(())
}

/// The host takes some of the bytes that wait for it.
fn give_host(
    alloc: Global,
    host: &mut HostSession<'_>,
    bytes: &mut Bytes,
    most: usize,
) -> Result<(), RunFault> {
    let count = bytes.to_host.len().min(most);
    let (piece, rest) = bytes.to_host.as_slice().split_at(count);
    host.take(alloc, piece, &mut bytes.to_terminal)?;
    bytes.to_host = rest.to_vec(alloc)?;
    Ok(())
}

/// Hands bytes on, in parts and in an order.
fn hand_on_so(
    alloc: Global,
    host: &mut HostSession<'_>,
    terminal: &mut TerminalSession,
    bytes: &mut Bytes,
    how: Handing,
) -> Result<(), RunFault> {
    if how.order == 0 {
        return hand_on(alloc, host, terminal, bytes);
    }
    let mut order = how.order % 16;
    for _turn in 0..800 {
        if order % 2 == 0 {
            give_terminal(alloc, terminal, bytes, how.most)?;
            order /= 2;
        } else {
            give_host(alloc, host, bytes, how.most)?;
            order = order / 2 + 8;
        }
    }
    Ok(())
}

/// Types ANNA and presses Enter.
fn type_anna(
    alloc: Global,
    terminal: &mut TerminalSession,
    to_host: &mut Vec<u8>,
) -> Result<(), RunFault> {
    for code in [0xc1, 0xd5, 0xd5, 0xc1] {
        terminal.press(alloc, Key::Typed(code), to_host)?;
    }
    terminal.press(alloc, Key::Attention(Aid::enter()), to_host)?;
    Ok(())
}

/// Whether the terminal is ready, and the first row of its screen.
fn push_screen(row: &mut Row, terminal: &TerminalSession) {
    row.word(if terminal.is_ready() {
        "ready "
    } else {
        "not ready "
    });
    let screen = terminal.screen();
    if screen.size().rows > 0 {
        let shown = screen.shown_row(row.alloc(), 0);
        if let Some(text) = row.take(shown) {
            row.word(text.as_str());
        }
    }
}

/// The records that came to the terminal and its answers, and what came of the session.
fn push_end(row: &mut Row, host: &HostSession<'_>, terminal: &mut TerminalSession) {
    let arrived = terminal.arrived();
    row.word(" taken ");
    row.show(&arrived.taken);
    row.word(" answers ");
    row.show(&arrived.answers);
    if let Some(kept) = terminal.turns() {
        row.word_length(" kept ", kept.len());
    }
    if let Some(outcome) = host.outcome() {
        row.word_hex(" aid ", outcome.aid.byte());
        for (entry, bytes) in outcome.fields.as_slice() {
            row.word_length(" ", *entry);
            row.word("=");
            row.bytes(bytes.as_slice());
        }
    }
}

fn work(
    row: &mut Row,
    host: &mut HostSession<'_>,
    terminal: &mut TerminalSession,
    how: Handing,
) -> Result<(), RunFault> {
    let alloc = row.alloc();
    let mut bytes = Bytes {
        to_terminal: Vec::new(alloc),
        to_host: Vec::new(alloc),
    };
    host.begin(&mut bytes.to_terminal)?;
    hand_on_so(alloc, host, terminal, &mut bytes, how)?;
    push_screen(row, terminal);
    type_anna(alloc, terminal, &mut bytes.to_host)?;
    hand_on_so(alloc, host, terminal, &mut bytes, how)?;
    push_end(row, host, terminal);
    Ok(())
}

/// A host of this layout and a terminal that talk.
fn push_talk(row: &mut Row, layout: &Layout, how: Handing) {
    let alloc = row.alloc();
    let records = [SCREEN.as_slice()];
    let device = Device {
        model: ScreenModel::Two,
        extended: false,
    };
    let host = HostSession::new(alloc, layout, records.as_slice(), true, true);
    let terminal = TerminalSession::new(alloc, device, true, true);
    if let (Some(mut host), Some(mut terminal)) = (row.take(host), row.take(terminal)) {
        if let Err(fault) = work(row, &mut host, &mut terminal, how) {
            row.show(&fault);
        }
    }
}

/// How many bytes the terminal of a new session answers to what its host says first.
fn first_answer(alloc: Global, layout: &Layout) -> Result<usize, RunFault> {
    let host = HostSession::new(alloc, layout, &[], true, true)?;
    let device = Device {
        model: ScreenModel::Five,
        extended: true,
    };
    let mut terminal = TerminalSession::new(alloc, device, true, true)?;
    let mut to_terminal = Vec::new(alloc);
    let mut to_host = Vec::new(alloc);
    host.begin(&mut to_terminal)?;
    terminal.take(alloc, to_terminal.as_slice(), &mut to_host)?;
    Ok(to_host.len())
}

/// So many sessions of both ends, one after the other: the bytes that their terminals answer in all.
pub(crate) fn push_many(row: &mut Row, words: &str) {
    let count = row.read_number(words);
    let layout = Layout::from_text(row.alloc(), LAYOUT);
    let Some(layout) = row.take(layout) else {
        return;
    };
    let mut all = 0_usize;
    for _session in 0..count {
        let answer = first_answer(row.alloc(), &layout);
        all = all.saturating_add(row.take(answer).unwrap_or(0));
    }
    row.word_length("", all);
}

/// What the ends say of each other, handed on in this way.
fn talk(row: &mut Row, layout: &Layout, most: usize, order: u32) -> Row {
    let mut other = Row::new(row.alloc());
    push_talk(&mut other, layout, Handing { most, order });
    other
}

/// Both ends in one process, and each way of handing on that makes a difference: there must be none.
pub(crate) fn push_both(row: &mut Row) {
    let layout = Layout::from_text(row.alloc(), LAYOUT);
    let Some(layout) = row.take(layout) else {
        return;
    };
    let whole = talk(row, &layout, 0, 0);
    row.join(&whole);
    for order in 1..15 {
        for most in [1, 2, 3, 7, 1_000] {
            let other = talk(row, &layout, most, order);
            if !other.says(whole.text.as_str()) {
                row.word_number(" but in order ", order);
                row.word_length(" by ", most);
            }
        }
    }
}
