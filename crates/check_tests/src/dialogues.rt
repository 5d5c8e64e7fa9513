//! Generated dialogues: turns with layouts that conform, judged, and then played with keys by a terminal.

use crate::findings::push_judged;
use crate::script::{copied, keep};
use crate::talks::{Round, push_round, push_talk};
use ds_codec::{Cell, Mode, encode_address};
use ds_inbound::Inbound;
use ds_keys::key_of_line;
use ds_screen::{FieldAt, Lock, PlainCells, Screen};
use ds_terminal::{KeyReply, Terminal};
use scr_check::bind;
use scr_layout::Layout;
use test_words::Row;

/// The keys between two screens.
const KEYS: &[&str] = &[
    "type C1",
    "type C2",
    "type F5",
    "tab",
    "backtab",
    "delete",
    "eraseeof",
    "eraseinput",
    "home",
    "newline",
    "left",
    "right",
    "up",
    "down",
    "reset",
    "type C9",
];

/// Keys that send and end a turn.
const ENDS: &[&str] = &["enter", "pf3", "pa1", "pf12"];

/// A screen as it was generated: its layout's text, and where its last input begins.
#[derive(Drop)]
struct Drawn {
    text: String,
    input: u32,
}

/// What a field of a screen is made of.
#[derive(Clone, Copy)]
struct Shape {
    row: u32,
    col: u32,
    length: u32,
}

/// The next number, below `bound`, of a sequence that its seed determines.
fn draw(seed: &mut u32, bound: u32) -> u32 {
    *seed = seed.wrapping_mul(1_664_525).wrapping_add(1_013_904_223);
    (*seed >> 16) % bound.max(1)
}

fn draw_word<'a>(seed: &mut u32, words: &[&'a str]) -> &'a str {
    let index = draw(seed, 64) as usize;
    let count = words.len().max(1);
    words.get(index % count).copied().unwrap_or("reset")
}

/// The first byte, or as often the second.
fn draw_byte(seed: &mut u32, first: u8, second: u8) -> u8 {
    if draw(seed, 2) == 0 { first } else { second }
}

fn push_all(row: &mut Row, bytes: &mut Vec<u8>, more: &[u8]) {
    row.note(bytes.extend_from_slice(more));
}

/// Set Buffer Address to a place of four rows of twenty.
fn push_place(row: &mut Row, bytes: &mut Vec<u8>, place: u32) {
    let [high, low] = encode_address(Mode::Bits14, 80, place.min(79));
    push_all(row, bytes, &[0x11, high, low]);
}

/// An input's text, or the cursor where it has none.
fn push_text(row: &mut Row, bytes: &mut Vec<u8>, length: u32) {
    if length == 0 {
        push_all(row, bytes, &[0x13]);
    }
    for _ in 0..length {
        push_all(row, bytes, &[0xE9]);
    }
}

/// An input between its attribute and a protected one behind it, with the cursor or with text.
fn push_input(row: &mut Row, bytes: &mut Vec<u8>, shape: Shape, text: u32) {
    let place = shape.row.saturating_mul(20).saturating_add(shape.col);
    push_place(row, bytes, place.saturating_sub(1));
    push_all(row, bytes, &[0x1D, 0x40]);
    push_text(row, bytes, text.min(shape.length));
    push_place(row, bytes, place.saturating_add(shape.length));
    push_all(row, bytes, &[0x1D, 0xF0, 0xC1]);
}

/// The table of an input.
fn push_table(row: &mut Row, text: &mut String, shape: Shape) {
    let line = shape.row.saturating_add(1);
    let col = shape.col.saturating_add(1);
    let length = shape.length;
    row.note(write!(
        text,
        "[[field]]\nname = \"f{line}\"\nrow = {line}\ncol = {col}\nlength = {length}\n"
    ));
}

fn draw_shape(seed: &mut u32, row: u32) -> Shape {
    Shape {
        row,
        col: draw(seed, 8).saturating_add(2),
        length: draw(seed, 7).saturating_add(1),
    }
}

/// What a record begins with: it erases, or it is a Write that nulls everything.
fn push_front(row: &mut Row, bytes: &mut Vec<u8>, seed: &mut u32, erases: bool) {
    if erases {
        return push_all(row, bytes, &[0xF5, 0xC3]);
    }
    push_all(row, bytes, &[0xF1, draw_byte(seed, 0xC2, 0xC3)]);
    push_all(row, bytes, &[0x11, 0x40, 0x40, 0x3C, 0x40, 0x40, 0x00]);
}

/// One to three inputs.
fn push_inputs(row: &mut Row, bytes: &mut Vec<u8>, drawn: &mut Drawn, seed: &mut u32) {
    for line in 0..draw(seed, 3).saturating_add(1) {
        let shape = draw_shape(seed, line);
        let text = draw(seed, 4);
        push_input(row, bytes, shape, text);
        push_table(row, &mut drawn.text, shape);
        drawn.input = shape.row.saturating_mul(20).saturating_add(shape.col);
    }
}

/// The record of a screen of its own.
fn push_screen(
    row: &mut Row,
    bytes: &mut Vec<u8>,
    drawn: &mut Drawn,
    seed: &mut u32,
    erases: bool,
) {
    drawn.text = copied(row, "default = \"4x20\"\n");
    push_front(row, bytes, seed, erases);
    push_inputs(row, bytes, drawn, seed);
}

/// A Write on the screen of the turn before: into an input, or to put the cursor there.
fn push_update(row: &mut Row, bytes: &mut Vec<u8>, drawn: &Drawn, seed: &mut u32) {
    push_all(row, bytes, &[0xF1, draw_byte(seed, 0xC2, 0xC3)]);
    push_place(row, bytes, drawn.input);
    push_all(row, bytes, &[draw_byte(seed, 0x13, 0xE9)]);
}

/// The record of the first turn, which erases, or of any later one.
fn push_record(row: &mut Row, bytes: &mut Vec<u8>, drawn: &mut Drawn, seed: &mut u32, first: bool) {
    if first {
        return push_screen(row, bytes, drawn, seed, true);
    }
    if draw(seed, 2) == 0 {
        return push_update(row, bytes, drawn, seed);
    }
    let erases = draw(seed, 3) == 0;
    push_screen(row, bytes, drawn, seed, erases);
}

/// A turn after others.
fn push_turn(row: &mut Row, rounds: &mut Vec<Round>, drawn: &mut Drawn, seed: &mut u32) {
    let mut bytes = Vec::new(row.alloc());
    push_record(row, &mut bytes, drawn, seed, rounds.is_empty());
    let mut records = Vec::new(row.alloc());
    keep(row, &mut records, bytes);
    push_round(row, rounds, drawn.text.as_str(), records);
}

/// So many turns, of which the first erases.
fn make_turns(row: &mut Row, seed: &mut u32) -> Vec<Round> {
    let mut rounds = Vec::new(row.alloc());
    let mut drawn = Drawn {
        text: String::new(row.alloc()),
        input: 0,
    };
    push_turn(row, &mut rounds, &mut drawn, seed);
    for _ in 0..draw(seed, 4).saturating_add(1) {
        push_turn(row, &mut rounds, &mut drawn, seed);
    }
    rounds
}

/// Whether `check_talk` says yes to all turns.
fn is_yes(row: &Row, rounds: &[Round]) -> bool {
    let mut told = Row::new(row.alloc());
    push_talk(&mut told, rounds);
    told.says("yes")
}

/// Whether `check` says the same of a turn that erases.
fn is_alike(row: &Row, round: &Round, record: &[u8]) -> bool {
    if record.first().copied() != Some(0xF5) {
        return true;
    }
    let mut told = Row::new(row.alloc());
    push_judged(&mut told, &round.layout, round.records.as_slice());
    told.says("yes")
}

/// An attribute's bits but an unprotected one's tag.
fn cell_of(field: &FieldAt) -> Cell {
    if field.attr.protected() {
        Cell::Field(field.attr)
    } else {
        Cell::Field(field.attr.with_modified(false))
    }
}

/// Adds what a protected attribute governs.
fn keep_governed(
    row: &mut Row,
    kept: &mut Vec<Cell>,
    screen: &Screen<PlainCells>,
    field: &FieldAt,
) {
    let cells = screen.size().cells();
    for step in 0..field.length {
        let place = field.place.saturating_add(step) % cells.max(1);
        if place < cells {
            keep(row, kept, screen.cell(place));
        }
    }
}

/// The protected cells of a screen: each attribute's bits but an unprotected one's tag, and what protected ones govern.
fn protected_cells(row: &mut Row, screen: &Screen<PlainCells>) -> Vec<Cell> {
    let mut kept = Vec::new(row.alloc());
    for field in screen.fields() {
        keep(row, &mut kept, cell_of(&field));
        if field.attr.protected() {
            keep_governed(row, &mut kept, screen, &field);
        }
    }
    kept
}

/// Presses the key of a line; none where there is no such key, or no memory.
fn press(row: &Row, terminal: &mut Terminal<PlainCells>, line: &str) -> Option<KeyReply> {
    terminal.press(row.alloc(), key_of_line(line)?).ok()
}

fn press_quietly(row: &mut Row, terminal: &mut Terminal<PlainCells>, line: &str) {
    if press(row, terminal, line).is_none() {
        row.spoil();
    }
}

/// Keys that send nothing, and Reset where they end in an error.
fn press_some(row: &mut Row, terminal: &mut Terminal<PlainCells>, seed: &mut u32) {
    for _ in 0..draw(seed, 25) {
        press_quietly(row, terminal, draw_word(seed, KEYS));
    }
    if terminal.screen().lock() == Lock::Error {
        press_quietly(row, terminal, "reset");
    }
}

/// Whether an answer is bound to the layout, or has no fields.
fn is_bound(row: &Row, layout: &Layout, bytes: &[u8]) -> bool {
    match Inbound::read(layout.geometry().mode(), layout.size().cells(), bytes) {
        Ok(inbound) => bind(row.alloc(), layout, &inbound).is_ok(),
        Err(_) => false,
    }
}

/// Whether what an attention key sends is.
fn sends_bound(
    row: &Row,
    terminal: &mut Terminal<PlainCells>,
    layout: &Layout,
    seed: &mut u32,
) -> bool {
    match press(row, terminal, draw_word(seed, ENDS)) {
        Some(KeyReply::Sent(bytes)) => is_bound(row, layout, bytes.as_slice()),
        _ => false,
    }
}

/// Whether protected cells stay as keys are pressed.
fn keeps_protected(row: &mut Row, terminal: &mut Terminal<PlainCells>, seed: &mut u32) -> bool {
    let before = protected_cells(row, terminal.screen());
    press_some(row, terminal, seed);
    let after = protected_cells(row, terminal.screen());
    before.as_slice() == after.as_slice()
}

/// Whether a turn keeps its promise: protected cells stay, and what is sent is bound.
fn keeps(
    row: &mut Row,
    terminal: &mut Terminal<PlainCells>,
    round: &Round,
    seed: &mut u32,
) -> bool {
    let Some(record) = round.records.first() else {
        return false;
    };
    is_alike(row, round, record.as_slice())
        && terminal.show(record.as_slice()).is_ok()
        && keeps_protected(row, terminal, seed)
        && sends_bound(row, terminal, &round.layout, seed)
}

/// Whether each turn keeps its promise.
fn all_keep(
    row: &mut Row,
    terminal: &mut Terminal<PlainCells>,
    rounds: &[Round],
    seed: &mut u32,
) -> bool {
    let mut all = true;
    for round in rounds {
        all = all && keeps(row, terminal, round, seed);
    }
    all
}

/// A terminal of the first turn's geometry.
fn opened(row: &Row, rounds: &[Round]) -> Option<Terminal<PlainCells>> {
    Terminal::new(row.alloc(), rounds.first()?.layout.geometry()).ok()
}

/// Whether one generated dialogue is a yes, `check` says so of each turn that erases, and each turn keeps its promise.
fn is_kept(row: &mut Row, seed: &mut u32) -> bool {
    let rounds = make_turns(row, seed);
    match opened(row, rounds.as_slice()) {
        Some(mut terminal) => {
            is_yes(row, rounds.as_slice()) && all_keep(row, &mut terminal, rounds.as_slice(), seed)
        }
        None => false,
    }
}

/// How many of so many generated dialogues do.
pub(crate) fn count_kept(row: &mut Row, count: u32) -> u32 {
    let mut seed = 3_270u32;
    let mut kept = 0u32;
    for _ in 0..count {
        if is_kept(row, &mut seed) {
            kept = kept.saturating_add(1);
        }
    }
    kept
}
