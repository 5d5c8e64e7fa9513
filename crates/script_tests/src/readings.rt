//! What a script reads of a screen, and the texts that it types.

use crate::parted;
use crate::setup::{Setup, opened};
use crate::words::{arguments_of, push_name, push_said, push_text};
use ds_screen::{PlaneCells, Screen};
use script_screens::{
    CodePage, Connection, Device, Piece, Protocol, Query, Reading, Snap, Typed, character_of,
    code_of, codes_law, key_of, next_piece, push_character, push_kept, push_key_fault, push_query,
    push_reading, push_snap_fault, push_status, push_string_fault, read_number, snap_of,
};
use test_words::Row;

/// The connection of the rows below.
const CONNECTION: Connection<'static> = Connection {
    host: b"host.example",
    port: 2323,
    protocol: Protocol::Tn3270e,
    lu_name: b"LU7",
};

/// The device of the rows below.
const DEVICE: Device<'static> = Device {
    name: b"IBM-3278-2",
    version: b"0.1",
};

/// The page of a word.
fn page_of(row: &mut Row, word: &str) -> CodePage {
    match word {
        "bracket" => CodePage::Bracket,
        "037" => CodePage::CodePage037,
        _ => {
            row.spoil();
            CodePage::Bracket
        }
    }
}

fn reading_of(name: &str) -> Option<Reading> {
    match name {
        "Ascii" => Some(Reading::Ascii),
        "Ascii1" => Some(Reading::Ascii1),
        "AsciiField" => Some(Reading::AsciiField),
        "Ebcdic" => Some(Reading::Ebcdic),
        "Ebcdic1" => Some(Reading::Ebcdic1),
        "EbcdicField" => Some(Reading::EbcdicField),
        "ReadBuffer" => Some(Reading::ReadBuffer),
        _ => None,
    }
}

/// Adds what `PAGE ACTION|A|B` says of a screen.
fn push_read(row: &mut Row, screen: &Screen<PlaneCells>, words: &str) {
    let (page, action) = parted(words, " ");
    let page = page_of(row, page);
    let arguments = arguments_of(row, action);
    let (name, _) = parted(action, "|");
    let Some(reading) = reading_of(name) else {
        return row.spoil();
    };
    let mut out = Vec::new(row.alloc());
    let outcome = push_reading(&mut out, screen, page, reading, &arguments);
    push_said(row, &out, outcome);
}

/// The connection that a word says.
fn connection_of(word: &str) -> Option<Connection<'static>> {
    match word {
        "connected" => Some(CONNECTION),
        "classic" => Some(Connection {
            protocol: Protocol::Tn3270,
            lu_name: b"",
            ..CONNECTION
        }),
        _ => None,
    }
}

/// Adds the status line.
fn push_status_line(row: &mut Row, screen: &Screen<PlaneCells>, words: &str) {
    let mut out = Vec::new(row.alloc());
    let pushed = push_status(&mut out, screen, connection_of(words), 2);
    let _pushed = row.take(pushed);
    push_text(row, &out);
}

/// Adds what `CONNECTION NAME|WORD` says.
fn push_queried(row: &mut Row, screen: &Screen<PlaneCells>, words: &str) {
    let (connection, action) = parted(words, " ");
    let arguments = arguments_of(row, action);
    let query = match parted(action, "|").0 {
        "Show" => Query::Show,
        _ => Query::Query,
    };
    let mut out = Vec::new(row.alloc());
    let connection = connection_of(connection);
    let alloc = row.alloc();
    let outcome = push_query(
        alloc, &mut out, screen, connection, DEVICE, query, &arguments,
    );
    push_said(row, &out, outcome);
}

/// Adds what `|WORD|A` of Snap says of the screen as the one that was kept.
fn push_snapped(row: &mut Row, screen: &Screen<PlaneCells>, words: &str) {
    let arguments = arguments_of(row, words);
    let mut out = Vec::new(row.alloc());
    let outcome = match snap_of(&arguments) {
        Snap::Save => return row.word("save"),
        Snap::Fault(fault) => push_snap_fault(&mut out, fault),
        Snap::Kept(kept) => {
            let others = arguments.get(1..).unwrap_or(&[]);
            push_kept(
                &mut out,
                screen,
                Some(CONNECTION),
                2,
                CodePage::Bracket,
                kept,
                others,
            )
        }
    };
    push_said(row, &out, outcome);
}

fn push_piece(row: &mut Row, piece: Piece) {
    match piece {
        Piece::Character(code) => row.hex(code),
        Piece::Ignored => row.word("-"),
        Piece::Key(key) => push_name(row, &key),
        Piece::Fault(fault) => {
            let mut out = Vec::new(row.alloc());
            let pushed = push_string_fault(&mut out, fault);
            let _pushed = row.take(pushed);
            push_text(row, &out);
        }
    }
}

/// Adds the pieces of the text of `PAGE TEXT`.
fn push_pieces(row: &mut Row, words: &str) {
    let (page, text) = parted(words, " ");
    let page = page_of(row, page);
    let mut rest = text.as_bytes();
    for turn in 0..text.len() {
        let Some((piece, others)) = next_piece(page, rest) else {
            return;
        };
        row.word_if(turn > 0, " ");
        push_piece(row, piece);
        rest = others;
    }
}

/// Adds what Key types by the text of `PAGE TEXT`.
fn push_key(row: &mut Row, words: &str) {
    let (page, text) = parted(words, " ");
    let page = page_of(row, page);
    match key_of(page, text.as_bytes()) {
        Typed::Code(code) => row.hex(code),
        Typed::NoCode => row.word("no code"),
        Typed::Unknown => {
            let mut out = Vec::new(row.alloc());
            let outcome = push_key_fault(&mut out, text.as_bytes());
            push_said(row, &out, outcome);
        }
    }
}

/// Adds what is shown for each code of `PAGE CODES`, and whether its character has this code.
fn push_characters(row: &mut Row, words: &str) {
    let (page, codes) = parted(words, " ");
    let page = page_of(row, page);
    let codes = row.read_bytes(codes);
    let mut out = Vec::new(row.alloc());
    for code in codes.as_slice() {
        let pushed = push_character(&mut out, page, *code);
        let _pushed = row.take(pushed);
        if let Some(character) = character_of(page, *code)
            && code_of(page, character) != Some(*code)
        {
            row.spoil();
        }
    }
    push_text(row, &out);
}

fn push_number(row: &mut Row, words: &str) {
    codes_law();
    match read_number(words.as_bytes()) {
        Some(number) => row.number(number),
        None => row.word("below 0"),
    }
}

/// Adds what a verb says of a screen; whether it is one of these.
fn push_of_screen(row: &mut Row, screen: &Screen<PlaneCells>, verb: &str, words: &str) {
    match verb {
        "read" => push_read(row, screen, words),
        "status" => push_status_line(row, screen, words),
        "query" => push_queried(row, screen, words),
        _ => push_snapped(row, screen, words),
    }
}

/// Adds what a verb of texts says; whether it is one of these.
fn push_of_text(row: &mut Row, verb: &str, words: &str) -> bool {
    match verb {
        "string" => push_pieces(row, words),
        "key" => push_key(row, words),
        "characters" => push_characters(row, words),
        "number" => push_number(row, words),
        _ => return false,
    }
    true
}

/// Adds what a verb of scripts answers; whether it is one of these.
pub(crate) fn push_answer(row: &mut Row, setup: &Setup, verb: &str, words: &str) -> bool {
    match verb {
        "read" | "status" | "query" | "snap" => {
            match opened(row, setup) {
                Some(screen) => push_of_screen(row, &screen, verb, words),
                None => row.spoil(),
            }
            true
        }
        _ => push_of_text(row, verb, words),
    }
}
