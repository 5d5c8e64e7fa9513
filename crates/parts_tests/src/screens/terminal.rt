//! Terminals: records and keys with their replies.

use crate::Setup;
use crate::screens::records::{geometry_of, push_told};
use ds_keys::key_of_line;
use ds_screen::{Cells, Effect, Screen};
use ds_terminal::{
    KeyReply, RecordReply, Refused, Terminal, apply_record, read_record, take_record,
};
use test_words::Row;

/// The verbs of a terminal.
const VERBS: &[&str] = &["receive", "reply", "show"];

/// Shows records that are parted by semicolons.
fn show_all<C: Cells>(row: &mut Row, terminal: &mut Terminal<C>, records: &str) {
    for text in records.split(';') {
        if !text.is_empty() {
            let bytes = row.read_bytes(text);
            if terminal.show(bytes.as_slice()).is_err() {
                row.spoil();
            }
        }
    }
}

/// A terminal of the setup's sizes after its records.
fn opened<C: Cells>(row: &mut Row, setup: &Setup) -> Option<Terminal<C>> {
    let mut terminal = Terminal::new(row.alloc(), geometry_of(setup)?).ok()?;
    show_all(row, &mut terminal, setup.after.as_str());
    Some(terminal)
}

fn push_shown(row: &mut Row, effect: Effect) {
    row.word("shown ");
    push_told(row, effect);
}

fn push_sent(row: &mut Row, bytes: &[u8]) {
    row.word("sent ");
    row.bytes(bytes);
}

/// A reply to a record.
fn push_record_reply(row: &mut Row, reply: &RecordReply) {
    match reply {
        RecordReply::Shown(effect) => push_shown(row, *effect),
        RecordReply::Sent(bytes) => push_sent(row, bytes.as_slice()),
        RecordReply::Nothing => row.word("nothing"),
        RecordReply::Refused(refused) => row.show(refused),
    }
}

/// A reply to a key.
fn push_key_reply(row: &mut Row, reply: &KeyReply) {
    match reply {
        KeyReply::Done => row.word("done"),
        KeyReply::Inhibited => row.word("inhibited"),
        KeyReply::Ignored => row.word("ignored"),
        KeyReply::Sent(bytes) => push_sent(row, bytes.as_slice()),
    }
}

/// Receives a record, and adds the reply.
fn push_received<C: Cells>(row: &mut Row, terminal: &mut Terminal<C>, text: &str) {
    let bytes = row.read_bytes(text);
    match terminal.receive(row.alloc(), bytes.as_slice()) {
        Ok(reply) => push_record_reply(row, &reply),
        Err(_) => row.spoil(),
    }
    row.word("; ");
}

/// The replies to records, and the cursor at last.
fn push_replies<C: Cells>(row: &mut Row, terminal: &mut Terminal<C>, records: &str) {
    for text in records.split(';') {
        push_received(row, terminal, text);
    }
    row.word_number("cursor ", terminal.screen().cursor());
}

fn count_fields<C: Cells>(screen: &Screen<C>) -> u32 {
    let mut count = 0u32;
    for _field in screen.fields() {
        count = count.saturating_add(1);
    }
    count
}

/// Presses the key of a line; none where there is no such key, or no memory.
fn press_line<C: Cells>(row: &Row, terminal: &mut Terminal<C>, line: &str) -> Option<KeyReply> {
    let key = key_of_line(line)?;
    terminal.press(row.alloc(), key).ok()
}

/// Presses keys, and adds each reply.
fn push_keys<C: Cells>(row: &mut Row, terminal: &mut Terminal<C>, keys: &str) {
    for line in keys.split(", ") {
        match press_line(row, terminal, line) {
            Some(reply) => push_key_reply(row, &reply),
            None => row.spoil(),
        }
        row.word("; ");
    }
}

/// How many cells, fields and which cursor a screen has, and how many fields another one.
fn push_counts<C: Cells>(row: &mut Row, screen: &Screen<C>, before: &Screen<C>) {
    row.word_number("cells ", screen.size().cells());
    row.word_number(" fields ", count_fields(screen));
    row.word_number(" of ", count_fields(before));
    row.word_number(" cursor ", screen.cursor());
}

/// The replies to keys, then how many cells, fields and which cursor the terminal has, and how many fields a copy from
/// before has.
fn push_pressed<C: Cells>(row: &mut Row, terminal: &mut Terminal<C>, keys: &str) {
    match terminal.copied(row.alloc()) {
        Ok(before) => {
            push_keys(row, terminal, keys);
            push_counts(row, terminal.screen(), before.screen());
        }
        Err(_) => row.spoil(),
    }
}

/// A refusal by its parts.
fn push_parts(row: &mut Row, refused: Refused) {
    row.length(refused.at());
    row.word(" ");
    row.word(refused.words());
    row.word(": ");
    row.show(&refused);
}

/// Why a terminal does not show a record, by its parts.
fn push_unshown<C: Cells>(row: &mut Row, terminal: &mut Terminal<C>, record: &str) {
    let bytes = row.read_bytes(record);
    match terminal.show(bytes.as_slice()) {
        Ok(_) => row.word("shown"),
        Err(refused) => push_parts(row, refused),
    }
}

/// A refusal, and whether the record was read.
fn push_stage(row: &mut Row, refused: Refused) {
    match refused {
        Refused::Read(refused) => {
            row.word("read ");
            row.show(&refused);
        }
        Refused::Apply(refused) => {
            row.word("apply ");
            row.show(&refused);
        }
    }
}

/// What a record did, and the cursor after it.
fn push_restored(row: &mut Row, effect: Effect, cursor: u32) {
    row.word("restored ");
    row.truth(effect.restored);
    row.word_number(" ", cursor);
}

/// Reads a record, and then applies it.
fn take_in_two<C: Cells>(screen: &mut Screen<C>, bytes: &[u8]) -> Result<Effect, Refused> {
    match read_record(screen, bytes) {
        Ok(record) => apply_record(screen, &record),
        Err(refused) => Err(refused),
    }
}

/// A record that a screen reads and then applies.
fn push_read_applied<C: Cells>(row: &mut Row, screen: &mut Screen<C>, bytes: &[u8]) {
    match take_in_two(screen, bytes) {
        Ok(effect) => push_restored(row, effect, screen.cursor()),
        Err(refused) => push_stage(row, refused),
    }
}

/// A record that a screen takes at once, and one that it reads and then applies.
fn push_both<C: Cells>(row: &mut Row, screen: &mut Screen<C>, first: &[u8], second: &[u8]) {
    match take_record(screen, first) {
        Ok(effect) => {
            push_restored(row, effect, screen.cursor());
            row.word(", ");
            push_read_applied(row, screen, second);
        }
        Err(refused) => {
            row.word("not taken, ");
            row.show(&refused);
        }
    }
}

fn blank<C: Cells>(row: &Row, setup: &Setup) -> Option<Screen<C>> {
    Screen::new(row.alloc(), geometry_of(setup)?).ok()
}

/// The same of a new screen.
fn push_new<C: Cells>(row: &mut Row, setup: &Setup, first: &[u8], second: &[u8]) {
    match blank::<C>(row, setup) {
        Some(mut screen) => push_both(row, &mut screen, first, second),
        None => row.spoil(),
    }
}

/// The same of two words.
pub(crate) fn push_two<C: Cells>(row: &mut Row, setup: &Setup, records: &str) {
    let (first, second) = row.cut(records, ";");
    let first = row.read_bytes(first);
    let second = row.read_bytes(second);
    push_new::<C>(row, setup, first.as_slice(), second.as_slice());
}

/// Adds what a verb of a terminal answers.
fn push_terminal<C: Cells>(row: &mut Row, terminal: &mut Terminal<C>, verb: &str, words: &str) {
    match verb {
        "receive" => push_replies(row, terminal, words),
        "reply" => push_pressed(row, terminal, words),
        _ => push_unshown(row, terminal, words),
    }
}

/// Adds what a verb answers; whether it is one of these.
pub(crate) fn push_answer<C: Cells>(row: &mut Row, setup: &Setup, verb: &str, words: &str) -> bool {
    if !VERBS.contains(&verb) {
        return false;
    }
    match opened::<C>(row, setup) {
        Some(mut terminal) => push_terminal(row, &mut terminal, verb, words),
        None => row.spoil(),
    }
    true
}
