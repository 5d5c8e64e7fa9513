//! Runs of both ends over a line in memory: whole, byte by byte, cut in two at each place, a byte a write, and with each
//! call failing in turn.

use crate::asked::{Asked, End, Hosted, push_piece, read_asked, read_pieces};
use crate::both_ends::{push_both, push_many};
use crate::lists::add;
use crate::objects::{feed, push_insert_mode};
use crate::scripted::{Giving, Script, script_of};
use std::alloc::Global;
use test_words::Row;
use tn_session::{
    Device, HostOutcome, Keystroke, Report, RunEnd, ScreenModel, Stop, Wire, host_run, terminal_run,
};

/// A run: the report, the outcome or the fault, why the line stopped, and the line.
#[derive(Drop)]
struct Ran {
    told: Row,
    stop: Option<Stop>,
    line: Script,
}

impl Ran {
    /// Whether it wrote and told the same as another, and all went well.
    fn is_like(&self, other: &Ran) -> bool {
        self.line.written.as_slice() == other.line.written.as_slice()
            && self.told.says(other.told.text.as_str())
    }
}

pub(crate) fn push_report(row: &mut Row, report: &Report) {
    row.word("answers ");
    row.show(&report.answers);
    row.word(" passed ");
    row.show(&report.passed);
    row.word(" refused ");
    row.show(&report.refused);
    row.word(match report.end {
        RunEnd::KeysUsed => " end keys",
        RunEnd::Closed => " end closed",
    });
}

/// A field by its entry's number.
fn push_field(row: &mut Row, entry: usize, bytes: &[u8]) {
    row.word_length(" ", entry);
    row.word("=");
    row.bytes(bytes);
}

/// What was agreed on, the attention identifier, and each field.
pub(crate) fn push_outcome(row: &mut Row, outcome: &HostOutcome) {
    row.word(if outcome.agreed.enhanced {
        "enhanced"
    } else {
        "classic"
    });
    row.word(if outcome.agreed.responses {
        " responses"
    } else {
        " none"
    });
    row.word_hex(" aid ", outcome.aid.byte());
    for (entry, bytes) in outcome.fields.as_slice() {
        push_field(row, *entry, bytes.as_slice());
    }
}

fn run_terminal<K: Keystroke>(alloc: Global, asked: &Asked, keys: &[K], line: Script) -> Ran {
    let device = Device {
        model: ScreenModel::Two,
        extended: false,
    };
    let mut told = Row::new(alloc);
    let mut wire = Wire::new(line);
    match terminal_run(
        alloc,
        &mut wire,
        device,
        asked.enhanced,
        asked.responses,
        keys,
    ) {
        Ok(report) => push_report(&mut told, &report),
        Err(fault) => told.show(&fault),
    }
    Ran {
        told,
        stop: wire.stop(),
        line: wire.into_line(),
    }
}

/// The records, each lent.
pub(crate) fn lent<'a>(row: &mut Row, records: &'a [Vec<u8>]) -> Vec<&'a [u8]> {
    let mut lent = Vec::new(row.alloc());
    for bytes in records {
        add(row, &mut lent, bytes.as_slice());
    }
    lent
}

fn run_host(alloc: Global, asked: &Asked, host: &Hosted, line: Script) -> Ran {
    let mut told = Row::new(alloc);
    let records = lent(&mut told, host.records.as_slice());
    let mut wire = Wire::new(line);
    match host_run(
        alloc,
        &mut wire,
        records.as_slice(),
        &host.layout,
        asked.enhanced,
        asked.responses,
    ) {
        Ok(outcome) => push_outcome(&mut told, &outcome),
        Err(fault) => told.show(&fault),
    }
    Ran {
        told,
        stop: wire.stop(),
        line: wire.into_line(),
    }
}

fn run(alloc: Global, asked: &Asked, line: Script) -> Ran {
    match &asked.end {
        End::Terminal(keys) => run_terminal(alloc, asked, keys.as_slice(), line),
        End::Operator(strokes) => run_terminal(alloc, asked, strokes.as_slice(), line),
        End::Host(host) => run_host(alloc, asked, host, line),
    }
}

/// What a run wrote and told, and whether it read with room for other than 4,096 bytes.
fn push_ran(row: &mut Row, ran: &Ran) {
    row.bytes(ran.line.written.as_slice());
    row.word(" ");
    row.join(&ran.told);
    row.word_if(ran.line.other_rooms > 0, " but other rooms");
}

fn copied(row: &mut Row, pieces: &[Vec<u8>]) -> Vec<Vec<u8>> {
    let mut copied = Vec::new(row.alloc());
    for piece in pieces {
        push_piece(row, &mut copied, piece.as_slice());
    }
    copied
}

/// The run over a line that takes so many bytes a write, and fails at the call of a number.
fn run_over(row: &mut Row, asked: &Asked, width: usize, fails_at: usize) -> Ran {
    let pieces = copied(row, asked.pieces.as_slice());
    let line = script_of(row.alloc(), pieces, width, fails_at);
    run(row.alloc(), asked, line)
}

/// All bytes of the pieces.
fn joined(row: &mut Row, pieces: &[Vec<u8>]) -> Vec<u8> {
    let mut bytes = Vec::new(row.alloc());
    for piece in pieces {
        row.note(bytes.extend_from_slice(piece.as_slice()));
    }
    bytes
}

/// The run over other pieces.
fn run_pieces(alloc: Global, asked: &Asked, pieces: Vec<Vec<u8>>) -> Ran {
    run(alloc, asked, script_of(alloc, pieces, usize::MAX, 0))
}

/// Adds a run that is not like the whole one.
fn push_unlike(row: &mut Row, words: &str, ran: &Ran, whole: &Ran) {
    if !ran.is_like(whole) {
        row.word(words);
        push_ran(row, ran);
    }
}

fn push_bytewise(row: &mut Row, asked: &Asked, bytes: &[u8], whole: &Ran) {
    let mut pieces = Vec::new(row.alloc());
    for byte in bytes.chunks(1) {
        push_piece(row, &mut pieces, byte);
    }
    let ran = run_pieces(row.alloc(), asked, pieces);
    push_unlike(row, " but byte by byte ", &ran, whole);
}

/// The run over two pieces.
fn run_in_two(row: &mut Row, asked: &Asked, front: &[u8], back: &[u8]) -> Ran {
    let mut pieces = Vec::new(row.alloc());
    push_piece(row, &mut pieces, front);
    push_piece(row, &mut pieces, back);
    run_pieces(row.alloc(), asked, pieces)
}

/// The places where a cut of the stream changes what the whole run gives: there must be none.
fn push_cuts(row: &mut Row, asked: &Asked, bytes: &[u8], whole: &Ran) {
    for at in 1..bytes.len() {
        let (front, back) = bytes.split_at(at);
        let ran = run_in_two(row, asked, front, back);
        if !ran.is_like(whole) {
            row.word_length(" but cut at ", at);
            row.word(" ");
            push_ran(row, &ran);
        }
    }
}

/// The lengths of pieces at which a session without a line gives or tells something else than the whole run.
fn push_fed(row: &mut Row, asked: &Asked, bytes: &[u8], whole: &Ran) {
    for most in [1, 2, 3, 7, usize::MAX] {
        let given = feed(row, asked, bytes, most);
        let same = given.written.as_slice() == whole.line.written.as_slice()
            && given.told.says(whole.told.text.as_str());
        if !same || !given.stays {
            row.word_length(" but in pieces of ", most);
            row.word(" ");
            row.bytes(given.written.as_slice());
            row.word(" ");
            row.join(&given.told);
        }
    }
}

fn push_narrow(row: &mut Row, asked: &Asked, whole: &Ran) {
    let ran = run_over(row, asked, 1, 0);
    push_unlike(row, " but a byte a write ", &ran, whole);
}

/// Whether a run answered N8, told what failed, and wrote a front of what the whole run writes.
fn is_failed(ran: &Ran, whole: &Ran) -> bool {
    let failed = if ran.line.read_failed {
        Stop::ReadFailed
    } else {
        Stop::WriteFailed
    };
    let written = ran.line.written.as_slice();
    ran.stop == Some(failed)
        && ran.told.says("N8 LineFault")
        && whole.line.written.as_slice().starts_with(written)
}

/// How many calls of the line fail in turn, up to the run that meets none.
fn push_failing(row: &mut Row, asked: &Asked, whole: &Ran) {
    for fails_at in 1..1_000_usize {
        let ran = run_over(row, asked, usize::MAX, fails_at);
        if ran.line.calls < fails_at {
            return row.word_length(" stops ", fails_at);
        }
        if !is_failed(&ran, whole) {
            row.word_length(" but at call ", fails_at);
            row.word(" ");
            push_ran(row, &ran);
        }
    }
}

/// The run whole; whether it is the same byte by byte, with a byte a write, and cut in two at each place; how it fails with
/// the line; and what it gives where the line takes nothing.
fn push_run(row: &mut Row, asked: &Asked) {
    let whole = run_over(row, asked, usize::MAX, 0);
    push_ran(row, &whole);
    let bytes = joined(row, asked.pieces.as_slice());
    push_bytewise(row, asked, bytes.as_slice(), &whole);
    push_narrow(row, asked, &whole);
    push_cuts(row, asked, bytes.as_slice(), &whole);
    push_fed(row, asked, bytes.as_slice(), &whole);
    row.word(";");
    push_failing(row, asked, &whole);
    row.word("; no byte a write:");
    let none = run_over(row, asked, 0, 0);
    push_ran(row, &none);
}

/// A run of `WORDS > HEX HEX`.
fn push_whole(row: &mut Row, verb: &str, words: &str) {
    let (words, pieces) = row.cut(words, " > ");
    if let Some(asked) = read_asked(row, verb, words, pieces) {
        push_run(row, &asked);
    }
}

/// How many bytes are due before each piece.
fn read_due(row: &mut Row, words: &str) -> Vec<usize> {
    let mut due = Vec::new(row.alloc());
    let mut before = 0_usize;
    for word in words.split(' ') {
        before = before.saturating_add(row.read_bytes(word).len());
        add(row, &mut due, before);
    }
    due
}

/// A run of `press WORDS > HEX HEX < HEX HEX`, whose line gives each piece only once the words due before it were written.
fn push_paced(row: &mut Row, words: &str) {
    let (words, passing) = row.cut(words, " > ");
    let (pieces, due) = row.cut(passing, " < ");
    let (verb, words) = row.cut(words, " ");
    if let Some(asked) = read_asked(row, verb, words, pieces) {
        let pieces = copied(row, asked.pieces.as_slice());
        let mut line = script_of(row.alloc(), pieces, usize::MAX, 0);
        line.giving = Giving::Paced;
        line.due = read_due(row, due);
        row.join(&run(row.alloc(), &asked, line).told);
    }
}

/// A run whose line never ends.
fn push_endless(row: &mut Row, words: &str) {
    let (verb, words) = row.cut(words, " ");
    if let Some(asked) = read_asked(row, verb, words, "") {
        let mut line = script_of(row.alloc(), Vec::new(row.alloc()), usize::MAX, 0);
        line.giving = Giving::Endless;
        push_ran(row, &run(row.alloc(), &asked, line));
    }
}

/// Adds what a verb of runs answers; whether it is one of these.
pub(crate) fn push_answer(row: &mut Row, verb: &str, words: &str) -> bool {
    match verb {
        "press" => push_whole(row, verb, words),
        "strike" => push_whole(row, verb, words),
        "insert-mode" => push_insert_mode(row, words),
        "serve" => push_whole(row, verb, words),
        "paced" => push_paced(row, words),
        "endless" => push_endless(row, words),
        "both-ends" => push_both(row),
        "many-sessions" => push_many(row, words),
        _ => return false,
    }
    true
}
