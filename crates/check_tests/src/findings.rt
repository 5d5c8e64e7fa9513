//! What the checker finds.

use crate::script::keep;
use scr_check::{Checker, Demo, Finding, Verdict, check, check_on};
use scr_layout::Layout;
use test_words::Row;

/// The bytes of records that are parted by semicolons.
pub(crate) fn records_of(row: &mut Row, words: &str) -> Vec<Vec<u8>> {
    let mut records = Vec::new(row.alloc());
    for text in words.split(';') {
        if !text.is_empty() {
            let bytes = row.read_bytes(text);
            keep(row, &mut records, bytes);
        }
    }
    records
}

pub(crate) fn lent<'a>(row: &mut Row, records: &'a [Vec<u8>]) -> Vec<&'a [u8]> {
    let mut slices = Vec::new(row.alloc());
    for bytes in records {
        keep(row, &mut slices, bytes.as_slice());
    }
    slices
}

/// What the checker says of records.
pub(crate) fn verdict_of(row: &mut Row, layout: &Layout, records: &[Vec<u8>]) -> Option<Verdict> {
    let slices = lent(row, records);
    let verdict = check(row.alloc(), slices.as_slice(), layout);
    row.take(verdict)
}

/// The keys of a finding.
pub(crate) fn push_keys(row: &mut Row, demo: Demo) {
    row.word_number(" (", demo.rights);
    row.word_number(" and ", demo.types);
}

/// A finding's number and its text.
pub(crate) fn push_text(row: &mut Row, layout: &Layout, finding: Finding) {
    row.number(u32::from(finding.number()));
    row.word(": ");
    let pushed = finding.push_text(&mut row.text, layout.entries());
    row.note(pushed);
}

/// A finding's number, its text, and its keys by themselves.
fn push_finding(row: &mut Row, layout: &Layout, finding: Finding) {
    push_text(row, layout, finding);
    if let Some(demo) = finding.demo() {
        push_keys(row, demo);
        row.word(", ");
        row.show(&demo);
        row.word(")");
    }
    row.word("; ");
}

pub(crate) fn push_findings(row: &mut Row, layout: &Layout, findings: &[Finding]) {
    for finding in findings {
        push_finding(row, layout, *finding);
    }
}

/// `yes`, or the findings; nothing where memory ran out.
pub(crate) fn push_verdict(row: &mut Row, layout: &Layout, verdict: &Option<Verdict>) {
    match verdict {
        Some(Verdict::Yes) => row.word("yes"),
        Some(Verdict::No(findings)) => push_findings(row, layout, findings.as_slice()),
        None => row.spoil(),
    }
}

/// What the checker says of records.
fn push_at_once(row: &mut Row, layout: &Layout, records: &[Vec<u8>]) {
    let verdict = verdict_of(row, layout, records);
    push_verdict(row, layout, &verdict);
}

fn take_all(checker: &mut Checker<'_>, records: &[Vec<u8>]) {
    for bytes in records {
        if checker.count() < usize::MAX {
            checker.take(bytes.as_slice());
        }
    }
}

/// What a checker says that takes the records one at a time.
fn push_in_turn(row: &mut Row, layout: &Layout, records: &[Vec<u8>]) {
    match Checker::new(row.alloc(), layout) {
        Ok(mut checker) => {
            take_all(&mut checker, records);
            let verdict = checker.verdict(row.alloc()).ok();
            push_verdict(row, layout, &verdict);
        }
        Err(_) => row.spoil(),
    }
}

/// What the checker says of records twice, on one outline, of which the second is said.
fn push_again(row: &mut Row, layout: &Layout, records: &[Vec<u8>]) {
    let slices = lent(row, records);
    let mut kept = None;
    let _ = check_on(row.alloc(), &mut kept, slices.as_slice(), layout);
    let verdict = check_on(row.alloc(), &mut kept, slices.as_slice(), layout).ok();
    push_verdict(row, layout, &verdict);
}

/// Adds what is said another way, where it differs.
fn push_unless_same(row: &mut Row, told: &Row, way: &str, other: &Row) {
    if !other.says(told.text.as_str()) {
        row.word(way);
        row.join(other);
    }
}

/// What is said of the records, and also of them one at a time, and once more on the same outline, where that differs.
pub(crate) fn push_judged(row: &mut Row, layout: &Layout, records: &[Vec<u8>]) {
    let mut told = Row::new(row.alloc());
    push_at_once(&mut told, layout, records);
    let mut in_turn = Row::new(row.alloc());
    push_in_turn(&mut in_turn, layout, records);
    let mut again = Row::new(row.alloc());
    push_again(&mut again, layout, records);
    row.join(&told);
    push_unless_same(row, &told, " but in turn ", &in_turn);
    push_unless_same(row, &told, " but again ", &again);
}

/// What the checker says of some records and a layout.
pub(crate) fn push_check(row: &mut Row, layout: &Layout, words: &str) {
    let records = records_of(row, words);
    push_judged(row, layout, records.as_slice());
}

fn push_one(row: &mut Row, layout: &Layout, finding: Option<&Finding>) {
    if let Some(finding) = finding {
        push_finding(row, layout, *finding);
    }
}

/// How many findings there are, with the first and the last.
fn push_ends(row: &mut Row, layout: &Layout, findings: &[Finding]) {
    row.length(findings.len());
    row.word(" findings, ");
    push_one(row, layout, findings.first());
    push_one(row, layout, findings.last());
}

pub(crate) fn push_count(row: &mut Row, layout: &Layout, words: &str) {
    let records = records_of(row, words);
    match verdict_of(row, layout, records.as_slice()) {
        Some(Verdict::Yes) => row.word("yes"),
        Some(Verdict::No(findings)) => push_ends(row, layout, findings.as_slice()),
        None => row.spoil(),
    }
}

/// A record so many times.
fn repeated(row: &mut Row, record: &str, count: u32) -> Vec<Vec<u8>> {
    let mut records = Vec::new(row.alloc());
    for _ in 0..count {
        let bytes = row.read_bytes(record);
        keep(row, &mut records, bytes);
    }
    records
}

/// What the checker says of a record so many times, and one more.
pub(crate) fn push_often(row: &mut Row, layout: &Layout, words: &str) {
    let (count, records) = row.cut(words, " ");
    let (often, last) = row.cut(records, ";");
    let count = row.read_number(count);
    let mut records = repeated(row, often, count);
    let last = row.read_bytes(last);
    keep(row, &mut records, last);
    push_judged(row, layout, records.as_slice());
}
