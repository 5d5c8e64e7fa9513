//! Where what stands on a screen comes from, and the findings about it.

use crate::findings::{lent, records_of, verdict_of};
use scr_check::{Finding, Origin, Origins, Traced, Verdict, find_origins, trace_findings};
use scr_layout::Layout;
use test_words::Row;

fn push_origin(row: &mut Row, origin: Option<Origin>) {
    match origin {
        Some(origin) => {
            row.word_length("record ", origin.index);
            row.word_length(" at ", origin.at);
        }
        None => row.word("none"),
    }
}

/// The origin of the attribute at each of some positions.
fn push_each(row: &mut Row, origins: &Origins, positions: &str) {
    for word in positions.split(' ') {
        let position = row.read_number(word);
        row.number(position);
        row.word(": ");
        push_origin(row, origins.at(position));
        row.word("; ");
    }
}

/// The same after records.
pub(crate) fn push_origins(row: &mut Row, layout: &Layout, words: &str) {
    let (positions, records) = row.cut(words, " of ");
    let records = records_of(row, records);
    let slices = lent(row, records.as_slice());
    match find_origins(row.alloc(), slices.as_slice(), layout) {
        Ok(origins) => push_each(row, &origins, positions),
        Err(_) => row.spoil(),
    }
}

/// A finding's number, and the orders that it comes from.
fn push_traced(row: &mut Row, traced: &Traced) {
    row.number(u32::from(traced.finding.number()));
    row.word(" ");
    push_origin(row, traced.origin);
    row.word(" to ");
    push_origin(row, traced.end);
    row.word("; ");
}

fn push_all(row: &mut Row, traced: &[Traced]) {
    for found in traced {
        push_traced(row, found);
    }
}

fn push_findings(row: &mut Row, layout: &Layout, records: &[Vec<u8>], findings: &[Finding]) {
    let slices = lent(row, records);
    match trace_findings(row.alloc(), slices.as_slice(), layout, findings) {
        Ok(traced) => push_all(row, traced.as_slice()),
        Err(_) => row.spoil(),
    }
}

/// The findings of records, each with the orders that it comes from.
pub(crate) fn push_found(row: &mut Row, layout: &Layout, words: &str) {
    let records = records_of(row, words);
    if let Some(Verdict::No(findings)) = verdict_of(row, layout, records.as_slice()) {
        push_findings(row, layout, records.as_slice(), findings.as_slice());
    }
}
