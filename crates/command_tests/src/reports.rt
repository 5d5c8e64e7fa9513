//! Reports, read again by a parser.

use anyhow::Result;
use serde_json::Value;
use std::alloc::Global;
use test_words::Row;

/// A line as a parser would write it again.
fn again(alloc: Global, line: &str) -> Result<String> {
    Ok(Value::from_str(alloc, line)?.to_string(alloc)?)
}

fn is_line_read_again(row: &mut Row, line: &str) -> bool {
    match row.take(again(row.alloc(), line)) {
        Some(text) => text.as_str() == line,
        None => false,
    }
}

/// Whether a parser reads from each line a value that is written as that line.
pub(crate) fn is_read_again(row: &mut Row, text: &str) -> bool {
    for line in text.lines() {
        if !is_line_read_again(row, line) {
            return false;
        }
    }
    true
}

fn push_found(row: &mut Row, found: &Value) {
    if let Some(text) = row.take(found.to_string(row.alloc())) {
        row.word("\n");
        row.word(text.as_str());
    }
}

/// The results of a log, each on a line of its own.
pub(crate) fn push_results(row: &mut Row, log: &str) {
    if let Some(log) = row.take(Value::from_str(row.alloc(), log)) {
        let results = log.pointer("/runs/0/results").and_then(Value::as_array);
        for found in results.map(Vec::as_slice).unwrap_or(&[]) {
            push_found(row, found);
        }
    }
}
