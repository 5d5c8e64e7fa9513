//! Where the keys of a layout stand, in text that people write: a table for each field, and a key a line.

ghost use Rattle.std.specs.Prelude.{◌≡◌, ◌<◌, ◌≤◌, ◌+◌, length, IfSome};
ghost use Rattle.std.specs.Option.{option_map};
ghost use Rattle.cli_commands.specs.Lines.{lines_in};
ghost use Rattle.cli_reasons.specs.LayoutLine.{is_blank, is_bare, after_blanks, first_not_bare, bare_len, is_value, key_of, is_header, is_top_word, is_field_word, is_wanted_key, is_wanted, line_where, table_line};

use bstr::ByteSlice;
use scr_layout::LayoutKey;

/// What is looked for in a table.
#[derive(Clone, Copy, Debug, PartialEq, Eq)]
pub(crate) enum Wanted {
    Key(LayoutKey),
    /// A key that the top doesn't have.
    UnknownTop,
    /// A key that no field has.
    UnknownField,
}

fn is_blank(byte: u8) -> bool
    ensures { result ≡ is_blank byte }
{
    byte == b' ' || byte == b'\t'
}

/// Whether a byte may stand in a bare key.
fn is_bare(byte: u8) -> bool
    ensures { result ≡ is_bare byte }
{
    byte.is_ascii_alphanumeric() || byte == b'-' || byte == b'_'
}

/// What follows the blanks at the front.
fn after_blanks(text: &[u8]) -> &[u8]
    ensures { result.now ≡ after_blanks text.now }
{
    let mut rest = text;
    while let [first, others @ ..] = rest {
        if !is_blank(*first) {
            return rest;
        }
        rest = others;
    }
    rest
}

fn first_not_bare(text: &[u8]) -> Option<usize>
    ensures first { result ≡ first_not_bare text.now }
    ensures inside { IfSome result (λ n. n < length text.now) }
{
    text.iter().position(|byte| !is_bare(*byte))
}

/// How many bytes at the front may stand in a bare key.
fn bare_len(text: &[u8]) -> usize
    ensures count { result ≡ bare_len text.now }
    ensures inside { result ≤ length text.now }
{
    match first_not_bare(text) {
        Some(count) => count,
        None => text.len(),
    }
}

/// Whether a value stands at the front: blanks, and `=`.
fn is_value(text: &[u8]) -> bool
    ensures { result ≡ is_value text.now }
{
    match after_blanks(text) {
        [b'=', ..] => true,
        _ => false,
    }
}

/// The bare key of a line that gives one a value.
pub(crate) fn key_of(line: &[u8]) -> Option<&[u8]>
    ensures { option_map (λ key. key.now) result ≡ key_of line.now }
{
    let text = after_blanks(line);
    let count = bare_len(text);
    if 0 < count && is_value(&text[count..]) {
        Some(&text[..count])
    } else {
        None
    }
}

/// Whether a line begins a table.
fn is_header(line: &[u8]) -> bool
    ensures { result ≡ is_header line.now }
{
    match after_blanks(line) {
        [b'[', ..] => true,
        _ => false,
    }
}

fn is_top_word(word: &[u8]) -> bool
    ensures { result ≡ is_top_word word.now }
{
    word == b"version".as_slice()
        || word == b"addresses".as_slice()
        || word == b"default".as_slice()
        || word == b"alternate".as_slice()
        || word == b"screen".as_slice()
        || word == b"field".as_slice()
}

fn is_field_word(word: &[u8]) -> bool
    ensures { result ≡ is_field_word word.now }
{
    word == b"name".as_slice()
        || word == b"row".as_slice()
        || word == b"col".as_slice()
        || word == b"length".as_slice()
        || word == b"kind".as_slice()
        || word == b"count".as_slice()
        || word == b"down".as_slice()
}

/// Whether a key is the one that is looked for.
fn is_wanted_key(wanted: Wanted, word: &[u8]) -> bool
    ensures { result ≡ is_wanted_key wanted word.now }
{
    match wanted {
        Wanted::Key(key) => word == key.word().as_bytes(),
        Wanted::UnknownTop => !is_top_word(word),
        Wanted::UnknownField => !is_field_word(word),
    }
}

fn is_wanted(wanted: Wanted, line: &[u8]) -> bool
    ensures { result ≡ is_wanted wanted line.now }
{
    match key_of(line) {
        Some(word) => is_wanted_key(wanted, word),
        None => false,
    }
}

/// The first line with such a key in the table that comes after so many, counted from 1, with its number; the top comes before
/// all tables.
pub(crate) fn line_where(text: &[u8], tables: usize, wanted: Wanted) -> Option<(usize, &[u8])>
    requires { length text.now ≤ 16777216 }
    ensures { option_map (λ found. (found.0, found.1.now)) result
        ≡ line_where wanted 1 tables (lines_in text.now) }
{
    let mut number = 1;
    let mut left = tables;
    for line in text.lines() {
        if is_header(line) {
            if left == 0 {
                return None;
            }
            left -= 1;
        } else if left == 0 && is_wanted(wanted, line) {
            return Some((number, line));
        }
        number += 1;
    }
    None
}

/// The number of the line with which a table begins that comes after so many others.
pub(crate) fn table_line(text: &[u8], tables: usize) -> Option<usize>
    requires { length text.now ≤ 16777216 }
    ensures { result ≡ table_line 1 tables (lines_in text.now) }
{
    let mut number = 1;
    let mut left = tables;
    for line in text.lines() {
        if is_header(line) {
            if left == 0 {
                return Some(number);
            }
            left -= 1;
        }
        number += 1;
    }
    None
}
