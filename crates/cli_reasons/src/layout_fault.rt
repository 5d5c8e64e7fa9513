//! Where the key of a layout stands that is refused, and what is said of it.

ghost use Rattle.std.specs.Prelude.{◌≡◌, ◌++◌, ◌≤◌, ◌<◌, ◌^◌, length, map, OnOk};
ghost use Rattle.std.specs.Option.{option_map};
ghost use Rattle.std.specs.String.{string_bytes};
ghost use Rattle.cli_reasons.specs.Head.{line_head};
ghost use Rattle.cli_reasons.specs.Nearest.{nearest};
ghost use Rattle.cli_reasons.specs.Sentence.{near_text};
ghost use Rattle.cli_reasons.specs.Shown.{quoted};
ghost use Rattle.cli_reasons.specs.LayoutFault.{has_long_text, tables_before, line_place, key_place, field_place, known_place, unknown_in, unknown_line, known_words, word_of, unknown_word, unknown_key_text, rows_place, lost_key_text, unknown_text, known_text, key_fault_text};

use crate::head::{Place, push_head};
use crate::layout_line::{Wanted, key_of, line_where, table_line};
use crate::layout_words::push_key_reason;
use crate::near::nearest;
use crate::shown::front;
use crate::telling::push_with_near;
use crate::words::{field_words, top_words};
use scr_layout::{LayoutFault, LayoutKey, Why};
use std::alloc::{AllocError, Global};

/// The most fields of a layout.
const MOST_FIELDS: usize = 1_000;

/// The most bytes of a key that are looked at.
const MOST_WORD: usize = 64;

/// Whether a text has a string of several lines, in which a line may look like a key's.
fn has_long_text(text: &[u8]) -> bool
    ensures { result ≡ has_long_text text.now }
{
    let mut rest = text;
    while let [_, others @ ..] = rest {
        match rest {
            [b'"', b'"', b'"', ..] | [b'\'', b'\'', b'\'', ..] => return true,
            _ => {}
        }
        rest = others;
    }
    false
}

/// How many tables begin before the keys of a field, or of the top.
fn tables_before(field: Option<usize>) -> usize
    ensures { result ≡ tables_before field }
{
    match field {
        Some(index) => index.saturating_add(1),
        None => 0,
    }
}

/// The line that was found.
fn line_place(found: Option<usize>) -> Place
    ensures { result ≡ line_place found }
{
    match found {
        Some(number) => Place::Line(number as u64),
        None => Place::Whole,
    }
}

/// The line of a key in the table of a field, or at the top.
fn key_place(text: &[u8], field: Option<usize>, wanted: Wanted) -> Place
    requires { length text.now ≤ 16777216 }
    ensures { result ≡ key_place text.now field wanted }
{
    match line_where(text, tables_before(field), wanted) {
        Some((number, _)) => line_place(Some(number)),
        None => Place::Whole,
    }
}

/// The line with which the table of a field begins.
fn field_place(text: &[u8], field: Option<usize>) -> Place
    requires { length text.now ≤ 16777216 }
    ensures { result ≡ field_place text.now field }
{
    match field {
        Some(index) => line_place(table_line(text, index)),
        None => Place::Whole,
    }
}

/// Where a known key is refused: its line, that of its table where it is missing, or that of the first table too many.
fn known_place(text: &[u8], field: Option<usize>, key: LayoutKey, why: Why) -> Place
    requires { length text.now ≤ 16777216 }
    ensures { result ≡ known_place text.now field key why }
{
    if has_long_text(text) {
        return Place::Whole;
    }
    match why {
        Why::MissingKey => field_place(text, field),
        Why::TooManyFields => field_place(text, Some(MOST_FIELDS)),
        _ => key_place(text, field, Wanted::Key(key)),
    }
}

/// What an unknown key is looked for among.
fn unknown_in(field: Option<usize>) -> Wanted
    ensures { result ≡ unknown_in field }
{
    match field {
        Some(_) => Wanted::UnknownField,
        None => Wanted::UnknownTop,
    }
}

/// The first line of an unknown key, with its number.
#[tactic(auto, unfolding(crate::specs::LayoutFault::unknown_line))]
fn unknown_line(text: &[u8], field: Option<usize>) -> Option<(usize, &[u8])>
    requires { length text.now ≤ 16777216 }
    ensures { option_map (λ found. (found.0, found.1.now)) result
        ≡ unknown_line text.now field }
{
    if has_long_text(text) {
        return None;
    }
    line_where(text, tables_before(field), unknown_in(field))
}

/// The keys that a field or the top has.
fn known_words(field: Option<usize>) -> &'static [&'static str]
    ensures { map (λ word. word.now) result.now ≡ known_words field }
{
    match field {
        Some(_) => field_words(),
        None => top_words(),
    }
}

/// The key of a line.
fn word_of(line: &[u8]) -> &[u8]
    ensures { result.now ≡ word_of line.now }
{
    match key_of(line) {
        Some(word) => word,
        None => line,
    }
}

/// The unknown key of a line, up to 64 bytes of it.
#[tactic(auto, unfolding(crate::specs::LayoutFault::unknown_word))]
fn unknown_word(line: &[u8]) -> &[u8]
    ensures word { result.now ≡ unknown_word line.now }
    ensures few { length result.now ≤ 64 }
{
    front(word_of(line), MOST_WORD)
}

/// Pushes words, a key between quotes, and the nearest known one.
fn push_near_known(
    alloc: Global,
    out: &mut String,
    words: &str,
    field: Option<usize>,
    word: &[u8],
) -> Result<(), AllocError>
    requires { length word.now < 2 ^ 32 }
    ensures { OnOk result (string_bytes out.new ≡ string_bytes out.old
        ++ ((words.now ++ quoted word.now)
        ++ near_text (nearest word.now (known_words field)))) }
{
    let near = nearest(alloc, word, known_words(field))?;
    push_with_near(out, words, word, near)
}

/// Pushes an unknown key, and the nearest known one.
#[tactic(auto, unfolding(crate::specs::LayoutFault::unknown_key_text))]
fn push_unknown_key(
    alloc: Global,
    out: &mut String,
    field: Option<usize>,
    word: &[u8],
) -> Result<(), AllocError>
    requires { length word.now < 2 ^ 32 }
    ensures { OnOk result (string_bytes out.new
        ≡ string_bytes out.old ++ unknown_key_text field word.now) }
{
    push_near_known(alloc, out, "unknown key ", field, word)
}

/// Where the key of rows stands, in a layout of a version without rows.
fn rows_place(text: &[u8], field: Option<usize>) -> Place
    requires { length text.now ≤ 16777216 }
    ensures { result ≡ rows_place text.now field }
{
    match key_place(text, field, Wanted::Key(LayoutKey::Count)) {
        Place::Whole => key_place(text, field, Wanted::Key(LayoutKey::Down)),
        place => place,
    }
}

/// Pushes the sentence of an unknown key whose line isn't found: in a field it may be one of rows.
fn push_lost_key(
    out: &mut String,
    name: &str,
    text: &[u8],
    field: Option<usize>,
) -> Result<(), AllocError>
    requires { length text.now ≤ 16777216 }
    ensures { OnOk result (string_bytes out.new
        ≡ string_bytes out.old ++ lost_key_text name.now text.now field) }
{
    match rows_place(text, field) {
        Place::Whole => {
            push_head(out, name, Place::Whole)?;
            out.push_str("an unknown key")
        }
        place => {
            push_head(out, name, place)?;
            out.push_str("'count' and 'down' need version = 2")
        }
    }
}

/// Pushes the sentence of an unknown key that stands on the line of this number.
fn push_found_key(
    alloc: Global,
    out: &mut String,
    name: &str,
    number: usize,
    field: Option<usize>,
    word: &[u8],
) -> Result<(), AllocError>
    requires { length word.now < 2 ^ 32 }
    ensures { OnOk result (string_bytes out.new ≡ string_bytes out.old
        ++ (line_head name.now number ++ unknown_key_text field word.now)) }
{
    push_head(out, name, Place::Line(number as u64))?;
    push_unknown_key(alloc, out, field, word)
}

/// Pushes the sentence of an unknown key.
fn push_unknown_sentence(
    alloc: Global,
    out: &mut String,
    name: &str,
    text: &[u8],
    field: Option<usize>,
) -> Result<(), AllocError>
    requires { length text.now ≤ 16777216 }
    ensures { OnOk result (string_bytes out.new
        ≡ string_bytes out.old ++ unknown_text name.now text.now field) }
{
    let Some((number, line)) = unknown_line(text, field) else {
        return push_lost_key(out, name, text, field);
    };
    push_found_key(alloc, out, name, number, field, unknown_word(line))
}

/// Pushes the sentence of a known key.
fn push_known_sentence(
    out: &mut String,
    name: &str,
    place: Place,
    key: LayoutKey,
    why: Why,
) -> Result<(), AllocError>
    ensures { OnOk result (string_bytes out.new
        ≡ string_bytes out.old ++ known_text name.now place key why) }
{
    push_head(out, name, place)?;
    push_key_reason(out, key, why)
}

/// Pushes why a key of a layout of this name is refused, without the end of the line.
pub(crate) fn push_key_fault(
    alloc: Global,
    out: &mut String,
    name: &str,
    text: &[u8],
    fault: LayoutFault,
) -> Result<(), AllocError>
    requires { length text.now ≤ 16777216 }
    ensures { OnOk result (string_bytes out.new
        ≡ string_bytes out.old ++ key_fault_text name.now text.now fault) }
{
    let LayoutFault { field, which, why } = fault;
    match which {
        Some(LayoutKey::Unknown) => push_unknown_sentence(alloc, out, name, text, field),
        Some(key) => {
            push_known_sentence(out, name, known_place(text, field, key, why), key, why)
        }
        None => Ok(()),
    }
}
