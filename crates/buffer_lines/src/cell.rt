//! A word of a row: a cell of the buffer, or an attribute of the characters after it.

ghost use Rattle.std.specs.Prelude.{◌≡◌, ◌∷◌, [], ◌==◌, ◌<◌, length, option_map, IfSome};
ghost use Rattle.buffer_lines.specs.Cell.{after_pair, are_pairs, is_end, byte_told, char_word, field_word, glyph_word, is_pair, kind_of, kind_named, word_told, named_told, set_word};

use ds_codec::{Attr, Cell, Char, byte_of_digits};

/// What a word tells.
#[derive(Clone, Copy, Debug, PartialEq, Eq)]
pub(crate) enum Word {
    Cell(Cell),
    /// An attribute of the characters after it, which is no cell.
    Extended,
    Refused,
}

/// What is named before a parenthesis.
#[derive(Clone, Copy, Debug, PartialEq, Eq)]
pub(crate) enum Kind {
    /// `SF`, a field attribute.
    Field,
    /// `GE`, a character of the alternate set.
    Graphic,
    /// `SA`, an attribute of characters.
    Set,
}

fn kind_named(first: u8, second: u8) -> Option<Kind>
    ensures { result ≡ kind_named first second }
{
    if first == b'S' && second == b'F' {
        Some(Kind::Field)
    } else if first == b'G' && second == b'E' {
        Some(Kind::Graphic)
    } else if first == b'S' && second == b'A' {
        Some(Kind::Set)
    } else {
        None
    }
}

fn kind_of(first: u8, second: u8, third: u8) -> Option<Kind>
    ensures { result ≡ kind_of first second third }
{
    if third == b'(' {
        kind_named(first, second)
    } else {
        None
    }
}

/// The character of a code, where there is one.
fn char_word(code: Option<u8>, alt: bool) -> Word
    ensures { result ≡ char_word code alt }
{
    match code {
        Some(code) => match Char::new(code, alt) {
            Some(character) => Word::Cell(Cell::Char(character)),
            None => Word::Refused,
        },
        None => Word::Refused,
    }
}

/// Whether five bytes are a type and a value with `=` between them.
fn is_pair(a: u8, b: u8, sign: u8, c: u8, d: u8) -> bool
    ensures { result ≡ is_pair a b sign c d }
{
    sign == b'=' && byte_of_digits(a, b).is_some() && byte_of_digits(c, d).is_some()
}

/// What follows a comma and a pair, where a text begins so.
fn after_pair(text: &[u8]) -> Option<&[u8]>
    ensures told { option_map (λ rest. rest.now) result ≡ after_pair text.now }
    ensures shorter { IfSome result (λ rest. length rest.now < length text.now) }
{
    match text {
        [comma, a, b, sign, c, d, rest @ ..] => {
            if *comma == b',' && is_pair(*a, *b, *sign, *c, *d) {
                Some(rest)
            } else {
                None
            }
        }
        _ => None,
    }
}

fn is_end(text: &[u8]) -> bool
    ensures { result ≡ is_end text.now }
{
    match text {
        [end] => *end == b')',
        _ => false,
    }
}

/// Whether pairs, each with a comma before it, and a parenthesis end a word.
fn are_pairs(text: &[u8]) -> bool
    ensures { result ≡ are_pairs text.now }
{
    let mut rest = text;
    while let Some(others) = after_pair(rest) {
        rest = others;
    }
    is_end(rest)
}

/// A field attribute: `c0=`, its two digits, and further pairs, which are no part of it here.
fn field_word(inside: &[u8]) -> Word
    ensures { result ≡ field_word inside.now }
{
    match inside {
        [c, nought, sign, high, low, more @ ..] => {
            if *c != b'c' || *nought != b'0' || *sign != b'=' || !are_pairs(more) {
                return Word::Refused;
            }
            match byte_of_digits(*high, *low) {
                Some(byte) => Word::Cell(Cell::Field(Attr::new(byte))),
                None => Word::Refused,
            }
        }
        _ => Word::Refused,
    }
}

fn glyph_word(inside: &[u8]) -> Word
    ensures { result ≡ glyph_word inside.now }
{
    match inside {
        [high, low, end] => {
            if *end == b')' {
                char_word(byte_of_digits(*high, *low), true)
            } else {
                Word::Refused
            }
        }
        _ => Word::Refused,
    }
}

fn set_word(inside: &[u8]) -> Word
    ensures { result ≡ set_word inside.now }
{
    match inside {
        [a, b, sign, c, d, end] => {
            if *end == b')' && is_pair(*a, *b, *sign, *c, *d) {
                Word::Extended
            } else {
                Word::Refused
            }
        }
        _ => Word::Refused,
    }
}

fn named_told(kind: Option<Kind>, inside: &[u8]) -> Word
    ensures { result ≡ named_told kind inside.now }
{
    match kind {
        Some(Kind::Field) => field_word(inside),
        Some(Kind::Graphic) => glyph_word(inside),
        Some(Kind::Set) => set_word(inside),
        None => Word::Refused,
    }
}

/// What a word of a row tells.
pub(crate) fn word_told(word: &[u8]) -> Word
    ensures { result ≡ word_told word.now }
{
    match word {
        [] | [_] => Word::Refused,
        [high, low] => char_word(byte_of_digits(*high, *low), false),
        [first, second, third, inside @ ..] => {
            named_told(kind_of(*first, *second, *third), inside)
        }
    }
}
