//! Values that are lists of words.

ghost use Rattle.std.specs.Prelude.{◌≡◌, ◌≤◌, ◌<◌, IfOk, IfSome, length, map, nat_lt, ◌&&◌, if◌then◌else◌};
ghost use Rattle.std.specs.List.{list_all, list_any};
ghost use Rattle.std.specs.Option.{option_map};
ghost use Rattle.bms_map.specs.Lists.{cut, items_of, words_of, is_of_word, is_word, are_words, is_among, are_among, has, are_same, has_twice, count_among, value_if, protections, intensities, attributes_conflict, attribute_bits, attribute_names, formats, controls_conflict, control_value, control_names, validation_value, validation_names, outline_value, outline_names, good_places, other_places, justify_fault, list_fault, never};
ghost use Rattle.bms_map.specs.Operands.{places_fault};

use crate::values::{between, comma_in};
use bms_source::{Letter, Why, is_named, upper};
use std::alloc::{AllocError, Global};
use std::marker::Model;

/// A word of a list.
#[derive(Drop)]
pub(crate) struct Word<'a> {
    letters: &'a [Letter],
}

impl<'a> Model for Word<'a> {
    ghost use Rattle.std.specs.Prelude.{List};
    ghost use Rattle.bms_source.specs.declared.letter.Letter.{Letter};

    ghost Value = { List Letter };

    ghost view = { λ w. w.letters.now };
}

const ATTRIBUTES: [&[u8]; 10] = [
    b"UNPROT", b"PROT", b"ASKIP", b"NUM", b"FSET", b"NORM", b"DET", b"BRT", b"DRK", b"IC",
];

const PROTECTIONS: [&[u8]; 3] = [b"ASKIP", b"PROT", b"UNPROT"];

const INTENSITIES: [&[u8]; 3] = [b"BRT", b"NORM", b"DRK"];

const CONTROLS: [&[u8]; 8] = [
    b"FREEKB", b"ALARM", b"FRSET", b"PRINT", b"HONEOM", b"L40", b"L64", b"L80",
];

const FORMATS: [&[u8]; 4] = [b"HONEOM", b"L40", b"L64", b"L80"];

const VALIDATIONS: [&[u8]; 4] = [b"MUSTFILL", b"MUSTENTER", b"TRIGGER", b"USEREXIT"];

const OUTLINES: [&[u8]; 5] = [b"BOX", b"LEFT", b"OVER", b"RIGHT", b"UNDER"];

const GOOD_PLACES: [&[u8]; 2] = [b"LEFT", b"FIRST"];

const OTHER_PLACES: [&[u8]; 3] = [b"RIGHT", b"LAST", b"BOTTOM"];

/// The item before the first comma and what comes after it, if there is one.
fn cut(letters: &[Letter]) -> Option<(&[Letter], &[Letter])>
    ensures cut { option_map (λ parts. (parts.0.now, parts.1.now)) result ≡ cut letters.now }
    ensures shorter { IfSome result (λ parts. length parts.1.now < length letters.now) }
{
    let (item, others) = letters.split_at(comma_in(letters));
    match others {
        [] => None,
        [_comma, after @ ..] => Some((item, after)),
    }
}

/// The items between the commas.
fn items_of<'a>(alloc: Global, letters: &'a [Letter]) -> Result<Vec<Word<'a>>, AllocError>
    ensures { IfOk result (λ items. items.items ≡ items_of letters.now) }
{
    let mut words = Vec::new(alloc);
    let mut rest = letters;
    while let Some((item, others)) = cut(rest) {
        words.push(Word { letters: item })?;
        rest = others;
    }
    words.push(Word { letters: rest })?;
    Ok(words)
}

/// The items inside the parentheses of a list, or a word alone.
pub(crate) fn words_of<'a>(alloc: Global, value: &'a [Letter]) -> Result<Vec<Word<'a>>, AllocError>
    ensures { IfOk result (λ words. words.items ≡ words_of value.now) }
{
    match between(value, b'(', b')') {
        Some(inner) => items_of(alloc, inner),
        None => items_of(alloc, value),
    }
}

fn is_of_word(code: u8) -> bool
    ensures { result ≡ is_of_word code }
{
    !(code == b'(' || code == b')' || code == b',' || code == b'\'')
}

fn are_of_word(letters: &[Letter]) -> bool
    ensures { result ≡ list_all (λ letter. is_of_word letter.code) letters.now }
{
    letters.iter().all(|letter| is_of_word(letter.code))
}

/// Whether letters are a word: some, without parentheses, commas and apostrophes.
fn is_word(letters: &[Letter]) -> bool
    ensures { result ≡ is_word letters.now }
{
    if letters.is_empty() {
        return false;
    }
    are_of_word(letters)
}

fn are_words(words: &[Word<'_>]) -> bool
    ensures { result ≡ are_words words.now }
{
    let mut rest = words;
    while let [word, others @ ..] = rest {
        if !is_word(word.letters) {
            return false;
        }
        rest = others;
    }
    true
}

/// Whether a word is one of these.
fn is_among(names: &[&[u8]], word: &[Letter]) -> bool
    ensures { result ≡ is_among (map (λ name. name.now) names.now) word.now }
{
    let mut rest = names;
    while let [name, others @ ..] = rest {
        if is_named(word, name) {
            return true;
        }
        rest = others;
    }
    false
}

fn are_among(names: &[&[u8]], words: &[Word<'_>]) -> bool
    ensures { result ≡ are_among (map (λ name. name.now) names.now) words.now }
{
    let mut rest = words;
    while let [word, others @ ..] = rest {
        if !is_among(names, word.letters) {
            return false;
        }
        rest = others;
    }
    true
}

/// Whether words have this one.
pub(crate) fn has(words: &[Word<'_>], name: &[u8]) -> bool
    ensures { result ≡ has words.now name.now }
{
    let mut rest = words;
    while let [word, others @ ..] = rest {
        if is_named(word.letters, name) {
            return true;
        }
        rest = others;
    }
    false
}

/// Whether two words are one, in either case.
pub(crate) fn are_same(one: &[Letter], other: &[Letter]) -> bool
    ensures { result ≡ are_same one.now other.now }
{
    match one {
        [] => other.is_empty(),
        [a, others @ ..] => match other {
            [] => false,
            [b, rest @ ..] => upper(a.code) == upper(b.code) && are_same(others, rest),
        },
    }
}

fn is_again(word: &[Letter], words: &[Word<'_>]) -> bool
    ensures { result ≡ list_any (are_same word.now) words.now }
{
    let mut rest = words;
    while let [other, others @ ..] = rest {
        if are_same(word, other.letters) {
            return true;
        }
        rest = others;
    }
    false
}

/// Whether a word comes twice.
fn has_twice(words: &[Word<'_>]) -> bool
    ensures { result ≡ has_twice words.now }
{
    let mut rest = words;
    while let [word, others @ ..] = rest {
        if is_again(word.letters, others) {
            return true;
        }
        rest = others;
    }
    false
}

fn number_if(is: bool) -> usize
    ensures number { result ≡ (if is then 1 else 0) }
    ensures few { result ≤ 1 }
{
    if is { 1 } else { 0 }
}

/// How many of the words are one of these.
fn count_among(names: &[&[u8]], words: &[Word<'_>]) -> usize
    ensures count { result ≡ count_among (map (λ name. name.now) names.now) words.now }
{
    let mut count = 0usize;
    let mut rest = words;
    while let [word, others @ ..] = rest {
        let more = number_if(is_among(names, word.letters));
        count += more;
        rest = others;
    }
    count
}

fn value_if(has: bool, value: u8) -> u8
    ensures value { result ≡ value_if has value }
    ensures most { result ≤ value }
{
    if has { value } else { 0 }
}

/// Whether more than one of the words is one of these.
fn are_several(names: &[&[u8]], words: &[Word<'_>]) -> bool
    ensures { result ≡ nat_lt 1 (count_among (map (λ name. name.now) names.now) words.now) }
{
    1 < count_among(names, words)
}

#[tactic(auto, unfolding(crate::specs::Lists::attributes_conflict, crate::specs::Lists::protections, crate::specs::Lists::intensities))]
fn attributes_conflict(words: &[Word<'_>]) -> bool
    ensures { result ≡ attributes_conflict words.now }
{
    has_twice(words)
        || are_several(&PROTECTIONS, words)
        || are_several(&INTENSITIES, words)
        || (has(words, b"DET") && has(words, b"DRK"))
}

/// The bits of an attribute that ATTRB tells.
#[tactic(auto, unfolding(crate::specs::Lists::attribute_bits))]
pub(crate) fn attribute_bits(words: &[Word<'_>]) -> u8
    ensures bits { result ≡ attribute_bits words.now }
    ensures six { result < 64 }
{
    value_if(has(words, b"PROT") || has(words, b"ASKIP"), 0x20)
        + value_if(has(words, b"NUM") || has(words, b"ASKIP"), 0x10)
        + value_if(has(words, b"BRT") || has(words, b"DRK"), 0x08)
        + value_if(has(words, b"DET") || has(words, b"DRK"), 0x04)
        + value_if(has(words, b"FSET"), 0x01)
}

#[tactic(auto, unfolding(crate::specs::Lists::controls_conflict, crate::specs::Lists::formats))]
fn controls_conflict(words: &[Word<'_>]) -> bool
    ensures { result ≡ controls_conflict words.now }
{
    has_twice(words) || are_several(&FORMATS, words)
}

/// The bits of the write control character that CTRL tells.
#[tactic(auto, unfolding(crate::specs::Lists::control_value))]
pub(crate) fn control_value(words: &[Word<'_>]) -> u8
    ensures bits { result ≡ control_value words.now }
    ensures six { result < 64 }
{
    value_if(has(words, b"L64") || has(words, b"L80"), 0x20)
        + value_if(has(words, b"L40") || has(words, b"L80"), 0x10)
        + value_if(has(words, b"PRINT"), 0x08)
        + value_if(has(words, b"ALARM"), 0x04)
        + value_if(has(words, b"FREEKB"), 0x02)
        + value_if(has(words, b"FRSET"), 0x01)
}

/// The value of a pair for a validation; 0 for none.
#[tactic(auto, unfolding(crate::specs::Lists::validation_value))]
pub(crate) fn validation_value(words: &[Word<'_>]) -> u8
    ensures { result ≡ validation_value words.now }
{
    value_if(has(words, b"MUSTFILL"), 0x04)
        + value_if(has(words, b"MUSTENTER"), 0x02)
        + value_if(has(words, b"TRIGGER"), 0x01)
}

/// The value of a pair for lines round a field.
#[tactic(auto, unfolding(crate::specs::Lists::outline_value))]
pub(crate) fn outline_value(words: &[Word<'_>]) -> u8
    ensures { result ≡ outline_value words.now }
{
    value_if(has(words, b"LEFT") || has(words, b"BOX"), 0x08)
        + value_if(has(words, b"OVER") || has(words, b"BOX"), 0x04)
        + value_if(has(words, b"RIGHT") || has(words, b"BOX"), 0x02)
        + value_if(has(words, b"UNDER") || has(words, b"BOX"), 0x01)
}

fn are_known(names: &[&[u8]], words: &[Word<'_>]) -> bool
    ensures { result ≡ are_words words.now
        && are_among (map (λ name. name.now) names.now) words.now }
{
    are_words(words) && are_among(names, words)
}

#[tactic(auto, unfolding(crate::specs::Lists::attribute_names))]
pub(crate) fn attributes_fault(words: &[Word<'_>]) -> Option<Why>
    ensures { result ≡ list_fault attribute_names attributes_conflict words.now }
{
    if !are_known(&ATTRIBUTES, words) {
        return Some(Why::BadValue);
    }
    if attributes_conflict(words) {
        Some(Why::Conflict)
    } else {
        None
    }
}

#[tactic(auto, unfolding(crate::specs::Lists::control_names))]
pub(crate) fn controls_fault(words: &[Word<'_>]) -> Option<Why>
    ensures { result ≡ list_fault control_names controls_conflict words.now }
{
    if !are_known(&CONTROLS, words) {
        return Some(Why::BadValue);
    }
    if controls_conflict(words) {
        Some(Why::Conflict)
    } else {
        None
    }
}

#[tactic(auto, unfolding(crate::specs::Lists::validation_names))]
pub(crate) fn validations_fault(words: &[Word<'_>]) -> Option<Why>
    ensures { result ≡ list_fault validation_names never words.now }
{
    if are_known(&VALIDATIONS, words) {
        None
    } else {
        Some(Why::BadValue)
    }
}

#[tactic(auto, unfolding(crate::specs::Lists::outline_names))]
pub(crate) fn outlines_fault(words: &[Word<'_>]) -> Option<Why>
    ensures { result ≡ list_fault outline_names never words.now }
{
    if are_known(&OUTLINES, words) {
        None
    } else {
        Some(Why::BadValue)
    }
}

/// The first word under which a map has no place of its own.
#[tactic(auto, unfolding(crate::specs::Lists::good_places, crate::specs::Lists::other_places))]
fn justify_fault(words: &[Word<'_>]) -> Option<Why>
    ensures { result ≡ justify_fault words.now }
{
    let mut rest = words;
    while let [word, others @ ..] = rest {
        if !is_among(&GOOD_PLACES, word.letters) {
            if is_among(&OTHER_PLACES, word.letters) {
                return Some(Why::Unsupported);
            }
            return Some(Why::BadValue);
        }
        rest = others;
    }
    None
}

pub(crate) fn places_fault(words: &[Word<'_>]) -> Option<Why>
    ensures { result ≡ places_fault words.now }
{
    if are_words(words) {
        justify_fault(words)
    } else {
        Some(Why::BadValue)
    }
}
