//! Lengths of COBOL pictures.

ghost use Rattle.std.specs.Prelude.{◌≡◌, ◌<◌, ◌≤◌, ◌*◌, IfSome, length};
ghost use Rattle.std.specs.Option.{option_map};
ghost use Rattle.bms_map.specs.Pictures.{second_in, takes_none, takes_one, symbol_of, symbol_in, close_in, times_of, times_in, positions_in, length_from, length_of};

use crate::values::{MOST_LENGTH, between, if_within, number_of};
use bms_source::{Letter, upper};

/// The second letter of a symbol of two.
fn second_in(others: &[Letter], second: u8) -> Option<(u32, &[Letter])>
    ensures found { option_map (λ found. (found.0, found.1.now)) result
        ≡ second_in others.now second }
    ensures few { IfSome result (λ found. found.0 ≤ 2) }
    ensures shorter { IfSome result (λ found. length found.1.now ≤ length others.now) }
{
    match others {
        [] => None,
        [letter, rest @ ..] => {
            if upper(letter.code) == second {
                Some((2, rest))
            } else {
                None
            }
        }
    }
}

#[tactic(auto, unfolding(crate::specs::Pictures::takes_none))]
fn takes_none(code: u8) -> bool
    ensures { result ≡ takes_none code }
{
    code == b'V' || code == b'S' || code == b'P'
}

#[tactic(auto, unfolding(crate::specs::Pictures::takes_one))]
fn takes_one(code: u8) -> bool
    ensures { result ≡ takes_one code }
{
    code == b'A'
        || code == b'B'
        || code == b'E'
        || code == b'X'
        || code == b'Z'
        || code == b'0'
        || code == b'9'
        || code == b'/'
        || code == b','
        || code == b'.'
        || code == b'+'
        || code == b'-'
        || code == b'$'
        || code == b'*'
}

/// How many positions a symbol takes, and what comes after it.
#[tactic(auto, unfolding(crate::specs::Pictures::symbol_of))]
fn symbol_of(code: u8, others: &[Letter]) -> Option<(u32, &[Letter])>
    ensures found { option_map (λ found. (found.0, found.1.now)) result
        ≡ symbol_of code others.now }
    ensures few { IfSome result (λ found. found.0 ≤ 2) }
    ensures shorter { IfSome result (λ found. length found.1.now ≤ length others.now) }
{
    if takes_none(code) {
        return Some((0, others));
    }
    if code == b'C' {
        return second_in(others, b'R');
    }
    if code == b'D' {
        return second_in(others, b'B');
    }
    if takes_one(code) {
        Some((1, others))
    } else {
        None
    }
}

fn symbol_in(picture: &[Letter]) -> Option<(u32, &[Letter])>
    ensures found { option_map (λ found. (found.0, found.1.now)) result
        ≡ symbol_in picture.now }
    ensures few { IfSome result (λ found. found.0 ≤ 2) }
    ensures shorter { IfSome result (λ found. length found.1.now < length picture.now) }
{
    match picture {
        [] => None,
        [first, others @ ..] => symbol_of(upper(first.code), others),
    }
}

/// How many letters stand up to the first end of a parenthesis.
fn close_in(letters: &[Letter]) -> usize
    ensures count { result ≡ close_in letters.now }
    ensures inside { result ≤ length letters.now }
{
    let mut count = 0usize;
    let mut rest = letters;
    while let [letter, others @ ..] = rest {
        if letter.code == b')' {
            return count;
        }
        count += 1;
        rest = others;
    }
    count
}

/// A number, and what comes after the parenthesis that ends it.
fn times_of<'a>(number: &[Letter], others: &'a [Letter]) -> Option<(u32, &'a [Letter])>
    ensures found { option_map (λ found. (found.0, found.1.now)) result
        ≡ times_of number.now others.now }
    ensures shorter { IfSome result (λ found. length found.1.now ≤ length others.now) }
    ensures few { IfSome result (λ found. found.0 ≤ 999999999) }
{
    match others {
        [] => None,
        [_close, rest @ ..] => match number_of(number) {
            Some(times) => Some((times, rest)),
            None => None,
        },
    }
}

/// How often a symbol stands, by the number in parentheses behind it, and what comes after that.
fn times_in(picture: &[Letter]) -> Option<(u32, &[Letter])>
    ensures found { option_map (λ found. (found.0, found.1.now)) result ≡ times_in picture.now }
    ensures shorter { IfSome result (λ found. length found.1.now ≤ length picture.now) }
    ensures few { IfSome result (λ found. found.0 ≤ 999999999) }
{
    match picture {
        [] => Some((1, picture)),
        [open, inner @ ..] => {
            if open.code == b'(' {
                let (number, others) = inner.split_at(close_in(inner));
                times_of(number, others)
            } else {
                Some((1, picture))
            }
        }
    }
}

/// The positions of a symbol at the front, as often as it stands, and what comes after.
fn positions_in(picture: &[Letter]) -> Option<(u32, &[Letter])>
    ensures found { option_map (λ found. (found.0, found.1.now)) result
        ≡ positions_in picture.now }
    ensures few { IfSome result (λ found. found.0 ≤ 1999999998) }
    ensures shorter { IfSome result (λ found. length found.1.now < length picture.now) }
{
    match symbol_in(picture) {
        None => None,
        Some((each, others)) => match times_in(others) {
            None => None,
            Some((times, rest)) => Some((each * times, rest)),
        },
    }
}

/// The positions of a picture.
fn length_in(picture: &[Letter]) -> Option<u32>
    ensures length { result ≡ length_from (length picture.now) 0 picture.now }
    ensures most { IfSome result (λ n. n ≤ 256) }
{
    let mut rest = picture;
    let mut length = 0u32;
    while !rest.is_empty() {
        let Some((positions, others)) = positions_in(rest) else {
            return None;
        };
        let Some(more) = if_within(0, MOST_LENGTH, length + positions) else {
            return None;
        };
        length = more;
        rest = others;
    }
    if_within(1, MOST_LENGTH, length)
}

/// How many character positions a picture in apostrophes has, 1 to 256.
pub(crate) fn length_of(value: &[Letter]) -> Option<u32>
    ensures length { result ≡ length_of value.now }
    ensures most { IfSome result (λ n. n ≤ 256) }
{
    match between(value, b'\'', b'\'') {
        Some(picture) => length_in(picture),
        None => None,
    }
}
