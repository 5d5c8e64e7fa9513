//! Values of operands: words, numbers and pairs.

ghost use Rattle.std.specs.Prelude.{◌≡◌, ◌≤◌, ◌<◌, IfSome, length, codes, [], ◌∷◌};
ghost use Rattle.std.specs.Option.{option_map};
ghost use Rattle.bms_map.specs.Values.{digits_from, number_of, if_within, number_within, is_letter, between, comma_in, with_second, numbers_of, pair_in, pair_of, side_of, size_of, pos_of, kind_of, colors, color_of, highlights, highlight_of, only, nothing_but, before_it, first_of};

use crate::place::Extent;
use bms_source::{Letter, Why, is_digit, is_named};

/// The most characters of a field.
pub(crate) const MOST_LENGTH: u32 = 256;
/// The most occurrences of a field.
pub(crate) const MOST_OCCURRENCES: u32 = 1000;
/// The most lines and columns of a map.
const MOST_SIDE: u32 = 240;

/// Decimal digits, at most 9.
fn digits_of(value: &[Letter]) -> Option<u32>
    requires { length value.now ≤ 9 }
    ensures number { result ≡ digits_from 0 value.now }
    ensures few { IfSome result (λ n. n ≤ 999999999) }
{
    let mut number = 0u32;
    let mut rest = value;
    while let [letter, others @ ..] = rest {
        if !is_digit(letter.code) {
            return None;
        }
        number = number * 10 + u32::from(letter.code - b'0');
        rest = others;
    }
    Some(number)
}

/// The number of 1 to 9 decimal digits.
pub(crate) fn number_of(value: &[Letter]) -> Option<u32>
    ensures number { result ≡ number_of value.now }
    ensures few { IfSome result (λ n. n ≤ 999999999) }
{
    if value.is_empty() || 9 < value.len() {
        return None;
    }
    digits_of(value)
}

/// The number, if it is from the least to the most.
pub(crate) fn if_within(least: u32, most: u32, number: u32) -> Option<u32>
    ensures within { result ≡ if_within least most number }
    ensures least { IfSome result (λ n. least ≤ n) }
    ensures most { IfSome result (λ n. n ≤ most) }
{
    if least <= number && number <= most {
        Some(number)
    } else {
        None
    }
}

/// The number of a value, if it is from the least to the most.
pub(crate) fn number_within(value: &[Letter], least: u32, most: u32) -> Option<u32>
    ensures within { result ≡ number_within value.now least most }
    ensures least { IfSome result (λ n. least ≤ n) }
    ensures most { IfSome result (λ n. n ≤ most) }
{
    if_within(least, most, number_of(value)?)
}

/// What stands between a first and a last character of these codes.
#[tactic(auto, unfolding(crate::specs::Values::between))]
pub(crate) fn between(value: &[Letter], opening: u8, closing: u8) -> Option<&[Letter]>
    ensures { option_map (λ inner. inner.now) result ≡ between value.now opening closing }
{
    let count = value.len();
    if count < 2 {
        return None;
    }
    if is_letter(value.first().copied(), opening) && is_letter(value.last().copied(), closing) {
        Some(&value[1..count - 1])
    } else {
        None
    }
}

/// Whether a letter has this code.
fn is_letter(letter: Option<Letter>, code: u8) -> bool
    ensures { result ≡ is_letter letter code }
{
    match letter {
        Some(letter) => letter.code == code,
        None => false,
    }
}

/// How many letters stand before the first comma.
pub(crate) fn comma_in(letters: &[Letter]) -> usize
    ensures count { result ≡ comma_in letters.now }
    ensures inside { result ≤ length letters.now }
{
    let mut count = 0usize;
    let mut rest = letters;
    while let [letter, others @ ..] = rest {
        if letter.code == b',' {
            return count;
        }
        count += 1;
        rest = others;
    }
    count
}

/// The numbers before a comma and behind it.
fn numbers_of(first: &[Letter], others: &[Letter]) -> Option<(u32, u32)>
    ensures { result ≡ numbers_of first.now others.now }
{
    match others {
        [] => None,
        [_comma, second @ ..] => {
            let first = number_of(first)?;
            let second = number_of(second)?;
            Some((first, second))
        }
    }
}

fn pair_in(inner: &[Letter]) -> Option<(u32, u32)>
    ensures { result ≡ pair_in inner.now }
{
    let (first, others) = inner.split_at(comma_in(inner));
    numbers_of(first, others)
}

/// The two numbers of `(number,number)`.
pub(crate) fn pair_of(value: &[Letter]) -> Option<(u32, u32)>
    ensures { result ≡ pair_of value.now }
{
    match between(value, b'(', b')') {
        Some(inner) => pair_in(inner),
        None => None,
    }
}

/// The number of lines or columns, 1 to 240.
fn side_of(number: u32) -> Option<u8>
    ensures side { result ≡ side_of number }
    ensures some { IfSome result (λ n. 0 < n) }
{
    if 1 <= number && number <= MOST_SIDE {
        Some(number as u8)
    } else {
        None
    }
}

pub(crate) fn size_of(value: &[Letter]) -> Option<Extent>
    ensures { option_map (λ extent. (extent.lines, extent.columns)) result ≡ size_of value.now }
{
    let (lines, columns) = pair_of(value)?;
    let lines = side_of(lines)?;
    let columns = side_of(columns)?;
    Some(Extent { lines, columns })
}

/// A place in a map.
#[derive(Clone, Copy, Debug, PartialEq, Eq)]
pub(crate) enum Pos {
    /// Line and column, both counted from 1.
    Pair(u32, u32),
    /// Counted from 0.
    Number(u32),
}

pub(crate) fn pos_of(value: &[Letter]) -> Option<Pos>
    ensures { result ≡ pos_of value.now }
{
    match (pair_of(value), number_of(value)) {
        (Some((line, column)), _) => Some(Pos::Pair(line, column)),
        (None, Some(number)) => Some(Pos::Number(number)),
        (None, None) => None,
    }
}

/// What TYPE says.
#[derive(Clone, Copy, Debug, PartialEq, Eq)]
pub(crate) enum Kind {
    Begin,
    Final,
}

#[tactic(auto, unfolding(crate::specs::Values::kind_of))]
pub(crate) fn kind_of(value: &[Letter]) -> Option<Kind>
    ensures { result ≡ kind_of value.now }
{
    if is_named(value, b"FINAL") {
        Some(Kind::Final)
    } else if is_named(value, b"MAP") || is_named(value, b"DSECT") || is_named(value, b"&SYSPARM") {
        Some(Kind::Begin)
    } else {
        None
    }
}

/// The value of a pair for a color; 0 for none.
#[tactic(auto, unfolding(crate::specs::Values::colors))]
pub(crate) fn color_of(value: &[Letter]) -> Option<u8>
    ensures { result ≡ color_of value.now }
{
    if is_named(value, b"DEFAULT") {
        Some(0)
    } else if is_named(value, b"BLUE") {
        Some(0xF1)
    } else if is_named(value, b"RED") {
        Some(0xF2)
    } else if is_named(value, b"PINK") {
        Some(0xF3)
    } else if is_named(value, b"GREEN") {
        Some(0xF4)
    } else if is_named(value, b"TURQUOISE") {
        Some(0xF5)
    } else if is_named(value, b"YELLOW") {
        Some(0xF6)
    } else if is_named(value, b"NEUTRAL") {
        Some(0xF7)
    } else {
        None
    }
}

/// The value of a pair for a highlight; 0 for none.
#[tactic(auto, unfolding(crate::specs::Values::highlights))]
pub(crate) fn highlight_of(value: &[Letter]) -> Option<u8>
    ensures { result ≡ highlight_of value.now }
{
    if is_named(value, b"OFF") {
        Some(0)
    } else if is_named(value, b"BLINK") {
        Some(0xF1)
    } else if is_named(value, b"REVERSE") {
        Some(0xF2)
    } else if is_named(value, b"UNDERLINE") {
        Some(0xF4)
    } else {
        None
    }
}

/// One word is good, another one unsupported.
pub(crate) fn only(value: &[Letter], good: &[u8], other: &[u8]) -> Option<Why>
    ensures { result ≡ only value.now good.now other.now }
{
    if is_named(value, good) {
        None
    } else if is_named(value, other) {
        Some(Why::Unsupported)
    } else {
        Some(Why::BadValue)
    }
}

/// Nothing but BASE is supported.
pub(crate) fn only_base(value: &[Letter]) -> Option<Why>
    ensures { result ≡ nothing_but value.now (codes "BASE" ∷ []) }
{
    if is_named(value, b"BASE") {
        None
    } else {
        Some(Why::Unsupported)
    }
}

/// Nothing but ALL, 3270 and 3270-2 is supported.
pub(crate) fn only_terminals(value: &[Letter]) -> Option<Why>
    ensures { result ≡ nothing_but value.now
        (codes "ALL" ∷ codes "3270" ∷ codes "3270-2" ∷ []) }
{
    if is_named(value, b"ALL") || is_named(value, b"3270") || is_named(value, b"3270-2") {
        None
    } else {
        Some(Why::Unsupported)
    }
}

/// A line or a column on which a map begins, counted from 0.
pub(crate) fn first_of(value: &[Letter]) -> Result<u8, Why>
    ensures { result ≡ first_of value.now }
{
    if is_named(value, b"NEXT") || is_named(value, b"SAME") {
        return Err(Why::Unsupported);
    }
    match number_within(value, 1, MOST_SIDE) {
        Some(number) => Ok((number - 1) as u8),
        None => Err(Why::BadValue),
    }
}
