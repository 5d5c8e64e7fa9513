//! Words of a line: bytes in hexadecimal, pairs, numbers.

ghost use Rattle.std.specs.Prelude.{◌≡◌, ◌∷◌, [], ◌==◌, ◌<◌, ◌+◌, ◌-◌, ◌*◌, not, true, length, position, IfSome, OnOk, IfOk};
ghost use Rattle.std.specs.Option.{option_map};
ghost use Rattle.std.specs.Char.{is_ascii_digit};
ghost use Rattle.std.specs.List.{list_all};
ghost use Rattle.std.specs.Str.Parse.{digits_value};
ghost use Rattle.order_lines.specs.Words.{byte_told, pair_from, pair_told, first_pair_of, pairs_told, is_numeral, number_from, number_told, cut_at};

use ds_codec::byte_of_digits;
use std::alloc::{AllocError, Global};

/// A byte: two hexadecimal digits, of either case.
pub fn byte(word: &[u8]) -> Option<u8>
    ensures { result ≡ byte_told word.now }
{
    match word {
        [high, low] => byte_of_digits(*high, *low),
        _ => None,
    }
}

/// A type and a value, where both were read.
fn pair_from(kind: Option<u8>, value: Option<u8>) -> Option<(u8, u8)>
    ensures { result ≡ pair_from kind value }
{
    match (kind, value) {
        (Some(kind), Some(value)) => Some((kind, value)),
        _ => None,
    }
}

/// A type and a value, by their digits and the sign between them.
fn pair_of(a: u8, b: u8, sign: u8, c: u8, d: u8) -> Option<(u8, u8)>
    ensures { result ≡ pair_told (a ∷ b ∷ sign ∷ c ∷ d ∷ []) }
{
    if sign == b'=' {
        pair_from(byte_of_digits(a, b), byte_of_digits(c, d))
    } else {
        None
    }
}

/// A type and a value with `=` between them.
pub fn pair(word: &[u8]) -> Option<(u8, u8)>
    ensures { result ≡ pair_told word.now }
{
    match word {
        [a, b, sign, c, d] => pair_of(*a, *b, *sign, *c, *d),
        _ => None,
    }
}

/// The pair at the front, with a space before it, and what follows.
fn first_pair(words: &[u8]) -> Option<(u8, u8, &[u8])>
    ensures told { option_map (λ first. (first.0, first.1, first.2.now)) result
        ≡ first_pair_of words.now }
    ensures shorter { IfSome result (λ first. length first.2.now < length words.now) }
{
    match words {
        [b' ', a, b, sign, c, d, others @ ..] => {
            let (kind, value) = pair_of(*a, *b, *sign, *c, *d)?;
            Some((kind, value, others))
        }
        _ => None,
    }
}

/// The types and values of pairs, each with a space before it, up to the end of the line.
pub fn pairs(alloc: Global, words: &[u8]) -> Result<Option<Vec<u8>>, AllocError>
    ensures { IfOk result (λ pairs. option_map (λ bytes. bytes.items) pairs
        ≡ pairs_told words.now) }
{
    let mut bytes = Vec::new(alloc);
    let mut rest = words;
    while !rest.is_empty() {
        let Some((kind, value, others)) = first_pair(rest) else {
            return Ok(None);
        };
        bytes.extend_from_slice(&[kind, value])?;
        rest = others;
    }
    Ok(Some(bytes))
}

/// Whether digits write a number in its one form: without a zero before another digit.
fn is_numeral(word: &[u8]) -> bool
    ensures { result ≡ is_numeral word.now }
{
    match word {
        [] => false,
        [digit] => digit.is_ascii_digit(),
        [digit, ..] => *digit != b'0' && are_digits(word),
    }
}

fn are_digits(word: &[u8]) -> bool
    ensures { result ≡ list_all is_ascii_digit word.now }
{
    word.iter().all(|byte| byte.is_ascii_digit())
}

/// The number that digits write, unless it is above 4,294,967,295.
fn value(digits: &[u8]) -> Option<u32>
    requires { list_all is_ascii_digit digits.now ≡ true }
    ensures { result ≡ number_from (digits_value 10 digits.now) }
{
    let mut value: u64 = 0;
    let mut rest = digits;
    while let [digit, others @ ..] = rest {
        value = value * 10 + u64::from(*digit - b'0');
        if 0xFFFF_FFFF < value {
            return None;
        }
        rest = others;
    }
    Some(value as u32)
}

/// A number of up to 4,294,967,295 in decimal digits, without leading zeros.
pub fn number(word: &[u8]) -> Option<u32>
    ensures { result ≡ number_told word.now }
{
    if is_numeral(word) { value(word) } else { None }
}

/// What stands before the first such byte, and after it.
pub fn cut(bytes: &[u8], byte: u8) -> Option<(&[u8], &[u8])>
    ensures { option_map (λ parts. (parts.0.now, parts.1.now)) result ≡ cut_at byte bytes.now }
{
    let n = place_of(bytes, byte)?;
    Some((&bytes[..n], &bytes[n + 1..]))
}

/// Where the first such byte stands.
fn place_of(bytes: &[u8], byte: u8) -> Option<usize>
    ensures place { result ≡ position (λ b. b == byte) bytes.now }
    ensures inside { IfSome result (λ n. n < length bytes.now) }
{
    bytes.iter().position(|b| *b == byte)
}
