//! The digits of a line.

ghost use Rattle.std.specs.Prelude.{◌≡◌, ◌==◌, ◌<◌, ◌≤◌, ◌+◌, IfSome, count_by, length, position, true};
ghost use Rattle.hex.specs.Hex.{is_hex_digit};
ghost use Rattle.cli_reasons.specs.Digits.{BeginsWithDigits, is_other, first_no_digit, first_other, digit_count};

/// So many bytes are looked at together.
const BLOCK: usize = 256;

/// How far a byte is from the hexadecimal digits, of either case: 0 at a digit alone. It has no branch, so that many bytes are
/// looked at together.
#[inline(always)]
fn excess(byte: u8) -> u8
    ensures { (result == 0) ≡ is_hex_digit byte }
{
    let number = byte.wrapping_sub(b'0').saturating_sub(9);
    let upper = byte.wrapping_sub(b'A').saturating_sub(5);
    let lower = byte.wrapping_sub(b'a').saturating_sub(5);
    number.min(upper).min(lower)
}

/// Whether a byte is a hexadecimal digit, of either case.
pub(crate) fn is_digit(byte: u8) -> bool
    ensures { result ≡ is_hex_digit byte }
{
    excess(byte) == 0
}

/// Whether all bytes of a line are digits, of which so many at its front are known to be. It goes on after one that is none, so
/// that many bytes are looked at together.
pub(crate) fn are_digits(line: &[u8], known: usize) -> bool
    requires { BeginsWithDigits known line.now }
    ensures { result ≡ (digit_count line.now == length line.now) }
{
    let mut others: u8 = 0;
    'bytes: for i in known..line.len() {
        others = others.max(excess(line[i]));
    }
    others == 0
}

/// How far a byte is after `0`, and after the byte behind `9`, round 256. At digits and capitals alone the first is at most 22 and
/// the second at least 7.
#[inline(always)]
fn places(byte: u8) -> (u8, u8)
    ensures { result.0 ≤ 22 → 7 ≤ result.1 → is_hex_digit byte ≡ true }
{
    let place = byte.wrapping_sub(b'0');
    (place, place.wrapping_sub(10))
}

/// Whether a block after so many digits is known to be digits too: two bounds tell it, where none is a small letter.
#[inline(always)]
fn goes_on(bytes: &[u8], known: usize) -> bool
    requires room { known + 256 ≤ length bytes.now }
    requires digits { BeginsWithDigits known bytes.now }
    ensures { result ≡ true → BeginsWithDigits (known + 256) bytes.now }
{
    let mut most: u8 = 0;
    let mut least: u8 = 255;
    'bytes: for i in 0..BLOCK {
        let (place, letter) = places(bytes[known + i]);
        most = most.max(place);
        least = least.min(letter);
    }
    most <= 22 && 7 <= least
}

/// How many bytes at the front are known to be digits: whole blocks, so that an end of a line is looked for after them.
pub(crate) fn leading_digits(bytes: &[u8]) -> usize
    ensures { BeginsWithDigits result bytes.now }
{
    let mut known = 0;
    'known: while BLOCK <= bytes.len() - known {
        if !goes_on(bytes, known) {
            return known;
        }
        known += BLOCK;
    }
    known
}

/// Whether a byte may not stand in a line of digits: it is neither a digit nor a space.
fn is_other(byte: u8) -> bool
    ensures { result ≡ is_other byte }
{
    byte != b' ' && !is_digit(byte)
}

/// Where the first byte stands that is neither a digit nor a space.
pub(crate) fn first_other(line: &[u8]) -> Option<usize>
    ensures first { result ≡ first_other line.now }
    ensures inside { IfSome result (λ place. place < length line.now) }
{
    line.iter().position(|byte| is_other(*byte))
}

/// Where the first byte stands that is no digit.
pub(crate) fn first_no_digit(digits: &[u8]) -> Option<usize>
    ensures first { result ≡ first_no_digit digits.now }
    ensures inside { IfSome result (λ place. place < length digits.now) }
{
    digits.iter().position(|byte| !is_digit(*byte))
}

/// How many digits a line has.
pub(crate) fn digit_count(line: &[u8]) -> usize
    ensures count { result ≡ digit_count line.now }
    ensures inside { result ≤ length line.now }
{
    line.iter().filter(|byte| is_digit(**byte)).count()
}
