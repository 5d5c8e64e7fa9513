//! Hexadecimal digits.

ghost use Rattle.std.specs.Prelude.{◌≡◌, ◌≤◌, ◌+◌, ◌*◌, length};
ghost use Rattle.std.specs.List.{prefix_len};
ghost use Rattle.script_screens.specs.Pieces.{is_hex, hex_digit, within_unicode, hex_value, hex_count, hex_at};

use crate::number::is_digit;

pub(crate) fn is_hex(byte: u8) -> bool
    ensures { result ≡ is_hex byte }
{
    is_digit(byte) || ((0x41 <= byte && byte <= 0x46) || (0x61 <= byte && byte <= 0x66))
}

/// The value of a digit.
fn hex_digit(byte: u8) -> u8
    ensures { result ≡ hex_digit byte }
{
    if byte <= 0x39 {
        byte.saturating_sub(0x30)
    } else if byte <= 0x46 {
        byte.saturating_sub(0x37)
    } else {
        byte.saturating_sub(0x57)
    }
}

/// A value and one more digit.
fn with_digit(value: u32, byte: u8) -> u32
    ensures { result ≡ within_unicode (value * 16 + hex_digit byte) }
{
    let more = u64::from(value) * 16 + u64::from(hex_digit(byte));
    if more <= 0x10_FFFF {
        more as u32
    } else {
        0x10_FFFF
    }
}

fn value_of(digits: &[u8]) -> u32
    ensures { result ≡ hex_value 0 digits.now }
{
    let mut value: u32 = 0;
    for byte in digits {
        value = with_digit(value, *byte);
    }
    value
}

/// How many digits stand at the front.
fn digits(bytes: &[u8]) -> usize
    ensures length { result ≡ prefix_len is_hex bytes.now }
    ensures inside { result ≤ length bytes.now }
{
    for (i, byte) in bytes.iter().enumerate() {
        if !is_hex(*byte) {
            return i;
        }
    }
    bytes.len()
}

/// How many digits stand at the front, so many at most.
fn digits_within(most: usize, bytes: &[u8]) -> usize
    ensures length { result ≡ hex_count most bytes.now }
    ensures inside { result ≤ length bytes.now }
{
    let count = digits(bytes);
    if count <= most { count } else { most }
}

/// The value of the digits at the front, of so many at most, and what comes after them.
pub(crate) fn read_hex(most: usize, bytes: &[u8]) -> (u32, &[u8])
    ensures value { (result.0, result.1.now) ≡ hex_at most bytes.now }
    ensures shorter { length result.1.now ≤ length bytes.now }
{
    let (front, rest) = bytes.split_at(digits_within(most, bytes));
    (value_of(front), rest)
}
