//! Bytes as text.

ghost use Rattle.std.specs.Prelude.{◌≡◌, ◌<◌, ◌≤◌, ◌*◌, ℕ, true, false, length, slice_index, IfOk, None, Some, Ok};
ghost use Rattle.std.specs.Option.{option_map};
ghost use Rattle.hex.specs.Hex.{hex_digit_value, decode_of, decode_pairs};
ghost use Rattle.ds_codec.specs.Digits.{byte_from, bytes_from, AreValues, AreJoined, AreSpelled, HasOther};

use std::alloc::{AllocError, Global};

/// How many bytes are worked out together.
const PART: usize = 32;

/// The last ones are worked out together up to so many.
const FEW: usize = 16;

/// The value of a hexadecimal digit, of either case, and more than 15 for a byte that is none. It has no branch, so
/// that many can be worked out together.
#[inline(always)]
fn value_of(digit: u8) -> u8
    ensures some { result < 16 → hex_digit_value digit ≡ Some result }
    ensures none { 16 ≤ result → hex_digit_value digit ≡ None }
{
    // `0` to `9` become F6 to FF and then F0 to F9, every other byte something below F0.
    let number = digit
        .wrapping_add(0xC6)
        .saturating_sub(6)
        .wrapping_sub(0xF0);
    let letter = (digit | 0x20).wrapping_sub(0x61).saturating_add(10);
    number.min(letter)
}

/// The byte of two hexadecimal digits, of either case; `None` where one of them is no digit.
pub fn byte_of_digits(high: u8, low: u8) -> Option<u8>
    ensures { result ≡ byte_from (hex_digit_value high) (hex_digit_value low) }
{
    let high = value_of(high);
    let low = value_of(low);
    if high < 16 && low < 16 {
        Some(16 * high + low)
    } else {
        None
    }
}

/// Stores the value of each digit, and tells the largest. Inlined, so that at an array its number of turns is known.
#[inline(always)]
fn store_values(values: &mut [u8], digits: &[u8]) -> u8
    requires { length values.old ≡ length digits.now }
    ensures whole { length values.new ≡ length values.old }
    ensures largest { (k : ℕ) → k < length digits.now → slice_index values.new k ≤ result }
    ensures values { result < 16 → AreValues digits.now values.new (length digits.now) }
    ensures others { 16 ≤ result → HasOther digits.now }
{
    let mut worst: u8 = 0;
    'values: for i in 0..digits.len() {
        let value = value_of(digits[i]);
        values[i] = value;
        worst = worst.max(value);
    }
    worst
}

/// Stores the byte of each two values. Inlined, so that at an array its number of turns is known.
#[inline(always)]
fn store_joined(bytes: &mut [u8], values: &[u8])
    requires two { length values.now ≡ 2 * length bytes.old }
    requires small { (k : ℕ) → k < length values.now → slice_index values.now k < 16 }
    ensures whole { length bytes.new ≡ length bytes.old }
    ensures joined { AreJoined values.now bytes.new (length bytes.new) }
{
    'bytes: for i in 0..bytes.len() {
        bytes[i] = 16 * values[2 * i] + values[2 * i + 1];
    }
}

/// Stores the bytes that the digits of a whole part spell, and tells whether all of them are digits. All is worked out in
/// local arrays, of which the compiler knows that nothing else changes them.
#[inline(always)]
fn store_whole(bytes: &mut [u8], digits: &[u8]) -> bool
    requires two { length digits.now ≡ 2 * length bytes.old }
    requires whole { length bytes.old ≡ 32 }
    ensures whole { length bytes.new ≡ length bytes.old }
    ensures digits { (result ≡ true) → AreSpelled digits.now bytes.new (length bytes.new) }
    ensures others { (result ≡ false) → HasOther digits.now }
{
    let mut read = [0u8; 2 * PART];
    read.copy_from_slice(digits);
    let mut values = [0u8; 2 * PART];
    if 16 <= store_values(&mut values, &read) {
        return false;
    }
    let mut joined = [0u8; PART];
    store_joined(&mut joined, &values);
    bytes.copy_from_slice(&joined);
    true
}

/// The same of a few digits, which are padded.
#[inline(always)]
fn store_few(bytes: &mut [u8], digits: &[u8]) -> bool
    requires two { length digits.now ≡ 2 * length bytes.old }
    requires few { length bytes.old ≤ 16 }
    ensures whole { length bytes.new ≡ length bytes.old }
    ensures digits { (result ≡ true) → AreSpelled digits.now bytes.new (length bytes.new) }
    ensures others { (result ≡ false) → HasOther digits.now }
{
    let mut padded = [b'0'; 2 * FEW];
    padded[..digits.len()].copy_from_slice(digits);
    let mut values = [0u8; 2 * FEW];
    if 16 <= store_values(&mut values, &padded) {
        return false;
    }
    let mut joined = [0u8; FEW];
    store_joined(&mut joined, &values);
    bytes.copy_from_slice(&joined[..bytes.len()]);
    true
}

/// The same of digits that are no whole part.
fn store_rest(bytes: &mut [u8], digits: &[u8]) -> bool
    requires two { length digits.now ≡ 2 * length bytes.old }
    requires few { length bytes.old < 32 }
    ensures whole { length bytes.new ≡ length bytes.old }
    ensures digits { (result ≡ true) → AreSpelled digits.now bytes.new (length bytes.new) }
    ensures others { (result ≡ false) → HasOther digits.now }
{
    if bytes.len() <= FEW {
        return store_few(bytes, digits);
    }
    store_few(&mut bytes[..FEW], &digits[..2 * FEW])
        && store_few(&mut bytes[FEW..], &digits[2 * FEW..])
}

/// Stores the bytes that digits spell, part by part, and tells whether all of them are digits.
fn store_bytes(bytes: &mut [u8], digits: &[u8]) -> bool
    requires { length digits.now ≡ 2 * length bytes.old }
    ensures digits { (result ≡ true) → decode_pairs 0 digits.now ≡ Ok bytes.new }
    ensures others { (result ≡ false) → bytes_from (decode_pairs 0 digits.now) ≡ None }
    ensures whole { length bytes.new ≡ length bytes.old }
{
    let parts = bytes.len() / PART;
    'parts: for part in 0..parts {
        let at = PART * part;
        if !store_whole(
            &mut bytes[at..at + PART],
            &digits[2 * at..2 * at + 2 * PART],
        ) {
            return false;
        }
    }
    let at = PART * parts;
    store_rest(&mut bytes[at..], &digits[2 * at..])
}

/// The bytes of hexadecimal digits, of either case, two for each; `None` where the number of digits is odd or one of
/// them is no digit.
pub fn bytes_of_digits(alloc: Global, digits: &[u8]) -> Result<Option<Vec<u8>>, AllocError>
    ensures { IfOk result (λ found. option_map (λ bytes. bytes.items) found
        ≡ bytes_from (decode_of digits.now)) }
{
    if digits.len() % 2 != 0 {
        return Ok(None);
    }
    let mut bytes = vec![in alloc; 0; digits.len() / 2]?;
    if store_bytes(bytes.as_mut_slice(), digits) {
        Ok(Some(bytes))
    } else {
        Ok(None)
    }
}
