//! The argument of Key.

ghost use Rattle.std.specs.Prelude.{◌≡◌, ◌≤◌, ◌++◌, true, codes, IfOk};
ghost use Rattle.script_screens.specs.Lines.{failed, Says};
ghost use Rattle.script_screens.specs.Key.{goes_on, of_two, one_character, is_prefix, above_zero, numbered, coded, typed_character, typed_number, typed_name, key_of, unknown_words};

use crate::code_page::{CodePage, code_of_value};
use crate::hexadecimal::read_hex;
use crate::key_name::character_named;
use crate::lines::{Outcome, push_fault};
use std::alloc::AllocError;

/// What Key types.
#[derive(Clone, Copy, Debug, PartialEq, Eq)]
pub enum Typed {
    /// A character, as its code in the host's page.
    Code(u8),
    /// Nothing: a character that has no code.
    NoCode,
    /// There is no such character: a fault.
    Unknown,
}

fn goes_on(byte: u8) -> bool
    ensures { result ≡ goes_on byte }
{
    0x80 <= byte && byte <= 0xBF
}

/// The number of a character of two bytes, if it is of Latin-1.
fn of_two(first: u8, second: u8) -> Option<u32>
    requires first { 0xC2 ≤ first }
    requires second { goes_on second ≡ true }
    ensures { result ≡ of_two first second }
{
    if first <= 0xC3 {
        Some(u32::from(first - 0xC0) * 64 + u32::from(second - 0x80))
    } else {
        None
    }
}

/// The number of a text that is one character, where it is of ASCII or Latin-1.
fn one_character(text: &[u8]) -> Option<Option<u32>>
    ensures { result ≡ one_character text.now }
{
    match text {
        [a] if *a < 0x80 => Some(Some(u32::from(*a))),
        [a, b] if (0xC2 <= *a && *a <= 0xDF) && goes_on(*b) => Some(of_two(*a, *b)),
        [a, b, c] if (0xE0 <= *a && *a <= 0xEF) && (goes_on(*b) && goes_on(*c)) => Some(None),
        [a, b, c, d]
            if (0xF0 <= *a && *a <= 0xF4) && (goes_on(*b) && (goes_on(*c) && goes_on(*d))) => {
            Some(None)
        }
        _ => None,
    }
}

fn is_prefix(a: u8, b: u8) -> bool
    ensures { result ≡ is_prefix a b }
{
    (a == 0x30 && (b == 0x78 || b == 0x58)) || ((a == 0x55 || a == 0x75) && b == 0x2B)
}

fn above_zero(value: u32) -> Option<u32>
    ensures { result ≡ above_zero value }
{
    if value == 0 { None } else { Some(value) }
}

/// The value of `0x` or `U+` and digits.
fn numbered(text: &[u8]) -> Option<u32>
    ensures { result ≡ numbered text.now }
{
    match text {
        [a, b, digits @ ..] if is_prefix(*a, *b) => {
            let (value, _rest) = read_hex(digits.len(), digits);
            above_zero(value)
        }
        _ => None,
    }
}

fn coded(code: Option<u8>) -> Typed
    ensures { result ≡ coded code }
{
    match code {
        Some(code) => Typed::Code(code),
        None => Typed::NoCode,
    }
}

fn typed_character(code_page: CodePage, character: Option<u32>) -> Typed
    ensures { result ≡ typed_character code_page character }
{
    match character {
        Some(character) => coded(code_of_value(code_page, character)),
        None => Typed::NoCode,
    }
}

fn typed_number(code_page: CodePage, character: Option<u32>) -> Typed
    ensures { result ≡ typed_number code_page character }
{
    match character {
        Some(character) => coded(code_of_value(code_page, character)),
        None => Typed::Unknown,
    }
}

/// What Key types by its argument: one character, in UTF-8; a name, as `space` and `exclam`; or its number, as `0x41` and `U+41`.
pub fn key_of(code_page: CodePage, argument: &[u8]) -> Typed
    ensures { result ≡ key_of code_page argument.now }
{
    if let Some(character) = one_character(argument) {
        return typed_character(code_page, character);
    }
    match character_named(argument) {
        Some(character) => coded(code_of_value(code_page, u32::from(character))),
        None => typed_number(code_page, numbered(argument)),
    }
}

/// Adds the data line of an argument that Key doesn't know.
pub fn push_key_fault(out: &mut Vec<u8>, argument: &[u8]) -> Result<Outcome, AllocError>
    ensures { IfOk result (λ outcome. Says out.old.items out.new.items outcome
        (failed (unknown_words argument.now))) }
{
    if argument.is_empty() {
        return push_fault(out, b"Key(): ", b"Nonexistent or invalid name:");
    }
    push_fault(out, b"Key(): Nonexistent or invalid name: ", argument)
}
