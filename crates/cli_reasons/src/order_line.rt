//! Why a line of orders is refused.

ghost use Rattle.std.specs.Prelude.{◌≡◌, ◌≤◌, length};
ghost use Rattle.std.specs.Option.{option_map};
ghost use Rattle.cli_reasons.specs.OrderLine.{command_form, cell_form, digit_why, address_form, form_of, first_word, text_digits_flaw, operand_flaw, word_flaw, order_text_flaw, order_flaw};

use crate::digits::first_no_digit;
use crate::flaw::{Flaw, Why};
use crate::record_line::{SizesBy, size_why};
use crate::text::checked;

/// A command, as its line is written.
fn command_form(word: &str) -> Option<&'static str>
    ensures { option_map (λ form. form.now) result ≡ command_form word.now }
{
    match word {
        "W" => Some("'W C2'"),
        "EW" => Some("'EW C2'"),
        "EWA" => Some("'EWA C2'"),
        "EAU" => Some("'EAU'"),
        "RB" => Some("'RB'"),
        "RM" => Some("'RM'"),
        "RMA" => Some("'RMA'"),
        "NOP" => Some("'NOP'"),
        _ => None,
    }
}

/// An order that begins or sets a field, or writes characters.
fn cell_form(word: &str) -> Option<&'static str>
    ensures { option_map (λ form. form.now) result ≡ cell_form word.now }
{
    match word {
        "SF" => Some("'SF 20'"),
        "SFE" => Some("'SFE C0=20 42=F2'"),
        "MF" => Some("'MF C0=20'"),
        "SA" => Some("'SA 42=F2'"),
        "GE" => Some("'GE 41'"),
        "TEXT" => Some("'TEXT C1C2'"),
        _ => None,
    }
}

/// An order that goes on from an address, or to one.
fn address_form(word: &str) -> Option<&'static str>
    ensures { option_map (λ form. form.now) result ≡ address_form word.now }
{
    match word {
        "SBA" => Some("'SBA 80'"),
        "RA" => Some("'RA 80 40'"),
        "EUA" => Some("'EUA 80'"),
        "IC" => Some("'IC'"),
        "PT" => Some("'PT'"),
        _ => None,
    }
}

/// How a line of this command or order is written.
pub(crate) fn form_of(word: &str) -> Option<&'static str>
    ensures { option_map (λ form. form.now) result ≡ form_of word.now }
{
    if let Some(form) = command_form(word) {
        return Some(form);
    }
    if let Some(form) = cell_form(word) {
        return Some(form);
    }
    address_form(word)
}

/// The first word of a line, up to a space.
pub(crate) fn first_word(line: &str) -> &str
    ensures word { result.now ≡ first_word line.now }
    ensures inside { length result.now ≤ length line.now }
{
    match line.split_once(' ') {
        Some((word, _)) => word,
        None => line,
    }
}

/// Why a byte is no digit of a text: a quote begins characters.
fn digit_why(byte: u8) -> Why
    ensures { result ≡ digit_why byte }
{
    if byte == b'\'' {
        Why::NeedsCharacters
    } else {
        Why::NotDigit(byte)
    }
}

/// What is wrong with the digits of a text, which stand after five characters.
fn digits_flaw(digits: &[u8]) -> Flaw
    ensures { result ≡ text_digits_flaw digits.now }
{
    match first_no_digit(digits) {
        Some(place) => Flaw::at(place + 6, digit_why(digits[place])),
        None if digits.len() % 2 == 1 => Flaw::at(digits.len() + 6, Why::OddDigits(digits.len())),
        None => Flaw::at(6, Why::OtherForm),
    }
}

/// What is wrong with what stands after a word of so many bytes.
fn operand_flaw(line: &[u8], word: usize) -> Flaw
    requires { word ≤ length line.now }
    ensures { result ≡ operand_flaw line.now word }
{
    if line.starts_with(b"TEXT ".as_slice()) {
        digits_flaw(&line[5..])
    } else {
        Flaw::at((word + 2).min(line.len() + 1), Why::OtherForm)
    }
}

/// What is wrong with a line by its first word, if it isn't known or something else stands after it.
fn word_flaw(line: &str, word: &str) -> Flaw
    requires { length word.now ≤ length line.now }
    ensures { result ≡ word_flaw line.now word.now }
{
    match form_of(word) {
        Some(_) => operand_flaw(line.as_bytes(), word.len()),
        None => Flaw::at(1, Why::NoOrder),
    }
}

/// What is wrong with a line of text.
fn text_flaw(sizes: SizesBy, line: &str) -> Flaw
    ensures { result ≡ order_text_flaw sizes line.now }
{
    if line.as_bytes().starts_with(b"size".as_slice()) {
        Flaw::at(1, size_why(sizes))
    } else {
        word_flaw(line, first_word(line))
    }
}

/// What is wrong with a line that says no command and no order, of an input of `convert --back`.
pub fn order_flaw(sizes: SizesBy, line: &[u8]) -> Flaw
    ensures { result ≡ order_flaw sizes line.now }
{
    match checked(line) {
        Ok(text) => text_flaw(sizes, text),
        Err(flaw) => flaw,
    }
}
