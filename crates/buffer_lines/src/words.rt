//! Words of a line, with a space between two.

ghost use Rattle.std.specs.Prelude.{◌≡◌, ◌++◌, ◌∷◌, [], ◌==◌, IfOk, OnOk, map};
ghost use Rattle.buffer_lines.specs.Words.{digit_value, number_from, number_told, words_of};

use std::alloc::{AllocError, Global};

/// Adds a word to those before it, and begins the next.
fn push_word(words: &mut Vec<Vec<u8>>, word: Vec<u8>) -> Result<(), AllocError>
    ensures { OnOk result (map (λ w. w.items) words.new.items
        ≡ map (λ w. w.items) words.old.items ++ word.items ∷ []) }
{
    words.push(word)?;
    Ok(())
}

/// The words of a line: what stands before the first space, between two, and after the last.
pub(crate) fn words_of(alloc: Global, line: &[u8]) -> Result<Vec<Vec<u8>>, AllocError>
    ensures { IfOk result (λ words. map (λ w. w.items) words.items ≡ words_of line.now) }
{
    let mut words = Vec::new(alloc);
    let mut word = Vec::new(alloc);
    for byte in line {
        if *byte == b' ' {
            push_word(&mut words, word)?;
            word = Vec::new(alloc);
        } else {
            word.push(*byte)?;
        }
    }
    push_word(&mut words, word)?;
    Ok(words)
}

/// The value of a decimal digit.
fn digit_value(byte: u8) -> Option<u16>
    ensures { result ≡ digit_value byte }
{
    if b'0' <= byte && byte <= b'9' {
        Some(u16::from(byte - b'0'))
    } else {
        None
    }
}

/// The number with one more digit, up to 999.
fn with_digit(number: u16, byte: u8) -> Option<u16>
    ensures { result ≡ number_from number (digit_value byte) }
{
    let digit = digit_value(byte)?;
    if number < 100 {
        Some(10 * number + digit)
    } else {
        None
    }
}

/// A number of up to 999 in decimal digits.
pub(crate) fn number_told(word: &[u8]) -> Option<u16>
    ensures { result ≡ number_told word.now }
{
    match word {
        [a] => with_digit(0, *a),
        [a, b] => with_digit(with_digit(0, *a)?, *b),
        [a, b, c] => with_digit(with_digit(with_digit(0, *a)?, *b)?, *c),
        _ => None,
    }
}
