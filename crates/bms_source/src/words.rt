//! Words: symbols, and names in either case.

ghost use Rattle.std.specs.Prelude.{◌≡◌, IfOk, length};
ghost use Rattle.std.specs.List.{list_all};
ghost use Rattle.bms_source.specs.Words.{upper, is_digit, begins_symbol, is_of_symbol, is_symbol, is_named, upper_word};

use crate::letter::Letter;
use std::alloc::{AllocError, Global};

/// A letter in upper case.
pub fn upper(code: u8) -> u8
    ensures { result ≡ upper code }
{
    match code {
        b'a'..=b'z' => code - 32,
        _ => code,
    }
}

/// Whether a character is a decimal digit.
pub fn is_digit(code: u8) -> bool
    ensures { result ≡ is_digit code }
{
    matches!(code, b'0'..=b'9')
}

/// Whether a symbol may begin with a character: a letter, `@`, `#`, `$` or `_`.
#[tactic(auto, unfolding(crate::specs::Words::begins_symbol))]
fn begins_symbol(code: u8) -> bool
    ensures { result ≡ begins_symbol code }
{
    matches!(code, b'A'..=b'Z' | b'a'..=b'z' | b'@' | b'#' | b'$' | b'_')
}

fn is_of_symbol(code: u8) -> bool
    ensures { result ≡ is_of_symbol code }
{
    begins_symbol(code) || is_digit(code)
}

fn are_of_symbol(word: &[Letter]) -> bool
    ensures { result ≡ list_all (λ letter. is_of_symbol letter.code) word.now }
{
    word.iter().all(|letter| is_of_symbol(letter.code))
}

/// Whether letters are a symbol: letters, digits, `@`, `#`, `$` and `_`, of which the first is no digit.
pub fn is_symbol(word: &[Letter]) -> bool
    ensures { result ≡ is_symbol word.now }
{
    match word {
        [] => false,
        [first, ..] => begins_symbol(first.code) && are_of_symbol(word),
    }
}

/// Whether letters are a name, in either case. The name is in upper case.
pub fn is_named(word: &[Letter], name: &[u8]) -> bool
    ensures { result ≡ is_named word.now name.now }
{
    match word {
        [] => name.is_empty(),
        [letter, letters @ ..] => match name {
            [] => false,
            [code, codes @ ..] => upper(letter.code) == *code && is_named(letters, codes),
        },
    }
}

/// A word in upper case.
pub fn upper_word(alloc: Global, word: &[Letter]) -> Result<Vec<u8>, AllocError>
    ensures { IfOk result (λ upper. upper.items ≡ upper_word word.now) }
{
    word.iter().map(|letter| upper(letter.code)).collect(alloc)
}
