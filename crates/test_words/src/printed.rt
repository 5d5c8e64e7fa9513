//! Words printed: each function adds to the text of an answer, and its only error is out of memory.

ghost use Rattle.std.specs.Prelude.{◌≡◌, ◌++◌, OnOk, string_bytes};
ghost use Rattle.std.specs.Fmt.{decimal};
ghost use Rattle.test_words.specs.Printed.{hex_word, bool_word, GoesOn};

use std::alloc::AllocError;

/// How many equal bytes are printed as one with their number.
const FOLDED: u32 = 32;

/// A byte as two hexadecimal digits.
pub fn push_hex(out: &mut String, byte: u8) -> Result<(), AllocError>
    ensures { OnOk result (string_bytes out.new ≡ string_bytes out.old ++ hex_word byte) }
{
    write!(out, "{byte:02X}")
}

/// A decimal number.
pub fn push_number(out: &mut String, number: u32) -> Result<(), AllocError>
    ensures { OnOk result (string_bytes out.new ≡ string_bytes out.old ++ decimal number) }
{
    write!(out, "{number}")
}

/// A length in decimal.
pub fn push_length(out: &mut String, length: usize) -> Result<(), AllocError>
    ensures { OnOk result (string_bytes out.new ≡ string_bytes out.old ++ decimal length) }
{
    write!(out, "{length}")
}

/// `true` or `false`.
pub fn push_bool(out: &mut String, value: bool) -> Result<(), AllocError>
    ensures { OnOk result (string_bytes out.new ≡ string_bytes out.old ++ bool_word value) }
{
    out.push_str(if value { "true" } else { "false" })
}

/// Words, and a byte as two hexadecimal digits.
pub fn push_word_hex(out: &mut String, words: &str, byte: u8) -> Result<(), AllocError>
    ensures { OnOk result (string_bytes out.new
        ≡ string_bytes out.old ++ (words.now ++ hex_word byte)) }
{
    out.push_str(words)?;
    push_hex(out, byte)
}

/// Words, and a decimal number.
pub fn push_word_number(out: &mut String, words: &str, number: u32) -> Result<(), AllocError>
    ensures { OnOk result (string_bytes out.new
        ≡ string_bytes out.old ++ (words.now ++ decimal number)) }
{
    out.push_str(words)?;
    push_number(out, number)
}

/// A byte and how often it stands, as `[C1*32]`.
fn push_folded(out: &mut String, byte: u8, count: u32) -> Result<(), AllocError>
    ensures { OnOk result (GoesOn (string_bytes out.old) (string_bytes out.new)) }
{
    push_word_hex(out, "[", byte)?;
    push_word_number(out, "*", count)?;
    out.push(']')
}

/// A byte that stands so often one after the other.
fn push_run(out: &mut String, byte: u8, count: u32) -> Result<(), AllocError>
    ensures { OnOk result (GoesOn (string_bytes out.old) (string_bytes out.new)) }
{
    if count >= FOLDED {
        return push_folded(out, byte, count);
    }
    for _ in 0..count {
        push_hex(out, byte)?;
    }
    Ok(())
}

/// Bytes in hexadecimal; of 32 or more equal ones their number, as `[C1*32]`.
pub fn push_bytes(out: &mut String, bytes: &[u8]) -> Result<(), AllocError>
    ensures { OnOk result (GoesOn (string_bytes out.old) (string_bytes out.new)) }
{
    let mut last = 0u8;
    let mut count = 0u32;
    for byte in bytes {
        if *byte != last {
            push_run(out, last, count)?;
            count = 0;
        }
        last = *byte;
        count = count.saturating_add(1);
    }
    push_run(out, last, count)
}

/// A letter that stands so often one after the other.
fn push_letter(out: &mut String, letter: char, count: u32) -> Result<(), AllocError>
    ensures { OnOk result (GoesOn (string_bytes out.old) (string_bytes out.new)) }
{
    if count >= FOLDED {
        out.push('[')?;
        out.push(letter)?;
        push_word_number(out, "*", count)?;
        return out.push(']');
    }
    for _ in 0..count {
        out.push(letter)?;
    }
    Ok(())
}

/// A text; of 32 or more equal letters their number, as `[A*32]`.
pub fn push_letters(out: &mut String, text: &str) -> Result<(), AllocError>
    ensures { OnOk result (GoesOn (string_bytes out.old) (string_bytes out.new)) }
{
    let mut last = ' ';
    let mut count = 0u32;
    for letter in text.chars() {
        if letter != last {
            push_letter(out, last, count)?;
            count = 0;
        }
        last = letter;
        count = count.saturating_add(1);
    }
    push_letter(out, last, count)
}
