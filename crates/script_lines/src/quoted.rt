//! Texts between quotes.

ghost use Rattle.std.specs.Prelude.{◌≡◌, ◌+◌, ◌≤◌, length, option_map, IfOk, IfSome};
ghost use Rattle.script_lines.specs.Quoted.{after_backslash, begins_quote, taken, unquoted};
ghost use Rattle.script_lines.specs.TakenSeen.{taken_seen, IsShorter};

use std::alloc::{AllocError, Global};

/// What stands at the front of a text.
#[derive(Clone, Copy, Debug)]
pub(crate) enum Taken<'a> {
    Nothing,
    /// The closing quote.
    Ends(&'a [u8]),
    /// A backslash, and the closing quote.
    Closes(&'a [u8]),
    /// A byte of the text.
    One(u8, &'a [u8]),
}

fn begins_quote(bytes: &[u8]) -> bool
    ensures { result ≡ begins_quote bytes.now }
{
    match bytes {
        [] => false,
        [byte, ..] => *byte == 0x22,
    }
}

fn after_backslash(bytes: &[u8]) -> Taken<'_>
    ensures taken { taken_seen result ≡ after_backslash bytes.now }
    ensures shorter { IsShorter (length bytes.now + 1) result }
{
    match bytes {
        [] => Taken::One(0x5C, bytes),
        [0x22, rest @ ..] => Taken::One(0x22, rest),
        [0x5C, rest @ ..] if begins_quote(rest) => Taken::Closes(&rest[1..]),
        _ => Taken::One(0x5C, bytes),
    }
}

/// What is at the front of a text.
fn take(bytes: &[u8]) -> Taken<'_>
    ensures taken { taken_seen result ≡ taken bytes.now }
    ensures shorter { IsShorter (length bytes.now) result }
{
    match bytes {
        [] => Taken::Nothing,
        [0x22, rest @ ..] => Taken::Ends(rest),
        [0x5C, rest @ ..] => after_backslash(rest),
        [byte, rest @ ..] => Taken::One(*byte, rest),
    }
}

/// The text after an opening quote, and what comes after the closing one, where there is one.
pub(crate) fn unquoted<'a>(
    alloc: Global,
    bytes: &'a [u8],
) -> Result<Option<(Vec<u8>, &'a [u8])>, AllocError>
    ensures text { IfOk result (λ found. option_map (λ parts. (parts.0.items, parts.1.now)) found
        ≡ unquoted bytes.now) }
    ensures shorter { IfOk result (λ found. IfSome found
        (λ parts. length parts.1.now ≤ length bytes.now)) }
{
    let mut text = Vec::new(alloc);
    let mut rest = bytes;
    'bytes: loop {
        match take(rest) {
            Taken::Nothing => return Ok(None),
            Taken::Ends(after) => return Ok(Some((text, after))),
            Taken::Closes(after) => {
                text.push(0x5C)?;
                return Ok(Some((text, after)));
            }
            Taken::One(byte, after) => {
                text.push(byte)?;
                rest = after;
            }
        }
    }
}
