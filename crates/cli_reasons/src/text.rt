//! Lines that are text, or not.

ghost use Rattle.std.specs.Prelude.{◌≡◌, ◌<◌, ◌≤◌, length, MatchResult, true, false};
ghost use Rattle.std.specs.Str.{is_utf8};
ghost use Rattle.cli_reasons.specs.Text.{characters, is_utf16, no_text, no_text_flaw};

use crate::flaw::{Flaw, Why};

/// How many characters begin in bytes of UTF-8.
fn characters(bytes: &[u8]) -> usize
    ensures count { result ≡ characters bytes.now }
    ensures inside { result ≤ length bytes.now }
{
    bytes.iter().filter(|byte| **byte / 64 != 2).count()
}

/// Whether a text begins with the mark of UTF-16, in either order.
fn is_utf16(line: &[u8]) -> bool
    ensures { result ≡ is_utf16 line.now }
{
    line.starts_with(b"\xFF\xFE".as_slice()) || line.starts_with(b"\xFE\xFF".as_slice())
}

/// What is wrong with a line that is UTF-8 up to this place.
fn no_text_flaw(line: &[u8], valid: usize) -> Flaw
    requires { valid < length line.now }
    ensures { result ≡ no_text_flaw line.now valid }
{
    if is_utf16(line) {
        return Flaw::at(1, Why::Utf16);
    }
    Flaw::at(characters(&line[..valid]) + 1, Why::NotUtf8(line[valid]))
}

/// The text that a line is, or what is wrong with it where it is none.
pub(crate) fn checked(line: &[u8]) -> Result<&str, Flaw>
    ensures { MatchResult result (λ text. (text.now ≡ line.now) × (is_utf8 line.now ≡ true))
        (λ flaw. (flaw ≡ no_text line.now) × (is_utf8 line.now ≡ false)) }
{
    match str::from_utf8(line) {
        Ok(text) => Ok(text),
        Err(error) => Err(no_text_flaw(line, error.valid_up_to())),
    }
}
