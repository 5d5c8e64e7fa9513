//! The lines of a text, one after the other.

ghost use Rattle.std.specs.Prelude.{◌≡◌, ◌<◌, ◌+◌, length, MatchOption};
ghost use Rattle.std.specs.List.{after_first, before_first, position_or_len};
ghost use Rattle.bstr.specs.Text.{no_cr};
ghost use Rattle.cli_characters.specs.Lines.{is_feed};

use memchr::memchr;

/// The first line of bytes without its LF, and what follows it, where an LF is in them.
pub(crate) fn split_line(bytes: &[u8]) -> Option<(&[u8], &[u8])>
    ensures { MatchOption result (position_or_len is_feed bytes.now ≡ length bytes.now)
        (λ parts. (parts.0.now ≡ before_first is_feed bytes.now)
        × (parts.1.now ≡ after_first is_feed bytes.now)
        × (position_or_len is_feed bytes.now < length bytes.now)) }
{
    let end = memchr(b'\n', bytes)?;
    Some((&bytes[..end], &bytes[end + 1..]))
}

/// The same of a text.
pub(crate) fn split_text(text: &str) -> Option<(&str, &str)>
    ensures { MatchOption result (position_or_len is_feed text.now ≡ length text.now)
        (λ parts. (parts.0.now ≡ before_first is_feed text.now)
        × (parts.1.now ≡ after_first is_feed text.now)
        × (position_or_len is_feed text.now < length text.now)) }
{
    text.split_once('\n')
}

/// A line without a carriage return at its end.
pub(crate) fn without_return(line: &[u8]) -> &[u8]
    ensures value { result.now ≡ no_cr line.now }
{
    match line {
        [front @ .., b'\r'] => front,
        _ => line,
    }
}
