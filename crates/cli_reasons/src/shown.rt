//! Texts of an input, as people read them on one line.

ghost use Rattle.std.specs.Prelude.{◌≡◌, ◌++◌, ◌<◌, ◌≤◌, length, map, OnOk};
ghost use Rattle.std.specs.String.{string_bytes};
ghost use Rattle.cli_reasons.specs.Shown.{shown, front_of, rest_mark, quoted};

use std::alloc::AllocError;

/// So many bytes of a text are shown.
const MOST_SHOWN: usize = 40;

/// A byte that ASCII prints, and `?` in place of another.
fn shown(byte: u8) -> u8
    ensures value { result ≡ shown byte }
    ensures ascii { result < 128 }
{
    if byte == b' ' || byte.is_ascii_graphic() {
        byte
    } else {
        b'?'
    }
}

fn push_shown(out: &mut String, bytes: &[u8]) -> Result<(), AllocError>
    ensures { OnOk result (string_bytes out.new ≡ string_bytes out.old ++ map shown bytes.now) }
{
    let mut rest = bytes;
    while let [byte, others @ ..] = rest {
        out.push(char::from(shown(*byte)))?;
        rest = others;
    }
    Ok(())
}

/// So many bytes of a text, or all where there are fewer.
pub(crate) fn front(bytes: &[u8], most: usize) -> &[u8]
    ensures front { result.now ≡ front_of most bytes.now }
    ensures few { length result.now ≤ most }
{
    if most < bytes.len() {
        &bytes[..most]
    } else {
        bytes
    }
}

/// The mark of a text that isn't shown whole.
fn rest_mark(bytes: &[u8]) -> &'static str
    ensures { result.now ≡ rest_mark bytes.now }
{
    if MOST_SHOWN < bytes.len() { ".." } else { "" }
}

/// Pushes a text between quotes, up to 40 bytes of it.
pub(crate) fn push_quoted(out: &mut String, bytes: &[u8]) -> Result<(), AllocError>
    ensures { OnOk result (string_bytes out.new ≡ string_bytes out.old ++ quoted bytes.now) }
{
    out.push_str("'")?;
    push_shown(out, front(bytes, MOST_SHOWN))?;
    out.push_str(rest_mark(bytes))?;
    out.push_str("'")
}
