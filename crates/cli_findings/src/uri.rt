//! The path of a file as a relative reference of RFC 3986.

ghost use Rattle.std.specs.Prelude.{◌≡◌, ◌++◌, IfOk, OnOk};
ghost use Rattle.std.specs.List.{flat_map};
ghost use Rattle.std.specs.String.{string_bytes};
ghost use Rattle.cli_findings.specs.Uri.{is_kept, uri_byte, has_colon_first, one_slash, escaped, uri_of};

use percent_encoding::percent_encode_byte;
use std::alloc::{AllocError, Global};

/// Whether a byte of a path stands in a URI as it is.
fn is_kept(byte: u8) -> bool
    ensures { result ≡ is_kept byte }
{
    byte.is_ascii_alphanumeric() || matches!(byte, b'-' | b'.' | b'_' | b'~' | b'/')
}

fn push_byte(out: &mut String, byte: u8) -> Result<(), AllocError>
    ensures { OnOk result (string_bytes out.new ≡ string_bytes out.old ++ uri_byte byte) }
{
    if is_kept(byte) {
        out.push(char::from(byte))
    } else {
        out.push_str(percent_encode_byte(byte))
    }
}

fn push_bytes(out: &mut String, path: &[u8]) -> Result<(), AllocError>
    ensures { OnOk result (string_bytes out.new ≡ string_bytes out.old ++ escaped path.now) }
{
    for byte in path {
        push_byte(out, *byte)?;
    }
    Ok(())
}

/// Whether a colon stands before the first slash, up to which a scheme would be read.
fn has_colon_first(path: &[u8]) -> bool
    ensures { result ≡ has_colon_first path.now }
{
    for byte in path {
        match byte {
            b':' => return true,
            b'/' => return false,
            _ => {}
        }
    }
    false
}

/// The path from the last of the slashes on that begin it: an authority would be read after two.
fn one_slash(path: &[u8]) -> &[u8]
    ensures { result.now ≡ one_slash path.now }
{
    let mut rest = path;
    while let [b'/', b'/', ..] = rest {
        rest = &rest[1..];
    }
    rest
}

/// A relative reference to the path (RFC 3986, section 4.2): each byte is escaped that is neither unreserved nor `/`.
pub(crate) fn uri_of(alloc: Global, path: &str) -> Result<String, AllocError>
    ensures { IfOk result (λ text. string_bytes text ≡ uri_of path.now) }
{
    let path = path.as_bytes();
    let mut text = String::new(alloc);
    if has_colon_first(path) {
        text.push_str("./")?;
        push_bytes(&mut text, path)?;
    } else {
        push_bytes(&mut text, one_slash(path))?;
    }
    Ok(text)
}
