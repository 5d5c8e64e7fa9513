//! Comments, and the first line of a text.

ghost use Rattle.std.specs.Prelude.{◌≡◌, ◌++◌, OnOk, map, string_bytes};
ghost use Rattle.cli_commands.specs.Lines.{lines_in};
ghost use Rattle.tap_screens.specs.Text.{first_line, line_after, line_end, lines_after, other_lines};

use bstr::ByteSlice;
use std::alloc::AllocError;

/// Adds a line of a text, after what it begins with.
pub(crate) fn push_line(out: &mut Vec<u8>, front: &[u8], text: &[u8]) -> Result<(), AllocError>
    ensures { OnOk result (out.new.items ≡ out.old.items ++ line_after front.now text.now) }
{
    out.extend_from_slice(front)?;
    out.extend_from_slice(text)?;
    out.extend_from_slice(b"\n")
}

/// Adds each line of a text, after what it begins with.
pub(crate) fn push_lines(out: &mut Vec<u8>, front: &[u8], text: &[u8]) -> Result<(), AllocError>
    ensures { OnOk result (out.new.items
        ≡ out.old.items ++ lines_after front.now (lines_in text.now)) }
{
    for line in text.lines() {
        push_line(out, front, line)?;
    }
    Ok(())
}

/// Adds lines, each after what it begins with.
pub(crate) fn push_texts(
    out: &mut Vec<u8>,
    front: &[u8],
    lines: &[String],
) -> Result<(), AllocError>
    ensures { OnOk result (out.new.items
        ≡ out.old.items ++ lines_after front.now (map string_bytes lines.now)) }
{
    for line in lines {
        push_line(out, front, line.as_bytes())?;
    }
    Ok(())
}

fn line_end(text: &[u8]) -> Option<usize>
    ensures { result ≡ line_end text.now }
{
    text.iter().position(|byte| *byte == b'\n')
}

/// The first line of a text, without its end.
pub(crate) fn first_line(text: &[u8]) -> &[u8]
    ensures { result.now ≡ first_line text.now }
{
    match line_end(text) {
        None => text,
        Some(end) => &text[..end],
    }
}

/// What comes after the first line of a text.
pub(crate) fn other_lines(text: &[u8]) -> &[u8]
    ensures { result.now ≡ other_lines text.now }
{
    match line_end(text) {
        None => &[],
        Some(end) => &text[end + 1..],
    }
}
