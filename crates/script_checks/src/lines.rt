//! Lines of an answer and of a report.

ghost use Rattle.std.specs.Prelude.{◌≡◌, ◌++◌, codes, OnOk};
ghost use Rattle.std.specs.Fmt.{decimal};
ghost use Rattle.script_checks.specs.Lines.{clean, clean_byte, line_after};

use itoa::Buffer;
use std::alloc::AllocError;

/// What a data line begins with.
pub(crate) const DATA: &[u8] = b"data: ";

/// What a line of a report begins with: nothing.
pub(crate) const PLAIN: &[u8] = b"";

/// Begins a data line.
pub(crate) fn begin_data(out: &mut Vec<u8>) -> Result<(), AllocError>
    ensures { OnOk result (out.new.items ≡ out.old.items ++ codes "data: ") }
{
    out.extend_from_slice(DATA)
}

/// Ends a line.
pub(crate) fn end_line(out: &mut Vec<u8>) -> Result<(), AllocError>
    ensures { OnOk result (out.new.items ≡ out.old.items ++ codes "\n") }
{
    out.extend_from_slice(b"\n")
}

/// Adds a line of a text, after this front.
pub(crate) fn push_line(out: &mut Vec<u8>, front: &[u8], text: &[u8]) -> Result<(), AllocError>
    ensures { OnOk result (out.new.items ≡ out.old.items ++ line_after front.now text.now) }
{
    out.extend_from_slice(front)?;
    out.extend_from_slice(text)?;
    out.extend_from_slice(b"\n")
}

/// Adds a number in decimal digits.
pub(crate) fn push_decimal(out: &mut Vec<u8>, number: u64) -> Result<(), AllocError>
    ensures { OnOk result (out.new.items ≡ out.old.items ++ decimal number) }
{
    let mut digits = Buffer::new();
    out.extend_from_slice(digits.format(number).as_bytes())
}

fn clean_byte(byte: u8) -> u8
    ensures { result ≡ clean_byte byte }
{
    if byte < 0x20 { b'?' } else { byte }
}

/// Adds a name, with `?` for each control, so that no name ends a line.
pub(crate) fn push_clean(out: &mut Vec<u8>, name: &[u8]) -> Result<(), AllocError>
    ensures { OnOk result (out.new.items ≡ out.old.items ++ clean name.now) }
{
    for byte in name {
        out.push(clean_byte(*byte))?;
    }
    Ok(())
}
