//! Lines of an answer.

ghost use Rattle.std.specs.Prelude.{◌≡◌, ◌++◌, codes, OnOk, IfOk};
ghost use Rattle.std.specs.Fmt.{decimal};
ghost use Rattle.script_screens.specs.Lines.{data_line, failed, Says};

use itoa::Buffer;
use std::alloc::AllocError;

/// How an action ends.
#[derive(Clone, Copy, Debug, PartialEq, Eq)]
pub enum Outcome {
    /// It is done: the answer's last line is `ok`.
    Done,
    /// It is at fault, as a data line says: the answer's last line is `error`.
    Failed,
}

/// Begins a data line.
pub(crate) fn begin_line(out: &mut Vec<u8>) -> Result<(), AllocError>
    ensures { OnOk result (out.new.items ≡ out.old.items ++ codes "data: ") }
{
    out.extend_from_slice(b"data: ")
}

/// Ends a line.
pub(crate) fn end_line(out: &mut Vec<u8>) -> Result<(), AllocError>
    ensures { OnOk result (out.new.items ≡ out.old.items ++ codes "\n") }
{
    out.extend_from_slice(b"\n")
}

/// Adds a data line of a text.
pub(crate) fn push_line(out: &mut Vec<u8>, text: &[u8]) -> Result<(), AllocError>
    ensures { OnOk result (out.new.items ≡ out.old.items ++ data_line text.now) }
{
    begin_line(out)?;
    out.extend_from_slice(text)?;
    end_line(out)
}

/// Adds a number in decimal digits.
pub(crate) fn push_decimal(out: &mut Vec<u8>, number: u64) -> Result<(), AllocError>
    ensures { OnOk result (out.new.items ≡ out.old.items ++ decimal number) }
{
    let mut digits = Buffer::new();
    out.extend_from_slice(digits.format(number).as_bytes())
}

/// Adds the data line of a fault, of two parts.
pub(crate) fn push_fault(
    out: &mut Vec<u8>,
    name: &[u8],
    words: &[u8],
) -> Result<Outcome, AllocError>
    ensures { IfOk result (λ outcome. Says out.old.items out.new.items outcome
        (failed (name.now ++ words.now))) }
{
    begin_line(out)?;
    out.extend_from_slice(name)?;
    out.extend_from_slice(words)?;
    end_line(out)?;
    Ok(Outcome::Failed)
}
