//! The lines that are told of a session.

ghost use Rattle.std.specs.Prelude.{◌≡◌, ◌++◌, codes, OnOk};
ghost use Rattle.cli_taps.specs.Text.{answer_line, answer_lines, host_line, host_lines, is_comment, tells_fault};

use bstr::ByteSlice;
use std::alloc::AllocError;

fn tells_fault(line: &[u8]) -> bool
    ensures { result ≡ tells_fault line.now }
{
    line.starts_with(b"line ".as_slice())
}

fn is_comment(line: &[u8]) -> bool
    ensures { result ≡ is_comment line.now }
{
    line.starts_with(b"#".as_slice())
}

/// Adds a line after these words.
fn push_after(out: &mut Vec<u8>, words: &[u8], line: &[u8]) -> Result<(), AllocError>
    ensures { OnOk result
        (out.new.items ≡ out.old.items ++ (words.now ++ (line.now ++ codes "\n"))) }
{
    out.extend_from_slice(words)?;
    out.extend_from_slice(line)?;
    out.push(b'\n')?;
    Ok(())
}

fn push_host_line(out: &mut Vec<u8>, line: &[u8]) -> Result<(), AllocError>
    ensures { OnOk result (out.new.items ≡ out.old.items ++ host_line line.now) }
{
    if tells_fault(line) {
        push_after(out, b"# ", line)
    } else {
        push_after(out, b"", line)
    }
}

fn push_answer_line(out: &mut Vec<u8>, line: &[u8]) -> Result<(), AllocError>
    ensures { OnOk result (out.new.items ≡ out.old.items ++ answer_line line.now) }
{
    if is_comment(line) {
        Ok(())
    } else if tells_fault(line) {
        push_after(out, b"# ", line)
    } else {
        push_after(out, b"# answer ", line)
    }
}

/// What is told of the host's side, by its records.
pub(crate) fn push_host_lines(out: &mut Vec<u8>, text: &[u8]) -> Result<(), AllocError>
    ensures { OnOk result (out.new.items ≡ out.old.items ++ host_lines text.now) }
{
    for line in text.lines() {
        push_host_line(out, line)?;
    }
    Ok(())
}

/// What is told of the terminal's side, by its records.
pub(crate) fn push_answer_lines(out: &mut Vec<u8>, text: &[u8]) -> Result<(), AllocError>
    ensures { OnOk result (out.new.items ≡ out.old.items ++ answer_lines text.now) }
{
    for line in text.lines() {
        push_answer_line(out, line)?;
    }
    Ok(())
}
