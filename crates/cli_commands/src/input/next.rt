//! The next line of a reader.

ghost use Rattle.std.specs.Prelude.{◌≡◌, ◌≢◌, ◌↔◌, ◌++◌, ◌<◌, ◌≤◌, ◌-◌, ◌+◌, [], List, ℕ, All, length, take, slice_index, true, false, min, IfErr, IfOk, IfSome};
ghost use Rattle.std.specs.Io.{StopsAt};
ghost use Rattle.std.specs.Io.KnownBytes.{Consumes, prepend_known};
ghost use Rattle.bstr.specs.Text.{no_cr, without_terminator};
ghost use Rattle.cli_commands.specs.Causes.{ToldBy};
ghost use Rattle.cli_commands.specs.Fault.{IsNoFault};
ghost use Rattle.cli_commands.specs.NextLine.{EndsOrLong, ReadsLine, ReadsSome, EndsPart};

use crate::fault::CommandError;
use crate::input::ahead::ReadAhead;
use crate::streams::GivesBytes;
use memchr::memchr;

/// So many bytes without an LF show that a line is too long, with or without a CR at its end.
const READ_LIMIT: usize = 16_777_219;

/// So many bytes, or all where there are fewer.
pub(crate) fn front(bytes: &[u8], most: usize) -> &[u8]
    ensures count { length result.now ≡ min most (length bytes.now) }
    ensures front { result.now ≡ take (length result.now) bytes.now }
    ensures few { length result.now ≤ most }
    ensures inside { length result.now ≤ length bytes.now }
    ensures some { 0 < most → length result.now ≡ 0 → length bytes.now ≡ 0 }
{
    if most < bytes.len() {
        &bytes[..most]
    } else {
        bytes
    }
}

/// How many bytes are of one line, its LF among them.
fn part_len(bytes: &[u8]) -> usize
    ensures inside { result ≤ length bytes.now }
    ensures some { result ≡ 0 → length bytes.now ≡ 0 }
    ensures before { All (λ b. b ≢ 10) (take (result - 1) bytes.now) }
{
    match memchr(b'\n', bytes) {
        Some(at) => at + 1,
        None => bytes.len(),
    }
}

/// Whether a line ends with these bytes: by their LF, or since there are none.
fn ends_line(part: &[u8]) -> bool
    ensures some { result ≡ false → 0 < length part.now }
    ensures last { 0 < length part.now
        → (result ≡ true ↔ slice_index part.now (length part.now - 1) ≡ 10) }
{
    match part.last() {
        Some(last) => *last == b'\n',
        None => true,
    }
}

/// Takes what a reader shows of a line, at most so many bytes, and tells whether the line ends with it.
fn take_part<R: GivesBytes>(
    reader: &mut R,
    ahead: &mut ReadAhead,
    most: usize,
    line: &mut Vec<u8>,
) -> Result<bool, CommandError>
    requires { 0 < most }
    ensures took { IfOk result (λ ends. (part : List ℕ) × (line.new.items ≡ line.old.items ++ part)
        × (length part ≤ most)
        × Consumes (prepend_known ahead.old (R.remaining reader.old))
        (prepend_known ahead.new (R.remaining reader.new)) part
        × EndsPart ends part (prepend_known ahead.old (R.remaining reader.old))
        (prepend_known ahead.new (R.remaining reader.new))) }
    ensures more { IfOk result (λ ends. ends ≡ false
        → length line.old.items < length line.new.items) }
    ensures cause { ToldBy (R.failures reader.old) (R.failures reader.new) result }
    ensures failed { IfErr result IsNoFault }
{
    ahead.fill(reader)?;
    let shown = ahead.shown();
    let seen = front(shown, most);
    let count = part_len(seen);
    let part = &seen[..count];
    line.extend_from_slice(part)?;
    let ends = ends_line(part);
    ahead.consume(count);
    Ok(ends)
}

/// Reads the next line with its end, and tells whether there is one. Of a line that is too long so much is read
/// as shows that: 16,777,219 bytes.
///
/// # Errors
///
/// That a read failed; out of memory.
pub fn next_line<R: GivesBytes>(
    reader: &mut R,
    ahead: &mut ReadAhead,
    line: &mut Vec<u8>,
) -> Result<bool, CommandError>
    ensures line { IfSome (prepend_known ahead.old (R.remaining reader.old))
        (λ bytes. IfOk result (λ more. ReadsLine bytes more line.new.items
        (prepend_known ahead.new (R.remaining reader.new)))) }
    ensures front { IfSome (prepend_known ahead.old (R.remaining reader.old))
        (λ bytes. IfOk result (λ more. ReadsSome bytes more line.new.items
        (prepend_known ahead.new (R.remaining reader.new)))) }
    ensures some { IfOk result (λ more. more ≡ true → 0 < length line.new.items) }
    ensures none { IfOk result (λ more. more ≡ false → line.new.items ≡ []) }
    ensures inside { IfOk result (λ more. StopsAt line.new.items 10) }
    ensures ends { IfSome (prepend_known ahead.old (R.remaining reader.old))
        (λ bytes. IfOk result (λ more. EndsOrLong line.new.items
        (prepend_known ahead.new (R.remaining reader.new)))) }
    ensures cause { ToldBy (R.failures reader.old) (R.failures reader.new) result }
    ensures failed { IfErr result IsNoFault }
{
    line.clear();
    'parts: for _part in 0..READ_LIMIT {
        let ends = take_part(reader, ahead, READ_LIMIT - line.len(), line)?;
        if ends {
            return Ok(!line.is_empty());
        }
        if READ_LIMIT <= line.len() {
            return Ok(true);
        }
    }
    // Each part brings a byte.
    unreachable!()
}

fn without_cr(line: &[u8]) -> &[u8]
    ensures { result.now ≡ no_cr line.now }
{
    match line.split_last() {
        Some((b'\r', front)) => front,
        _ => line,
    }
}

/// A line without the LF or CR LF at its end.
pub fn without_end(line: &[u8]) -> &[u8]
    ensures { result.now ≡ without_terminator line.now }
{
    match line.split_last() {
        Some((b'\n', front)) => without_cr(front),
        _ => line,
    }
}
