//! What is due to the host.

ghost use Rattle.std.specs.Prelude.{◌≡◌, length, pos};
ghost use Rattle.terminal_calls.specs.Left.{laid_over};
ghost use Rattle.session_calls.specs.Calls.{HoldsDue, due_after};

use crate::held::HeldSession;
use crate::talking::Talking;
use std::alloc::Global;
use terminal_calls::lay;

/// Lays what is due over a buffer, as far as it fits; where all of it does, nothing is due any more. Tells how many bytes it is.
fn give_due(line: &mut Talking, out: &mut [u8]) -> usize
    ensures given { out.new ≡ laid_over out.old line.old.due }
    ensures count { result ≡ length line.old.due }
    ensures after { line.new ≡ due_after line.old out.old }
{
    let many = line.due.len();
    lay(out, line.due.as_slice());
    if many <= out.len() {
        line.due.clear();
    }
    many
}

/// Leaves the bytes that are due to the host, as far as they fit, and how many they are; where all of them fit, nothing is due any more. The status is 0; 2
/// where the handle is null: then nothing is laid, and the number is 0.
pub fn due_left(held: &mut HeldSession, alloc: Global, out: &mut [u8], needed: &mut usize) -> u8
    ensures { HoldsDue held.old.line held.new.line out.old out.new needed.new (pos result) }
{
    let Some(mut line) = held.take(alloc) else {
        *needed = 0;
        return 2;
    };
    *needed = give_due(&mut line, out);
    held.put(alloc, line);
    0
}
