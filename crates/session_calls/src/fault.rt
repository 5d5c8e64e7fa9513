//! Why a session failed.

ghost use Rattle.std.specs.Prelude.{◌≡◌, length, pos};
ghost use Rattle.session_calls.specs.Calls.{HoldsFault, fault_text};

use crate::calls::take_bytes;
use crate::held::HeldSession;
use cli_sessions::fault_number;
use std::alloc::Global;
use terminal_calls::lay;
use tn_session::{Progress, RunFault};

fn fault_text(taken: Result<Progress, RunFault>) -> &'static str
    ensures { result.now ≡ fault_text taken }
{
    match taken {
        Ok(_) => "",
        Err(why) => fault_number(why),
    }
}

/// Leaves why the session failed, as far as it fits, and how many bytes it is: the number of its fault, as `N1`, as `attach` prints it; nothing where it goes
/// on, or ended since a request for memory was refused. The status is 0; 2 where the handle is null: then nothing is laid, and the number is 0.
pub fn fault_left(held: &mut HeldSession, alloc: Global, out: &mut [u8], needed: &mut usize) -> u8
    ensures { HoldsFault held.old.line held.new.line out.old out.new needed.new (pos result) }
{
    let Some(mut line) = held.take(alloc) else {
        *needed = 0;
        return 2;
    };
    let text = fault_text(take_bytes(&mut line, alloc, &[]));
    held.put(alloc, line);
    lay(out, text.as_bytes());
    *needed = text.len();
    0
}
