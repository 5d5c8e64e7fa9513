//! Events out of bytes, over the parts of a deframer.

ghost use Rattle.std.specs.Prelude.{◌≤◌, List, ℕ, length, vec_capacity};
ghost use Rattle.tn_wire.specs.Open.{content_of, HasRoom, GoesOn, TakesRun, TakesEvent};

use crate::codes::{RECORD_LIMIT, SUBNEGOTIATION_LIMIT};
use crate::escape::run_len;
use crate::event::WireFault;
use crate::open_token::{Found, Open, Parameters, take_byte};

/// Copies the data bytes at the front as a run, up to the next IAC, the record's limit or the input's end.
fn copy_run(kept: &mut Vec<u8>, input: &mut &[u8])
    requires limit { length kept.old.items ≤ RECORD_LIMIT }
    requires room { RECORD_LIMIT ≤ vec_capacity kept.old }
    ensures takes { TakesRun kept.old.items input.old.now kept.new.items input.new.now }
    ensures limit { length kept.new.items ≤ RECORD_LIMIT }
    ensures room { RECORD_LIMIT ≤ vec_capacity kept.new }
{
    let end = run_len(input);
    let room = RECORD_LIMIT - kept.len();
    let (run, rest) = input.split_at(end.min(room));
    kept.extend_from_slice(run).unwrap();
    *input = rest;
}

/// The same, where no token is open.
fn take_run(kept: &mut Vec<u8>, state: Open, input: &mut &[u8])
    requires limit { length kept.old.items ≤ RECORD_LIMIT }
    requires room { RECORD_LIMIT ≤ vec_capacity kept.old }
    ensures goes_on { (ps : List ℕ) → length ps ≤ SUBNEGOTIATION_LIMIT
        → GoesOn (content_of kept.old.items ps state) input.old.now
        (content_of kept.new.items ps state) input.new.now }
    ensures limit { length kept.new.items ≤ RECORD_LIMIT }
    ensures room { RECORD_LIMIT ≤ vec_capacity kept.new }
{
    if let Open::Nothing = state {
        copy_run(kept, input);
    }
}

/// Takes bytes up to an event or the end of the input.
pub(crate) fn take_event(
    kept: &mut Vec<u8>,
    parameters: &mut Parameters,
    state: &mut Open,
    input: &mut &[u8],
) -> Result<Option<Found>, WireFault>
    requires { HasRoom kept.old.items (vec_capacity kept.old) parameters.old.items }
    ensures takes { TakesEvent (content_of kept.old.items parameters.old.items state.old)
        input.old.now kept.new.items parameters.new.items state.new result input.new.now }
    ensures room { HasRoom kept.new.items (vec_capacity kept.new) parameters.new.items }
{
    'bytes: loop {
        take_run(kept, *state, input);
        let Some((byte, rest)) = input.split_first() else {
            return Ok(None);
        };
        *input = rest;
        let (next, found) = take_byte(kept, parameters, *state, *byte)?;
        *state = next;
        if found.is_some() {
            return Ok(found);
        }
    }
}
