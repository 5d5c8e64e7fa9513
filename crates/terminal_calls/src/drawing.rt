//! A screen as the record that draws it, in hexadecimal, so that it can be checked as records are.

ghost use Rattle.std.specs.Prelude.{◌≡◌, IfOk, option_map, string_bytes};
ghost use Rattle.hex.specs.Hex.{encode_upper};
ghost use Rattle.ds_state.specs.Calls.{Reads};
ghost use Rattle.ds_state.specs.State.{record_of};

use ds_screen::{PlaneCells, Screen};
use ds_state::{open_state, record_of};
use hex::encode_upper;
use std::alloc::{AllocError, Global};

/// The record that draws a screen, in hexadecimal.
///
/// # Errors
///
/// Where a request for memory was refused.
pub(crate) fn drawing_of(alloc: Global, screen: &Screen<PlaneCells>) -> Result<String, AllocError>
    ensures { IfOk result (λ text. string_bytes text ≡ encode_upper (record_of screen.now)) }
{
    let record = record_of(alloc, screen)?;
    encode_upper(alloc, record.as_slice())
}

/// The record that draws a state's screen, in hexadecimal; `None` where the bytes are no state.
///
/// # Errors
///
/// Where a request for memory was refused.
pub fn state_drawing(alloc: Global, state: &[u8]) -> Result<Option<String>, AllocError>
    ensures { IfOk result (λ found. Reads (λ v. encode_upper (record_of v)) state.now
        (option_map string_bytes found)) }
{
    let opened: Option<Screen<PlaneCells>> = open_state(alloc, state)?;
    match opened {
        Some(screen) => Ok(Some(drawing_of(alloc, &screen)?)),
        None => Ok(None),
    }
}
