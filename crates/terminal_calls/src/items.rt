//! Fields, laid into the caller's memory one by one.

ghost use Rattle.std.specs.Prelude.{◌≡◌, ◌∷◌, [], ◌++◌, List, map, length, pos};
ghost use Rattle.ds_screen.specs.Fields.{fields_of};
ghost use Rattle.terminal_calls.specs.Items.{LeavesFields, field_told, laid};

use ds_screen::{FieldAt, PlaneCells, Screen};
use ds_state::open_state;
use std::alloc::{AllocError, Global};

/// A field.
#[derive(Clone, Copy)]
#[repr(C)]
pub struct TerminalField {
    /// The position of the attribute, counted from 0 row by row.
    pub attribute: u32,
    /// The position after it: 0 after the last one.
    pub first: u32,
    /// How many positions it governs.
    pub length: u32,
    /// The attribute's six bits.
    pub bits: u8,
}

fn field_told(field: FieldAt) -> TerminalField
    ensures { result ≡ field_told field }
{
    TerminalField {
        attribute: field.at,
        first: field.place,
        length: field.length,
        bits: field.attr.bits(),
    }
}

/// Lays one more after so many, where it fits.
fn lay_next<T: Copy>(out: &mut [T], count: usize, one: T)
    ensures next { (old : List T) (before : List T) → length before ≡ count
        → out.old ≡ laid old before → out.new ≡ laid old (before ++ one ∷ []) }
{
    if count < out.len() {
        out[count] = one;
    }
}

/// Lays the fields over a buffer, in rising order of their attributes, as far as they fit; the rest of it stays. Tells how many there are.
pub(crate) fn lay_fields(screen: &Screen<PlaneCells>, out: &mut [TerminalField]) -> usize
    ensures laid { out.new ≡ laid out.old (map field_told (fields_of screen.now.cells)) }
    ensures count { result ≡ length (fields_of screen.now.cells) }
{
    // There are no more fields than positions, which are fewer than 2^32.
    let _positions = screen.size().cells();
    let mut count = 0;
    'fields: for field in screen.fields() {
        lay_next(out, count, field_told(field));
        count += 1;
    }
    count
}

/// Leaves the fields of a state's screen, as far as they fit, and how many there are. The status is 0; 2 where the bytes are no state, and 4
/// where a request for memory was refused: then nothing is laid, and the number is 0.
pub fn fields_left(alloc: Global, state: &[u8], out: &mut [TerminalField], needed: &mut usize) -> u8
    ensures { LeavesFields state.now out.old out.new needed.new (pos result) }
{
    let opened: Result<Option<Screen<PlaneCells>>, AllocError> = open_state(alloc, state);
    match opened {
        Ok(Some(screen)) => {
            *needed = lay_fields(&screen, out);
            0
        }
        Ok(None) => {
            *needed = 0;
            2
        }
        Err(_) => {
            *needed = 0;
            4
        }
    }
}
