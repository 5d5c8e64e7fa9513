//! What stands before a state's record.

ghost use Rattle.std.specs.Prelude.{◌≡◌, ◌+◌, ◌*◌, ℕ, take};
ghost use Rattle.ds_state.specs.Header.{mode_at, lock_at, geometry_at, length_at, part_seen, part_of};

use crate::spelled::VERSION;
use ds_codec::{Aid, Geometry, Mode, Size};
use ds_screen::Lock;

/// A state's parts: the sizes, the keyboard's lock, the attention identifier and the record.
#[derive(Drop)]
pub(crate) struct Parts<'a> {
    pub geometry: Geometry,
    pub lock: Lock,
    pub aid: Aid,
    pub drawing: &'a [u8],
}

fn mode_at(byte: u8) -> Option<Mode>
    ensures { result ≡ mode_at byte }
{
    match byte {
        0 => Some(Mode::Bits14),
        1 => Some(Mode::Bits16),
        _ => None,
    }
}

fn lock_at(byte: u8) -> Option<Lock>
    ensures { result ≡ lock_at byte }
{
    match byte {
        0 => Some(Lock::Free),
        1 => Some(Lock::Waiting),
        2 => Some(Lock::Error),
        _ => None,
    }
}

fn size(rows: u8, cols: u8) -> Size
    ensures { result ≡ record { rows = rows; cols = cols } }
{
    Size {
        rows: u16::from(rows),
        cols: u16::from(cols),
    }
}

/// The geometry of a mode's byte and two sizes.
fn geometry_at(mode: u8, default: Size, alternate: Size) -> Option<Geometry>
    ensures { result ≡ geometry_at mode default alternate }
{
    let mode = mode_at(mode)?;
    match Geometry::new(default, alternate, mode) {
        Ok(geometry) => Some(geometry),
        Err(_) => None,
    }
}

/// So many bytes at the front; all, where there are fewer.
fn front(bytes: &[u8], length: usize) -> &[u8]
    ensures { result.now ≡ take length bytes.now }
{
    if length <= bytes.len() {
        &bytes[..length]
    } else {
        bytes
    }
}

fn length_at(high: u8, middle: u8, low: u8) -> usize
    ensures { result ≡ length_at high middle low }
{
    65536 * usize::from(high) + 256 * usize::from(middle) + usize::from(low)
}

/// The parts of a state; `None` where its header is none.
pub(crate) fn parts_of(state: &[u8]) -> Option<Parts<'_>>
    ensures { part_seen result ≡ part_of state.now }
{
    let [
        version,
        mode,
        rows,
        cols,
        alternate_rows,
        alternate_cols,
        lock,
        aid,
        high,
        middle,
        low,
        rest @ ..,
    ] = state
    else {
        return None;
    };
    if *version != VERSION {
        return None;
    }
    let default = size(*rows, *cols);
    let geometry = geometry_at(*mode, default, size(*alternate_rows, *alternate_cols))?;
    let lock = lock_at(*lock)?;
    let aid = Aid::from_byte(*aid)?;
    Some(Parts {
        geometry,
        lock,
        aid,
        drawing: front(rest, length_at(*high, *middle, *low)),
    })
}
