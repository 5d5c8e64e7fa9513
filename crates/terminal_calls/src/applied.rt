//! A record.

ghost use Rattle.std.specs.Prelude.{◌≡◌, pos};
ghost use Rattle.terminal_calls.specs.Numbers.{apply_number, effect_of, effect_code, read_number, refused_effect};
ghost use Rattle.terminal_calls.specs.Left.{LeavesEffect};

use ds_state::{Applied, apply_record};
use ds_terminal::Refused;
use std::alloc::Global;

/// What becomes of a record.
#[derive(Clone, Copy)]
#[repr(C)]
pub struct Effect {
    /// 0 shown, 1 Read Buffer, 2 Read Modified, 3 Read Modified All, 4 No-operation, 5 refused.
    pub kind: u8,
    /// The alarm sounds.
    pub alarm: bool,
    /// The keyboard is restored.
    pub restored: bool,
    /// Of a refusal the letter of its number, O or A in ASCII; else 0.
    pub letter: u8,
    /// Of a refusal its number; else 0.
    pub number: u8,
    /// Of a refusal its place, a byte of the record counted from 0; else 0.
    pub at: usize,
}

/// The number of a refusal by reading.
fn read_number(why: ds_codec::Why) -> u8
    ensures { result ≡ read_number why }
{
    match why {
        ds_codec::Why::Empty => 1,
        ds_codec::Why::UnknownCommand => 2,
        ds_codec::Why::StructuredField => 3,
        ds_codec::Why::NoWcc => 4,
        ds_codec::Why::UnknownOrder => 5,
        ds_codec::Why::Truncated => 6,
        ds_codec::Why::ReservedAddress => 7,
        ds_codec::Why::BadType => 8,
        ds_codec::Why::BadCharacter => 9,
        ds_codec::Why::Trailing => 10,
    }
}

/// The number of a refusal by applying.
fn apply_number(why: ds_screen::Why) -> u8
    ensures { result ≡ apply_number why }
{
    match why {
        ds_screen::Why::AddressOutside => 1,
        ds_screen::Why::NoFieldHere => 2,
        ds_screen::Why::NotAWrite => 3,
    }
}

fn refused_effect(refused: Refused) -> Effect
    ensures { result ≡ refused_effect refused }
{
    let (letter, number) = match refused {
        Refused::Read(fault) => (b'O', read_number(fault.why)),
        Refused::Apply(fault) => (b'A', apply_number(fault.why)),
    };
    Effect {
        kind: 5,
        alarm: false,
        restored: false,
        letter,
        number,
        at: refused.at(),
    }
}

/// An effect without a refusal.
fn without_refusal(kind: u8, alarm: bool, restored: bool) -> Effect
    ensures { result ≡ record {
      kind = kind;
      alarm = alarm;
      restored = restored;
      letter = 0;
      number = 0;
      at = 0;
    } }
{
    Effect {
        kind,
        alarm,
        restored,
        letter: 0,
        number: 0,
        at: 0,
    }
}

/// An effect as C sees it.
pub(crate) fn effect_of(told: Applied) -> Effect
    ensures { result ≡ effect_of told }
{
    match told {
        Applied::Shown(shown) => without_refusal(0, shown.alarm, shown.restored),
        Applied::ReadBuffer => without_refusal(1, false, false),
        Applied::ReadModified => without_refusal(2, false, false),
        Applied::ReadModifiedAll => without_refusal(3, false, false),
        Applied::Nothing => without_refusal(4, false, false),
        Applied::Refused(refused) => refused_effect(refused),
    }
}

/// The status of a record.
pub(crate) fn effect_code(told: Applied) -> u8
    ensures { result ≡ effect_code told }
{
    match told {
        Applied::Refused(_) => 1,
        _ => 0,
    }
}

/// Applies a record: leaves the state after it and its effect. The status is 0; 1 where the record is refused, and the state is as before;
/// 2 where the bytes are no state, and 4 where a request for memory was refused: then nothing changes.
pub fn apply_left(alloc: Global, state: &mut [u8], bytes: &[u8], effect: &mut Effect) -> u8
    ensures { LeavesEffect bytes.now state.old state.new effect.old effect.new (pos result) }
{
    match apply_record(alloc, state, bytes) {
        Ok(Some(told)) => {
            *effect = effect_of(told);
            effect_code(told)
        }
        Ok(None) => 2,
        Err(_) => 4,
    }
}
