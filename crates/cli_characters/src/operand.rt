//! What stands after `TEXT`.

ghost use Rattle.std.specs.Prelude.{◌≡◌, ◌≤◌, IfOk, IfSome, length};
ghost use Rattle.std.specs.Option.{option_map};
ghost use Rattle.cli_characters.specs.Operand.{first_stop, told_of};

use crate::place::Place;
use std::alloc::{AllocError, Global};

/// Where a text isn't good.
#[derive(Clone, Copy, Debug, PartialEq, Eq)]
pub struct Stop {
    /// How many characters come before.
    pub at: usize,
    /// What was begun there.
    pub place: Place,
}

/// The bytes of runs of characters and digits, where they are good.
pub(crate) fn told(alloc: Global, operand: &[u8]) -> Result<Option<Vec<u8>>, AllocError>
    ensures { IfOk result (λ bytes. option_map (λ b. b.items) bytes ≡ told_of operand.now) }
{
    let mut bytes = Vec::new(alloc);
    let mut place = Place::Begins;
    let mut rest = operand;
    while let [character, others @ ..] = rest {
        let Some((next, byte)) = place.step(*character) else {
            return Ok(None);
        };
        if let Some(byte) = byte {
            bytes.push(byte)?;
        }
        place = next;
        rest = others;
    }
    Ok(if place.may_end() { Some(bytes) } else { None })
}

/// Where runs of characters and digits aren't good: at the first character that can't stand there, or at the end.
pub fn first_stop(operand: &[u8]) -> Option<Stop>
    ensures stop { result ≡ first_stop operand.now }
    ensures inside { IfSome result (λ stop. stop.at ≤ length operand.now) }
{
    let mut place = Place::Begins;
    let mut at = 0;
    while at < operand.len() {
        match place.step(operand[at]) {
            Some((next, _)) => place = next,
            None => return Some(Stop { at, place }),
        }
        at += 1;
    }
    if place.may_end() {
        None
    } else {
        Some(Stop { at, place })
    }
}
