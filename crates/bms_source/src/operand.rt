//! Operands, one after the other.

ghost use Rattle.std.specs.Prelude.{◌≡◌, ◌≤◌, ◌<◌, length, IfOk};
ghost use Rattle.std.specs.Option.{option_map};
ghost use Rattle.bms_source.specs.Operand.{sign_in, is_good, operand_in, after_comma, next_operand};
ghost use Rattle.bms_source.specs.Results.{Gives};

use crate::letter::Letter;
use crate::refusal::{SourceError, Why};
use crate::scan::{are_paired, comma_in};
use crate::words::is_symbol;
use std::alloc::Global;

/// A keyword and its value.
#[derive(Clone, Copy, Debug)]
pub struct Operand<'a> {
    pub keyword: &'a [Letter],
    pub value: &'a [Letter],
}

/// How many letters stand before the first equals sign.
fn sign_in(letters: &[Letter]) -> usize
    ensures count { result ≡ sign_in letters.now }
    ensures inside { result ≤ length letters.now }
{
    let mut count = 0usize;
    let mut rest = letters;
    while let [letter, others @ ..] = rest {
        if letter.code == b'=' {
            return count;
        }
        count += 1;
        rest = others;
    }
    count
}

fn is_good(keyword: &[Letter], value: &[Letter]) -> bool
    ensures { result ≡ is_good keyword.now value.now }
{
    is_symbol(keyword) && keyword.len() <= 63 && are_paired(value)
}

/// The keyword and the value, if the letters are both.
#[tactic(auto, unfolding(crate::specs::Operand::operand_in))]
fn operand_in(letters: &[Letter]) -> Option<Operand<'_>>
    ensures { option_map (λ operand. (operand.keyword.now, operand.value.now)) result
        ≡ operand_in letters.now }
{
    let (keyword, others) = letters.split_at(sign_in(letters));
    match others {
        [] | [_] => None,
        [_sign, value @ ..] => {
            if is_good(keyword, value) {
                Some(Operand { keyword, value })
            } else {
                None
            }
        }
    }
}

/// What comes after the comma.
fn after_comma(letters: &[Letter]) -> &[Letter]
    ensures { result.now ≡ after_comma letters.now }
{
    match letters {
        [] => &[],
        [_comma, others @ ..] => others,
    }
}

/// The operand at the front of operands, of which there is one at least, and those after it.
#[tactic(auto, unfolding(crate::specs::Operand::next_operand))]
pub fn next_operand<'a>(
    alloc: Global,
    first: Letter,
    letters: &'a [Letter],
) -> Result<(Operand<'a>, &'a [Letter]), SourceError>
    requires { 0 < length letters.now }
    ensures operand { Gives (λ found. (found.0.keyword.now, found.0.value.now, found.1.now)) result
        (next_operand first letters.now) }
    ensures shorter { IfOk result (λ found. length found.1.now < length letters.now) }
{
    let (front, others) = letters.split_at(comma_in(letters));
    match operand_in(front) {
        Some(operand) => Ok((operand, after_comma(others))),
        None => Err(SourceError::at(alloc, Why::BadOperand, first.place)),
    }
}
