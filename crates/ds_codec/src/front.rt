//! The order at the front of a record's bytes.

ghost use Rattle.std.specs.Prelude.{◌≡◌, ◌+◌, ◌<◌, ◌≤◌, ◌*◌, List, ℕ, get_or, length, take, true, IfOk, Option, Some};
ghost use Rattle.std.specs.List.{prefix_len};
ghost use Rattle.ds_codec.specs.Character.{is_text, is_glyph, glyph};
ghost use Rattle.ds_codec.specs.Address.{address_at};
ghost use Rattle.ds_codec.specs.Order.{Item, item_of, start_field_extended, modify_field, set_buffer_address, erase_unprotected_to_address, is_field_type, is_set_type, have_types, last_attribute};
ghost use Rattle.ds_codec.specs.Reading.{Reads, Gives, start_field_at, pairs_at, address_order_at, set_attribute_at, repeat_at, repeat_of, graphic_escape_at, order_after, front};

use crate::address::decode_address;
use crate::attribute::Attr;
use crate::character::{Char, is_graphic_code, is_text_byte};
use crate::order::{Order, OrderCode};
use crate::refused::Why;
use crate::size::Mode;
use std::simd::prelude::*;

/// The types of pairs that SFE and MF take.
const FIELD_TYPES: [u8; 8] = [0xC0, 0xC1, 0xC2, 0x41, 0x42, 0x43, 0x45, 0x46];

/// Whether SFE and MF take a pair of this type: C0, C1, C2, 41, 42, 43, 45 and 46.
#[tactic(auto, unfolding(crate::specs::Order::is_field_type))]
pub fn is_field_type_byte(kind: u8) -> bool
    ensures { result ≡ is_field_type kind }
{
    FIELD_TYPES.contains(&kind)
}

/// Whether SA takes this type: those of SFE and MF, and 00.
#[tactic(auto, unfolding(crate::specs::Order::is_set_type, crate::specs::Order::is_field_type))]
pub fn is_set_type_byte(kind: u8) -> bool
    ensures { result ≡ is_set_type kind }
{
    kind == 0x00 || FIELD_TYPES.contains(&kind)
}

/// Whether each pair is of a type that SFE and MF take.
pub fn have_field_types(pairs: &[u8]) -> bool
    ensures { result ≡ have_types pairs.now }
{
    let mut rest = pairs;
    while let [kind, others @ ..] = rest {
        if !is_field_type_byte(*kind) {
            return false;
        }
        rest = match others {
            [] => others,
            [_, more @ ..] => more,
        };
    }
    true
}

/// The attribute of the last whole pair of type C0, where there is one.
pub fn last_attr(pairs: &[u8]) -> Option<Attr>
    ensures { result ≡ last_attribute pairs.now }
{
    let mut last = None;
    let mut rest = pairs;
    while let [kind, value, others @ ..] = rest {
        if *kind == 0xC0 {
            last = Some(Attr::new(*value));
        }
        rest = others;
    }
    last
}

/// How many bytes are looked at together.
const LANES: usize = 32;

/// How many of the next 32 bytes come before the first that is below 40.
#[inline(always)]
fn graphic_run(bytes: &[u8], at: usize) -> usize
    requires { at + LANES ≤ length bytes.now }
    ensures few { result ≤ LANES }
    ensures text { (k : ℕ) → at ≤ k → k < at + result → is_text (get_or bytes.now k 0) ≡ true }
{
    let below = u8x32::from_slice(&bytes[at..])
        .simd_lt(u8x32::splat(0x40))
        .to_bitmask();
    if below == 0 {
        LANES
    } else {
        below.trailing_zeros() as usize
    }
}

/// How many bytes at the front are 40 or above, as far as whole lanes show.
#[inline(always)]
fn graphic_length(bytes: &[u8]) -> usize
    ensures within { result ≤ length bytes.now }
    ensures text { (k : ℕ) → k < result → is_text (get_or bytes.now k 0) ≡ true }
{
    let mut passed = 0;
    'loads: while LANES <= bytes.len() - passed {
        let run = graphic_run(bytes, passed);
        passed += run;
        if run < LANES {
            return passed;
        }
    }
    passed
}

/// How long the run of text at the front is.
#[inline(always)]
pub fn text_length(bytes: &[u8]) -> usize
    ensures { result ≡ prefix_len is_text bytes.now }
{
    let passed = graphic_length(bytes);
    for (i, byte) in bytes[passed..].iter().enumerate() {
        if !is_text_byte(*byte) {
            return passed + i;
        }
    }
    bytes.len()
}

#[inline(always)]
#[tactic(auto, unfolding(crate::specs::Reading::start_field_at))]
fn start_field(more: &[u8]) -> Result<(Order<'_>, usize), Why>
    ensures { Reads result (start_field_at more.now) }
{
    match more {
        [] => Err(Why::Truncated),
        [byte, ..] => Ok((Order::Sf(Attr::new(*byte)), 2)),
    }
}

/// The pairs after a count of them, and how many bytes the order takes.
#[tactic(auto, unfolding(crate::specs::Reading::pairs_at))]
fn pairs(more: &[u8]) -> Result<(&[u8], usize), Why>
    ensures { (make : List ℕ → Item) → Gives (λ x. (make x.0.now, x.1)) result
        (pairs_at make more.now) }
{
    match more {
        [] => Err(Why::Truncated),
        [count, rest @ ..] => {
            let len = 2 * usize::from(*count);
            if rest.len() < len {
                return Err(Why::Truncated);
            }
            let found = &rest[..len];
            if have_field_types(found) {
                Ok((found, 2 + len))
            } else {
                Err(Why::BadType)
            }
        }
    }
}

/// The address of an order that consists of one.
#[inline(always)]
#[tactic(auto, unfolding(crate::specs::Reading::address_order_at))]
fn address(mode: Mode, more: &[u8]) -> Result<u32, Why>
    ensures { (make : ℕ → Item) → Gives (λ a. (make a, 3)) result
        (address_order_at mode make more.now) }
{
    match more {
        [first, second, ..] => decode_address(mode, *first, *second).ok_or(Why::ReservedAddress),
        _ => Err(Why::Truncated),
    }
}

#[inline(always)]
#[tactic(auto, unfolding(crate::specs::Reading::set_attribute_at))]
fn set_attribute(more: &[u8]) -> Result<(Order<'_>, usize), Why>
    ensures { Reads result (set_attribute_at more.now) }
{
    match more {
        [kind, value, ..] => {
            if is_set_type_byte(*kind) {
                Ok((Order::Sa(*kind, *value), 3))
            } else {
                Err(Why::BadType)
            }
        }
        _ => Err(Why::Truncated),
    }
}

/// Repeat to Address, of so many bytes in all.
#[inline(always)]
fn repeat<'a>(
    address: Option<u32>,
    code: u8,
    alt: bool,
    taken: usize,
) -> Result<(Order<'a>, usize), Why>
    ensures { Reads result (repeat_of address (glyph code alt) taken) }
{
    let Some(stop) = address else {
        return Err(Why::ReservedAddress);
    };
    match Char::new(code, alt) {
        Some(character) => Ok((Order::Ra(stop, character), taken)),
        None => Err(Why::BadCharacter),
    }
}

#[inline(always)]
#[tactic(auto, unfolding(crate::specs::Reading::repeat_at))]
fn repeat_to_address(mode: Mode, more: &[u8]) -> Result<(Order<'_>, usize), Why>
    ensures { Reads result (repeat_at mode more.now) }
{
    match more {
        [_, _, 0x08] => Err(Why::Truncated),
        [first, second, 0x08, code, ..] => repeat(
            decode_address(mode, *first, *second),
            *code,
            true,
            5,
        ),
        [first, second, byte, ..] => repeat(decode_address(mode, *first, *second), *byte, false, 4),
        _ => Err(Why::Truncated),
    }
}

#[inline(always)]
#[tactic(auto, unfolding(crate::specs::Reading::graphic_escape_at))]
fn graphic_escape(more: &[u8]) -> Result<(Order<'_>, usize), Why>
    ensures { Reads result (graphic_escape_at more.now) }
{
    match more {
        [] => Err(Why::Truncated),
        [code, ..] => {
            if is_graphic_code(*code) {
                Ok((Order::Ge(*code), 2))
            } else {
                Err(Why::BadCharacter)
            }
        }
    }
}

/// The order of a code, of which these bytes follow.
#[inline(always)]
fn order_of(mode: Mode, code: OrderCode, more: &[u8]) -> Result<(Order<'_>, usize), Why>
    ensures { Reads result (order_after mode (Some code) more.now) }
{
    match code {
        OrderCode::Sf => start_field(more),
        OrderCode::Sfe => {
            let (pairs, taken) = pairs(more)?;
            Ok((Order::Sfe(pairs), taken))
        }
        OrderCode::Sba => Ok((Order::Sba(address(mode, more)?), 3)),
        OrderCode::Sa => set_attribute(more),
        OrderCode::Mf => {
            let (pairs, taken) = pairs(more)?;
            Ok((Order::Mf(pairs), taken))
        }
        OrderCode::Ic => Ok((Order::Ic, 1)),
        OrderCode::Pt => Ok((Order::Pt, 1)),
        OrderCode::Ra => repeat_to_address(mode, more),
        OrderCode::Eua => Ok((Order::Eua(address(mode, more)?), 3)),
        OrderCode::Ge => graphic_escape(more),
    }
}

/// The order at the front of bytes that are not empty, and how many of them it takes; or what is
/// wrong with it.
#[inline(always)]
#[tactic(auto, unfolding(crate::specs::Reading::front))]
pub fn front_order(mode: Mode, bytes: &[u8]) -> Result<(Order<'_>, usize), Why>
    requires { 0 < length bytes.now }
    ensures exact { Reads result (front mode bytes.now) }
    ensures some { IfOk result (λ found. 0 < found.1) }
    ensures inside { IfOk result (λ found. found.1 ≤ length bytes.now) }
{
    if is_text_byte(bytes[0]) {
        let length = text_length(bytes);
        return Ok((Order::Text(&bytes[..length]), length));
    }
    match OrderCode::from_byte(bytes[0]) {
        Some(code) => order_of(mode, code, &bytes[1..]),
        None => Err(Why::UnknownOrder),
    }
}
