//! What operands tell, looked up by their keywords.

ghost use Rattle.std.specs.Prelude.{◌≡◌, ◌≤◌, ◌<◌, IfOk, IfSome};
ghost use Rattle.std.specs.Option.{option_map};
ghost use Rattle.bms_map.specs.Lookup.{operand_at, its_keyword, value_at, is_given, told_at_operand, kind_in, size_in, first_or, top_in, left_in, pos_in, length_in, occurs_in, group_in, bits_of, attribute_in, says_cursor, cursor_in, control_of, control_in, list_value, looks_in, value_text, initial_in, name_if, later_of};
ghost use Rattle.bms_map.specs.Lists.{validation_value, outline_value};

use crate::bits::Bits;
use crate::field::Looks;
use crate::list::{attribute_bits, control_value, has, outline_value, validation_value, words_of};
use crate::operands::Setting;
use crate::place::Extent;
use crate::refuse::refused;
use crate::text::{codes_of, digits_of, string_of};
use crate::values::{
    Kind, MOST_LENGTH, MOST_OCCURRENCES, Pos, color_of, first_of, highlight_of, kind_of,
    number_within, pos_of, size_of,
};
use bms_source::{Letter, SourceError, Why, is_named, upper_word};
use std::alloc::{AllocError, Global};

/// The operand of a keyword.
fn operand_at<'b, 'a>(operands: &'b [Setting<'a>], name: &[u8]) -> Option<&'b Setting<'a>>
    ensures { option_map (λ operand. operand.now) result ≡ operand_at name.now operands.now }
{
    let mut rest = operands;
    while let [given, others @ ..] = rest {
        if is_named(given.keyword, name) {
            return Some(given);
        }
        rest = others;
    }
    None
}

/// The value of a keyword.
pub(crate) fn value_at<'a>(operands: &[Setting<'a>], name: &[u8]) -> Option<&'a [Letter]>
    ensures { option_map (λ value. value.now) result ≡ value_at name.now operands.now }
{
    match operand_at(operands, name) {
        Some(given) => Some(given.value),
        None => None,
    }
}

/// The keyword of a name as it stands.
pub(crate) fn keyword_at<'a>(operands: &[Setting<'a>], name: &[u8]) -> &'a [Letter]
    ensures { result.now ≡ its_keyword (operand_at name.now operands.now) }
{
    match operand_at(operands, name) {
        Some(given) => given.keyword,
        None => &[],
    }
}

/// Whether an operand stands there.
pub(crate) fn is_given(operands: &[Setting<'_>], name: &[u8]) -> bool
    ensures { result ≡ is_given (operand_at name.now operands.now) }
{
    match operand_at(operands, name) {
        Some(_given) => true,
        None => false,
    }
}

/// The refusal of an operand that stands there.
pub(crate) fn refused_at(
    alloc: Global,
    why: Why,
    operands: &[Setting<'_>],
    name: &[u8],
) -> Result<SourceError, AllocError>
    ensures { IfOk result (λ error. error
        ≡ SourceError.Refused (told_at_operand why name.now operands.now)) }
{
    refused(alloc, why, keyword_at(operands, name))
}

pub(crate) fn kind_in(operands: &[Setting<'_>]) -> Option<Kind>
    ensures { result ≡ kind_in operands.now }
{
    match value_at(operands, b"TYPE") {
        Some(value) => kind_of(value),
        None => None,
    }
}

pub(crate) fn size_in(operands: &[Setting<'_>]) -> Option<Extent>
    ensures { option_map (λ extent. (extent.lines, extent.columns)) result
        ≡ size_in operands.now }
{
    match value_at(operands, b"SIZE") {
        Some(value) => size_of(value),
        None => None,
    }
}

fn first_or(value: Result<u8, Why>) -> u8
    ensures { result ≡ first_or value }
{
    match value {
        Ok(number) => number,
        Err(_) => 0,
    }
}

/// The line of the screen on which a map begins, counted from 0.
pub(crate) fn top_in(operands: &[Setting<'_>]) -> u8
    ensures { result ≡ top_in operands.now }
{
    match value_at(operands, b"LINE") {
        Some(value) => first_or(first_of(value)),
        None => 0,
    }
}

/// The column of the screen on which a map begins, counted from 0.
pub(crate) fn left_in(operands: &[Setting<'_>]) -> u8
    ensures { result ≡ left_in operands.now }
{
    match value_at(operands, b"COLUMN") {
        Some(value) => first_or(first_of(value)),
        None => 0,
    }
}

pub(crate) fn pos_in(operands: &[Setting<'_>]) -> Option<Pos>
    ensures { result ≡ pos_in operands.now }
{
    match value_at(operands, b"POS") {
        Some(value) => pos_of(value),
        None => None,
    }
}

pub(crate) fn length_in(operands: &[Setting<'_>]) -> Option<u32>
    ensures length { result ≡ length_in operands.now }
    ensures most { IfSome result (λ n. n ≤ 256) }
{
    match value_at(operands, b"LENGTH") {
        Some(value) => number_within(value, 0, MOST_LENGTH),
        None => None,
    }
}

pub(crate) fn occurs_in(operands: &[Setting<'_>]) -> Option<u32>
    ensures occurs { result ≡ occurs_in operands.now }
    ensures most { IfSome result (λ n. n ≤ 1000) }
{
    match value_at(operands, b"OCCURS") {
        Some(value) => number_within(value, 1, MOST_OCCURRENCES),
        None => None,
    }
}

/// GRPNAME in upper case.
pub(crate) fn group_in(
    alloc: Global,
    operands: &[Setting<'_>],
) -> Result<Option<Vec<u8>>, AllocError>
    ensures { IfOk result (λ group. option_map (λ name. name.items) group
        ≡ group_in operands.now) }
{
    match value_at(operands, b"GRPNAME") {
        Some(value) => Ok(Some(upper_word(alloc, value)?)),
        None => Ok(None),
    }
}

/// The bits of the attribute.
pub(crate) fn attribute_in(alloc: Global, operands: &[Setting<'_>]) -> Result<u8, AllocError>
    ensures bits { IfOk result (λ bits. bits ≡ attribute_in operands.now) }
    ensures six { IfOk result (λ bits. bits < 64) }
{
    match value_at(operands, b"ATTRB") {
        Some(value) => {
            let words = words_of(alloc, value)?;
            Ok(attribute_bits(&words))
        }
        None => Ok(0x30),
    }
}

/// Whether ATTRB has IC.
pub(crate) fn cursor_in(alloc: Global, operands: &[Setting<'_>]) -> Result<bool, AllocError>
    ensures { IfOk result (λ cursor. cursor ≡ cursor_in operands.now) }
{
    match value_at(operands, b"ATTRB") {
        Some(value) => {
            let words = words_of(alloc, value)?;
            Ok(has(&words, b"IC"))
        }
        None => Ok(false),
    }
}

/// The bits of CTRL.
pub(crate) fn control_in(
    alloc: Global,
    operands: &[Setting<'_>],
) -> Result<Option<Bits>, AllocError>
    ensures { IfOk result (λ control. option_map (λ bits. bits.bits) control
        ≡ control_in operands.now) }
{
    match value_at(operands, b"CTRL") {
        Some(value) => {
            let words = words_of(alloc, value)?;
            let bits = control_value(&words);
            Ok(Some(Bits { bits }))
        }
        None => Ok(None),
    }
}

fn highlight_in(operands: &[Setting<'_>]) -> Option<u8>
    ensures { result ≡ (looks_in operands.now).highlight }
{
    match value_at(operands, b"HILIGHT") {
        Some(value) => highlight_of(value),
        None => None,
    }
}

fn color_in(operands: &[Setting<'_>]) -> Option<u8>
    ensures { result ≡ (looks_in operands.now).color }
{
    match value_at(operands, b"COLOR") {
        Some(value) => color_of(value),
        None => None,
    }
}

fn validation_in(alloc: Global, operands: &[Setting<'_>]) -> Result<Option<u8>, AllocError>
    ensures { IfOk result (λ value. value ≡ (looks_in operands.now).validation) }
{
    match value_at(operands, b"VALIDN") {
        Some(value) => {
            let words = words_of(alloc, value)?;
            Ok(Some(validation_value(&words)))
        }
        None => Ok(None),
    }
}

fn outline_in(alloc: Global, operands: &[Setting<'_>]) -> Result<Option<u8>, AllocError>
    ensures { IfOk result (λ value. value ≡ (looks_in operands.now).outline) }
{
    match value_at(operands, b"OUTLINE") {
        Some(value) => {
            let words = words_of(alloc, value)?;
            Ok(Some(outline_value(&words)))
        }
        None => Ok(None),
    }
}

pub(crate) fn looks_in(alloc: Global, operands: &[Setting<'_>]) -> Result<Looks, AllocError>
    ensures { IfOk result (λ looks. looks ≡ looks_in operands.now) }
{
    let highlight = highlight_in(operands);
    let color = color_in(operands);
    let validation = validation_in(alloc, operands)?;
    let outline = outline_in(alloc, operands)?;
    Ok(Looks {
        highlight,
        color,
        validation,
        outline,
    })
}

/// The codes of INITIAL or XINIT.
pub(crate) fn initial_in(
    alloc: Global,
    operands: &[Setting<'_>],
) -> Result<Option<Vec<u8>>, AllocError>
    ensures { IfOk result (λ text. option_map (λ codes. codes.items) text
        ≡ initial_in operands.now) }
{
    match (value_at(operands, b"INITIAL"), value_at(operands, b"XINIT")) {
        (Some(characters), _) => Ok(codes_of(string_of(alloc, characters)?)),
        (None, Some(digits)) => Ok(codes_of(digits_of(alloc, digits)?)),
        (None, None) => Ok(None),
    }
}

/// A name, if an operand of another one stands there.
fn name_if<'n>(operands: &[Setting<'_>], other: &[u8], name: &'n [u8]) -> Option<&'n [u8]>
    ensures { option_map (λ name. name.now) result
        ≡ name_if (is_given (operand_at other.now operands.now)) name.now }
{
    if is_given(operands, other) {
        Some(name)
    } else {
        None
    }
}

/// The later one of two operands, if both stand.
pub(crate) fn later_of<'n>(
    one: &'n [u8],
    other: &'n [u8],
    operands: &[Setting<'_>],
) -> Option<&'n [u8]>
    ensures { option_map (λ name. name.now) result ≡ later_of one.now other.now operands.now }
{
    let mut rest = operands;
    while let [given, others @ ..] = rest {
        if is_named(given.keyword, one) {
            return name_if(others, other, other);
        }
        if is_named(given.keyword, other) {
            return name_if(others, one, one);
        }
        rest = others;
    }
    None
}
