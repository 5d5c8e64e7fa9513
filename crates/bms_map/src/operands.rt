//! The operands of a macro, judged one after the other.

ghost use Rattle.std.specs.Prelude.{◌≡◌, IfOk};
ghost use Rattle.std.specs.List.{list_any};
ghost use Rattle.bms_source.specs.Results.{Gives};
ghost use Rattle.bms_map.specs.Values.{number_within};
ghost use Rattle.bms_map.specs.Lists.{are_same};
ghost use Rattle.bms_map.specs.Texts.{seen};
ghost use Rattle.bms_map.specs.Operands.{absent, error_in, is_repeated, is_group, unless_good, value_fault, text_read, judge_why, judge_text, judge_value, judge_keyword, judge, operands_of};

use crate::keyword::{Keyword, keyword_of};
use crate::list::{
    are_same, attributes_fault, controls_fault, outlines_fault, places_fault, validations_fault,
    words_of,
};
use crate::refuse::refused;
use crate::text::{Text, digits_of, string_of};
use crate::values::{
    MOST_LENGTH, MOST_OCCURRENCES, color_of, first_of, highlight_of, kind_of, number_within, only,
    only_base, only_terminals, pos_of, size_of,
};
use bms_source::{Letter, Operation, SourceError, Why, is_symbol, next_operand, upper_word};
use std::alloc::{AllocError, Global};
use std::marker::Model;

/// An operand: its keyword and its value.
#[derive(Drop)]
pub(crate) struct Setting<'a> {
    pub(crate) keyword: &'a [Letter],
    pub(crate) value: &'a [Letter],
}

impl<'a> Model for Setting<'a> {
    ghost use Rattle.bms_map.specs.Operands.{Given};

    ghost Value = { Given };

    ghost view = { λ s. record { keyword = s.keyword.now; value = s.value.now } };
}

/// A value that there isn't is bad.
fn absent(is_there: bool) -> Option<Why>
    ensures { result ≡ unless_good is_there }
{
    if is_there { None } else { Some(Why::BadValue) }
}

fn error_in(value: Result<u8, Why>) -> Option<Why>
    ensures { result ≡ error_in value }
{
    match value {
        Ok(_) => None,
        Err(why) => Some(why),
    }
}

/// Whether letters are a symbol of at most 30 characters.
fn is_group(value: &[Letter]) -> bool
    ensures { result ≡ is_group value.now }
{
    is_symbol(value) && value.len() <= 30
}

fn kind_fault(value: &[Letter]) -> Option<Why>
    ensures { result ≡ value_fault Keyword.Kind value.now }
{
    absent(kind_of(value).is_some())
}

fn color_fault(value: &[Letter]) -> Option<Why>
    ensures { result ≡ value_fault Keyword.Color value.now }
{
    absent(color_of(value).is_some())
}

fn highlight_fault(value: &[Letter]) -> Option<Why>
    ensures { result ≡ value_fault Keyword.Highlight value.now }
{
    absent(highlight_of(value).is_some())
}

fn size_fault(value: &[Letter]) -> Option<Why>
    ensures { result ≡ value_fault Keyword.Size value.now }
{
    absent(size_of(value).is_some())
}

fn pos_fault(value: &[Letter]) -> Option<Why>
    ensures { result ≡ value_fault Keyword.Pos value.now }
{
    absent(pos_of(value).is_some())
}

fn number_fault(value: &[Letter], least: u32, most: u32) -> Option<Why>
    ensures { result ≡ absent (number_within value.now least most) }
{
    absent(number_within(value, least, most).is_some())
}

fn attribute_fault(alloc: Global, value: &[Letter]) -> Result<Option<Why>, AllocError>
    ensures { IfOk result (λ fault. fault ≡ value_fault Keyword.Attribute value.now) }
{
    let words = words_of(alloc, value)?;
    Ok(attributes_fault(&words))
}

fn control_fault(alloc: Global, value: &[Letter]) -> Result<Option<Why>, AllocError>
    ensures { IfOk result (λ fault. fault ≡ value_fault Keyword.Control value.now) }
{
    let words = words_of(alloc, value)?;
    Ok(controls_fault(&words))
}

fn validation_fault(alloc: Global, value: &[Letter]) -> Result<Option<Why>, AllocError>
    ensures { IfOk result (λ fault. fault ≡ value_fault Keyword.Validation value.now) }
{
    let words = words_of(alloc, value)?;
    Ok(validations_fault(&words))
}

fn outline_fault(alloc: Global, value: &[Letter]) -> Result<Option<Why>, AllocError>
    ensures { IfOk result (λ fault. fault ≡ value_fault Keyword.Outline value.now) }
{
    let words = words_of(alloc, value)?;
    Ok(outlines_fault(&words))
}

fn justify_fault(alloc: Global, value: &[Letter]) -> Result<Option<Why>, AllocError>
    ensures { IfOk result (λ fault. fault ≡ value_fault Keyword.Justify value.now) }
{
    let words = words_of(alloc, value)?;
    Ok(places_fault(&words))
}

/// What is wrong with a value that is no text.
fn value_fault(alloc: Global, keyword: Keyword, value: &[Letter]) -> Result<Option<Why>, AllocError>
    ensures { IfOk result (λ fault. fault ≡ value_fault keyword value.now) }
{
    match keyword {
        Keyword::Kind => Ok(kind_fault(value)),
        Keyword::Color => Ok(color_fault(value)),
        Keyword::Highlight => Ok(highlight_fault(value)),
        Keyword::Size => Ok(size_fault(value)),
        Keyword::Line => Ok(error_in(first_of(value))),
        Keyword::Column => Ok(error_in(first_of(value))),
        Keyword::Pos => Ok(pos_fault(value)),
        Keyword::Length => Ok(number_fault(value, 0, MOST_LENGTH)),
        Keyword::Occurs => Ok(number_fault(value, 1, MOST_OCCURRENCES)),
        Keyword::Group => Ok(absent(is_group(value))),
        Keyword::Symbols => Ok(only_base(value)),
        Keyword::Terminal => Ok(only_terminals(value)),
        Keyword::NotYes => Ok(only(value, b"NO", b"YES")),
        Keyword::NotBlock => Ok(only(value, b"FIELD", b"BLOCK")),
        Keyword::Unmodelled => Ok(Some(Why::Unsupported)),
        Keyword::Attribute => attribute_fault(alloc, value),
        Keyword::Control => control_fault(alloc, value),
        Keyword::Validation => validation_fault(alloc, value),
        Keyword::Outline => outline_fault(alloc, value),
        Keyword::Justify => justify_fault(alloc, value),
        Keyword::Initial => Ok(None),
        Keyword::HexInitial => Ok(None),
        Keyword::PictureIn => Ok(None),
        Keyword::PictureOut => Ok(None),
        Keyword::Ignored => Ok(None),
    }
}

fn judge_why(alloc: Global, keyword: &[Letter], fault: Option<Why>) -> Result<(), SourceError>
    ensures { Gives (λ done. done) result (judge_why keyword.now fault) }
{
    match fault {
        None => Ok(()),
        Some(why) => Err(refused(alloc, why, keyword)?),
    }
}

fn judge_text(alloc: Global, keyword: &[Letter], text: Text) -> Result<(), SourceError>
    ensures { Gives (λ done. done) result (judge_text keyword.now (seen text)) }
{
    match text {
        Text::Codes(_codes) => Ok(()),
        Text::NoText => Err(refused(alloc, Why::BadValue, keyword)?),
        Text::Bad(place) => {
            let word = upper_word(alloc, keyword)?;
            Err(SourceError::with_word(Why::BadCharacter, word, place))
        }
    }
}

/// A text of INITIAL or XINIT; of another operand an empty one.
fn text_read(alloc: Global, keyword: Keyword, value: &[Letter]) -> Result<Text, AllocError>
    ensures { IfOk result (λ text. seen text ≡ text_read keyword value.now) }
{
    match keyword {
        Keyword::Initial => string_of(alloc, value),
        Keyword::HexInitial => digits_of(alloc, value),
        _ => Ok(Text::Codes(Vec::new(alloc))),
    }
}

#[tactic(auto, unfolding(crate::specs::Operands::judge_value))]
fn judge_value(alloc: Global, keyword: Keyword, given: &Setting<'_>) -> Result<(), SourceError>
    ensures { Gives (λ done. done) result (judge_value keyword given.now) }
{
    let text = text_read(alloc, keyword, given.value)?;
    judge_text(alloc, given.keyword, text)?;
    let fault = value_fault(alloc, keyword, given.value)?;
    judge_why(alloc, given.keyword, fault)
}

/// Whether a keyword stands among operands.
fn is_among(before: &[Setting<'_>], keyword: &[Letter]) -> bool
    ensures { result ≡ is_repeated before.now keyword.now }
{
    let mut rest = before;
    while let [other, others @ ..] = rest {
        if are_same(other.keyword, keyword) {
            return true;
        }
        rest = others;
    }
    false
}

fn judge_keyword(
    alloc: Global,
    before: &[Setting<'_>],
    given: &Setting<'_>,
    keyword: Option<Keyword>,
) -> Result<(), SourceError>
    ensures { Gives (λ done. done) result (judge_keyword before.now given.now keyword) }
{
    let Some(keyword) = keyword else {
        return Err(refused(alloc, Why::UnknownOperand, given.keyword)?);
    };
    if is_among(before, given.keyword) {
        return Err(refused(alloc, Why::OperandTwice, given.keyword)?);
    }
    judge_value(alloc, keyword, given)
}

/// An operand behind those before it.
#[tactic(auto, unfolding(crate::specs::Operands::judge))]
fn judge(
    alloc: Global,
    operation: Operation,
    before: &[Setting<'_>],
    given: &Setting<'_>,
) -> Result<(), SourceError>
    ensures { Gives (λ done. done) result (judge operation before.now given.now) }
{
    judge_keyword(alloc, before, given, keyword_of(operation, given.keyword))
}

/// The operands of a macro, or the first that is refused.
pub(crate) fn operands_of<'a>(
    alloc: Global,
    operation: Operation,
    letters: &'a [Letter],
) -> Result<Vec<Setting<'a>>, SourceError>
    ensures { Gives (λ operands. operands.items) result (operands_of operation letters.now) }
{
    let mut told = Vec::new(alloc);
    let mut rest = letters;
    while let [first, ..] = rest {
        let (operand, others) = next_operand(alloc, *first, rest)?;
        let given = Setting {
            keyword: operand.keyword,
            value: operand.value,
        };
        judge(alloc, operation, &told, &given)?;
        told.push(given)?;
        rest = others;
    }
    Ok(told)
}
