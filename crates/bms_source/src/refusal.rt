//! What is refused of a source.

ghost use Rattle.std.specs.Prelude.{◌≡◌, ◌++◌, [], ◌∷◌, OnOk, if◌then◌else◌, ◌==◌, length};
ghost use Rattle.std.specs.String.{string_bytes};
ghost use Rattle.bms_source.specs.Told.{why_words, place_words};

use crate::letter::Place;
use std::alloc::{AllocError, AllocFailed, Global};
use std::marker::Model;

/// Why a source is refused. The first thirteen are of its form, the others of what its macros say.
#[derive(Clone, Copy, Debug, PartialEq, Eq)]
pub enum Why {
    /// A line that is no UTF-8.
    NotText,
    Tab,
    /// A character other than a blank after column 80.
    LineTooLong,
    /// Text in columns 1 to 15 of a continuation line.
    BadContinuation,
    /// A mark in column 72 of a blank line, or of the last one.
    BadMark,
    /// A label that is no symbol, or too long.
    BadLabel,
    MissingLabel,
    UnknownOperation,
    /// A string or a parenthesis without its end.
    Unended,
    /// A comma after which nothing comes.
    Comma,
    /// Text on a line after the operands ended.
    AfterOperands,
    /// A blank in column 16 after a comma.
    Column16,
    /// An operand that is no keyword with a value.
    BadOperand,
    UnknownOperand,
    OperandTwice,
    Unsupported,
    BadValue,
    BadCharacter,
    Conflict,
    MissingOperand,
    OutOfOrder,
    NoFinal,
    NameTwice,
    PosOutside,
    PosTwice,
    TooLong,
    NoScreen,
    BadGroup,
    TooMuch,
    NoSuchMap,
    SeveralMaps,
}

impl Why {
    /// The number and the words, as `R2 Tab`.
    pub fn words(self) -> &'static str
        ensures { result.now ≡ why_words self }
    {
        match self {
            Why::NotText => "R1 NotText",
            Why::Tab => "R2 Tab",
            Why::LineTooLong => "R3 LineTooLong",
            Why::BadContinuation => "R4 BadContinuation",
            Why::BadMark => "R5 BadMark",
            Why::BadLabel => "R6 BadLabel",
            Why::MissingLabel => "R7 MissingLabel",
            Why::UnknownOperation => "R8 UnknownOperation",
            Why::Unended => "R9 Unended",
            Why::Comma => "R10 Comma",
            Why::AfterOperands => "R11 AfterOperands",
            Why::Column16 => "R12 Column16",
            Why::BadOperand => "R13 BadOperand",
            Why::UnknownOperand => "R14 UnknownOperand",
            Why::OperandTwice => "R15 OperandTwice",
            Why::Unsupported => "R16 Unsupported",
            Why::BadValue => "R17 BadValue",
            Why::BadCharacter => "R18 BadCharacter",
            Why::Conflict => "R19 Conflict",
            Why::MissingOperand => "R20 MissingOperand",
            Why::OutOfOrder => "R21 OutOfOrder",
            Why::NoFinal => "R22 NoFinal",
            Why::NameTwice => "R23 NameTwice",
            Why::PosOutside => "R24 PosOutside",
            Why::PosTwice => "R25 PosTwice",
            Why::TooLong => "R26 TooLong",
            Why::NoScreen => "R27 NoScreen",
            Why::BadGroup => "R28 BadGroup",
            Why::TooMuch => "R29 TooMuch",
            Why::NoSuchMap => "R30 NoSuchMap",
            Why::SeveralMaps => "R31 SeveralMaps",
        }
    }
}

/// The first thing wrong with a source: why, with a word where one tells more, and where it stands.
#[derive(Debug, Drop)]
pub struct Refusal {
    pub why: Why,
    /// In upper case; empty where there is none.
    pub word: Vec<u8>,
    pub place: Option<Place>,
}

impl Model for Refusal {
    ghost use Rattle.bms_source.specs.Told.{Told};

    ghost Value = { Told };

    ghost view = { λ r. record { why = r.why; word = r.word.items; place = r.place } };
}

/// Why a source has no reading.
#[derive(Debug, Drop)]
pub enum SourceError {
    Refused(Refusal),
    /// A request for memory was refused.
    OutOfMemory,
}

impl From<AllocError> for SourceError {
    ghost use Rattle.std.specs.Prelude.{◌≡◌};
    ghost use Rattle.bms_source.specs.declared.refusal.SourceError.TheVariants.{OutOfMemory};

    ghost from_gives = { λ _ e. e ≡ OutOfMemory };

    fn from(_e: AllocError) -> SourceError {
        SourceError::OutOfMemory
    }
}

impl<T: Drop> From<AllocFailed<T>> for SourceError {
    ghost use Rattle.std.specs.Prelude.{◌≡◌};
    ghost use Rattle.bms_source.specs.declared.refusal.SourceError.TheVariants.{OutOfMemory};

    ghost from_gives = { λ _ e. e ≡ OutOfMemory };

    fn from(_e: AllocFailed<T>) -> SourceError {
        SourceError::OutOfMemory
    }
}

impl SourceError {
    ghost use Rattle.std.specs.Prelude.{◌≡◌};
    ghost use Rattle.bms_source.specs.Told.{told_at, told_with};

    /// A refusal without a word.
    pub fn at(alloc: Global, why: Why, place: Place) -> SourceError
        ensures { result ≡ SourceError.Refused (told_at why place) }
    {
        SourceError::Refused(Refusal {
            why,
            word: Vec::new(alloc),
            place: Some(place),
        })
    }

    /// A refusal with a word.
    pub fn with_word(why: Why, word: Vec<u8>, place: Place) -> SourceError
        ensures { result ≡ SourceError.Refused (told_with why word.items place) }
    {
        SourceError::Refused(Refusal {
            why,
            word,
            place: Some(place),
        })
    }
}

impl Refusal {
    ghost use Rattle.std.specs.Prelude.{◌≡◌, ◌++◌, OnOk};
    ghost use Rattle.std.specs.String.{string_bytes};
    ghost use Rattle.bms_source.specs.Printed.{refusal_text};

    /// Adds `R14 UnknownOperand LEN at line 3 column 27`, without the word or the place where there is none.
    ///
    /// # Errors
    ///
    /// Where a request for memory was refused.
    pub fn push_text(&self, out: &mut String) -> Result<(), AllocError>
        ensures { OnOk result
            (string_bytes out.new ≡ string_bytes out.old ++ refusal_text self.now) }
    {
        out.push_str(self.why.words())?;
        push_word(out, self.word.as_slice())?;
        match self.place {
            Some(place) => push_place(out, place),
            None => Ok(()),
        }
    }
}

ghost use Rattle.std.specs.Prelude.{Some};
ghost use Rattle.bms_source.specs.Printed.{printed_codes, word_text, place_text};

/// Adds the characters of these codes.
///
/// # Errors
///
/// Where a request for memory was refused.
pub fn push_codes(out: &mut String, codes: &[u8]) -> Result<(), AllocError>
    ensures { OnOk result
        (string_bytes out.new ≡ string_bytes out.old ++ printed_codes codes.now) }
{
    for code in codes {
        out.push(char::from(*code))?;
    }
    Ok(())
}

fn push_word(out: &mut String, word: &[u8]) -> Result<(), AllocError>
    ensures { OnOk result (string_bytes out.new ≡ string_bytes out.old ++ word_text word.now) }
{
    if word.is_empty() {
        return Ok(());
    }
    out.push_str(" ")?;
    push_codes(out, word)
}

fn push_place(out: &mut String, place: Place) -> Result<(), AllocError>
    ensures { OnOk result
        (string_bytes out.new ≡ string_bytes out.old ++ place_text (Some place)) }
{
    let Place { line, column } = place;
    write!(out, " at line {line} column {column}")
}
