//! Operands over several lines.

ghost use Rattle.std.specs.Prelude.{◌≡◌, drop, OnOk, IfOk, Ok};
ghost use Rattle.bms_source.specs.Gathered.{from_16, first_other, is_comma, last_of, follows_comma, goes_on, with_text, judge_16, judged_16, with_row, judge_comma, judge_end, judge_later, begun, operands_of};
ghost use Rattle.bms_source.specs.Results.{Gives};

use crate::letter::{Letter, Place};
use crate::refusal::{SourceError, Why};
use crate::rows::Row;
use crate::scan::{open_parenthesis, open_string, taken};
use std::alloc::{AllocError, Global};
use std::marker::Model;

/// Operands so far.
#[derive(Drop)]
struct Gathered {
    letters: Vec<Letter>,
    /// They end inside a string.
    quoted: bool,
    /// They reach the edge of their line.
    at_edge: bool,
}

impl Model for Gathered {
    ghost use Rattle.bms_source.specs.Gathered.{Part};

    ghost Value = { Part };

    ghost view = { λ g. record { letters = g.letters.items; quoted = g.quoted; at_edge = g.at_edge } };
}

/// The letters from column 16 on.
fn from_16(row: &Row) -> &[Letter]
    ensures { result.now ≡ from_16 row.now }
{
    if row.letters.len() > 15 {
        &row.letters[15..]
    } else {
        &[]
    }
}

fn first_other(letters: &[Letter]) -> Option<Place>
    ensures { result ≡ first_other letters.now }
{
    let mut rest = letters;
    while let [letter, others @ ..] = rest {
        if letter.code != b' ' {
            return Some(letter.place);
        }
        rest = others;
    }
    None
}

/// The last letter.
fn last_of(letters: &[Letter]) -> Option<Letter>
    ensures { result ≡ last_of letters.now }
{
    letters.last().copied()
}

fn is_comma(letter: Option<Letter>) -> bool
    ensures { result ≡ is_comma letter }
{
    match letter {
        Some(letter) => letter.code == b',',
        None => false,
    }
}

impl Gathered {
    fn follows_comma(&self) -> bool
        ensures { result ≡ follows_comma self.now }
    {
        !self.quoted && is_comma(last_of(self.letters.as_slice()))
    }

    fn goes_on(&self) -> bool
        ensures { result ≡ goes_on self.now }
    {
        self.at_edge || self.follows_comma()
    }

    /// Takes what a line has of the operands.
    fn take(&mut self, text: &[Letter]) -> Result<(), AllocError>
        ensures { OnOk result (self.new ≡ with_text self.old text.now) }
    {
        let (count, quoted) = taken(text, self.quoted);
        self.letters.extend_from_slice(&text[..count])?;
        self.quoted = quoted;
        self.at_edge = count == text.len();
        Ok(())
    }
}

/// Column 16 has to have text after a comma.
fn judge_16(alloc: Global, row: &Row) -> Result<(), SourceError>
    ensures { Gives (λ done. done) result (judge_16 row.now) }
{
    let text = from_16(row);
    match text {
        [first, ..] if first.code != b' ' => Ok(()),
        _ => {
            let none = Place {
                line: row.number,
                column: 16,
            };
            Err(SourceError::at(alloc, Why::Column16, first_other(text).unwrap_or(none)))
        }
    }
}

fn judged_16(alloc: Global, gathered: &Gathered, row: &Row) -> Result<(), SourceError>
    ensures { Gives (λ done. done) result (judged_16 gathered.now row.now) }
{
    if gathered.follows_comma() {
        judge_16(alloc, row)
    } else {
        Ok(())
    }
}

/// Takes a further line.
#[tactic(auto, unfolding(crate::specs::Gathered::with_row))]
fn take_row(alloc: Global, gathered: &mut Gathered, row: &Row) -> Result<(), SourceError>
    ensures { Gives (λ done. gathered.new) result (with_row gathered.old row.now) }
{
    judged_16(alloc, gathered, row)?;
    gathered.take(from_16(row))?;
    Ok(())
}

fn judge_comma(alloc: Global, letter: Option<Letter>) -> Result<(), SourceError>
    ensures { Gives (λ done. done) result (judge_comma letter) }
{
    match letter {
        None => Ok(()),
        Some(letter) => {
            if letter.code == b',' {
                Err(SourceError::at(alloc, Why::Comma, letter.place))
            } else {
                Ok(())
            }
        }
    }
}

/// A string, a comma or a parenthesis that is open at the end.
#[tactic(auto, unfolding(crate::specs::Gathered::judge_end))]
fn judge_end(alloc: Global, letters: &[Letter]) -> Result<(), SourceError>
    ensures { Gives (λ done. done) result (judge_end letters.now) }
{
    if let Some(place) = open_string(letters) {
        return Err(SourceError::at(alloc, Why::Unended, place));
    }
    judge_comma(alloc, last_of(letters))?;
    match open_parenthesis(letters) {
        Some(place) => Err(SourceError::at(alloc, Why::Unended, place)),
        None => Ok(()),
    }
}

/// The lines after the operands have to be blank.
fn judge_later(alloc: Global, rows: &[Row]) -> Result<(), SourceError>
    ensures { Gives (λ done. done) result (judge_later rows.now) }
{
    let mut rest = rows;
    while let [row, others @ ..] = rest {
        if let Some(place) = first_other(from_16(row)) {
            return Err(SourceError::at(alloc, Why::AfterOperands, place));
        }
        rest = others;
    }
    Ok(())
}

/// What a statement's first line has of its operands.
fn begun(alloc: Global, text: &[Letter]) -> Result<Gathered, AllocError>
    ensures { IfOk result (λ gathered. gathered ≡ begun text.now) }
{
    let mut gathered = Gathered {
        letters: Vec::new(alloc),
        quoted: false,
        at_edge: false,
    };
    if !text.is_empty() {
        gathered.take(text)?;
    }
    Ok(gathered)
}

/// The operands of a statement, of whose first line this text belongs to them, and which has these further lines.
#[tactic(auto, unfolding(crate::specs::Gathered::operands_of))]
pub(crate) fn operands_of(
    alloc: Global,
    text: &[Letter],
    rows: &[Row],
) -> Result<Vec<Letter>, SourceError>
    ensures { Gives (λ letters. letters.items) result (operands_of text.now rows.now) }
{
    let mut gathered = begun(alloc, text)?;
    let mut rest = rows;
    while let [row, others @ ..] = rest {
        if !gathered.goes_on() {
            break;
        }
        take_row(alloc, &mut gathered, row)?;
        rest = others;
    }
    judge_end(alloc, gathered.letters.as_slice())?;
    judge_later(alloc, rest)?;
    Ok(gathered.letters)
}
