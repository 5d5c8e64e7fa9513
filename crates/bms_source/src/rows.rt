//! The lines of a statement.

ghost use Rattle.std.specs.Prelude.{◌≡◌, ◌≤◌, ◌<◌, ◌+◌, ◌^◌, map, length, IfOk};
ghost use Rattle.bms_source.specs.declared.columns.Part.TheVariants.{First};
ghost use Rattle.bms_source.specs.Columns.{is_marked};
ghost use Rattle.bms_source.specs.Results.{Gives};
ghost use Rattle.bms_source.specs.Rows.{letters_from, row_of, rows_from};

use crate::columns::{Part, good_columns, is_marked, text_of};
use crate::letter::{Letter, Place};
use crate::refusal::SourceError;
use std::alloc::{AllocError, Global};
use std::marker::Model;

/// Columns 1 to 71 of a line, as far as it goes.
#[derive(Drop)]
pub(crate) struct Row {
    pub(crate) number: usize,
    pub(crate) letters: Vec<Letter>,
}

impl Model for Row {
    ghost use Rattle.bms_source.specs.Rows.{Line};

    ghost Value = { Line };

    ghost view = { λ r. record { number = r.number; letters = r.letters.items } };
}

/// The characters of the line of a number.
fn letters_of(alloc: Global, line: usize, text: &[u8]) -> Result<Vec<Letter>, AllocError>
    requires { length text.now < 2 ^ 63 }
    ensures { IfOk result (λ letters. letters.items ≡ letters_from line 1 text.now) }
{
    let mut letters = Vec::with_capacity(alloc, text.len())?;
    let mut column = 1usize;
    let mut rest = text;
    while let [code, others @ ..] = rest {
        letters.push(Letter {
            code: *code,
            place: Place { line, column },
        })?;
        column += 1;
        rest = others;
    }
    Ok(letters)
}

/// The row of a line, and whether the statement goes on.
#[tactic(auto, unfolding(crate::specs::Rows::row_of))]
fn row_of(
    alloc: Global,
    number: usize,
    part: Part,
    is_last: bool,
    line: &[u8],
) -> Result<(Row, bool), SourceError>
    ensures { Gives (λ found. found) result (row_of number part is_last line.now) }
{
    let columns = good_columns(alloc, number, part, is_last, line)?;
    let letters = letters_of(alloc, number, text_of(&columns))?;
    Ok((Row { number, letters }, is_marked(&columns)))
}

/// The lines of the statement at the front.
pub(crate) fn rows_of(alloc: Global, first: usize, lines: &[&[u8]]) -> Result<Vec<Row>, SourceError>
    requires { first + length lines.now < 2 ^ 63 }
    ensures rows { Gives (λ rows. rows.items) result
        (rows_from First first (map (λ line. line.now) lines.now)) }
    ensures few { IfOk result (λ rows. length rows.items ≤ length lines.now) }
    ensures some { 0 < length lines.now → IfOk result (λ rows. 0 < length rows.items) }
{
    let mut rows = Vec::new(alloc);
    let mut rest = lines;
    let mut part = Part::First;
    let mut number = first;
    while let [line, others @ ..] = rest {
        let (row, is_marked) = row_of(alloc, number, part, others.is_empty(), line)?;
        rows.push(row)?;
        if !is_marked {
            return Ok(rows);
        }
        part = Part::Later;
        number += 1;
        rest = others;
    }
    Ok(rows)
}
