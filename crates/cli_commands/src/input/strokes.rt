//! Lines of strokes.

ghost use Rattle.std.specs.Prelude.{◌≡◌, IfSome};
ghost use Rattle.ds_strokes.specs.Lines.{stroke_of};
ghost use Rattle.cli_commands.specs.Causes.{ToldBy};
ghost use Rattle.cli_commands.specs.Fault.{Finds, Gives, GivesOrFails};
ghost use Rattle.cli_commands.specs.Strokes.{stroke_or_bad, stroke_told, one_more, after_stroke_line, take_stroke, strokes_in};
ghost use Rattle.cli_commands.specs.Taking.{taken_in};
ghost use Rattle.cli_commands.specs.Held.{stroke_line_seen, strokes_seen};

use crate::fault::{CommandError, Fault};
use crate::input::lines::{TakesLines, is_ignored, text_of};
use crate::input::source::{Source, Text};
use ds_strokes::{Stroke, stroke_of_line};
use std::alloc::Global;

/// The most strokes of an input.
const MOST_STROKES: usize = 100_000;

/// What one line tells.
#[derive(Clone, Copy)]
pub enum StrokeLine {
    Ignored,
    Named(Stroke),
    Bad,
}

/// The strokes that lines name.
#[derive(Debug, Drop)]
pub struct Strokes {
    pub strokes: Vec<Stroke>,
}

/// The stroke that a text names.
fn named(text: &str) -> StrokeLine
    ensures { stroke_line_seen result ≡ stroke_or_bad (stroke_of text.now) }
{
    match stroke_of_line(text) {
        Some(stroke) => StrokeLine::Named(stroke),
        None => StrokeLine::Bad,
    }
}

/// What a line tells; its spaces count.
fn line_told(line: &[u8]) -> StrokeLine
    ensures { stroke_line_seen result ≡ stroke_told line.now }
{
    match text_of(line) {
        Some(_) if is_ignored(line) => StrokeLine::Ignored,
        Some(text) => named(text),
        None => StrokeLine::Bad,
    }
}

/// One more stroke.
fn add(told: &mut Strokes, stroke: Stroke) -> Result<(), CommandError>
    ensures { Finds (λ done. strokes_seen told.new) result
        (one_more (strokes_seen told.old) stroke) }
{
    if told.strokes.len() >= MOST_STROKES {
        return Err(CommandError::Fault(Fault::TooLong));
    }
    // Each by its name: so the borrow checker is told of the key within.
    match stroke {
        Stroke::Key(key) => Ok(told.strokes.push(Stroke::Key(key))?),
        Stroke::Insert => Ok(told.strokes.push(Stroke::Insert)?),
        Stroke::Dup => Ok(told.strokes.push(Stroke::Dup)?),
        Stroke::FieldMark => Ok(told.strokes.push(Stroke::FieldMark)?),
    }
}

/// What the line of a number adds.
fn add_line(told: &mut Strokes, number: usize, line: StrokeLine) -> Result<(), CommandError>
    ensures { Finds (λ done. strokes_seen told.new) result
        (after_stroke_line number (strokes_seen told.old) (stroke_line_seen line)) }
{
    match line {
        StrokeLine::Ignored => Ok(()),
        StrokeLine::Named(stroke) => add(told, stroke),
        StrokeLine::Bad => Err(CommandError::Fault(Fault::BadKeyLine(number))),
    }
}

impl TakesLines for Strokes {
    ghost takes = { λ number told line result. Gives strokes_seen result (take_stroke number (strokes_seen told) line) };

    fn take(&mut self, _alloc: Global, number: usize, line: &[u8]) -> Result<(), CommandError> {
        add_line(self, number, line_told(line))
    }
}

/// The strokes that the lines of a source add, or their first fault.
fn take_strokes<S: Source>(
    alloc: Global,
    source: &mut S,
    none: Strokes,
) -> Result<Strokes, CommandError>
    ensures added { IfSome (S.remaining source.old) (λ input. GivesOrFails strokes_seen result
        (taken_in take_stroke (strokes_seen none) input)) }
    ensures cause { ToldBy (S.failures source.old) (S.failures source.new) result }
{
    source.take_lines(alloc, none)
}

/// The strokes of an input, or the first fault of its lines.
pub fn read_strokes<S: Source>(alloc: Global, source: &mut S) -> Result<Strokes, CommandError>
    ensures strokes { IfSome (S.remaining source.old)
        (λ input. GivesOrFails strokes_seen result (strokes_in input)) }
    ensures cause { ToldBy (S.failures source.old) (S.failures source.new) result }
{
    let none = Strokes {
        strokes: Vec::new(alloc),
    };
    take_strokes(alloc, source, none)
}

/// The strokes of a text, or the first fault of its lines.
pub fn strokes_in(alloc: Global, text: &[u8]) -> Result<Strokes, CommandError>
    ensures { Gives strokes_seen result (strokes_in text.now) }
{
    read_strokes(alloc, &mut Text(text))
}
