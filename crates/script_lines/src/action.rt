//! The action at the front of a line.

ghost use Rattle.std.specs.Prelude.{◌≡◌, [], IfOk};
ghost use Rattle.script_lines.specs.ArgumentsSeen.{arguments_seen};
ghost use Rattle.script_lines.specs.Actions.{action, fault_at, with_arguments, after_name, named, action_at, read_action};
ghost use Rattle.script_lines.specs.FoundSeen.{found_seen};

use crate::arguments::{Arguments, between_parentheses, words_to_the_end};
use crate::blanks::{Kind, after_blanks, is_blank, is_letter_or_digit, length_of};
use crate::fault::{SyntaxFault, SyntaxWhy};
use std::alloc::{AllocError, Global};

/// An action and its arguments.
#[derive(Debug, Drop)]
pub struct Action<'a> {
    /// Its name, as it was written.
    pub name: &'a [u8],
    /// Its arguments, without quotes.
    pub arguments: Vec<Vec<u8>>,
}

/// What stands at the front of a line.
#[derive(Debug, Drop)]
pub enum Found<'a> {
    /// Nothing more, or a comment.
    Ends,
    /// Something that is no action.
    Fault(SyntaxFault),
    /// An action, and what comes after it.
    Action(Action<'a>, &'a [u8]),
}

/// The fault at what is left of an action's line.
fn fault_at<'a>(line: &[u8], why: SyntaxWhy, left: &[u8]) -> Found<'a>
    ensures { found_seen result ≡ fault_at line.now why left.now }
{
    Found::Fault(SyntaxFault {
        why,
        column: line.len().saturating_sub(left.len()) + 1,
    })
}

/// An action without arguments, at the end of a line.
fn alone<'a>(alloc: Global, name: &'a [u8]) -> Found<'a>
    ensures { found_seen result ≡ action name.now [] [] }
{
    let action = Action {
        name,
        arguments: Vec::new(alloc),
    };
    Found::Action(action, &[])
}

fn with_arguments<'a>(line: &[u8], name: &'a [u8], read: Arguments<'a>) -> Found<'a>
    ensures { found_seen result ≡ with_arguments line.now name.now (arguments_seen read.entry) }
{
    match read {
        Arguments::Given(arguments, rest) => Found::Action(Action { name, arguments }, rest),
        Arguments::Stopped(why, left) => fault_at(line, why, left),
    }
}

/// The action with what comes after the blanks behind its name.
fn after_name<'a>(
    alloc: Global,
    line: &[u8],
    name: &'a [u8],
    rest: &'a [u8],
) -> Result<Found<'a>, AllocError>
    ensures { IfOk result (λ found. found_seen found ≡ after_name line.now name.now rest.now) }
{
    match rest {
        [] => Ok(alone(alloc, name)),
        [0x28, more @ ..] => {
            let read = between_parentheses(alloc, after_blanks(more))?;
            Ok(with_arguments(line, name, read))
        }
        _ => Ok(with_arguments(line, name, words_to_the_end(alloc, rest)?)),
    }
}

/// The action with what comes after its name.
fn named<'a>(
    alloc: Global,
    line: &[u8],
    name: &'a [u8],
    rest: &'a [u8],
) -> Result<Found<'a>, AllocError>
    ensures { IfOk result (λ found. found_seen found ≡ named line.now name.now rest.now) }
{
    match rest {
        [] => Ok(alone(alloc, name)),
        [byte, ..] => {
            if is_blank(*byte) || *byte == 0x28 {
                after_name(alloc, line, name, after_blanks(rest))
            } else {
                Ok(fault_at(line, SyntaxWhy::BadName, rest))
            }
        }
    }
}

/// The action that begins here.
fn action_at<'a>(alloc: Global, line: &'a [u8]) -> Result<Found<'a>, AllocError>
    ensures { IfOk result (λ found. found_seen found ≡ action_at line.now) }
{
    match line {
        [] => Ok(Found::Ends),
        [byte, ..] => {
            if *byte == 0x23 || *byte == 0x21 {
                return Ok(Found::Ends);
            }
            if !is_letter_or_digit(*byte) {
                return Ok(fault_at(line, SyntaxWhy::NoName, line));
            }
            let (name, rest) = line.split_at(length_of(Kind::Name, line));
            named(alloc, line, name, rest)
        }
    }
}

/// The action at the front of a line, as s3270 4.1 reads lines of a script. A name is of letters, digits, `_` and `-` and begins with a letter
/// or a digit; arguments stand between parentheses with commas between them, or as words up to the line's end. A text between
/// quotes has `\"` for a quote, and `\\"` for a backslash at its end. `#` and `!` begin a comment. Blanks are the space, tab, carriage
/// return, vertical tab and form feed. An action that is at fault is told only when it is its turn, so those before it are done.
pub fn next_action<'a>(alloc: Global, line: &'a [u8]) -> Result<Found<'a>, AllocError>
    ensures { IfOk result (λ found. found_seen found ≡ read_action line.now) }
{
    action_at(alloc, after_blanks(line))
}
