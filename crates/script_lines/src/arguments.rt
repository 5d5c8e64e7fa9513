//! The arguments of an action.

ghost use Rattle.std.specs.Prelude.{◌≡◌, length, option_map, IfOk};
ghost use Rattle.script_lines.specs.Bytes.{is_of};
ghost use Rattle.script_lines.specs.Arguments.{plain_at, argument_at, next_at, arguments_within, between_parentheses, words_within, words_to_the_end};
ghost use Rattle.script_lines.specs.ArgumentsSeen.{arguments_seen, next_seen};

use crate::blanks::{Kind, after_blanks, length_of};
use crate::fault::SyntaxWhy;
use crate::quoted::unquoted;
use std::alloc::{AllocError, Global};

/// What comes of reading arguments.
#[derive(Drop)]
pub(crate) enum Arguments<'a> {
    /// Arguments, and what comes after them.
    Given(Vec<Vec<u8>>, &'a [u8]),
    /// What is wrong, and the bytes from there on.
    Stopped(SyntaxWhy, &'a [u8]),
}

fn owned(alloc: Global, bytes: &[u8]) -> Result<Vec<u8>, AllocError>
    ensures { IfOk result (λ copy. copy.items ≡ bytes.now) }
{
    let mut copy = Vec::new(alloc);
    copy.extend_from_slice(bytes)?;
    Ok(copy)
}

/// An argument that isn't quoted, and what comes after it.
fn plain(alloc: Global, kind: Kind, bytes: &[u8]) -> Result<(Vec<u8>, &[u8]), AllocError>
    ensures { IfOk result (λ parts. (parts.0.items, parts.1.now)
        ≡ plain_at (is_of kind) bytes.now) }
{
    let (argument, rest) = bytes.split_at(length_of(kind, bytes));
    Ok((owned(alloc, argument)?, rest))
}

/// The argument at the front, and what comes after it; none where its quote isn't closed.
fn argument(alloc: Global, kind: Kind, bytes: &[u8]) -> Result<Option<(Vec<u8>, &[u8])>, AllocError>
    ensures { IfOk result (λ found. option_map (λ parts. (parts.0.items, parts.1.now)) found
        ≡ argument_at (is_of kind) bytes.now) }
{
    match bytes {
        [0x22, text @ ..] => unquoted(alloc, text),
        _ => Ok(Some(plain(alloc, kind, bytes)?)),
    }
}

/// What comes after an argument between parentheses.
#[derive(Clone, Copy, Debug)]
pub(crate) enum Next<'a> {
    AtEnd,
    Comma(&'a [u8]),
    Closed(&'a [u8]),
    Other(&'a [u8]),
}

fn follower(bytes: &[u8]) -> Next<'_>
    ensures { next_seen result ≡ next_at bytes.now }
{
    match bytes {
        [] => Next::AtEnd,
        [0x2C, rest @ ..] => Next::Comma(rest),
        [0x29, rest @ ..] => Next::Closed(rest),
        _ => Next::Other(bytes),
    }
}

/// Arguments with commas between them, up to the closing parenthesis.
fn arguments_within(alloc: Global, bytes: &[u8]) -> Result<Arguments<'_>, AllocError>
    ensures { IfOk result (λ read. arguments_seen read
        ≡ arguments_within (length bytes.now) bytes.now) }
{
    let mut arguments = Vec::new(alloc);
    let mut rest = bytes;
    'turns: for _turn in 0..bytes.len() {
        let Some((argument, after)) = argument(alloc, Kind::Argument, rest)? else {
            return Ok(Arguments::Stopped(SyntaxWhy::Unclosed, &[]));
        };
        arguments.push(argument)?;
        match follower(after_blanks(after)) {
            Next::Comma(others) => rest = after_blanks(others),
            Next::Closed(others) => return Ok(Arguments::Given(arguments, others)),
            Next::AtEnd => return Ok(Arguments::Stopped(SyntaxWhy::Close, &[])),
            Next::Other(left) => return Ok(Arguments::Stopped(SyntaxWhy::CloseOrComma, left)),
        }
    }
    Ok(Arguments::Stopped(SyntaxWhy::Close, rest))
}

/// The arguments after an opening parenthesis and blanks.
pub(crate) fn between_parentheses(alloc: Global, bytes: &[u8]) -> Result<Arguments<'_>, AllocError>
    ensures { IfOk result (λ read. arguments_seen read ≡ between_parentheses bytes.now) }
{
    match bytes {
        [] => Ok(Arguments::Stopped(SyntaxWhy::Close, &[])),
        [0x29, rest @ ..] => Ok(Arguments::Given(Vec::new(alloc), rest)),
        _ => arguments_within(alloc, bytes),
    }
}

/// The words up to the end of a line.
pub(crate) fn words_to_the_end(alloc: Global, bytes: &[u8]) -> Result<Arguments<'_>, AllocError>
    ensures { IfOk result (λ read. arguments_seen read ≡ words_to_the_end bytes.now) }
{
    let mut words = Vec::new(alloc);
    let mut rest = bytes;
    'turns: for _turn in 0..bytes.len() {
        if rest.is_empty() {
            return Ok(Arguments::Given(words, &[]));
        }
        let Some((word, after)) = argument(alloc, Kind::Word, rest)? else {
            return Ok(Arguments::Stopped(SyntaxWhy::Unclosed, &[]));
        };
        words.push(word)?;
        rest = after_blanks(after);
    }
    if rest.is_empty() {
        return Ok(Arguments::Given(words, &[]));
    }
    Ok(Arguments::Stopped(SyntaxWhy::Close, rest))
}
