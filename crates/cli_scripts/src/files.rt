//! Actions that read or write a file.

ghost use Rattle.std.specs.Prelude.{◌≡◌, ◌++◌, map, codes, IfOk};
ghost use Rattle.std.specs.Str.{str_eq_ignore_ascii_case};
ghost use Rattle.script_screens.specs.Lines.{failed, Says};
ghost use Rattle.cli_scripts.specs.Answers.{printed_text};
ghost use Rattle.cli_scripts.specs.PrintingSeen.{printing_seen};
ghost use Rattle.cli_scripts.specs.Says.{AsksLayout, WantsPage, is_empty, page_of, printed_or, printing_of, printing_with};

use crate::answer::Saying;
use crate::came::Need;
use crate::doing::{Doing, Step};
use script_screens::Outcome;
use std::alloc::{AllocError, Global};

/// What PrintText is asked for.
#[derive(Clone, Copy)]
pub(crate) enum Printing<'a> {
    /// The screen as data lines.
    Lines,
    /// The screen as a page in a file.
    Page(&'a [u8]),
    /// Neither: why, in words.
    Fault(&'a [u8]),
}

fn is_word(text: &[u8], word: &str) -> bool
    ensures { result ≡ str_eq_ignore_ascii_case text.now word.now }
{
    text.eq_ignore_ascii_case(word.as_bytes())
}

/// What comes after the word `html`: a file, which the word `file` may announce.
fn page_of(words: &[Vec<u8>]) -> Printing<'_>
    ensures { printing_seen result ≡ page_of (map (λ argument. argument.items) words.now) }
{
    match words {
        [announced, path] if is_word(announced, "file") => Printing::Page(path),
        [path] if !is_word(path, "file") => Printing::Page(path),
        _ => Printing::Fault(b"PrintText(): missing filename"),
    }
}

fn is_empty(words: &[Vec<u8>]) -> bool
    ensures { result ≡ is_empty (map (λ argument. argument.items) words.now) }
{
    match words {
        [] => true,
        [_, ..] => false,
    }
}

/// What PrintText is asked for by the word `html` and others, or by none that it knows.
fn page_or_fault<'a>(word: &'a [u8], words: &'a [Vec<u8>]) -> Printing<'a>
    ensures { printing_seen result
        ≡ printed_or word.now (map (λ argument. argument.items) words.now) }
{
    if is_word(word, "html") {
        page_of(words)
    } else {
        Printing::Fault(b"PrintText(): Parameter must be string or html")
    }
}

/// What PrintText is asked for by a word and others.
fn printing_with<'a>(word: &'a [u8], words: &'a [Vec<u8>]) -> Printing<'a>
    ensures { printing_seen result
        ≡ printing_with word.now (map (λ argument. argument.items) words.now) }
{
    if is_empty(words) && is_word(word, "string") {
        Printing::Lines
    } else {
        page_or_fault(word, words)
    }
}

/// What the arguments of PrintText ask for.
pub(crate) fn printing_of(arguments: &[Vec<u8>]) -> Printing<'_>
    ensures { printing_seen result
        ≡ printing_of (map (λ argument. argument.items) arguments.now) }
{
    match arguments {
        [] => Printing::Fault(b"PrintText(): Parameter must be string or html"),
        [word, words @ ..] => printing_with(word, words),
    }
}

/// Asks for the screen in a file.
pub(crate) fn write_page(alloc: Global, path: &[u8]) -> Result<Step, AllocError>
    ensures { IfOk result (λ step. WantsPage path.now step) }
{
    Ok(Step::Waits(Doing::Writing(path.to_vec(alloc)?), Need::Page))
}

/// Says why a file could not be written.
pub(crate) fn unwritten(
    alloc: Global,
    path: &[u8],
    why: &[u8],
    saying: &mut Saying,
) -> Result<Outcome, AllocError>
    ensures { IfOk result (λ outcome. Says saying.old saying.new outcome
        (failed (printed_text (codes "PrintText(): " ++ (path.now ++ (codes ": " ++ why.now)))))) }
{
    let mut text = Vec::new(alloc);
    text.extend_from_slice(b"PrintText(): ")?;
    text.extend_from_slice(path)?;
    text.extend_from_slice(b": ")?;
    text.extend_from_slice(why)?;
    saying.fail(alloc, &text)
}

/// Asks for the text of a layout.
pub(crate) fn read_layout(alloc: Global, arguments: &[Vec<u8>]) -> Result<Step, AllocError>
    ensures { IfOk result (λ step.
        AsksLayout (map (λ argument. argument.items) arguments.now) step) }
{
    match arguments {
        [path, ..] => Ok(Step::Waits(Doing::Checking(path.to_vec(alloc)?), Need::Layout)),
        [] => Ok(Step::Ended(Outcome::Done)),
    }
}
