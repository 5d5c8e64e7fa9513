//! The sentence of a line that is refused.

ghost use Rattle.std.specs.Prelude.{◌≡◌, ◌++◌, ◌<◌, ◌^◌, length, map, IfOk, OnOk};
ghost use Rattle.std.specs.Option.{option_map};
ghost use Rattle.std.specs.String.{string_bytes};
ghost use Rattle.cli_reasons.specs.Flaw.{why_text};
ghost use Rattle.cli_reasons.specs.Shown.{quoted};
ghost use Rattle.cli_reasons.specs.Sentence.{near_text, unknown_text, form_text, other_form_text, text_reason, reason_text, place_of, sentence};

use crate::flaw::{Flaw, Limit, Why};
use crate::head::{Place, push_head};
use crate::near::nearest;
use crate::order_line::{first_word, form_of};
use crate::shown::push_quoted;
use crate::text::checked;
use crate::words::{key_words, order_words, stroke_words};
use std::alloc::{AllocError, Global};

/// Pushes words, and a text between quotes after them.
fn push_before(out: &mut String, words: &str, text: &[u8]) -> Result<(), AllocError>
    ensures { OnOk result (string_bytes out.new
        ≡ string_bytes out.old ++ (words.now ++ quoted text.now)) }
{
    out.push_str(words)?;
    push_quoted(out, text)
}

/// Pushes the nearest word, where there is one.
fn push_near(out: &mut String, near: Option<&'static str>) -> Result<(), AllocError>
    ensures { OnOk result (string_bytes out.new
        ≡ string_bytes out.old ++ near_text (option_map (λ word. word.now) near.entry)) }
{
    match near {
        Some(word) => push_before(out, "; the nearest is ", word.as_bytes()),
        None => Ok(()),
    }
}

/// Pushes words, a text between quotes, and the nearest word, where there is one.
pub(crate) fn push_with_near(
    out: &mut String,
    words: &str,
    text: &[u8],
    near: Option<&'static str>,
) -> Result<(), AllocError>
    ensures { OnOk result (string_bytes out.new ≡ string_bytes out.old
        ++ ((words.now ++ quoted text.now) ++ near_text (option_map (λ w. w.now) near.entry))) }
{
    push_before(out, words, text)?;
    push_near(out, near)
}

/// Pushes that a word is none of these, and the nearest of them.
fn push_unknown(
    alloc: Global,
    out: &mut String,
    word: &[u8],
    why: Why,
    words: &[&'static str],
) -> Result<(), AllocError>
    requires { length word.now < 2 ^ 32 }
    ensures { OnOk result (string_bytes out.new ≡ string_bytes out.old
        ++ unknown_text word.now why (map (λ w. w.now) words.now)) }
{
    let near = nearest(alloc, word, words)?;
    push_quoted(out, word)?;
    why.push_text(out)?;
    push_near(out, near)
}

/// Pushes how a line is written that begins with this word.
fn push_form(out: &mut String, form: Option<&'static str>) -> Result<(), AllocError>
    ensures { OnOk result (string_bytes out.new
        ≡ string_bytes out.old ++ form_text (option_map (λ form. form.now) form.entry)) }
{
    match form {
        Some(line) => out.push_str(line),
        None => Ok(()),
    }
}

/// Pushes a line, and what is said of it.
fn push_of_line(out: &mut String, line: &str, why: Why) -> Result<(), AllocError>
    ensures { OnOk result (string_bytes out.new
        ≡ string_bytes out.old ++ (quoted line.now ++ why_text why)) }
{
    push_quoted(out, line.as_bytes())?;
    why.push_text(out)
}

/// Pushes a line, that it is written otherwise, and how.
fn push_other_form(out: &mut String, line: &str, why: Why) -> Result<(), AllocError>
    ensures { OnOk result (string_bytes out.new
        ≡ string_bytes out.old ++ other_form_text line.now why) }
{
    push_of_line(out, line, why)?;
    push_form(out, form_of(first_word(line)))
}

/// Pushes why a line of text is refused.
fn push_text_reason(alloc: Global, out: &mut String, why: Why, line: &str) -> Result<(), AllocError>
    requires { length line.now < 2 ^ 32 }
    ensures { OnOk result (string_bytes out.new ≡ string_bytes out.old
        ++ text_reason why line.now) }
{
    match why {
        Why::NoKey => push_unknown(alloc, out, line.as_bytes(), why, key_words()),
        Why::NoStroke => push_unknown(alloc, out, line.as_bytes(), why, stroke_words()),
        Why::NoOrder => push_unknown(alloc, out, first_word(line).as_bytes(), why, order_words()),
        Why::NeedsStrokes => push_of_line(out, line, why),
        Why::OtherForm => push_other_form(out, line, why),
        _ => why.push_text(out),
    }
}

/// Pushes why a line is refused. Only of one that is text more is said than why.
fn push_reason(alloc: Global, out: &mut String, why: Why, line: &[u8]) -> Result<(), AllocError>
    requires { length line.now < 2 ^ 32 }
    ensures { OnOk result (string_bytes out.new
        ≡ string_bytes out.old ++ reason_text why line.now) }
{
    match checked(line) {
        Ok(text) => push_text_reason(alloc, out, why, text),
        Err(_) => why.push_text(out),
    }
}

/// Where the line of a number is refused: of a limit the column says nothing, and of all bytes the line neither.
fn place_of(number: u64, flaw: Flaw) -> Place
    ensures { result ≡ place_of number flaw }
{
    match flaw.why {
        Why::TooLong(Limit::Bytes) => Place::Whole,
        Why::TooLong(_) => Place::Line(number),
        _ => Place::Column(number, flaw.column),
    }
}

/// The sentence that says why the line of a number, counted from 1, is refused in the input of this name.
///
/// # Errors
///
/// Where a request for memory was refused.
pub fn sentence(
    alloc: Global,
    name: &str,
    number: u64,
    flaw: Flaw,
    line: &[u8],
) -> Result<String, AllocError>
    requires { length line.now < 2 ^ 32 }
    ensures { IfOk result (λ text. string_bytes text ≡ sentence name.now number flaw line.now) }
{
    let mut out = String::new(alloc);
    push_head(&mut out, name, place_of(number, flaw))?;
    push_reason(alloc, &mut out, flaw.why, line)?;
    out.push_str("\n")?;
    Ok(out)
}
