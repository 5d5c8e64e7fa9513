//! A line in the usual form: a pair of a key and a string or a scalar, or the header of a table.

ghost use Rattle.std.specs.Prelude.{◌≡◌, ◌<◌, ◌≤◌, [], true, false, Some, length, IfOk, IfSome};
ghost use Rattle.std.specs.List.{prefix_len};
ghost use Rattle.toml_parser.specs.Lexical.{is_bare};
ghost use Rattle.toml_parser.specs.Strings.{key, starts_string};
ghost use Rattle.toml.specs.View.{view};
ghost use Rattle.toml.specs.Parse.{atom, scalar_data, line};
ghost use Rattle.plain_tables.specs.Plain.{Found, IsLast, is_end, pair_view, header_of, IsBehind};

use std::alloc::{AllocError, Global};
use toml::Value;
use toml_parser::bytes::is_bare;
use toml_parser::text::{byte_at, first, skip, skip_ws};
use toml_parser::{ParseError, Scalar, quoted, starts_string, unquoted};

/// A fault other than want of memory is TOML's own reader's to tell.
fn unless_memory(error: ParseError) -> Result<(), AllocError> {
    match error {
        ParseError::OutOfMemory => Err(AllocError),
        ParseError::At(..) => Ok(()),
    }
}

/// How many bytes at the front are those of a key without quotes.
fn bare_length(bytes: &[u8]) -> usize
    ensures value { result ≡ prefix_len is_bare bytes.now }
    ensures within { result ≤ length bytes.now }
{
    bytes.iter().take_while(|byte| is_bare(**byte)).count()
}

/// A key without dots and quotes, and what follows it and the white space after it.
fn bare_key(s: &str) -> Option<(&str, &str)>
    ensures { IfSome result (λ p. (key s.now ≡ Some (([], p.0.now), p.1.now))
        × (length p.1.now < length s.now)) }
{
    let count = bare_length(s.as_bytes());
    if count == 0 || starts_string(s) {
        return None;
    }
    let (word, rest) = s.split_at(count);
    let after = skip_ws(rest);
    if first(after) == b'.' {
        return None;
    }
    Some((word, after))
}

fn text(alloc: Global, s: &str) -> Result<Option<(Value, &str)>, AllocError>
    requires { starts_string s.now ≡ true }
    ensures { Found view result s.now (atom s.now) }
{
    match quoted(alloc, s) {
        Ok((text, rest)) => Ok(Some((Value::String(text), rest))),
        Err(error) => {
            unless_memory(error)?;
            Ok(None)
        }
    }
}

/// A truth or a whole number; the others are left to TOML's own reader.
fn scalar_value(scalar: Scalar) -> Option<Value>
    ensures { IfSome result (λ value. view value ≡ scalar_data scalar) }
{
    match scalar {
        Scalar::Boolean(truth) => Some(Value::Boolean(truth)),
        Scalar::Integer(number) => Some(Value::Integer(number)),
        Scalar::Float(_) | Scalar::Datetime(_) => None,
    }
}

fn scalar(alloc: Global, s: &str) -> Result<Option<(Value, &str)>, AllocError>
    requires { starts_string s.now ≡ false }
    ensures { Found view result s.now (atom s.now) }
{
    match unquoted(alloc, s) {
        Ok((scalar, rest)) => match scalar_value(scalar) {
            Some(value) => Ok(Some((value, rest))),
            None => Ok(None),
        },
        Err(error) => {
            unless_memory(error)?;
            Ok(None)
        }
    }
}

/// A string or a scalar, and what follows it.
fn atom(alloc: Global, s: &str) -> Result<Option<(Value, &str)>, AllocError>
    ensures { Found view result s.now (atom s.now) }
{
    if starts_string(s) {
        text(alloc, s)
    } else {
        scalar(alloc, s)
    }
}

/// Whether nothing else stands on the line: the text is over, or goes on with white space and a comment or a newline.
fn is_end(s: &str) -> bool
    ensures { result ≡ is_end s.now }
{
    let end = skip_ws(s);
    end.is_empty() || matches!(first(end), b'#' | b'\n' | b'\r')
}

/// A value behind its `=`, alone on the rest of the line.
fn last_value(alloc: Global, s: &str) -> Result<Option<(Value, &str)>, AllocError>
    ensures { IfOk result (λ found. IfSome found (IsLast s.now)) }
{
    if first(s) == b'[' || first(s) == b'{' {
        return Ok(None);
    }
    let Some((value, rest)) = atom(alloc, s)? else {
        return Ok(None);
    };
    if is_end(rest) {
        Ok(Some((value, rest)))
    } else {
        Ok(None)
    }
}

/// A key and its string or scalar, on a line of their own, and what follows them: none where the line is another, or is to be refused.
///
/// # Errors
///
/// Where a request for memory was refused.
pub fn pair<'a>(
    alloc: Global,
    s: &'a str,
) -> Result<Option<((&'a str, Value), &'a str)>, AllocError>
    ensures { Found pair_view result s.now (line s.now) }
{
    if first(s) == b'[' {
        return Ok(None);
    }
    let Some((key, rest)) = bare_key(s) else {
        return Ok(None);
    };
    if first(rest) != b'=' {
        return Ok(None);
    }
    let Some((value, rest)) = last_value(alloc, skip_ws(skip(rest, 1)))? else {
        return Ok(None);
    };
    Ok(Some(((key, value), rest)))
}

/// What follows the header of a table under the key, as `[[key]]`, on a line of its own.
pub fn header<'a>(key: &str, s: &'a str) -> Option<&'a str>
    ensures { IfSome result (IsBehind (header_of key.now) s.now) }
{
    if first(s) != b'[' || byte_at(s, 1) != b'[' {
        return None;
    }
    let Some((word, rest)) = bare_key(skip_ws(skip(s, 2))) else {
        return None;
    };
    if word != key || first(rest) != b']' {
        return None;
    }
    let closed = skip(rest, 1);
    if first(closed) != b']' {
        return None;
    }
    let rest = skip(closed, 1);
    if is_end(rest) { Some(rest) } else { None }
}
