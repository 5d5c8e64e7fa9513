//! What a key of a table holds.

ghost use Rattle.std.specs.Prelude.{◌≡◌, option_map};
ghost use Rattle.std.specs.List.{list_all};
ghost use Rattle.toml.specs.View.{view, table_view};
ghost use Rattle.manifest_tables.specs.Results.{Tells};
ghost use Rattle.manifest_tables.specs.Values.{value_at, needed_at, is_plain, is_plain_byte, text_of, needed_text, is_key, has_only, with_only};

use crate::key::{Flaw, Key};
use toml::{Table, Value};

/// The value of a key, if it is there.
pub fn value_at<K: Key>(key: K, table: &Table) -> Option<&Value>
    ensures { option_map (λ v. view v.now) result
        ≡ value_at (K.spelling key) (table_view table.now) }
{
    table.get(key.text())
}

/// The value of a key that has to be there.
///
/// # Errors
///
/// Where it is absent.
pub fn needed_at<K: Key>(key: K, table: &Table) -> Result<&Value, K::Fault>
    ensures { Tells (λ v. view v.now) result
        (needed_at (K.spelling key) (K.told key) (table_view table.now)) }
{
    match value_at(key, table) {
        Some(value) => Ok(value),
        None => Err(key.fault(Flaw::MissingKey)),
    }
}

/// Whether a byte of a text is no control character.
fn is_plain_byte(byte: u8) -> bool
    ensures { result ≡ is_plain_byte byte }
{
    32 <= byte && byte != 127
}

fn are_plain_bytes(text: &[u8]) -> bool
    ensures { result ≡ list_all is_plain_byte text.now }
{
    text.iter().all(|byte| is_plain_byte(*byte))
}

/// Whether a text isn't empty and has no control character.
pub fn is_plain(text: &[u8]) -> bool
    ensures { result ≡ is_plain text.now }
{
    1 <= text.len() && are_plain_bytes(text)
}

/// The text that the value of a key is.
///
/// # Errors
///
/// Where it is none, is empty or has a control character.
#[tactic(auto, unfolding(crate::specs::Values::text_of))]
pub fn text_of<K: Key>(key: K, value: &Value) -> Result<&str, K::Fault>
    ensures { Tells (λ s. s.now) result (text_of (K.told key) (view value.now)) }
{
    let Some(text) = value.as_str() else {
        return Err(key.fault(Flaw::WrongKind));
    };
    if is_plain(text.as_bytes()) {
        Ok(text)
    } else {
        Err(key.fault(Flaw::BadText))
    }
}

/// The text of a key that has to be there.
///
/// # Errors
///
/// Where it is absent, or no such text.
#[tactic(auto, unfolding(crate::specs::Values::needed_text))]
pub fn needed_text<K: Key>(key: K, table: &Table) -> Result<&str, K::Fault>
    ensures { Tells (λ s. s.now) result
        (needed_text (K.spelling key) (K.told key) (table_view table.now)) }
{
    match needed_at(key, table) {
        Ok(value) => text_of(key, value),
        Err(fault) => Err(fault),
    }
}

fn is_key<K: Key>(keys: &[K], word: &str) -> bool
    ensures { result ≡ is_key K.spelling keys.now word.now }
{
    keys.iter().any(|key| word == key.text())
}

fn has_only<K: Key>(keys: &[K], table: &Table) -> bool
    ensures { result ≡ has_only K.spelling keys.now (table_view table.now) }
{
    table.keys().all(|word| is_key(keys, word.as_str()))
}

/// The table, if it has no key but these.
///
/// # Errors
///
/// Where it has another.
pub fn with_only<'a, K: Key>(keys: &[K], table: &'a Table) -> Result<&'a Table, K::Fault>
    ensures { Tells (λ t. table_view t.now) result
        (with_only K.spelling (K.told K.other) keys.now (table_view table.now)) }
{
    if has_only(keys, table) {
        Ok(table)
    } else {
        Err(K::unknown().fault(Flaw::UnknownKey))
    }
}
