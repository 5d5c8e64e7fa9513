//! What a key of a table holds.

ghost use Rattle.std.specs.Prelude.{◌≡◌, ◌≤◌, option_map, codes, IfSome};
ghost use Rattle.toml.specs.View.{view, table_view};
ghost use Rattle.scr_layout.specs.Results.{Tells};
ghost use Rattle.scr_layout.specs.Values.{value_at, needed_at, text_of, integer_of, from_one_to, is_key, has_only, with_only};

use crate::fault::{LayoutFault, LayoutKey, Why};
use toml::{Table, Value};

/// The value of a key, if it is there.
pub(crate) fn value_at(key: LayoutKey, table: &Table) -> Option<&Value>
    ensures { option_map (λ v. view v.now) result ≡ value_at key (table_view table.now) }
{
    table.get(key.word())
}

/// The value of a key that has to be there.
pub(crate) fn needed_at(key: LayoutKey, table: &Table) -> Result<&Value, LayoutFault>
    ensures { Tells (λ v. view v.now) result (needed_at key (table_view table.now)) }
{
    match value_at(key, table) {
        Some(value) => Ok(value),
        None => Err(LayoutFault::at_key(key, Why::MissingKey)),
    }
}

/// The text that the value of a key is.
pub(crate) fn text_of(key: LayoutKey, value: &Value) -> Result<&str, LayoutFault>
    ensures { Tells (λ s. s.now) result (text_of key (view value.now)) }
{
    match value.as_str() {
        Some(text) => Ok(text),
        None => Err(LayoutFault::at_key(key, Why::WrongKind)),
    }
}

/// The integer that the value of a key is.
pub(crate) fn integer_of(key: LayoutKey, value: &Value) -> Result<i64, LayoutFault>
    ensures { result ≡ integer_of key (view value.now) }
{
    match value.as_integer() {
        Some(number) => Ok(number),
        None => Err(LayoutFault::at_key(key, Why::WrongKind)),
    }
}

/// The number, if it is one of 1 to `most`.
pub(crate) fn from_one_to(most: u32, number: i64) -> Option<u32>
    ensures value { result ≡ from_one_to most number }
    ensures bounds { IfSome result (λ n. (1 ≤ n) × (n ≤ most)) }
{
    if 1 <= number && number <= i64::from(most) {
        Some(number as u32)
    } else {
        None
    }
}

fn is_key(keys: &[LayoutKey], word: &str) -> bool
    ensures { result ≡ is_key keys.now word.now }
{
    keys.iter().any(|key| word == key.word())
}

fn has_only(keys: &[LayoutKey], table: &Table) -> bool
    ensures { result ≡ has_only keys.now (table_view table.now) }
{
    table.keys().all(|word| is_key(keys, word.as_str()))
}

/// The table, if it has no key but these.
pub(crate) fn with_only<'a>(keys: &[LayoutKey], table: &'a Table) -> Result<&'a Table, LayoutFault>
    ensures { Tells (λ t. table_view t.now) result (with_only keys.now (table_view table.now)) }
{
    if has_only(keys, table) {
        Ok(table)
    } else {
        Err(LayoutFault::at_key(LayoutKey::Unknown, Why::UnknownKey))
    }
}
