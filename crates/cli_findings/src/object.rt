//! Members of JSON objects.

ghost use Rattle.std.specs.Prelude.{◌≡◌, IfOk, OnOk};
ghost use Rattle.serde_json.specs.Data.{string, array, item, no_items, object, member, no_members, put as with_member};
ghost use Rattle.serde_json.specs.View.{view, members_view};

use serde_json::{Map, Value, push, put};
use std::alloc::{AllocError, Global};

/// The members of an object.
pub type Members = Map<String, Value>;

/// A text at a key.
///
/// # Errors
///
/// Where a request for memory was refused.
pub fn put_str(
    alloc: Global,
    members: &mut Members,
    key: &str,
    text: &str,
) -> Result<(), AllocError>
    ensures { OnOk result (members_view members.new.entries
        ≡ with_member key.now (string text.now) (members_view members.old.entries)) }
{
    let text = String::from_str(alloc, text)?;
    put(members, alloc, key, Value::String(text))
}

/// An object of one member.
///
/// # Errors
///
/// Where a request for memory was refused.
pub fn single(alloc: Global, key: &str, value: Value) -> Result<Value, AllocError>
    ensures { IfOk result (λ made. view made ≡ object (member key.now (view value) no_members)) }
{
    let mut members = Map::new(alloc);
    put(&mut members, alloc, key, value)?;
    Ok(Value::Object(members))
}

/// An array of one item.
///
/// # Errors
///
/// Where a request for memory was refused.
pub fn listed(alloc: Global, value: Value) -> Result<Value, AllocError>
    ensures { IfOk result (λ made. view made ≡ array (item (view value) no_items)) }
{
    let mut list = Vec::new(alloc);
    push(&mut list, value)?;
    Ok(Value::Array(list))
}
