//! The pairs under a header, or at the top, as a table.

ghost use Rattle.std.specs.Prelude.{IfOk, IfSome};
ghost use Rattle.toml.specs.View.{table_view};
ghost use Rattle.plain_tables.specs.Plain.{GoesOn};

use crate::line::pair;
use std::alloc::{AllocError, Global};
use toml::Table;
use toml_parser::text::skip_blank;

/// Reads pairs into the table for as long as they come, and gives what follows them: none where a key comes twice.
///
/// # Errors
///
/// Where a request for memory was refused.
pub fn pairs<'a>(
    alloc: Global,
    s: &'a str,
    table: &mut Table,
) -> Result<Option<&'a str>, AllocError>
    ensures { IfOk result (λ found. IfSome found (λ rest.
        GoesOn (table_view table.old) s.now (table_view table.new) rest.now)) }
{
    let mut rest = s;
    'pairs: loop {
        let Some((found, after)) = pair(alloc, skip_blank(rest, true))? else {
            return Ok(Some(rest));
        };
        let (key, value) = found;
        let name = String::from_str(alloc, key)?;
        if table.insert(name, value)?.is_some() {
            return Ok(None);
        }
        rest = after;
    }
}
