//! What a key of a manifest's table holds.

ghost use Rattle.std.specs.Prelude.{string_bytes};
ghost use Rattle.toml.specs.View.{table_view};
ghost use Rattle.cli_applications.specs.Results.{Gives};
ghost use Rattle.cli_applications.specs.Values.{needed_text};

use crate::fault::{ManifestError, ManifestKey};
use std::alloc::Global;
use toml::Table;

/// The text of a key that has to be there.
pub(crate) fn needed_text(
    alloc: Global,
    key: ManifestKey,
    table: &Table,
) -> Result<String, ManifestError>
    ensures { Gives string_bytes result (needed_text key (table_view table.now)) }
{
    let text = manifest_tables::needed_text(key, table)?;
    Ok(String::from_str(alloc, text)?)
}
