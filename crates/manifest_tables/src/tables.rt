//! The tables among the values of a list.

ghost use Rattle.std.specs.Prelude.{◌≡◌};
ghost use Rattle.toml.specs.View.{items_view};
ghost use Rattle.manifest_tables.specs.Tables.{are_tables};

use toml::Value;

/// Whether each value is a table.
pub fn are_tables(values: &[Value]) -> bool
    ensures { result ≡ are_tables (items_view values.now) }
{
    values.iter().all(|value| value.is_table())
}
