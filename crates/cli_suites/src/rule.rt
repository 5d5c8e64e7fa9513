//! The rule by which services know an accepted finding that doesn't come.

ghost use Rattle.std.specs.Prelude.{◌≡◌, ◌++◌, [], ◌∷◌, map, IfOk};
ghost use Rattle.serde_json.specs.View.{view};
ghost use Rattle.cli_suites.specs.Rule.{rule_data, rule_id, rule_index, suite_rules};

use cli_findings::named_rule;
use cli_maps::all_values;
use serde_json::Value;
use std::alloc::{AllocError, Global};

pub(crate) fn rule_id() -> &'static str
    ensures { result.now ≡ rule_id }
{
    "accepted"
}

/// Where it stands among the rules of a log, counted from 0: behind those of records and of maps.
pub(crate) fn rule_index() -> usize
    ensures { result ≡ rule_index }
{
    18
}

fn rule_value(alloc: Global) -> Result<Value, AllocError>
    ensures { IfOk result (λ value. view value ≡ rule_data) }
{
    named_rule(
        alloc,
        rule_id(),
        "accepted-does-not-come",
        "An accepted finding does not come",
        "The manifest accepts a finding that the screen no longer has.",
        "The manifest accepts a finding that the screen no longer has. Take it out of the manifest.",
    )
}

/// The rules of the log of a suite.
pub(crate) fn suite_rules(alloc: Global) -> Result<Vec<Value>, AllocError>
    ensures { IfOk result (λ values. map view values.items ≡ suite_rules) }
{
    let mut values = all_values(alloc)?;
    values.push(rule_value(alloc)?)?;
    Ok(values)
}
