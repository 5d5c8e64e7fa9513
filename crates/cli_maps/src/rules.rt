//! The rules by which services know what is told of maps: those of records, and these behind them.

ghost use Rattle.std.specs.Prelude.{◌≡◌, ◌≤◌, ◌++◌, map as all_of, IfOk, OnOk};
ghost use Rattle.std.specs.String.{string_bytes};
ghost use Rattle.serde_json.specs.View.{view};
ghost use Rattle.cli_maps.specs.Rules.{all_data, id_of, index_among, index_of, map_brief_of, map_meaning_of, map_mend_of, map_rule_data, map_rule_help, map_rule_id, map_rule_index, map_rule_name, map_rule_of, map_rules, name_of};

use crate::judged::MapFinding;
use bms_map::Overlap;
use cli_findings::{
    name_of as name_of_finding, named_rule, rule_count, rule_id_of, rule_index_of, rules_value,
};
use serde_json::Value;
use std::alloc::{AllocError, Global};

/// A kind of result that only maps have.
#[derive(Clone, Copy)]
pub(crate) enum MapRule {
    Overlap,
    PastEnd,
    Refused,
}

fn map_rules() -> [MapRule; 3]
    ensures { result ≡ map_rules }
{
    [MapRule::Overlap, MapRule::PastEnd, MapRule::Refused]
}

fn map_rule_of(overlap: Overlap) -> MapRule
    ensures { result ≡ map_rule_of overlap }
{
    match overlap {
        Overlap::Overlaps(_, _) => MapRule::Overlap,
        Overlap::PastEnd(_, _) => MapRule::PastEnd,
    }
}

impl MapRule {
    /// Where it stands among the rules of maps, counted from 0.
    fn index(self) -> usize
        ensures index { result ≡ map_rule_index self }
        ensures few { result ≤ 2 }
    {
        match self {
            MapRule::Overlap => 0,
            MapRule::PastEnd => 1,
            MapRule::Refused => 2,
        }
    }

    pub(crate) fn id(self) -> &'static str
        ensures { result.now ≡ map_rule_id self }
    {
        match self {
            MapRule::Overlap => "M1",
            MapRule::PastEnd => "M2",
            MapRule::Refused => "map-refused",
        }
    }

    /// Its name, in kebab case.
    fn name(self) -> &'static str
        ensures { result.now ≡ map_rule_name self }
    {
        match self {
            MapRule::Overlap => "overlap",
            MapRule::PastEnd => "past-the-end",
            MapRule::Refused => "map-refused",
        }
    }

    /// What it is about, in a few words.
    fn brief(self) -> &'static str
        ensures { result.now ≡ map_brief_of self }
    {
        match self {
            MapRule::Overlap => "Two fields overlap",
            MapRule::PastEnd => "A field goes past the end of its map",
            MapRule::Refused => "A map source is refused",
        }
    }

    fn meaning(self) -> &'static str
        ensures { result.now ≡ map_meaning_of self }
    {
        match self {
            MapRule::Overlap => {
                "The attribute of a field stands in a cell of a field before it, whose characters it cuts off."
            }
            MapRule::PastEnd => {
                "The last character of a field comes after the map's last line and column, and may stand on another field at the top."
            }
            MapRule::Refused => "The source of BMS maps can't be read.",
        }
    }

    fn mend(self) -> &'static str
        ensures { result.now ≡ map_mend_of self }
    {
        match self {
            MapRule::Overlap => "Correct POS or LENGTH.",
            MapRule::PastEnd => "Correct LENGTH or SIZE.",
            MapRule::Refused => "Correct the statement that is told.",
        }
    }

    /// Where it stands among all rules of a log, counted from 0.
    pub(crate) fn index_among(self) -> usize
        ensures { result ≡ index_among self }
    {
        rule_count() + self.index()
    }
}

fn rule_help(alloc: Global, rule: MapRule) -> Result<String, AllocError>
    ensures { IfOk result (λ text. string_bytes text ≡ map_rule_help rule) }
{
    let meaning = rule.meaning();
    let mend = rule.mend();
    format!(in alloc; "{meaning} {mend}")
}

fn rule_value(alloc: Global, rule: MapRule) -> Result<Value, AllocError>
    ensures { IfOk result (λ value. view value ≡ map_rule_data rule) }
{
    let help = rule_help(alloc, rule)?;
    named_rule(
        alloc,
        rule.id(),
        rule.name(),
        rule.brief(),
        rule.meaning(),
        help.as_str(),
    )
}

fn push_rules(
    alloc: Global,
    mut values: Vec<Value>,
    rules: &[MapRule],
) -> Result<Vec<Value>, AllocError>
    ensures { IfOk result (λ all. all_of view all.items
        ≡ all_of view values.items ++ all_of map_rule_data rules.now) }
{
    for rule in rules {
        values.push(rule_value(alloc, *rule)?)?;
    }
    Ok(values)
}

/// The rules of a log of maps: those of records, and those of maps behind them, in the order of `ruleIndex`.
///
/// # Errors
///
/// Where a request for memory was refused.
pub fn all_values(alloc: Global) -> Result<Vec<Value>, AllocError>
    ensures { IfOk result (λ values. all_of view values.items ≡ all_data) }
{
    push_rules(alloc, rules_value(alloc)?, &map_rules())
}

/// The rule of a finding.
pub(crate) fn id_of(finding: MapFinding) -> &'static str
    ensures { result.now ≡ id_of finding }
{
    match finding {
        MapFinding::Overlapping(overlap) => map_rule_of(overlap).id(),
        MapFinding::Found(found) => rule_id_of(&found),
    }
}

/// The name of a finding, in kebab case.
pub(crate) fn name_of(finding: MapFinding) -> &'static str
    ensures { result.now ≡ name_of finding }
{
    match finding {
        MapFinding::Overlapping(overlap) => map_rule_of(overlap).name(),
        MapFinding::Found(found) => name_of_finding(&found),
    }
}

/// Where its rule stands among all rules of a log, counted from 0.
pub(crate) fn index_of(finding: MapFinding) -> usize
    ensures { result ≡ index_of finding }
{
    match finding {
        MapFinding::Overlapping(overlap) => map_rule_of(overlap).index_among(),
        MapFinding::Found(found) => rule_index_of(&found),
    }
}
