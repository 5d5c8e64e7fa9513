//! The tables of a manifest.

ghost use Rattle.std.specs.Prelude.{◌≡◌, ◌++◌, [], ◌∷◌, option_map, true, false};
ghost use Rattle.toml.specs.View.{view, table_view, items_view};
ghost use Rattle.manifest_tables.specs.Results.{Tells};
ghost use Rattle.manifest_tables.specs.Tables.{tables_in};
ghost use Rattle.cli_applications.specs.Results.{Gives, in_screen};
ghost use Rattle.cli_applications.specs.Manifest.{has_name, is_free, screen_of, screens_at, screens_from, tables_of, target_by, targets_at, targets_from, targets_in, targets_of, with_screen, with_target};

use crate::attention::ATTENTION_KEYS;
use crate::fault::{ManifestError, ManifestFault, ManifestKey, Why};
use crate::screen::{NamedScreen, Target};
use crate::values::needed_text;
use manifest_tables::{are_tables, needed_at, text_of, value_at, with_only};
use std::alloc::Global;
use toml::{Table, Value};

/// The name that stands for the end.
pub(crate) const END_NAME: &str = "end";

/// The most screens of an application.
const MOST_SCREENS: usize = 1_000;

const SCREEN_KEYS: [ManifestKey; 4] = [
    ManifestKey::Name,
    ManifestKey::Records,
    ManifestKey::Layout,
    ManifestKey::Next,
];

/// The targets before, and behind them that of a key, where it has one.
fn target_by(
    alloc: Global,
    before: Vec<Target>,
    key: ManifestKey,
    value: Option<&Value>,
) -> Result<Vec<Target>, ManifestError>
    ensures { Gives (λ targets. targets.items) result
        (target_by before.items key (option_map (λ v. view v.now) value.entry)) }
{
    let Some(value) = value else {
        return Ok(before);
    };
    let text = text_of(key, value)?;
    let mut targets = before;
    let to = String::from_str(alloc, text)?;
    targets.push(Target { key, to })?;
    Ok(targets)
}

/// The same, of a table.
fn with_target(
    alloc: Global,
    before: Vec<Target>,
    key: ManifestKey,
    table: &Table,
) -> Result<Vec<Target>, ManifestError>
    ensures { Gives (λ targets. targets.items) result
        (with_target before.items key (table_view table.now)) }
{
    target_by(alloc, before, key, value_at(key, table))
}

/// The targets of keys, in their order.
fn targets_from(
    alloc: Global,
    keys: &[ManifestKey],
    table: &Table,
) -> Result<Vec<Target>, ManifestError>
    ensures { Gives (λ targets. targets.items) result
        (targets_from [] keys.now (table_view table.now)) }
{
    let mut targets = Vec::new(alloc);
    for key in keys {
        targets = with_target(alloc, targets, *key, table)?;
    }
    Ok(targets)
}

#[tactic(auto, unfolding(crate::specs::Manifest::targets_of))]
fn targets_of(alloc: Global, table: &Table) -> Result<Vec<Target>, ManifestError>
    ensures { Gives (λ targets. targets.items) result (targets_of (table_view table.now)) }
{
    let own = with_only(&ATTENTION_KEYS, table)?;
    targets_from(alloc, &ATTENTION_KEYS, own)
}

fn targets_in(alloc: Global, value: Option<&Value>) -> Result<Vec<Target>, ManifestError>
    ensures { Gives (λ targets. targets.items) result
        (targets_in (option_map (λ v. view v.now) value.entry)) }
{
    let Some(value) = value else {
        return Ok(Vec::new(alloc));
    };
    match value.as_table() {
        Some(table) => targets_of(alloc, table),
        None => Err(ManifestError::Refused(ManifestFault::at_key(
            ManifestKey::Next,
            Why::WrongKind,
        ))),
    }
}

/// Where the keys of a screen lead.
#[tactic(auto, unfolding(crate::specs::Manifest::targets_at))]
fn targets_at(alloc: Global, table: &Table) -> Result<Vec<Target>, ManifestError>
    ensures { Gives (λ targets. targets.items) result (targets_at (table_view table.now)) }
{
    targets_in(alloc, value_at(ManifestKey::Next, table))
}

/// A table `screen`.
#[tactic(auto, unfolding(crate::specs::Manifest::screen_of))]
fn screen_of(alloc: Global, table: &Table) -> Result<NamedScreen, ManifestError>
    ensures { Gives (λ screen. screen) result (screen_of (table_view table.now)) }
{
    let own = with_only(&SCREEN_KEYS, table)?;
    let name = needed_text(alloc, ManifestKey::Name, own)?;
    let records = needed_text(alloc, ManifestKey::Records, own)?;
    let layout = needed_text(alloc, ManifestKey::Layout, own)?;
    let targets = targets_at(alloc, own)?;
    Ok(NamedScreen {
        name,
        records,
        layout,
        targets,
    })
}

fn has_name(name: &str, screens: &[NamedScreen]) -> bool
    ensures { result ≡ has_name name.now screens.now }
{
    screens.iter().any(|screen| screen.name.as_str() == name)
}

fn is_free(name: &str, screens: &[NamedScreen]) -> bool
    ensures { result ≡ is_free name.now screens.now }
{
    name != END_NAME && !has_name(name, screens)
}

/// The screens before, and behind them that of a table.
#[tactic(auto, unfolding(crate::specs::Manifest::with_screen))]
fn with_screen(
    alloc: Global,
    before: Vec<NamedScreen>,
    table: &Table,
) -> Result<Vec<NamedScreen>, ManifestError>
    ensures { Gives (λ screens. screens.items) result
        (with_screen before.items (table_view table.now)) }
{
    let screen = screen_of(alloc, table)?;
    if !is_free(screen.name.as_str(), before.as_slice()) {
        return Err(ManifestError::Refused(ManifestFault::at_key(ManifestKey::Name, Why::Twice)));
    }
    let mut screens = before;
    screens.push(screen)?;
    Ok(screens)
}

/// The same, where a fault is one of the screen of this number.
fn with_table(
    alloc: Global,
    index: usize,
    before: Vec<NamedScreen>,
    table: &Table,
) -> Result<Vec<NamedScreen>, ManifestError>
    ensures { Gives (λ screens. screens.items) result
        (in_screen index (with_screen before.items (table_view table.now))) }
{
    match with_screen(alloc, before, table) {
        Ok(screens) => Ok(screens),
        Err(ManifestError::Refused(fault)) => Err(ManifestError::Refused(fault.in_screen(index))),
        Err(ManifestError::OutOfMemory) => Err(ManifestError::OutOfMemory),
    }
}

/// The screens of tables.
fn screens_from(alloc: Global, values: &[Value]) -> Result<Vec<NamedScreen>, ManifestError>
    ensures { Gives (λ screens. screens.items) result
        (screens_from 0 [] (tables_in (items_view values.now))) }
{
    let mut screens = Vec::new(alloc);
    let mut index = 0usize;
    for value in values {
        if let Some(table) = value.as_table() {
            screens = with_table(alloc, index, screens, table)?;
            index += 1;
        }
    }
    Ok(screens)
}

#[tactic(auto, unfolding(crate::specs::Manifest::tables_of))]
fn tables_of(value: &Value) -> Result<&[Value], ManifestFault>
    ensures { Tells (λ vs. tables_in (items_view vs.now)) result (tables_of (view value.now)) }
{
    let Some(values) = value.as_array() else {
        return Err(ManifestFault::at_key(ManifestKey::Screen, Why::WrongKind));
    };
    if !are_tables(values) {
        return Err(ManifestFault::at_key(ManifestKey::Screen, Why::WrongKind));
    }
    let count = values.len();
    if count < 1 {
        return Err(ManifestFault::at_key(ManifestKey::Screen, Why::BadCount));
    }
    if MOST_SCREENS < count {
        return Err(ManifestFault::at_key(ManifestKey::Screen, Why::BadCount));
    }
    Ok(values)
}

/// The screens of a manifest, 1 to 1,000.
#[tactic(auto, unfolding(crate::specs::Manifest::screens_at))]
pub(crate) fn screens_at(alloc: Global, top: &Table) -> Result<Vec<NamedScreen>, ManifestError>
    ensures { Gives (λ screens. screens.items) result (screens_at (table_view top.now)) }
{
    let value = needed_at(ManifestKey::Screen, top)?;
    let values = tables_of(value)?;
    screens_from(alloc, values)
}
