//! The keys of a field of a layout.

ghost use Rattle.std.specs.Prelude.{◌≡◌, ◌<◌, IfOk};
ghost use Rattle.ds_codec.specs.Geometry.{cells_of};
ghost use Rattle.toml.specs.View.{view, table_view};
ghost use Rattle.scr_layout.specs.Results.{Tells, Gives};
ghost use Rattle.scr_layout.specs.Values.{with_only};
ghost use Rattle.scr_layout.specs.Rows.{IsSmall};
ghost use Rattle.scr_layout.specs.Field.{field_keys, name_of, integer_at, place_of, length_of, named_kind, kind_of, with_table};

use crate::entry::Kind;
use crate::fault::{LayoutError, LayoutFault, LayoutKey, Why};
use crate::listed::Listed;
use crate::name::is_name;
use crate::rows::{are_free, count_of, names_of, rows_of, step_of, with_names};
use crate::top::Version;
use crate::values::{from_one_to, integer_of, needed_at, text_of, value_at, with_only};
use ds_codec::Size;
use std::alloc::Global;
use toml::Table;

const FIELD_KEYS: [LayoutKey; 7] = [
    LayoutKey::Name,
    LayoutKey::Row,
    LayoutKey::Col,
    LayoutKey::Length,
    LayoutKey::Kind,
    LayoutKey::Count,
    LayoutKey::Down,
];

/// The keys of a field; those of its rows came with version 2.
fn field_keys(version: Version) -> &'static [LayoutKey]
    ensures { result.now ≡ field_keys version }
{
    match version {
        Version::One => &FIELD_KEYS[..5],
        Version::Two => &FIELD_KEYS,
    }
}

/// The table, if it has no key but those of a field.
fn field_of(version: Version, table: &Table) -> Result<&Table, LayoutFault>
    ensures { Tells (λ t. table_view t.now) result
        (with_only (field_keys version) (table_view table.now)) }
{
    with_only(field_keys(version), table)
}

/// `name`.
#[tactic(auto, unfolding(crate::specs::Field::name_of))]
fn name_of(field: &Table) -> Result<&str, LayoutFault>
    ensures { Tells (λ s. s.now) result (name_of (table_view field.now)) }
{
    let value = needed_at(LayoutKey::Name, field)?;
    let text = text_of(LayoutKey::Name, value)?;
    if is_name(text) {
        Ok(text)
    } else {
        Err(LayoutFault::at_key(LayoutKey::Name, Why::BadName))
    }
}

/// `row`, `col` and `length`: an integer.
#[tactic(auto, unfolding(crate::specs::Field::integer_at))]
fn integer_at(key: LayoutKey, field: &Table) -> Result<i64, LayoutFault>
    ensures { result ≡ integer_at key (table_view field.now) }
{
    integer_of(key, needed_at(key, field)?)
}

/// The place in this row and column, each counted from 1.
#[tactic(auto, unfolding(crate::specs::Field::place_of))]
fn place_of(size: Size, row: i64, col: i64) -> Result<u32, LayoutFault>
    ensures value { result ≡ place_of size row col }
    ensures inside { IfOk result (λ place. place < cells_of size) }
{
    let Some(row) = from_one_to(u32::from(size.rows), row) else {
        return Err(LayoutFault::at_key(LayoutKey::Row, Why::PlaceOutside));
    };
    let Some(col) = from_one_to(u32::from(size.cols), col) else {
        return Err(LayoutFault::at_key(LayoutKey::Col, Why::PlaceOutside));
    };
    Ok((row - 1) * u32::from(size.cols) + (col - 1))
}

/// `length`: 1 to the screen's cells less 1.
#[tactic(auto, unfolding(crate::specs::Field::length_of))]
fn length_of(size: Size, field: &Table) -> Result<u32, LayoutFault>
    ensures { result ≡ length_of size (table_view field.now) }
{
    let length = integer_at(LayoutKey::Length, field)?;
    match from_one_to(size.cells().saturating_sub(1), length) {
        Some(length) => Ok(length),
        None => Err(LayoutFault::at_key(LayoutKey::Length, Why::BadLength)),
    }
}

pub(crate) fn named_kind(word: &str) -> Result<Kind, LayoutFault>
    ensures { result ≡ named_kind word.now }
{
    match word {
        "input" => Ok(Kind::Input),
        "fixed" => Ok(Kind::Fixed),
        _ => Err(LayoutFault::at_key(LayoutKey::Kind, Why::WrongKind)),
    }
}

/// `kind`: input where it is absent.
#[tactic(auto, unfolding(crate::specs::Field::kind_of))]
fn kind_of(field: &Table) -> Result<Kind, LayoutFault>
    ensures { result ≡ kind_of (table_view field.now) }
{
    match value_at(LayoutKey::Kind, field) {
        Some(value) => named_kind(text_of(LayoutKey::Kind, value)?),
        None => Ok(Kind::Input),
    }
}

/// The entries before, and behind them those that a table stands for on a screen of this size.
#[tactic(auto, unfolding(crate::specs::Field::with_table))]
pub(crate) fn with_table(
    alloc: Global,
    version: Version,
    size: Size,
    before: Listed,
    table: &Table,
) -> Result<Listed, LayoutError>
    requires { IsSmall size }
    ensures { Gives (λ listed. listed) result
        (with_table version size before (table_view table.now)) }
{
    let field = field_of(version, table)?;
    let name = name_of(field)?;
    let rows = rows_of(field)?;
    let names = names_of(alloc, &before, name, rows)?;
    let row = integer_at(LayoutKey::Row, field)?;
    let col = integer_at(LayoutKey::Col, field)?;
    let place = place_of(size, row, col)?;
    let step = step_of(size, rows);
    are_free(size, &before, step, place, count_of(rows))?;
    let length = length_of(size, field)?;
    let kind = kind_of(field)?;
    Ok(with_names(alloc, before, names, step, place, length, kind)?)
}
