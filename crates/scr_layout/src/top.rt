//! The keys at the top of a layout.

ghost use Rattle.std.specs.Prelude.{◌≡◌, None, option_map, IfOk, IfSome};
ghost use Rattle.toml.specs.View.{view, table_view, items_view};
ghost use Rattle.scr_layout.specs.Results.{Tells};
ghost use Rattle.scr_layout.specs.Values.{value_at, with_only};
ghost use Rattle.scr_layout.specs.Section.{IsHead};
ghost use Rattle.scr_layout.specs.Top.{top_keys, numbered_version, named_version, version_of, mode_of_bits, named_mode, mode_of, size_of, default_of, alternate_of, named_size, screen_of, tables_in, are_tables, tables_of, fields_of};

use crate::fault::{LayoutFault, LayoutKey, Why};
use crate::size_text::size_of_text;
use crate::values::{from_one_to, integer_of, text_of, value_at, with_only};
use ds_codec::{Mode, Size};
use toml::{Table, Value};

/// The version of a layout's keys.
#[derive(Clone, Copy)]
pub(crate) enum Version {
    /// A field stands for one entry.
    One,
    /// A field may stand for entries in rows.
    Two,
}

/// What the keys at the top say beside the fields.
#[derive(Clone, Copy)]
pub(crate) struct Head {
    pub version: Version,
    pub mode: Mode,
    pub default: Size,
    pub alternate: Size,
    pub size: Size,
}

const TOP_KEYS: [LayoutKey; 6] = [
    LayoutKey::Version,
    LayoutKey::Addresses,
    LayoutKey::Default,
    LayoutKey::Alternate,
    LayoutKey::Screen,
    LayoutKey::Field,
];

/// The table, if it has no key but those of the top.
pub(crate) fn top_of(table: &Table) -> Result<&Table, LayoutFault>
    ensures { Tells (λ t. table_view t.now) result (with_only top_keys (table_view table.now)) }
{
    with_only(&TOP_KEYS, table)
}

fn numbered_version(number: Option<u32>) -> Option<Version>
    ensures { result ≡ numbered_version number }
{
    match number {
        Some(1) => Some(Version::One),
        Some(2) => Some(Version::Two),
        _ => None,
    }
}

#[tactic(auto, unfolding(crate::specs::Top::named_version))]
fn named_version(value: &Value) -> Result<Version, LayoutFault>
    ensures { result ≡ named_version (view value.now) }
{
    let number = integer_of(LayoutKey::Version, value)?;
    match numbered_version(from_one_to(2, number)) {
        Some(version) => Ok(version),
        None => Err(LayoutFault::at_key(LayoutKey::Version, Why::WrongKind)),
    }
}

/// `version`: 1 or 2, and 1 where it is absent.
#[tactic(auto, unfolding(crate::specs::Top::version_of))]
pub(crate) fn version_of(top: &Table) -> Result<Version, LayoutFault>
    ensures { result ≡ version_of (table_view top.now) }
{
    match value_at(LayoutKey::Version, top) {
        Some(value) => named_version(value),
        None => Ok(Version::One),
    }
}

fn mode_of_bits(bits: Option<u32>) -> Option<Mode>
    ensures { result ≡ mode_of_bits bits }
{
    match bits {
        Some(14) => Some(Mode::Bits14),
        Some(16) => Some(Mode::Bits16),
        _ => None,
    }
}

#[tactic(auto, unfolding(crate::specs::Top::named_mode))]
fn named_mode(value: &Value) -> Result<Mode, LayoutFault>
    ensures { result ≡ named_mode (view value.now) }
{
    let bits = integer_of(LayoutKey::Addresses, value)?;
    match mode_of_bits(from_one_to(16, bits)) {
        Some(mode) => Ok(mode),
        None => Err(LayoutFault::at_key(LayoutKey::Addresses, Why::WrongKind)),
    }
}

/// `addresses`: of 14 or of 16 bits, of 14 where it is absent.
#[tactic(auto, unfolding(crate::specs::Top::mode_of))]
pub(crate) fn mode_of(top: &Table) -> Result<Mode, LayoutFault>
    ensures { result ≡ mode_of (table_view top.now) }
{
    match value_at(LayoutKey::Addresses, top) {
        Some(value) => named_mode(value),
        None => Ok(Mode::usual()),
    }
}

#[tactic(auto, unfolding(crate::specs::Top::size_of))]
fn size_of(mode: Mode, key: LayoutKey, value: &Value) -> Result<Size, LayoutFault>
    ensures { result ≡ size_of mode key (view value.now) }
{
    let text = text_of(key, value)?;
    match size_of_text(mode, text) {
        Some(size) => Ok(size),
        None => Err(LayoutFault::at_key(key, Why::BadSize)),
    }
}

/// `default`: a size, 24x80 where it is absent.
#[tactic(auto, unfolding(crate::specs::Top::default_of))]
pub(crate) fn default_of(mode: Mode, top: &Table) -> Result<Size, LayoutFault>
    ensures { result ≡ default_of mode (table_view top.now) }
{
    match value_at(LayoutKey::Default, top) {
        Some(value) => size_of(mode, LayoutKey::Default, value),
        None => Ok(Size { rows: 24, cols: 80 }),
    }
}

/// `alternate`: a size, the default one where it is absent.
#[tactic(auto, unfolding(crate::specs::Top::alternate_of))]
pub(crate) fn alternate_of(mode: Mode, default: Size, top: &Table) -> Result<Size, LayoutFault>
    ensures { result ≡ alternate_of mode default (table_view top.now) }
{
    match value_at(LayoutKey::Alternate, top) {
        Some(value) => size_of(mode, LayoutKey::Alternate, value),
        None => Ok(default),
    }
}

fn named_size(default: Size, alternate: Size, word: &str) -> Result<Size, LayoutFault>
    ensures { result ≡ named_size default alternate word.now }
{
    match word {
        "default" => Ok(default),
        "alternate" => Ok(alternate),
        _ => Err(LayoutFault::at_key(LayoutKey::Screen, Why::WrongKind)),
    }
}

/// `screen`: the size that it names, the default one where it is absent.
#[tactic(auto, unfolding(crate::specs::Top::screen_of))]
pub(crate) fn screen_of(default: Size, alternate: Size, top: &Table) -> Result<Size, LayoutFault>
    ensures { result ≡ screen_of default alternate (table_view top.now) }
{
    match value_at(LayoutKey::Screen, top) {
        Some(value) => named_size(default, alternate, text_of(LayoutKey::Screen, value)?),
        None => Ok(default),
    }
}

fn are_tables(values: &[Value]) -> bool
    ensures { result ≡ are_tables (items_view values.now) }
{
    values.iter().all(|value| value.is_table())
}

#[tactic(auto, unfolding(crate::specs::Top::tables_of))]
fn tables_of(value: &Value) -> Result<&[Value], LayoutFault>
    ensures { Tells (λ vs. tables_in (items_view vs.now)) result (tables_of (view value.now)) }
{
    let Some(values) = value.as_array() else {
        return Err(LayoutFault::at_key(LayoutKey::Field, Why::WrongKind));
    };
    if !are_tables(values) {
        return Err(LayoutFault::at_key(LayoutKey::Field, Why::WrongKind));
    }
    if values.len() > 1000 {
        return Err(LayoutFault::at_key(LayoutKey::Field, Why::TooManyFields));
    }
    Ok(values)
}

/// `field`: a list of at most 1,000 tables, none where it is absent.
#[tactic(auto, unfolding(crate::specs::Top::fields_of))]
pub(crate) fn fields_of(top: &Table) -> Result<&[Value], LayoutFault>
    ensures { Tells (λ vs. tables_in (items_view vs.now)) result (fields_of (table_view top.now)) }
{
    match value_at(LayoutKey::Field, top) {
        Some(value) => tables_of(value),
        None => Ok(&[]),
    }
}

fn read_head(table: &Table) -> Result<Head, LayoutFault>
    ensures { IfOk result (IsHead (table_view table.now)) }
{
    let top = top_of(table)?;
    let version = version_of(top)?;
    let mode = mode_of(top)?;
    let default = default_of(mode, top)?;
    let alternate = alternate_of(mode, default, top)?;
    let size = screen_of(default, alternate, top)?;
    Ok(Head {
        version,
        mode,
        default,
        alternate,
        size,
    })
}

/// What a top without `field` says, where nothing of it is to be refused.
pub(crate) fn head_of(top: &Table) -> Option<Head>
    ensures head { IfSome result (IsHead (table_view top.now)) }
    ensures alone { IfSome result (λ _. value_at LayoutKey.Field (table_view top.now) ≡ None) }
{
    if value_at(LayoutKey::Field, top).is_some() {
        return None;
    }
    read_head(top).ok()
}
