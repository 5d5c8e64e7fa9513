//! What the macros of a map tell.

ghost use Rattle.std.specs.Prelude.{◌≡◌, ◌≤◌, ◌<◌, ◌+◌, ◌*◌, length, nat_le, nat_lt, ◌==◌};
ghost use Rattle.std.specs.List.{list_any};
ghost use Rattle.bms_map.specs.Maps.{its_ground};
ghost use Rattle.bms_map.specs.Overlaps.{cell_in};
ghost use Rattle.bms_map.specs.LayoutText.{lower};
ghost use Rattle.bms_map.specs.Entries.{index_at, label_name, group_name, names_in, names_of, cells_from, attributes_in, attributes_of, text_of, pairs_size, occurrence_size, later_size, size_in, size_of, same};
ghost use Rattle.std.specs.Option.{option_map};
ghost use Rattle.bms_map.specs.Fields.{last_entry};
ghost use Rattle.bms_map.specs.declared.macros.TheConstants.{MOST_ATTRIBUTES, MOST_BYTES};
ghost use Rattle.std.specs.Prelude.{map};

use crate::bits::Bits;
use crate::field::Looks;
use crate::names::lower;
use crate::place::Area;
use std::marker::Model;

/// The most attributes of a map.
pub(crate) const MOST_ATTRIBUTES: u32 = 1000;
/// The most bytes of addresses, attributes and texts of a map.
pub(crate) const MOST_BYTES: u32 = 32_000;

/// A DFHMDF.
#[derive(Drop)]
pub(crate) struct FieldMacro {
    /// In upper case; empty where there is none.
    pub(crate) label: Vec<u8>,
    /// GRPNAME in upper case.
    pub(crate) group: Option<Vec<u8>>,
    /// It goes on with the group of the one before it.
    pub(crate) is_later: bool,
    /// Its place in the map, counted from 0.
    pub(crate) index: u32,
    pub(crate) length: u32,
    pub(crate) occurs: u32,
    pub(crate) text: Option<Vec<u8>>,
    pub(crate) attribute: u8,
    pub(crate) has_cursor: bool,
    pub(crate) looks: Looks,
    pub(crate) line: usize,
}

impl Model for FieldMacro {
    ghost use Rattle.std.specs.Prelude.{◌≤◌, ◌<◌, IfSome};
    ghost use Rattle.std.specs.Option.{option_map};
    ghost use Rattle.std.specs.Vec.{vec_len};
    ghost use Rattle.bms_map.specs.Entries.{Entry};

    ghost Value = { Entry };

    ghost view = { λ f. record { label = f.label.items; group = option_map (λ g. g.items) f.group; is_later = f.is_later; index = f.index; length = f.length; occurs = f.occurs; text = option_map (λ t. t.items) f.text; attribute = f.attribute; has_cursor = f.has_cursor; looks = f.looks; line = f.line } };

    ghost invariant = { λ f. (f.index ≤ 65025) × (f.length ≤ 256) × (f.occurs ≤ 1000) × (f.attribute < 64) × IfSome f.text (λ t. vec_len t ≤ f.length) };
}

/// A DFHMDI and its fields.
#[derive(Drop)]
pub(crate) struct MapMacro {
    pub(crate) name: Vec<u8>,
    pub(crate) line: usize,
    pub(crate) area: Area,
    pub(crate) control: Bits,
    pub(crate) looks: Looks,
    pub(crate) entries: Vec<FieldMacro>,
}

impl Model for MapMacro {
    ghost use Rattle.bms_map.specs.Maps.{its_ground};
    ghost use Rattle.bms_map.specs.Entries.{Section};

    ghost Value = { Section };

    ghost view = { λ m. record { name = m.name.items; line = m.line; area = its_ground m.area; control = m.control.bits; looks = m.looks; entries = m.entries.items } };
}

/// The place of an occurrence, counted from 0.
fn place_at(index: u32, length: u32, k: u32) -> u32
    requires index { index ≤ 65025 }
    requires length { length ≤ 256 }
    requires few { k ≤ 1000 }
    ensures place { result ≡ index + k * (length + 1) }
    ensures small { result ≤ 400000 }
{
    index + k * (length + 1)
}

impl MapMacro {
    pub(crate) fn its_area(&self) -> Area
        ensures { its_ground result ≡ self.now.area }
    {
        self.area
    }

    pub(crate) fn its_entries(&self) -> &[FieldMacro]
        ensures { result.now ≡ self.now.entries }
    {
        self.entries.as_slice()
    }

    pub(crate) fn its_looks(&self) -> Looks
        ensures { result ≡ self.now.looks }
    {
        self.looks
    }
}

impl FieldMacro {
    pub(crate) fn its_label(&self) -> &[u8]
        ensures { result.now ≡ self.now.label }
    {
        self.label.as_slice()
    }

    /// How often it stands, at most 1,000 times.
    pub(crate) fn count(&self) -> u32
        ensures count { result ≡ self.now.occurs }
        ensures few { result ≤ 1000 }
    {
        self.occurs
    }

    /// Its length, at most 256.
    pub(crate) fn size(&self) -> u32
        ensures size { result ≡ self.now.length }
        ensures few { result ≤ 256 }
    {
        self.length
    }

    /// The place of an occurrence, counted from 0.
    pub(crate) fn index_at(&self, k: u32) -> u32
        requires { k ≤ 1000 }
        ensures place { result ≡ index_at self.now k }
        ensures small { result ≤ 400000 }
    {
        place_at(self.index, self.length, k)
    }

    /// The position of an occurrence on the screen.
    pub(crate) fn cell_at(&self, area: Area, k: u32) -> u32
        requires { k ≤ 1000 }
        ensures cell { result ≡ cell_in (its_ground area) (index_at self.now k) }
        ensures small { result ≤ 60000000 }
    {
        area.cell(self.index_at(k))
    }

    /// The position of its place.
    pub(crate) fn cell(&self, area: Area) -> u32
        ensures cell { result ≡ cell_in (its_ground area) self.now.index }
        ensures small { result ≤ 60000000 }
    {
        area.cell(self.index)
    }

    /// How many characters its text has, with the blanks.
    fn text_size(&self) -> u32
        ensures size { result ≡ length (text_of self.now) }
        ensures few { result ≤ 256 }
    {
        match &self.text {
            None => 0,
            Some(_text) => self.length,
        }
    }

    /// The bytes of one occurrence.
    fn occurrence_size(&self) -> u32
        ensures size { result ≡ occurrence_size self.now }
        ensures few { result ≤ 300 }
    {
        3 + pairs_size(self.looks.count()) + self.text_size()
    }

    /// Its bytes as a later field of a group.
    pub(crate) fn later_size(&self) -> u32
        ensures size { result ≡ later_size (length (text_of self.now)) }
        ensures few { result ≤ 300 }
    {
        let size = self.text_size();
        if size == 0 { 0 } else { 3 + size }
    }

    /// The bytes of so many occurrences.
    pub(crate) fn size_of(&self, occurs: u32) -> u32
        requires { occurs ≤ 1000 }
        ensures size { result ≡ occurs * occurrence_size self.now }
        ensures few { result ≤ 300000 }
    {
        occurs * self.occurrence_size()
    }

    /// Its bytes in the record.
    fn size_in(&self) -> u32
        ensures size { result ≡ size_in self.now }
        ensures few { result ≤ 300000 }
    {
        if self.is_later {
            return self.later_size();
        }
        self.size_of(self.count())
    }

    /// Whether it goes on with the group of the one before it.
    fn is_part(&self) -> bool
        ensures { result ≡ self.now.is_later }
    {
        self.is_later
    }

    /// How many attributes it has.
    fn attributes(&self, area: Area) -> u32
        ensures count { result ≡ length (attributes_in (its_ground area) self.now) }
        ensures few { result ≤ 1000 }
    {
        if self.is_part() { 0 } else { self.count() }
    }

    /// Whether an occurrence stands at a position.
    fn stands_at(&self, area: Area, k: u32, cell: u32) -> bool
        requires { k ≤ 1000 }
        ensures { result ≡ (cell_in (its_ground area) (index_at self.now k) == cell) }
    {
        self.cell_at(area, k) == cell
    }

    /// Whether one of the occurrences stands at a position.
    fn is_at(&self, area: Area, cell: u32) -> bool
        ensures { result ≡ list_any (λ c. c == cell) (cells_from (its_ground area) self.now) }
    {
        let count = self.count();
        'occurrences: for k in 0..count {
            if self.stands_at(area, k, cell) {
                return true;
            }
        }
        false
    }

    fn has_attribute(&self, area: Area, cell: u32) -> bool
        ensures { result ≡ list_any (λ c. c == cell) (attributes_in (its_ground area) self.now) }
    {
        if self.is_later {
            return false;
        }
        self.is_at(area, cell)
    }

    fn has_name(&self, name: &[u8]) -> bool
        ensures { result ≡ list_any (same name.now) (names_in self.now) }
    {
        if is_label_name(self.label.as_slice(), name) {
            return true;
        }
        if self.is_later {
            return false;
        }
        match &self.group {
            None => false,
            Some(group) => is_lower(name, group.as_slice()),
        }
    }
}

/// The bytes of an attribute with so many pairs.
fn pairs_size(pairs: u32) -> u32
    requires { pairs ≤ 4 }
    ensures size { result ≡ pairs_size pairs }
    ensures few { result ≤ 12 }
{
    if pairs == 0 { 2 } else { 4 + 2 * pairs }
}

/// Whether two texts are the same.
pub(crate) fn same(one: &[u8], other: &[u8]) -> bool
    ensures { result ≡ same one.now other.now }
{
    match one {
        [] => other.is_empty(),
        [a, others @ ..] => match other {
            [] => false,
            [b, rest @ ..] => *a == *b && same(others, rest),
        },
    }
}

/// Whether a name is the layout name of a label.
fn is_lower(name: &[u8], label: &[u8]) -> bool
    ensures { result ≡ same name.now (map lower label.now) }
{
    match name {
        [] => label.is_empty(),
        [a, others @ ..] => match label {
            [] => false,
            [b, rest @ ..] => *a == lower(*b) && is_lower(others, rest),
        },
    }
}

pub(crate) fn is_label_name(label: &[u8], name: &[u8]) -> bool
    ensures { result ≡ list_any (same name.now) (label_name label.now) }
{
    match label {
        [] => false,
        [_first, ..] => is_lower(name, label),
    }
}

/// Whether fields have a layout name.
pub(crate) fn is_taken(entries: &[FieldMacro], name: &[u8]) -> bool
    ensures { result ≡ list_any (same name.now) (names_of entries.now) }
{
    let mut rest = entries;
    while let [entry, others @ ..] = rest {
        if entry.has_name(name) {
            return true;
        }
        rest = others;
    }
    false
}

/// Whether an attribute stands at a position.
pub(crate) fn has_attribute(area: Area, entries: &[FieldMacro], cell: u32) -> bool
    ensures { result ≡ list_any (λ c. c == cell) (attributes_of (its_ground area) entries.now) }
{
    let mut rest = entries;
    while let [entry, others @ ..] = rest {
        if entry.has_attribute(area, cell) {
            return true;
        }
        rest = others;
    }
    false
}

/// Whether fields have as many attributes as a map may have, with so many more.
pub(crate) fn are_most(area: Area, entries: &[FieldMacro], more: u32) -> bool
    ensures { result
        ≡ nat_le MOST_ATTRIBUTES (length (attributes_of (its_ground area) entries.now) + more) }
{
    let mut left = MOST_ATTRIBUTES;
    let mut rest = entries;
    while let [entry, others @ ..] = rest {
        let count = entry.attributes(area);
        if left <= count {
            return true;
        }
        left -= count;
        rest = others;
    }
    left <= more
}

/// Whether fields have more bytes than a map may have, with so many more.
pub(crate) fn is_too_much(entries: &[FieldMacro], more: u32) -> bool
    ensures { result ≡ nat_lt MOST_BYTES (size_of entries.now + more) }
{
    let mut left = MOST_BYTES;
    let mut rest = entries;
    while let [entry, others @ ..] = rest {
        let size = entry.size_in();
        if left < size {
            return true;
        }
        left -= size;
        rest = others;
    }
    left < more
}

/// The last field.
pub(crate) fn last_entry(entries: &[FieldMacro]) -> Option<&FieldMacro>
    ensures { option_map (λ entry. entry.now) result ≡ last_entry entries.now }
{
    match entries {
        [] => None,
        [entry] => Some(entry),
        [_entry, others @ ..] => last_entry(others),
    }
}
