//! BMS maps: from a source to maps, and of each map its record, its layout and its overlaps.
#![tactic(auto)]

mod bits;
mod characters;
mod field;
mod fields;
mod groups;
mod keyword;
mod laws;
mod layout;
mod list;
mod lookup;
mod macros;
mod map;
mod mapset;
mod names;
mod operands;
mod overlap;
mod pairs;
mod picture;
mod place;
mod record;
mod refuse;
mod screen;
mod sheet;
mod text;
mod values;

pub use bits::Bits;
pub use field::{Field, Later, Looks};
pub use laws::{maps_are_fit, records_are_written};
pub use layout::{layout_text, push_label};
pub use map::Map;
pub use mapset::read_maps;
pub use overlap::{Overlap, nearest_is_one, overlaps_are_nearest, overlaps_of};
pub use pairs::pairs_are_good;
pub use place::{Area, Extent};
pub use record::{Control, record_of};
pub use sheet::fields_are_in_order;
pub use text::texts_are_text;
