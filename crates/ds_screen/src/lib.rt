//! The 3270 character buffer: what a terminal shows, and what each outbound record does to it.
#![tactic(auto)]

mod cells;
mod counted;
mod effect;
mod field;
mod fields;
mod index;
mod laws;
mod lock;
mod mark;
mod marks;
mod orders;
mod outline;
mod outline_fields;
mod plain;
mod plane_cells;
mod planes;
mod probed;
mod ranges;
mod records;
mod refused;
pub mod ring;
mod ruling;
mod screen;
mod shown;
mod state;
mod stored;
mod surface;
mod tab;
mod wcc;
mod writes;

pub use cells::Cells;
pub use counted::attr_before_counted;
pub use effect::Effect;
pub use field::FieldAt;
pub use fields::Fields;
pub use laws::{
    distance_is_least, each_write_has_an_effect, nearest_attribute_governs, one_effect,
    open_is_unprotected, records_stay_sound, refused_at_the_least,
};
pub use lock::Lock;
pub use outline::Outline;
pub use outline_fields::OutlineFields;
pub use plain::PlainCells;
pub use plane_cells::PlaneCells;
pub use probed::Probed;
pub use records::Reset;
pub use refused::{Refused, Why};
pub use screen::Screen;
pub use shown::{printed_under, text_of};
pub use writes::Write;
