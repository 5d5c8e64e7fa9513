//! A screen as people look at it: the further forms in which the command `show` of the program `term3270` prints.
#![tactic(auto)]

mod annotated;
mod codes;
mod colored;
mod drawing;
mod html;
mod json;
mod law;
mod list;
mod look;
mod marks;
mod notes;
mod picture;
mod pressed;
mod room;
mod rows;
mod seen;
mod svg;

pub use annotated::{Annotated, annotated_text, run_annotated};
pub use drawing::Drawing;
pub use law::{drawing_law, looks_law, names_law};
pub use picture::{picture_text, run_picture};
pub use pressed::pressed_text;
pub use seen::{seen_at, shown_at};
