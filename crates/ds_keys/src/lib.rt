//! The operator's keys: what each does to every cell, the cursor, the keyboard's lock and the attention
//! identifier of a screen.
#![tactic(auto)]

mod edits;
mod fields;
mod key;
mod keyboard;
mod laws;
mod line;
mod moves;
mod pressed;
mod runs;

pub use key::Key;
pub use keyboard::press;
pub use laws::{keep_law, one_step, quiet_keep_law, shape_law, sound_law, touched_law};
pub use line::key_of_line;
pub use pressed::Pressed;
pub use runs::end_of_row;
