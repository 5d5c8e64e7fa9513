//! What each call on a terminal's state, or on a terminal that is held, leaves to C: a status, and numbers, flags and bytes in the caller's memory.
#![tactic(auto)]

mod applied;
mod drawing;
mod held;
mod held_calls;
mod held_reads;
mod items;
mod key;
mod made;
mod pressed;
mod status;
mod texts;

pub use applied::{Effect, apply_left};
pub use drawing::state_drawing;
pub use held::HeldTerminal;
pub use held_calls::{apply_held, free_held, hold_screen, load_held, new_held, press_held};
pub use held_reads::{
    held_buffer, held_cells, held_drawing, held_fields, held_modified, held_state, held_status,
};
pub use items::{TerminalField, fields_left};
pub use key::key_at;
pub use made::{length_told, new_left};
pub use pressed::press_left;
pub use status::{TerminalStatus, status_left};
pub use texts::{buffer_left, cells_left, lay, modified_left};
