//! A terminal as bytes of the caller's: its screen, cursor, keyboard and attention identifier, spelled so that equal terminals are
//! equal bytes, and records and keys that go from such a state to the next.
#![tactic(auto)]

mod applied;
mod calls;
mod drawn;
mod header;
mod laws;
mod opened;
mod reading;
mod spelled;

pub use applied::Applied;
pub use calls::{apply_record, new_state, press_key, take_record};
pub use laws::one_picture;
pub use opened::open_state;
pub use reading::{
    Status, pairs_of, read_buffer, read_cells, read_modified, read_status, status_of,
};
pub use spelled::{record_of, state_length, state_of};
