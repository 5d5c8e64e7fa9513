//! What a script reads of a screen, as s3270 4.1 says it.
#![tactic(auto)]

mod buffer;
mod cells;
mod code_page;
mod connection;
mod field;
mod hexadecimal;
mod item;
mod key;
mod key_name;
mod law;
mod lines;
mod number;
mod pieces;
mod query;
mod reading;
mod region;
mod shown;
mod snap;
mod status;

pub use code_page::{CodePage, character_of, code_of};
pub use connection::{Connection, Device, Protocol};
pub use key::{Typed, key_of, push_key_fault};
pub use law::{codes_law, lines_law};
pub use lines::Outcome;
pub use number::read_number;
pub use pieces::{Piece, StringFault, StringKey, next_piece, push_string_fault};
pub use query::{Query, push_query};
pub use reading::{Reading, push_reading};
pub use shown::push_character;
pub use snap::{Kept, Snap, SnapFault, push_kept, push_snap_fault, snap_of};
pub use status::push_status;
