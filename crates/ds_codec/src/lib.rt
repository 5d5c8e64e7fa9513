//! The 3270 data stream: codes, buffer addresses, attributes, and outbound records read and written.
#![tactic(auto)]

mod address;
mod aid;
mod attribute;
mod cell;
mod character;
mod command;
mod digits;
mod front;
mod geometry;
mod order;
mod record;
mod refused;
mod size;
mod write;
mod write_control;

pub use address::{decode_address, encode_address, to_six_bit_code};
pub use aid::Aid;
pub use attribute::Attr;
pub use cell::Cell;
pub use character::{Char, is_graphic_code};
pub use command::{Command, CommandCode};
pub use digits::{byte_of_digits, bytes_of_digits};
pub use front::last_attr;
pub use geometry::{BadSize, Geometry};
pub use order::{Order, OrderCode, Placed};
pub use record::{Orders, Record, one_reading};
pub use refused::{Refused, Why};
pub use size::{Mode, Size};
pub use write::{Unwritable, push_character, push_order, write_record};
pub use write_control::WriteControlCharacter;
