//! The command `records` of the program `term3270`: the records of sessions that were traced or
//! captured, as the lines that every other command reads.
#![tactic(auto)]

mod asked;
mod device;
mod fields;
mod follower;
mod law;
mod line;
mod live;
mod piece;
mod reading;
mod record;
mod run;
mod spelled;
mod start;
mod text;
mod told;
mod turn;

pub use asked::{Asked, Source};
pub use law::{pieces_law, sizes_law, text_law};
pub use live::Live;
pub use run::run_records;
pub use told::{Told, records_text};
pub use turn::{Turns, has_attention};
