//! The commands `serve` and `attach` of the program `term3270`, over lines that are connected: which inputs they take, what
//! they print of each session, and the status with which they end.
#![tactic(auto)]

mod attach;
mod fault;
mod output;
mod screen;
mod serve;
mod session;
mod terminals;
mod tolerant;

pub use attach::attach_on;
pub use fault::fault_number;
pub use output::Output;
pub use screen::{Prepared, Screen, prepare_serve};
pub use serve::serve_on;
pub use session::{push_answered, push_fault};
pub use terminals::{Terminals, Visits};
pub use tolerant::{Timed, attach_tolerant_on};
