//! The two ends of a TN3270 or TN3270E session (RFC 1576, RFC 2355), without a line and over one.
//!
//! A session is an object: bytes of the peer go in, in pieces of any length, and the bytes that are due to it come out. It
//! hands the events to the core of its end, which [`tn_cores`] is. A run is a loop around a session: it reads a line, and
//! writes what is due before it reads again. What a caller needs of the cores is handed on from here.
#![tactic(auto)]

mod arrived;
mod end_core;
mod fault;
mod history;
mod host_line;
mod host_machine;
mod host_session;
mod kept;
mod keystroke;
mod laws;
mod lu_name;
mod machine;
mod noted;
mod outcome;
mod pressed;
mod progress;
mod report;
mod responses;
mod run;
mod sent;
mod session;
mod stop;
mod terminal_events;
mod terminal_line;
mod terminal_machine;
mod terminal_session;
mod terminal_state;
mod terminal_turns;
mod tolerant_line;
mod turn;
mod wire;

pub use arrived::Arrived;
pub use fault::RunFault;
pub use history::History;
pub use host_line::host_run;
pub use host_session::HostSession;
pub use kept::{KeptRecord, KeptRecords, reads};
pub use keystroke::Keystroke;
pub use laws::{key_law, one_log, outcome_law, pieces_law, work_law};
pub use outcome::HostOutcome;
pub use pressed::Pressed;
pub use progress::Progress;
pub use report::{Report, RunEnd, TolerantReport};
pub use sent::{next_sequence, push_data};
pub use stop::Stop;
pub use terminal_line::terminal_run;
pub use terminal_session::TerminalSession;
pub use tn_cores::{
    Agreed, Device, DeviceName, HostCore, Out, ScreenModel, SessionFault, TermCore, Told,
    TolerantCore, delivery_law, pair_law, reply_law, storm_law, tolerant_pair_law, trace_law,
};
pub use tolerant_line::tolerant_run;
pub use wire::Wire;
