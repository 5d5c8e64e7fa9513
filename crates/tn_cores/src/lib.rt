//! The cores of the two ends of a TN3270 or TN3270E session (RFC 1576, RFC 2355): each takes an event and gives bytes.
//!
//! A core is handed the events of a [`tn_wire::Deframer`]; it reads nothing, writes nothing, waits for nothing and takes
//! no memory.
#![tactic(auto)]

mod device;
mod grant;
mod heard;
mod host;
mod laws;
mod option;
mod reply;
mod session;
mod terminal;
mod tolerant;

pub use device::{Device, DeviceName, ScreenModel};
pub use host::HostCore;
pub use laws::{delivery_law, pair_law, reply_law, storm_law, tolerant_pair_law, trace_law};
pub use session::{Agreed, Out, SessionFault, Told};
pub use terminal::TermCore;
pub use tolerant::TolerantCore;
