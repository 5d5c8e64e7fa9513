//! What a script asks of the session: what `Wait` waits for, and the address that `Connect` takes, as s3270 4.1 reads them.
#![tactic(auto)]

mod address;
mod wait;

pub use address::{Address, AddressFault, push_address_fault, read_address};
pub use wait::{Awaited, Wait, WaitFault, read_wait};
