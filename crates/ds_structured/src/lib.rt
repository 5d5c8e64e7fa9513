//! Structured fields (GA23-0059, "Structured fields"): those of a host that a terminal without partitions obeys, and its replies to queries.
#![tactic(auto)]

mod field;
mod reply;

pub use field::{StructuredField, Wanted, read_fields};
pub use reply::write_query_reply;
