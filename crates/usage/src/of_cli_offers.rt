//! The example of `cli_offers`.

use cli_commands::CommandError;
use cli_offers::{Prepared, any_application};
use std::alloc::Global;

/// Whether records can be served, whatever they are.
fn can_be_served(alloc: Global, records: &[u8]) -> Result<bool, CommandError> {
    match any_application(alloc, records)? {
        Prepared::Ready(_) => Ok(true),
        Prepared::Stops(_) => Ok(false),
    }
}
