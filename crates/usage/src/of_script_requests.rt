//! The example of `script_requests`.

use script_requests::{Awaited, read_wait};

/// Whether arguments of `Wait` ask for an input field.
fn asks_for_input(arguments: &[Vec<u8>]) -> bool {
    match read_wait(arguments) {
        Ok(wait) => wait.what == Awaited::InputField,
        Err(_) => false,
    }
}
