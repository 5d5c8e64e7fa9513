//! The example of `cli_binds`.

use cli_binds::{Form, bind_texts};
use cli_commands::{Answer, CommandError};
use std::alloc::Global;

/// What `bind --text` prints, and its status.
fn bind(alloc: Global, layout: &[u8], answers: &[u8]) -> Result<Answer, CommandError> {
    bind_texts(alloc, layout, answers, Form::Text)
}
