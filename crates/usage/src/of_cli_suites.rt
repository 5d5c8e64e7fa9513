//! The example of `cli_suites`.

use cli_commands::Answer;
use cli_suites::{Files, Form, suite_text};
use std::alloc::{AllocError, Global};

/// What `suite` prints of the screens of a manifest, and its status.
fn check<F: Files>(alloc: Global, files: &F, manifest: &[u8]) -> Result<Answer, AllocError> {
    suite_text(alloc, files, Form::Text, None, manifest)
}
