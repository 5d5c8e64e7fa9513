//! The example of `cli_reasons`.

use cli_reasons::{Flaw, SizesBy, record_flaw};

/// What is wrong with a line of hexadecimal.
fn flaw(line: &[u8]) -> Flaw {
    record_flaw(SizesBy::Line, line)
}
