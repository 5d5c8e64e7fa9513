//! Bytes that a terminal sends.

ghost use Rattle.std.specs.Prelude.{◌≡◌, ◌++◌, OnOk};
ghost use Rattle.std.specs.String.{string_bytes};
ghost use Rattle.cli_commands.specs.Screen.{sent_line};

use order_lines::push_bytes;
use std::alloc::AllocError;

/// A line of a word and bytes in hexadecimal.
pub fn push_sent(out: &mut String, word: &str, bytes: &[u8]) -> Result<(), AllocError>
    ensures { OnOk result (string_bytes out.new ≡ string_bytes out.old
        ++ sent_line word.now bytes.now) }
{
    out.push_str(word)?;
    push_bytes(out, bytes)?;
    out.push_str("\n")
}
