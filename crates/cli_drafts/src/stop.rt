//! The line of what keeps a screen from being drafted.

ghost use Rattle.std.specs.Prelude.{◌≡◌, IfOk};
ghost use Rattle.std.specs.String.{string_bytes};
ghost use Rattle.cli_drafts.specs.Draft.{stop_line};

use scr_check::Finding;
use std::alloc::{AllocError, Global};

/// The line of a finding, which comes before a layout is looked at.
pub(crate) fn stop_line(alloc: Global, finding: Finding) -> Result<String, AllocError>
    ensures { IfOk result (λ line. string_bytes line ≡ stop_line finding) }
{
    let mut line = String::new(alloc);
    finding.push_text(&mut line, &[])?;
    line.push_str("\n")?;
    Ok(line)
}
