//! What `check` answers to a screen, whose layout isn't read again where it has the last one's text.

ghost use Rattle.cli_commands.specs.declared.output.demo.Demos.TheVariants.{Omitted};
ghost use Rattle.cli_commands.specs.Check.{check};
ghost use Rattle.cli_commands.specs.Fault.{Gives};
ghost use Rattle.cli_commands.specs.Held.{answer_seen};

use cli_commands::{Answer, CommandError, LastLayout};
use std::alloc::Global;

/// What `check` answers to the texts of a layout and of records. The layout is then the last.
pub(crate) fn check_remembering(
    alloc: Global,
    last: &mut Option<LastLayout>,
    layout: &[u8],
    records: &[u8],
) -> Result<Answer, CommandError>
    ensures { Gives answer_seen result (check Omitted layout.now records.now) }
{
    if let Some(known) = last {
        if known.is_of(layout) {
            return known.check(alloc, records);
        }
    }
    let mut read = LastLayout::new(alloc, layout)?;
    let answer = read.check(alloc, records);
    *last = Some(read);
    answer
}
