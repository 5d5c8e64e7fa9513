//! Records shown on a terminal.

ghost use Rattle.cli_commands.specs.Fault.{Gives};
ghost use Rattle.cli_commands.specs.Held.{ShowsAll, records_held};
ghost use Rattle.cli_commands.specs.Shown.{shown_on};

use crate::fault::{CommandError, Fault};
use ds_codec::Geometry;
use ds_screen::PlaneCells;
use ds_terminal::Terminal;
use std::alloc::Global;

/// Shows the records in turn, up to the first that is refused.
///
/// # Errors
///
/// The first record that is refused. It asks for no memory.
pub fn show_all(terminal: &mut Terminal<PlaneCells>, records: &[Vec<u8>]) -> Result<(), Fault>
    ensures { ShowsAll terminal.old terminal.new records.now result }
{
    for (index, bytes) in records.iter().enumerate() {
        match terminal.show(bytes.as_slice()) {
            Ok(_) => {}
            Err(refused) => return Err(Fault::RecordRefused(index, refused)),
        }
    }
    Ok(())
}

/// A new terminal of these sizes, which showed the records.
///
/// # Errors
///
/// The first record that is refused; out of memory.
pub fn shown_on(
    alloc: Global,
    geometry: Geometry,
    records: &[Vec<u8>],
) -> Result<Terminal<PlaneCells>, CommandError>
    ensures { Gives (λ terminal. terminal) result (shown_on geometry (records_held records.now)) }
{
    let mut terminal = Terminal::new(alloc, geometry)?;
    show_all(&mut terminal, records)?;
    Ok(terminal)
}
