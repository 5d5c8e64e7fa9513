//! What a session is told by: what one event does.

use crate::fault::RunFault;
use crate::turn::Turn;
use std::alloc::Global;
use tn_wire::Event;

/// A machine that takes events and gives bytes.
pub(crate) trait Machine: Drop {
    ghost use Rattle.std.specs.Prelude.{◌≡◌, []};
    ghost use Rattle.tn_wire.specs.Stream.{Told};
    ghost use Rattle.tn_wire.specs.Calls.{told_of};
    ghost use Rattle.tn_session.specs.Runs.{Log};
    ghost use Rattle.tn_session.specs.Ran.{Does};

    /// What an event does to it.
    ghost act: { Self → Told → Log Self };

    /// Takes an event, with the bytes that are then due in `due`, which held none.
    fn take(
        &mut self,
        alloc: Global,
        event: &Event<'_>,
        due: &mut Vec<u8>,
    ) -> Result<Turn, RunFault>
        requires empty { due.old.items ≡ [] }
        ensures { Does (act self.old (told_of event.now)) result self.new due.new.items };
}
