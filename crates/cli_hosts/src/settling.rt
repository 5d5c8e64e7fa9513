//! A terminal that ended, from the hub to its lines.

ghost use Rattle.std.specs.Prelude.{◌≡◌};
ghost use Rattle.session_hub.specs.Hubs.{At, Leaves, Steps, seat_at, ended_in};
ghost use Rattle.cli_hosts.specs.Hosting.{HostTakes};
ghost use Rattle.cli_hosts.specs.Printed.{PrintsMore};
ghost use Rattle.cli_hosts.specs.Words.{PrintsEnded, Settles};

use crate::hosted::Hosted;
use crate::lines::print;
use crate::word::{settled_of, word_of, word_text};
use cli_commands::{Status, TakesBytes};
use cli_sessions::Output;
use scr_layout::Layout;
use session_hub::{Ended, Hub};
use std::alloc::Global;

/// What became of a terminal.
#[derive(Clone, Copy, Debug, PartialEq, Eq)]
pub enum Settled {
    /// It answered.
    Answered,
    /// Its session failed, or its line did, or it went past a limit.
    Failed,
    /// Memory was refused to its session.
    Starved,
}

/// Writes the lines of a terminal that ended, and flushes. Else the status with which the command ends.
fn print_ended<W: TakesBytes>(
    alloc: Global,
    layout: &Layout,
    ended: Ended<Hosted<'_>>,
    output: &mut Output<W>,
) -> Result<Settled, Status>
    ensures { PrintsEnded layout.now.entries ended.entry output.old output.new result }
{
    let Ended {
        session,
        number,
        end,
    } = ended;
    let word = word_of(session, end);
    let Ok(text) = word_text(alloc, layout, number, &word) else {
        return Err(Status::NoMemory);
    };
    if print(alloc, output, text) {
        Ok(settled_of(&word))
    } else {
        Err(Status::Failed)
    }
}

/// Where the terminal of a token ended, it leaves the hub, and its lines are written.
fn settle_ended<'a, W: TakesBytes>(
    alloc: Global,
    hub: &mut Hub<Hosted<'a>>,
    layout: &Layout,
    token: usize,
    output: &mut Output<W>,
) -> Result<Option<Settled>, Status>
    ensures left { Steps HostTakes hub.old.limits (At token Leaves) hub.old.seats hub.new.seats }
    ensures others { (hub.new.limits ≡ hub.old.limits) × (hub.new.came ≡ hub.old.came) }
    ensures printed { Settles layout.now.entries (ended_in (seat_at token hub.old.seats))
        output.old output.new result }
{
    let Some(ended) = hub.leave(token) else {
        return Ok(None);
    };
    let settled = print_ended(alloc, layout, ended, output)?;
    Ok(Some(settled))
}

/// Where the terminal of a token ended, it leaves the hub, and its lines are written and flushed. Else the status with which the
/// command ends: memory was refused for the lines, or a write of them failed.
pub fn settle<'a, W: TakesBytes>(
    alloc: Global,
    hub: &mut Hub<Hosted<'a>>,
    layout: &Layout,
    token: usize,
    output: &mut Output<W>,
) -> Result<Option<Settled>, Status>
    ensures left { Steps HostTakes hub.old.limits (At token Leaves) hub.old.seats hub.new.seats }
    ensures others { (hub.new.limits ≡ hub.old.limits) × (hub.new.came ≡ hub.old.came) }
    ensures printed { Settles layout.now.entries (ended_in (seat_at token hub.old.seats))
        output.old output.new result }
    // So what is written over any calls is lines of terminals, whole; and then no more, or a part of those of one.
    ensures whole { PrintsMore layout.now.entries output.old output.new result }
{
    settle_ended(alloc, hub, layout, token, output)
}
