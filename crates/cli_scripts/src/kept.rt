//! Screens that Snap keeps.

ghost use Rattle.std.specs.Prelude.{◌≡◌, [], Some, IfOk, option_map};
ghost use Rattle.script_screens.specs.Laws.{LinkIsWhole};
ghost use Rattle.script_screens.specs.Status.{link_seen};
ghost use Rattle.cli_scripts.specs.Desks.{link_of_host};
ghost use Rattle.cli_scripts.specs.Says.{IsCopyOf};

use crate::desk::Desk;
use crate::host::{Host, connection_to};
use ds_screen::{PlaneCells, Screen};
use script_screens::{Connection, Protocol};
use std::alloc::{AllocError, Global};

/// A screen that was kept, and what was known of its connection.
#[derive(Drop)]
pub(crate) struct KeptScreen {
    pub(crate) screen: Screen<PlaneCells>,
    host: Option<Host>,
    protocol: Protocol,
    pub(crate) model: u8,
}

/// A copy of a host.
fn copied(alloc: Global, host: &Option<Host>) -> Result<Option<Host>, AllocError>
    ensures { IfOk result (λ copy. copy ≡ host.now) }
{
    match host {
        Some(host) => Ok(Some(host.copied(alloc)?)),
        None => Ok(None),
    }
}

impl KeptScreen {
    /// A copy of what is shown.
    pub(crate) fn of(alloc: Global, desk: &Desk) -> Result<KeptScreen, AllocError>
        ensures { IfOk result (λ kept. IsCopyOf desk.now (Some kept)) }
    {
        Ok(KeptScreen {
            screen: desk.screen().copied(alloc)?,
            host: copied(alloc, desk.host())?,
            protocol: desk.protocol(),
            model: desk.model(),
        })
    }

    pub(crate) fn connection(&self) -> Option<Connection<'_>>
        ensures value { link_seen result ≡ link_of_host self.now.host self.now.protocol [] }
        ensures whole { LinkIsWhole (link_of_host self.now.host self.now.protocol []) }
    {
        connection_to(&self.host, self.protocol, &[])
    }
}
