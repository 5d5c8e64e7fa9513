//! Hosts by their names.

ghost use Rattle.std.specs.Prelude.{◌≡◌, true, IfOk, OnOk};
ghost use Rattle.script_screens.specs.Laws.{LinkIsWhole, is_whole};
ghost use Rattle.script_screens.specs.Status.{link_seen};
ghost use Rattle.cli_scripts.specs.Answers.{printed_text};
ghost use Rattle.cli_scripts.specs.Desks.{link_of_host};

use crate::answer::push_printed;
use script_screens::{Connection, Protocol};
use std::alloc::{AllocError, Global};
use std::marker::Model;

/// The host of a connection. Its name has no controls.
#[derive(Debug, Drop)]
pub(crate) struct Host {
    name: Vec<u8>,
    port: u16,
}

impl Model for Host {
    ghost use Rattle.std.specs.Prelude.{◌≡◌, true};
    ghost use Rattle.script_screens.specs.Laws.{is_whole};
    ghost use Rattle.cli_scripts.specs.Desks.{NamedHost};

    ghost Value = { NamedHost };

    ghost view = { λ h. record { name = h.name.items; port = h.port } };

    ghost invariant = { λ h. is_whole h.name.items ≡ true };
}

impl Host {
    ghost use Rattle.std.specs.Prelude.{true};
    ghost use Rattle.script_screens.specs.Laws.{is_whole};

    /// A host of this name, in which a control is `?`.
    pub(crate) fn new(alloc: Global, name: &[u8], port: u16) -> Result<Host, AllocError>
        ensures { IfOk result (λ host.
            host ≡ record { name = printed_text name.now; port = port }) }
    {
        let mut printed = Vec::new(alloc);
        push_printed(&mut printed, name)?;
        Ok(Host {
            name: printed,
            port,
        })
    }

    /// Its name or number, as it was given.
    pub(crate) fn name(&self) -> &[u8]
        ensures value { result.now ≡ self.now.name }
        ensures whole { is_whole self.now.name ≡ true }
    {
        &self.name
    }

    pub(crate) fn port(&self) -> u16
        ensures { result ≡ self.now.port }
    {
        self.port
    }

    pub(crate) fn copied(&self, alloc: Global) -> Result<Host, AllocError>
        ensures { IfOk result (λ host. host ≡ self.now) }
    {
        Ok(Host {
            name: self.name.to_vec(alloc)?,
            port: self.port,
        })
    }
}

/// What is known of the connection to a host, where there is one. The logical unit's name is as it is to be told.
pub(crate) fn connection_to<'a>(
    host: &'a Option<Host>,
    protocol: Protocol,
    lu_name: &'a [u8],
) -> Option<Connection<'a>>
    requires { is_whole lu_name.now ≡ true }
    ensures value { link_seen result ≡ link_of_host host.now protocol lu_name.now }
    ensures whole { LinkIsWhole (link_of_host host.now protocol lu_name.now) }
{
    match host {
        Some(host) => Some(Connection {
            host: host.name(),
            port: host.port(),
            protocol,
            lu_name,
        }),
        None => None,
    }
}
