//! Hosts of one screen.

ghost use Rattle.std.specs.Prelude.{◌≡◌, [], map};
ghost use Rattle.cli_hosts.specs.Limits.{limits_for};

use crate::hosted::{Hosted, open_host};
use crate::hosts::Hosts;
use crate::limits::host_limits;
use crate::settling::{Settled, settle};
use cli_commands::{Status, TakesBytes};
use cli_sessions::Output;
use scr_layout::Layout;
use session_hub::{Hub, Stand};
use std::alloc::Global;
use std::marker::Model;

/// A hub whose sessions send the records of a screen, and read the answer by its layout.
#[derive(Drop)]
pub struct ScreenHosts<'a> {
    hub: Hub<Hosted<'a>>,
    layout: &'a Layout,
    records: &'a [&'a [u8]],
}

impl<'a> Model for ScreenHosts<'a> {
    ghost use Rattle.cli_hosts.specs.Screens.{ScreenHosting};

    ghost Value = { ScreenHosting };

    ghost view = { λ h. record { room = h.hub; entries = h.layout.now.entries } };
}

impl<'a> ScreenHosts<'a> {
    /// Hosts to whom no terminal came, who wait so many milliseconds for each; 0 is any time.
    pub fn new(
        alloc: Global,
        layout: &'a Layout,
        records: &'a [&'a [u8]],
        patience: u64,
    ) -> ScreenHosts<'a>
        ensures entries { result.entries ≡ layout.now.entries }
        ensures none { (result.room.seats ≡ []) × (result.room.came ≡ 0) }
        ensures limits { result.room.limits
            ≡ limits_for patience (map (λ bytes. bytes.now) records.now) }
    {
        ScreenHosts {
            hub: Hub::new(alloc, host_limits(records, patience)),
            layout,
            records,
        }
    }
}

impl<'a> Hosts for ScreenHosts<'a> {
    ghost use Rattle.std.specs.Prelude.{List};
    ghost use Rattle.scr_layout.specs.Entry.{Declared};
    ghost use Rattle.cli_hosts.specs.Hosting.{Hosting, HostTakes};
    ghost use Rattle.cli_hosts.specs.Screens.{IsToldOf};

    ghost Content = { List Declared };

    ghost content = { λ h. h.entries };

    ghost IsTold = { IsToldOf };

    ghost Sits = { Hosting };

    ghost room = { λ h. h.room };

    ghost takes = { HostTakes };

    fn came(&self) -> u64 {
        self.hub.came()
    }

    fn stand(&self, token: usize) -> Option<Stand> {
        self.hub.stand(token)
    }

    fn due(&self, token: usize) -> &[u8] {
        self.hub.due(token)
    }

    fn open(&mut self, alloc: Global, now: u64) -> Option<usize> {
        if self.hub.came() == u64::MAX {
            return None;
        }
        let Ok(token) = open_host(alloc, &mut self.hub, self.layout, self.records, now) else {
            return None;
        };
        Some(token)
    }

    fn hear(&mut self, alloc: Global, token: usize, now: u64, bytes: &[u8]) {
        self.hub.hear(alloc, token, now, bytes);
    }

    fn send(&mut self, token: usize, count: usize) {
        self.hub.send(token, count);
    }

    fn close(&mut self, token: usize) {
        self.hub.close(token);
    }

    fn break_off(&mut self, token: usize) {
        self.hub.break_off(token);
    }

    fn tick(&mut self, now: u64) {
        self.hub.tick(now);
    }

    fn settle<W: TakesBytes>(
        &mut self,
        alloc: Global,
        token: usize,
        output: &mut Output<W>,
    ) -> Result<Option<Settled>, Status> {
        settle(alloc, &mut self.hub, self.layout, token, output)
    }
}
