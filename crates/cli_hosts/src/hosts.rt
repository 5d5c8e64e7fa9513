//! What a server of many terminals is over: a hub, with what its sessions serve, and what is printed of each.

use crate::settling::Settled;
use cli_commands::{Status, TakesBytes};
use cli_sessions::Output;
use session_hub::Stand;
use std::alloc::Global;

/// Terminals by tokens, what is served to them, and what is printed of each that ended.
pub trait Hosts: Drop {
    ghost use Rattle.std.specs.Prelude.{ℕ, List, ◌≡◌, ◌+◌, ◌<◌, Option, IfSome, IfNone};
    ghost use Rattle.session_hub.specs.declared.session.Came.{Came};
    ghost use Rattle.session_hub.specs.Hubs.{At, Closes, Breaks, Hears, Leaves, Passed, Room, Sends, Steps, due_in, ended_in, stand_in, seat_at};
    ghost use Rattle.cli_hosts.specs.declared.settling.Settled.{Settled};
    ghost use Rattle.cli_hosts.specs.Hosts.{Opened, SettlesOne, TellsOne};

    /// What is served, which no call changes.
    ghost Content: { Type 0 };

    ghost content: { Self → Content };

    /// What may be printed of the terminal of a number, where this became of it.
    ghost IsTold: { Content → ℕ → Settled → List ℕ → Type 0 };

    /// The sessions, and what bytes do to one.
    ghost Sits: { Type 0 };

    ghost room: { Self → Room Sits };

    ghost takes: { Sits → List ℕ → Came → List ℕ → Sits → Type 0 };

    /// How many terminals came.
    fn came(&self) -> u64
        ensures { result ≡ (room self.now).came };

    /// How the terminal of a token stands; none where there is none.
    fn stand(&self, token: usize) -> Option<Stand>
        ensures { result ≡ stand_in (seat_at token (room self.now).seats) };

    /// What is due to the terminal of a token.
    fn due(&self, token: usize) -> &[u8]
        ensures { result.now ≡ due_in (seat_at token (room self.now).seats) };

    /// A terminal came: its token. None where memory was refused, or no more can be counted; it did not come then.
    fn open(&mut self, alloc: Global, now: u64) -> Option<usize>
        ensures kept { content self.new ≡ content self.old }
        ensures opened { Opened takes (room self.old) now (room self.new) result };

    /// Bytes came from the terminal of a token, at this time.
    fn hear(&mut self, alloc: Global, token: usize, now: u64, bytes: &[u8])
        ensures kept { content self.new ≡ content self.old }
        ensures heard { Steps takes (room self.old).limits (At token (Hears now bytes.now))
            (room self.old).seats (room self.new).seats }
        ensures counted { (room self.new).came ≡ (room self.old).came };

    /// So many of the bytes that were due to the terminal of a token went out.
    fn send(&mut self, token: usize, count: usize)
        ensures kept { content self.new ≡ content self.old }
        ensures sent { Steps takes (room self.old).limits (At token (Sends count))
            (room self.old).seats (room self.new).seats }
        ensures counted { (room self.new).came ≡ (room self.old).came };

    /// The line to the terminal of a token closed: a read gave nothing.
    fn close(&mut self, token: usize)
        ensures kept { content self.new ≡ content self.old }
        ensures closed { Steps takes (room self.old).limits (At token Closes)
            (room self.old).seats (room self.new).seats }
        ensures counted { (room self.new).came ≡ (room self.old).came };

    /// The line to the terminal of a token broke: a read or a write of it failed.
    fn break_off(&mut self, token: usize)
        ensures kept { content self.new ≡ content self.old }
        ensures broken { Steps takes (room self.old).limits (At token Breaks)
            (room self.old).seats (room self.new).seats }
        ensures counted { (room self.new).came ≡ (room self.old).came };

    /// It is this time now: each terminal of which nothing came for too long has ended.
    fn tick(&mut self, now: u64)
        ensures kept { content self.new ≡ content self.old }
        ensures ticked { Steps takes (room self.old).limits (Passed now)
            (room self.old).seats (room self.new).seats }
        ensures counted { (room self.new).came ≡ (room self.old).came };

    /// Where the terminal of a token ended, it leaves, and its lines are written and flushed. Else the status with which the
    /// command ends: memory was refused for the lines, or a write of them failed.
    fn settle<W: TakesBytes>(
        &mut self,
        alloc: Global,
        token: usize,
        output: &mut Output<W>,
    ) -> Result<Option<Settled>, Status>
        ensures kept { content self.new ≡ content self.old }
        ensures counted { (room self.new).came ≡ (room self.old).came }
        ensures left { Steps takes (room self.old).limits (At token Leaves)
            (room self.old).seats (room self.new).seats }
        ensures settled { SettlesOne (ended_in (seat_at token (room self.old).seats)) result }
        ensures told { TellsOne (IsTold (content self.old)) output.old output.new result };
}
