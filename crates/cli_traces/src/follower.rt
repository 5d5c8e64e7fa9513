//! A connection: the streams of both sides, and what is known beside them.

ghost use Rattle.std.specs.Prelude.{◌≡◌, ◌++◌, length, IfOk, OnOk};
ghost use Rattle.std.specs.String.{string_bytes};
ghost use Rattle.tn_wire.specs.Stream.{Told};
ghost use Rattle.cli_traces.specs.Following.{connection, open_of, with_seen};
ghost use Rattle.cli_traces.specs.Held.{following_seen, IsReady, TakesSide};
ghost use Rattle.cli_traces.specs.Reading.{again, ends_text, event_log};
ghost use Rattle.cli_traces.specs.Start.{may_cut};
ghost use Rattle.cli_traces.specs.Taking.{TakesPiece};

use crate::piece::take_piece;
use crate::reading::{Reading, Task};
use std::alloc::{AllocError, Global};
use tn_session::RunFault;
use tn_traces::Side;
use tn_wire::Deframer;

/// The streams of a connection.
#[derive(Drop)]
pub(crate) struct Follower {
    host: Deframer,
    terminal: Deframer,
    /// The bytes that are open of each side's stream, as they came.
    host_count: usize,
    terminal_count: usize,
    reading: Reading,
}

impl Follower {
    /// The beginning of a connection, of which this is known.
    pub(crate) fn new(alloc: Global, reading: Reading) -> Result<Follower, AllocError>
        ensures begins { IfOk result (λ follower. following_seen follower ≡ connection reading) }
        ensures ready { IfOk result IsReady }
    {
        Ok(Follower {
            host: Deframer::new(alloc)?,
            terminal: Deframer::new(alloc)?,
            host_count: 0,
            terminal_count: 0,
            reading,
        })
    }

    /// Begins the next connection.
    pub(crate) fn reconnect(&mut self, alloc: Global) -> Result<(), AllocError>
        ensures begins { OnOk result
            (following_seen self.new ≡ connection (again self.old.reading)) }
        ensures ready { OnOk result (IsReady self.new) }
    {
        *self = Follower::new(alloc, self.reading.again())?;
        Ok(())
    }

    /// Takes a piece of what a side sent.
    pub(crate) fn take(
        &mut self,
        task: Task,
        piece: &[u8],
        out: &mut String,
    ) -> Result<(), RunFault>
        requires ready { IsReady self.old }
        ensures taken { TakesSide task task.side (following_seen self.old) piece.now
            (string_bytes out.old) result (following_seen self.new) (string_bytes out.new) }
        ensures ready { OnOk result (IsReady self.new) }
    {
        match task.side {
            Side::Host => take_piece(
                task,
                &mut self.host,
                &mut self.host_count,
                &mut self.reading,
                out,
                piece,
            ),
            Side::Terminal => take_piece(
                task,
                &mut self.terminal,
                &mut self.terminal_count,
                &mut self.reading,
                out,
                piece,
            ),
        }
    }

    /// Whether text may still come of a side.
    pub(crate) fn may_cut(&self, side: Side) -> bool
        ensures { result ≡ may_cut side (following_seen self.now).reading.start }
    {
        self.reading.start.may_cut(side)
    }

    /// Whether what is open of a side's stream is text, and ends here.
    pub(crate) fn ends_text(&self, side: Side) -> bool
        ensures { result ≡ ends_text side (following_seen self.now).reading }
    {
        self.reading.ends_text(side)
    }

    /// Sees a byte of the host's, before its first record.
    pub(crate) fn see(&mut self, byte: u8)
        requires { IsReady self.old }
        ensures seen { following_seen self.new ≡ with_seen byte (following_seen self.old) }
        ensures ready { IsReady self.new }
    {
        self.reading = self.reading.scanned(byte);
    }

    /// The bytes that are open of a side's stream, as they came.
    pub(crate) fn open_count(&self, side: Side) -> usize
        requires { IsReady self.now }
        ensures { result ≡ length (open_of side (following_seen self.now)) }
    {
        match side {
            Side::Host => self.host_count,
            Side::Terminal => self.terminal_count,
        }
    }
}
