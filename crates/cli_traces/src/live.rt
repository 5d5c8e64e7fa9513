//! A session whose pieces come one after the other, as they pass.

ghost use Rattle.std.specs.Prelude.{◌≡◌, ◌++◌, ℕ, List, true, IfOk, OnOk, OnErr};
ghost use Rattle.std.specs.String.{string_bytes};
ghost use Rattle.cli_traces.specs.Live.{Follows, followed_first};

use crate::asked::Asked;
use crate::follower::Follower;
use crate::line::{Next, take_bytes};
use crate::reading::Reading;
use std::alloc::{AllocError, Global};
use std::marker::Model;
use tn_traces::Side;

/// What `records` prints of a session, piece by piece.
#[derive(Drop)]
pub struct Live {
    asked: Asked,
    /// What the comments name in place of a line of a trace.
    number: u64,
    follower: Follower,
    /// Whether a fault of the session was told.
    is_over: bool,
}

impl Model for Live {
    ghost use Rattle.std.specs.Prelude.{◌≡◌, false};
    ghost use Rattle.cli_traces.specs.Held.{following_seen, IsReady};
    ghost use Rattle.cli_traces.specs.Live.{Followed};

    ghost Value = { Followed };

    ghost view = { λ l. record {
      asked = l.asked;
      number = l.number;
      following = following_seen l.follower;
      is_over = l.is_over;
    } };

    ghost invariant = { λ l. l.is_over ≡ false → IsReady l.follower };
}

impl Live {
    /// A session at its beginning, of which this is asked. The comments name a number in place of a line of a trace.
    ///
    /// # Errors
    ///
    /// Where room for a record of each side was refused.
    pub fn new(alloc: Global, asked: Asked, number: u64) -> Result<Live, AllocError>
        ensures { IfOk result (λ live. live ≡ followed_first asked number) }
    {
        Ok(Live {
            asked,
            number,
            follower: Follower::new(alloc, Reading::first())?,
            is_over: false,
        })
    }

    /// Whether a fault of the session was told; then nothing more is printed.
    pub fn is_over(&self) -> bool
        ensures { result ≡ self.now.is_over }
    {
        self.is_over
    }

    /// Takes a piece of what a side sent, and adds its text.
    ///
    /// # Errors
    ///
    /// Where memory was refused. Nothing more is printed then.
    pub fn take(&mut self, side: Side, piece: &[u8], out: &mut String) -> Result<(), AllocError>
        ensures adds { OnOk result ((text : List ℕ)
            × (string_bytes out.new ≡ string_bytes out.old ++ text)
            × Follows self.old side piece.now text self.new) }
        ensures refused { OnErr result (self.new.is_over ≡ true) }
    {
        if self.is_over {
            return Ok(());
        }
        self.is_over = true;
        let next = take_bytes(
            self.asked,
            &mut self.follower,
            self.number,
            side,
            piece,
            out,
        )?;
        self.is_over = matches!(next, Next::Stops);
        Ok(())
    }
}
