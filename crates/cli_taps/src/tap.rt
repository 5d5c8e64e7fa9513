//! A tap between a terminal and a host.

ghost use Rattle.std.specs.Prelude.{◌≡◌, ◌++◌, ℕ, List, [], true, false, length, IfOk};
ghost use Rattle.tn_relay.specs.Relayed.{AreFaithful, Reads, TellsEnd, Writes, nothing_passed, way_from, way_to};
ghost use Rattle.cli_taps.specs.Listening.{Listens, listening_first};
ghost use Rattle.cli_taps.specs.Taps.{TellsAll};

use crate::listener::Listener;
use std::alloc::{AllocError, Global};
use std::marker::Model;
use tn_relay::{Gave, Line, Relay, Took};
use tn_session::History;
use tn_traces::Side;

/// A terminal, a host, and what passes between them: handed on as it came, and told as it passes. Contracts see what passed, how both sides
/// are followed, and all that was told.
#[derive(Drop)]
pub struct Tap<T: Line, H: Line> {
    number: u64,
    relay: Relay<T, H>,
    listener: Listener,
    told: History<u8>,
    /// Whether memory was refused: nothing more is told then, and all is handed on.
    is_deaf: bool,
}

impl<T: Line, H: Line> Model for Tap<T, H> {
    ghost use Rattle.std.specs.Prelude.{◌≡◌, false};
    ghost use Rattle.cli_taps.specs.Taps.{Tapped, IsTold};

    ghost Value = { Tapped };

    ghost view = { λ t. record {
      number = t.number;
      relayed = t.relay;
      listening = t.listener;
      told = t.told.items;
      is_deaf = t.is_deaf;
    } };

    ghost invariant = { λ t. t.is_deaf ≡ false → IsTold t.number t.relay t.listener t.told.items };
}

/// Adds bytes to a history.
fn add_bytes(history: &mut History<u8>, bytes: &[u8])
    ensures { history.new.items ≡ history.old.items ++ bytes.now }
{
    'bytes: for byte in bytes {
        *history = history.and(byte);
    }
}

/// Tells of a piece, unless memory was refused before.
fn tell(
    alloc: Global,
    listener: &mut Listener,
    is_deaf: &mut bool,
    side: Side,
    piece: &[u8],
    out: &mut Vec<u8>,
) -> Vec<u8>
    ensures tells { out.new.items ≡ out.old.items ++ result.items }
    ensures listens { is_deaf.new ≡ false → (is_deaf.old ≡ false)
        × Listens listener.old side piece.now result.items listener.new }
{
    let mut text = Vec::new(alloc);
    if *is_deaf {
        return text;
    }
    let told = listener.take(alloc, side, piece, &mut text);
    if told.is_err() || out.extend_from_slice(&text).is_err() {
        *is_deaf = true;
        return Vec::new(alloc);
    }
    text
}

impl<T: Line, H: Line> Tap<T, H> {
    /// A tap between two lines over which nothing passed; its session's number stands in what is told.
    ///
    /// # Errors
    ///
    /// Where room for the bytes of both ways, or for two records of each side, was refused.
    pub fn new(alloc: Global, number: u64, terminal: T, host: H) -> Result<Tap<T, H>, AllocError>
        requires terminal { (T.received terminal ≡ []) × (T.sent terminal ≡ [])
            × (T.told_end terminal ≡ false)
            × (T.read_answers terminal ≡ []) × (T.write_answers terminal ≡ []) }
        requires host { (H.received host ≡ []) × (H.sent host ≡ [])
            × (H.told_end host ≡ false)
            × (H.read_answers host ≡ []) × (H.write_answers host ≡ []) }
        ensures { IfOk result (λ tap. tap ≡ record {
          number = number;
          relayed = nothing_passed;
          listening = listening_first number;
          told = [];
          is_deaf = false;
        }) }
    {
        Ok(Tap {
            number,
            relay: Relay::new(alloc, terminal, host)?,
            listener: Listener::new(alloc, number)?,
            told: History::new(),
            is_deaf: false,
        })
    }

    /// What goes to a side is a front of what the other sent, and all of it once the side is told the end. What is told is what the pieces
    /// of the two streams tell, in the order in which they were read.
    pub fn keeps_promise(&self)
        ensures faithful { AreFaithful self.now.relayed }
        ensures told { TellsAll self.now }
    {
        self.relay.is_faithful();
        let _ = &self.listener;
    }

    /// The terminal's line.
    pub fn terminal(&self) -> &T
        ensures received { T.received result.now ≡ self.now.relayed.to_host.read }
        ensures sent { T.sent result.now ≡ self.now.relayed.to_terminal.written }
    {
        self.relay.terminal()
    }

    /// The host's line.
    pub fn host(&self) -> &H
        ensures received { H.received result.now ≡ self.now.relayed.to_terminal.read }
        ensures sent { H.sent result.now ≡ self.now.relayed.to_host.written }
    {
        self.relay.host()
    }

    /// Reads a side once, as far as there is room for it, and adds what that tells.
    pub fn read(&mut self, alloc: Global, side: Side, scratch: &mut [u8], out: &mut Vec<u8>) -> Gave
        ensures room { length scratch.new ≡ length scratch.old }
        ensures reads { Reads (way_from side self.old.relayed) scratch.new result
            (way_from side self.new.relayed) }
        ensures other { way_to side self.new.relayed ≡ way_to side self.old.relayed }
        ensures tells { (text : List ℕ) × (out.new.items ≡ out.old.items ++ text)
            × (self.new.told ≡ self.old.told ++ text) }
    {
        let gave = self.relay.read(side, scratch);
        if let Gave::Bytes(count) = gave {
            let piece = &scratch[..count];
            let text = tell(
                alloc,
                &mut self.listener,
                &mut self.is_deaf,
                side,
                piece,
                out,
            );
            add_bytes(&mut self.told, &text);
        }
        gave
    }

    /// Writes what is held for a side, once.
    pub fn write(&mut self, side: Side) -> Took
        ensures writes { Writes (way_to side self.old.relayed) result
            (way_to side self.new.relayed) }
        ensures other { way_from side self.new.relayed ≡ way_from side self.old.relayed }
        ensures rest { self.new ≡ record self.old { relayed = self.new.relayed } }
    {
        self.relay.write(side)
    }

    /// Tells a side the end of the other, where it came and all was written: whether it was.
    pub fn tell_end(&mut self, side: Side) -> bool
        ensures tells { TellsEnd (way_to side self.old.relayed) result
            (way_to side self.new.relayed) }
        ensures other { way_from side self.new.relayed ≡ way_from side self.old.relayed }
        ensures rest { self.new ≡ record self.old { relayed = self.new.relayed } }
    {
        self.relay.tell_end(side)
    }
}
