//! A session's turn: bytes pass both ways until neither goes on.

ghost use Rattle.std.specs.Prelude.{◌≡◌, ◌++◌, ◌<◌, ℕ, List, length};
ghost use Rattle.tn_relay.specs.Relayed.{way_from, way_to};
ghost use Rattle.cli_taps.specs.Rounds.{EndsRound, Passes, TellsUnless, gave_nothing, is_failed, other_of, passed_of, took_nothing, turn_of};

use crate::tap::Tap;
use std::alloc::Global;
use tn_relay::{Gave, Line, Took};
use tn_traces::Side;

/// The most rounds of one turn, so that other sessions get theirs.
const MOST_ROUNDS: u32 = 32;

/// What becomes of a session after its turn.
#[derive(Clone, Copy, Debug, PartialEq, Eq)]
pub enum Turn {
    /// Nothing passes until a line has something.
    Waits,
    /// More may pass at once.
    HasMore,
    /// Both ways are over.
    Ends,
}

/// What became of one way in a round.
#[derive(Clone, Copy, Debug, PartialEq, Eq)]
pub(crate) enum Passed {
    Something,
    Nothing,
    /// Its end was told, or its bytes are no longer taken.
    Over,
}

fn other(side: Side) -> Side
    ensures { result ≡ other_of side }
{
    match side {
        Side::Host => Side::Terminal,
        Side::Terminal => Side::Host,
    }
}

fn gave_nothing(gave: Gave) -> bool
    ensures { result ≡ gave_nothing gave }
{
    match gave {
        Gave::Nothing => true,
        Gave::Bytes(_) | Gave::End => false,
    }
}

fn took_nothing(took: Took) -> bool
    ensures { result ≡ took_nothing took }
{
    match took {
        Took::Nothing => true,
        Took::Bytes(_) | Took::Failed => false,
    }
}

fn is_failed(took: Took) -> bool
    ensures { result ≡ is_failed took }
{
    match took {
        Took::Failed => true,
        Took::Bytes(_) | Took::Nothing => false,
    }
}

/// What became of a way, by its read, its write, and whether its end was told.
fn passed_of(gave: Gave, took: Took, told: bool) -> Passed
    ensures { result ≡ passed_of gave took told }
{
    if is_failed(took) || told {
        Passed::Over
    } else if gave_nothing(gave) && took_nothing(took) {
        Passed::Nothing
    } else {
        Passed::Something
    }
}

/// What becomes of a session after a round.
fn turn_of(from_terminal: Passed, from_host: Passed) -> Turn
    ensures { result ≡ turn_of from_terminal from_host }
{
    match (from_terminal, from_host) {
        (Passed::Something, _) | (_, Passed::Something) => Turn::HasMore,
        (Passed::Over, Passed::Over) => Turn::Ends,
        _ => Turn::Waits,
    }
}

impl<T: Line, H: Line> Tap<T, H> {
    /// Tells a side the end where it is due, unless a write to it failed.
    fn tell_end_unless(&mut self, failed: bool, side: Side) -> bool
        ensures tells { TellsUnless failed (way_to side self.old.relayed) result
            (way_to side self.new.relayed) }
        ensures other { way_from side self.new.relayed ≡ way_from side self.old.relayed }
        ensures rest { self.new ≡ record self.old { relayed = self.new.relayed } }
    {
        if failed {
            return false;
        }
        self.tell_end(side)
    }

    /// One read of a side, one write to the other, and the end where it is due.
    fn pass(&mut self, alloc: Global, side: Side, scratch: &mut [u8], out: &mut Vec<u8>) -> Passed
        ensures passes { 0 < length scratch.old → Passes (way_from side self.old.relayed) result
            (way_from side self.new.relayed) }
        ensures other { way_to side self.new.relayed ≡ way_to side self.old.relayed }
        ensures room { length scratch.new ≡ length scratch.old }
        ensures tells { (text : List ℕ) × (out.new.items ≡ out.old.items ++ text)
            × (self.new.told ≡ self.old.told ++ text) }
    {
        let gave = self.read(alloc, side, scratch, out);
        let took = self.write(other(side));
        let told = self.tell_end_unless(is_failed(took), other(side));
        passed_of(gave, took, told)
    }

    /// Passes each way once.
    fn round(&mut self, alloc: Global, scratch: &mut [u8], out: &mut Vec<u8>) -> Turn
        ensures ends { 0 < length scratch.old → EndsRound result self.new.relayed }
        ensures room { length scratch.new ≡ length scratch.old }
        ensures tells { (text : List ℕ) × (out.new.items ≡ out.old.items ++ text)
            × (self.new.told ≡ self.old.told ++ text) }
    {
        let from_terminal = self.pass(alloc, Side::Terminal, scratch, out);
        let from_host = self.pass(alloc, Side::Host, scratch, out);
        turn_of(from_terminal, from_host)
    }

    /// Passes bytes both ways until neither goes on, or others should have their turn; and adds what is told of them. It waits only where
    /// both lines were just asked and had nothing, and ends only where both ways are over.
    pub fn go_on(&mut self, alloc: Global, scratch: &mut [u8], out: &mut Vec<u8>) -> Turn
        ensures ends { 0 < length scratch.old → EndsRound result self.new.relayed }
        ensures tells { (text : List ℕ) × (out.new.items ≡ out.old.items ++ text)
            × (self.new.told ≡ self.old.told ++ text) }
    {
        let mut turn = self.round(alloc, scratch, out);
        'rounds: for _round in 1..MOST_ROUNDS {
            if turn != Turn::HasMore {
                return turn;
            }
            turn = self.round(alloc, scratch, out);
        }
        turn
    }
}
