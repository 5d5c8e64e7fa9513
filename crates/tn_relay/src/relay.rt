//! Both ways between a terminal and a host.

ghost use Rattle.std.specs.Prelude.{◌≡◌, ◌<◌, ◌≤◌, ◌++◌, [], ◌∷◌, ℕ, List, Bool, true, false, length, take, IfOk};
ghost use Rattle.tn_relay.specs.Lines.{Gives};
ghost use Rattle.tn_relay.specs.declared.line.Gave.TheVariants.{Bytes as GaveBytes};
ghost use Rattle.tn_relay.specs.Relayed.{AreFaithful, Reads, TellsEnd, Writes, nothing_passed, way_from, way_of, way_to};

use crate::line::{Gave, Line, Took};
use crate::pipe::Pipe;
use std::alloc::{AllocError, Global};
use std::marker::Model;
use tn_traces::Side;

/// A terminal, a host, and the bytes between them. Contracts see, of each way, all that was read, all that was written, and what is held
/// between.
#[derive(Drop)]
pub struct Relay<T: Line, H: Line> {
    terminal: T,
    host: H,
    to_host: Pipe,
    to_terminal: Pipe,
}

impl<T: Line, H: Line> Model for Relay<T, H> {
    ghost use Rattle.std.specs.Prelude.{◌≡◌, true};
    ghost use Rattle.tn_relay.specs.Relayed.{AreFaithful, Relayed, way_of};

    ghost Value = { Relayed };

    ghost view = { λ r. record {
      to_host = way_of (T.received r.terminal) r.to_host (H.sent r.host) (H.told_end r.host)
          (T.read_answers r.terminal) (H.write_answers r.host);
      to_terminal = way_of (H.received r.host) r.to_terminal (T.sent r.terminal) (T.told_end r.terminal)
          (H.read_answers r.host) (T.write_answers r.terminal);
    } };

    ghost invariant = { λ r. AreFaithful (record {
      to_host = way_of (T.received r.terminal) r.to_host (H.sent r.host) (H.told_end r.host)
          (T.read_answers r.terminal) (H.write_answers r.host);
      to_terminal = way_of (H.received r.host) r.to_terminal (T.sent r.terminal) (T.told_end r.terminal)
          (H.read_answers r.host) (T.write_answers r.terminal);
    }) };
}

/// Reads a line once into a buffer's first bytes.
#[tactic(auto, using(crate::proofs::Ways::front_taken))]
fn read_most<L: Line>(line: &mut L, scratch: &mut [u8], most: usize) -> Gave
    requires some { 0 < most }
    requires room { most ≤ length scratch.old }
    ensures gives { Gives (L.received line.old) (L.received line.new) scratch.new result }
    ensures asked { L.read_answers line.new ≡ L.read_answers line.old ++ result ∷ [] }
    ensures few { (count : ℕ) → result ≡ GaveBytes count → count ≤ most }
    ensures room { length scratch.new ≡ length scratch.old }
    ensures line { (L.sent line.new ≡ L.sent line.old)
        × (L.told_end line.new ≡ L.told_end line.old)
        × (L.write_answers line.new ≡ L.write_answers line.old) }
{
    line.read(&mut scratch[..most])
}

/// Reads a line once into a pipe, as far as there is room.
fn fill<L: Line>(line: &mut L, pipe: &mut Pipe, scratch: &mut [u8]) -> Gave
    ensures reads { (written : List ℕ) (told : Bool) (took : List Took)
        → Reads (way_of (L.received line.old) pipe.old written told (L.read_answers line.old) took)
        scratch.new result
        (way_of (L.received line.new) pipe.new written told (L.read_answers line.new) took) }
    ensures room { length scratch.new ≡ length scratch.old }
    ensures line { (L.sent line.new ≡ L.sent line.old)
        × (L.told_end line.new ≡ L.told_end line.old)
        × (L.write_answers line.new ≡ L.write_answers line.old) }
{
    let most = pipe.room().min(scratch.len());
    if most == 0 || pipe.is_ended() {
        return Gave::Nothing;
    }
    let gave = read_most(line, scratch, most);
    match gave {
        Gave::Bytes(count) => pipe.take(&scratch[..count]),
        Gave::Nothing => {}
        Gave::End => pipe.end(),
    }
    gave
}

/// Writes what a pipe holds to a line, once.
fn drain<L: Line>(line: &mut L, pipe: &mut Pipe) -> Took
    ensures writes { (read : List ℕ) (gave : List Gave)
        → Writes (way_of read pipe.old (L.sent line.old) (L.told_end line.old)
        gave (L.write_answers line.old)) result
        (way_of read pipe.new (L.sent line.new) (L.told_end line.new)
        gave (L.write_answers line.new)) }
    ensures line { (L.received line.new ≡ L.received line.old)
        × (L.read_answers line.new ≡ L.read_answers line.old) }
{
    if pipe.bytes().is_empty() {
        return Took::Nothing;
    }
    let took = line.write(pipe.bytes());
    if let Took::Bytes(count) = took {
        pipe.give(count);
    }
    took
}

/// Tells a line the end, where a pipe's bytes came to it and all were written.
fn hand_end<L: Line>(line: &mut L, pipe: &Pipe) -> bool
    ensures tells { (read : List ℕ) (gave : List Gave)
        → TellsEnd (way_of read pipe.now (L.sent line.old) (L.told_end line.old)
        gave (L.write_answers line.old)) result
        (way_of read pipe.now (L.sent line.new) (L.told_end line.new)
        gave (L.write_answers line.new)) }
    ensures line { (L.received line.new ≡ L.received line.old)
        × (L.read_answers line.new ≡ L.read_answers line.old) }
{
    if !pipe.is_ended() || !pipe.bytes().is_empty() {
        return false;
    }
    line.tell_end();
    true
}

impl<T: Line, H: Line> Relay<T, H> {
    /// A relay between two lines over which nothing passed.
    ///
    /// # Errors
    ///
    /// Where room for the bytes of both ways, 16,384 each, was refused.
    pub fn new(alloc: Global, terminal: T, host: H) -> Result<Relay<T, H>, AllocError>
        requires terminal { (T.received terminal ≡ []) × (T.sent terminal ≡ [])
            × (T.told_end terminal ≡ false)
            × (T.read_answers terminal ≡ []) × (T.write_answers terminal ≡ []) }
        requires host { (H.received host ≡ []) × (H.sent host ≡ [])
            × (H.told_end host ≡ false)
            × (H.read_answers host ≡ []) × (H.write_answers host ≡ []) }
        ensures { IfOk result (λ relay. relay ≡ nothing_passed) }
    {
        Ok(Relay {
            terminal,
            host,
            to_host: Pipe::new(alloc)?,
            to_terminal: Pipe::new(alloc)?,
        })
    }

    /// What goes to a side is, byte for byte, a front of what the other side sent, and all of it once the side is told the end.
    pub fn is_faithful(&self)
        ensures { AreFaithful self.now }
    {
        let _ = &self.to_host;
    }

    /// The terminal's line.
    pub fn terminal(&self) -> &T
        ensures received { T.received result.now ≡ self.now.to_host.read }
        ensures sent { T.sent result.now ≡ self.now.to_terminal.written }
    {
        &self.terminal
    }

    /// The host's line.
    pub fn host(&self) -> &H
        ensures received { H.received result.now ≡ self.now.to_terminal.read }
        ensures sent { H.sent result.now ≡ self.now.to_host.written }
    {
        &self.host
    }

    /// Reads a side once, as far as there is room for it: what came stands at the front of `scratch`. It answers `Nothing` without asking
    /// the side only where there is no room or its end came.
    pub fn read(&mut self, side: Side, scratch: &mut [u8]) -> Gave
        ensures room { length scratch.new ≡ length scratch.old }
        ensures reads { Reads (way_from side self.old) scratch.new result (way_from side self.new) }
        ensures other { way_to side self.new ≡ way_to side self.old }
    {
        match side {
            Side::Terminal => fill(&mut self.terminal, &mut self.to_host, scratch),
            Side::Host => fill(&mut self.host, &mut self.to_terminal, scratch),
        }
    }

    /// Writes what is held for a side, once. It answers `Nothing` without asking the side only where nothing is held.
    pub fn write(&mut self, side: Side) -> Took
        ensures writes { Writes (way_to side self.old) result (way_to side self.new) }
        ensures other { way_from side self.new ≡ way_from side self.old }
    {
        match side {
            Side::Terminal => drain(&mut self.terminal, &mut self.to_terminal),
            Side::Host => drain(&mut self.host, &mut self.to_host),
        }
    }

    /// Tells a side the end of the other, where it came and all was written: whether it was.
    pub fn tell_end(&mut self, side: Side) -> bool
        ensures tells { TellsEnd (way_to side self.old) result (way_to side self.new) }
        ensures other { way_from side self.new ≡ way_from side self.old }
    {
        match side {
            Side::Terminal => hand_end(&mut self.terminal, &self.to_terminal),
            Side::Host => hand_end(&mut self.host, &self.to_host),
        }
    }
}
