//! Which connections are accepted, by those that were accepted in the second before.

ghost use Rattle.std.specs.Prelude.{◌≡◌, [], true, IfOk, OnOk, OnErr};
ghost use Rattle.accept_limit.specs.Arrivals.{after, count_of, forgotten, has_room, is_accepted, limit_of, recent};

use std::alloc::{AllocError, Global};
use std::marker::Model;

/// The milliseconds of a second.
const SECOND: u64 = 1_000;

/// The most connections that are kept in mind, of all addresses.
const MOST_KEPT: usize = 4_096;

/// A connection that came.
#[derive(Clone, Copy, Debug, PartialEq, Eq)]
pub struct Arrival {
    /// The address that it came from, as a number.
    pub address: u128,
    /// When it came, in milliseconds of a clock that doesn't go back.
    pub at: u64,
}

/// At most so many connections of one address in a second, and 4,096 of all.
#[derive(Drop)]
pub struct AcceptLimit {
    most: u16,
    /// Those that were accepted in the last second.
    kept: Vec<Arrival>,
}

impl Model for AcceptLimit {
    ghost use Rattle.accept_limit.specs.Arrivals.{Limit};

    ghost Value = { Limit };

    ghost view = { λ l. record { most = l.most; kept = l.kept.items } };
}

/// Drops those that came a second ago or earlier.
fn forget(kept: &mut Vec<Arrival>, now: u64)
    ensures { kept.new.items ≡ recent now kept.old.items }
{
    kept.retain(|arrival| now.saturating_sub(arrival.at) < SECOND);
}

/// How many are of an address.
fn count_of(arrivals: &[Arrival], address: u128) -> usize
    ensures { result ≡ count_of address arrivals.now }
{
    arrivals
        .iter()
        .filter(|arrival| arrival.address == address)
        .count()
}

/// Whether one more may be accepted beside these.
fn has_room(most: u16, arrivals: &[Arrival], arrival: Arrival) -> bool
    ensures { result ≡ has_room most arrivals.now arrival }
{
    count_of(arrivals, arrival.address) < usize::from(most) && arrivals.len() < MOST_KEPT
}

impl AcceptLimit {
    /// At most so many of one address in a second; nothing was accepted yet.
    pub fn new(alloc: Global, most: u16) -> AcceptLimit
        ensures { result ≡ limit_of most }
    {
        AcceptLimit {
            most,
            kept: Vec::new(alloc),
        }
    }

    /// Whether a connection is accepted: fewer than so many of its address, and fewer than 4,096 of all, were accepted in the
    /// second before it. One that isn't accepted doesn't count.
    ///
    /// # Errors
    ///
    /// Where a request for memory was refused, of a connection that would be accepted: it isn't kept in mind.
    pub fn admit(&mut self, arrival: Arrival) -> Result<bool, AllocError>
        ensures told { IfOk result (λ yes. yes
            ≡ is_accepted self.old.most self.old.kept arrival) }
        ensures kept { OnOk result (self.new ≡ after self.old arrival) }
        ensures refused { OnErr result ((is_accepted self.old.most self.old.kept arrival ≡ true)
            × (self.new ≡ forgotten self.old arrival.at)) }
    {
        forget(&mut self.kept, arrival.at);
        if !has_room(self.most, self.kept.as_slice(), arrival) {
            return Ok(false);
        }
        self.kept.push(arrival)?;
        Ok(true)
    }
}
