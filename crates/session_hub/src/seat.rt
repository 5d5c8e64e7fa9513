//! One terminal's seat.

ghost use Rattle.std.specs.Prelude.{◌≡◌};
ghost use Rattle.session_hub.specs.Seats.{Seated, IsHeard, HearsIn, is_late, stand_going, stand_over, stand_after, stand_sent, stand_closed, stand_broken, stand_late, opened, sent, closed, broken, ticked};

use crate::session::{Came, Session};
use std::alloc::Global;
use std::marker::Model;

/// How far a terminal may go.
#[derive(Clone, Copy, Debug, PartialEq, Eq)]
pub struct Limits {
    /// For how long nothing need come, in the unit of the clock; 0 for ever.
    pub patience: u64,
    /// How many bytes may come.
    pub most_heard: u64,
    /// How many bytes may wait to go out.
    pub most_due: usize,
}

/// How a terminal's time in the hub ended.
#[derive(Clone, Copy, Debug, PartialEq, Eq)]
pub enum End {
    /// Its session is over, and all that was due went out.
    Over,
    /// The line closed.
    Closed,
    /// A read or a write of the line failed.
    Broken,
    /// Nothing came for too long.
    Idle,
    /// Too much waited to go out.
    Slow,
    /// Too much came.
    Flooded,
}

/// How a terminal stands.
#[derive(Clone, Copy, Debug, PartialEq, Eq)]
pub enum Stand {
    /// Its session goes on.
    Goes,
    /// Its session is over, and what is due goes out.
    Drains,
    /// It ended, and leaves.
    Ended(End),
}

/// A session, and its line as the hub knows it.
#[derive(Drop)]
pub(crate) struct Seat<S: Session> {
    session: S,
    number: u64,
    /// When something last came.
    since: u64,
    /// How many bytes may still come.
    left: u64,
    due: Vec<u8>,
    /// How many bytes of `due` went out.
    gone: usize,
    stand: Stand,
}

impl<S: Session> Model for Seat<S> {
    ghost use Rattle.std.specs.Prelude.{drop, ◌≤◌, vec_len};
    ghost use Rattle.session_hub.specs.Seats.{Seated};

    ghost Value = { Seated S };

    ghost view = { λ s. record {
      session = s.session;
      number = s.number;
      since = s.since;
      left = s.left;
      due = drop s.gone s.due.items;
      stand = s.stand;
    } };

    ghost invariant = { λ s. s.gone ≤ vec_len s.due };
}

/// How a session stands that goes on.
fn stand_going(limits: &Limits, left: u64, came: usize, due: usize) -> Stand
    ensures { result ≡ stand_going limits.now left came due }
{
    if (came as u64) > left {
        Stand::Ended(End::Flooded)
    } else if due > limits.most_due {
        Stand::Ended(End::Slow)
    } else {
        Stand::Goes
    }
}

/// How a session stands that is over.
fn stand_over(due: usize) -> Stand
    ensures { result ≡ stand_over due }
{
    if due == 0 {
        Stand::Ended(End::Over)
    } else {
        Stand::Drains
    }
}

/// How a session stands of which this came.
fn stand_after(limits: &Limits, left: u64, bytes: usize, due: usize, came: Came) -> Stand
    ensures { result ≡ stand_after limits.now left bytes due came }
{
    match came {
        Came::More => stand_going(limits, left, bytes, due),
        Came::Over => stand_over(due),
    }
}

/// Whether nothing came for too long.
fn is_late(limits: &Limits, since: u64, now: u64) -> bool
    ensures { result ≡ is_late limits.now since now }
{
    limits.patience > 0 && u128::from(since) + u128::from(limits.patience) <= u128::from(now)
}

impl Stand {
    /// After bytes went out, where so many wait.
    fn after_sent(self, due: usize) -> Stand
        ensures { result ≡ stand_sent self due }
    {
        match self {
            Stand::Drains => stand_over(due),
            stand => stand,
        }
    }

    /// After the line closed: a session that is over needs no more of it.
    fn after_closed(self) -> Stand
        ensures { result ≡ stand_closed self }
    {
        match self {
            Stand::Goes => Stand::Ended(End::Closed),
            stand => stand,
        }
    }

    /// After the line broke.
    fn after_broken(self) -> Stand
        ensures { result ≡ stand_broken self }
    {
        match self {
            Stand::Ended(end) => Stand::Ended(end),
            _ => Stand::Ended(End::Broken),
        }
    }

    /// After nothing came for too long.
    fn after_late(self) -> Stand
        ensures { result ≡ stand_late self }
    {
        match self {
            Stand::Ended(end) => Stand::Ended(end),
            _ => Stand::Ended(End::Idle),
        }
    }
}

impl<S: Session> Seat<S> {
    /// A terminal that came at this time, to which this is due first.
    pub(crate) fn new(
        limits: &Limits,
        number: u64,
        now: u64,
        session: S,
        opening: Vec<u8>,
    ) -> Seat<S>
        ensures { result ≡ opened limits.now number now session opening.items }
    {
        Seat {
            session,
            number,
            since: now,
            left: limits.most_heard,
            due: opening,
            gone: 0,
            stand: Stand::Goes,
        }
    }

    /// How it stands.
    pub(crate) fn stand(&self) -> Stand
        ensures { result ≡ self.now.stand }
    {
        self.stand
    }

    /// What is due to it.
    pub(crate) fn due(&self) -> &[u8]
        ensures { result.now ≡ self.now.due }
    {
        &self.due[self.gone..]
    }

    /// Its session and its number.
    pub(crate) fn into_session(self) -> (S, u64)
        ensures { result ≡ (self.session, self.number) }
    {
        let Seat {
            session,
            number,
            ..
        } = self;
        (session, number)
    }

    /// Bytes came to a session that goes on.
    fn hear_more(&mut self, alloc: Global, limits: &Limits, now: u64, bytes: &[u8])
        ensures { IsHeard S.takes limits.now now bytes.now self.old self.new }
    {
        let came = self.session.take(alloc, bytes, &mut self.due);
        let waits = self.due.len() - self.gone;
        self.stand = stand_after(limits, self.left, bytes.len(), waits, came);
        self.left = self.left.saturating_sub(bytes.len() as u64);
        self.since = now;
    }

    /// Bytes came.
    pub(crate) fn hear(&mut self, alloc: Global, limits: &Limits, now: u64, bytes: &[u8])
        ensures { HearsIn S.takes limits.now now bytes.now self.old.stand self.old self.new }
    {
        match self.stand {
            Stand::Goes => self.hear_more(alloc, limits, now, bytes),
            _ => {}
        }
    }

    /// So many of the bytes that were due went out.
    pub(crate) fn send(&mut self, count: usize)
        ensures { self.new ≡ sent count self.old }
    {
        let waits = self.due.len() - self.gone;
        if count < waits {
            self.gone += count;
        } else {
            self.due.clear();
            self.gone = 0;
        }
        let waits = self.due.len() - self.gone;
        self.stand = self.stand.after_sent(waits);
    }

    /// The line closed.
    pub(crate) fn close(&mut self)
        ensures { self.new ≡ closed self.old }
    {
        self.stand = self.stand.after_closed();
    }

    /// The line broke.
    pub(crate) fn break_off(&mut self)
        ensures { self.new ≡ broken self.old }
    {
        self.stand = self.stand.after_broken();
    }

    /// Time passed.
    pub(crate) fn tick(&mut self, limits: &Limits, now: u64)
        ensures { self.new ≡ ticked limits.now now self.old }
    {
        if is_late(limits, self.since, now) {
            self.stand = self.stand.after_late();
        }
    }
}
