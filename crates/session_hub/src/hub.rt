//! The hub: a seat for each terminal.

ghost use Rattle.std.specs.Prelude.{◌≡◌, ℕ, ◌+◌, ◌<◌, [], IfOk, IfErr, OnOk, None, Some, option_map, vec_len};
ghost use Rattle.session_hub.specs.Seats.{Seated, opened, sent, closed, broken, ticked};
ghost use Rattle.session_hub.specs.Hubs.{Happened, At, Passed, Opens, Hears, Sends, Closes, Breaks, Ticks, Leaves, Room, HearsAt, Steps, left_in, seat_at, due_in, stand_in, ended_in};

use crate::seat::{End, Limits, Seat, Stand};
use crate::session::Session;
use std::alloc::{AllocError, Global};
use std::marker::Model;

/// A terminal that ended.
#[derive(Drop)]
pub struct Ended<S: Session> {
    /// Its session.
    pub session: S,
    /// Its number, in the order in which terminals came, from 1.
    pub number: u64,
    /// How it ended.
    pub end: End,
}

/// Sessions by tokens, each with what is due to its terminal.
#[derive(Drop)]
pub struct Hub<S: Session> {
    limits: Limits,
    came: u64,
    seats: Vec<Option<Seat<S>>>,
}

impl<S: Session> Model for Hub<S> {
    ghost use Rattle.session_hub.specs.Hubs.{Room};

    ghost Value = { Room S };

    ghost view = { λ h. record {
      limits = h.limits;
      came = h.came;
      seats = h.seats.items;
    } };
}

/// The first token that no terminal has.
fn free_token<S: Session>(seats: &[Option<Seat<S>>]) -> usize
    ensures { seat_at result seats.now ≡ None }
{
    let mut token = 0;
    for seat in seats {
        if seat.is_none() {
            return token;
        }
        token += 1;
    }
    token
}

/// Puts a seat at a token.
fn put<S: Session>(
    seats: &mut Vec<Option<Seat<S>>>,
    token: usize,
    seat: Seat<S>,
) -> Result<(), AllocError>
    ensures own { OnOk result (seat_at token seats.new.items ≡ Some seat) }
    ensures others { (t : ℕ) → ¬ (t ≡ token) → seat_at t seats.new.items
        ≡ seat_at t seats.old.items }
    ensures refused { IfErr result (λ e. (t : ℕ) → seat_at t seats.new.items
        ≡ seat_at t seats.old.items) }
{
    while seats.len() <= token {
        seats.push(None)?;
    }
    seats[token] = Some(seat);
    Ok(())
}

/// Bytes came for a seat, where a terminal has it.
fn hear_in<S: Session>(
    alloc: Global,
    seat: &mut Option<Seat<S>>,
    limits: &Limits,
    now: u64,
    bytes: &[u8],
)
    ensures { HearsAt S.takes limits.now now bytes.now seat.old seat.new }
{
    if let Some(seat) = seat {
        seat.hear(alloc, limits, now, bytes);
    }
}

/// Bytes came for a token.
fn hear_at<S: Session>(
    alloc: Global,
    seats: &mut Vec<Option<Seat<S>>>,
    limits: &Limits,
    token: usize,
    now: u64,
    bytes: &[u8],
)
    ensures own { HearsAt S.takes limits.now now bytes.now
        (seat_at token seats.old.items) (seat_at token seats.new.items) }
    ensures others { (t : ℕ) → ¬ (t ≡ token) → seat_at t seats.new.items
        ≡ seat_at t seats.old.items }
{
    if let Some(seat) = seats.get_mut(token) {
        hear_in(alloc, seat, limits, now, bytes);
    }
}

/// So many bytes went out, where a terminal has the seat.
fn send_in<S: Session>(seat: &mut Option<Seat<S>>, count: usize)
    ensures { seat.new ≡ option_map (sent count) seat.old }
{
    if let Some(seat) = seat {
        seat.send(count);
    }
}

/// So many bytes that were due to a token went out.
fn send_at<S: Session>(seats: &mut Vec<Option<Seat<S>>>, token: usize, count: usize)
    ensures own { seat_at token seats.new.items
        ≡ option_map (sent count) (seat_at token seats.old.items) }
    ensures others { (t : ℕ) → ¬ (t ≡ token) → seat_at t seats.new.items
        ≡ seat_at t seats.old.items }
{
    if let Some(seat) = seats.get_mut(token) {
        send_in(seat, count);
    }
}

/// The line closed, where a terminal has the seat.
fn close_in<S: Session>(seat: &mut Option<Seat<S>>)
    ensures { seat.new ≡ option_map closed seat.old }
{
    if let Some(seat) = seat {
        seat.close();
    }
}

/// The line of a token closed.
fn close_at<S: Session>(seats: &mut Vec<Option<Seat<S>>>, token: usize)
    ensures own { seat_at token seats.new.items
        ≡ option_map closed (seat_at token seats.old.items) }
    ensures others { (t : ℕ) → ¬ (t ≡ token) → seat_at t seats.new.items
        ≡ seat_at t seats.old.items }
{
    if let Some(seat) = seats.get_mut(token) {
        close_in(seat);
    }
}

/// The line broke, where a terminal has the seat.
fn break_in<S: Session>(seat: &mut Option<Seat<S>>)
    ensures { seat.new ≡ option_map broken seat.old }
{
    if let Some(seat) = seat {
        seat.break_off();
    }
}

/// The line of a token broke.
fn break_at<S: Session>(seats: &mut Vec<Option<Seat<S>>>, token: usize)
    ensures own { seat_at token seats.new.items
        ≡ option_map broken (seat_at token seats.old.items) }
    ensures others { (t : ℕ) → ¬ (t ≡ token) → seat_at t seats.new.items
        ≡ seat_at t seats.old.items }
{
    if let Some(seat) = seats.get_mut(token) {
        break_in(seat);
    }
}

/// Time passed, where a terminal has the seat.
fn tick_in<S: Session>(seat: &mut Option<Seat<S>>, limits: &Limits, now: u64)
    ensures { seat.new ≡ option_map (ticked limits.now now) seat.old }
{
    if let Some(seat) = seat {
        seat.tick(limits, now);
    }
}

/// Time passed for a token.
fn tick_at<S: Session>(seats: &mut Vec<Option<Seat<S>>>, limits: &Limits, token: usize, now: u64)
    ensures own { seat_at token seats.new.items
        ≡ option_map (ticked limits.now now) (seat_at token seats.old.items) }
    ensures others { (t : ℕ) → ¬ (t ≡ token) → seat_at t seats.new.items
        ≡ seat_at t seats.old.items }
    ensures len { vec_len seats.new ≡ vec_len seats.old }
{
    if let Some(seat) = seats.get_mut(token) {
        tick_in(seat, limits, now);
    }
}

/// Time passed for all.
fn tick_all<S: Session>(seats: &mut Vec<Option<Seat<S>>>, limits: &Limits, now: u64)
    ensures { Steps S.takes limits.now (Passed now) seats.old.items seats.new.items }
{
    for token in 0..seats.len() {
        tick_at(seats, limits, token, now);
    }
}

/// How the terminal of a token stands.
fn stand_at<S: Session>(seats: &[Option<Seat<S>>], token: usize) -> Option<Stand>
    ensures { result ≡ stand_in (seat_at token seats.now) }
{
    match seats.get(token) {
        Some(Some(seat)) => Some(seat.stand()),
        _ => None,
    }
}

/// The terminal of a token leaves.
fn leave_at<S: Session>(seats: &mut Vec<Option<Seat<S>>>, token: usize) -> Option<Seat<S>>
    ensures gone { result ≡ seat_at token seats.old.items }
    ensures own { seat_at token seats.new.items ≡ None }
    ensures others { (t : ℕ) → ¬ (t ≡ token) → seat_at t seats.new.items
        ≡ seat_at t seats.old.items }
{
    match seats.get_mut(token) {
        Some(seat) => seat.take(),
        None => None,
    }
}

impl<S: Session> Hub<S> {
    /// A hub with these limits, to which no terminal came.
    pub fn new(alloc: Global, limits: Limits) -> Hub<S>
        ensures { result ≡ record { limits = limits; came = 0; seats = [] } }
    {
        Hub {
            limits,
            came: 0,
            seats: Vec::new(alloc),
        }
    }

    /// How many terminals came.
    pub fn came(&self) -> u64
        ensures { result ≡ self.now.came }
    {
        self.came
    }

    /// A terminal came: it gets the next number, and this token. Where memory is refused it did not come.
    pub fn open(&mut self, now: u64, session: S, opening: Vec<u8>) -> Result<usize, AllocError>
        requires { self.old.came < u64.MAX }
        ensures opened { IfOk result (λ token. Steps S.takes self.old.limits
            (At token (Opens (self.old.came + 1) now session opening.items)) self.old.seats self.new.seats) }
        ensures free { IfOk result (λ token. seat_at token self.old.seats ≡ None) }
        ensures counted { OnOk result (self.new.came ≡ self.old.came + 1) }
        ensures limits { self.new.limits ≡ self.old.limits }
        ensures refused { IfErr result (λ e. (t : ℕ) → seat_at t self.new.seats
            ≡ seat_at t self.old.seats) }
        ensures uncounted { IfErr result (λ e. self.new.came ≡ self.old.came) }
    {
        let number = self.came + 1;
        let token = free_token(&self.seats);
        let seat = Seat::new(&self.limits, number, now, session, opening);
        put(&mut self.seats, token, seat)?;
        self.came = number;
        Ok(token)
    }

    /// Bytes came from the terminal of a token, at this time.
    pub fn hear(&mut self, alloc: Global, token: usize, now: u64, bytes: &[u8])
        ensures heard { Steps S.takes self.old.limits (At token (Hears now bytes.now))
            self.old.seats self.new.seats }
        ensures others { (self.new.limits ≡ self.old.limits) × (self.new.came ≡ self.old.came) }
    {
        hear_at(alloc, &mut self.seats, &self.limits, token, now, bytes);
    }

    /// So many of the bytes that were due to the terminal of a token went out.
    pub fn send(&mut self, token: usize, count: usize)
        ensures sent { Steps S.takes self.old.limits (At token (Sends count)) self.old.seats
            self.new.seats }
        ensures others { (self.new.limits ≡ self.old.limits) × (self.new.came ≡ self.old.came) }
    {
        send_at(&mut self.seats, token, count);
    }

    /// The line to the terminal of a token closed: a read gave nothing.
    pub fn close(&mut self, token: usize)
        ensures closed { Steps S.takes self.old.limits (At token Closes) self.old.seats
            self.new.seats }
        ensures others { (self.new.limits ≡ self.old.limits) × (self.new.came ≡ self.old.came) }
    {
        close_at(&mut self.seats, token);
    }

    /// The line to the terminal of a token broke: a read or a write of it failed.
    pub fn break_off(&mut self, token: usize)
        ensures broken { Steps S.takes self.old.limits (At token Breaks) self.old.seats
            self.new.seats }
        ensures others { (self.new.limits ≡ self.old.limits) × (self.new.came ≡ self.old.came) }
    {
        break_at(&mut self.seats, token);
    }

    /// It is this time now: each terminal of which nothing came for too long has ended.
    pub fn tick(&mut self, now: u64)
        ensures ticked { Steps S.takes self.old.limits (Passed now) self.old.seats self.new.seats }
        ensures others { (self.new.limits ≡ self.old.limits) × (self.new.came ≡ self.old.came) }
    {
        tick_all(&mut self.seats, &self.limits, now);
    }

    /// What is due to the terminal of a token.
    pub fn due(&self, token: usize) -> &[u8]
        ensures { result.now ≡ due_in (seat_at token self.now.seats) }
    {
        match self.seats.get(token) {
            Some(Some(seat)) => seat.due(),
            _ => &[],
        }
    }

    /// How the terminal of a token stands; none where there is none.
    pub fn stand(&self, token: usize) -> Option<Stand>
        ensures { result ≡ stand_in (seat_at token self.now.seats) }
    {
        stand_at(&self.seats, token)
    }

    /// A terminal that ended leaves, and its token is free.
    pub fn leave(&mut self, token: usize) -> Option<Ended<S>>
        ensures left { Steps S.takes self.old.limits (At token Leaves) self.old.seats
            self.new.seats }
        ensures ended { result ≡ ended_in (seat_at token self.old.seats) }
        ensures others { (self.new.limits ≡ self.old.limits) × (self.new.came ≡ self.old.came) }
    {
        let Some(Stand::Ended(end)) = stand_at(&self.seats, token) else {
            return None;
        };
        let seat = leave_at(&mut self.seats, token)?;
        let (session, number) = seat.into_session();
        Some(Ended {
            session,
            number,
            end,
        })
    }
}
