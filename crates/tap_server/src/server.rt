//! The loop over all pairs. Nothing but the wait for the next event waits.

ghost use Rattle.std.specs.Prelude.{◌≡◌, ◌≤◌, ◌<◌, ◌+◌, false, IfOk, OnOk};
ghost use Rattle.tap_server.specs.Tally.{ArePlaces, most_of};

use crate::pair::{Pair, Passed};
use crate::printing::{Printing, complain};
use cli_taps::Turn;
use mio::net::{TcpListener, TcpStream};
use mio::{Events, Interest, Poll, Token};
use slab::Slab;
use std::alloc::{AllocError, Global};
use std::io::{ErrorKind, Write};
use std::marker::Model;
use std::net::{Net, SocketAddr};
use std::time::Duration;
use std::{io, mem};
use tap_screens::{Album, Asked, LeftScreen};

/// The listener's token. The others are the keys of pairs.
const LISTENER: Token = Token(usize::MAX);

/// The most pairs at once; more terminals wait.
const MOST_PAIRS: usize = 1_000;

/// The most events of one wait.
const MOST_EVENTS: usize = 256;

/// The thousandths of a second of the longest wait, after which a terminal that could not be accepted is tried again.
const LONGEST: u64 = 250;

/// A port, the host behind it, and the pairs that came of it. Contracts see both addresses, how many terminals came and went, and whether
/// the host could not be reached.
#[derive(Drop)]
pub struct Taps<'a> {
    poll: Poll,
    listener: TcpListener,
    listen: SocketAddr,
    host: SocketAddr,
    asked: Option<Asked<'a>>,
    pairs: Slab<Pair<'a>>,
    /// The keys of pairs for which more may pass at once.
    busy: Vec<usize>,
    /// Whether a terminal may wait that was not accepted.
    may_accept: bool,
    begun: u64,
    gone: u64,
    /// Whether the host could not be reached for a terminal.
    is_unreached: bool,
    album: Album,
    printing: Printing,
}

impl<'a> Model for Taps<'a> {
    ghost use Rattle.tap_server.specs.Tally.{Tally};

    ghost Value = { Tally };

    ghost view = { λ t. record {
      listen = t.listen;
      host = t.host;
      begun = t.begun;
      gone = t.gone;
      is_unreached = t.is_unreached;
    } };
}

/// Where screens are left.
pub trait LeavesScreens {
    /// Leaves a new screen. What fails is said, and ends nothing.
    fn leave(&mut self, screen: &LeftScreen);
}

/// What terminals come to: the streams to which is printed, where screens are left, and the system.
#[derive(Drop)]
pub struct Outside<'a, R, W, E, S> {
    pub rt: &'a R,
    pub alloc: Global,
    pub output: &'a mut W,
    pub errors: &'a mut E,
    pub screens: &'a mut S,
}

/// Leaves the screens of a turn that are new.
fn leave_new<R, W: Write, E: Write, S: LeavesScreens>(
    album: &mut Album,
    outside: &mut Outside<'_, R, W, E, S>,
    passed: &Passed,
) -> Result<(), AllocError> {
    for screen in &passed.left {
        if album.take(outside.alloc, screen.layout.as_bytes())? {
            outside.screens.leave(screen);
        }
    }
    Ok(())
}

impl<'t> Taps<'t> {
    /// Listens at a place for terminals of a host, of whose screens this is asked.
    pub fn at<R: Net>(
        rt: &R,
        alloc: Global,
        listen: SocketAddr,
        host: SocketAddr,
        asked: Option<Asked<'t>>,
    ) -> io::Result<Taps<'t>>
        ensures { IfOk result (λ taps. taps ≡ record {
          listen = listen;
          host = host;
          begun = 0;
          gone = 0;
          is_unreached = false;
        }) }
    {
        let poll = Poll::new(rt)?;
        let mut listener = TcpListener::bind(rt, listen)?;
        poll.registry()
            .register(&mut listener, LISTENER, Interest::READABLE)?;
        Ok(Taps {
            poll,
            listener,
            listen,
            host,
            asked,
            pairs: Slab::new(alloc),
            busy: Vec::new(alloc),
            may_accept: false,
            begun: 0,
            gone: 0,
            is_unreached: false,
            album: Album::new(alloc),
            printing: Printing::new(alloc),
        })
    }

    /// Whether the host could not be reached for a terminal that has gone: it was not found or refused, or it failed before a byte passed.
    pub fn is_unreached(&self) -> bool
        ensures { result ≡ self.now.is_unreached }
    {
        self.is_unreached
    }

    /// The pair of a terminal, for which the host is called.
    fn pair_of<R: Net>(
        &self,
        rt: &R,
        alloc: Global,
        token: Token,
        terminal: TcpStream,
    ) -> io::Result<Pair<'t>> {
        let host = TcpStream::connect(rt, self.host)?;
        Pair::new(
            alloc,
            self.poll.registry(),
            token,
            self.begun,
            terminal,
            host,
            self.asked,
        )
    }

    /// Calls the host for a terminal. Where that fails the terminal is let go.
    fn begin<R: Net, W: Write, E: Write, S: LeavesScreens>(
        &mut self,
        outside: &mut Outside<'_, R, W, E, S>,
        terminal: TcpStream,
    ) -> io::Result<()>
        requires { self.old.begun < u64.MAX }
        ensures begun { self.new.begun ≡ self.old.begun + 1 }
        ensures places { ArePlaces self.old self.new }
    {
        self.begun = self.begun.saturating_add(1);
        let number = self.begun;
        self.pairs.reserve(1)?;
        let token = Token(self.pairs.vacant_key());
        match self.pair_of(outside.rt, outside.alloc, token, terminal) {
            Ok(pair) => {
                self.pairs.insert_reserved(pair);
                self.printing.say(outside.alloc, number, " connected")?;
            }
            Err(error) => {
                self.gone = self.gone.saturating_add(1);
                self.is_unreached = true;
                let place = format!(in outside.alloc; "terminal {number}")?;
                complain(outside.alloc, outside.errors, place.as_str(), &error);
            }
        }
        self.printing.print(outside.output)
    }

    /// Accepts those that wait, as long as there is room.
    fn accept_all<R: Net, W: Write, E: Write, S: LeavesScreens>(
        &mut self,
        outside: &mut Outside<'_, R, W, E, S>,
        most: u64,
    ) -> io::Result<()>
        ensures few { self.old.begun ≤ most → self.new.begun ≤ most }
        ensures places { ArePlaces self.old self.new }
    {
        'waiting: for _ in 0..MOST_PAIRS {
            if self.pairs.len() >= MOST_PAIRS || self.begun >= most {
                return Ok(());
            }
            match self.listener.accept() {
                Ok((terminal, _address)) => self.begin(outside, terminal)?,
                Err(error) if error.kind() == ErrorKind::WouldBlock => {
                    self.may_accept = false;
                    return Ok(());
                }
                // Too many open files, or a terminal that has gone: it is tried again after the next wait.
                Err(_) => return Ok(()),
            }
        }
        Ok(())
    }

    /// Gives a pair its turn, and prints what it tells.
    fn go_on<R, W: Write, E: Write, S: LeavesScreens>(
        &mut self,
        outside: &mut Outside<'_, R, W, E, S>,
        key: usize,
    ) -> io::Result<()>
        ensures begun { self.new.begun ≡ self.old.begun }
        ensures places { ArePlaces self.old self.new }
    {
        // An event of a pair that has gone.
        let Some(pair) = self.pairs.get_mut(key) else {
            return Ok(());
        };
        let number = pair.number;
        let passed = pair.go_on(outside.alloc);
        leave_new(&mut self.album, outside, &passed)?;
        self.printing.tell(outside.alloc, number, &passed.printed)?;
        match passed.turn {
            Turn::Waits => {}
            Turn::HasMore => self.busy.push(key)?,
            Turn::Ends => self.end(outside, key, number)?,
        }
        self.printing.print(outside.output)
    }

    /// Lets a pair go whose ways are over, and says why the host couldn't be reached, or failed.
    fn end<R, W: Write, E: Write, S: LeavesScreens>(
        &mut self,
        outside: &mut Outside<'_, R, W, E, S>,
        key: usize,
        number: u64,
    ) -> Result<(), AllocError>
        ensures begun { self.new.begun ≡ self.old.begun }
        ensures places { ArePlaces self.old self.new }
    {
        let Some(pair) = self.pairs.try_remove(key) else {
            return Ok(());
        };
        self.gone = self.gone.saturating_add(1);
        self.is_unreached = self.is_unreached || pair.is_unreached();
        if let Some(error) = pair.failure() {
            let place = format!(in outside.alloc; "terminal {number}: {}", self.host)?;
            complain(outside.alloc, outside.errors, place.as_str(), error);
        }
        self.printing.say(outside.alloc, number, " ended")
    }

    /// Waits for events, and gives the pairs that have some their turns.
    fn turn<R, W: Write, E: Write, S: LeavesScreens>(
        &mut self,
        outside: &mut Outside<'_, R, W, E, S>,
        events: &mut Events<Global>,
    ) -> io::Result<()>
        ensures begun { self.new.begun ≡ self.old.begun }
        ensures places { ArePlaces self.old self.new }
    {
        let busy = mem::replace(&mut self.busy, Vec::new(outside.alloc));
        let wait = if busy.is_empty() { LONGEST } else { 0 };
        self.poll.poll(events, Some(Duration::from_millis(wait)))?;
        for event in &*events {
            match event.token() {
                LISTENER => self.may_accept = true,
                Token(key) => self.go_on(outside, key)?,
            }
        }
        for key in &busy {
            self.go_on(outside, *key)?;
        }
        Ok(())
    }
}

/// How many terminals are tapped.
fn most_of(count: u16) -> u64
    ensures { result ≡ most_of count }
{
    if count == 0 {
        u64::MAX
    } else {
        u64::from(count)
    }
}

/// Taps so many terminals and no more, and ends well once all of them have gone; 0 is any number. An error is one of the wait itself, or of
/// what is printed.
pub fn run_taps<R: Net, W: Write, E: Write, S: LeavesScreens>(
    taps: &mut Taps<'_>,
    outside: &mut Outside<'_, R, W, E, S>,
    count: u16,
) -> io::Result<()>
    ensures all { OnOk result (most_of count ≤ taps.new.gone) }
    ensures few { taps.old.begun ≤ most_of count → taps.new.begun ≤ most_of count }
    ensures places { ArePlaces taps.old taps.new }
{
    let most = most_of(count);
    let mut events = Events::with_capacity(outside.alloc, MOST_EVENTS)?;
    'waits: for _ in 0..u64::MAX {
        if taps.gone >= most {
            return Ok(());
        }
        taps.turn(outside, &mut events)?;
        if taps.may_accept {
            taps.accept_all(outside, most)?;
        }
    }
    Err(io::Error::from(ErrorKind::TimedOut))
}
