//! Many terminals at once: a listener, the lines that came of it, and the hub that they are of. Nothing but the wait for the next
//! event waits.

ghost use Rattle.std.specs.Prelude.{◌≡◌, ◌<◌, length, true, false, Ok, IfOk, IfSome};
ghost use Rattle.host_server.specs.Tallies.{counted};
ghost use Rattle.std.specs.Bool.{OnTrue};
ghost use Rattle.cli_commands.specs.declared.status.Status.TheVariants.{Failed};
ghost use Rattle.std.specs.Net.Socket.{socket_ip};
ghost use Rattle.std.specs.declared.net.socket_addr.SocketAddr.{SocketAddr as Address};
ghost use Rattle.host_server.specs.Places.{number_of, IsPlace};
ghost use Rattle.host_server.specs.Serving.{serving, is_done, most_of, Keeps, Goes, Prints, TellsOf, EndsSo, StopsSo, ServesAll};
ghost use Rattle.host_server.specs.Waiting.{nothing_waits, Passes};
ghost use Rattle.host_server.specs.Arriving.{arrival_of, Accepts, Admits, Opens, TakesOne};

use crate::asked::Asked;
use crate::gathered::Gathered;
use crate::one_line::work_line;
use crate::outlet::Outlet;
use crate::pending::{MOST_WAITING, Pending, pass_all, pass_some};
use crate::place::{listen, number_of};
use crate::tally::Tally;
use crate::watch::Watch;
use accept_limit::{AcceptLimit, Arrival};
use cli_commands::{Status, TakesBytes};
use cli_hosts::{Hosts, Settled};
use cli_sessions::Output;
use mio::net::{TcpListener, TcpStream};
use mio::{Events, Interest, Poll, Token};
use std::alloc::{AllocError, Global};
use std::io;
use std::io::Eprint;
use std::marker::Model;
use std::net::{Net, SocketAddr};
use std::os::fd::RawFd;
use std::time::{Clock, Duration, Instant};

/// The listener's token. The others are those of the hub.
const LISTENER: Token = Token(usize::MAX);

/// The token of what lines are written to.
const OUTPUT: Token = Token(usize::MAX - 1);

/// The token of standard error.
const ERRORS: Token = Token(usize::MAX - 2);

/// The descriptor of standard error.
const STANDARD_ERROR: RawFd = 2;

/// The most events of one wait.
const MOST_EVENTS: usize = 256;

/// The longest wait in milliseconds, after which the time is looked at.
const SWEEP: u64 = 250;

/// The bytes of one read.
const MOST_READ: usize = 4_096;

/// A port, and the terminals that came to it.
#[derive(Drop)]
pub struct Server<H: Hosts> {
    poll: Poll,
    listener: TcpListener,
    /// Where it listens.
    address: SocketAddr,
    /// Whether a terminal may wait that was not accepted.
    may_accept: bool,
    hosts: H,
    /// The lines by token.
    lines: Vec<Option<TcpStream>>,
    open: u16,
    asked: Asked,
    /// What became of the terminals that came and went.
    tally: Tally,
    /// Whether a terminal could not be given a session.
    has_refused: bool,
    /// Which connections are accepted of those of one address.
    limit: AcceptLimit,
    /// What lines are written to.
    output: Watch,
    errors: Watch,
    /// Whether it was said that too much waits to be written.
    has_told: bool,
}

impl<H: Hosts> Model for Server<H> {
    ghost use Rattle.host_server.specs.Serving.{Serving};

    ghost Value = { Serving H };

    ghost view = { λ s. record {
      hosts = s.hosts;
      asked = s.asked;
      address = s.address;
      limit = s.limit;
      refused = s.has_refused;
      tally = s.tally;
    } };
}

/// Has a line reported whenever it can be read or written.
fn register(poll: &Poll, stream: &mut TcpStream, token: usize) -> bool {
    // Where the system refuses this, the session is slower and no other.
    let _ = stream.set_nodelay(true);
    let both = Interest::READABLE | Interest::WRITABLE;
    poll.registry().register(stream, Token(token), both).is_ok()
}

/// Has a line reported again that may have more to do.
fn register_again(poll: &Poll, stream: &mut TcpStream, token: usize) -> bool {
    let both = Interest::READABLE | Interest::WRITABLE;
    poll.registry()
        .reregister(stream, Token(token), both)
        .is_ok()
}

/// Keeps a line by its token.
fn keep(
    lines: &mut Vec<Option<TcpStream>>,
    token: usize,
    stream: TcpStream,
) -> Result<(), AllocError> {
    while lines.len() <= token {
        lines.push(None)?;
    }
    lines[token] = Some(stream);
    Ok(())
}

/// The line of a token goes.
fn drop_line(lines: &mut [Option<TcpStream>], token: usize) {
    if let Some(line) = lines.get_mut(token) {
        *line = None;
    }
}

impl<H: Hosts> Server<H> {
    /// Listens at a place, for hosts to whom no terminal came.
    ///
    /// # Errors
    ///
    /// Where none of the place's addresses can be listened at.
    pub fn at<R: Net>(
        rt: &R,
        alloc: Global,
        host: &str,
        port: u16,
        hosts: H,
        asked: Asked,
    ) -> io::Result<Server<H>>
        ensures { IfOk result (λ server. (address : Address) × IsPlace host.now port address
            × (server ≡ serving hosts asked address)) }
    {
        let poll = Poll::new(rt)?;
        let (mut listener, address) = listen(rt, host, port)?;
        poll.registry()
            .register(&mut listener, LISTENER, Interest::READABLE)?;
        Ok(Server {
            poll,
            listener,
            address,
            may_accept: false,
            hosts,
            lines: Vec::new(alloc),
            open: 0,
            asked,
            tally: Tally::new(),
            has_refused: false,
            limit: AcceptLimit::new(alloc, asked.per_second),
            output: Watch::new(STANDARD_ERROR, OUTPUT),
            errors: Watch::new(STANDARD_ERROR, ERRORS),
            has_told: false,
        })
    }

    /// How many terminals may come in all.
    fn most(&self) -> u64
        ensures { result ≡ most_of self.now.asked.count }
    {
        match self.asked.count {
            0 => u64::MAX,
            count => u64::from(count),
        }
    }

    /// Whether all terminals came and went, or enough answered.
    fn is_done(&self) -> bool
        ensures { result ≡ is_done self.now }
    {
        self.tally.is_done(self.asked)
    }

    /// Whether another terminal is served beside those that are there.
    fn has_room(&self) -> bool {
        self.open < self.asked.at_once.max(1) && self.hosts.came() < self.most()
    }

    /// Whether a terminal is served that came from there, by how many did in the last second.
    fn admits(&mut self, peer: &SocketAddr, now: u64) -> bool
        ensures kept { Keeps H.content H.room self.old self.new }
        ensures asked { Admits self.old
            (arrival_of (number_of (socket_ip peer.now)) now) result self.new }
    {
        if self.asked.per_second == 0 {
            return true;
        }
        let address = number_of(peer);
        match self.limit.admit(Arrival { address, at: now }) {
            Ok(is_admitted) => is_admitted,
            Err(_) => {
                self.has_refused = true;
                false
            }
        }
    }

    /// A terminal came from there: it is served, or its line goes.
    fn take_one(&mut self, alloc: Global, now: u64, stream: TcpStream, peer: &SocketAddr)
        ensures kept { Keeps H.content H.room self.old self.new }
        ensures taken { TakesOne H.content H.takes H.room
            (arrival_of (number_of (socket_ip peer.now)) now) self.old self.new }
    {
        if self.admits(peer, now) {
            self.open(alloc, now, stream);
        }
    }

    /// A terminal came.
    fn open(&mut self, alloc: Global, now: u64, mut stream: TcpStream)
        ensures kept { Keeps H.content H.room self.old self.new }
        ensures opened { Opens H.content H.takes H.room now self.old self.new }
    {
        if self.hosts.came() >= self.most() {
            return;
        }
        let Some(token) = self.hosts.open(alloc, now) else {
            self.has_refused = true;
            return;
        };
        self.open = self.open.saturating_add(1);
        let is_kept = register(&self.poll, &mut stream, token)
            && keep(&mut self.lines, token, stream).is_ok();
        if !is_kept {
            self.hosts.break_off(token);
        }
    }

    /// Accepts the terminals that wait, where any may, as long as there is room.
    fn accept_all(&mut self, alloc: Global, now: u64)
        ensures kept { Keeps H.content H.room self.old self.new }
        ensures accepted { Accepts H.content H.takes H.room now self.old self.new }
    {
        for _ in 0..MOST_EVENTS {
            if !self.may_accept || !self.has_room() {
                return;
            }
            match self.listener.accept() {
                Ok((stream, peer)) => self.take_one(alloc, now, stream, &peer),
                Err(error) if error.kind() == io::ErrorKind::WouldBlock => {
                    self.may_accept = false;
                    return;
                }
                // Too many open files, or a terminal that has gone: it is tried again after the next wait.
                Err(_) => return,
            }
        }
    }

    /// Works a line as far as it goes now.
    fn work(&mut self, alloc: Global, token: usize, now: u64, buffer: &mut [u8])
        ensures { Keeps H.content H.room self.old self.new }
    {
        let Some(Some(stream)) = self.lines.get_mut(token) else {
            return;
        };
        if work_line(alloc, stream, &mut self.hosts, token, now, buffer)
            && !register_again(&self.poll, stream, token)
        {
            self.hosts.break_off(token);
        }
    }

    /// Where the terminal of a token ended, it leaves the hosts: what became of it, and its lines.
    ///
    /// # Errors
    ///
    /// Where memory is refused for its lines.
    fn take_told(
        &mut self,
        alloc: Global,
        token: usize,
    ) -> Result<Option<(Settled, Vec<u8>)>, AllocError>
        ensures kept { Keeps H.content H.room self.old self.new }
        ensures told { IfOk result (λ found. IfSome found (λ told.
            TellsOf (H.IsTold (H.content self.old.hosts)) told.0 told.1.items)) }
    {
        let mut told = Output::new(Gathered::new(alloc));
        let Ok(settled) = self.hosts.settle(alloc, token, &mut told) else {
            return Err(AllocError);
        };
        let Some(settled) = settled else {
            return Ok(None);
        };
        Ok(Some((settled, told.into_writer().text)))
    }

    /// The terminal of a token went, its line goes, and what became of it is counted.
    fn count(&mut self, token: usize, settled: Settled)
        ensures { self.new ≡ record self.old { tally = counted self.old.tally settled } }
    {
        drop_line(self.lines.as_mut_slice(), token);
        self.open = self.open.saturating_sub(1);
        self.tally.count(settled);
    }

    /// Where the terminal of a token ended, its lines wait to be written, and its line goes.
    ///
    /// # Errors
    ///
    /// Where memory is refused for its lines.
    fn settle(
        &mut self,
        alloc: Global,
        token: usize,
        pending: &mut Pending,
    ) -> Result<(), AllocError>
        ensures { Goes H.content H.room H.IsTold self.old self.new pending.old pending.new }
    {
        let Some((settled, text)) = self.take_told(alloc, token)? else {
            return Ok(());
        };
        pending.add(text.as_slice())?;
        self.count(token, settled);
        Ok(())
    }

    /// It is this time now for the terminals.
    fn tick(&mut self, now: u64)
        ensures { Keeps H.content H.room self.old self.new }
    {
        self.hosts.tick(now);
    }

    /// Ends the terminals whose time is up, and settles all that ended.
    fn sweep(&mut self, alloc: Global, now: u64, pending: &mut Pending) -> Result<(), AllocError>
        ensures { Goes H.content H.room H.IsTold self.old self.new pending.old pending.new }
    {
        self.tick(now);
        for token in 0..self.lines.len() {
            if self.is_done() {
                break;
            }
            self.settle(alloc, token, pending)?;
        }
        Ok(())
    }

    /// Does what an event of a line asks for.
    fn take_line(
        &mut self,
        alloc: Global,
        token: usize,
        now: u64,
        buffer: &mut [u8],
        pending: &mut Pending,
    ) -> Result<(), AllocError>
        ensures { Goes H.content H.room H.IsTold self.old self.new pending.old pending.new }
    {
        self.work(alloc, token, now, buffer);
        if self.is_done() {
            return Ok(());
        }
        self.settle(alloc, token, pending)
    }

    /// Does what events ask for.
    fn take_events(
        &mut self,
        alloc: Global,
        events: &Events<Global>,
        now: u64,
        buffer: &mut [u8],
        pending: &mut Pending,
    ) -> Result<(), AllocError>
        ensures { Goes H.content H.room H.IsTold self.old self.new pending.old pending.new }
    {
        for event in events {
            match event.token() {
                LISTENER => self.may_accept = true,
                OUTPUT => self.output.hear(event),
                ERRORS => self.errors.hear(event),
                Token(token) => self.take_line(alloc, token, now, buffer, pending)?,
            }
        }
        Ok(())
    }

    /// Does what events ask for; looks at the time where it is to; and accepts who waits.
    fn turn(
        &mut self,
        alloc: Global,
        events: &Events<Global>,
        now: u64,
        looks: bool,
        buffer: &mut [u8],
        pending: &mut Pending,
    ) -> Result<(), AllocError>
        ensures { Goes H.content H.room H.IsTold self.old self.new pending.old pending.new }
    {
        self.take_events(alloc, events, now, buffer, pending)?;
        self.accept_all(alloc, now);
        if looks {
            return self.sweep(alloc, now, pending);
        }
        Ok(())
    }

    /// Has the system tell when lines can be written without a wait.
    fn watch(&mut self, descriptor: RawFd)
        ensures { Keeps H.content H.room self.old self.new }
    {
        self.output = Watch::new(descriptor, OUTPUT);
        self.output.begin(&self.poll);
    }

    /// Whether something waits that can be written now.
    fn may_print(&self, pending: &Pending) -> bool
        ensures { OnTrue result (0 < length pending.now.bytes) }
    {
        !pending.is_empty() && self.output.takes()
    }

    /// Writes some of what waits.
    fn print_some<W: TakesBytes>(&mut self, output: &mut Output<W>, pending: &mut Pending)
        ensures kept { Keeps H.content H.room self.old self.new }
        ensures passes { Passes output.old output.new pending.old pending.new }
        ensures fewer { 0 < length pending.old.bytes
            → length pending.new.bytes < length pending.old.bytes }
    {
        pass_some(output, pending);
        self.output.forget();
    }

    /// Asks when more of what waits can be written, where anything does.
    fn ask(&mut self, pending: &Pending)
        ensures { Keeps H.content H.room self.old self.new }
    {
        self.output.forget();
        if !pending.is_empty() {
            self.output.ask(&self.poll);
        }
    }

    /// Writes of what waits as much as is taken without a wait.
    fn print<W: TakesBytes>(&mut self, output: &mut Output<W>, pending: &mut Pending)
        ensures kept { Keeps H.content H.room self.old self.new }
        ensures passes { Passes output.old output.new pending.old pending.new }
    {
        while self.may_print(pending) {
            self.print_some(output, pending);
        }
        self.ask(pending);
    }

    /// Says once that a text was left out because too much waited.
    fn tell_full<R: Eprint>(&mut self, rt: &R, pending: &Pending, name: &str)
        ensures keeps { Keeps H.content H.room self.old self.new }
        ensures same { self.new ≡ self.old }
    {
        if pending.is_full() && !self.has_told {
            self.has_told = true;
            let _ = eprintln!(rt;
                "term3270: {name}: more than {MOST_WAITING} bytes wait to be read; nothing more is printed"
            );
        }
    }

    /// Says it where that can be said without a wait. Both may be the same pipe, so lines are written once that was asked again.
    fn tell_soon<R: Eprint>(&mut self, rt: &R, pending: &Pending, name: &str)
        ensures { Keeps H.content H.room self.old self.new }
    {
        if !pending.is_full() || self.has_told {
            return;
        }
        self.errors.ask(&self.poll);
        if self.errors.takes() {
            self.tell_full(rt, pending, name);
            self.output.forget();
        }
    }

    /// Whether a write failed of lines that nobody will ever read.
    fn is_unread(&self, pending: &Pending) -> bool
        ensures { OnTrue result (pending.now.cut ≡ true) }
    {
        pending.is_cut() && self.output.is_closed()
    }

    /// How the command ends.
    fn status(&self) -> Status
        ensures { EndsSo self.now result }
    {
        self.tally.status(self.asked, self.has_refused)
    }
}

/// What time it is, in milliseconds since the server began.
fn time<R: Clock>(rt: &R, begun: Instant) -> io::Result<u64> {
    let now = Instant::now(rt)?;
    Ok(u64::try_from(now.saturating_duration_since(begun).as_millis()).unwrap_or(u64::MAX))
}

/// Waits for the next events, and tells the time.
fn wait<R: Clock, H: Hosts>(
    rt: &R,
    server: &mut Server<H>,
    events: &mut Events<Global>,
    begun: Instant,
) -> io::Result<u64>
    ensures { Keeps H.content H.room server.old server.new }
{
    server
        .poll
        .poll(events, Some(Duration::from_millis(SWEEP)))?;
    time(rt, begun)
}

/// Serves until all terminals came and went, or enough answered; what they print waits, or was written.
fn serve_turns<R: Clock + Eprint, H: Hosts, W: TakesBytes>(
    rt: &R,
    alloc: Global,
    server: &mut Server<H>,
    pending: &mut Pending,
    output: &mut Output<W>,
    outlet: Outlet<'_>,
) -> io::Result<Status>
    requires { pending.old ≡ nothing_waits }
    ensures prints { Prints H.content H.room H.IsTold server.old server.new output.old output.new
        pending.new }
    ensures stops { StopsSo server.new pending.new result }
{
    let Ok(mut events) = Events::with_capacity(alloc, MOST_EVENTS) else {
        return Err(io::Error::from(io::ErrorKind::OutOfMemory));
    };
    let mut buffer = [0; MOST_READ];
    let begun = match Instant::now(rt) {
        Ok(begun) => begun,
        Err(error) => return Err(error),
    };
    server.watch(outlet.descriptor);
    let mut swept = 0;
    'turns: for _ in 0..u64::MAX {
        if server.is_done() {
            break;
        }
        let now = match wait(rt, server, &mut events, begun) {
            Ok(now) => now,
            Err(error) => return Err(error),
        };
        let looks = now.saturating_sub(swept) >= SWEEP;
        if looks {
            swept = now;
        }
        let told = server.turn(alloc, &events, now, looks, &mut buffer, pending);
        server.tell_soon(rt, pending, outlet.name);
        server.print(output, pending);
        if told.is_err() {
            return Ok(Status::NoMemory);
        }
        if server.is_unread(pending) {
            return Ok(Status::Failed);
        }
    }
    Ok(server.status())
}

/// How the command ends, once nothing waits: `Failed` where a text was left out.
fn ended(stopped: io::Result<Status>, pending: &Pending) -> io::Result<Status>
    ensures cut { pending.now.cut ≡ true → result ≡ Ok Failed }
    ensures whole { pending.now.cut ≡ false → result ≡ stopped }
{
    if pending.is_cut() {
        return Ok(Status::Failed);
    }
    stopped
}

/// Serves until all terminals came and went, or enough answered, and gives the status: well where enough answered, whoever else
/// came; else whether memory was refused to a terminal, or one failed. What is written is the lines of terminals, whole. They wait in
/// memory while the outlet takes nothing; where a write fails, or more than 16,777,216 bytes would wait, no others are printed, and
/// the status is `Failed`; it goes on serving, unless nobody can ever read. Where memory is refused for lines, that is the status.
///
/// # Errors
///
/// One of the wait itself, or of the clock.
pub fn serve_all<R: Clock + Eprint, H: Hosts, W: TakesBytes>(
    rt: &R,
    alloc: Global,
    server: &mut Server<H>,
    output: &mut Output<W>,
    outlet: Outlet<'_>,
) -> io::Result<Status>
    ensures { ServesAll H.content H.room H.IsTold server.old server.new output.old output.new
        result }
{
    let mut pending = Pending::new(alloc);
    let stopped = serve_turns(rt, alloc, server, &mut pending, output, outlet);
    pass_all(output, &mut pending);
    server.tell_full(rt, &pending, outlet.name);
    ended(stopped, &pending)
}
