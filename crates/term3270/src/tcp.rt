//! Lines over TCP.

use cli_commands::{Status, failure};
use cli_sessions::{Terminals, Timed};
use std::alloc::Global;
use std::io;
use std::io::{BufWriter, Read, Write};
use std::net::{TcpListener, TcpStream};
use std::time::Duration;

/// How many bytes are gathered before they go out.
const MOST_GATHERED: usize = 65_536;

/// A line over TCP. It gathers what is written, and sends it before each read, at a flush, or where it is more than 65,536
/// bytes; so all that is due between two reads goes out in one write.
#[derive(Drop)]
pub(crate) struct TcpLine {
    stream: BufWriter<TcpStream>,
    /// A read ended because nothing came in time.
    late: bool,
}

impl TcpLine {
    /// The line of a connected stream, which sends without delay what it is given.
    fn over(alloc: Global, stream: TcpStream) -> io::Result<TcpLine> {
        // Where the system refuses this, the session is slower and no other.
        let _ = stream.set_nodelay(true);
        let stream = BufWriter::with_capacity(alloc, MOST_GATHERED, stream)?;
        Ok(TcpLine {
            stream,
            late: false,
        })
    }

    /// The line to a host, whose reads end after so many seconds without a byte; 0 is no limit.
    pub(crate) fn with_limit(
        rt: &HostRuntime,
        place: Place<'_>,
        seconds: u16,
    ) -> io::Result<TcpLine> {
        let line = TcpLine::to(rt, place)?;
        if seconds > 0 {
            let limit = Duration::from_secs(u64::from(seconds));
            line.stream.get_ref().set_read_timeout(Some(limit))?;
        }
        Ok(line)
    }

    /// The line to a host.
    pub(crate) fn to(rt: &HostRuntime, place: Place<'_>) -> io::Result<TcpLine> {
        let stream = TcpStream::connect(rt, (place.host, place.port))?;
        TcpLine::over(rt.alloc(), stream)
    }
}

impl Read for TcpLine {
    fn read(&mut self, buf: &mut [u8]) -> io::Result<usize> {
        self.stream.flush()?;
        let read = self.stream.get_mut().read(buf);
        if let Err(error) = &read {
            self.late = matches!(
                error.kind(),
                io::ErrorKind::WouldBlock | io::ErrorKind::TimedOut
            );
        }
        read
    }
}

impl Timed for TcpLine {
    fn is_late(&self) -> bool {
        self.late
    }
}

impl Write for TcpLine {
    fn write(&mut self, buf: &[u8]) -> io::Result<usize> {
        self.stream.write(buf)
    }

    fn flush(&mut self) -> io::Result<()> {
        self.stream.flush()
    }
}

/// A place on the net: a host's name or address, and a port.
#[derive(Clone, Copy)]
pub(crate) struct Place<'a> {
    pub host: &'a str,
    pub port: u16,
}

impl Place<'_> {
    ghost use Rattle.std.specs.Prelude.{◌≡◌};
    ghost use Rattle.std.specs.IoError.{error_kind};
    ghost use Rattle.cli_commands.specs.Streams.{failure_of, IsWantOrFailure};

    /// Says on standard error what failed there and why, and gives the status.
    pub(crate) fn report(self, rt: &HostRuntime, error: &io::Error) -> Status
        ensures exact { result ≡ failure_of (error_kind error.now) }
        ensures failed { IsWantOrFailure result }
    {
        let Place { host, port } = self;
        let _ = eprintln!(rt; "term3270: {host} port {port}: {error}");
        failure(error)
    }
}

/// A port that is listened to, where terminals come from.
#[derive(Drop)]
pub(crate) struct Listening<'a> {
    pub rt: &'a HostRuntime,
    pub place: Place<'a>,
    pub listener: TcpListener,
}

impl<'a> Listening<'a> {
    /// Listens at a place. Port 0 is one that is free.
    pub(crate) fn at(rt: &'a HostRuntime, place: Place<'a>) -> io::Result<Listening<'a>> {
        let listener = TcpListener::bind(rt, (place.host, place.port))?;
        Ok(Listening {
            rt,
            place,
            listener,
        })
    }

    fn accept(&self) -> io::Result<TcpLine> {
        let (stream, _peer) = self.listener.accept()?;
        TcpLine::over(self.rt.alloc(), stream)
    }
}

impl Terminals for Listening<'_> {
    type Line = TcpLine;

    fn next_line(&mut self) -> io::Result<TcpLine> {
        let line = self.accept();
        if let Err(error) = &line {
            self.place.report(self.rt, error);
        }
        line
    }
}
