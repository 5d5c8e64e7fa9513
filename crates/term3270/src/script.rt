//! The command `script`: over standard streams, a line over TCP, and files.

ghost use Rattle.std.specs.Prelude.{◌≡◌, ◌++◌, false, IfOk};
ghost use Rattle.cli_scripts.specs.Worlds.{Gives};

use crate::manners::{bare_host, tell_unknown_device};
use crate::script_layouts::{MOST_BYTES, layouts_of, report_at};
use crate::tcp::Place;
use cli_commands::{Status, Watched, failure};
use cli_scripts::{Heard, Machine, Patience, World, run_script};
use cli_words::ScriptAsked;
use ds_screen::{PlaneCells, Screen};
use script_checks::{Judge, Layouts};
use script_requests::{Address, push_address_fault, read_address};
use script_screens::{CodePage, Reading, push_reading};
use std::alloc::{AllocError, Global};
use std::io::{Read, Write};
use std::net::TcpStream;
use std::time::{Duration, Instant};
use std::{fs, io, str, thread};
use tn_session::{Device, History, RunFault};

/// The port of a host that names none (RFC 854).
const TELNET: u16 = 23;

/// How a read waits.
#[derive(Clone, Copy)]
enum Manner {
    /// Not at all.
    Never,
    /// Until something comes, or for so long.
    For(Option<Duration>),
}

/// A connected socket, and how it waits: each that is set is a call of the system.
#[derive(Drop)]
struct Socket {
    stream: TcpStream,
    waits: bool,
    /// For how long a read does, where it waits.
    limit: Option<Duration>,
}

impl Socket {
    fn over(stream: TcpStream) -> Socket {
        // Where the system refuses this, the session is slower and no other.
        let _ = stream.set_nodelay(true);
        Socket {
            stream,
            waits: true,
            limit: None,
        }
    }

    fn set_waits(&mut self, waits: bool) -> io::Result<()> {
        if self.waits != waits {
            self.stream.set_nonblocking(!waits)?;
            self.waits = waits;
        }
        Ok(())
    }

    fn set_limit(&mut self, limit: Option<Duration>) -> io::Result<()> {
        if self.limit != limit {
            self.stream.set_read_timeout(limit)?;
            self.limit = limit;
        }
        Ok(())
    }

    fn read(&mut self, piece: &mut [u8], manner: Manner) -> io::Result<usize> {
        match manner {
            Manner::Never => self.set_waits(false)?,
            Manner::For(limit) => {
                self.set_waits(true)?;
                self.set_limit(limit)?;
            }
        }
        self.stream.read(piece)
    }

    fn write(&mut self, bytes: &[u8]) -> io::Result<()> {
        self.set_waits(true)?;
        self.stream.write_all(bytes)?;
        self.stream.flush()
    }
}

/// What a script is worked over: a line over TCP, files, and the clock.
#[derive(Drop)]
struct Surroundings<'a> {
    rt: &'a HostRuntime,
    socket: Option<Socket>,
    code_page: CodePage,
    /// When the wait that was begun last is over.
    deadline: Option<Instant>,
    received: History<u8>,
    sent: History<u8>,
}

/// What begins a page.
const PAGE_BEGIN: &str =
    "<!DOCTYPE html>\n<html lang=\"en\">\n<head>\n<meta charset=\"utf-8\">\n<title>3270 screen</title>\n</head>\n<body style=\"background: black\">\n<pre style=\"color: lime\">\n";

/// What ends a page.
const PAGE_END: &str = "</pre>\n</body>\n</html>\n";

/// Adds a text to a page.
fn push_escaped(page: &mut String, text: &str) -> Result<(), AllocError> {
    'characters: for character in text.chars() {
        match character {
            '&' => page.push_str("&amp;")?,
            '<' => page.push_str("&lt;")?,
            '>' => page.push_str("&gt;")?,
            _ => page.push(character)?,
        }
    }
    Ok(())
}

/// The rows of a screen as Ascii says them, to be searched and copied.
fn push_rows(
    alloc: Global,
    page: &mut String,
    screen: &Screen<PlaneCells>,
    code_page: CodePage,
) -> Result<(), AllocError> {
    let mut said = Vec::new(alloc);
    let _outcome = push_reading(&mut said, screen, code_page, Reading::Ascii, &[])?;
    let Ok(text) = str::from_utf8(&said) else {
        return Ok(());
    };
    'rows: for line in text.lines() {
        push_escaped(page, line.strip_prefix("data: ").unwrap_or(line))?;
        page.push_str("\n")?;
    }
    Ok(())
}

/// A screen as a page of its rows.
fn page_of(
    alloc: Global,
    screen: &Screen<PlaneCells>,
    code_page: CodePage,
) -> Result<String, AllocError> {
    let mut page = String::new(alloc);
    page.push_str(PAGE_BEGIN)?;
    push_rows(alloc, &mut page, screen, code_page)?;
    page.push_str(PAGE_END)?;
    Ok(page)
}

/// Adds bytes to a history.
fn add_bytes(history: &mut History<u8>, bytes: &[u8])
    ensures { history.new.items ≡ history.old.items ++ bytes.now }
{
    'bytes: for byte in bytes {
        *history = history.and(byte);
    }
}

/// What a read gave.
fn heard(read: io::Result<usize>) -> Heard {
    match read {
        Ok(0) => Heard::Closed,
        Ok(count) => Heard::Bytes(count),
        Err(error) => match error.kind() {
            io::ErrorKind::WouldBlock | io::ErrorKind::TimedOut | io::ErrorKind::Interrupted =>
                Heard::Nothing,
            _ => Heard::Closed,
        },
    }
}

/// Leaves an error's words, without the system's number.
fn leave_cause(rt: &HostRuntime, cause: &mut Vec<u8>, error: &io::Error) -> Result<(), AllocError> {
    let words = format!(in rt.alloc(); "{error}")?;
    match words.as_str().find(" (os error") {
        Some(end) => cause.extend_from_slice(&words.as_bytes()[..end]),
        None => cause.extend_from_slice(words.as_bytes()),
    }
}

impl Surroundings<'_> {
    /// How long a socket waits for this.
    fn manner(&mut self, patience: Patience) -> io::Result<Manner>
        ensures received { self.new.received.items ≡ self.old.received.items }
        ensures sent { self.new.sent.items ≡ self.old.sent.items }
    {
        match patience {
            Patience::None => Ok(Manner::Never),
            Patience::Endless => Ok(Manner::For(None)),
            Patience::Within { limit, begins } => self.left(limit, begins),
        }
    }

    /// What is left of a wait.
    fn left(&mut self, limit: u32, begins: bool) -> io::Result<Manner>
        ensures received { self.new.received.items ≡ self.old.received.items }
        ensures sent { self.new.sent.items ≡ self.old.sent.items }
    {
        let now = Instant::now(self.rt)?;
        if begins {
            self.deadline = now.checked_add(Duration::from_millis(u64::from(limit)));
        }
        let left = match self.deadline {
            Some(deadline) => deadline.saturating_duration_since(now),
            None => Duration::from_millis(0),
        };
        if left.is_zero() {
            Ok(Manner::Never)
        } else {
            Ok(Manner::For(Some(left)))
        }
    }

    /// Notes what a read gave.
    fn note(&mut self, piece: &[u8], given: Heard) -> Heard
        ensures received { Gives self.old.received.items self.new.received.items piece.now result }
        ensures sent { self.new.sent.items ≡ self.old.sent.items }
    {
        match given {
            Heard::Bytes(count) if count <= piece.len() => {
                add_bytes(&mut self.received, &piece[..count]);
                given
            }
            Heard::Bytes(_) => Heard::Closed,
            Heard::Nothing | Heard::Closed => given,
        }
    }

    fn call(&mut self, host: &[u8], port: u16) -> io::Result<()>
        ensures received { self.new.received.items ≡ self.old.received.items }
        ensures sent { self.new.sent.items ≡ self.old.sent.items }
    {
        let Ok(host) = str::from_utf8(host) else {
            return Err(io::Error::from(io::ErrorKind::InvalidInput));
        };
        let stream = TcpStream::connect(self.rt, (bare_host(host), port))?;
        self.socket = Some(Socket::over(stream));
        Ok(())
    }

    fn page(&mut self, path: &[u8], screen: &Screen<PlaneCells>) -> io::Result<()>
        ensures received { self.new.received.items ≡ self.old.received.items }
        ensures sent { self.new.sent.items ≡ self.old.sent.items }
    {
        let text = page_of(self.rt.alloc(), screen, self.code_page)?;
        fs::write(self.rt, path_of(path)?, text.as_bytes())
    }

    /// Reads a file of at most so many bytes.
    fn layout(&mut self, path: &[u8], text: &mut Vec<u8>) -> io::Result<()>
        ensures received { self.new.received.items ≡ self.old.received.items }
        ensures sent { self.new.sent.items ≡ self.old.sent.items }
    {
        let file = fs::open(self.rt, path_of(path)?)?;
        file.take(MOST_BYTES).read_to_end(text)?;
        Ok(())
    }
}

/// A path that is written to or read.
fn path_of(path: &[u8]) -> io::Result<&str> {
    match str::from_utf8(path) {
        Ok(path) => Ok(path),
        Err(_) => Err(io::Error::from(io::ErrorKind::InvalidInput)),
    }
}

impl World for Surroundings<'_> {
    ghost received = { λ s. s.received.items };

    ghost sent = { λ s. s.sent.items };

    fn connect(&mut self, host: &[u8], port: u16, cause: &mut Vec<u8>) -> bool {
        match self.call(host, port) {
            Ok(()) => true,
            Err(error) => {
                let _ = leave_cause(self.rt, cause, &error);
                false
            }
        }
    }

    fn read(&mut self, piece: &mut [u8], patience: Patience) -> Heard {
        let Ok(manner) = self.manner(patience) else {
            return Heard::Closed;
        };
        let given = match &mut self.socket {
            Some(socket) => heard(socket.read(piece, manner)),
            None => Heard::Closed,
        };
        self.note(piece, given)
    }

    fn write(&mut self, bytes: &[u8]) {
        add_bytes(&mut self.sent, bytes);
        if let Some(socket) = &mut self.socket {
            // The next read tells it.
            let _ = socket.write(bytes);
        }
    }

    fn hang_up(&mut self) {
        self.socket = None;
    }

    fn pause(&mut self, time: u32) {
        thread::sleep(self.rt, Duration::from_millis(u64::from(time)));
    }

    fn write_page(
        &mut self,
        path: &[u8],
        screen: &Screen<PlaneCells>,
        cause: &mut Vec<u8>,
    ) -> bool {
        match self.page(path, screen) {
            Ok(()) => true,
            Err(error) => {
                let _ = leave_cause(self.rt, cause, &error);
                false
            }
        }
    }

    fn read_file(&mut self, path: &[u8], text: &mut Vec<u8>) -> bool {
        match self.layout(path, text) {
            Ok(()) => true,
            Err(error) => {
                text.clear();
                let _ = leave_cause(self.rt, text, &error);
                false
            }
        }
    }

    fn tell_fault(&mut self, why: RunFault) {
        let _ = eprintln!(self.rt; "term3270: {why}");
    }
}

/// Connects to a host before the first line. Where that fails it is said, and the script begins without.
fn connect_first(
    rt: &HostRuntime,
    world: &mut Surroundings<'_>,
    machine: &mut Machine,
    address: Address<'_>,
) -> Result<(), AllocError>
    ensures { machine.new.is_busy ≡ machine.old.is_busy }
{
    let port = address.port.unwrap_or(TELNET);
    match world.call(address.host, port) {
        Ok(()) => machine.attach(rt.alloc(), address.host, port),
        Err(error) => {
            if let Ok(host) = str::from_utf8(address.host) {
                let _status = Place { host, port }.report(rt, &error);
            }
            Ok(())
        }
    }
}

/// Says why a text is no address.
fn refuse_address(rt: &HostRuntime, text: &str) -> Status {
    let mut words = Vec::new(rt.alloc());
    if let Err(fault) = read_address(text.as_bytes()) {
        if push_address_fault(&mut words, text.as_bytes(), fault).is_err() {
            return Status::NoMemory;
        }
    }
    if let Ok(words) = str::from_utf8(&words) {
        let _ = eprintln!(rt; "term3270: {words}");
    }
    Status::BadInput
}

/// Works a terminal by the lines of standard input, and reports its screens.
fn run_on<P: Write + Drop>(
    rt: &HostRuntime,
    world: &mut Surroundings<'_>,
    machine: &mut Machine,
    judge: &mut Judge,
    report: P,
) -> Status
    requires { machine.old.is_busy ≡ false }
{
    let mut input = Watched::new(rt.stdin());
    let mut output = Watched::new(rt.stdout());
    let mut report = Watched::new(report);
    run_script(
        rt.alloc(),
        machine,
        &mut input,
        &mut output,
        world,
        judge,
        &mut report,
    )
}

/// The judge of the screens: by the layouts of a folder, where one is named.
fn judge_of(rt: &HostRuntime, asked: ScriptAsked<'_>, device: Device) -> Result<Judge, Status> {
    let layouts = match asked.layouts {
        Some(folder) => layouts_of(rt, folder, device)?,
        None => Layouts::new(rt.alloc(), device.geometry()),
    };
    Ok(Judge::new(rt.alloc(), layouts, asked.report_format))
}

/// The terminal, whose screens are judged where there are layouts.
fn machine_of(alloc: Global, asked: ScriptAsked<'_>, device: Device) -> Result<Machine, AllocError>
    ensures { IfOk result (λ machine. machine.is_busy ≡ false) }
{
    if asked.layouts.is_some() {
        Machine::judged(alloc, device, asked.code_page)
    } else {
        Machine::new(alloc, device, asked.code_page)
    }
}

/// Connects to the host that is named, if one is: the status where it has no address.
fn connect_named(
    rt: &HostRuntime,
    world: &mut Surroundings<'_>,
    machine: &mut Machine,
    host: Option<&str>,
) -> Result<(), Status>
    ensures { machine.new.is_busy ≡ machine.old.is_busy }
{
    let Some(text) = host else {
        return Ok(());
    };
    let Ok(address) = read_address(text.as_bytes()) else {
        return Err(refuse_address(rt, text));
    };
    match connect_first(rt, world, machine, address) {
        Ok(()) => Ok(()),
        Err(AllocError) => Err(Status::NoMemory),
    }
}

/// Works a terminal by the lines of standard input, after its host was connected.
fn run_to<P: Write + Drop>(
    rt: &HostRuntime,
    asked: ScriptAsked<'_>,
    device: Device,
    judge: &mut Judge,
    report: P,
) -> Status {
    let Ok(mut machine) = machine_of(rt.alloc(), asked, device) else {
        return Status::NoMemory;
    };
    let mut world = Surroundings {
        rt,
        socket: None,
        code_page: asked.code_page,
        deadline: None,
        received: History::new(),
        sent: History::new(),
    };
    match connect_named(rt, &mut world, &mut machine, asked.host) {
        Ok(()) => run_on(rt, &mut world, &mut machine, judge, report),
        Err(status) => status,
    }
}

/// `script`: a terminal that is worked by the lines of standard input.
pub(crate) fn script(rt: &HostRuntime, asked: ScriptAsked<'_>) -> Status {
    let Some(device) = Device::from_name(asked.device.as_bytes()) else {
        tell_unknown_device(rt);
        return Status::BadInput;
    };
    let mut judge = match judge_of(rt, asked, device) {
        Ok(judge) => judge,
        Err(status) => return status,
    };
    let Some(path) = asked.report else {
        return run_to(rt, asked, device, &mut judge, rt.stderr());
    };
    match report_at(rt, path) {
        Ok(report) => run_to(rt, asked, device, &mut judge, report),
        Err(status) => status,
    }
}
