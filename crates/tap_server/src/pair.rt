//! A terminal and its host.

use crate::socket::Socket;
use cli_taps::Turn;
use mio::net::TcpStream;
use mio::{Interest, Registry, Token};
use std::alloc::Global;
use std::io;
use tap_screens::{Asked, JudgedTap, LeftScreen};

/// How many bytes are read at once.
const PIECE: usize = 4_096;

/// A terminal and its host.
#[derive(Drop)]
pub(crate) struct Pair<'a> {
    /// From 1.
    pub number: u64,
    tap: JudgedTap<'a, Socket, Socket>,
}

/// A turn of a session: what becomes of it, what is printed, and the screens that are left.
#[derive(Drop)]
pub(crate) struct Passed {
    pub turn: Turn,
    pub printed: Vec<u8>,
    pub left: Vec<LeftScreen>,
}

impl<'a> Pair<'a> {
    /// Registers both sockets of a pair under its token, and makes the tap between them.
    pub(crate) fn new(
        alloc: Global,
        registry: &Registry,
        token: Token,
        number: u64,
        terminal: TcpStream,
        host: TcpStream,
        asked: Option<Asked<'a>>,
    ) -> io::Result<Pair<'a>> {
        let both = Interest::READABLE | Interest::WRITABLE;
        let mut terminal = terminal;
        let mut host = host;
        registry.register(&mut terminal, token, both)?;
        registry.register(&mut host, token, both)?;
        let (terminal, host) = (Socket::over(terminal), Socket::over(host));
        let tap = JudgedTap::new(alloc, number, terminal, host, asked)?;
        Ok(Pair { number, tap })
    }

    /// Why the host couldn't be reached, or failed.
    pub(crate) fn failure(&self) -> Option<&io::Error> {
        self.tap.host().failure()
    }

    /// Whether the host could not be reached: it failed before a byte passed.
    pub(crate) fn is_unreached(&self) -> bool {
        self.tap.host().is_unreached()
    }

    /// Passes what there is.
    pub(crate) fn go_on(&mut self, alloc: Global) -> Passed {
        let mut scratch = [0; PIECE];
        let mut printed = Vec::new(alloc);
        let mut left = Vec::new(alloc);
        let turn = self.tap.go_on(alloc, &mut scratch, &mut printed, &mut left);
        Passed {
            turn,
            printed,
            left,
        }
    }
}
