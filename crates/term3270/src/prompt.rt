//! Standard input that says at a terminal what it waits for.

use std::io;
use std::io::{IsTerminal, Read, Stdin};

/// Standard input, before and while it is read.
#[derive(Drop)]
pub(crate) struct Prompt<'a> {
    pub rt: &'a HostRuntime,
    /// What people type, as `records in hexadecimal`.
    pub what: &'a str,
    pub stream: Stdin,
    /// Whether a read was begun.
    pub is_begun: bool,
}

impl<'a> Prompt<'a> {
    pub(crate) fn new(rt: &'a HostRuntime, what: &'a str) -> Prompt<'a> {
        Prompt {
            rt,
            what,
            stream: rt.stdin(),
            is_begun: false,
        }
    }

    /// Says on standard error what is waited for, before the first read from a terminal.
    fn ask(&mut self) {
        if !self.is_begun && self.stream.is_terminal() {
            let what = self.what;
            let _ = eprintln!(self.rt; "{what}, ends with Ctrl-D; --help shows an example");
        }
        self.is_begun = true;
    }
}

impl Read for Prompt<'_> {
    fn read(&mut self, buf: &mut [u8]) -> io::Result<usize> {
        self.ask();
        self.stream.read(buf)
    }
}
