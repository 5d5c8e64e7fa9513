//! Descriptors that are written to only where that needs no wait.

use mio::event::Event;
use mio::unix::SourceFd;
use mio::{Interest, Poll, Token};
use std::os::fd::RawFd;

/// What the system tells of a descriptor.
#[derive(Drop)]
pub(crate) struct Watch {
    descriptor: RawFd,
    token: Token,
    has_begun: bool,
    /// Whether the system tells when it takes bytes. It doesn't of a file, which always does.
    is_told: bool,
    /// Whether the system was asked, and hasn't told yet.
    is_asked: bool,
    /// Whether it takes bytes now.
    takes: bool,
    /// Whether it will never take any.
    is_closed: bool,
}

impl Watch {
    /// A descriptor of which nothing was asked.
    pub(crate) fn new(descriptor: RawFd, token: Token) -> Watch {
        Watch {
            descriptor,
            token,
            has_begun: false,
            is_told: false,
            is_asked: false,
            takes: false,
            is_closed: false,
        }
    }

    /// The system answered whether it will tell.
    fn answered(&mut self, is_told: bool) {
        self.is_told = is_told;
        self.is_asked = is_told;
        self.takes = !is_told;
    }

    /// Asks the system for the first time to tell when it takes bytes.
    pub(crate) fn begin(&mut self, poll: &Poll) {
        let mut source = SourceFd(&self.descriptor);
        let told = poll
            .registry()
            .register(&mut source, self.token, Interest::WRITABLE);
        self.has_begun = true;
        self.answered(told.is_ok());
    }

    /// Asks the system to tell when it takes bytes, unless it is to tell already.
    pub(crate) fn ask(&mut self, poll: &Poll) {
        if !self.has_begun {
            self.begin(poll);
        }
        if self.takes || self.is_asked {
            return;
        }
        let mut source = SourceFd(&self.descriptor);
        let told = poll
            .registry()
            .reregister(&mut source, self.token, Interest::WRITABLE);
        self.answered(told.is_ok());
    }

    /// The system told something of it.
    pub(crate) fn hear(&mut self, event: &Event) {
        self.is_asked = false;
        self.takes = true;
        self.is_closed = self.is_closed || event.is_write_closed();
    }

    /// What the system told may no longer hold: something was written, or time passes.
    pub(crate) fn forget(&mut self) {
        self.takes = !self.is_told;
    }

    /// Whether it takes bytes without a wait.
    pub(crate) fn takes(&self) -> bool {
        self.takes
    }

    /// Whether it will never take any, as a pipe whose reader has gone.
    pub(crate) fn is_closed(&self) -> bool {
        self.is_closed
    }
}
