//! Why a run over a line ends without a report or an outcome.

use scr_check::{BindError, BindFault};
use std::alloc::{AllocError, AllocFailed};
use thiserror::Error;
use tn_cores::SessionFault;
use tn_wire::{HeaderFault, WireFault};

/// Why a run over a line fails.
#[derive(Clone, Copy, Debug, PartialEq, Eq, Error)]
pub enum RunFault {
    /// The bytes that were read are no Telnet stream.
    #[error("{0}")]
    Wire(WireFault),
    /// A record of a TN3270E session has no header.
    #[error("{0}")]
    Header(HeaderFault),
    /// The session failed, its line did, or too much was read.
    #[error("{0}")]
    Session(SessionFault),
    /// The terminal's answer can't be read.
    #[error("{0}")]
    Inbound(ds_inbound::Refused),
    /// The terminal's answer is not that of the layout's screen.
    #[error("{0}")]
    Bind(BindFault),
    /// A request for memory was refused.
    #[error("out of memory")]
    OutOfMemory,
}

impl From<AllocError> for RunFault {
    ghost use Rattle.std.specs.Prelude.{◌≡◌};
    ghost use Rattle.tn_session.specs.declared.fault.RunFault.TheVariants.{OutOfMemory};

    ghost from_gives = { λ _ e. e ≡ OutOfMemory };

    fn from(_e: AllocError) -> RunFault {
        RunFault::OutOfMemory
    }
}

impl<T: Drop> From<AllocFailed<T>> for RunFault {
    ghost use Rattle.std.specs.Prelude.{◌≡◌};
    ghost use Rattle.tn_session.specs.declared.fault.RunFault.TheVariants.{OutOfMemory};

    ghost from_gives = { λ _ e. e ≡ OutOfMemory };

    fn from(_e: AllocFailed<T>) -> RunFault {
        RunFault::OutOfMemory
    }
}

impl From<BindError> for RunFault {
    ghost use Rattle.std.specs.Prelude.{◌≡◌};
    ghost use Rattle.tn_session.specs.Ran.{bind_fault};

    ghost from_gives = { λ error e. e ≡ bind_fault error };

    fn from(error: BindError) -> RunFault {
        match error {
            BindError::Refused(fault) => RunFault::Bind(fault),
            BindError::OutOfMemory => RunFault::OutOfMemory,
        }
    }
}
