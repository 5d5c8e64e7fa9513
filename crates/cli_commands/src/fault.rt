//! What is wrong with the inputs of a command.

ghost use Rattle.std.specs.Prelude.{◌≡◌, Some};
ghost use Rattle.std.specs.IoError.{error_kind};
ghost use Rattle.cli_commands.specs.Fault.{fault_text, layout_error, read_error};
ghost use Rattle.cli_commands.specs.Streams.{failure_of, IsWantOrFailure};
ghost use Rattle.cli_commands.specs.declared.fault.CommandError.TheVariants.{Fault as Told, OutOfMemory};

use crate::status::Status;
use ds_codec::Unwritable;
use ds_terminal::Refused;
use scr_layout::{LayoutError, LayoutFault};
use std::alloc::{AllocError, AllocFailed};
use std::{fmt, io};

/// The first fault of a command's inputs.
#[derive(Clone, Copy, Debug, PartialEq, Eq)]
pub enum Fault {
    /// The line of this number, counted from 1, is bad.
    BadLine(usize),
    /// The line of keys of this number, counted from 1, is bad.
    BadKeyLine(usize),
    /// More than 16,777,216 bytes, more than 1,000 records or 100,000 keys, or a record of more than
    /// 32,768 bytes.
    TooLong,
    LayoutRefused(LayoutFault),
    /// The record of this index, counted from 0, is refused.
    RecordRefused(usize, Refused),
    /// The record of this index, counted from 0, cannot be written.
    Unwritable(usize, Unwritable),
    /// The layout of this turn, counted from 0, is refused.
    TurnLayoutRefused(usize, LayoutFault),
    /// The layout of this turn, counted from 0, is for a terminal of another geometry than the first's.
    OtherGeometry(usize),
    /// So many turns and so many layouts, which are not as many.
    OtherCount(usize, usize),
}

impl fmt::Display for Fault {
    ghost output = { λ fault. Some (fault_text fault) };

    fn fmt<W: fmt::Write>(&self, f: &mut fmt::Formatter<W>) -> fmt::Result {
        match self {
            Fault::BadLine(number) => write!(f, "line {number} refused"),
            Fault::BadKeyLine(number) => write!(f, "keys line {number} refused"),
            Fault::TooLong => f.write_str("input too long"),
            Fault::LayoutRefused(fault) => write!(f, "layout refused: {fault}"),
            Fault::RecordRefused(index, refused) => write!(f, "record {index} {refused}"),
            Fault::Unwritable(index, flaw) => write!(f, "record {index} unwritable: {flaw}"),
            Fault::TurnLayoutRefused(turn, fault) => write!(f, "layout {turn} refused: {fault}"),
            Fault::OtherGeometry(turn) => write!(f, "layout {turn} has another geometry"),
            Fault::OtherCount(turns, layouts) => write!(f, "{turns} turns, {layouts} layouts"),
        }
    }
}

/// Why a command has no answer.
#[derive(Clone, Copy, Debug, PartialEq, Eq)]
pub enum CommandError {
    Fault(Fault),
    /// A read failed.
    ReadFailed,
    /// A request for memory was refused.
    OutOfMemory,
}

impl From<Fault> for CommandError {
    ghost from_gives = { λ fault e. e ≡ Told fault };

    fn from(fault: Fault) -> CommandError {
        CommandError::Fault(fault)
    }
}

impl From<LayoutError> for CommandError {
    ghost from_gives = { λ error e. e ≡ layout_error error };

    fn from(error: LayoutError) -> CommandError {
        match error {
            LayoutError::Refused(fault) => CommandError::Fault(Fault::LayoutRefused(fault)),
            LayoutError::OutOfMemory => CommandError::OutOfMemory,
        }
    }
}

impl From<io::Error> for CommandError {
    ghost from_gives = { λ error e. e ≡ read_error (error_kind error) };

    fn from(error: io::Error) -> CommandError {
        match error.kind() {
            io::ErrorKind::OutOfMemory => CommandError::OutOfMemory,
            _ => CommandError::ReadFailed,
        }
    }
}

impl From<AllocError> for CommandError {
    ghost from_gives = { λ _ e. e ≡ OutOfMemory };

    fn from(_e: AllocError) -> CommandError {
        CommandError::OutOfMemory
    }
}

impl<T: Drop> From<AllocFailed<T>> for CommandError {
    ghost from_gives = { λ _ e. e ≡ OutOfMemory };

    fn from(_e: AllocFailed<T>) -> CommandError {
        CommandError::OutOfMemory
    }
}

/// The status for an error of a stream.
pub fn failure(error: &io::Error) -> Status
    ensures exact { result ≡ failure_of (error_kind error.now) }
    ensures failed { IsWantOrFailure result }
{
    match error.kind() {
        io::ErrorKind::OutOfMemory => Status::NoMemory,
        _ => Status::Failed,
    }
}
