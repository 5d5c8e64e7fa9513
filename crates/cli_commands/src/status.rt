//! How the program ends.

ghost use Rattle.std.specs.Prelude.{◌≡◌};

use std::process::ExitCode;

/// The status with which a command ends.
#[derive(Clone, Copy, Debug, PartialEq, Eq)]
pub enum Status {
    /// 0: done.
    Done,
    /// 1: there are findings.
    Findings,
    /// 2: the input is bad.
    BadInput,
    /// 3: a read or a write failed.
    Failed,
    /// 4: a request for memory was refused.
    NoMemory,
}

impl Status {
    ghost use Rattle.cli_commands.specs.Status.{code_of};

    /// The number that the program answers.
    pub fn code(self) -> u8
        ensures { result ≡ code_of self }
    {
        match self {
            Status::Done => 0,
            Status::Findings => 1,
            Status::BadInput => 2,
            Status::Failed => 3,
            Status::NoMemory => 4,
        }
    }
}

impl From<Status> for ExitCode {
    ghost use Rattle.std.specs.Prelude.{◌≡◌};
    ghost use Rattle.std.specs.Process.{exit_status};
    ghost use Rattle.cli_commands.specs.Status.{code_of};

    ghost from_gives = { λ status code. exit_status code ≡ code_of status };

    fn from(status: Status) -> ExitCode {
        ExitCode::from(status.code())
    }
}
