//! What `records` tells of a text.

ghost use Rattle.std.specs.Prelude.{IfOk};
ghost use Rattle.cli_traces.specs.Told.{TellsRecords};

use crate::asked::Asked;
use crate::run::run_records;
use cli_commands::{Status, Watched};
use std::alloc::{AllocError, Global};

/// The text that `records` prints, and its status.
#[derive(Debug, Drop)]
pub struct Told {
    pub text: Vec<u8>,
    /// `Done`, or `BadInput` where the text ends with a line that is refused or has a fault.
    pub status: Status,
}

/// What `records` prints of the text of a trace or of a captured stream, and its status.
///
/// # Errors
///
/// Where a request for memory was refused.
pub fn records_text(alloc: Global, asked: Asked, trace: &[u8]) -> Result<Told, AllocError>
    ensures { IfOk result (λ told. TellsRecords asked trace.now told.text.items told.status) }
{
    let mut input = trace;
    let mut output = Watched::new(Vec::new(alloc));
    match run_records(alloc, asked, &mut input, &mut output) {
        Status::Done => Ok(Told {
            text: output.stream,
            status: Status::Done,
        }),
        Status::BadInput => Ok(Told {
            text: output.stream,
            status: Status::BadInput,
        }),
        // A text can be read, and a vector takes what there is memory for.
        Status::Findings | Status::Failed | Status::NoMemory => Err(AllocError),
    }
}
