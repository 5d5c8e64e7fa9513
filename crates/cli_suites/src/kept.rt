//! What a suite keeps of one job for the next.

ghost use Rattle.cli_suites.specs.Answers.{AreOf, Held};

use crate::answers::Inputs;
use cli_commands::LastLayout;
use std::alloc::Global;

/// The files of the job before, which may serve again, and the layout that was checked last.
#[derive(Drop)]
pub(crate) struct Kept<'j> {
    pub inputs: Inputs<'j>,
    pub last: Option<LastLayout>,
}

impl<'j> Kept<'j> {
    /// Before the first job.
    pub(crate) fn none(alloc: Global) -> Kept<'j>
        ensures { (held : Held) → AreOf held result.inputs }
    {
        Kept {
            inputs: Inputs::none(alloc),
            last: None,
        }
    }
}
