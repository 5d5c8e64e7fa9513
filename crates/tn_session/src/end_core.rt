//! The core of a terminal's session.

ghost use Rattle.std.specs.Prelude.{◌≡◌, option_map};
ghost use Rattle.tn_wire.specs.Calls.{told_of};
ghost use Rattle.tn_cores.specs.Steps.{Takes};
ghost use Rattle.tn_session.specs.EndCores.{core_step, core_agreed, is_tolerant};
ghost use Rattle.tn_session.specs.LuNames.{core_grants};

use tn_cores::{Agreed, Out, SessionFault, TermCore, Told, TolerantCore};
use tn_wire::Event;

/// A terminal's core.
#[derive(Clone, Copy)]
pub(crate) enum EndCore {
    /// To the letter of the profile.
    Strict(TermCore),
    /// One that ignores what it isn't prepared for.
    Tolerant(TolerantCore),
}

impl EndCore {
    /// Takes an event: what it means, with the reply's bytes in `out`.
    pub(crate) fn step(&mut self, event: &Event<'_>, out: &mut Out) -> Result<Told, SessionFault>
        ensures { Takes (core_step self.old (told_of event.now))
            self.old result self.new out.new.items }
    {
        match self {
            EndCore::Strict(core) => core.step(event, out),
            EndCore::Tolerant(core) => Ok(core.step(event, out)),
        }
    }

    /// The name of the logical unit that an event grants before it is taken.
    pub(crate) fn granted_lu_name<'a>(&self, event: &Event<'a>) -> Option<&'a [u8]>
        ensures { option_map (λ name. name.now) result ≡ core_grants self.now (told_of event.now) }
    {
        match self {
            EndCore::Strict(core) => core.granted_lu_name(event),
            EndCore::Tolerant(core) => core.granted_lu_name(event),
        }
    }

    /// What the session agreed on, while records pass.
    pub(crate) fn agreed(&self) -> Option<Agreed>
        ensures { result ≡ core_agreed self.now }
    {
        match self {
            EndCore::Strict(core) => core.agreed(),
            EndCore::Tolerant(core) => core.agreed(),
        }
    }

    /// Whether it is tolerant.
    pub(crate) fn is_tolerant(&self) -> bool
        ensures { result ≡ is_tolerant self.now }
    {
        match self {
            EndCore::Strict(_) => false,
            EndCore::Tolerant(_) => true,
        }
    }
}
