//! What is printed for a source that is refused.

ghost use Rattle.std.specs.Prelude.{◌≡◌, IfOk};
ghost use Rattle.std.specs.String.{string_bytes};
ghost use Rattle.cli_commands.specs.Held.{answer_seen};
ghost use Rattle.cli_maps.specs.Refused.{refused, refusal_words};

use bms_source::Refusal;
use cli_commands::{Answer, Status};
use std::alloc::{AllocError, Global};

pub(crate) fn refusal_words(alloc: Global, refusal: &Refusal) -> Result<String, AllocError>
    ensures { IfOk result (λ text. string_bytes text ≡ refusal_words refusal.now) }
{
    let mut words = String::from_str(alloc, "map refused: ")?;
    refusal.push_text(&mut words)?;
    Ok(words)
}

/// The line of a refusal.
pub(crate) fn refused(alloc: Global, refusal: &Refusal) -> Result<Answer, AllocError>
    ensures { IfOk result (λ answer. answer_seen answer ≡ refused refusal.now) }
{
    let mut text = refusal_words(alloc, refusal)?;
    text.push_str("\n")?;
    Ok(Answer {
        text,
        status: Status::BadInput,
    })
}
