//! The example of `tn_dialogue`.

use std::alloc::Global;
use tn_dialogue::{Answered, DialogueSession, Screen};
use tn_session::RunFault;

/// What is due to a terminal that sent these bytes, and what it answered.
fn serve(
    alloc: Global,
    screens: &[Screen],
    bytes: &[u8],
) -> Result<(Vec<u8>, Vec<Answered>), RunFault> {
    let mut session = DialogueSession::new(alloc, screens, 0)?;
    let mut due = Vec::new(alloc);
    session.begin(&mut due)?;
    session.take(alloc, bytes, &mut due)?;
    Ok((due, session.into_answers(alloc)))
}
