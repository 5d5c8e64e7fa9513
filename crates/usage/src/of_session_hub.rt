//! The example of `session_hub`.

use session_hub::{Hub, Session, Stand};
use std::alloc::Global;

/// Hands bytes to a terminal's session: how it then stands, and how many bytes are due to it.
fn hand<S: Session>(
    alloc: Global,
    hub: &mut Hub<S>,
    token: usize,
    bytes: &[u8],
) -> (Option<Stand>, usize) {
    hub.hear(alloc, token, 0, bytes);
    (hub.stand(token), hub.due(token).len())
}
