//! The example of `cli_dialogues`.

use cli_dialogues::{Application, DialogueHosts, Telling};
use cli_hosts::Hosts;
use scr_layout::Layout;
use std::alloc::{AllocError, Global};
use tn_dialogue::Reading;

/// How many bytes are due first to a terminal that is shown one screen.
fn first_due(
    alloc: Global,
    layout: Layout,
    records: Vec<Vec<u8>>,
) -> Result<Option<usize>, AllocError> {
    let application = Application::of_one(alloc, layout, Reading::Any, records, Telling::Bytes)?;
    let mut hosts = DialogueHosts::new(alloc, &application, 0);
    match hosts.open(alloc, 0) {
        Some(token) => Ok(Some(hosts.due(token).len())),
        None => Ok(None),
    }
}
