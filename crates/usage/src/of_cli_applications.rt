//! The example of `cli_applications`.

use cli_applications::{ManifestError, leads_to, manifest_in};
use std::alloc::Global;

/// Whether a key of the screen that is shown first leads to the second of the text.
fn leads_to_second(alloc: Global, text: &[u8]) -> Result<bool, ManifestError> {
    let manifest = manifest_in(alloc, text)?;
    match manifest.screens.get(manifest.first) {
        Some(screen) => Ok(leads_to(screen.leads.as_slice(), 1)),
        None => Ok(false),
    }
}
