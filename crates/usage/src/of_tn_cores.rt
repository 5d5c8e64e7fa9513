//! The example of `tn_cores`.

use tn_cores::{Device, Out, TermCore};
use tn_wire::{Event, Verb};

/// Whether a terminal of model 2 answers DO TN3270E.
fn answers() -> bool {
    match Device::from_name(b"IBM-3278-2".as_slice()) {
        Some(device) => {
            let mut reply = Out::new();
            let mut core = TermCore::new(device, true, true);
            core.step(&Event::Verb(Verb::Do, 40), &mut reply).is_ok() && !reply.is_empty()
        }
        None => false,
    }
}
