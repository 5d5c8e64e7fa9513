//! How far a terminal may go with an application, by paper and pencil.

use crate::dialogue_limits;
use scr_layout::Layout;
use session_hub::Limits;
use std::alloc::Global;
use std::test::Fail;
use tn_dialogue::{Next, Reading, Screen};

const LAYOUT: &str = "[[field]]\nname = \"choice\"\nrow = 4\ncol = 20\nlength = 1\n";

/// A screen of records of these lengths.
fn screen(alloc: Global, lengths: &[usize]) -> Result<Screen, Fail> {
    let layout = match Layout::from_text(alloc, LAYOUT) {
        Ok(layout) => layout,
        Err(_) => return Err(Fail::new("no layout")),
    };
    let mut records = Vec::new(alloc);
    for length in lengths {
        let mut bytes = Vec::new(alloc);
        bytes.resize(*length, 0xF1)?;
        records.push(bytes)?;
    }
    Ok(Screen {
        layout,
        reading: Reading::Any,
        records,
        leads: Vec::new(alloc),
        otherwise: Next::Ends,
    })
}

/// The records of the first take twice 3 and 16, and twice 10 and 16: 58. Those of the second take twice 20 and 16: 56.
#[test]
fn longest_of_two_screens(rt: HostRuntime) -> Result<(), Fail> {
    let alloc = rt.alloc();
    let mut screens = Vec::new(alloc);
    screens.push(screen(alloc, &[3, 10])?)?;
    screens.push(screen(alloc, &[20])?)?;
    let limits = Limits {
        patience: 250,
        most_heard: 1_048_576,
        most_due: 65_594,
    };
    assert_eq!(rt; dialogue_limits(screens.as_slice(), 250), limits);
    Ok(())
}

#[test]
fn no_screen(rt: HostRuntime) -> Result<(), Fail> {
    let limits = Limits {
        patience: 0,
        most_heard: 1_048_576,
        most_due: 65_536,
    };
    assert_eq!(rt; dialogue_limits(&[], 0), limits);
    Ok(())
}
