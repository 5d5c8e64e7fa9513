//! A screen of a dialogue: what is sent, how its answer is read, and where each key leads.

ghost use Rattle.std.specs.Prelude.{◌≡◌};
ghost use Rattle.tn_dialogue.specs.Screens.{lead_in, next_of};

use ds_codec::Aid;
use scr_layout::Layout;

/// Where a key leads.
#[derive(Clone, Copy, Debug, PartialEq, Eq)]
pub enum Next {
    /// To the screen of this index.
    Shows(usize),
    /// The session ends.
    Ends,
}

/// Where one key leads.
#[derive(Clone, Copy, Debug)]
pub struct Lead {
    /// The key's attention identifier.
    pub key: Aid,
    /// Where it leads.
    pub next: Next,
}

/// How the answers at a screen are read.
#[derive(Clone, Copy, Debug, PartialEq, Eq)]
pub enum Reading {
    /// Each field is one of the layout's.
    Fields,
    /// Any answer will do.
    Any,
}

/// A screen: its records, how its answers are read, and where each key leads.
#[derive(Drop)]
pub struct Screen {
    /// The layout, which has the terminal's sizes.
    pub layout: Layout,
    /// How its answers are read.
    pub reading: Reading,
    /// The records, in order.
    pub records: Vec<Vec<u8>>,
    /// Where keys lead. Of two with one key the first counts.
    pub leads: Vec<Lead>,
    /// Where the others lead.
    pub otherwise: Next,
}

/// What a terminal answered at a screen.
#[derive(Debug, Drop)]
pub struct Answered {
    /// The screen's index.
    pub screen: usize,
    /// The answer, without a header.
    pub bytes: Vec<u8>,
}

/// Where a key leads that has a lead.
fn lead_in(leads: &[Lead], key: Aid) -> Option<Next>
    ensures { result ≡ lead_in leads.now key }
{
    for lead in leads {
        if lead.key.byte() == key.byte() {
            return Some(lead.next);
        }
    }
    None
}

impl Screen {
    /// Where a key leads.
    pub(crate) fn next(&self, key: Aid) -> Next
        ensures { result ≡ next_of self.now key }
    {
        match lead_in(self.leads.as_slice(), key) {
            Some(next) => next,
            None => self.otherwise,
        }
    }
}
