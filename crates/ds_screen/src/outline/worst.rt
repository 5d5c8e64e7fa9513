//! The worst that an operator can have left of an outlined screen.

use crate::lock::Lock;
use crate::marks::worst::tag_inputs;
use crate::outline::Outline;

impl Outline {
    ghost use Rattle.ds_screen.specs.Worst.{OutlinesWorst};

    /// The worst that keys can have left before an attention key other than Clear: each unprotected attribute
    /// that governs a cell is modified, and the keyboard waits. The cursor stays. Takes no memory, and looks
    /// at each attribute once.
    pub fn worsen(&mut self)
        ensures { OutlinesWorst self.old self.new }
    {
        tag_inputs(&mut self.marks);
        self.lock = Lock::Waiting;
    }
}
