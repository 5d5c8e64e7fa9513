//! A screen on which demos are tried, one after the other.

use crate::answer::write_listed;
use crate::keys::{press_enter, press_rights, type_times};
use crate::notes::{Note, put_back};
use ds_screen::{Cells, Screen};
use ds_terminal::Terminal;
use scr_check::Demo;
use std::alloc::{AllocError, Global};
use std::marker::Model;

/// A terminal on which demos are tried: its screen, and where attributes are modified. Each demo leaves it as it was, so it
/// stands for the terminal that it was made from.
#[derive(Drop)]
pub struct Rehearsal<C: Cells> {
    screen: Screen<C>,
    modified: Vec<u32>,
}

impl<C: Cells> Model for Rehearsal<C> {
    ghost use Rattle.std.specs.Prelude.{◌≡◌};
    ghost use Rattle.ds_screen.specs.Picture.{Picture};
    ghost use Rattle.demo_screens.specs.Modified.{modified_places};

    ghost Value = { Picture };

    ghost view = { λ r. r.screen };

    ghost invariant = { λ r. r.modified.items ≡ modified_places r.screen.cells };
}

impl<C: Cells> Rehearsal<C> {
    ghost use Rattle.std.specs.Prelude.{◌≡◌, false, IfOk};
    ghost use Rattle.ds_keys.specs.KeyRuns.{after};
    ghost use Rattle.ds_inbound.specs.Answer.{bytes_sent};
    ghost use Rattle.scr_check.specs.Demos.{demo_keys};

    /// One that stands for a terminal as it is now. Takes time linear in the cells, and copies the screen.
    ///
    /// # Errors
    ///
    /// Where a request for memory was refused.
    pub fn new(alloc: Global, terminal: &Terminal<C>) -> Result<Rehearsal<C>, AllocError>
        ensures { IfOk result (λ rehearsal. rehearsal ≡ terminal.now) }
    {
        let screen = terminal.screen().copied(alloc)?;
        let modified = modified_of(alloc, &screen)?;
        Ok(Rehearsal { screen, modified })
    }

    /// What the terminal would send once the keys of a demo are pressed on it. Takes time linear in the characters typed and the
    /// modified fields with their cells, whatever other fields there are. Where memory was refused, it stands for the same
    /// terminal still.
    ///
    /// # Errors
    ///
    /// Where a request for memory was refused.
    pub fn sends(&mut self, alloc: Global, demo: Demo) -> Result<Vec<u8>, AllocError>
        ensures sent { IfOk result
            (λ bytes. bytes.items ≡ bytes_sent (after self.old (demo_keys demo)) false) }
        ensures kept { self.new ≡ self.old }
    {
        try_demo(alloc, &mut self.screen, self.modified.as_slice(), demo)
    }
}

ghost use Rattle.std.specs.Prelude.{◌≡◌, false, IfOk};
ghost use Rattle.ds_screen.specs.Picture.{Picture};
ghost use Rattle.ds_keys.specs.KeyRuns.{after};
ghost use Rattle.ds_inbound.specs.Answer.{bytes_sent};
ghost use Rattle.scr_check.specs.Demos.{demo_keys};
ghost use Rattle.demo_screens.specs.Notes.{LeadBack};
ghost use Rattle.demo_screens.specs.Modified.{modified_places};

/// Where attributes are modified.
fn modified_of<C: Cells>(alloc: Global, screen: &Screen<C>) -> Result<Vec<u32>, AllocError>
    ensures { IfOk result (λ places. places.items ≡ modified_places screen.now.cells) }
{
    let mut places = Vec::new(alloc);
    'fields: for field in screen.fields() {
        if field.attr.modified() {
            places.push(field.at)?;
        }
    }
    Ok(places)
}

/// A copy of a list.
fn copied(alloc: Global, places: &[u32]) -> Result<Vec<u32>, AllocError>
    ensures { IfOk result (λ copy. copy.items ≡ places.now) }
{
    let mut copy = Vec::with_capacity(alloc, places.len())?;
    copy.extend_from_slice(places)?;
    Ok(copy)
}

/// Presses the keys of a demo and gives what this sends, with notes of the cells that they change.
fn press_demo<C: Cells>(
    alloc: Global,
    screen: &mut Screen<C>,
    modified: &[u32],
    notes: &mut Vec<Note>,
    demo: Demo,
) -> Result<Vec<u8>, AllocError>
    requires { modified.now ≡ modified_places screen.old.cells }
    ensures sent { IfOk result
        (λ bytes. bytes.items ≡ bytes_sent (after screen.old (demo_keys demo)) false) }
    ensures back { (before : Picture) → LeadBack before screen.old notes.old.items
        → LeadBack before screen.new notes.new.items }
{
    let Demo { rights, types } = demo;
    let mut listed = copied(alloc, modified)?;
    press_rights(screen, rights);
    type_times(screen, &mut listed, notes, types)?;
    press_enter(screen);
    write_listed(alloc, screen, listed.as_slice())
}

/// The same, with all that the keys change put back, the answer or not.
fn try_demo<C: Cells>(
    alloc: Global,
    screen: &mut Screen<C>,
    modified: &[u32],
    demo: Demo,
) -> Result<Vec<u8>, AllocError>
    requires { modified.now ≡ modified_places screen.old.cells }
    ensures sent { IfOk result
        (λ bytes. bytes.items ≡ bytes_sent (after screen.old (demo_keys demo)) false) }
    ensures kept { screen.new ≡ screen.old }
{
    let cursor = screen.cursor();
    let lock = screen.lock();
    let aid = screen.aid();
    let mut notes = Vec::new(alloc);
    let sent = press_demo(alloc, screen, modified, &mut notes, demo);
    put_back(screen, &mut notes);
    screen.move_cursor(cursor);
    screen.set_lock(lock);
    screen.set_aid(aid);
    sent
}
