//! Where records lead that are taken one at a time: to an outline, but for the last of them where that one can wait.

ghost use Rattle.std.specs.Prelude.{◌≡◌, Some, None, if◌then◌else◌};
ghost use Rattle.ds_screen.specs.Picture.{Picture};
ghost use Rattle.ds_screen.specs.Outline.{IsOutlineOf};
ghost use Rattle.scr_check.specs.Checker.{IsReachedBy, CatchesUp, AppliesOn, TakesAnew, TakesFrom, cells_anew};

use crate::finding::Finding;
use crate::opening::FirstTurn;
use crate::taking::TurnRule;
use ds_codec::{Command, Geometry, Record};
use ds_screen::Outline;
use ds_terminal::{apply_record, read_record, take_record};
use std::alloc::Global;
use std::marker::Model;

/// The outline to which the records led that were taken. A record that erases, frees the keyboard and can't be refused leads to
/// the same picture from every other of its geometry. It waits, as it came, and is applied where the record after it
/// needs its picture: never, where that one begins anew too.
#[derive(Drop)]
pub(crate) struct Reached {
    outline: Outline,
    waiting: Vec<u8>,
    waits: bool,
}

impl Model for Reached {
    ghost use Rattle.std.specs.Prelude.{if◌then◌else◌, Some, None};
    ghost use Rattle.scr_check.specs.Checker.{Reach};

    ghost Value = { Reach };

    ghost view = { λ s. record { outline = s.outline; waiting = if s.waits then Some s.waiting.items else None } };
}

/// How many positions the screen has that a command begins anew: one that erases, and frees the keyboard.
fn cells_anew(geometry: &Geometry, command: &Command) -> Option<u32>
    ensures { result ≡ cells_anew geometry.now command.now }
{
    match command {
        Command::EraseWrite(wcc) if wcc.restores_keyboard() => {
            Some(geometry.default_size().cells())
        }
        Command::EraseWriteAlternate(wcc) if wcc.restores_keyboard() => {
            Some(geometry.alternate_size().cells())
        }
        _ => None,
    }
}

impl Reached {
    /// No record yet, on an outline.
    pub(crate) fn over(alloc: Global, outline: Outline) -> Reached
        ensures { (v : Picture) → IsOutlineOf outline v
            → IsReachedBy result.outline result.waiting v }
    {
        Reached {
            outline,
            waiting: Vec::new(alloc),
            waits: false,
        }
    }

    /// Applies the record that waits.
    fn catch_up(&mut self)
        ensures led { CatchesUp self.old self.new.outline }
        ensures none { self.new.waiting ≡ None }
    {
        if self.waits {
            // It is known that it is not refused.
            let _ = take_record(&mut self.outline, &self.waiting);
            self.waits = false;
        }
    }

    /// Lets a record wait that begins anew in place of what is known, unless memory for it is refused.
    fn keeps(&mut self, bytes: &[u8]) -> bool
        ensures outline { self.new.outline ≡ self.old.outline }
        ensures waiting { self.new.waiting ≡ (if result then Some bytes.now else None) }
    {
        self.waiting.clear();
        self.waits = self.waiting.extend_from_slice(bytes).is_ok();
        self.waits
    }

    /// Applies a record of this number that was read, to what all records before it led to.
    fn apply(&mut self, index: usize, outbound: &Record<'_>) -> Result<(), Finding>
        ensures applied { AppliesOn index self.old.outline outbound.now result self.new.outline }
        ensures none { self.new.waiting ≡ None }
    {
        self.waits = false;
        match apply_record(&mut self.outline, outbound) {
            Ok(_) => Ok(()),
            Err(refused) => Err(Finding::RecordRefused(index, refused)),
        }
    }

    /// Takes the record of this number, which begins anew a screen of so many positions: what is known is not asked for.
    fn take_anew(
        &mut self,
        index: usize,
        outbound: &Record<'_>,
        bytes: &[u8],
        cells: u32,
    ) -> Result<(), Finding>
        ensures { TakesAnew index self.old bytes.now cells outbound.now result self.new }
    {
        // The first one does not wait: mostly it is the only one.
        if index > 0 && outbound.is_surely_done(cells) && self.keeps(bytes) {
            return Ok(());
        }
        self.apply(index, outbound)
    }

    /// Takes the record of this number.
    ///
    /// # Errors
    ///
    /// What stands against it.
    pub(crate) fn take(&mut self, index: usize, bytes: &[u8]) -> Result<(), Finding>
        ensures { TakesFrom index self.old bytes.now result self.new }
    {
        let outbound = match read_record(&self.outline, bytes) {
            Ok(outbound) => outbound,
            Err(refused) => return Err(Finding::RecordRefused(index, refused)),
        };
        if let Some(finding) = FirstTurn::fault(index, &outbound) {
            return Err(finding);
        }
        if let Some(cells) = cells_anew(&self.outline.geometry(), &outbound.command()) {
            return self.take_anew(index, &outbound, bytes, cells);
        }
        self.catch_up();
        self.apply(index, &outbound)
    }

    /// The outline to which all records led.
    pub(crate) fn caught_up(self) -> Outline
        ensures { CatchesUp self result }
    {
        let mut reached = self;
        reached.catch_up();
        let Reached { outline, .. } = reached;
        outline
    }
}
