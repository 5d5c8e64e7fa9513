//! Records that are checked as they come, one at a time.

ghost use Rattle.std.specs.Prelude.{◌≡◌, ◌<◌, [], ◌∷◌, ◌++◌, length, map, IfOk};
ghost use Rattle.scr_check.specs.Checker.{LeadsOn};
ghost use Rattle.scr_check.specs.Seen.{IsOpening};
ghost use Rattle.ds_screen.specs.Records.{new_picture};
ghost use Rattle.ds_screen.specs.Outline.{IsOutlineOf};

use crate::finding::Finding;
use crate::opening::{Opening, ready};
use crate::reached::Reached;
use crate::taken_records::TakenRecords;
use ds_screen::Outline;
use scr_layout::Layout;
use std::alloc::{AllocError, Global};
use std::marker::Model;

/// A new terminal of a layout's geometry that takes records one at a time and keeps at most one: the outline to which they
/// lead, and the first finding against one of them, after which no more are read. A record that it takes fails for no memory.
#[derive(Drop)]
pub struct Checker<'l> {
    layout: &'l Layout,
    reached: Reached,
    count: usize,
    stands: Option<Finding>,
    taken: TakenRecords,
}

impl<'l> Model for Checker<'l> {
    ghost use Rattle.std.specs.Prelude.{◌≡◌, length};
    ghost use Rattle.scr_check.specs.Checker.{Checked, LeadsUnless};

    ghost Value = { Checked };

    ghost view = { λ s. record { layout = s.layout.now; records = s.taken.items } };

    ghost invariant = { λ s. (s.count ≡ length s.taken.items)
        × LeadsUnless s.layout.now s.taken.items s.reached s.stands };
}

/// Takes the record of this number, unless something stands against an earlier one. Gives what stands first.
fn take_next(
    reached: &mut Reached,
    stands: Option<Finding>,
    index: usize,
    bytes: &[u8],
) -> Option<Finding>
    ensures { LeadsOn reached.old stands index bytes.now reached.new result }
{
    if let Some(finding) = stands {
        return Some(finding);
    }
    match reached.take(index, bytes) {
        Ok(()) => None,
        Err(finding) => Some(finding),
    }
}

impl<'l> Checker<'l> {
    /// No record yet.
    ///
    /// # Errors
    ///
    /// Where a request for memory was refused.
    pub fn new(alloc: Global, layout: &'l Layout) -> Result<Checker<'l>, AllocError>
        ensures { IfOk result (λ checker. checker
            ≡ record { layout = layout.now; records = [] }) }
    {
        let outline = Outline::new(alloc, layout.geometry())?;
        Ok(Checker::over(alloc, outline, layout))
    }

    /// The same on an outline of the new terminal.
    fn over(alloc: Global, outline: Outline, layout: &'l Layout) -> Checker<'l>
        requires { IsOutlineOf outline (new_picture layout.now.geometry) }
        ensures { result ≡ record { layout = layout.now; records = [] } }
    {
        Checker {
            layout,
            reached: Reached::over(alloc, outline),
            count: 0,
            stands: None,
            taken: TakenRecords::new(),
        }
    }

    /// How many records it took.
    pub fn count(&self) -> usize
        ensures { result ≡ length self.now.records }
    {
        self.count
    }

    /// Takes one more record.
    pub fn take(&mut self, bytes: &[u8])
        requires counts { length self.old.records < u64.MAX }
        ensures { self.new ≡ record {
          layout = self.old.layout;
          records = self.old.records ++ bytes.now ∷ [];
        } }
    {
        self.stands = take_next(&mut self.reached, self.stands, self.count, bytes);
        self.count += 1;
        self.taken.add(bytes);
    }

    /// Where the records led.
    pub(crate) fn opened(self) -> Opening
        ensures { IsOpening self.entry.layout self.entry.records result }
    {
        if self.count == 0 {
            return Opening::Stands(Finding::NoRecord);
        }
        let Checker {
            layout,
            reached,
            stands,
            ..
        } = self;
        if let Some(finding) = stands {
            return Opening::Stands(finding);
        }
        let outline = reached.caught_up();
        match ready(&outline, layout.size()) {
            Ok(()) => Opening::Leads(outline),
            Err(finding) => Opening::Stands(finding),
        }
    }

    /// The layout.
    pub(crate) fn layout(&self) -> &'l Layout
        ensures { result.now ≡ self.now.layout }
    {
        self.layout
    }
}

/// The checker on an outline of a new terminal that took these records.
pub(crate) fn checker_over<'l>(
    alloc: Global,
    outline: Outline,
    records: &[&[u8]],
    layout: &'l Layout,
) -> Checker<'l>
    requires { IsOutlineOf outline (new_picture layout.now.geometry) }
    ensures { result ≡ record {
      layout = layout.now;
      records = map (λ bytes. bytes.now) records.now;
    } }
{
    let mut checker = Checker::over(alloc, outline, layout);
    for bytes in records {
        checker.take(bytes);
    }
    checker
}

/// The checker that took these records.
fn checker_of<'l>(
    alloc: Global,
    records: &[&[u8]],
    layout: &'l Layout,
) -> Result<Checker<'l>, AllocError>
    ensures { IfOk result (λ checker. checker ≡ record {
      layout = layout.now;
      records = map (λ bytes. bytes.now) records.now;
    }) }
{
    let outline = Outline::new(alloc, layout.geometry())?;
    Ok(checker_over(alloc, outline, records, layout))
}

/// Opens a new terminal of the layout's geometry with the records.
pub(crate) fn open(alloc: Global, records: &[&[u8]], layout: &Layout) -> Result<Opening, AllocError>
    ensures { IfOk result (IsOpening layout.now (map (λ bytes. bytes.now) records.now)) }
{
    Ok(checker_of(alloc, records, layout)?.opened())
}
