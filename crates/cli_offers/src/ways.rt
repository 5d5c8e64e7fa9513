//! The ways through an application that are judged.

ghost use Rattle.std.specs.Prelude.{◌≡◌, ◌++◌, OnOk, IfOk, option_map, slice_get};
ghost use Rattle.std.specs.List.{flat_map};
ghost use Rattle.cli_commands.specs.Held.{records_held};
ghost use Rattle.cli_offers.specs.Ways.{all_of, all_on, alone, alone_at, ends_of, erases, erases_at, erases_by, first_erases, fresh, is_alone, is_erased, is_known, is_over, leads_on, on_at, over_at, ways, ways_on, ways_over, with_screen};

use cli_applications::{PlannedScreen, leads_to};
use ds_codec::CommandCode;
use std::alloc::{AllocError, Global};
use std::marker::Model;

/// Screens that come one after the other, by their numbers.
#[derive(Debug, Drop)]
pub(crate) struct Way {
    /// The first.
    pub first: usize,
    /// The others, in turn.
    pub others: Vec<usize>,
    /// The last of all.
    pub last: usize,
}

impl Model for Way {
    ghost use Rattle.cli_offers.specs.Ways.{Way};

    ghost Value = { Way };

    ghost view = { λ w. record { first = w.first; others = w.others.items; last = w.last } };
}

impl Way {
    /// A screen by itself.
    fn alone(alloc: Global, index: usize) -> Way
        ensures { result ≡ alone index }
    {
        Way {
            first: index,
            others: Vec::new(alloc),
            last: index,
        }
    }

    /// The same way.
    fn copied(&self, alloc: Global) -> Result<Way, AllocError>
        ensures { IfOk result (λ way. way ≡ self.now) }
    {
        let mut others = Vec::new(alloc);
        others.extend_from_slice(self.others.as_slice())?;
        Ok(Way {
            first: self.first,
            others,
            last: self.last,
        })
    }

    /// The way with one screen more.
    fn with_screen(&self, alloc: Global, index: usize) -> Result<Way, AllocError>
        ensures { IfOk result (λ way. way ≡ with_screen self.now index) }
    {
        let mut others = Vec::new(alloc);
        others.extend_from_slice(self.others.as_slice())?;
        others.push(index)?;
        Ok(Way {
            first: self.first,
            others,
            last: index,
        })
    }
}

/// Whether records begin with an erase.
pub(crate) fn erases(records: &[Vec<u8>]) -> bool
    ensures { result ≡ erases (records_held records.now) }
{
    let Some(bytes) = records.first() else {
        return false;
    };
    match bytes.first() {
        Some(byte) => matches!(
            CommandCode::from_byte(*byte),
            Some(CommandCode::EraseWrite | CommandCode::EraseWriteAlternate)
        ),
        None => false,
    }
}

fn is_known(known: &[usize], index: usize) -> bool
    ensures { result ≡ is_known known.now index }
{
    known.iter().any(|screen| index == *screen)
}

/// The screens at which ways end.
fn ends_of(alloc: Global, ways: &[Way]) -> Result<Vec<usize>, AllocError>
    ensures { IfOk result (λ v. v.items ≡ ends_of ways.now) }
{
    let mut ends = Vec::new(alloc);
    for way in ways {
        ends.push(way.last)?;
    }
    Ok(ends)
}

/// Those of the ways that come to a screen that isn't known yet. From then on it is.
fn fresh(alloc: Global, known: &mut Vec<usize>, ways: &[Way]) -> Result<Vec<Way>, AllocError>
    ensures ways { IfOk result (λ v. v.items ≡ fresh known.old.items ways.now) }
    ensures known { OnOk result (known.new.items
        ≡ known.old.items ++ ends_of (fresh known.old.items ways.now)) }
{
    let mut found = Vec::new(alloc);
    for way in ways {
        if !is_known(known.as_slice(), way.last) {
            known.push(way.last)?;
            found.push(way.copied(alloc)?)?;
        }
    }
    Ok(found)
}

/// The screens, and of each whether it begins with an erase.
#[derive(Drop)]
pub(crate) struct Shown<'a> {
    pub first: usize,
    pub plans: &'a [PlannedScreen],
    pub erased: &'a [bool],
}

impl<'a> Model for Shown<'a> {
    ghost use Rattle.cli_offers.specs.Ways.{Shown};

    ghost Value = { Shown };

    ghost view = { λ s. record { first = s.first; plans = s.plans.now; erased = s.erased.now } };
}

impl<'a> Shown<'a> {
    fn is_erased(&self, index: usize) -> bool
        ensures { result ≡ is_erased self.now index }
    {
        match self.erased.get(index) {
            Some(erased) => *erased,
            None => false,
        }
    }

    fn leads_on(&self, from: usize, to: usize) -> bool
        ensures { result ≡ leads_on (slice_get self.now.plans from) to }
    {
        match self.plans.get(from) {
            Some(plan) => leads_to(plan.leads.as_slice(), to),
            None => false,
        }
    }

    /// Whether a screen is written over what another left.
    fn is_over(&self, from: usize, to: usize) -> bool
        ensures { result ≡ is_over self.now from to }
    {
        !self.is_erased(to) && (from == to || self.leads_on(from, to))
    }

    /// Whether a screen is judged by itself.
    fn is_alone(&self, index: usize) -> bool
        ensures { result ≡ is_alone self.now index }
    {
        index == self.first || self.is_erased(index)
    }

    /// Adds the screens that are judged by themselves.
    fn push_alone(&self, alloc: Global, ways: &mut Vec<Way>) -> Result<(), AllocError>
        ensures { OnOk result (ways.new.items ≡ ways.old.items
            ++ flat_map (alone_at self.now) (all_of self.now)) }
    {
        for index in 0..self.plans.len() {
            if self.is_alone(index) {
                ways.push(Way::alone(alloc, index))?;
            }
        }
        Ok(())
    }

    /// Adds the ways of one screen more.
    fn push_on(&self, alloc: Global, way: &Way, ways: &mut Vec<Way>) -> Result<(), AllocError>
        ensures { OnOk result (ways.new.items ≡ ways.old.items ++ ways_on self.now way.now) }
    {
        for index in 0..self.plans.len() {
            if self.is_over(way.last, index) {
                ways.push(way.with_screen(alloc, index)?)?;
            }
        }
        Ok(())
    }

    /// The ways of one screen more of each.
    fn all_on(&self, alloc: Global, ways: &[Way]) -> Result<Vec<Way>, AllocError>
        ensures { IfOk result (λ v. v.items ≡ all_on self.now ways.now) }
    {
        let mut longer = Vec::new(alloc);
        for way in ways {
            self.push_on(alloc, way, &mut longer)?;
        }
        Ok(longer)
    }

    /// Adds the ways over a screen that begins with an erase, by one screen more in each round: of those that come first to their
    /// last screen.
    fn push_rounds(&self, alloc: Global, from: usize, ways: &mut Vec<Way>) -> Result<(), AllocError>
        ensures { OnOk result (ways.new.items ≡ ways.old.items ++ ways_over self.now from) }
    {
        let mut found = Vec::new(alloc);
        self.push_on(alloc, &Way::alone(alloc, from), &mut found)?;
        let mut known = ends_of(alloc, found.as_slice())?;
        for _round in 0..self.plans.len() {
            let mut longer = self.all_on(alloc, found.as_slice())?;
            found = fresh(alloc, &mut known, longer.as_slice())?;
            ways.append(&mut longer)?;
        }
        Ok(())
    }

    /// Adds the ways over each screen that begins with an erase.
    fn push_over(&self, alloc: Global, ways: &mut Vec<Way>) -> Result<(), AllocError>
        ensures { OnOk result (ways.new.items ≡ ways.old.items
            ++ flat_map (over_at self.now) (all_of self.now)) }
    {
        for index in 0..self.plans.len() {
            if self.is_erased(index) {
                self.push_rounds(alloc, index, ways)?;
            }
        }
        Ok(())
    }

    /// The ways that are judged.
    pub(crate) fn ways(&self, alloc: Global) -> Result<Vec<Way>, AllocError>
        ensures { IfOk result (λ v. v.items ≡ ways self.now) }
    {
        let mut ways = Vec::new(alloc);
        self.push_alone(alloc, &mut ways)?;
        self.push_over(alloc, &mut ways)?;
        Ok(ways)
    }
}
