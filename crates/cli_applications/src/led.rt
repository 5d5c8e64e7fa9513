//! Whether a chain of keys leads to each screen.

ghost use Rattle.std.specs.Prelude.{◌≡◌, ◌<◌, ℕ, true, false, IfOk, OnOk, MatchOption, length, Ok as Said};
ghost use Rattle.cli_applications.specs.Manifest.{leads_to, shows};
ghost use Rattle.cli_applications.specs.Chains.{AllHaveWays, AreReached, Declares, IsFirstLost, has, leads_of, with_leads, with_next, with_one};

use crate::fault::{ManifestError, ManifestFault, ManifestKey, Why};
use crate::screen::{Manifest, PlannedScreen};
use std::alloc::{AllocError, Global};
use tn_dialogue::{Lead, Next};

fn shows(index: usize, next: Next) -> bool
    ensures { result ≡ shows index next }
{
    match next {
        Next::Shows(screen) => screen == index,
        Next::Ends => false,
    }
}

/// Whether a key leads to the screen of this number.
pub fn leads_to(leads: &[Lead], index: usize) -> bool
    ensures { result ≡ leads_to leads.now index }
{
    leads.iter().any(|lead| shows(index, lead.next))
}

/// Where the keys of a screen lead.
fn leads_of(screens: &[PlannedScreen], index: usize) -> &[Lead]
    ensures { result.now ≡ leads_of screens.now index }
{
    match screens.get(index) {
        Some(screen) => screen.leads.as_slice(),
        None => &[],
    }
}

fn has(found: &[usize], index: usize) -> bool
    ensures { result ≡ has found.now index }
{
    found.iter().any(|screen| index == *screen)
}

/// Adds a screen that wasn't found yet.
fn add(count: usize, found: &mut Vec<usize>, index: usize) -> Result<(), AllocError>
    ensures { OnOk result (found.new.items ≡ with_one count found.old.items index) }
{
    if index < count && !has(found.as_slice(), index) {
        found.push(index)?;
    }
    Ok(())
}

fn add_next(count: usize, found: &mut Vec<usize>, next: Next) -> Result<(), AllocError>
    ensures { OnOk result (found.new.items ≡ with_next count found.old.items next) }
{
    match next {
        Next::Shows(index) => add(count, found, index),
        Next::Ends => Ok(()),
    }
}

/// Adds the screens to which keys lead.
fn follow(count: usize, found: &mut Vec<usize>, leads: &[Lead]) -> Result<(), AllocError>
    ensures { OnOk result (found.new.items ≡ with_leads count found.old.items leads.now) }
{
    for lead in leads {
        add_next(count, found, lead.next)?;
    }
    Ok(())
}

/// The screens to which a chain of keys leads, each followed once.
fn reached(alloc: Global, screens: &[PlannedScreen], first: usize) -> Result<Vec<usize>, AllocError>
    ensures { IfOk result (λ found. AreReached screens.now first found.items) }
{
    let count = screens.len();
    let mut found = Vec::new(alloc);
    add(count, &mut found, first)?;
    let mut at = 0;
    'found: while at < found.len() {
        let leads = leads_of(screens, found[at]);
        follow(count, &mut found, leads)?;
        at += 1;
    }
    Ok(found)
}

/// The first of so many screens that isn't found.
fn missing(count: usize, found: &[usize]) -> Option<usize>
    ensures { MatchOption result ((n : ℕ) → n < count → has found.now n ≡ true)
        (λ lost. (lost < count) × (has found.now lost ≡ false)
        × ((m : ℕ) → m < lost → has found.now m ≡ true)) }
{
    for index in 0..count {
        if !has(found, index) {
            return Some(index);
        }
    }
    None
}

/// The first screen to which no chain of keys leads.
fn first_lost(
    alloc: Global,
    screens: &[PlannedScreen],
    first: usize,
) -> Result<Option<usize>, AllocError>
    ensures { IfOk result (λ lost. MatchOption lost (AllHaveWays screens.now first)
        (λ n. IsFirstLost screens.now first n)) }
{
    let found = reached(alloc, screens, first)?;
    Ok(missing(screens.len(), found.as_slice()))
}

/// The manifest, where a chain of keys leads from its first screen to each.
pub(crate) fn with_ways(alloc: Global, manifest: Manifest) -> Result<Manifest, ManifestError>
    ensures { Declares result (Said manifest) }
{
    let lost = first_lost(alloc, manifest.screens.as_slice(), manifest.first)?;
    match lost {
        Some(index) => {
            let fault = ManifestFault::at_key(ManifestKey::Name, Why::NoWay).in_screen(index);
            Err(ManifestError::Refused(fault))
        }
        None => Ok(manifest),
    }
}
