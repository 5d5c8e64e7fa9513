//! Where the keys of screens lead, by numbers.

ghost use Rattle.std.specs.Prelude.{◌≡◌, ◌++◌, [], ◌∷◌};
ghost use Rattle.cli_applications.specs.Results.{Gives, in_screen};
ghost use Rattle.cli_applications.specs.Manifest.{index_of, lead_by, leads_from, next_named, planned, plans_from, with_lead, with_planned};

use crate::attention::aid_of;
use crate::fault::{ManifestError, ManifestFault, ManifestKey, Why};
use crate::screen::{NamedScreen, PlannedScreen, Target};
use crate::tables::END_NAME;
use std::alloc::Global;
use tn_dialogue::{Lead, Next};

/// The number of the screen of a name.
pub(crate) fn index_of(name: &str, screens: &[NamedScreen]) -> Option<usize>
    ensures { result ≡ index_of name.now screens.now }
{
    screens
        .iter()
        .position(|screen| screen.name.as_str() == name)
}

/// Where a name leads.
fn next_named(name: &str, screens: &[NamedScreen]) -> Option<Next>
    ensures { result ≡ next_named name.now screens.now }
{
    if name == END_NAME {
        return Some(Next::Ends);
    }
    match index_of(name, screens) {
        Some(index) => Some(Next::Shows(index)),
        None => None,
    }
}

/// The leads before, and behind them that of a key.
fn lead_by(
    before: Vec<Lead>,
    key: ManifestKey,
    next: Option<Next>,
) -> Result<Vec<Lead>, ManifestError>
    ensures { Gives (λ leads. leads.items) result (lead_by before.items key next) }
{
    let Some(next) = next else {
        return Err(ManifestError::Refused(ManifestFault::at_key(key, Why::NoSuchScreen)));
    };
    let mut leads = before;
    let key = aid_of(key);
    leads.push(Lead { key, next })?;
    Ok(leads)
}

/// The same, of a target.
fn with_lead(
    screens: &[NamedScreen],
    before: Vec<Lead>,
    target: &Target,
) -> Result<Vec<Lead>, ManifestError>
    ensures { Gives (λ leads. leads.items) result
        (with_lead screens.now before.items target.now) }
{
    lead_by(before, target.key, next_named(target.to.as_str(), screens))
}

/// The leads of targets.
fn leads_from(
    alloc: Global,
    screens: &[NamedScreen],
    targets: &[Target],
) -> Result<Vec<Lead>, ManifestError>
    ensures { Gives (λ leads. leads.items) result (leads_from screens.now [] targets.now) }
{
    let mut leads = Vec::new(alloc);
    for target in targets {
        leads = with_lead(screens, leads, target)?;
    }
    Ok(leads)
}

/// A screen, with where its keys lead.
fn planned(
    alloc: Global,
    screens: &[NamedScreen],
    screen: &NamedScreen,
) -> Result<PlannedScreen, ManifestError>
    ensures { Gives (λ plan. plan) result (planned screens.now screen.now) }
{
    let leads = leads_from(alloc, screens, screen.targets.as_slice())?;
    Ok(PlannedScreen {
        name: String::from_str(alloc, screen.name.as_str())?,
        records: String::from_str(alloc, screen.records.as_str())?,
        layout: String::from_str(alloc, screen.layout.as_str())?,
        leads,
    })
}

/// The same, where a fault is one of the screen of this number.
fn planned_in(
    alloc: Global,
    screens: &[NamedScreen],
    index: usize,
    screen: &NamedScreen,
) -> Result<PlannedScreen, ManifestError>
    ensures { Gives (λ plan. plan) result (in_screen index (planned screens.now screen.now)) }
{
    match planned(alloc, screens, screen) {
        Ok(plan) => Ok(plan),
        Err(ManifestError::Refused(fault)) => Err(ManifestError::Refused(fault.in_screen(index))),
        Err(ManifestError::OutOfMemory) => Err(ManifestError::OutOfMemory),
    }
}

/// The plans before, and behind them that of a screen.
fn with_planned(
    alloc: Global,
    screens: &[NamedScreen],
    index: usize,
    before: Vec<PlannedScreen>,
    screen: &NamedScreen,
) -> Result<Vec<PlannedScreen>, ManifestError>
    ensures { Gives (λ plans. plans.items) result
        (with_planned screens.now index before.items screen.now) }
{
    let plan = planned_in(alloc, screens, index, screen)?;
    let mut plans = before;
    plans.push(plan)?;
    Ok(plans)
}

/// All screens, with where their keys lead.
pub(crate) fn plans_from(
    alloc: Global,
    screens: &[NamedScreen],
) -> Result<Vec<PlannedScreen>, ManifestError>
    ensures { Gives (λ plans. plans.items) result (plans_from screens.now 0 [] screens.now) }
{
    let mut plans = Vec::new(alloc);
    for (index, screen) in screens.iter().enumerate() {
        plans = with_planned(alloc, screens, index, plans, screen)?;
    }
    Ok(plans)
}
