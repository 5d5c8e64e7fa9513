//! The files of an application's screens, and what they tell.

ghost use Rattle.std.specs.Prelude.{◌≡◌, ◌++◌, [], ◌∷◌, IfOk, option_map};
ghost use Rattle.std.specs.String.{string_bytes};
ghost use Rattle.cli_commands.specs.Held.{answer_seen, records_seen};
ghost use Rattle.cli_commands.specs.LayoutText.{layout_in};
ghost use Rattle.cli_commands.specs.Records.{records_in};
ghost use Rattle.cli_commands.specs.declared.input.sizes.SizeLine.TheVariants.{Refused};
ghost use Rattle.cli_offers.specs.Held.{Reads, scene_seen, scenes_seen};
ghost use Rattle.cli_offers.specs.Sources.{fault_printed, files_at, refusal, scene_read, scenes_from, text_read, told_at, with_scene};

use cli_applications::{ManifestFault, ManifestKey, PlannedScreen, Why};
use cli_commands::{Answer, CommandError, Fault, Records, SizeLine, Status, layout_in, records_in};
use scr_layout::Layout;
use std::alloc::{AllocError, AllocFailed, Global};
use std::marker::Model;
use tn_dialogue::{Lead, Next, Reading, Screen};

/// The bytes of a screen's files; `None` where one can't be read.
#[derive(Debug, Drop)]
pub struct Files {
    /// Of its layout.
    pub layout: Option<Vec<u8>>,
    /// Of its records.
    pub records: Option<Vec<u8>>,
}

impl Model for Files {
    ghost use Rattle.std.specs.Prelude.{option_map};
    ghost use Rattle.cli_offers.specs.Sources.{Files};

    ghost Value = { Files };

    ghost view = { λ f. record {
      layout = option_map (λ v. v.items) f.layout;
      records = option_map (λ v. v.items) f.records;
    } };
}

/// Why there is no application.
#[derive(Drop)]
pub(crate) enum Stop {
    /// This is printed.
    Answers(Answer),
    OutOfMemory,
}

impl From<AllocError> for Stop {
    ghost use Rattle.cli_offers.specs.declared.sources.Stop.TheVariants.{OutOfMemory};

    ghost from_gives = { λ _ e. e ≡ OutOfMemory };

    fn from(_e: AllocError) -> Stop {
        Stop::OutOfMemory
    }
}

impl<T: Drop> From<AllocFailed<T>> for Stop {
    ghost use Rattle.cli_offers.specs.declared.sources.Stop.TheVariants.{OutOfMemory};

    ghost from_gives = { λ _ e. e ≡ OutOfMemory };

    fn from(_e: AllocFailed<T>) -> Stop {
        Stop::OutOfMemory
    }
}

/// What is printed of a refusal.
pub fn refusal(alloc: Global, fault: ManifestFault) -> Result<Answer, AllocError>
    ensures { IfOk result (λ answer. answer_seen answer ≡ refusal fault) }
{
    Ok(Answer {
        text: format!(in alloc; "{fault}\n")?,
        status: Status::BadInput,
    })
}

/// What is printed of a fault of the file of a path.
fn fault_at(alloc: Global, path: &str, fault: Fault) -> Result<Answer, AllocError>
    ensures { IfOk result (λ answer. answer_seen answer ≡ fault_printed path.now fault) }
{
    Ok(Answer {
        text: format!(in alloc; "{path}: {fault}\n")?,
        status: Status::BadInput,
    })
}

/// The bytes of a file of the screen of this number.
fn text_read<'a>(
    alloc: Global,
    key: ManifestKey,
    index: usize,
    file: Option<&'a [u8]>,
) -> Result<&'a [u8], Stop>
    ensures { Reads (λ text. text.now) result
        (text_read key index (option_map (λ bytes. bytes.now) file.entry)) }
{
    match file {
        Some(text) => Ok(text),
        None => {
            let fault = ManifestFault::at_key(key, Why::Missing).in_screen(index);
            Err(Stop::Answers(refusal(alloc, fault)?))
        }
    }
}

/// The layout of a text, at a path.
fn layout_read(alloc: Global, path: &str, text: &[u8]) -> Result<Layout, Stop>
    ensures { Reads (λ layout. layout) result (told_at path.now (layout_in text.now)) }
{
    match layout_in(alloc, text) {
        Ok(layout) => Ok(layout),
        Err(CommandError::Fault(fault)) => Err(Stop::Answers(fault_at(alloc, path, fault)?)),
        // Of a text no read fails.
        Err(CommandError::ReadFailed | CommandError::OutOfMemory) => Err(Stop::OutOfMemory),
    }
}

/// The records of a text, at a path.
fn records_read(alloc: Global, path: &str, text: &[u8]) -> Result<Records, Stop>
    ensures { Reads records_seen result (told_at path.now (records_in Refused text.now)) }
{
    match records_in(alloc, text, SizeLine::Refused) {
        Ok(told) => Ok(told),
        Err(CommandError::Fault(fault)) => Err(Stop::Answers(fault_at(alloc, path, fault)?)),
        Err(CommandError::ReadFailed | CommandError::OutOfMemory) => Err(Stop::OutOfMemory),
    }
}

/// A copy of leads.
fn leads_of(alloc: Global, leads: &[Lead]) -> Result<Vec<Lead>, AllocError>
    ensures { IfOk result (λ copy. copy.items ≡ leads.now) }
{
    let mut copy = Vec::with_capacity(alloc, leads.len())?;
    copy.extend_from_slice(leads)?;
    Ok(copy)
}

/// The bytes of a file, where it could be read.
fn file_bytes(file: &Option<Vec<u8>>) -> Option<&[u8]>
    ensures { option_map (λ bytes. bytes.now) result ≡ option_map (λ v. v.items) file.now }
{
    match file {
        Some(bytes) => Some(bytes.as_slice()),
        None => None,
    }
}

/// The screen of this number: its layout, and then its records.
fn scene_read(
    alloc: Global,
    index: usize,
    plan: &PlannedScreen,
    layout: Option<&[u8]>,
    records: Option<&[u8]>,
) -> Result<Screen, Stop>
    ensures { Reads scene_seen result (scene_read index plan.now (record {
      layout = option_map (λ bytes. bytes.now) layout.entry;
      records = option_map (λ bytes. bytes.now) records.entry;
    })) }
{
    let text = text_read(alloc, ManifestKey::Layout, index, layout)?;
    let layout = layout_read(alloc, plan.layout.as_str(), text)?;
    let input = text_read(alloc, ManifestKey::Records, index, records)?;
    let told = records_read(alloc, plan.records.as_str(), input)?;
    Ok(Screen {
        layout,
        reading: Reading::Fields,
        records: told.records,
        leads: leads_of(alloc, plan.leads.as_slice())?,
        otherwise: Next::Shows(index),
    })
}

/// The same, of the files of that number.
fn scene_at(
    alloc: Global,
    files: &[Files],
    index: usize,
    plan: &PlannedScreen,
) -> Result<Screen, Stop>
    ensures { Reads scene_seen result (scene_read index plan.now (files_at files.now index)) }
{
    match files.get(index) {
        Some(files) => {
            let (layout, records) = (file_bytes(&files.layout), file_bytes(&files.records));
            scene_read(alloc, index, plan, layout, records)
        }
        None => scene_read(alloc, index, plan, None, None),
    }
}

/// The screens before, and behind them one more.
fn with_scene(
    alloc: Global,
    files: &[Files],
    index: usize,
    before: Vec<Screen>,
    plan: &PlannedScreen,
) -> Result<Vec<Screen>, Stop>
    ensures { Reads scenes_seen result
        (with_scene files.now index (scenes_seen before) plan.now) }
{
    let screen = scene_at(alloc, files, index, plan)?;
    let mut screens = before;
    screens.push(screen)?;
    Ok(screens)
}

/// The screens of plans and of their files, up to the first that is refused.
pub(crate) fn scenes_from(
    alloc: Global,
    files: &[Files],
    plans: &[PlannedScreen],
) -> Result<Vec<Screen>, Stop>
    ensures { Reads scenes_seen result (scenes_from files.now 0 [] plans.now) }
{
    let mut screens = Vec::new(alloc);
    for (index, plan) in plans.iter().enumerate() {
        screens = with_scene(alloc, files, index, screens, plan)?;
    }
    Ok(screens)
}
