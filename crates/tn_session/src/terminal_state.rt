//! What a terminal keeps during a session.

ghost use Rattle.std.specs.Prelude.{◌≡◌, Some, IfOk, OnOk};
ghost use Rattle.ds_codec.specs.Same.{same_size};
ghost use Rattle.tn_cores.specs.Devices.{alternate_of};
ghost use Rattle.tn_session.specs.EndCores.{core_agreed};
ghost use Rattle.tn_session.specs.Kept.{nothing_kept};
ghost use Rattle.tn_session.specs.LuNames.{name_under};
ghost use Rattle.tn_session.specs.TerminalLog.{begun_state, new_terminal_state, tolerant_terminal, kept_anew, renewed, fitted, dropping, heeding};
ghost use Rattle.tn_session.specs.TerminalTalk.{counts_of};

use crate::arrived::Arrived;
use crate::end_core::EndCore;
use crate::kept::KeptRecords;
use crate::lu_name::LuName;
use crate::noted::NotedText;
use ds_screen::PlaneCells;
use ds_terminal::Terminal;
use std::alloc::{AllocError, Global};
use tn_cores::{Device, TermCore, Told};

/// A terminal's session, the keys that are left aside.
#[derive(Drop)]
pub(crate) struct TerminalState {
    /// The session.
    pub(crate) core: EndCore,
    /// The screen and keyboard.
    pub(crate) terminal: Terminal<PlaneCells>,
    /// Insert mode is on.
    pub(crate) inserts: bool,
    /// The sequence number of the next answer.
    pub(crate) sequence: u16,
    /// The keyboard has been free.
    pub(crate) was_free: bool,
    /// Answers that were sent.
    pub(crate) answers: u64,
    /// Records of 3270 data that were taken.
    pub(crate) taken: u64,
    /// Records that were passed over.
    pub(crate) passed: u64,
    /// Records that were refused.
    pub(crate) refused: u64,
    /// What a tolerant terminal ignored while no record passes.
    pub(crate) ignored: u64,
    /// The record that ends next is to be dropped.
    pub(crate) drops: bool,
    /// The name of the logical unit that the host granted last.
    pub(crate) lu_name: LuName,
    /// The text that a tolerant terminal was sent.
    pub(crate) noted: NotedText,
    /// The records of the screen, where they are kept.
    pub(crate) kept: Option<KeptRecords>,
}

impl TerminalState {
    /// A terminal of this device at the beginning of a session, which keeps no records.
    pub(crate) fn new(
        alloc: Global,
        device: Device,
        enhanced: bool,
        responses: bool,
    ) -> Result<TerminalState, AllocError>
        ensures { IfOk result (λ state. state ≡ new_terminal_state device enhanced responses) }
    {
        let core = EndCore::Strict(TermCore::new(device, enhanced, responses));
        TerminalState::begun(alloc, core, device)
    }

    /// A tolerant terminal of this device at the beginning of a session, which keeps records.
    pub(crate) fn tolerant(
        alloc: Global,
        device: Device,
        enhanced: bool,
        responses: bool,
    ) -> Result<TerminalState, AllocError>
        ensures { IfOk result (λ state. state ≡ tolerant_terminal device enhanced responses) }
    {
        let core = EndCore::Tolerant(TermCore::tolerant(device, enhanced, responses));
        let state = TerminalState::begun(alloc, core, device)?;
        Ok(state.keeping(alloc))
    }

    /// A terminal with this core, of the device's sizes.
    fn begun(alloc: Global, core: EndCore, device: Device) -> Result<TerminalState, AllocError>
        ensures { IfOk result (λ state. state ≡ begun_state core device) }
    {
        let terminal = Terminal::new(alloc, device.geometry())?;
        Ok(TerminalState {
            core,
            terminal,
            inserts: false,
            sequence: 0,
            was_free: false,
            answers: 0,
            taken: 0,
            passed: 0,
            refused: 0,
            ignored: 0,
            drops: false,
            lu_name: LuName::new(),
            noted: NotedText::new(alloc),
            kept: None,
        })
    }

    /// The same terminal, which keeps the records of its screen.
    pub(crate) fn keeping(self, alloc: Global) -> TerminalState
        ensures { result ≡ record self { kept = Some nothing_kept } }
    {
        let mut state = self;
        state.kept = Some(KeptRecords::new(alloc));
        state
    }

    /// The name of the logical unit, while records pass by TN3270E.
    pub(crate) fn lu_name(&self) -> &[u8]
        ensures { result.now ≡ name_under (core_agreed self.now.core) self.now.lu_name }
    {
        match self.core.agreed() {
            Some(agreed) if agreed.enhanced => self.lu_name.bytes(),
            _ => &[],
        }
    }

    /// What it counts.
    pub(crate) fn counts(&self) -> Arrived
        ensures { result ≡ counts_of self.now }
    {
        Arrived {
            taken: self.taken,
            refused: self.refused,
            passed: self.passed,
            ignored: self.ignored,
            answers: self.answers,
        }
    }

    /// Does at a tolerant terminal what an event leaves that is no record: the record that is open when records begin to pass
    /// is to be dropped, and the screen is made anew where the device is of another model.
    pub(crate) fn heed(&mut self, alloc: Global, told: Told) -> Result<(), AllocError>
        ensures { OnOk result (self.new ≡ heeding self.old.core told self.old) }
    {
        let EndCore::Tolerant(core) = self.core else {
            return Ok(());
        };
        self.drop_open(told);
        self.fit(alloc, core.device())
    }

    fn drop_open(&mut self, told: Told)
        ensures { self.new ≡ dropping told self.old }
    {
        if let Told::Ready(_agreed) = told {
            self.drops = true;
        }
    }

    /// Makes the screen anew where it isn't that of the device's model.
    fn fit(&mut self, alloc: Global, device: Device) -> Result<(), AllocError>
        ensures { OnOk result (self.new ≡ fitted device self.old) }
    {
        if self.fits(device) {
            return Ok(());
        }
        self.renew(alloc, device)
    }

    /// Whether the screen is that of the device's model.
    fn fits(&self, device: Device) -> bool
        ensures { result ≡ same_size self.now.terminal.geometry.alternate
            (alternate_of device.model) }
    {
        let alternate = device.geometry().alternate_size();
        self.terminal.screen().geometry().alternate_size() == alternate
    }

    /// Makes the screen anew, that of the device's model.
    fn renew(&mut self, alloc: Global, device: Device) -> Result<(), AllocError>
        ensures { OnOk result (self.new ≡ renewed device self.old) }
    {
        self.terminal = Terminal::new(alloc, device.geometry())?;
        self.kept = kept_anew(alloc, &self.kept);
        Ok(())
    }
}

/// Nothing kept, where records are.
fn kept_anew(alloc: Global, kept: &Option<KeptRecords>) -> Option<KeptRecords>
    ensures { result ≡ kept_anew kept.now }
{
    match kept {
        Some(_kept) => Some(KeptRecords::new(alloc)),
        None => None,
    }
}
