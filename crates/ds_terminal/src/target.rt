//! Reading a record and then applying it, to whatever takes records.

ghost use Rattle.std.specs.Prelude.{◌≡◌, IfOk, IfErr, OnOk, OnErr};
ghost use Rattle.ds_codec.specs.Reading.{read_of};
ghost use Rattle.ds_screen.specs.Records.{told_of};
ghost use Rattle.ds_terminal.specs.Taking.{reading, AppliesAs, Takes};

use crate::refused::Refused;
use ds_codec::{Mode, Record};
use ds_screen::{Cells, Effect, Outline, Screen};

/// What outbound records act on: a screen, or something that keeps only so much of one as its user needs.
pub trait RecordTarget: Drop {
    ghost use Rattle.ds_codec.specs.declared.size.Mode.{Mode};
    ghost use Rattle.ds_codec.specs.Record.{Message};
    ghost use Rattle.ds_screen.specs.declared.refused.Refused as screen;

    /// How its addresses are spelled.
    ghost mode_of: { Self → Mode };

    /// The record leads from one to the other.
    ghost leads: { Self → Message → Self → Type 0 };

    /// The record is refused so.
    ghost refuses: { Self → Message → screen.Refused → Type 0 };

    /// How its addresses are spelled.
    fn mode(&self) -> Mode
        ensures { result ≡ mode_of self.now };

    /// Does what a record says, or refuses it and changes nothing. Takes no memory.
    fn apply(&mut self, outbound: &Record<'_>) -> Result<Effect, ds_screen::Refused>
        ensures shows { OnOk result (leads self.old outbound.now self.new) }
        ensures told { IfOk result (λ effect. effect ≡ told_of outbound.now.command) }
        ensures refused { IfErr result (refuses self.old outbound.now) }
        ensures unchanged { OnErr result (self.new ≡ self.old) };
}

impl<C: Cells> RecordTarget for Screen<C> {
    ghost use Rattle.ds_screen.specs.Records.{RecordShows, IsRefusedBy};

    ghost mode_of = { λ v. v.geometry.mode };

    ghost leads = { RecordShows };

    ghost refuses = { IsRefusedBy };

    fn mode(&self) -> Mode {
        self.geometry().mode()
    }

    fn apply(&mut self, outbound: &Record<'_>) -> Result<Effect, ds_screen::Refused> {
        Screen::apply(self, outbound)
    }
}

impl RecordTarget for Outline {
    ghost use Rattle.ds_screen.specs.Outline.{OutlinesShown, OutlinesRefused};

    ghost mode_of = { λ o. o.geometry.mode };

    ghost leads = { OutlinesShown };

    ghost refuses = { OutlinesRefused };

    fn mode(&self) -> Mode {
        self.geometry().mode()
    }

    fn apply(&mut self, outbound: &Record<'_>) -> Result<Effect, ds_screen::Refused> {
        Outline::apply(self, outbound)
    }
}

/// The record that bytes spell for a target, or why they spell none.
pub fn read_record<'a, T: RecordTarget>(target: &T, bytes: &'a [u8]) -> Result<Record<'a>, Refused>
    ensures { result ≡ reading (read_of (T.mode_of target.now) bytes.now) }
{
    match Record::read(target.mode(), bytes) {
        Ok(record) => Ok(record),
        Err(refused) => Err(Refused::Read(refused)),
    }
}

/// Applies a record that was read, or tells why it can't be done; then the target is as before.
pub fn apply_record<T: RecordTarget>(
    target: &mut T,
    outbound: &Record<'_>,
) -> Result<Effect, Refused>
    ensures { AppliesAs T.leads T.refuses target.old outbound.now result target.new }
{
    match target.apply(outbound) {
        Ok(effect) => Ok(effect),
        Err(refused) => Err(Refused::Apply(refused)),
    }
}

/// Reads a record and applies it, or refuses it; then the target is as before. The three reads and
/// No-operation are refused as A3.
pub fn take_record<T: RecordTarget>(target: &mut T, bytes: &[u8]) -> Result<Effect, Refused>
    ensures { Takes T.leads T.refuses
        (read_of (T.mode_of target.old) bytes.now) target.old result target.new }
{
    let record = read_record(target, bytes)?;
    apply_record(target, &record)
}
