//! The records that made the screen which is shown.

ghost use Rattle.std.specs.Prelude.{◌≡◌, true, map, None, Some, OnOk, OnErr, option_map, if◌then◌else◌};
ghost use Rattle.tn_session.specs.Kept.{nothing_kept, has_room, one_kept, with_record, is_erase_code, is_read_code, begins_with, kept_bytes, kept_record, kept_attention, kept_key};
ghost use Rattle.tn_session.specs.KeptView.{kept_view};
ghost use Rattle.ds_terminal.specs.Seen.{reply_seen, key_reply_seen};
ghost use Rattle.ds_terminal.specs.Terminal.{IsSent};

use crate::outcome::owned;
use ds_codec::{Aid, CommandCode};
use ds_terminal::{KeyReply, RecordReply};
use std::alloc::{AllocError, Global};
use std::marker::Model;

/// The most records that are kept.
const MOST_RECORDS: usize = 1_000;

/// The most bytes of records that are kept.
const MOST_BYTES: usize = 8_388_608;

/// A record of 3270 data that helped to make a screen.
#[derive(Debug, Drop)]
pub struct KeptRecord {
    /// The operator sent since the record before it: a turn begins with it, as one does with the first of all.
    pub begins_turn: bool,
    /// Its bytes, without a header.
    pub bytes: Vec<u8>,
}

/// The records since the last erase.
#[derive(Drop)]
pub struct KeptRecords {
    records: Vec<KeptRecord>,
    size: usize,
    sent_since: bool,
    is_past_limit: bool,
}

impl Model for KeptRecords {
    ghost use Rattle.std.specs.Prelude.{map, ◌≤◌};
    ghost use Rattle.tn_session.specs.Kept.{Keeping};
    ghost use Rattle.tn_session.specs.KeptView.{kept_view};

    ghost Value = { Keeping };

    ghost view = { λ k. record {
      records = map kept_view k.records.items;
      size = k.size;
      sent_since = k.sent_since;
      is_past_limit = k.is_past_limit;
    } };

    ghost invariant = { λ k. k.size ≤ 8388608 };
}

fn is_erase_code(code: u8) -> bool
    ensures { result ≡ is_erase_code code }
{
    (code == 0x05 || code == 0xf5) || (code == 0x0d || code == 0x7e)
}

fn is_read_code(code: u8) -> bool
    ensures { result ≡ is_read_code code }
{
    (code == 0x02 || code == 0xf2)
        || ((code == 0x06 || code == 0xf6) || (code == 0x0e || code == 0x6e))
}

/// Whether a record begins with a command that erases first.
fn erases(bytes: &[u8]) -> bool
    ensures { result ≡ begins_with is_erase_code bytes.now }
{
    match bytes {
        [code, ..] => is_erase_code(*code),
        [] => false,
    }
}

/// Whether a record begins with a command that reads.
pub fn reads(bytes: &[u8]) -> bool
    ensures { result ≡ begins_with is_read_code bytes.now }
{
    match bytes {
        [code, ..] => is_read_code(*code),
        [] => false,
    }
}

impl KeptRecords {
    /// No record yet.
    pub fn new(alloc: Global) -> KeptRecords
        ensures { result ≡ nothing_kept }
    {
        KeptRecords {
            records: Vec::new(alloc),
            size: 0,
            sent_since: false,
            is_past_limit: false,
        }
    }

    /// The records, in turn; none where there were too many.
    pub fn records(&self) -> Option<&[KeptRecord]>
        ensures { option_map (λ records. map kept_view records.now) result
            ≡ (if self.now.is_past_limit then None else Some self.now.records) }
    {
        if self.is_past_limit {
            None
        } else {
            Some(&self.records)
        }
    }

    /// Whether one more record can be kept.
    fn has_room(&self, bytes: &[u8]) -> bool
        ensures { result ≡ has_room self.now bytes.now }
    {
        self.records.len() < MOST_RECORDS && bytes.len() <= MOST_BYTES - self.size
    }

    /// Keeps one more record.
    fn push(&mut self, alloc: Global, bytes: &[u8]) -> Result<(), AllocError>
        requires { has_room self.old bytes.now ≡ true }
        ensures { OnOk result (self.new ≡ one_kept self.old bytes.now) }
    {
        let copy = owned(alloc, bytes)?;
        self.records.push(KeptRecord {
            begins_turn: self.sent_since,
            bytes: copy,
        })?;
        self.size += bytes.len();
        self.sent_since = false;
        self.is_past_limit = false;
        Ok(())
    }

    /// Keeps one more record, up to the limit.
    fn add(&mut self, alloc: Global, bytes: &[u8]) -> Result<(), AllocError>
        ensures { OnOk result (self.new ≡ with_record self.old bytes.now) }
    {
        if self.is_past_limit {
            return Ok(());
        }
        if self.has_room(bytes) {
            return self.push(alloc, bytes);
        }
        *self = KeptRecords {
            records: Vec::new(alloc),
            size: 0,
            sent_since: false,
            is_past_limit: true,
        };
        Ok(())
    }

    /// Keeps a record of the host's of which its bytes alone are known: alone where it erases, and not where it reads.
    ///
    /// # Errors
    ///
    /// Where a request for memory was refused.
    pub fn take_bytes(&mut self, alloc: Global, bytes: &[u8]) -> Result<(), AllocError>
        ensures { OnOk result (self.new ≡ kept_bytes self.old bytes.now) }
    {
        if reads(bytes) {
            return Ok(());
        }
        if erases(bytes) {
            *self = KeptRecords::new(alloc);
        }
        self.add(alloc, bytes)
    }

    /// Keeps what a record leaves, by what became of it.
    pub(crate) fn take_record(
        &mut self,
        alloc: Global,
        bytes: &[u8],
        reply: &RecordReply,
    ) -> Result<(), AllocError>
        ensures { OnOk result (self.new ≡ kept_record self.old bytes.now (reply_seen reply.now)) }
    {
        match reply {
            RecordReply::Shown(_effect) => {
                if erases(bytes) {
                    *self = KeptRecords::new(alloc);
                }
                self.add(alloc, bytes)
            }
            RecordReply::Refused(_why) => {
                if reads(bytes) {
                    return Ok(());
                }
                self.add(alloc, bytes)
            }
            RecordReply::Sent(_) | RecordReply::Nothing => Ok(()),
        }
    }

    /// Keeps what a key that sent leaves, by its attention identifier.
    ///
    /// # Errors
    ///
    /// Where a request for memory was refused.
    pub fn take_attention(&mut self, alloc: Global, aid: Option<u8>) -> Result<(), AllocError>
        ensures { OnOk result (self.new ≡ kept_attention self.old aid) }
    {
        let Some(aid) = aid else {
            return Ok(());
        };
        if aid == Aid::clear().byte() {
            *self = KeptRecords::new(alloc);
            return self.add(alloc, &[CommandCode::EraseWrite.byte(), 0x40]);
        }
        self.sent_since = true;
        Ok(())
    }

    /// Keeps what a key leaves, by its attention identifier and what became of it.
    pub(crate) fn take_key(
        &mut self,
        alloc: Global,
        aid: Option<u8>,
        reply: &KeyReply,
    ) -> Result<(), AllocError>
        ensures kept { OnOk result (self.new ≡ kept_key self.old aid (key_reply_seen reply.now)) }
        ensures asks { OnErr result (IsSent (key_reply_seen reply.now)) }
    {
        match reply {
            KeyReply::Sent(_) => self.take_attention(alloc, aid),
            KeyReply::Done | KeyReply::Inhibited | KeyReply::Ignored => Ok(()),
        }
    }
}
