//! What a record and a key do to a terminal's run.

ghost use Rattle.std.specs.Prelude.{◌≡◌, ◌++◌, map, IfOk, OnOk, OnErr};
ghost use Rattle.tn_session.specs.declared.pressed.Pressed.TheVariants.{Sent};
ghost use Rattle.tn_session.specs.TerminalLog.{one_more, is_free, is_waiting, answer_due, after_answer, replied, received_data, operator_at, key_replied, typed_key, typing};
ghost use Rattle.tn_session.specs.TerminalLog.{positive, negative, one_taken, one_refused, after_record, refusal_in, after_query, field_obeyed, fields_obeyed, obeyed};
ghost use Rattle.ds_structured.specs.Fields.{wanted_seen, field_seen};
ghost use Rattle.ds_structured.specs.Replies.{query_reply};
ghost use Rattle.ds_terminal.specs.Terminal.{received};
ghost use Rattle.tn_session.specs.Kept.{keep_record, keep_key};
ghost use Rattle.tn_session.specs.Strikes.{struck_by};
ghost use Rattle.tn_session.specs.TerminalTalk.{key_answer, worked};
ghost use Rattle.ds_terminal.specs.Seen.{reply_seen, key_reply_seen};
ghost use Rattle.ds_terminal.specs.Terminal.{IsSent};

use crate::kept::KeptRecords;
use crate::keystroke::Keystroke;
use crate::pressed::Pressed;
use crate::responses::{push_negative, push_positive};
use crate::sent::{next_sequence, push_data};
use crate::terminal_state::TerminalState;
use ds_screen::Lock;
use ds_structured::{StructuredField, Wanted, write_query_reply};
use ds_terminal::{KeyReply, RecordReply, Refused};
use std::alloc::{AllocError, Global};
use tn_cores::Agreed;
use tn_wire::Header;

fn is_free(lock: Lock) -> bool
    ensures { result ≡ is_free lock }
{
    matches!(lock, Lock::Free)
}

fn is_waiting(lock: Lock) -> bool
    ensures { result ≡ is_waiting lock }
{
    matches!(lock, Lock::Waiting)
}

/// One more, up to the most that is counted.
pub(crate) fn one_more(count: u64) -> u64
    ensures { result ≡ one_more count }
{
    if count < u64::MAX { count + 1 } else { count }
}

/// Keeps what a record leaves, at a terminal that keeps records.
fn keep_record(
    alloc: Global,
    kept: &mut Option<KeptRecords>,
    bytes: &[u8],
    reply: &RecordReply,
) -> Result<(), AllocError>
    ensures { OnOk result
        (kept.new ≡ keep_record kept.old bytes.now (reply_seen reply.now)) }
{
    match kept {
        Some(kept) => kept.take_record(alloc, bytes, reply),
        None => Ok(()),
    }
}

/// Keeps what a key leaves, at a terminal that keeps records.
fn keep_key(
    alloc: Global,
    kept: &mut Option<KeptRecords>,
    aid: Option<u8>,
    reply: &KeyReply,
) -> Result<(), AllocError>
    ensures kept { OnOk result (kept.new ≡ keep_key kept.old aid (key_reply_seen reply.now)) }
    ensures asks { OnErr result (IsSent (key_reply_seen reply.now)) }
{
    match kept {
        Some(kept) => kept.take_key(alloc, aid, reply),
        None => Ok(()),
    }
}

impl TerminalState {
    /// Sends a record of the next number.
    fn send(&mut self, due: &mut Vec<u8>, agreed: Agreed, bytes: &[u8]) -> Result<(), AllocError>
        ensures due { OnOk result
            (due.new.items ≡ due.old.items ++ answer_due agreed self.old bytes.now) }
        ensures after { OnOk result (self.new ≡ after_query self.old) }
    {
        push_data(due, agreed, 0, self.sequence, bytes)?;
        self.sequence = next_sequence(self.sequence);
        Ok(())
    }

    /// Answers, as to Read Modified.
    fn answer(&mut self, due: &mut Vec<u8>, agreed: Agreed, bytes: &[u8]) -> Result<(), AllocError>
        ensures due { OnOk result
            (due.new.items ≡ due.old.items ++ answer_due agreed self.old bytes.now) }
        ensures after { OnOk result (self.new ≡ after_answer self.old) }
    {
        self.send(due, agreed, bytes)?;
        self.answers = one_more(self.answers);
        Ok(())
    }

    /// Responds that a record was taken, where that is wanted, and counts it.
    fn accept(
        &mut self,
        due: &mut Vec<u8>,
        agreed: Agreed,
        header: Header,
    ) -> Result<(), AllocError>
        ensures due { OnOk result (due.new.items ≡ due.old.items ++ positive agreed header) }
        ensures after { OnOk result (self.new ≡ one_taken self.old) }
    {
        push_positive(due, agreed, header)?;
        self.taken = one_more(self.taken);
        Ok(())
    }

    /// Responds that a record was refused, where that is wanted, and counts it.
    fn refuse(
        &mut self,
        due: &mut Vec<u8>,
        agreed: Agreed,
        header: Header,
        why: Refused,
    ) -> Result<(), AllocError>
        ensures due { OnOk result (due.new.items ≡ due.old.items ++ negative agreed header why) }
        ensures after { OnOk result (self.new ≡ one_refused self.old) }
    {
        push_negative(due, agreed, header, why)?;
        self.refused = one_more(self.refused);
        Ok(())
    }

    /// Has the screen take a record, and keeps what that leaves.
    fn take(&mut self, alloc: Global, bytes: &[u8]) -> Result<RecordReply, AllocError>
        ensures after { OnOk result
            (self.new ≡ after_record self.old bytes.now (received self.old.terminal bytes.now)) }
        ensures reply { IfOk result
            (λ reply. reply_seen reply ≡ (received self.old.terminal bytes.now).reply) }
    {
        let reply = self.terminal.receive(alloc, bytes)?;
        self.was_free = self.was_free || is_free(self.terminal.screen().lock());
        keep_record(alloc, &mut self.kept, bytes, &reply)?;
        Ok(reply)
    }

    /// Takes a record of 3270 data.
    pub(crate) fn receive(
        &mut self,
        alloc: Global,
        due: &mut Vec<u8>,
        agreed: Agreed,
        header: Header,
        bytes: &[u8],
    ) -> Result<(), AllocError>
        ensures due { OnOk result (due.new.items
            ≡ due.old.items ++ (received_data agreed header self.old bytes.now).due) }
        ensures after { OnOk result
            (self.new ≡ (received_data agreed header self.old bytes.now).state) }
    {
        let reply = self.take(alloc, bytes)?;
        self.reply(due, agreed, header, reply)
    }

    /// Does what a terminal's reply asks for.
    fn reply(
        &mut self,
        due: &mut Vec<u8>,
        agreed: Agreed,
        header: Header,
        reply: RecordReply,
    ) -> Result<(), AllocError>
        ensures due { OnOk result (due.new.items
            ≡ due.old.items ++ (replied agreed header self.old (reply_seen reply)).due) }
        ensures after { OnOk result
            (self.new ≡ (replied agreed header self.old (reply_seen reply)).state) }
    {
        match reply {
            RecordReply::Shown(_) | RecordReply::Nothing => self.accept(due, agreed, header),
            RecordReply::Sent(answer) => {
                self.accept(due, agreed, header)?;
                self.answer(due, agreed, &answer)
            }
            RecordReply::Refused(why) => self.refuse(due, agreed, header, why),
        }
    }

    /// Takes a record that a structured field holds, and tells why it is refused, where it is.
    fn draw(&mut self, alloc: Global, bytes: &[u8]) -> Result<Option<Refused>, AllocError>
        ensures after { OnOk result
            (self.new ≡ after_record self.old bytes.now (received self.old.terminal bytes.now)) }
        ensures why { IfOk result
            (λ why. why ≡ refusal_in (received self.old.terminal bytes.now).reply) }
    {
        match self.take(alloc, bytes)? {
            RecordReply::Refused(why) => Ok(Some(why)),
            RecordReply::Shown(_) | RecordReply::Sent(_) | RecordReply::Nothing => Ok(None),
        }
    }

    /// Answers a query.
    fn answer_query(
        &mut self,
        alloc: Global,
        due: &mut Vec<u8>,
        agreed: Agreed,
        wanted: Wanted<'_>,
    ) -> Result<(), AllocError>
        ensures due { OnOk result (due.new.items ≡ due.old.items ++ answer_due agreed self.old
            (query_reply self.old.terminal.geometry (wanted_seen wanted.entry))) }
        ensures after { OnOk result (self.new ≡ after_query self.old) }
    {
        let geometry = self.terminal.screen().geometry();
        let bytes = write_query_reply(alloc, &geometry, wanted)?;
        self.send(due, agreed, &bytes)?;
        Ok(())
    }

    /// Obeys a structured field, and tells why its record is refused, where it is.
    fn obey_field(
        &mut self,
        alloc: Global,
        due: &mut Vec<u8>,
        agreed: Agreed,
        field: &StructuredField<'_>,
    ) -> Result<Option<Refused>, AllocError>
        ensures due { OnOk result (due.new.items
            ≡ due.old.items ++ (field_obeyed agreed self.old (field_seen field.now)).due) }
        ensures after { OnOk result
            (self.new ≡ (field_obeyed agreed self.old (field_seen field.now)).state) }
        ensures why { IfOk result
            (λ why. why ≡ (field_obeyed agreed self.old (field_seen field.now)).refused) }
    {
        match field {
            StructuredField::Query(wanted) => {
                self.answer_query(alloc, due, agreed, *wanted)?;
                Ok(None)
            }
            StructuredField::Draw(bytes) => self.draw(alloc, *bytes),
        }
    }

    /// Obeys structured fields in turn, up to one whose record is refused, and tells why.
    fn obey_fields(
        &mut self,
        alloc: Global,
        due: &mut Vec<u8>,
        agreed: Agreed,
        fields: &[StructuredField<'_>],
    ) -> Result<Option<Refused>, AllocError>
        ensures due { OnOk result (due.new.items ≡ due.old.items
            ++ (fields_obeyed agreed self.old (map field_seen fields.now)).due) }
        ensures after { OnOk result
            (self.new ≡ (fields_obeyed agreed self.old (map field_seen fields.now)).state) }
        ensures why { IfOk result
            (λ why. why ≡ (fields_obeyed agreed self.old (map field_seen fields.now)).refused) }
    {
        'fields: for field in fields {
            let why = self.obey_field(alloc, due, agreed, field)?;
            if why.is_some() {
                return Ok(why);
            }
        }
        Ok(None)
    }

    /// Obeys the structured fields of a record.
    pub(crate) fn obey(
        &mut self,
        alloc: Global,
        due: &mut Vec<u8>,
        agreed: Agreed,
        header: Header,
        fields: &[StructuredField<'_>],
    ) -> Result<(), AllocError>
        ensures due { OnOk result (due.new.items ≡ due.old.items
            ++ (obeyed agreed header self.old (map field_seen fields.now)).due) }
        ensures after { OnOk result
            (self.new ≡ (obeyed agreed header self.old (map field_seen fields.now)).state) }
    {
        let mut answers = Vec::new(alloc);
        match self.obey_fields(alloc, &mut answers, agreed, fields)? {
            None => self.accept(due, agreed, header)?,
            Some(why) => self.refuse(due, agreed, header, why)?,
        }
        due.extend_from_slice(&answers)
    }

    /// Presses a key, or strikes.
    fn press<K: Keystroke>(
        &mut self,
        alloc: Global,
        due: &mut Vec<u8>,
        agreed: Agreed,
        key: &K,
    ) -> Result<Pressed, AllocError>
        ensures due { OnOk result (due.new.items
            ≡ due.old.items ++ (typed_key agreed self.old (K.strike key.now)).due) }
        ensures after { OnOk result
            (self.new ≡ (typed_key agreed self.old (K.strike key.now)).state) }
        ensures answer { IfOk result (λ answer. answer
            ≡ key_answer (struck_by (K.strike key.now) (operator_at self.old)).turn.reply) }
        ensures asks { OnErr result
            (IsSent (struck_by (K.strike key.now) (operator_at self.old)).turn.reply) }
    {
        let reply = key.strike_at(alloc, &mut self.terminal, &mut self.inserts)?;
        keep_key(alloc, &mut self.kept, key.aid(), &reply)?;
        self.key_reply(due, agreed, reply)
    }

    /// Sends what a key sends.
    fn key_reply(
        &mut self,
        due: &mut Vec<u8>,
        agreed: Agreed,
        reply: KeyReply,
    ) -> Result<Pressed, AllocError>
        ensures due { OnOk result (due.new.items
            ≡ due.old.items ++ (key_replied agreed self.old (key_reply_seen reply)).due) }
        ensures after { OnOk result
            (self.new ≡ (key_replied agreed self.old (key_reply_seen reply)).state) }
        ensures answer { IfOk result (λ answer. answer ≡ key_answer (key_reply_seen reply)) }
        ensures asks { OnErr result (IsSent (key_reply_seen reply)) }
    {
        match reply {
            KeyReply::Sent(bytes) => {
                self.answer(due, agreed, &bytes)?;
                Ok(Pressed::Sent)
            }
            KeyReply::Done => Ok(Pressed::Done),
            KeyReply::Inhibited => Ok(Pressed::Inhibited),
            KeyReply::Ignored => Ok(Pressed::Ignored),
        }
    }

    /// Presses a key, or strikes, which is ignored before the session is ready.
    pub(crate) fn work<K: Keystroke>(
        &mut self,
        alloc: Global,
        due: &mut Vec<u8>,
        key: &K,
    ) -> Result<Pressed, AllocError>
        ensures due { OnOk result
            (due.new.items ≡ due.old.items ++ (worked self.old (K.strike key.now)).due) }
        ensures after { OnOk result (self.new ≡ (worked self.old (K.strike key.now)).state) }
        ensures answer { IfOk result
            (λ answer. answer ≡ (worked self.old (K.strike key.now)).answer) }
        ensures asks { OnErr result ((worked self.old (K.strike key.now)).answer ≡ Sent) }
    {
        let Some(agreed) = self.core.agreed() else {
            return Ok(Pressed::Ignored);
        };
        self.press(alloc, due, agreed, key)
    }

    /// Presses keys one after the other, until the keyboard waits for a record.
    pub(crate) fn press_all<K: Keystroke>(
        &mut self,
        alloc: Global,
        due: &mut Vec<u8>,
        agreed: Agreed,
        keys: &mut &[K],
    ) -> Result<(), AllocError>
        ensures due { OnOk result (due.new.items
            ≡ due.old.items ++ (typing agreed self.old (map K.strike keys.old.now)).due) }
        ensures after { OnOk result (record { state = self.new; keys = map K.strike keys.new.now }
            ≡ (typing agreed self.old (map K.strike keys.old.now)).running) }
    {
        'keys: while let Some((key, rest)) = keys.split_first() {
            if is_waiting(self.terminal.screen().lock()) {
                return Ok(());
            }
            let _answer = self.press(alloc, due, agreed, key)?;
            *keys = rest;
        }
        Ok(())
    }
}
