//! What hears the bytes of an input, and keeps the first line that is refused.

ghost use Rattle.std.specs.Prelude.{◌≡◌, ◌<◌, ◌≤◌, ◌+◌, ◌-◌, ◌^◌, ◌++◌, min, length, nat_eq, List, [], ℕ, None, Some, Ok, IfErr, IfOk, IfSome, IsSome, OnOk, true, false};
ghost use Rattle.std.specs.Option.{option_map};
ghost use Rattle.std.specs.String.{string_bytes};
ghost use Rattle.cli_commands.specs.Fault.{Gives};
ghost use Rattle.cli_commands.specs.declared.fault.CommandError.TheVariants.{OutOfMemory};
ghost use Rattle.cli_commands.specs.Held.{answer_seen};
ghost use Rattle.cli_commands.specs.LayoutText.{layout_in};
ghost use Rattle.cli_commands.specs.Lines.{lines_in};
ghost use Rattle.cli_reasons.specs.declared.walk.Lines.TheVariants.{Layout};
ghost use Rattle.cli_reasons.specs.Digits.{BeginsWithDigits};
ghost use Rattle.cli_reasons.specs.Hearing.{all_said, answered, Beside, EndedLines, found_said, HasCome, HasEnded, HasNoFeed, Hears, HearsLines, HearsOf, Holds, HoldsSome, IsHeard, IsKept, IsLine, is_endless, is_enough, is_whole, KeepsText, lines_said, needs_text, record_said, refusal_said, Says, tells_records, turns_in, turns_said, walked_over};
ghost use Rattle.cli_reasons.specs.Refusal.{holds_records};
ghost use Rattle.cli_reasons.specs.SaysLayout.{SaysLayout};
ghost use Rattle.cli_reasons.specs.Refusing.{refused_number, StaysRefused};
ghost use Rattle.cli_reasons.specs.Walked.{is_done, walked_of};

use crate::buffer_line::buffer_sentence;
use crate::digits::leading_digits;
use crate::flaw::{Flaw, Limit, Why};
use crate::judged::is_session;
use crate::layout_reason::layout_sentence;
use crate::refusal::holds_records;
use crate::refused_answer::answer_sentences;
use crate::refused_record::refusal_sentence;
use crate::telling::sentence;
use crate::walk::{Lines, Walk};
use bstr::ByteSlice;
use cli_characters::convert_back_characters_text;
use cli_commands::{
    Answer, CommandError, MOST_BYTES, convert_back_text, convert_text, is_turn, layout_in,
    show_text,
};
use memchr::memchr;
use std::alloc::{AllocError, Global};
use std::mem::replace;

/// The most bytes of a line that is kept.
const MOST_KEPT: usize = 16_777_219;

/// So many bytes at the front of a line tell whether it is one of a trace.
const MOST_FRONT: usize = 64;

/// Of longer texts nothing is said of a record that is refused.
const MOST_TEXT: u64 = 1_048_576;

/// The most bytes of a text of which something is said.
const MOST_SAID: usize = 16_777_216;

/// What hears the bytes of an input line by line, up to the first line that is refused.
#[derive(Drop)]
pub struct Ear {
    alloc: Global,
    walk: Walk,
    /// How many bytes came.
    bytes: u64,
    /// The line that has begun and not ended.
    kept: Vec<u8>,
    /// All that came, where it isn't long, something may be said of it, and no line is refused.
    text: Vec<u8>,
    /// Whether memory was refused: nothing more is said.
    is_deaf: bool,
}

/// The first line of bytes with its LF, and what follows, where one ends in them. So many bytes at the front are known to be digits.
fn split_line(bytes: &[u8], known: usize) -> Option<(&[u8], &[u8])>
    requires { BeginsWithDigits known bytes.now }
    ensures whole { IfSome result (λ parts. bytes.now ≡ parts.0.now ++ parts.1.now) }
    ensures line { IfSome result (λ parts. IsLine parts.0.now) }
    ensures digits { IfSome result (λ parts. BeginsWithDigits known parts.0.now) }
    ensures fewer { IfSome result (λ parts. length parts.1.now < length bytes.now) }
    ensures none { result ≡ None → HasNoFeed bytes.now }
{
    let end = memchr(b'\n', &bytes[known..])?;
    Some(bytes.split_at(known + end + 1))
}

/// How many turns a text has: one more than it has lines `turn`.
fn turn_count(text: &[u8]) -> usize
    requires { length text.now ≤ 16777216 }
    ensures { result ≡ turns_in (lines_in text.now) }
{
    let mut count: usize = 1;
    'lines: for line in text.lines() {
        if is_turn(line) {
            count += 1;
        }
    }
    count
}

impl Lines {
    /// Whether the text is kept whole.
    fn is_whole(self) -> bool
        ensures { result ≡ is_whole self }
    {
        matches!(self, Lines::Layout | Lines::Buffer(_))
    }

    /// Whether the lines tell records, of which one may be refused.
    fn tells_records(self) -> bool
        ensures { result ≡ tells_records self }
    {
        matches!(
            self,
            Lines::Records | Lines::ReadRecords | Lines::Orders | Lines::Characters
        )
    }

    /// Whether something may be said of the lines once all have come.
    fn needs_text(self) -> bool
        ensures { result ≡ needs_text self }
    {
        self.tells_records() || matches!(self, Lines::Answers | Lines::AnswersOfTurns)
    }

    /// Whether the input may have any number of bytes.
    fn is_endless(self) -> bool
        ensures { result ≡ is_endless self }
    {
        matches!(self, Lines::Trace | Lines::Stream)
    }

    /// How many bytes at the front of such lines are known to be digits: none where lines aren't digits mostly.
    fn known_digits(self, bytes: &[u8]) -> usize
        ensures { BeginsWithDigits result bytes.now }
    {
        match self {
            Lines::Names(_)
            | Lines::Orders
            | Lines::Characters
            | Lines::Layout
            | Lines::Buffer(_)
            | Lines::Trace
            | Lines::Stream => 0,
            _ => leading_digits(bytes),
        }
    }

    /// What the command of these lines answers.
    fn answer(self, alloc: Global, text: &[u8]) -> Result<Answer, CommandError>
        ensures { Gives answer_seen result (answered self text.now) }
    {
        match self {
            Lines::ReadRecords => convert_text(alloc, text),
            Lines::Orders => convert_back_text(alloc, text),
            Lines::Characters => convert_back_characters_text(alloc, text),
            _ => show_text(alloc, text),
        }
    }
}

impl Ear {
    /// Hears an input of such lines.
    pub fn new(alloc: Global, lines: Lines) -> Ear
        ensures lines { result.walk.lines ≡ lines }
        ensures none { refused_number result ≡ None }
        ensures hears { Hears [] result }
    {
        Ear {
            alloc,
            walk: Walk::new(alloc, lines),
            bytes: 0,
            kept: Vec::new(alloc),
            text: Vec::new(alloc),
            is_deaf: false,
        }
    }

    /// Hears the bytes that come next. A line that is refused stays the first.
    pub fn hear(&mut self, bytes: &[u8])
        ensures stays { StaysRefused self.old self.new }
        ensures lines { self.new.walk.lines ≡ self.old.walk.lines }
        ensures hears { (past : List ℕ) → Hears past self.old → Hears (past ++ bytes.now) self.new }
    {
        self.bytes = self.bytes.saturating_add(bytes.len() as u64);
        if self.is_deaf {
            return;
        }
        if self.walk.is_done() {
            return;
        }
        if self.take(bytes).is_err() {
            self.is_deaf = true;
        }
    }

    /// Takes the bytes that come next, where no line is refused.
    fn take(&mut self, bytes: &[u8]) -> Result<(), CommandError>
        requires { is_done (walked_of self.old.walk) ≡ false }
        ensures bytes { self.new.bytes ≡ self.old.bytes }
        ensures deaf { self.new.is_deaf ≡ self.old.is_deaf }
        ensures lines { self.new.walk.lines ≡ self.old.walk.lines }
        ensures heard { OnOk result ((past : List ℕ) → HasCome (past ++ bytes.now) self.old
            → Holds HearsLines past self.old → Holds HearsLines (past ++ bytes.now) self.new) }
    {
        self.keep_text(bytes)?;
        if self.walk.lines.is_whole() {
            self.keep(bytes)?;
            return Ok(());
        }
        self.hear_lines(bytes)?;
        Ok(())
    }

    /// Keeps what came of a text that isn't long.
    fn keep_text(&mut self, bytes: &[u8]) -> Result<(), AllocError>
        ensures frame { self.new ≡ record (self.old) { text = self.new.text } }
        ensures text { OnOk result ((past : List ℕ) → HasCome (past ++ bytes.now) self.old
            → KeepsText past self.old → KeepsText (past ++ bytes.now) self.new) }
    {
        if !self.walk.lines.needs_text() {
            return Ok(());
        }
        if MOST_TEXT < self.bytes {
            self.text = Vec::new(self.alloc);
            return Ok(());
        }
        self.text.extend_from_slice(bytes)
    }

    /// Whether so much of the line that has begun is kept that no more of it counts.
    fn is_enough(&self) -> bool
        ensures { result ≡ is_enough self.now.walk.lines self.now.kept.items }
    {
        MOST_KEPT < self.kept.len()
            || self.walk.lines == Lines::Trace
                && MOST_FRONT < self.kept.len()
                && !is_session(self.kept.as_slice())
    }

    /// Keeps more of the line that has begun.
    fn keep(&mut self, bytes: &[u8]) -> Result<(), AllocError>
        ensures frame { self.new ≡ record (self.old) { kept = self.new.kept } }
        ensures kept { OnOk result ((line : List ℕ) → IsKept self.old.walk.lines line
            self.old.kept.items → IsKept self.old.walk.lines (line ++ bytes.now) self.new.kept.items) }
    {
        if self.is_enough() {
            return Ok(());
        }
        self.kept.extend_from_slice(bytes)
    }

    /// Hears the lines that end in the bytes that come next, and keeps what is left.
    fn hear_lines(&mut self, bytes: &[u8]) -> Result<(), CommandError>
        ensures beside { Beside self.old self.new }
        ensures heard { OnOk result ((past : List ℕ) → HearsOf past self.old
            → HearsOf (past ++ bytes.now) self.new) }
    {
        let mut rest = bytes;
        'lines: loop {
            let known = self.walk.lines.known_digits(rest);
            let Some((line, left)) = split_line(rest, known) else {
                return self.keep_open(rest);
            };
            self.end_line(line, known)?;
            rest = left;
        }
    }

    /// Keeps bytes without an LF.
    fn keep_open(&mut self, bytes: &[u8]) -> Result<(), CommandError>
        requires { HasNoFeed bytes.now }
        ensures beside { Beside self.old self.new }
        ensures heard { OnOk result ((past : List ℕ) → HearsOf past self.old
            → HearsOf (past ++ bytes.now) self.new) }
    {
        self.keep(bytes)?;
        Ok(())
    }

    /// Hears the end of a line, with its LF. So many bytes at the front of what comes of it are known to be digits.
    fn end_line(&mut self, part: &[u8], known: usize) -> Result<(), CommandError>
        requires line { IsLine part.now }
        requires digits { BeginsWithDigits known part.now }
        ensures beside { Beside self.old self.new }
        ensures heard { OnOk result ((past : List ℕ) → HearsOf past self.old
            → HearsOf (past ++ part.now) self.new) }
    {
        if self.kept.as_slice().is_empty() {
            self.walk.hear(part, known)?;
            return Ok(());
        }
        self.keep(part)?;
        let line = replace(&mut self.kept, Vec::new(self.alloc));
        self.walk.hear(line.as_slice(), 0)?;
        Ok(())
    }

    /// Hears the line that has begun, where one has.
    fn end(&mut self) -> Result<(), CommandError>
        ensures beside { Beside self.old self.new }
        ensures stays { StaysRefused self.old self.new }
        ensures ended { OnOk result ((past : List ℕ) → HoldsSome past self.old
            → Holds EndedLines past self.new) }
    {
        if self.walk.lines.is_whole() {
            return Ok(());
        }
        if self.kept.as_slice().is_empty() {
            return Ok(());
        }
        let line = replace(&mut self.kept, Vec::new(self.alloc));
        self.walk.hear(line.as_slice(), 0)?;
        Ok(())
    }

    /// The input has ended: a line that has begun ends.
    fn finish(&mut self)
        ensures lines { self.new.walk.lines ≡ self.old.walk.lines }
        ensures stays { StaysRefused self.old self.new }
        ensures ended { (past : List ℕ) → IsHeard past self.old → HasEnded past self.new }
    {
        if !self.is_deaf && self.end().is_err() {
            self.is_deaf = true;
        }
    }

    /// Whether no line came that counts: no record and no key. Where memory was refused it isn't known, and the answer is no.
    pub fn has_none(&mut self) -> bool
        ensures stays { StaysRefused self.old self.new }
        ensures ended { (past : List ℕ) → IsHeard past self.old → HasEnded past self.new }
        ensures counted { self.new.is_deaf ≡ false → (past : List ℕ) → IsHeard past self.old
            → result ≡ nat_eq (walked_over self.old.walk.lines past).count 0 }
    {
        self.finish();
        !self.is_deaf && self.walk.count == 0
    }

    /// The sentence of what is refused in the input of this name, where anything is.
    ///
    /// # Errors
    ///
    /// Where a request for memory was refused, now or while the input was heard.
    pub fn sentence(&mut self, name: &str) -> Result<Option<String>, CommandError>
        ensures stays { StaysRefused self.old self.new }
        ensures ended { (past : List ℕ) → IsHeard past self.old → HasEnded past self.new }
        ensures said { (past : List ℕ) → IsHeard past self.old → IfOk result (λ said.
            Says self.old.walk.lines name.now past (option_map (λ text. string_bytes text) said)) }
        ensures failed { IfErr result (λ error. error ≡ OutOfMemory) }
    {
        self.finish();
        self.said(name)
    }

    /// What is said once the input has ended.
    fn said(&self, name: &str) -> Result<Option<String>, CommandError>
        ensures said { (past : List ℕ) → HasEnded past self.now → IfOk result (λ said.
            Says self.now.walk.lines name.now past (option_map (λ text. string_bytes text) said)) }
        ensures failed { IfErr result (λ error. error ≡ OutOfMemory) }
    {
        if self.walk.lines == Lines::Layout {
            return self.layout_said(name);
        }
        if (MOST_BYTES as u64) < self.bytes && !self.walk.lines.is_endless() {
            let flaw = Flaw::at(1, Why::TooLong(Limit::Bytes));
            return Ok(Some(sentence(self.alloc, name, 1, flaw, b"")?));
        }
        self.line_said(name)
    }

    /// What is said of a layout.
    fn layout_said(&self, name: &str) -> Result<Option<String>, CommandError>
        requires { self.now.walk.lines ≡ Layout }
        ensures said { (past : List ℕ) → HasEnded past self.now → IfOk result (λ said.
            SaysLayout name.now past (option_map (λ text. string_bytes text) said)
            (layout_in past)) }
        ensures failed { IfErr result (λ error. error ≡ OutOfMemory) }
    {
        if self.is_deaf {
            return Err(CommandError::OutOfMemory);
        }
        let said = layout_sentence(self.alloc, name, self.kept.as_slice())?;
        Ok(said)
    }

    /// What is said of the first line that is refused, of an input that isn't too long.
    fn line_said(&self, name: &str) -> Result<Option<String>, CommandError>
        requires other { (self.now.walk.lines ≡ Layout) → ⊥ }
        requires short { is_endless self.now.walk.lines ≡ false → self.now.bytes ≤ 16777216 }
        ensures said { (past : List ℕ) → HasEnded past self.now → IfOk result (λ said.
            option_map (λ text. string_bytes text) said
            ≡ lines_said self.now.walk.lines name.now past) }
        ensures failed { IfErr result (λ error. error ≡ OutOfMemory) }
    {
        if self.is_deaf {
            return Err(CommandError::OutOfMemory);
        }
        if let Lines::Buffer(sizes) = self.walk.lines {
            return Ok(buffer_sentence(self.alloc, name, sizes, self.kept.as_slice())?);
        }
        Ok(self.found_said(name)?)
    }

    /// The sentence of the line that was found refused.
    fn found_said(&self, name: &str) -> Result<Option<String>, AllocError>
        ensures { IfOk result (λ said. option_map (λ text. string_bytes text) said
            ≡ found_said name.now (walked_of self.now.walk).found) }
    {
        match &self.walk.found {
            Some(found) if found.line.len() < MOST_KEPT => Ok(Some(sentence(
                self.alloc,
                name,
                found.number,
                found.flaw,
                found.line.as_slice(),
            )?)),
            _ => Ok(None),
        }
    }

    /// The sentence of a record that is refused, or can't be written, in the input of this name, where no line is refused,
    /// once the input has ended.
    ///
    /// # Errors
    ///
    /// Where a request for memory was refused, now or while the input was heard.
    pub fn refusal(&self, name: &str) -> Result<Option<String>, CommandError>
        ensures none { IsSome self.now.walk.found → IfOk result (λ said. said ≡ None) }
        ensures said { (past : List ℕ) → HasEnded past self.now → IfOk result (λ said.
            option_map (λ text. string_bytes text) said
            ≡ refusal_said self.now.walk.lines name.now past) }
        ensures failed { IfErr result (λ error. error ≡ OutOfMemory) }
    {
        if self.is_deaf {
            return Err(CommandError::OutOfMemory);
        }
        if self.walk.is_done() || !self.walk.lines.tells_records() || MOST_TEXT < self.bytes {
            return Ok(None);
        }
        self.record_said(name)
    }

    /// What is said of the first record of the text that is refused.
    fn record_said(&self, name: &str) -> Result<Option<String>, CommandError>
        ensures said { IfOk result (λ said. option_map (λ text. string_bytes text) said
            ≡ record_said self.now.walk.lines name.now self.now.text.items) }
        ensures failed { IfErr result (λ error. error ≡ OutOfMemory) }
    {
        let text = self.text.as_slice();
        if MOST_SAID < text.len() {
            return Ok(None);
        }
        match self.walk.lines.answer(self.alloc, text) {
            Ok(_) => Ok(None),
            Err(CommandError::Fault(fault)) => Ok(refusal_sentence(self.alloc, name, text, fault)?),
            Err(error) => Err(error),
        }
    }

    /// The sentences of the answers that are refused, or aren't those of the screens of these layouts, in the input of this name,
    /// where no line is refused and there is a layout for each turn, once the input has ended.
    ///
    /// # Errors
    ///
    /// Where a request for memory was refused, now or while the input was heard.
    pub fn answers(
        &self,
        name: &str,
        layouts: &[scr_layout::Layout],
    ) -> Result<Option<String>, CommandError>
        ensures none { IsSome self.now.walk.found → IfOk result (λ said. said ≡ None) }
        ensures said { (past : List ℕ) → HasEnded past self.now → IfOk result (λ said.
            option_map (λ text. string_bytes text) said
            ≡ all_said self.now.walk.lines name.now layouts.now past) }
        ensures failed { IfErr result (λ error. error ≡ OutOfMemory) }
    {
        if self.is_deaf {
            return Err(CommandError::OutOfMemory);
        }
        if self.walk.is_done() || !self.walk.lines.needs_text() || MOST_TEXT < self.bytes {
            return Ok(None);
        }
        Ok(self.answers_said(name, layouts)?)
    }

    /// What is said of the answers of the text.
    fn answers_said(
        &self,
        name: &str,
        layouts: &[scr_layout::Layout],
    ) -> Result<Option<String>, AllocError>
        ensures { IfOk result (λ said. option_map (λ text. string_bytes text) said
            ≡ turns_said name.now layouts.now self.now.text.items) }
    {
        let text = self.text.as_slice();
        if MOST_SAID < text.len() || turn_count(text) != layouts.len() {
            return Ok(None);
        }
        Ok(Some(answer_sentences(self.alloc, name, layouts, text)?))
    }

    /// The layout of a text that was heard, or its first fault.
    pub fn layout(&self) -> Result<scr_layout::Layout, CommandError>
        ensures kept { Gives (λ l. l) result (layout_in self.now.kept.items) }
        ensures heard { (past : List ℕ) → IsHeard past self.now → self.now.walk.lines ≡ Layout
            → Gives (λ l. l) result (layout_in past) }
    {
        if self.is_deaf {
            return Err(CommandError::OutOfMemory);
        }
        layout_in(self.alloc, self.kept.as_slice())
    }

    /// Whether the text of a layout is none, but records.
    pub fn holds_records(&self) -> bool
        ensures { self.now.walk.lines ≡ Layout
            → result ≡ holds_records (lines_in self.now.kept.items) }
    {
        self.walk.lines == Lines::Layout && holds_records(self.kept.as_slice())
    }
}
