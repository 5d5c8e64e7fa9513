//! What the lines of an input do, one after the other, up to the first that is refused.

ghost use Rattle.std.specs.Prelude.{◌≡◌, None, OnOk, Some, true};
ghost use Rattle.cli_reasons.specs.declared.judged.Judged.TheVariants.{Record};
ghost use Rattle.cli_reasons.specs.Counts.{next_number, over_limit};
ghost use Rattle.cli_reasons.specs.Digits.{BeginsWithDigits};
ghost use Rattle.cli_reasons.specs.Judged.{JudgedAs};
ghost use Rattle.cli_reasons.specs.Walked.{after_line, begins, begun_after, closed, count_after, first_sizes, flaw_after, found_as, hears, is_done, is_too_long, judged_line, sizes_after, walked_of};

use crate::flaw::{Flaw, Limit, Why};
use crate::judged::{
    Judged, is_session, judged_characters, judged_name, judged_order, judged_record, judged_stream,
    judged_trace, judged_turn,
};
use crate::key_line::Names;
use crate::record_line::SizesBy;
use cli_buffers::SizesLine;
use cli_commands::{CommandError, without_end};
use std::alloc::{AllocError, Global};

/// Of longer lines nothing is told.
const MOST_KEPT: usize = 16_777_219;

const MOST_RECORDS: u64 = 1_000;

/// The most bytes of a record, and of an answer.
pub(crate) const MOST_RECORD_BYTES: usize = 32_768;

const MOST_KEYS: u64 = 100_000;

/// What the lines of an input are.
#[derive(Clone, Copy, Debug, PartialEq, Eq)]
pub enum Lines {
    /// Records, and the sizes where a line may tell them.
    Records,
    /// The same, which are only read and not applied.
    ReadRecords,
    /// Records for the sizes of a layout.
    SizedRecords,
    /// Records of several turns, for the sizes of layouts.
    Turns,
    /// Records of several turns, and the sizes where a line may tell them.
    SizedTurns,
    /// What a terminal sent, to the screen of a layout.
    Answers,
    /// The same of several turns.
    AnswersOfTurns,
    Names(Names),
    /// Commands and orders.
    Orders,
    /// Commands and orders, whose texts may be characters.
    Characters,
    /// The text of a layout, which is kept whole.
    Layout,
    /// A terminal's buffer, which is kept whole.
    Buffer(SizesLine),
    /// A trace, of whose lines no more than the front is kept.
    Trace,
    /// Bytes of one side of a session, in hexadecimal.
    Stream,
}

/// A line that is refused.
#[derive(Debug, Drop)]
pub(crate) struct RefusedLine {
    /// Counted from 1.
    pub number: u64,
    pub flaw: Flaw,
    pub line: Vec<u8>,
}

/// The lines that came, up to the first that is refused.
#[derive(Drop)]
pub(crate) struct Walk {
    alloc: Global,
    pub lines: Lines,
    /// How many lines came.
    number: u64,
    /// What tells the sizes from here on.
    sizes: SizesBy,
    /// How many records or keys came.
    pub count: u64,
    /// Whether a record of orders has begun.
    in_record: bool,
    pub found: Option<RefusedLine>,
    /// Whether a line was too long to be told of: nothing is said of those after it.
    is_over: bool,
}

/// What tells the sizes before the first line.
fn first_sizes(lines: Lines) -> SizesBy
    ensures { result ≡ first_sizes lines }
{
    match lines {
        Lines::Records
        | Lines::ReadRecords
        | Lines::SizedTurns
        | Lines::Orders
        | Lines::Characters => SizesBy::Line,
        _ => SizesBy::Layout,
    }
}

/// The number after one, up to 18,446,744,073,709,551,615.
fn next_number(number: u64) -> u64
    ensures { result ≡ next_number number }
{
    number.saturating_add(1)
}

/// Whether a line is too long to be told of.
fn is_too_long(lines: Lines, raw: &[u8]) -> bool
    ensures { result ≡ is_too_long lines raw.now }
{
    MOST_KEPT < raw.len() && !(lines == Lines::Trace && !is_session(raw))
}

impl Walk {
    /// Before the first line.
    pub(crate) fn new(alloc: Global, lines: Lines) -> Walk
        ensures { walked_of result ≡ begins lines }
    {
        Walk {
            alloc,
            lines,
            number: 0,
            sizes: first_sizes(lines),
            count: 0,
            in_record: false,
            found: None,
            is_over: false,
        }
    }

    /// Whether a line was refused, or one was too long.
    pub(crate) fn is_done(&self) -> bool
        ensures { result ≡ is_done (walked_of self.now) }
    {
        self.found.is_some() || self.is_over
    }

    /// Hears a line with its end, of which so many bytes at its front are known to be digits.
    ///
    /// # Errors
    ///
    /// Where a request for memory was refused.
    pub(crate) fn hear(&mut self, raw: &[u8], known: usize) -> Result<(), CommandError>
        requires { BeginsWithDigits known raw.now }
        ensures heard { OnOk result (walked_of self.new ≡ hears (walked_of self.old) raw.now) }
        ensures done { is_done (walked_of self.old) ≡ true → self.new ≡ self.old }
        ensures lines { self.new.lines ≡ self.old.lines }
    {
        if self.is_done() {
            return Ok(());
        }
        if is_too_long(self.lines, raw) {
            self.is_over = true;
            return Ok(());
        }
        let line = without_end(raw);
        self.take_line(line, known.min(line.len()))
    }

    /// Takes a line without its end, where none is refused.
    fn take_line(&mut self, line: &[u8], known: usize) -> Result<(), CommandError>
        requires goes { self.old.found ≡ None }
        requires digits { BeginsWithDigits known line.now }
        ensures taken { OnOk result
            (walked_of self.new ≡ after_line (walked_of self.old) line.now) }
        ensures lines { self.new.lines ≡ self.old.lines }
    {
        let judged = self.judged(line, known)?;
        self.number = next_number(self.number);
        if let Some(flaw) = self.taken(judged) {
            self.refuse(flaw, line)?;
        }
        Ok(())
    }

    fn judged(&self, line: &[u8], known: usize) -> Result<Judged, CommandError>
        requires { BeginsWithDigits known line.now }
        ensures { JudgedAs result (judged_line self.now.lines self.now.sizes line.now) }
    {
        match self.lines {
            Lines::Records | Lines::ReadRecords | Lines::SizedRecords | Lines::Answers => {
                judged_record(self.alloc, self.sizes, line, known)
            }
            Lines::Turns | Lines::SizedTurns | Lines::AnswersOfTurns => {
                judged_turn(self.alloc, self.sizes, line, known)
            }
            Lines::Names(names) => judged_name(self.alloc, names, line),
            Lines::Orders => judged_order(self.alloc, self.sizes, line),
            Lines::Characters => judged_characters(self.alloc, self.sizes, line),
            Lines::Layout | Lines::Buffer(_) => Ok(Judged::Nothing),
            Lines::Trace => Ok(judged_trace(line)),
            Lines::Stream => Ok(judged_stream(line)),
        }
    }

    /// Takes what a line does, and tells what is wrong with it after the lines before.
    fn taken(&mut self, judged: Judged) -> Option<Flaw>
        ensures flaw { result ≡ flaw_after judged self.old.in_record self.old.count }
        ensures after { self.new ≡ record (self.old) {
          sizes = sizes_after judged self.old.in_record self.old.sizes;
          count = count_after judged self.old.in_record self.old.count;
          in_record = begun_after judged self.old.in_record;
        } }
    {
        match judged {
            Judged::Nothing => None,
            Judged::Sizes => {
                self.close_sizes();
                None
            }
            Judged::Record(bytes) => self.one_record(bytes),
            Judged::Key => self.one_more(MOST_KEYS, Limit::Keys),
            Judged::Characters(count) => {
                self.count = self.count.saturating_add((count as u64).saturating_sub(1));
                self.one_more(MOST_KEYS, Limit::Keys)
            }
            Judged::Session => {
                self.count = next_number(self.count);
                None
            }
            Judged::Command if self.in_record => Some(Flaw::at(1, Why::SecondCommand)),
            Judged::Command => {
                self.in_record = true;
                self.close_sizes();
                self.one_more(MOST_RECORDS, Limit::Records)
            }
            Judged::Order if self.in_record => None,
            Judged::Order => Some(Flaw::at(1, Why::NoCommand)),
            Judged::End => {
                self.in_record = false;
                None
            }
            Judged::Refused(flaw) => Some(flaw),
        }
    }

    /// No line of sizes may come from here on.
    fn close_sizes(&mut self)
        ensures { self.new ≡ record (self.old) { sizes = closed self.old.sizes } }
    {
        if self.sizes == SizesBy::Line {
            self.sizes = SizesBy::Earlier;
        }
    }

    fn one_record(&mut self, bytes: usize) -> Option<Flaw>
        ensures flaw { result ≡ flaw_after (Record bytes) self.old.in_record self.old.count }
        ensures after { self.new ≡ record (self.old) {
          sizes = sizes_after (Record bytes) self.old.in_record self.old.sizes;
          count = count_after (Record bytes) self.old.in_record self.old.count;
        } }
    {
        if MOST_RECORD_BYTES < bytes {
            return Some(Flaw::at(1, Why::TooLong(Limit::RecordBytes)));
        }
        self.close_sizes();
        self.one_more(MOST_RECORDS, Limit::Records)
    }

    fn one_more(&mut self, most: u64, limit: Limit) -> Option<Flaw>
        ensures flaw { result ≡ over_limit self.old.count most limit }
        ensures after { self.new ≡ record (self.old) { count = next_number self.old.count } }
    {
        self.count = next_number(self.count);
        if most < self.count {
            Some(Flaw::at(1, Why::TooLong(limit)))
        } else {
            None
        }
    }

    /// Keeps the line at hand, which is refused.
    fn refuse(&mut self, flaw: Flaw, line: &[u8]) -> Result<(), AllocError>
        ensures found { OnOk result (walked_of self.new ≡ record (walked_of self.old) {
          found = Some (found_as self.old.number line.now flaw);
        }) }
        ensures lines { self.new.lines ≡ self.old.lines }
    {
        let line = Vec::from_slice(self.alloc, line)?;
        let number = self.number;
        self.found = Some(RefusedLine { number, flaw, line });
        Ok(())
    }
}
