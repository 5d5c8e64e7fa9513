//! A row's answer, and whether all went well on the way to it.

ghost use Rattle.std.specs.Prelude.{◌≡◌, ◌++◌, [], IfOk, IsErr, IsOk, codes, false, true, string_bytes};
ghost use Rattle.std.specs.Fmt.{decimal};
ghost use Rattle.test_words.specs.Printed.{hex_word, bool_word, GoesOn};

use crate::printed::{
    push_bool, push_bytes, push_hex, push_length, push_letters, push_number, push_word_hex,
    push_word_number,
};
use crate::read::{between_bars, byte, number, push_words};
use anyhow::{Context, Result};
use std::alloc::{AllocError, Global};
use std::fmt::Display;

/// The answer of a row. Where memory runs out, or words cannot be read, the row is spoilt and goes on: what is read then is 0
/// or empty. `finish` refuses it at the end, so the steps before need no test of their own.
#[derive(Drop)]
pub struct Row {
    alloc: Global,
    /// What is printed.
    pub text: String,
    is_spoilt: bool,
}

impl Row {
    /// An empty answer.
    pub fn new(alloc: Global) -> Row
        ensures { string_bytes result.text ≡ [] }
    {
        Row {
            alloc,
            text: String::new(alloc),
            is_spoilt: false,
        }
    }

    /// Where its values are allocated.
    pub fn alloc(&self) -> Global
        ensures { result ≡ self.now.alloc }
    {
        self.alloc
    }

    /// Keeps that something went wrong.
    pub fn spoil(&mut self)
        ensures spoilt { self.new.is_spoilt ≡ true }
        ensures text { self.new.text ≡ self.old.text }
    {
        self.is_spoilt = true;
    }

    /// Spoils the row where memory ran out.
    pub fn note(&mut self, pushed: Result<(), AllocError>)
        ensures kept { self.old.is_spoilt ≡ true → self.new.is_spoilt ≡ true }
        ensures noted { self.new.is_spoilt ≡ false → IsOk pushed }
        ensures text { self.new.text ≡ self.old.text }
    {
        if pushed.is_err() {
            self.is_spoilt = true;
        }
    }

    /// What was tried; spoils the row where it failed.
    pub fn take<T: Drop, E: Drop>(&mut self, tried: Result<T, E>) -> Option<T>
        ensures kept { self.old.is_spoilt ≡ true → self.new.is_spoilt ≡ true }
        ensures text { self.new.text ≡ self.old.text }
    {
        match tried {
            Ok(value) => Some(value),
            Err(_) => {
                self.spoil();
                None
            }
        }
    }

    /// Whether all went well, and this is the text.
    pub fn says(&self, text: &str) -> bool
        ensures { self.now.is_spoilt ≡ true → result ≡ false }
    {
        !self.is_spoilt && self.text.as_str() == text
    }

    /// The text, if all went well.
    pub fn finish(self) -> Result<String>
        ensures said { IfOk result (λ text. text ≡ self.text) }
        ensures refused { self.is_spoilt ≡ true → IsErr result }
    {
        if self.is_spoilt {
            return None.context("a row that cannot be read, or no memory");
        }
        Ok(self.text)
    }
}

/// What is printed.
impl Row {
    pub fn word(&mut self, word: &str)
        ensures kept { self.old.is_spoilt ≡ true → self.new.is_spoilt ≡ true }
        ensures added { self.new.is_spoilt ≡ false
            → string_bytes self.new.text ≡ string_bytes self.old.text ++ word.now }
    {
        let pushed = self.text.push_str(word);
        self.note(pushed);
    }

    /// A word, or nothing.
    pub fn word_if(&mut self, holds: bool, word: &str)
        ensures kept { self.old.is_spoilt ≡ true → self.new.is_spoilt ≡ true }
    {
        if holds {
            self.word(word);
        }
    }

    pub fn number(&mut self, number: u32)
        ensures kept { self.old.is_spoilt ≡ true → self.new.is_spoilt ≡ true }
        ensures added { self.new.is_spoilt ≡ false
            → string_bytes self.new.text ≡ string_bytes self.old.text ++ decimal number }
    {
        let pushed = push_number(&mut self.text, number);
        self.note(pushed);
    }

    pub fn length(&mut self, length: usize)
        ensures kept { self.old.is_spoilt ≡ true → self.new.is_spoilt ≡ true }
        ensures added { self.new.is_spoilt ≡ false
            → string_bytes self.new.text ≡ string_bytes self.old.text ++ decimal length }
    {
        let pushed = push_length(&mut self.text, length);
        self.note(pushed);
    }

    pub fn hex(&mut self, byte: u8)
        ensures kept { self.old.is_spoilt ≡ true → self.new.is_spoilt ≡ true }
        ensures added { self.new.is_spoilt ≡ false
            → string_bytes self.new.text ≡ string_bytes self.old.text ++ hex_word byte }
    {
        let pushed = push_hex(&mut self.text, byte);
        self.note(pushed);
    }

    /// `true` or `false`.
    pub fn truth(&mut self, value: bool)
        ensures kept { self.old.is_spoilt ≡ true → self.new.is_spoilt ≡ true }
        ensures added { self.new.is_spoilt ≡ false
            → string_bytes self.new.text ≡ string_bytes self.old.text ++ bool_word value }
    {
        let pushed = push_bool(&mut self.text, value);
        self.note(pushed);
    }

    pub fn word_hex(&mut self, words: &str, byte: u8)
        ensures kept { self.old.is_spoilt ≡ true → self.new.is_spoilt ≡ true }
        ensures added { self.new.is_spoilt ≡ false
            → string_bytes self.new.text ≡ string_bytes self.old.text ++ (words.now ++ hex_word byte) }
    {
        let pushed = push_word_hex(&mut self.text, words, byte);
        self.note(pushed);
    }

    pub fn word_number(&mut self, words: &str, number: u32)
        ensures kept { self.old.is_spoilt ≡ true → self.new.is_spoilt ≡ true }
        ensures added { self.new.is_spoilt ≡ false
            → string_bytes self.new.text ≡ string_bytes self.old.text ++ (words.now ++ decimal number) }
    {
        let pushed = push_word_number(&mut self.text, words, number);
        self.note(pushed);
    }

    pub fn word_length(&mut self, words: &str, length: usize)
        ensures kept { self.old.is_spoilt ≡ true → self.new.is_spoilt ≡ true }
    {
        self.word(words);
        self.length(length);
    }

    /// Bytes in hexadecimal; of 32 or more equal ones their number.
    pub fn bytes(&mut self, bytes: &[u8])
        ensures kept { self.old.is_spoilt ≡ true → self.new.is_spoilt ≡ true }
    {
        let pushed = push_bytes(&mut self.text, bytes);
        self.note(pushed);
    }

    /// A text; of 32 or more equal letters their number.
    pub fn letters(&mut self, text: &str)
        ensures kept { self.old.is_spoilt ≡ true → self.new.is_spoilt ≡ true }
    {
        let pushed = push_letters(&mut self.text, text);
        self.note(pushed);
    }

    /// The text of another row; spoils this one where that is spoilt.
    pub fn join(&mut self, other: &Row)
        ensures kept { self.old.is_spoilt ≡ true → self.new.is_spoilt ≡ true }
        ensures joined { self.new.is_spoilt ≡ false → other.now.is_spoilt ≡ false }
        ensures added { self.new.is_spoilt ≡ false
            → string_bytes self.new.text ≡ string_bytes self.old.text ++ string_bytes other.now.text }
    {
        self.word(other.text.as_str());
        if other.is_spoilt {
            self.spoil();
        }
    }

    /// What a row answers, below it: each line of it after `= `. Spoils this row where the answer is spoilt.
    pub fn answer(&mut self, answer: &Row)
        ensures kept { self.old.is_spoilt ≡ true → self.new.is_spoilt ≡ true }
        ensures joined { self.new.is_spoilt ≡ false → answer.now.is_spoilt ≡ false }
        ensures begun { self.new.is_spoilt ≡ false
            → GoesOn (string_bytes self.old.text ++ codes "\n= ") (string_bytes self.new.text) }
    {
        let lines = answer.text.as_str().replace(self.alloc, '\n', "\n= ");
        let lines = self.take(lines).unwrap_or(String::new(self.alloc));
        self.word("\n= ");
        self.word(lines.as_str());
        if answer.is_spoilt {
            self.spoil();
        }
    }

    /// A value in its own words.
    pub fn show<T: Display>(&mut self, value: &T)
        ensures kept { self.old.is_spoilt ≡ true → self.new.is_spoilt ≡ true }
    {
        let pushed = write!(self.text, "{value}");
        self.note(pushed);
    }
}

/// What is read.
impl Row {
    pub fn read_number(&mut self, word: &str) -> u32
        ensures kept { self.old.is_spoilt ≡ true → self.new.is_spoilt ≡ true }
    {
        self.take(number(word)).unwrap_or(0)
    }

    pub fn read_short(&mut self, word: &str) -> u16
        ensures kept { self.old.is_spoilt ≡ true → self.new.is_spoilt ≡ true }
    {
        self.take(u16::from_str_radix(word, 10)).unwrap_or(0)
    }

    /// A byte of two hexadecimal digits.
    pub fn read_byte(&mut self, word: &str) -> u8
        ensures kept { self.old.is_spoilt ≡ true → self.new.is_spoilt ≡ true }
    {
        self.take(byte(word)).unwrap_or(0)
    }

    /// What stands before and after a mark.
    pub fn cut<'a>(&mut self, words: &'a str, mark: &str) -> (&'a str, &'a str)
        ensures kept { self.old.is_spoilt ≡ true → self.new.is_spoilt ≡ true }
    {
        match words.split_once(mark) {
            Some(parts) => parts,
            None => {
                self.spoil();
                (words, "")
            }
        }
    }

    /// Two decimal numbers.
    pub fn read_numbers(&mut self, words: &str) -> (u32, u32)
        ensures kept { self.old.is_spoilt ≡ true → self.new.is_spoilt ≡ true }
    {
        let (first, second) = self.cut(words, " ");
        (self.read_number(first), self.read_number(second))
    }

    /// Two bytes of two hexadecimal digits each.
    pub fn read_two_bytes(&mut self, words: &str) -> (u8, u8)
        ensures kept { self.old.is_spoilt ≡ true → self.new.is_spoilt ≡ true }
    {
        let (first, second) = self.cut(words, " ");
        (self.read_byte(first), self.read_byte(second))
    }

    /// The text between two bars.
    pub fn read_between_bars<'a>(&mut self, words: &'a str) -> &'a str
        ensures kept { self.old.is_spoilt ≡ true → self.new.is_spoilt ≡ true }
    {
        self.take(between_bars(words)).unwrap_or("")
    }

    /// The bytes of words of hexadecimal.
    pub fn read_bytes(&mut self, words: &str) -> Vec<u8>
        ensures kept { self.old.is_spoilt ≡ true → self.new.is_spoilt ≡ true }
    {
        let mut bytes = Vec::new(self.alloc);
        let pushed = push_words(self.alloc, &mut bytes, words);
        let _pushed = self.take(pushed);
        bytes
    }
}
