//! Runs the checker, layouts and order lines over lines of a script, and compares what they answer.
//!
//! The script is `stdin`, in which the answer of each row stands below it, after `= `. A row that is answered otherwise is printed as
//! it should stand, and nothing else is. The answers were worked out by hand from docs/LAYOUTS.md and docs/PROFILE.md. Data in place of
//! test functions: it isn't proved.
//!
//! `before LINE | LINE` gives the layout's text, or `grid SIZE COUNT STEP LENGTH` so many inputs of this length, each so many
//! places after the one before, the first at place 1. `after RECORD; RECORD` gives records, and `list NAME: TIMES KEY, TIMES
//! KEY` one more list of keys. `screen LINE | LINE` gives the layout of one more turn of dialogues, after `no-screens` of the
//! first. Every other line is a verb and its words. Bytes are words of hexadecimal: `C1C2*100` are
//! these two a hundred times, `110001^100` the same where the number of the last two goes on by one each time, and
//! `[C1*100]` is printed for a hundred equal ones. Lines of `#` say what comes.
#![tactic(auto)]

mod answers;
mod dialogues;
mod findings;
mod layouts;
mod lines;
mod memory;
mod origins;
mod pen;
mod promise;
mod script;
mod shapes;
mod taken;
mod talks;
mod tried;
mod words;

use anyhow::Result;
use promise::Told;
use scr_layout::Layout;
use script::{copied, keep, layout_of};
use std::alloc::Global;
use test_words::{Answers, Row, print_differences};

/// What the lines of a script begin with.
#[derive(Drop)]
pub(crate) struct Setup {
    layout: String,
    after: String,
    lists: Vec<String>,
    screens: Vec<String>,
}

/// The verbs of the setup's layout.
const OF_LAYOUT: &[&str] = &[
    "check", "count", "often", "bind", "conforms", "bound", "pressed", "origins", "traced",
    "shape", "entries", "copy", "at", "taken", "pen", "tried",
];

fn take_list(row: &mut Row, setup: &mut Setup, words: &str) {
    let list = copied(row, words);
    keep(row, &mut setup.lists, list);
}

fn take_screen(row: &mut Row, setup: &mut Setup, words: &str) {
    let text = layouts::read_text(row, words);
    keep(row, &mut setup.screens, text);
}

/// Takes a line that says what others begin with; whether it is one.
fn take_line(row: &mut Row, setup: &mut Setup, verb: &str, words: &str) -> bool {
    match verb {
        "before" => setup.layout = layouts::read_text(row, words),
        "grid" => setup.layout = layouts::read_grid(row, words),
        "after" => setup.after = copied(row, words),
        "list" => take_list(row, setup, words),
        "no-screens" => setup.screens = Vec::new(row.alloc()),
        "screen" => take_screen(row, setup, words),
        _ => return false,
    }
    true
}

/// Adds what a verb of a layout answers.
fn push_declared(row: &mut Row, setup: &Setup, layout: &Layout, verb: &str, words: &str) {
    match verb {
        "check" => findings::push_check(row, layout, words),
        "pen" => pen::push_pen(row, layout, words),
        "count" => findings::push_count(row, layout, words),
        "often" => findings::push_often(row, layout, words),
        "bind" => answers::push_bind(row, layout, words),
        "conforms" => findings::push_check(row, layout, setup.after.as_str()),
        "bound" => promise::push_lists(row, setup, layout),
        "pressed" => promise::push_pressed(row, setup, layout, words),
        "origins" => origins::push_origins(row, layout, words),
        "traced" => origins::push_found(row, layout, words),
        "taken" => taken::push_taken(row, layout, words),
        "tried" => tried::push_tried(row, setup, layout, words),
        "shape" => promise::push_after(row, setup, layout, Told::Shape, words),
        "entries" => layouts::push_all(row, layout),
        "copy" => layouts::push_copy(row, layout, words),
        _ => layouts::push_places(row, layout, words),
    }
}

/// Adds what a verb of the setup's layout answers; whether it is one of these.
fn push_of_layout(row: &mut Row, setup: &Setup, verb: &str, words: &str) -> bool {
    if !OF_LAYOUT.contains(&verb) {
        return false;
    }
    if let Some(layout) = layout_of(row, setup.layout.as_str()) {
        push_declared(row, setup, &layout, verb, words);
    }
    true
}

fn push_dialogues(row: &mut Row, verb: &str, words: &str) -> bool {
    if verb != "dialogues" {
        return false;
    }
    promise::push_dialogues(row, words);
    true
}

/// Adds what a row answers.
pub(crate) fn push_answer(row: &mut Row, setup: &Setup, verb: &str, words: &str) {
    let is_verb = push_of_layout(row, setup, verb, words)
        || push_dialogues(row, verb, words)
        || talks::push_answer(row, setup, verb, words)
        || layouts::push_answer(row, setup, verb, words)
        || lines::push_answer(row, verb, words)
        || words::push_answer(row, verb);
    row.word_if(!is_verb, "no such verb");
}

impl Answers for Setup {
    fn take_line(&mut self, row: &mut Row, verb: &str, words: &str) -> bool {
        take_line(row, self, verb, words)
    }

    fn push_answer(&mut self, row: &mut Row, verb: &str, words: &str) {
        if verb == "twice" {
            memory::push_twice(row, self, words);
        } else {
            push_answer(row, self, verb, words);
        }
    }
}

/// Nothing to begin with.
fn no_setup(alloc: Global) -> Setup {
    Setup {
        layout: String::new(alloc),
        after: String::new(alloc),
        lists: Vec::new(alloc),
        screens: Vec::new(alloc),
    }
}

fn main(rt: HostRuntime) -> Result<()> {
    let alloc = rt.alloc();
    print_differences(&rt, alloc, rt.lines(alloc), &mut no_setup(alloc))
}
