//! Steps of a list in blocks.

use crate::marked::{Add, Marked, entry_of, push_entry, push_space};
use crate::parted;
use ds_places::Pages;
use test_words::Row;

/// The number of entries, and each of them.
fn push_list(row: &mut Row, pages: &Pages<Marked>) {
    push_space(row);
    row.length(pages.len());
    for index in 0..pages.len() {
        push_entry(row, pages.get(index));
    }
}

/// What another list holds, of this room and with an entry at its last place, once it is made a copy of this one.
fn push_copy(row: &mut Row, pages: &Pages<Marked>, room: u32) {
    if pages.first_from(room).is_some() || room == 0 {
        return row.spoil();
    }
    let Ok(mut copy) = Pages::reserved(row.alloc(), room) else {
        return row.spoil();
    };
    copy.store(Marked {
        at: room - 1,
        mark: 0,
    });
    copy.copy_from(pages);
    push_list(row, &copy);
}

fn store(row: &mut Row, pages: &mut Pages<Marked>, words: &str) {
    let entry = entry_of(row, words);
    if entry.at >= pages.room() {
        return row.spoil();
    }
    pages.store(entry);
}

fn cut(row: &mut Row, pages: &mut Pages<Marked>, words: &str) {
    let (from, to) = row.read_numbers(words);
    if from > to {
        return row.spoil();
    }
    pages.cut(from, to);
}

/// Cuts so many places from one on, round all for which there is room.
fn cut_round(row: &mut Row, pages: &mut Pages<Marked>, words: &str) {
    let (from, steps) = row.read_numbers(words);
    let places = pages.room();
    if pages.first_from(places).is_some() || from >= places || steps > places {
        return row.spoil();
    }
    pages.cut_round(places, from, steps);
}

/// Takes a step that edits the list; whether it is one of these.
fn take_edit(row: &mut Row, pages: &mut Pages<Marked>, verb: &str, words: &str) -> bool {
    match verb {
        "store" => store(row, pages, words),
        "clear" => pages.clear(),
        "add" => pages.change_each(&Add(row.read_number(words))),
        "cut" => cut(row, pages, words),
        "round" => cut_round(row, pages, words),
        "list" => push_list(row, pages),
        "last" => push_entry(row, pages.last()),
        _ => return false,
    }
    true
}

/// Adds the first entry from a place on, which is the same whatever index is guessed for it.
fn push_from(row: &mut Row, pages: &Pages<Marked>, place: u32) {
    let found = pages.first_from(place);
    for guessed in [0, 1, 2, usize::MAX] {
        let mut guess = guessed;
        if pages.first_near(place, &mut guess) != found {
            return row.spoil();
        }
    }
    push_entry(row, found);
}

/// Adds what a step of a number finds.
fn push_found(row: &mut Row, pages: &Pages<Marked>, verb: &str, word: u32) {
    match verb {
        "held" => push_entry(row, pages.held(word)),
        "to" => push_entry(row, pages.last_to(word).entry),
        "from" => push_from(row, pages, word),
        "get" => push_entry(row, pages.get(word as usize)),
        "copy" => push_copy(row, pages, word),
        _ => row.spoil(),
    }
}

/// Takes a step, and adds what it answers.
fn push_step(row: &mut Row, pages: &mut Pages<Marked>, step: &str) {
    let (verb, words) = parted(step, " ");
    if !take_edit(row, pages, verb, words) {
        let word = row.read_number(words);
        push_found(row, pages, verb, word);
    }
}

fn push_each_step(row: &mut Row, pages: &mut Pages<Marked>, steps: &str) {
    for step in steps.split("; ") {
        push_step(row, pages, step);
    }
}

/// Takes the steps of a row on a new list, after the places that it has room for, and adds what they answer.
pub(crate) fn push_steps(row: &mut Row, words: &str) {
    let (room, steps) = row.cut(words, " ");
    let room = row.read_number(room);
    match Pages::reserved(row.alloc(), room) {
        Ok(mut pages) => push_each_step(row, &mut pages, steps),
        Err(_) => row.spoil(),
    }
}
