//! `serve` of an application, of records of any kind, and with the bytes of answers.

use crate::commands::{output, sized_input};
use crate::manners::{bare_host, tell_listening};
use crate::many::{STANDARD_OUTPUT, asked_of};
use crate::reasons::{heard_file, told_first};
use crate::suite::{folder_of, heard, read_file};
use crate::tcp::Place;
use clap::ArgMatches;
use cli_applications::{Manifest, ManifestError, PlannedScreen, manifest_in};
use cli_commands::{Answer, CommandError, Status, finish};
use cli_dialogues::{Application, DialogueHosts, Telling};
use cli_offers::{Files, Prepared, any_application, prepare_application, refusal};
use cli_reasons::Lines;
use cli_sessions::{Output, Prepared as Served, Screen, prepare_serve};
use cli_words::Many;
use host_server::{Server, serve_all};
use std::alloc::{AllocError, Global};
use tn_dialogue::Reading;

/// What terminals are served.
#[derive(Clone, Copy)]
enum Offer<'a> {
    /// The application of this manifest.
    Turns(&'a str),
    /// The records of this file, whatever they are.
    Any(&'a str),
    /// The screen of this layout.
    Layout(&'a str),
}

/// What is asked of `serve`, of an application, of records of any kind, or with the bytes of answers.
#[derive(Clone, Copy)]
struct ServeAsked<'a> {
    offer: Offer<'a>,
    address: &'a str,
    port: u16,
    many: Many,
    /// Whether the bytes of answers are printed.
    is_raw: bool,
}

/// What is printed of answers.
fn telling_of(is_raw: bool) -> Telling {
    if is_raw {
        Telling::Bytes
    } else {
        Telling::Read
    }
}

/// The path of a file from where the program was started.
fn whole_path(alloc: Global, base: &str, path: &str) -> Result<String, AllocError> {
    if path.starts_with('/') {
        String::from_str(alloc, path)
    } else {
        format!(in alloc; "{base}{path}")
    }
}

/// The bytes of a file; none where it can't be read, which is said.
fn file_at(rt: &HostRuntime, base: &str, path: &str) -> Result<Option<Vec<u8>>, AllocError> {
    let whole = whole_path(rt.alloc(), base, path)?;
    match read_file(rt, whole.as_str()) {
        Ok(bytes) => Ok(Some(bytes)),
        Err(CommandError::OutOfMemory) => Err(AllocError),
        Err(CommandError::ReadFailed | CommandError::Fault(_)) => Ok(None),
    }
}

/// The files of a screen.
fn files_of(rt: &HostRuntime, base: &str, screen: &PlannedScreen) -> Result<Files, AllocError> {
    let layout = file_at(rt, base, screen.layout.as_str())?;
    let records = match layout {
        Some(_) => file_at(rt, base, screen.records.as_str())?,
        None => None,
    };
    Ok(Files { layout, records })
}

/// The files of screens, up to the first that can't be read.
fn all_files(rt: &HostRuntime, base: &str, manifest: &Manifest) -> Result<Vec<Files>, AllocError> {
    let mut all = Vec::new(rt.alloc());
    for screen in manifest.screens.as_slice() {
        let files = files_of(rt, base, screen)?;
        let is_whole = files.records.is_some();
        all.push(files)?;
        if !is_whole {
            break;
        }
    }
    Ok(all)
}

/// Says why a file is refused, where it is.
fn say(
    rt: &HostRuntime,
    base: &str,
    path: &str,
    lines: Lines,
    file: &Option<Vec<u8>>,
) -> Result<bool, AllocError> {
    let Some(bytes) = file else {
        return Ok(false);
    };
    let whole = whole_path(rt.alloc(), base, path)?;
    match heard(rt.alloc(), lines, whole.as_str(), bytes.as_slice()) {
        Some(sentence) => {
            let _ = eprint!(rt; "{sentence}");
            Ok(true)
        }
        None => Ok(false),
    }
}

/// Says why the first file is refused that is.
fn say_first(
    rt: &HostRuntime,
    base: &str,
    manifest: &Manifest,
    all: &[Files],
) -> Result<(), AllocError> {
    for (screen, files) in manifest.screens.as_slice().iter().zip(all) {
        if say(
            rt,
            base,
            screen.layout.as_str(),
            Lines::Layout,
            &files.layout,
        )? || say(
            rt,
            base,
            screen.records.as_str(),
            Lines::SizedRecords,
            &files.records,
        )? {
            return Ok(());
        }
    }
    Ok(())
}

/// The application of a manifest.
fn application_at(
    rt: &HostRuntime,
    path: &str,
    telling: Telling,
) -> Result<Prepared, CommandError> {
    let text = read_file(rt, path)?;
    let manifest = match manifest_in(rt.alloc(), text.as_slice()) {
        Ok(manifest) => manifest,
        Err(ManifestError::Refused(fault)) => {
            return Ok(Prepared::Stops(refusal(rt.alloc(), fault)?));
        }
        Err(ManifestError::OutOfMemory) => return Err(CommandError::OutOfMemory),
    };
    let base = folder_of(path);
    let all = all_files(rt, base, &manifest)?;
    let prepared = prepare_application(rt.alloc(), &manifest, all.as_slice(), telling)?;
    if let Prepared::Stops(
        Answer {
            status: Status::BadInput,
            ..
        },
    ) = &prepared
    {
        say_first(rt, base, &manifest, all.as_slice())?;
    }
    Ok(prepared)
}

/// The records of a file, whatever they are.
fn any_at(rt: &HostRuntime, path: &str) -> Result<Prepared, CommandError> {
    let text = read_file(rt, path)?;
    let prepared = any_application(rt.alloc(), text.as_slice());
    if let Err(CommandError::Fault(_)) = &prepared {
        if let Some(sentence) = heard(rt.alloc(), Lines::Records, path, text.as_slice()) {
            let _ = eprint!(rt; "{sentence}");
        }
    }
    prepared
}

/// Serves an application.
fn serve_application(rt: &HostRuntime, application: &Application, asked: ServeAsked<'_>) -> Status {
    let place = Place {
        host: bare_host(asked.address),
        port: asked.port,
    };
    let patience = u64::from(asked.many.idle) * 1_000;
    let hosts = DialogueHosts::new(rt.alloc(), application, patience);
    let asked = asked_of(asked.many);
    let mut server = match Server::at(rt, rt.alloc(), place.host, place.port, hosts, asked) {
        Ok(server) => server,
        Err(error) => return place.report(rt, &error),
    };
    tell_listening(rt, place);
    let mut lines = Output::new(output(rt));
    match serve_all(rt, rt.alloc(), &mut server, &mut lines, STANDARD_OUTPUT) {
        Ok(status) => status,
        Err(error) => place.report(rt, &error),
    }
}

/// Serves what is prepared.
fn serve_prepared(
    rt: &HostRuntime,
    prepared: Result<Prepared, CommandError>,
    asked: ServeAsked<'_>,
) -> Status {
    match prepared {
        Ok(Prepared::Ready(application)) => serve_application(rt, &application, asked),
        Ok(Prepared::Stops(answer)) => finish(rt.alloc(), &mut output(rt), Ok(answer)),
        Err(error) => finish(rt.alloc(), &mut output(rt), Err(error)),
    }
}

/// Serves a screen that was checked, and prints the bytes of answers.
fn serve_screen(rt: &HostRuntime, screen: Screen, asked: ServeAsked<'_>) -> Status {
    let Screen { layout, records } = screen;
    let (reading, telling) = (Reading::Fields, telling_of(asked.is_raw));
    match Application::of_one(rt.alloc(), layout, reading, records, telling) {
        Ok(application) => serve_application(rt, &application, asked),
        Err(_) => Status::NoMemory,
    }
}

/// `serve` of the screen of a layout, with the bytes of answers.
fn serve_raw(rt: &HostRuntime, layout: &str, asked: ServeAsked<'_>) -> Status {
    let mut layout = heard_file(rt, Lines::Layout, layout);
    let mut records = sized_input(rt);
    let status = match prepare_serve(rt.alloc(), &mut layout, &mut records) {
        Ok(Served::Ready(screen)) => serve_screen(rt, screen, asked),
        Ok(Served::Stops(answer)) => finish(rt.alloc(), &mut output(rt), Ok(answer)),
        Err(error) => finish(rt.alloc(), &mut output(rt), Err(error)),
    };
    told_first(rt, status, &mut layout, &mut records)
}

/// Serves what is offered.
fn serve_offered(rt: &HostRuntime, asked: ServeAsked<'_>) -> Status {
    match asked.offer {
        Offer::Turns(path) => {
            serve_prepared(
                rt,
                application_at(rt, path, telling_of(asked.is_raw)),
                asked,
            )
        }
        Offer::Any(path) => serve_prepared(rt, any_at(rt, path), asked),
        Offer::Layout(layout) => serve_raw(rt, layout, asked),
    }
}

/// Says that nothing is served.
fn refuse_nothing_served(rt: &HostRuntime) -> Status {
    let _ = eprintln!(rt;
        "error: 'serve' needs a layout, or '--turns <FILE>', or '--any' and '--records <FILE>'"
    );
    Status::BadInput
}

/// A number of the words; 0 where it isn't given.
fn number_in(words: &ArgMatches<'_>, word: &str) -> u16 {
    match words.get_one::<u16>(word) {
        Some(number) => number,
        None => 0,
    }
}

/// How many terminals, and how many at once.
fn many_in(words: &ArgMatches<'_>) -> Many {
    Many {
        count: number_in(words, "count"),
        at_once: number_in(words, "at-once"),
        answers: number_in(words, "answers"),
        idle: number_in(words, "idle"),
        per_second: number_in(words, "per-second"),
    }
}

/// What the words of `serve` offer beside the screen of a layout; none where they offer that.
fn offer_in<'a>(words: &ArgMatches<'a>) -> Option<Offer<'a>> {
    if let Some(path) = words.get_str("turns") {
        return Some(Offer::Turns(path));
    }
    if let Some(path) = words.get_str("records") {
        return Some(Offer::Any(path));
    }
    match words.get_str("LAYOUT") {
        Some(layout) if words.get_flag("raw") => Some(Offer::Layout(layout)),
        _ => None,
    }
}

/// Serves what the words offer, or says that they offer nothing; none where they offer the screen of a layout.
fn served(rt: &HostRuntime, words: &ArgMatches<'_>) -> Option<Status> {
    let Some(offer) = offer_in(words) else {
        return match words.get_str("LAYOUT") {
            Some(_) => None,
            None => Some(refuse_nothing_served(rt)),
        };
    };
    let address = words.get_str("listen").unwrap_or("127.0.0.1");
    let asked = ServeAsked {
        offer,
        address,
        port: number_in(words, "port"),
        many: many_in(words),
        is_raw: words.get_flag("raw"),
    };
    Some(serve_offered(rt, asked))
}

/// `serve`, of an application, of records of any kind, or with the bytes of answers; none where another command is asked for, or
/// the screen of a layout alone.
pub(crate) fn serve(rt: &HostRuntime, matches: &ArgMatches<'_>) -> Option<Status> {
    match matches.subcommand() {
        Some(("serve", words)) => served(rt, words),
        _ => None,
    }
}
