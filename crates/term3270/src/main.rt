//! The program `term3270`: shows, checks, converts and serves the screens of outbound 3270 records, and attaches to hosts.
#![tactic(auto)]

mod bad_word;
mod command_line;
mod commands;
mod drafts;
mod file;
mod help;
mod manners;
mod many;
mod offers;
mod prompt;
mod reasons;
mod reports;
mod script;
mod script_layouts;
mod sessions;
mod stream;
mod suite;
mod tap;
mod tap_folders;
mod tcp;
mod tolerant;
mod walk;
mod withheld;

use crate::bad_word::tell_bad_word;
use crate::command_line::parsed;
use crate::manners::{bare_host, tell_records_place};
use crate::tcp::Place;
use crate::tolerant::Limits;
use bms_map::Control;
use clap::ArgMatches;
use clap::error::ErrorKind;
use cli_commands::{Status, failure};
use cli_maps::Asked as MapsAsked;
use cli_words::{Asked, TapAsked};
use std::process::ExitCode;
use std::{env, io};

/// The maps of this name, or all, and what SEND MAP adds.
fn maps_asked(name: Option<&str>, control: Control) -> MapsAsked<'_> {
    let name = match name {
        Some(name) => Some(name.as_bytes()),
        None => None,
    };
    MapsAsked { name, control }
}

/// Runs a command that shows a screen, or a map; none where another command is asked for.
fn show(rt: &HostRuntime, asked: Asked<'_>) -> Option<Status> {
    match asked {
        Asked::Show { color } => Some(commands::show(rt, color)),
        Asked::Draw { drawing } => Some(commands::draw(rt, drawing)),
        Asked::Annotate { layout, form } => Some(commands::annotate(rt, layout, form)),
        Asked::Undrawn => Some(commands::refuse_undrawn(rt)),
        Asked::Map {
            source,
            name,
            control,
            form,
        } => Some(commands::map(rt, source, maps_asked(name, control), form)),
        Asked::RenderMap {
            source,
            name,
            control,
            rendering,
        } => Some(commands::render_map(rt, source, maps_asked(name, control), rendering)),
        _ => None,
    }
}

/// Runs a command that checks; none where another command is asked for.
fn check(rt: &HostRuntime, asked: Asked<'_>, matches: &ArgMatches<'_>) -> Option<Status> {
    match asked {
        Asked::Check {
            layout,
            records,
            demos,
            pen,
        } => Some(commands::check(rt, layout, records, demos, pen)),
        Asked::Report {
            layout,
            records,
            form,
            pen,
        } => Some(commands::report(rt, layout, records, form, pen)),
        Asked::Explain {
            layout,
            records,
            pen,
        } => Some(reports::explain(rt, layout, records, pen)),
        Asked::Talk => Some(commands::talk(rt, matches)),
        Asked::ReportTalk { form } => Some(reports::report_talk(rt, matches, form)),
        Asked::LogTalk => Some(reports::log_talk(rt, matches)),
        Asked::CheckMap {
            source,
            name,
            control,
            form,
        } => Some(commands::check_map(rt, source, maps_asked(name, control), form)),
        Asked::Suite { path, only, form } => Some(suite::suite(rt, path, only, form)),
        Asked::NoLayout => Some(commands::refuse_no_layout(rt)),
        _ => None,
    }
}

/// Runs a command that makes another text of its input; none where another command is asked for.
fn convert(rt: &HostRuntime, asked: Asked<'_>, matches: &ArgMatches<'_>) -> Option<Status> {
    match asked {
        Asked::Press { keys } => Some(commands::press(rt, keys)),
        Asked::Strike { strokes } => Some(commands::strike(rt, strokes)),
        Asked::Convert => Some(commands::convert(rt)),
        Asked::ConvertCharacters => Some(commands::convert_characters(rt)),
        Asked::ConvertBack => Some(commands::convert_back(rt)),
        Asked::ConvertBackCharacters => Some(commands::convert_back_characters(rt)),
        Asked::Draft => Some(commands::draft(rt)),
        Asked::DraftTurns { folder: None } => Some(commands::draft_turns(rt)),
        Asked::DraftTurns {
            folder: Some(folder),
        } => Some(drafts::draft_files(rt, folder)),
        Asked::Bind { layout, form } => Some(commands::bind(rt, matches, layout, form)),
        Asked::BindTurns { form } => Some(commands::bind_turns(rt, matches, form)),
        Asked::Records { traced } => Some(commands::records(rt, traced)),
        Asked::OneSided => Some(commands::refuse_one_side(rt)),
        Asked::Buffers { sizes } => Some(commands::buffers(rt, sizes)),
        Asked::OneScreen => Some(commands::refuse_one_screen(rt)),
        _ => None,
    }
}

/// Taps a host at a place.
fn tapped(rt: &HostRuntime, asked: TapAsked<'_>) -> Status {
    let listen = Place {
        host: bare_host(asked.listen),
        port: asked.listen_port,
    };
    let host = Place {
        host: bare_host(asked.host),
        port: asked.port,
    };
    tap::tap(rt, listen, host, asked)
}

/// Runs a command over the net; none where another command is asked for.
fn connect(rt: &HostRuntime, asked: Asked<'_>) -> Option<Status> {
    match asked {
        Asked::Serve {
            layout,
            address,
            port,
            count,
        } => {
            let host = bare_host(address);
            Some(commands::serve(rt, layout, Place { host, port }, count))
        }
        Asked::ServeMany {
            layout,
            address,
            port,
            many,
        } => {
            let host = bare_host(address);
            Some(commands::serve_many(rt, layout, Place { host, port }, many))
        }
        Asked::AttachTolerant {
            host,
            keys,
            lines,
            port,
            device,
            expect,
            timeout,
        } => {
            let place = Place {
                host: bare_host(host),
                port,
            };
            let limits = Limits { expect, timeout };
            Some(commands::attach_tolerant(rt, place, keys, lines, device, limits))
        }
        Asked::Attach {
            host,
            keys,
            lines,
            port,
            device,
        } => {
            let host = bare_host(host);
            Some(commands::attach(rt, Place { host, port }, keys, lines, device))
        }
        Asked::Script(asked) => Some(script::script(rt, asked)),
        Asked::Tap(asked) => Some(tapped(rt, asked)),
        _ => None,
    }
}

/// Runs a command on the standard streams, and on the files that it was given.
fn run(rt: &HostRuntime, asked: Asked<'_>, matches: &ArgMatches<'_>) -> Status {
    if let Some(status) = show(rt, asked) {
        return status;
    }
    if let Some(status) = check(rt, asked, matches) {
        return status;
    }
    if let Some(status) = convert(rt, asked, matches) {
        return status;
    }
    if let Some(status) = offers::serve(rt, matches) {
        return status;
    }
    match connect(rt, asked) {
        Some(status) => status,
        None => Status::BadInput,
    }
}

/// Parses the command line and runs what it asks for.
fn respond(rt: &HostRuntime) -> io::Result<Status> {
    let words: Vec<String> = env::args(rt)?.collect(rt.alloc())?;
    match parsed(rt.alloc(), words.as_slice()) {
        Ok(matches) => Ok(run(rt, Asked::from_matches(&matches), &matches)),
        Err(error) => {
            error.print(rt)?;
            if matches!(error.kind(), ErrorKind::UnknownArgument) {
                tell_records_place(rt, words.as_slice());
            }
            Ok(match error.kind() {
                ErrorKind::OutOfMemory => Status::NoMemory,
                _ if error.use_stderr() => Status::BadInput,
                _ => Status::Done,
            })
        }
    }
}

fn main(rt: HostRuntime) -> ExitCode {
    match respond(&rt) {
        Ok(status) => ExitCode::from(status),
        Err(error) => {
            let _ = match error.kind() {
                io::ErrorKind::InvalidData => tell_bad_word(&rt),
                _ => eprintln!(rt; "term3270: {error}"),
            };
            ExitCode::from(failure(&error))
        }
    }
}
