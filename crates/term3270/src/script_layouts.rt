//! The layouts by which `script` judges screens, and where it reports them.

use crate::stream::Named;
use cli_commands::Status;
use script_checks::{LayoutRefusal, Layouts};
use std::alloc::{AllocError, Global};
use std::fs::{DirEntry, File, read_dir};
use std::io::{Read, Write};
use std::{fs, io};
use tn_session::Device;

/// How many bytes of a file are read at most: an input's, and one more, by which a longer one shows that it is too long.
pub(crate) const MOST_BYTES: u64 = 16_777_217;

/// The end of the name of a layout's file.
const END: &str = ".toml";

/// Adds the name of a file of a folder, where it is one of a layout.
fn push_name(alloc: Global, entry: &DirEntry, names: &mut Vec<String>) -> io::Result<()> {
    let name = entry.file_name();
    if name.ends_with(END) && !name.starts_with('.') {
        names.push(String::from_str(alloc, name)?)?;
    }
    Ok(())
}

/// The names of the layouts' files of a folder, in rising order of their bytes.
pub(crate) fn names_in(rt: &HostRuntime, folder: &str) -> io::Result<Vec<String>> {
    let mut names = Vec::new(rt.alloc());
    'entries: for entry in read_dir(rt, folder)? {
        push_name(rt.alloc(), &entry?, &mut names)?;
    }
    names.sort()?;
    Ok(names)
}

/// The path of a file of a folder.
pub(crate) fn path_in(alloc: Global, folder: &str, name: &str) -> Result<String, AllocError> {
    if folder.ends_with('/') {
        format!(in alloc; "{folder}{name}")
    } else {
        format!(in alloc; "{folder}/{name}")
    }
}

/// What a file holds, up to one byte more than a layout can have.
pub(crate) fn text_at(rt: &HostRuntime, path: &str) -> io::Result<Vec<u8>> {
    let mut text = Vec::new(rt.alloc());
    fs::open(rt, path)?.take(MOST_BYTES).read_to_end(&mut text)?;
    Ok(text)
}

/// The status of an error that is said with its path.
pub(crate) fn failed(rt: &HostRuntime, path: &str, error: &io::Error) -> Status {
    let _ = eprintln!(rt; "term3270: {path}: {error}");
    match error.kind() {
        io::ErrorKind::OutOfMemory => Status::NoMemory,
        _ => Status::Failed,
    }
}

fn tell_refused(rt: &HostRuntime, path: &str, why: LayoutRefusal) {
    let _ = eprintln!(rt; "term3270: {path}: {why}");
}

/// Adds the layout of a file: whether it is one of the device's. That it isn't is said.
fn add_layout(
    rt: &HostRuntime,
    folder: &str,
    name: &str,
    layouts: &mut Layouts,
) -> Result<bool, Status> {
    let Ok(path) = path_in(rt.alloc(), folder, name) else {
        return Err(Status::NoMemory);
    };
    let text = match text_at(rt, path.as_str()) {
        Ok(text) => text,
        Err(error) => return Err(failed(rt, path.as_str(), &error)),
    };
    match layouts.add(rt.alloc(), name.as_bytes(), &text) {
        Ok(Ok(())) => Ok(true),
        Ok(Err(why)) => {
            tell_refused(rt, path.as_str(), why);
            Ok(false)
        }
        Err(AllocError) => Err(Status::NoMemory),
    }
}

/// The layouts of a folder for a device, or the status where one can't be read or isn't one of the device's: each that isn't is said.
pub(crate) fn layouts_of(
    rt: &HostRuntime,
    folder: &str,
    device: Device,
) -> Result<Layouts, Status> {
    let mut layouts = Layouts::new(rt.alloc(), device.geometry());
    let names = match names_in(rt, folder) {
        Ok(names) => names,
        Err(error) => return Err(failed(rt, folder, &error)),
    };
    let mut is_good = true;
    'names: for name in names.as_slice() {
        let added = add_layout(rt, folder, name.as_str(), &mut layouts)?;
        is_good = is_good && added;
    }
    if is_good {
        Ok(layouts)
    } else {
        Err(Status::BadInput)
    }
}

/// A file that a report is written to, anew.
pub(crate) fn report_at<'a>(rt: &'a HostRuntime, path: &'a str) -> Result<Named<'a, File>, Status> {
    match fs::create(rt, path) {
        Ok(stream) => Ok(Named {
            rt,
            name: path,
            stream,
        }),
        Err(error) => Err(failed(rt, path, &error)),
    }
}
