//! The folders of `tap`: the layouts by which it judges screens, and where it leaves them.

use crate::script_layouts::{failed, names_in, path_in, text_at};
use cli_commands::Status;
use std::alloc::AllocError;
use std::fs::File;
use std::io;
use std::io::{ErrorKind, Write};
use tap_screens::{Folder, LeftScreen};
use tap_server::LeavesScreens;

/// The end of the name of a layout's file.
const END: &str = ".toml";

/// Adds the layout of a file, by its name without the end: whether it is one. That it isn't is said.
fn add_layout(
    rt: &HostRuntime,
    folder: &str,
    name: &str,
    layouts: &mut Folder,
) -> Result<bool, Status> {
    let Ok(path) = path_in(rt.alloc(), folder, name) else {
        return Err(Status::NoMemory);
    };
    let text = match text_at(rt, path.as_str()) {
        Ok(text) => text,
        Err(error) => return Err(failed(rt, path.as_str(), &error)),
    };
    let stem = name.strip_suffix(END).unwrap_or(name);
    match layouts.add(rt.alloc(), stem.as_bytes(), &text) {
        Ok(Ok(())) => Ok(true),
        Ok(Err(why)) => {
            let _ = eprintln!(rt; "term3270: {path}: {why}");
            Ok(false)
        }
        Err(AllocError) => Err(Status::NoMemory),
    }
}

/// The layouts of a folder, or the status where one can't be read or isn't one: each that isn't is said.
fn layouts_in(rt: &HostRuntime, folder: &str) -> Result<Folder, Status> {
    let mut layouts = Folder::new(rt.alloc());
    let names = match names_in(rt, folder) {
        Ok(names) => names,
        Err(error) => return Err(failed(rt, folder, &error)),
    };
    let mut is_good = true;
    'names: for name in names.as_slice() {
        let added = add_layout(rt, folder, name.as_str(), &mut layouts)?;
        is_good = is_good && added;
    }
    if is_good {
        Ok(layouts)
    } else {
        Err(Status::BadInput)
    }
}

/// The layouts of a folder, where one is named.
pub(crate) fn layouts_of(rt: &HostRuntime, folder: Option<&str>) -> Result<Option<Folder>, Status> {
    match folder {
        Some(folder) => Ok(Some(layouts_in(rt, folder)?)),
        None => Ok(None),
    }
}

/// Where screens are left: a folder, or nowhere.
#[derive(Drop)]
pub(crate) struct LeftScreens<'a> {
    rt: &'a HostRuntime,
    folder: Option<&'a str>,
    /// How many numbers of screens were taken, or passed over as files have them.
    last: u64,
}

impl<'a> LeftScreens<'a> {
    pub(crate) fn at(rt: &'a HostRuntime, folder: Option<&'a str>) -> LeftScreens<'a> {
        LeftScreens {
            rt,
            folder,
            last: 0,
        }
    }

    /// The path of a file of a screen.
    fn path(&self, folder: &str, number: u64, end: &str) -> Result<String, AllocError> {
        let name = format!(in self.rt.alloc(); "screen-{number}{end}")?;
        path_in(self.rt.alloc(), folder, name.as_str())
    }

    /// Whether no file of a screen's two is there.
    fn is_free(&self, folder: &str, number: u64) -> io::Result<bool> {
        let records = self.path(folder, number, ".hex")?;
        let layout = self.path(folder, number, END)?;
        Ok(is_absent(self.rt, records.as_str()) && is_absent(self.rt, layout.as_str()))
    }

    /// The next number that no file has.
    fn next_number(&mut self, folder: &str) -> io::Result<u64> {
        'numbers: for _ in 0..u64::MAX {
            self.last = self.last.saturating_add(1);
            if self.is_free(folder, self.last)? {
                return Ok(self.last);
            }
        }
        Err(io::Error::from(ErrorKind::AlreadyExists))
    }

    /// Writes a file that isn't there yet; what fails is said.
    fn write(&self, folder: &str, number: u64, end: &str, text: &str) -> io::Result<()> {
        let path = self.path(folder, number, end)?;
        let written = write_new(self.rt, path.as_str(), text);
        if let Err(error) = &written {
            let _ = eprintln!(self.rt; "term3270: {path}: {error}");
        }
        written
    }

    fn leave_in(&mut self, folder: &str, screen: &LeftScreen) -> io::Result<()> {
        let number = self.next_number(folder)?;
        self.write(folder, number, ".hex", screen.records.as_str())?;
        self.write(folder, number, END, screen.layout.as_str())
    }
}

/// Whether there is no file of this path.
fn is_absent(rt: &HostRuntime, path: &str) -> bool {
    match File::open(rt, path) {
        Ok(_file) => false,
        Err(error) => error.kind() == ErrorKind::NotFound,
    }
}

/// Writes a new file. One that is there already is left as it is.
fn write_new(rt: &HostRuntime, path: &str, text: &str) -> io::Result<()> {
    let mut file = File::create_new(rt, path)?;
    file.write_all(text.as_bytes())?;
    file.flush()
}

impl LeavesScreens for LeftScreens<'_> {
    fn leave(&mut self, screen: &LeftScreen) {
        if let Some(folder) = self.folder {
            let _ = self.leave_in(folder, screen);
        }
    }
}
