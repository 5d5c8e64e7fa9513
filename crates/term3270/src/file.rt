//! A file that is opened where it is first read: its place in the order of inputs.

use std::fs::File;
use std::io::Read;
use std::{fs, io};

/// The file of a path, as a reader. That it can't be opened is the error of the first read.
#[derive(Drop)]
pub(crate) struct FileAt<'a> {
    pub rt: &'a HostRuntime,
    pub path: &'a str,
    /// The file, once it is open.
    pub file: Option<File>,
}

impl Read for FileAt<'_> {
    fn read(&mut self, buf: &mut [u8]) -> io::Result<usize> {
        if self.file.is_none() {
            self.file = Some(fs::open(self.rt, self.path)?);
        }
        match &mut self.file {
            Some(file) => file.read(buf),
            None => Ok(0),
        }
    }
}
