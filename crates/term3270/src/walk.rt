//! The files of a folder and below it.

use std::fs::read_dir;
use std::io;

/// The most folders that are gone through.
const MOST_FOLDERS: usize = 100_000;

/// Whether a file or a folder is hidden: its name begins with a dot.
fn is_hidden(name: &str) -> bool {
    name.starts_with('.')
}

/// Adds the files of one folder, and its folders, unless they are hidden. Links to folders aren't followed.
fn push_entries(
    rt: &HostRuntime,
    folder: &str,
    files: &mut Vec<String>,
    folders: &mut Vec<String>,
) -> io::Result<()> {
    for entry in read_dir(rt, folder)? {
        let entry = entry?;
        if is_hidden(entry.file_name()) {
            continue;
        }
        let path = String::from_str(rt.alloc(), entry.path().to_string_lossy())?;
        if entry.file_type()?.is_dir() {
            folders.push(path)?;
        } else {
            files.push(path)?;
        }
    }
    Ok(())
}

/// The paths of the files of a folder and of those below it, in rising order of their bytes.
pub(crate) fn paths_below(rt: &HostRuntime, folder: &str) -> io::Result<Vec<String>> {
    let mut files = Vec::new(rt.alloc());
    let mut folders = Vec::new(rt.alloc());
    folders.push(String::from_str(rt.alloc(), folder)?)?;
    for _turn in 0..MOST_FOLDERS {
        match folders.pop() {
            Some(next) => push_entries(rt, next.as_str(), &mut files, &mut folders)?,
            None => {
                files.sort()?;
                return Ok(files);
            }
        }
    }
    Err(io::Error::from(io::ErrorKind::QuotaExceeded))
}
