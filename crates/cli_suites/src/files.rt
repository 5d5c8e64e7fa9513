//! The files of a suite, and how far it has come.

ghost use Rattle.std.specs.Prelude.{◌≡◌, ℕ, List, Option, option_map, IfOk, IfSome};

use crate::job::Job;
use std::alloc::{AllocError, Global};

/// Files by their paths.
pub trait Files {
    /// The bytes of the file at a path, or that there is none which can be read; where that is known.
    ghost contents: { Self → Option (List ℕ → Option (List ℕ)) };

    /// The bytes of a file, of which one byte more than 16,777,216 is enough; `None` where it can't be read. They may take the
    /// place of what is in `room`, which saves a request for memory.
    ///
    /// # Errors
    ///
    /// Where a request for memory was refused.
    fn read(&self, alloc: Global, path: &str, room: Vec<u8>) -> Result<Option<Vec<u8>>, AllocError>
        ensures { IfSome (contents self.now) (λ held. IfOk result (λ bytes.
            option_map (λ v. v.items) bytes ≡ held path.now)) };

    /// The text before each path in a log, from where the program was started: the folder of a manifest, with its last slash.
    ghost base: { Self → List ℕ };

    /// The path of the manifest, or of the folder.
    ghost origin: { Self → List ℕ };

    fn folder(&self) -> &str
        ensures { result.now ≡ base self.now };

    fn start(&self) -> &str
        ensures { result.now ≡ origin self.now };

    /// Hears that one of the files of a job is refused: of the layouts in their order, or of the records.
    fn refuse(&self, alloc: Global, job: &Job, layouts: &[Vec<u8>], records: &[u8]);

    /// Hears that the screen of a name is next, after so many, of so many.
    fn hear(&self, done: u64, all: usize, name: &str);
}
