// What the jobs of a store share.
ghost use Rattle.std.specs.Prelude.{◌≡◌, ◌+◌, ◌<◌, ◌^◌};

use keel_base::{Call, Failure};
use keel_edit::AddedList;

/// What a step of a job did.
#[derive(Clone, Copy, Debug)]
pub enum JobMove {
    /// It made this call, and has others before it.
    Moved(Call),
    /// It made its last call.
    Done,
    /// A call failed, and the job is over.
    Failed(Failure),
    /// Memory was refused, and all is as before.
    OutOfMemory,
}

/// What the next call of a job is about.
#[derive(Clone, Copy, Debug, PartialEq, Eq)]
pub struct Ahead {
    /// It draws a file number.
    pub draws: bool,
    /// It appends an edit to the manifest in use.
    pub edit: bool,
}

/// The files that a job has made.
#[derive(Debug, Drop)]
pub struct Made {
    /// Tables that were synced.
    pub synced: AddedList,
    /// The table that was handed to `create` and isn't synced.
    pub unsynced: Option<u64>,
    /// Whether the edit was handed to a manifest.
    pub handed: bool,
    /// The log that was handed to `create`.
    pub log: Option<u64>,
    /// The manifest that was.
    pub manifest: Option<u64>,
    /// The temporary file that was.
    pub temporary: Option<u64>,
}

/// The number of the next file that is made. Each number is drawn once, from 1 to 2^56 - 1.
#[derive(Debug, Drop)]
pub struct NextFile {
    number: u64,
}

impl NextFile {
    /// The next number is this one.
    pub fn new(number: u64) -> NextFile
        ensures { result.number ≡ number }
    {
        NextFile { number }
    }

    pub fn number(&self) -> u64
        ensures { result ≡ self.now.number }
    {
        self.number
    }

    /// The number is used up.
    pub fn draw(&mut self) -> u64
        requires { self.old.number < 2 ^ 56 }
        ensures number { result ≡ self.old.number }
        ensures next { self.new.number ≡ self.old.number + 1 }
    {
        let number = self.number;
        self.number += 1;
        number
    }
}
