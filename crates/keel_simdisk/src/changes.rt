// The changing calls, as the model has them.
ghost use Rattle.std.specs.Prelude.{◌≡◌, ◌==◌, if◌then◌else◌, is_some, unwrap_or, OnOk, OnErr};
ghost use Rattle.keel_disk.specs.Step.{done, failed};

use crate::tree::Tree;
use keel_base::{FileName, OutOfMemory};
use keel_disk::{Change, Operation};
use std::alloc::Global;

impl Tree {
    fn append(&mut self, name: FileName, bytes: &[u8]) -> Result<(), OutOfMemory>
        ensures ok { OnOk result (self.new ≡ unwrap_or (done (Change.Append name bytes.now) self.old) self.old) }
        ensures err { OnErr result (self.new ≡ self.old) }
    {
        let Some(number) = self.file_of(name) else {
            return Ok(());
        };
        if self.has_cut(number) {
            return Ok(());
        }
        self.extend(number, bytes, bytes.len())
    }

    fn fail_append(&mut self, name: FileName, bytes: &[u8], keep: u64) -> Result<(), OutOfMemory>
        ensures ok { OnOk result (self.new ≡ failed (Change.Append name bytes.now) keep self.old) }
        ensures err { OnErr result (self.new ≡ self.old) }
    {
        let kept = (keep as usize).min(bytes.len());
        match self.file_of(name) {
            None => Ok(()),
            Some(number) => self.extend_spoilt(number, bytes, kept),
        }
    }

    fn rename(&mut self, from: FileName, to: FileName) -> Result<(), OutOfMemory>
        ensures ok { OnOk result (self.new ≡ unwrap_or (done (Change.Rename from to) self.old) self.old) }
        ensures err { OnErr result (self.new ≡ self.old) }
    {
        match self.file_of(from) {
            None => Ok(()),
            Some(_) => self.wait(Operation::Move { from, to }),
        }
    }

    fn cut(&mut self, name: FileName, length: u64) -> Result<(), OutOfMemory>
        ensures ok { OnOk result (self.new ≡ unwrap_or (done (Change.Cut name length) self.old) self.old) }
        ensures err { OnErr result (self.new ≡ self.old) }
    {
        match self.file_of(name) {
            None => Ok(()),
            Some(number) => self.shorten(number, length as usize),
        }
    }

    fn sync_name(&mut self, name: FileName)
        ensures { self.new ≡ unwrap_or (done (Change.Sync name) self.old) self.old }
    {
        if let Some(number) = self.file_of(name) {
            self.sync(number);
        }
    }

    fn fail_sync(&mut self, name: FileName)
        ensures { self.new ≡ failed (Change.Sync name) 0 self.old }
    {
        if let Some(number) = self.file_of(name) {
            self.spoil(number);
        }
    }

    /// Whether the device takes a call: it refuses one on an absent file, and an append to a file with a
    /// waiting cut.
    pub fn takes(&self, change: &Change) -> bool
        ensures { result ≡ is_some (done change.now self.now) }
    {
        match change {
            Change::Create { name: _ } => true,
            Change::Append { name, bytes: _ } => match self.file_of(*name) {
                None => false,
                Some(number) => !self.has_cut(number),
            },
            Change::Sync { name } => self.file_of(*name).is_some(),
            Change::Rename { from, to: _ } => self.file_of(*from).is_some(),
            Change::Remove { name: _ } => true,
            Change::Cut { name, length: _ } => self.file_of(*name).is_some(),
            Change::SyncDir => true,
        }
    }

    /// Makes a call. One that the device doesn't take changes nothing.
    pub fn make(&mut self, alloc: Global, change: &Change) -> Result<(), OutOfMemory>
        ensures ok { OnOk result (self.new ≡ unwrap_or (done change.now self.old) self.old) }
        ensures err { OnErr result (self.new ≡ self.old) }
    {
        match change {
            Change::Create { name } => self.create(alloc, *name),
            Change::Append { name, bytes } => self.append(*name, bytes.as_slice()),
            Change::Sync { name } => {
                self.sync_name(*name);
                Ok(())
            }
            Change::Rename { from, to } => self.rename(*from, *to),
            Change::Remove { name } => self.unlink(*name),
            Change::Cut { name, length } => self.cut(*name, *length),
            Change::SyncDir => {
                let all = self.waits() as u64;
                self.settle(alloc, all)
            }
        }
    }

    /// Leaves what a call leaves that fails: an append keeps so many bytes, a sync of the directory so many
    /// operations, and another call is done where this isn't 0.
    pub fn fail(&mut self, alloc: Global, change: &Change, keep: u64) -> Result<(), OutOfMemory>
        ensures ok { OnOk result (self.new ≡ failed change.now keep self.old) }
        ensures err { OnErr result (self.new ≡ self.old) }
    {
        match change {
            Change::Append { name, bytes } => self.fail_append(*name, bytes.as_slice(), keep),
            Change::Sync { name } => {
                self.fail_sync(*name);
                Ok(())
            }
            Change::SyncDir => self.settle(alloc, keep),
            Change::Create { name: _ } => self.make_where(alloc, change, keep),
            Change::Rename { from: _, to: _ } => self.make_where(alloc, change, keep),
            Change::Remove { name: _ } => self.make_where(alloc, change, keep),
            Change::Cut { name: _, length: _ } => self.make_where(alloc, change, keep),
        }
    }

    // Makes a call where this isn't 0.
    fn make_where(&mut self, alloc: Global, change: &Change, keep: u64) -> Result<(), OutOfMemory>
        ensures ok { OnOk result (self.new ≡ (if keep == 0 then self.old else unwrap_or (done change.now self.old) self.old)) }
        ensures err { OnErr result (self.new ≡ self.old) }
    {
        if keep == 0 {
            return Ok(());
        }
        self.make(alloc, change)
    }
}
