// Files, a firm directory, and operations that wait. The directory that reads see is kept beside them.
ghost use Rattle.std.specs.Prelude.{◌≡◌, ◌≤◌, ◌+◌, ◌<◌, ◌↔◌, [], length, drop, All, IfOk, OnOk, OnErr, MatchOption, IsTrue, vec_len};
ghost use Rattle.keel_disk.specs.State.{file_at, file_of, has_waiting_cut, directory_read, settled_through};
ghost use Rattle.keel_disk.specs.Step.{created, with_file, with_waiting, extended, synced, spoiled, unlinked_name, cut_file};
ghost use Rattle.keel_disk.specs.Image.{restarted};
ghost use Rattle.keel_disk.specs.Sound.{AreOwn, IsFile};
ghost use Rattle.keel_disk.specs.Listings.{IsListing};
ghost use Rattle.keel_simdisk.specs.Contents.{used};
ghost use Rattle.keel_simdisk.specs.Crash.{image_left, IsPlainLeft};
ghost use Rattle.keel_simdisk.specs.Listings.{GivesSizes};

use crate::crash::{copied, restart};
use crate::files::{cut_read_at, extend_at, extend_spoilt_at, shorten_all, spoil_at, sync_at};
use crate::listing::listed;
use crate::names::{find_name, firm_after, operate};
use keel_base::{Bytes, FileName, Listing, OutOfMemory};
use keel_disk::{File, Operation, Pick};
use std::alloc::Global;
use std::marker::Model;

/// The state of a device.
#[derive(Drop)]
pub struct Tree {
    files: Vec<File>,
    firm: Vec<(FileName, usize)>,
    waiting: Vec<Operation>,
    // The directory that reads see.
    names: Vec<(FileName, usize)>,
}

impl Model for Tree {
    ghost use Rattle.std.specs.Prelude.{◌≡◌};
    ghost use Rattle.keel_disk.specs.State.{State};
    ghost use Rattle.keel_disk.specs.Directory.{operated_all};

    ghost Value = { State };

    ghost view = { λ t. record { files = t.files.items; firm = t.firm.items; waiting = t.waiting.items } };

    ghost invariant = { λ t. t.names.items ≡ operated_all t.waiting.items t.firm.items };
}

/// What a crash leaves of a device, and whether that isn't forged.
#[derive(Drop)]
pub struct Crashed {
    pub tree: Tree,
    pub plain: bool,
}

fn has_cut(waiting: &[Operation], number: usize) -> bool
    ensures { result ≡ has_waiting_cut number waiting.now }
{
    for operation in waiting {
        if let Operation::Shorten { file, length: _ } = *operation {
            if file == number {
                return true;
            }
        }
    }
    false
}

fn drop_first(waiting: &mut Vec<Operation>, count: usize)
    requires { count ≤ vec_len waiting.old }
    ensures { waiting.new.items ≡ drop count waiting.old.items }
{
    for _i in 0..count {
        let _ = waiting.remove(0);
    }
}

impl Tree {
    pub fn new(alloc: Global) -> Tree
        ensures { result ≡ record { files = []; firm = []; waiting = [] } }
    {
        Tree {
            files: Vec::new(alloc),
            firm: Vec::new(alloc),
            waiting: Vec::new(alloc),
            names: Vec::new(alloc),
        }
    }

    /// The number of a file.
    pub fn file_of(&self, name: FileName) -> Option<usize>
        ensures { result ≡ file_of name self.now }
    {
        find_name(&self.names, name)
    }

    /// Whether a cut of the file waits.
    pub fn has_cut(&self, number: usize) -> bool
        ensures { result ≡ has_waiting_cut number self.now.waiting }
    {
        has_cut(&self.waiting, number)
    }

    /// How many operations wait.
    pub fn waits(&self) -> usize
        ensures { result ≡ length self.now.waiting }
    {
        self.waiting.len()
    }

    /// The bytes of a file that a read sees.
    pub fn read(&self, number: usize) -> &[u8]
        ensures { result.now ≡ (file_at number self.now.files).read }
    {
        if number < self.files.len() {
            let file = &self.files[number];
            file.read.as_slice()
        } else {
            &[]
        }
    }

    /// The files with their sizes, in order.
    pub fn list(&self, alloc: Global) -> Result<Listing, OutOfMemory>
        requires { AreOwn (length self.now.files) (directory_read self.now) }
        ensures sizes { IfOk result (GivesSizes self.now.files (directory_read self.now)) }
        ensures order { IfOk result IsListing }
    {
        listed(alloc, &self.files, &self.names)
    }

    /// What the capacity leaves beside the bytes of all named files, and `None` where they are more.
    pub fn left(&self, capacity: u64) -> Option<u64>
        ensures { MatchOption result (capacity < used self.now) (λ left. used self.now + left ≡ capacity) }
    {
        let mut left = capacity;
        for entry in &self.names {
            let size = self.read(entry.1).len() as u64;
            if left < size {
                return None;
            }
            left -= size;
        }
        Some(left)
    }

    /// Adds bytes, of which the first `kept` are read.
    pub fn extend(&mut self, number: usize, bytes: &[u8], kept: usize) -> Result<(), OutOfMemory>
        requires { kept ≤ length bytes.now }
        ensures ok { OnOk result (self.new ≡ with_file number (extended bytes.now kept) self.old) }
        ensures err { OnErr result (self.new ≡ self.old) }
    {
        extend_at(&mut self.files, number, bytes, kept)
    }

    /// The same, and the file is spoilt.
    pub fn extend_spoilt(
        &mut self,
        number: usize,
        bytes: &[u8],
        kept: usize,
    ) -> Result<(), OutOfMemory>
        requires { kept ≤ length bytes.now }
        ensures ok { OnOk result (self.new ≡ with_file number (λ file. spoiled (extended bytes.now kept file)) self.old) }
        ensures err { OnErr result (self.new ≡ self.old) }
    {
        extend_spoilt_at(&mut self.files, number, bytes, kept)
    }

    /// Makes a file firm, unless it is spoilt.
    pub fn sync(&mut self, number: usize)
        ensures { self.new ≡ with_file number synced self.old }
    {
        sync_at(&mut self.files, number);
    }

    /// Makes a file one that no sync makes firm.
    pub fn spoil(&mut self, number: usize)
        ensures { self.new ≡ with_file number spoiled self.old }
    {
        spoil_at(&mut self.files, number);
    }

    /// One operation more waits.
    pub fn wait(&mut self, operation: Operation) -> Result<(), OutOfMemory>
        ensures ok { OnOk result (self.new ≡ with_waiting operation self.old) }
        ensures err { OnErr result (self.new ≡ self.old) }
    {
        let waits = self.waiting.len();
        if let Err(_) = self.waiting.push(operation) {
            return Err(OutOfMemory);
        }
        if let Err(error) = operate(&mut self.names, operation) {
            self.waiting.truncate(waits);
            return Err(error);
        }
        Ok(())
    }

    /// A new file, and its name waits.
    pub fn create(&mut self, alloc: Global, name: FileName) -> Result<(), OutOfMemory>
        ensures ok { OnOk result (self.new ≡ created name self.old) }
        ensures err { OnErr result (self.new ≡ self.old) }
    {
        let number = self.files.len();
        self.files.push(File {
            meant: Bytes::new(alloc),
            firm: 0,
            spoilt: false,
            read: Bytes::new(alloc),
        })?;
        if let Err(error) = self.wait(Operation::Link { name, file: number }) {
            self.files.truncate(number);
            return Err(error);
        }
        Ok(())
    }

    /// Removes a name, where it is there.
    pub fn unlink(&mut self, name: FileName) -> Result<(), OutOfMemory>
        ensures ok { OnOk result (self.new ≡ unlinked_name name self.old) }
        ensures err { OnErr result (self.new ≡ self.old) }
    {
        if let Some(_) = self.file_of(name) {
            return self.wait(Operation::Unlink { name });
        }
        Ok(())
    }

    /// Cuts a file that is longer.
    pub fn shorten(&mut self, number: usize, length: usize) -> Result<(), OutOfMemory>
        ensures ok { OnOk result (self.new ≡ cut_file number length self.old) }
        ensures err { OnErr result (self.new ≡ self.old) }
    {
        if self.read(number).len() <= length {
            return Ok(());
        }
        self.wait(Operation::Shorten {
            file: number,
            length,
        })?;
        cut_read_at(&mut self.files, number, length);
        Ok(())
    }

    /// Makes the first operations firm, or all where there are fewer.
    pub fn settle(&mut self, alloc: Global, first: u64) -> Result<(), OutOfMemory>
        ensures ok { OnOk result (self.new ≡ settled_through first self.old) }
        ensures err { OnErr result (self.new ≡ self.old) }
    {
        let count = (first as usize).min(self.waiting.len());
        let firm = firm_after(alloc, &self.firm, &self.waiting[..count])?;
        shorten_all(&mut self.files, &self.waiting[..count]);
        self.firm = firm;
        drop_first(&mut self.waiting, count);
        Ok(())
    }

    /// What a crash leaves.
    pub fn crashed(&self, alloc: Global, pick: Pick) -> Result<Crashed, OutOfMemory>
        requires { All IsFile self.now.files }
        ensures tree { IfOk result (λ left. left.tree ≡ restarted (image_left pick self.now)) }
        ensures plain { IfOk result (λ left. IsTrue left.plain ↔ IsPlainLeft pick self.now) }
    {
        let count = (pick.dirops as usize).min(self.waiting.len());
        let directory = firm_after(alloc, &self.firm, &self.waiting[..count])?;
        let mut files = copied(alloc, &self.files)?;
        shorten_all(&mut files, &self.waiting[..count]);
        let made = restart(alloc, &files, &directory, pick)?;
        let names = Vec::from_slice(alloc, &made.names)?;
        let tree = Tree {
            files: made.files,
            firm: made.names,
            waiting: Vec::new(alloc),
            names,
        };
        Ok(Crashed {
            tree,
            plain: made.plain,
        })
    }
}
