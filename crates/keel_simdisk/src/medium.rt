// A device on which names and files go one to one.
ghost use Rattle.std.specs.Prelude.{◌≡◌, ◌+◌, ◌<◌, ◌↔◌, [], length, take, drop, option_map, is_some, unwrap_or, IfOk, OnOk, OnErr, MatchOption, IsTrue};
ghost use Rattle.keel_disk.specs.State.{directory_read};
ghost use Rattle.keel_disk.specs.Step.{done, failed};
ghost use Rattle.keel_disk.specs.Image.{restarted};
ghost use Rattle.keel_disk.specs.Sound.{IsLawful};
ghost use Rattle.keel_disk.specs.Listings.{IsListing};
ghost use Rattle.keel_simdisk.specs.Contents.{contents_of, used};
ghost use Rattle.keel_simdisk.specs.Crash.{image_left, IsImageLeft, IsPlainLeft};
ghost use Rattle.keel_simdisk.specs.Listings.{GivesSizes};

use crate::tree::Tree;
use keel_base::{Bytes, FileName, Listing, OutOfMemory};
use keel_disk::{Change, Pick};
use std::alloc::Global;
use std::marker::Model;

/// The state of a device, as calls and crashes can leave it.
#[derive(Drop)]
pub struct Medium {
    tree: Tree,
}

impl Model for Medium {
    ghost use Rattle.keel_disk.specs.State.{State};
    ghost use Rattle.keel_disk.specs.Sound.{IsSound};

    ghost Value = { State };

    ghost view = { λ m. m.tree };

    ghost invariant = { λ m. IsSound m.tree };
}

/// What a crash leaves, and whether that isn't forged.
#[derive(Drop)]
pub struct Restarted {
    pub medium: Medium,
    pub plain: bool,
}

impl Medium {
    pub fn new(alloc: Global) -> Medium
        ensures { result ≡ record { files = []; firm = []; waiting = [] } }
    {
        Medium {
            tree: Tree::new(alloc),
        }
    }

    /// Whether the device takes a call.
    pub fn takes(&self, change: &Change) -> bool
        ensures { result ≡ is_some (done change.now self.now) }
    {
        self.tree.takes(change)
    }

    /// Makes a call. One that the device doesn't take changes nothing.
    pub fn make(&mut self, alloc: Global, change: &Change) -> Result<(), OutOfMemory>
        requires { IsLawful change.now }
        ensures ok { OnOk result (self.new ≡ unwrap_or (done change.now self.old) self.old) }
        ensures err { OnErr result (self.new ≡ self.old) }
    {
        self.tree.make(alloc, change)
    }

    /// Leaves what a call leaves that fails and keeps so much.
    pub fn fail(&mut self, alloc: Global, change: &Change, keep: u64) -> Result<(), OutOfMemory>
        requires { IsLawful change.now }
        ensures ok { OnOk result (self.new ≡ failed change.now keep self.old) }
        ensures err { OnErr result (self.new ≡ self.old) }
    {
        self.tree.fail(alloc, change, keep)
    }

    /// The bytes of a file from an offset on, at most so many.
    pub fn read(
        &self,
        alloc: Global,
        name: FileName,
        offset: u64,
        length: u32,
    ) -> Result<Option<Bytes>, OutOfMemory>
        ensures { IfOk result (λ part. part ≡ option_map (λ all. take length (drop offset all)) (contents_of name self.now)) }
    {
        let Some(number) = self.tree.file_of(name) else {
            return Ok(None);
        };
        let all = self.tree.read(number);
        let start = (offset as usize).min(all.len());
        let rest = &all[start..];
        let count = (length as usize).min(rest.len());
        Ok(Some(Bytes::from_slice(alloc, &rest[..count])?))
    }

    /// How many bytes a file has.
    pub fn size(&self, name: FileName) -> Option<u64>
        ensures { result ≡ option_map length (contents_of name self.now) }
    {
        match self.tree.file_of(name) {
            None => None,
            Some(number) => Some(self.tree.read(number).len() as u64),
        }
    }

    /// The files with their sizes, in order.
    pub fn list(&self, alloc: Global) -> Result<Listing, OutOfMemory>
        ensures sizes { IfOk result (GivesSizes self.now.files (directory_read self.now)) }
        ensures order { IfOk result IsListing }
    {
        self.tree.list(alloc)
    }

    /// What the capacity leaves beside the bytes of all named files, and `None` where they are more.
    pub fn left(&self, capacity: u64) -> Option<u64>
        ensures { MatchOption result (capacity < used self.now) (λ left. used self.now + left ≡ capacity) }
    {
        self.tree.left(capacity)
    }

    /// What a crash leaves.
    pub fn restarted(&self, alloc: Global, pick: Pick) -> Result<Restarted, OutOfMemory>
        ensures image { IsImageLeft pick self.now }
        ensures medium { IfOk result (λ left. left.medium ≡ restarted (image_left pick self.now)) }
        ensures plain { IfOk result (λ left. IsTrue left.plain ↔ IsPlainLeft pick self.now) }
    {
        let crashed = self.tree.crashed(alloc, pick)?;
        Ok(Restarted {
            medium: Medium { tree: crashed.tree },
            plain: crashed.plain,
        })
    }
}
