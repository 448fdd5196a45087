// The files that stay open.
ghost use Rattle.std.specs.Prelude.{◌≡◌, ◌<◌, [], ◌∷◌, ◌++◌, true, false, take, All, filter, OnOk, IfSome, IfNone, IsSomeAnd, slice_get, vec_len, vec_capacity};
ghost use Rattle.std.specs.Io.KnownBytes.{Appends};
ghost use Rattle.keel_base.specs.Name.{name_eq};
ghost use Rattle.keel_dirdisk.specs.Opened.{IsOpen, is_unsettled, renamed, with_name, without};

use crate::stop::Stop;
use keel_base::{FileName, OutOfMemory, same_name};
use std::alloc::Global;
use std::fs::OpenFile;
use std::io::Write;

// How many files stay open, but for those that can't be closed yet.
const MOST_OPEN: usize = 16;

/// An open file. Until its bytes are synced it stays open: the host may tell of a failed write only here.
#[derive(Drop)]
pub struct Held<F: Drop> {
    pub name: FileName,
    pub file: F,
    /// It took bytes since it was synced.
    pub unsynced: bool,
    /// It was cut, and the cut isn't firm.
    pub cut: bool,
}

impl<F: Drop> Held<F> {
    /// Adds bytes at the end. Behind a failure some first ones of them may be there.
    pub fn append(&mut self, bytes: &[u8]) -> Result<(), Stop>
    where
        F: Write,
        ensures written { OnOk result (Appends (F.contents self.old.file) (F.contents self.new.file) bytes.now) }
        ensures unsynced { self.new.unsynced ≡ true }
        ensures name { self.new.name ≡ self.old.name }
    {
        self.unsynced = true;
        self.file.write_all(bytes)?;
        Ok(())
    }

    // Makes a cut firm.
    fn sync_cut(&mut self) -> Result<(), Stop>
    where
        F: OpenFile,
        ensures ok { OnOk result (self.new.cut ≡ false) }
        ensures name { self.new.name ≡ self.old.name }
    {
        if self.cut {
            self.file.sync_all()?;
            self.cut = false;
            self.unsynced = false;
        }
        Ok(())
    }
}

/// The open files. The one that was used last stands at the end.
#[derive(Drop)]
pub struct HeldFiles<F: Drop> {
    pub files: Vec<Held<F>>,
}

impl<F: Drop> HeldFiles<F> {
    pub fn new(alloc: Global) -> Self {
        HeldFiles {
            files: Vec::new(alloc),
        }
    }

    // The place of a file, where it is open.
    fn position(&self, name: FileName) -> Option<usize>
        ensures found { IfSome result (IsOpen name self.now.files.items) }
        ensures first { IfSome result (λ place. All (λ held. name_eq held.name name ≡ false) (take place self.now.files.items)) }
        ensures none { IfNone result (All (λ held. name_eq held.name name ≡ false) self.now.files.items) }
    {
        self.files
            .iter()
            .position(|held| same_name(held.name, name))
    }

    /// The place of a file, where it is open: the last one from now on.
    pub fn find(&mut self, name: FileName) -> Option<usize>
        ensures found { IfSome result (IsOpen name self.new.files.items) }
        ensures none { IfNone result (All (λ held. name_eq held.name name ≡ false) self.old.files.items) }
    {
        let place = self.position(name)?;
        let held = self.files.remove(place);
        let last = self.files.len();
        self.files.push_reserved(held);
        Some(last)
    }

    // The place of a file that loses nothing if it is closed: the one unused longest.
    fn first_settled(&self) -> Option<usize>
        ensures { IfSome result (λ place. IsSomeAnd (slice_get self.now.files.items place) (λ held. is_unsettled held ≡ false)) }
    {
        self.files
            .iter()
            .position(|held| !held.unsynced && !held.cut)
    }

    /// Makes room for one file more. Where there are many, those unused longest are closed, but for those that
    /// aren't durable yet.
    pub fn make_room(&mut self) -> Result<(), OutOfMemory>
        ensures room { OnOk result (vec_len self.new.files < vec_capacity self.new.files) }
        ensures kept { filter is_unsettled self.new.files.items ≡ filter is_unsettled self.old.files.items }
    {
        while self.files.len() >= MOST_OPEN {
            let Some(place) = self.first_settled() else {
                break;
            };
            let _ = self.files.remove(place);
        }
        self.files.reserve(1)?;
        Ok(())
    }

    /// Adds an open file, at the place that is answered.
    pub fn add(&mut self, name: FileName, file: F) -> usize
        requires { vec_len self.old.files < vec_capacity self.old.files }
        ensures place { result ≡ vec_len self.old.files }
        ensures open { IsOpen name self.new.files.items result }
        ensures files { self.new.files.items ≡ self.old.files.items ++ record { name = name; file = file; unsynced = false; cut = false } ∷ [] }
    {
        let place = self.files.len();
        self.files.push_reserved(Held {
            name,
            file,
            unsynced: false,
            cut: false,
        });
        place
    }

    /// Closes a file, where it is open.
    pub fn close(&mut self, name: FileName)
        ensures files { self.new.files.items ≡ without name self.old.files.items }
        ensures room { vec_len self.old.files < vec_capacity self.old.files → vec_len self.new.files < vec_capacity self.new.files }
    {
        self.files.retain(|held| !same_name(held.name, name));
    }

    /// A file has another name from now on, in place of one that had it.
    pub fn rename(&mut self, from: FileName, to: FileName)
        ensures { self.new.files.items ≡ renamed from to self.old.files.items }
    {
        if same_name(from, to) {
            return;
        }
        self.close(to);
        self.give_name(from, to);
    }

    // A file has another name from now on.
    fn give_name(&mut self, from: FileName, to: FileName)
        ensures { self.new.files.items ≡ with_name from to self.old.files.items }
    {
        if let Some(place) = self.position(from) {
            self.files[place].name = to;
        }
    }

    /// Makes all cuts firm.
    pub fn sync_cuts(&mut self) -> Result<(), Stop>
    where
        F: OpenFile,
        ensures { OnOk result (All (λ held. held.cut ≡ false) self.new.files.items) }
    {
        for held in self.files.iter_mut() {
            held.sync_cut()?;
        }
        Ok(())
    }
}
