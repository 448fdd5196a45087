// The calls of a device on a folder of the host, with the files that stay open.
ghost use Rattle.std.specs.Prelude.{◌≡◌, ℕ, ◌<◌, ◌≤◌, ◌++◌, ◌∷◌, true, false, length, All, filter, OnOk, OnErr, IfOk, IfSome, IsSome, IsSomeAnd, slice_get, string_bytes, vec_len};
ghost use Rattle.keel_base.specs.Name.{printed};
ghost use Rattle.keel_dirdisk.specs.Opened.{IsOpen, IsSynced, is_unsettled, renamed, without};
ghost use Rattle.keel_name.specs.Sorting.{AreNames};
ghost use Rattle.keel_dirdisk.specs.Taking.{TakesFirst};

use crate::held::HeldFiles;
use crate::host::{lock_at, make_at, open_at, remove_at, rename_at, size_at};
use crate::listing::files_in;
use crate::stop::Stop;
use keel_base::{Bytes, Entry, FileName};
use keel_name::print;
use std::alloc::Global;
use std::fs::{File, OpenFile};
use std::io::{Read, Seek, SeekFrom};
use std::rt::Files;

// How many bytes of a file are read at once.
const PIECE: usize = 4096;

// Reads what is left of a file, or so many bytes of it.
fn take_some<F: Read>(alloc: Global, file: &mut F, most: usize) -> Result<Bytes, Stop>
    ensures { IfOk result (TakesFirst (F.remaining file.old) (F.remaining file.new) most) }
{
    let mut bytes = Bytes::new(alloc);
    let mut buffer = [0; PIECE];
    'reading: while bytes.len() < most {
        let room = (most - bytes.len()).min(PIECE);
        let count = file.read(&mut buffer[..room])?;
        if count == 0 {
            return Ok(bytes);
        }
        bytes.extend(&buffer[..count])?;
    }
    Ok(bytes)
}

// Reads a file from an offset on, to its end or so many bytes.
fn read_from<F: Read + Seek>(
    alloc: Global,
    file: &mut F,
    offset: u64,
    most: usize,
) -> Result<Bytes, Stop>
    ensures { IfOk result (λ bytes. length bytes ≤ most) }
{
    // No file is that long, and the host takes no such offset.
    if offset > i64::MAX as u64 {
        return Ok(Bytes::new(alloc));
    }
    file.seek(SeekFrom::Start(offset))?;
    take_some(alloc, file, most)
}

/// A folder, of which nothing is opened before the first call. That call takes it for this device alone.
#[derive(Drop)]
pub struct Folder<'a, R: Files<File = File> + AllocGlobal> {
    rt: &'a R,
    path: String,
    held: HeldFiles<File>,
    // the folder itself, which is locked as long as it is open
    own: Option<File>,
}

impl<'a, R: Files<File = File> + AllocGlobal> Folder<'a, R> {
    pub fn new(rt: &'a R, path: String) -> Self {
        Folder {
            rt,
            path,
            held: HeldFiles::new(rt.alloc()),
            own: None,
        }
    }

    /// Takes the folder for this device alone, where it hasn't yet. While another device has it, each call fails so.
    pub fn enter(&mut self) -> Result<(), Stop>
        ensures locked { OnOk result (IsSome self.new.own) }
        ensures held { self.new.held ≡ self.old.held }
    {
        if self.own.is_none() {
            self.own = Some(lock_at(self.rt, self.path.as_str())?);
        }
        Ok(())
    }

    // The path of a file. An empty path names no folder.
    fn path_of(&self, alloc: Global, name: FileName) -> Result<String, Stop>
        ensures { IfOk result (λ path. string_bytes path ≡ string_bytes self.now.path ++ 47 ∷ printed name) }
    {
        if self.path.is_empty() {
            return Err(Stop::Host);
        }
        let spelling = print(alloc, name)?;
        let Ok(text) = str::from_utf8(spelling.as_slice()) else {
            return Err(Stop::Host);
        };
        let mut path = String::from_str(alloc, self.path.as_str())?;
        path.push('/')?;
        path.push_str(text)?;
        Ok(path)
    }

    // The place of an open file, which is opened now where it wasn't. `None` comes where the name is absent.
    fn opened(&mut self, alloc: Global, name: FileName) -> Result<Option<usize>, Stop>
        ensures within { IfOk result (λ found. IfSome found (λ place. place < vec_len self.new.held.files)) }
        ensures named { IfOk result (λ found. IfSome found (IsOpen name self.new.held.files.items)) }
        ensures locked { OnOk result (IsSome self.new.own) }
    {
        self.enter()?;
        if let Some(place) = self.held.find(name) {
            return Ok(Some(place));
        }
        let path = self.path_of(alloc, name)?;
        self.held.make_room()?;
        let Some(file) = open_at(self.rt, path.as_str())? else {
            return Ok(None);
        };
        Ok(Some(self.held.add(name, file)))
    }

    /// Makes a new empty file, in place of one that had the name, and says how many bytes that one had.
    pub fn create(&mut self, alloc: Global, name: FileName) -> Result<u64, Stop>
        ensures open { OnOk result ((place : ℕ) × IsOpen name self.new.held.files.items place) }
        ensures kept { OnErr result (filter is_unsettled self.new.held.files.items ≡ filter is_unsettled self.old.held.files.items) }
        ensures locked { OnOk result (IsSome self.new.own) }
    {
        self.enter()?;
        let path = self.path_of(alloc, name)?;
        let mut spare = path.clone()?;
        spare.push_str(".new")?;
        self.held.make_room()?;
        let (file, freed) = make_at(self.rt, path.as_str(), spare.as_str())?;
        self.held.close(name);
        self.held.add(name, file);
        Ok(freed)
    }

    /// The place of an open file that takes bytes. One that is absent and one whose cut isn't firm take none.
    pub fn growing(&mut self, alloc: Global, name: FileName) -> Result<usize, Stop>
        ensures within { IfOk result (λ place. place < vec_len self.new.held.files) }
        ensures named { IfOk result (IsOpen name self.new.held.files.items) }
        ensures uncut { IfOk result (λ place. IsSomeAnd (slice_get self.new.held.files.items place) (λ held. held.cut ≡ false)) }
        ensures locked { OnOk result (IsSome self.new.own) }
    {
        let Some(place) = self.opened(alloc, name)? else {
            return Err(Stop::Host);
        };
        if self.held.files[place].cut {
            return Err(Stop::Host);
        }
        Ok(place)
    }

    /// Adds bytes at the end of an open file. Behind a failure some first ones of them may be there.
    pub fn append(&mut self, place: usize, bytes: &[u8]) -> Result<(), Stop>
        requires { place < vec_len self.old.held.files }
        ensures unsynced { IsSomeAnd (slice_get self.new.held.files.items place) (λ held. held.unsynced ≡ true) }
        ensures locked { self.new.own ≡ self.old.own }
    {
        let held = &mut self.held.files[place];
        held.append(bytes)
    }

    /// Makes the bytes of a file durable, by the descriptor that took them.
    pub fn sync(&mut self, alloc: Global, name: FileName) -> Result<(), Stop>
        ensures synced { OnOk result ((place : ℕ) × IsSynced name self.new.held.files.items place) }
        ensures locked { OnOk result (IsSome self.new.own) }
    {
        let Some(place) = self.opened(alloc, name)? else {
            return Err(Stop::Host);
        };
        let held = &mut self.held.files[place];
        held.file.sync_data()?;
        held.unsynced = false;
        Ok(())
    }

    /// Gives a file another name, in place of a file that had it, and says how many bytes that one had. Behind a
    /// failure each open file stays open under its name.
    pub fn rename(&mut self, alloc: Global, from: FileName, to: FileName) -> Result<u64, Stop>
        ensures ok { OnOk result (self.new.held.files.items ≡ renamed from to self.old.held.files.items) }
        ensures err { OnErr result (self.new.held ≡ self.old.held) }
        ensures locked { OnOk result (IsSome self.new.own) }
    {
        self.enter()?;
        let source = self.path_of(alloc, from)?;
        let target = self.path_of(alloc, to)?;
        let freed = rename_at(self.rt, source.as_str(), target.as_str())?;
        self.held.rename(from, to);
        Ok(freed)
    }

    /// Takes a file away, where it is there, and says how many bytes it had. It is closed only behind that, since its
    /// bytes may wait for a sync.
    pub fn remove(&mut self, alloc: Global, name: FileName) -> Result<u64, Stop>
        ensures ok { OnOk result (self.new.held.files.items ≡ without name self.old.held.files.items) }
        ensures err { OnErr result (self.new.held ≡ self.old.held) }
        ensures locked { OnOk result (IsSome self.new.own) }
    {
        self.enter()?;
        let path = self.path_of(alloc, name)?;
        let freed = remove_at(self.rt, path.as_str())?;
        self.held.close(name);
        Ok(freed)
    }

    /// Keeps the first bytes of a file that is longer, and says how many others it had.
    pub fn cut(&mut self, alloc: Global, name: FileName, length: u64) -> Result<u64, Stop>
        ensures { OnOk result (IsSome self.new.own) }
    {
        let Some(place) = self.opened(alloc, name)? else {
            return Err(Stop::Host);
        };
        let held = &mut self.held.files[place];
        let had = held.file.metadata()?.len();
        if had <= length {
            return Ok(0);
        }
        held.cut = true;
        held.file.set_len(length)?;
        Ok(had - length)
    }

    /// Makes the changes of names durable, and then the cuts.
    pub fn sync_all(&mut self) -> Result<(), Stop>
        ensures cuts { OnOk result (All (λ held. held.cut ≡ false) self.new.held.files.items) }
        ensures locked { OnOk result (IsSome self.new.own) }
    {
        self.enter()?;
        let Some(own) = &self.own else {
            return Err(Stop::Host);
        };
        own.sync_all()?;
        self.held.sync_cuts()
    }

    /// The bytes of a file from an offset on, at most so many. `None` comes where the name is absent.
    pub fn read_at(
        &mut self,
        alloc: Global,
        name: FileName,
        offset: u64,
        most: u32,
    ) -> Result<Option<Bytes>, Stop>
        ensures few { IfOk result (λ found. IfSome found (λ bytes. length bytes ≤ most)) }
        ensures locked { OnOk result (IsSome self.new.own) }
    {
        let Some(at) = self.opened(alloc, name)? else {
            return Ok(None);
        };
        let held = &mut self.held.files[at];
        Ok(Some(read_from(alloc, &mut held.file, offset, most as usize)?))
    }

    /// How many bytes a file has. `None` comes where the name is absent.
    pub fn size(&mut self, alloc: Global, name: FileName) -> Result<Option<u64>, Stop>
        ensures { OnOk result (IsSome self.new.own) }
    {
        self.enter()?;
        if let Some(place) = self.held.find(name) {
            return Ok(Some(self.held.files[place].file.metadata()?.len()));
        }
        let path = self.path_of(alloc, name)?;
        size_at(self.rt, path.as_str())
    }

    /// The store's files.
    pub fn files(&mut self, alloc: Global) -> Result<Vec<Entry>, Stop>
        ensures names { IfOk result (λ files. AreNames files.items) }
        ensures locked { OnOk result (IsSome self.new.own) }
        ensures held { self.new.held ≡ self.old.held }
    {
        self.enter()?;
        files_in(self.rt, alloc, self.path.as_str())
    }
}
