// The calls of a store on its directory.
ghost use Rattle.std.specs.Prelude.{IfOk};
ghost use Rattle.keel_base.specs.Name.{IsName};
ghost use Rattle.keel_disk.specs.declared.change.Change.{Change};
ghost use Rattle.keel_disk.specs.Told.{TellsAbsent, TellsRead, TellsSize, TellsListing, TellsRoom};
ghost use Rattle.keel_disk.specs.Listings.{IsListing};
ghost use Rattle.keel_disk.specs.Counts.{disk_fault, read_fault};
ghost use Rattle.keel_disk.specs.Seen.{Seen, Calls, IsQuiet, AreAtMost};

use crate::{DiskError, ReadError};
use keel_base::{Bytes, FileName, Listing};
use std::alloc::Global;

/// A directory of files. The clauses hold of devices that tell their state and of those that don't.
///
/// The same facts are said of each call, as `Calls` of one that changes the device and as `IsQuiet` of one that
/// reads. `step` says what a changing call leaves by its answer, and `same` that a reading call leaves the state.
/// `count` counts the changing calls that weren't answered `OutOfMemory`, after which the state is as before.
/// `cause`: a fault is answered only where the device counted one in this call, and is then the last one.
/// `simulated` and `arranged`: no call changes what the device is, nor what a driver arranged on it.
pub trait Disk: Drop {
    /// What the device shows.
    ghost seen: { Self → Seen };

    /// Makes the name that of a new empty file, also where it had one. The new name waits for `sync_dir`.
    /// After a fault it is done or not.
    fn create(&mut self, alloc: Global, name: FileName) -> Result<(), DiskError>
        requires { IsName name }
        ensures { Calls (seen self.old) (Change.Create name) result (seen self.new) };

    /// Adds bytes at the end of a file. `Plain` comes where no file has the name or a cut of it waits, and
    /// changes nothing. After another fault the file is spoilt and reads with some first ones of the bytes.
    fn append(&mut self, alloc: Global, name: FileName, bytes: &[u8]) -> Result<(), DiskError>
        ensures { Calls (seen self.old) (Change.Append name bytes.now) result (seen self.new) };

    /// Makes the bytes of a file firm, unless it is spoilt: then Ok changes nothing. `Plain` comes where no
    /// file has the name. After another fault the file is spoilt.
    fn sync(&mut self, alloc: Global, name: FileName) -> Result<(), DiskError>
        ensures { Calls (seen self.old) (Change.Sync name) result (seen self.new) };

    /// Gives a file another name, in place of a file that had it. The change waits for `sync_dir`. `Plain`
    /// comes where no file has the name, and changes nothing. After another fault it is done or not.
    fn rename(&mut self, alloc: Global, from: FileName, to: FileName) -> Result<(), DiskError>
        requires { IsName to }
        ensures { Calls (seen self.old) (Change.Rename from to) result (seen self.new) };

    /// Takes a name away, where it is there. The change waits for `sync_dir`. After a fault it is done or not.
    fn remove(&mut self, alloc: Global, name: FileName) -> Result<(), DiskError>
        ensures { Calls (seen self.old) (Change.Remove name) result (seen self.new) };

    /// Keeps the first `length` bytes of a file that is longer. The change waits for `sync_dir`, and no append
    /// is taken until then. `Plain` comes where no file has the name, and changes nothing. After another fault
    /// it is done or not.
    fn cut(&mut self, alloc: Global, name: FileName, length: u64) -> Result<(), DiskError>
        ensures { Calls (seen self.old) (Change.Cut name length) result (seen self.new) };

    /// Makes all waiting changes of names, and cuts, firm. After a fault some first ones of them are.
    fn sync_dir(&mut self, alloc: Global) -> Result<(), DiskError>
        ensures { Calls (seen self.old) Change.SyncDir result (seen self.new) };

    /// The bytes of a file from an offset on, as many as there are and at most `length`.
    fn read_at(
        &mut self,
        alloc: Global,
        name: FileName,
        offset: u64,
        length: u32,
    ) -> Result<Bytes, ReadError>
        ensures bytes { TellsRead name offset length (seen self.old).told result }
        ensures bound { IfOk result (AreAtMost length) }
        ensures absent { TellsAbsent name (seen self.old).told result }
        ensures quiet { IsQuiet (seen self.old) (read_fault result) (seen self.new) };

    /// How many bytes a file has.
    fn size(&mut self, alloc: Global, name: FileName) -> Result<u64, ReadError>
        ensures size { TellsSize name (seen self.old).told result }
        ensures absent { TellsAbsent name (seen self.old).told result }
        ensures quiet { IsQuiet (seen self.old) (read_fault result) (seen self.new) };

    /// The files with their sizes, in the order of the bytes of their printed names.
    fn list(&mut self, alloc: Global) -> Result<Listing, DiskError>
        ensures listing { IfOk result (TellsListing (seen self.old).told) }
        ensures order { IfOk result IsListing }
        ensures quiet { IsQuiet (seen self.old) (disk_fault result) (seen self.new) };

    /// The bytes for which there is room.
    fn free(&mut self, alloc: Global) -> Result<u64, DiskError>
        ensures room { IfOk result (TellsRoom (seen self.old).told) }
        ensures quiet { IsQuiet (seen self.old) (disk_fault result) (seen self.new) };
}
