// The tables of the store.
ghost use Rattle.std.specs.Prelude.{◌≡◌, List, None, IfOk, OnErr};
ghost use Rattle.keel_directory.specs.TableFiles.{TableFile as ATableFile};
ghost use Rattle.keel_levels.specs.Live.{AreOpened, entries_of, tables_of};
ghost use Rattle.keel_core.specs.Reads.{IsTaken};
ghost use Rattle.keel_core.specs.Tables.{IsOf, lives_of};

use keel_base::OutOfMemory;
use keel_edit::{Added, AddedList};
use keel_levels::Levels;
use std::alloc::Global;

/// The tables of the version, and from the first read on what is open of them.
#[derive(Drop)]
pub(crate) struct Tables {
    pub(crate) entries: AddedList,
    pub(crate) live: Option<Levels>,
    ghost same: { IsOf live entries },
}

impl Tables {
    /// Of these tables none is open. It takes no memory.
    pub(crate) fn new(entries: AddedList) -> Tables
        ensures entries { result.entries ≡ entries }
        ensures none { result.live ≡ None }
        ensures tables { tables_of (lives_of result.live result.entries) ≡ entries }
        ensures opened { (files : List ATableFile) → entries_of files ≡ entries → AreOpened (lives_of result.live result.entries) files }
    {
        Tables {
            entries,
            live: None,
        }
    }

    /// Takes the tables out to be read. Before the first read that takes memory.
    pub(crate) fn take(&mut self, alloc: Global) -> Result<Levels, OutOfMemory>
        ensures entries { self.new.entries ≡ self.old.entries }
        ensures ok { IfOk result (IsTaken (lives_of self.old.live self.old.entries) self.old.entries) }
        ensures err { OnErr result (lives_of self.new.live self.new.entries ≡ lives_of self.old.live self.old.entries) }
    {
        match self.live.take() {
            Some(levels) => Ok(levels),
            None => Levels::new(alloc, self.entries.as_slice()),
        }
    }

    /// Puts the tables that were taken out back, as they are open by now.
    pub(crate) fn put_back(&mut self, levels: Levels)
        requires { tables_of levels ≡ self.old.entries }
        ensures { lives_of self.new.live self.new.entries ≡ levels }
    {
        self.live = Some(levels);
    }

    /// A copy of their entries.
    pub(crate) fn copied(&self, alloc: Global) -> Result<AddedList, OutOfMemory>
        ensures { IfOk result (λ copies. copies ≡ tables_of (lives_of self.now.live self.now.entries)) }
    {
        copied(alloc, self.entries.as_slice())
    }
}

/// A copy of these entries.
pub(crate) fn copied(alloc: Global, entries: &[Added]) -> Result<AddedList, OutOfMemory>
    ensures { IfOk result (λ copies. copies ≡ entries.now) }
{
    let mut copies = AddedList::new(alloc);
    for entry in entries {
        copies.push(entry.copy(alloc)?)?;
    }
    Ok(copies)
}
