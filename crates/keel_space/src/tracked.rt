// Tracked files with their running totals.
ghost use Rattle.std.specs.Prelude.{◌≡◌, ◌+◌, ◌<◌, ◌∷◌, ◌++◌, [], length, slice_set, remove, vec_len, vec_capacity};
ghost use Rattle.keel_space.specs.Tracked.{AreDistinct};
ghost use Rattle.keel_space.specs.State.{AreSums};

use crate::place::trash_size;
use keel_base::{Entry, FileName};
use std::alloc::Global;

// Files with the sums of all sizes and of those of trash.
#[derive(Debug, Drop)]
pub struct Tracked {
    pub files: Vec<Entry>,
    pub total: u128,
    pub trash: u128,
}

impl Tracked {
    pub fn new(alloc: Global) -> Tracked
        ensures items { result.files.items ≡ [] }
        ensures sums { AreSums result.files.items result.total result.trash }
        ensures capacity { vec_capacity result.files ≡ 0 }
    {
        Tracked {
            files: Vec::new(alloc),
            total: 0,
            trash: 0,
        }
    }

    // Adds a file at the end.
    pub fn push(&mut self, name: FileName, size: u64)
        requires room { vec_len self.old.files < vec_capacity self.old.files }
        requires sums { AreSums self.old.files.items self.old.total self.old.trash }
        requires distinct { AreDistinct (self.old.files.items ++ record { name = name; size = size } ∷ []) }
        ensures items { self.new.files.items ≡ self.old.files.items ++ record { name = name; size = size } ∷ [] }
        ensures sums { AreSums self.new.files.items self.new.total self.new.trash }
        ensures len { vec_len self.new.files ≡ vec_len self.old.files + 1 }
        ensures capacity { vec_capacity self.new.files ≡ vec_capacity self.old.files }
    {
        self.total += size as u128;
        self.trash += trash_size(name, size) as u128;
        self.files.push_reserved(Entry { name, size });
    }

    // Puts another file in the place of one.
    pub fn set(&mut self, place: usize, name: FileName, size: u64)
        requires within { place < length self.old.files.items }
        requires sums { AreSums self.old.files.items self.old.total self.old.trash }
        requires distinct { AreDistinct (slice_set self.old.files.items place (record { name = name; size = size })) }
        ensures items { self.new.files.items ≡ slice_set self.old.files.items place (record { name = name; size = size }) }
        ensures sums { AreSums self.new.files.items self.new.total self.new.trash }
        ensures len { vec_len self.new.files ≡ vec_len self.old.files }
        ensures capacity { vec_capacity self.new.files ≡ vec_capacity self.old.files }
    {
        let before = self.files[place];
        self.total = self.total - before.size as u128 + size as u128;
        self.trash = self.trash - trash_size(before.name, before.size) as u128
            + trash_size(name, size) as u128;
        self.files[place] = Entry { name, size };
    }

    // Takes a file away.
    pub fn remove(&mut self, place: usize)
        requires within { place < length self.old.files.items }
        requires sums { AreSums self.old.files.items self.old.total self.old.trash }
        requires distinct { AreDistinct (remove self.old.files.items place) }
        ensures items { self.new.files.items ≡ remove self.old.files.items place }
        ensures sums { AreSums self.new.files.items self.new.total self.new.trash }
        ensures len { vec_len self.new.files + 1 ≡ vec_len self.old.files }
        ensures capacity { vec_capacity self.new.files ≡ vec_capacity self.old.files }
    {
        let file = self.files.remove(place);
        self.total -= file.size as u128;
        self.trash -= trash_size(file.name, file.size) as u128;
    }
}
