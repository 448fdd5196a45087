// Tracked files, and what is reserved for others.
ghost use Rattle.std.specs.Prelude.{◌≡◌, ◌≢◌, ℕ, ◌+◌, ◌-◌, ◌<◌, ◌≤◌, ◌^◌, ◌∷◌, ◌++◌, [], Some, None, OnOk, OnErr, IsSome, is_some};
ghost use Rattle.keel_space.specs.Tracked.{size_of, resized, renamed, without, total_of, trash_of, AreDistinct};
ghost use Rattle.keel_space.specs.Formulas.{is_reached, has_room};

use crate::place::{find, place_of};
use crate::tracked::Tracked;
use keel_base::{FileName, OutOfMemory};
use std::alloc::Global;
use std::marker::Model;

/// The files that count against the space limit, in bytes, and the reservations of the two compactions.
#[derive(Debug, Drop)]
pub struct Space {
    tracked: Tracked,
    first: Option<u128>,
    second: Option<u128>,
    limit: u64,
    buffer: u64,
}

impl Model for Space {
    ghost use Rattle.std.specs.Prelude.{◌-◌, vec_len, vec_capacity};
    ghost use Rattle.keel_space.specs.State.{SpaceState, AreSums, IsLight};

    ghost Value = { SpaceState };

    ghost view = { λ s. record {
      tracked = s.tracked.files.items;
      first = s.first;
      second = s.second;
      limit = s.limit;
      buffer = s.buffer;
      spare = vec_capacity s.tracked.files - vec_len s.tracked.files;
    } };

    ghost invariant = { λ s. AreSums s.tracked.files.items s.tracked.total s.tracked.trash × IsLight s.first × IsLight s.second };
}

impl Space {
    ghost use Rattle.keel_space.specs.State.{empty, reservation, with_reservation, reserved_of};

    /// Nothing is tracked. A limit of 0 is none; `buffer` is what a compaction must leave free below the limit.
    pub fn new(alloc: Global, limit: u64, buffer: u64) -> Space
        ensures { result ≡ empty limit buffer }
    {
        Space {
            tracked: Tracked::new(alloc),
            first: None,
            second: None,
            limit,
            buffer,
        }
    }

    /// Changes the limit.
    pub fn set_limit(&mut self, limit: u64)
        ensures { self.new ≡ record self.old { limit = limit } }
    {
        self.limit = limit;
    }

    /// Makes room for `n` names more. Refused memory leaves all as it was.
    pub fn grow(&mut self, n: usize) -> Result<(), OutOfMemory>
        ensures ok { OnOk result (n ≤ self.new.spare) }
        ensures no_less { self.old.spare ≤ self.new.spare }
        ensures same { self.new ≡ record self.old { spare = self.new.spare } }
        ensures err { OnErr result (self.new ≡ self.old) }
    {
        self.tracked.files.reserve(n)?;
        Ok(())
    }

    /// Tracks a file of this size.
    pub fn track(&mut self, name: FileName, size: u64)
        requires untracked { size_of name self.old.tracked ≡ None }
        requires room { 0 < self.old.spare }
        ensures { self.new ≡ record self.old { tracked = self.old.tracked ++ record { name = name; size = size } ∷ []; spare = self.old.spare - 1 } }
    {
        self.tracked.push(name, size);
    }

    /// A tracked file has another name from now on.
    pub fn move_name(&mut self, from: FileName, to: FileName)
        requires tracked { IsSome (size_of from self.old.tracked) }
        requires untracked { size_of to self.old.tracked ≡ None }
        ensures { self.new ≡ record self.old { tracked = renamed from to self.old.tracked } }
    {
        let place = place_of(self.tracked.files.as_slice(), from);
        let size = self.tracked.files[place].size;
        self.tracked.set(place, to, size);
    }

    /// A tracked file has this size from now on.
    pub fn shrink(&mut self, name: FileName, size: u64)
        requires { IsSome (size_of name self.old.tracked) }
        ensures { self.new ≡ record self.old { tracked = resized name size self.old.tracked } }
    {
        let place = place_of(self.tracked.files.as_slice(), name);
        self.tracked.set(place, name, size);
    }

    /// A tracked file is tracked no more.
    pub fn untrack(&mut self, name: FileName)
        requires { IsSome (size_of name self.old.tracked) }
        ensures { self.new ≡ record self.old { tracked = without name self.old.tracked; spare = self.old.spare + 1 } }
    {
        let place = place_of(self.tracked.files.as_slice(), name);
        self.tracked.remove(place);
    }

    /// Whether a name is tracked.
    pub fn tracks(&self, name: FileName) -> bool
        ensures tracked { result ≡ is_some (size_of name self.now.tracked) }
        ensures distinct { AreDistinct self.now.tracked }
    {
        find(self.tracked.files.as_slice(), name).is_some()
    }

    /// The tracked size of a name; none exactly where the name isn't tracked.
    pub fn size(&self, name: FileName) -> Option<u64>
        ensures { result ≡ size_of name self.now.tracked }
    {
        match find(self.tracked.files.as_slice(), name) {
            Some(place) => Some(self.tracked.files[place].size),
            None => None,
        }
    }

    /// The limit, 0 for none.
    pub fn limit(&self) -> u64
        ensures { result ≡ self.now.limit }
    {
        self.limit
    }

    /// What a compaction must leave free below the limit.
    pub fn buffer(&self) -> u64
        ensures { result ≡ self.now.buffer }
    {
        self.buffer
    }

    /// The bytes of all tracked files.
    pub fn total(&self) -> u128
        ensures { result ≡ total_of self.now.tracked }
    {
        self.tracked.total
    }

    /// The bytes of the tracked files that wait to be deleted.
    pub fn trash(&self) -> u128
        ensures { result ≡ trash_of self.now.tracked }
    {
        self.tracked.trash
    }

    /// The bytes of the inputs of the running compactions.
    pub fn reserved(&self) -> u128
        ensures { result ≡ reserved_of self.now }
    {
        self.first.unwrap_or(0) + self.second.unwrap_or(0)
    }

    /// Whether there is a limit and the tracked files take as much or more.
    pub fn reached(&self) -> bool
        ensures { result ≡ is_reached self.now.limit (total_of self.now.tracked) }
    {
        self.limit != 0 && self.tracked.total >= self.limit as u128
    }

    /// Whether a compaction with so many bytes of inputs may start: its outputs may take as much again.
    pub fn room(&self, inputs: u128) -> bool
        ensures { result ≡ has_room self.now.limit self.now.buffer (reserved_of self.now) (total_of self.now.tracked) inputs }
    {
        if self.limit == 0 {
            return true;
        }
        let wanted = self
            .reserved()
            .saturating_add(inputs)
            .saturating_add(self.buffer as u128)
            .saturating_add(self.tracked.total);
        wanted <= self.limit as u128
    }

    /// A compaction in slot 0 or 1 begins.
    pub fn reserve(&mut self, slot: u8, inputs: u128)
        requires is_slot { slot < 2 }
        requires free { reservation slot self.old ≡ None }
        requires light { inputs < 2 ^ 127 }
        ensures { self.new ≡ with_reservation slot (Some inputs) self.old }
    {
        if slot == 0 {
            self.first = Some(inputs);
        } else {
            self.second = Some(inputs);
        }
    }

    /// A compaction in slot 0 or 1 has ended, in any way.
    pub fn release(&mut self, slot: u8)
        requires { slot < 2 }
        ensures { self.new ≡ with_reservation slot None self.old }
    {
        if slot == 0 {
            self.first = None;
        } else {
            self.second = None;
        }
    }
}
