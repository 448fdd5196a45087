// A list whose room is taken first.
ghost use Rattle.std.specs.Prelude.{◌≡◌, ◌+◌, ◌<◌, ◌≤◌, [], ◌∷◌, ◌++◌, OnOk, OnErr};

use crate::{OutOfMemory, Sequence};
use std::alloc::Global;
use std::marker::Model;

/// Elements in their order, with room for more: adding to that room can't fail. It is for what has to be noted
/// behind a call that can't be taken back. Contracts see the elements and how many more have room.
#[derive(Debug, Drop)]
pub struct ReservedList<T> {
    items: Vec<T>,
    spare: usize,
}

impl<T> Model for ReservedList<T> {
    ghost use Rattle.std.specs.Prelude.{◌+◌, ◌≤◌, vec_len, vec_capacity};
    ghost use Rattle.keel_base.specs.Reserving.{ReservedShown};

    ghost Value = { ReservedShown T };

    ghost view = { λ s. record { items = s.items.items; spare = s.spare } };

    ghost invariant = { λ s. vec_len s.items + s.spare ≤ vec_capacity s.items };
}

impl<T> ReservedList<T> {
    /// No element and no room. It takes no memory yet.
    pub fn new(alloc: Global) -> Self
        ensures items { result.items ≡ [] }
        ensures spare { result.spare ≡ 0 }
    {
        ReservedList {
            items: Vec::new(alloc),
            spare: 0,
        }
    }

    pub fn as_slice(&self) -> &[T]
        ensures { result.now ≡ self.now.items }
    {
        self.items.as_slice()
    }

    /// Takes memory until `n` more elements have room. On want of memory all stays as it was.
    pub fn reserve(&mut self, n: usize) -> Result<(), OutOfMemory>
        ensures items { self.new.items ≡ self.old.items }
        ensures ok { OnOk result (n ≤ self.new.spare) }
        ensures spare { self.old.spare ≤ self.new.spare }
        ensures err { OnErr result (self.new.spare ≡ self.old.spare) }
    {
        if self.spare < n {
            self.items.reserve(n)?;
            self.spare = n;
        }
        Ok(())
    }

    /// Adds an element at the end, where there is room.
    pub fn push_reserved(&mut self, item: T)
        requires { 0 < self.old.spare }
        ensures items { self.new.items ≡ self.old.items ++ item ∷ [] }
        ensures spare { self.new.spare + 1 ≡ self.old.spare }
    {
        self.spare -= 1;
        self.items.push_reserved(item);
    }

    /// The elements alone.
    pub fn into_sequence(self) -> Sequence<T>
        ensures { result ≡ self.items }
    {
        Sequence::from_vec(self.items)
    }
}
