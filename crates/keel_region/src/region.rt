// Bytes whose room is taken first.
ghost use Rattle.std.specs.Prelude.{◌≡◌, ◌+◌, ◌<◌, ◌≤◌, ◌^◌, [], ◌++◌, length, OnOk, OnErr};
ghost use Rattle.keel_region.specs.Spans.{bytes_at, IsWithin};

use crate::span::Span;
use keel_base::OutOfMemory;
use std::alloc::Global;
use std::marker::Model;

/// Bytes behind one another, with room for more.
#[derive(Debug, Drop)]
pub struct Region {
    held: Vec<u8>,
    spare: usize,
}

impl Model for Region {
    ghost use Rattle.std.specs.Prelude.{◌+◌, ◌≤◌, vec_len, vec_capacity};
    ghost use Rattle.keel_region.specs.Shown.{RegionShown};

    ghost Value = { RegionShown };

    ghost view = { λ r. record { bytes = r.held.items; spare = r.spare } };

    ghost invariant = { λ r. vec_len r.held + r.spare ≤ vec_capacity r.held };
}

impl Region {
    /// No bytes and no room. It takes no memory yet.
    pub fn new(alloc: Global) -> Region
        ensures bytes { result.bytes ≡ [] }
        ensures spare { result.spare ≡ 0 }
    {
        Region {
            held: Vec::new(alloc),
            spare: 0,
        }
    }

    /// Takes memory until `n` bytes have room. On want of memory all stays as it was.
    pub fn reserve(&mut self, n: usize) -> Result<(), OutOfMemory>
        ensures bytes { self.new.bytes ≡ self.old.bytes }
        ensures ok { OnOk result (n ≤ self.new.spare) }
        ensures spare { self.old.spare ≤ self.new.spare }
        ensures err { OnErr result (self.new.spare ≡ self.old.spare) }
    {
        if self.spare < n {
            self.held.reserve(n)?;
            self.spare = n;
        }
        Ok(())
    }

    /// Puts the bytes behind those that are there.
    pub fn place(&mut self, bytes: &[u8]) -> Span
        requires { length bytes.now ≤ self.old.spare }
        ensures bytes { self.new.bytes ≡ self.old.bytes ++ bytes.now }
        ensures start { result.start ≡ length self.old.bytes }
        ensures length { result.length ≡ length bytes.now }
        ensures spare { self.new.spare + length bytes.now ≡ self.old.spare }
    {
        let start = self.held.len();
        // There is room, so that it can't be refused.
        let _ = self.held.extend_from_slice(bytes);
        self.spare -= bytes.len();
        Span {
            start,
            length: bytes.len(),
        }
    }

    /// What was placed at the span.
    pub fn bytes(&self, span: Span) -> &[u8]
        requires { IsWithin self.now.bytes span }
        ensures { result.now ≡ bytes_at self.now.bytes span }
    {
        &self.held.as_slice()[span.start..span.start + span.length]
    }

    /// The number of bytes.
    pub fn len(&self) -> usize
        ensures count { result ≡ length self.now.bytes }
        ensures bound { result < 2 ^ 63 }
    {
        self.held.len()
    }

    /// Empties it. The memory stays taken.
    pub fn reset(&mut self)
        ensures bytes { self.new.bytes ≡ [] }
        ensures spare { self.new.spare ≡ self.old.spare + length self.old.bytes }
    {
        self.spare += self.held.len();
        self.held.clear();
    }
}
