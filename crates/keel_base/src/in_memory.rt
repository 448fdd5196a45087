// Sources and sinks in memory, which fail where they are told to.
ghost use Rattle.std.specs.Prelude.{◌≡◌, ◌↔◌, ◌+◌, ◌<◌, ◌≤◌, Some, None, Ok, [], length, drop, Contains, IfOk, IsErr};
ghost use Rattle.std.specs.Io.KnownBytes.{ReadConsumes, WriteAppends};
ghost use Rattle.keel_base.specs.Counts.{HasCause, Rose, raised};

use crate::{Bytes, Failed, Sequence, Sink, Source};
use std::alloc::Global;

/// Numbers of calls, counted from 0.
pub type Calls = Sequence<u64>;

// Copies bytes from a place on into the beginning of the buffer, as many as it holds, and says how many.
fn copied(bytes: &[u8], place: usize, buffer: &mut [u8]) -> usize
    requires { place ≤ length bytes.now }
    ensures within { place + result ≤ length bytes.now }
    ensures bound { result ≤ length buffer.new }
    ensures bytes { ReadConsumes {E = Failed} (Some (drop place bytes.now)) (Some (drop (place + result) bytes.now)) (Ok result) buffer.new }
{
    let (_, rest) = bytes.split_at(place);
    let count = rest.len().min(buffer.len());
    buffer[..count].copy_from_slice(&rest[..count]);
    count
}

/// Bytes that are handed out in turn. Of its calls, those with these numbers fail, and take nothing.
#[derive(Drop)]
pub struct MemSource {
    bytes: Bytes,
    place: usize,
    fails: Calls,
    calls: u64,
    faults: u64,
    ghost within: { place ≤ length bytes },
}

impl MemSource {
    ghost use Rattle.keel_base.specs.InMemory.{source_left, source_fails, source_call, source_faults};

    pub fn new(bytes: Bytes, fails: Calls) -> Self
        ensures left { source_left result ≡ bytes }
        ensures fails { source_fails result ≡ fails }
        ensures call { source_call result ≡ 0 }
        ensures faults { source_faults result ≡ 0 }
    {
        MemSource {
            bytes,
            place: 0,
            fails,
            calls: 0,
            faults: 0,
        }
    }
}

impl Source for MemSource {
    ghost use Rattle.keel_base.specs.InMemory.{source_left, source_fails, source_call, source_faults};

    ghost remaining = { λ s. Some (drop s.place s.bytes) };

    ghost faults = { λ s. s.faults };

    fn take(&mut self, buffer: &mut [u8]) -> Result<usize, Failed>
        ensures bound { IfOk result (λ n. n ≤ length buffer.new) }
        ensures bytes { ReadConsumes (Some (source_left self.old)) (Some (source_left self.new)) result buffer.new }
        ensures cause { HasCause (source_faults self.old) (source_faults self.new) result }
        ensures exact { IsErr result ↔ Contains (source_fails self.old) (source_call self.old) }
        ensures fails { source_fails self.new ≡ source_fails self.old }
        ensures call { source_call self.new ≡ raised (source_call self.old) }
    {
        let call = self.calls;
        self.calls = call.saturating_add(1);
        if self.fails.as_slice().contains(&call) {
            self.faults = self.faults.saturating_add(1);
            return Err(Failed);
        }
        let count = copied(self.bytes.as_slice(), self.place, buffer);
        self.place += count;
        Ok(count)
    }
}

/// Keeps what it is given. Of its calls, those with these numbers fail, and so does one for which there is no memory.
#[derive(Drop)]
pub struct MemSink {
    held: Vec<u8>,
    fails: Calls,
    calls: u64,
    faults: u64,
}

impl MemSink {
    ghost use Rattle.keel_base.specs.InMemory.{sink_held, sink_fails, sink_call, sink_faults};

    pub fn new(alloc: Global, fails: Calls) -> Self
        ensures held { sink_held result ≡ [] }
        ensures fails { sink_fails result ≡ fails }
        ensures call { sink_call result ≡ 0 }
        ensures faults { sink_faults result ≡ 0 }
    {
        MemSink {
            held: Vec::new(alloc),
            fails,
            calls: 0,
            faults: 0,
        }
    }

    /// What it was given so far.
    pub fn held(&self) -> &[u8]
        ensures { result.now ≡ sink_held self.now }
    {
        self.held.as_slice()
    }
}

impl Sink for MemSink {
    ghost use Rattle.keel_base.specs.InMemory.{sink_held, sink_fails, sink_call, sink_faults};

    ghost held = { λ s. Some s.held.items };

    ghost faults = { λ s. s.faults };

    fn give(&mut self, bytes: &[u8]) -> Result<usize, Failed>
        ensures bound { IfOk result (λ n. n ≤ length bytes.now) }
        ensures bytes { WriteAppends (Some (sink_held self.old)) (Some (sink_held self.new)) result bytes.now }
        ensures cause { HasCause (sink_faults self.old) (sink_faults self.new) result }
        ensures nothing { IfOk result (λ n. n ≡ 0 → 0 < length bytes.now → Rose (sink_faults self.old) (sink_faults self.new)) }
        ensures exact { Contains (sink_fails self.old) (sink_call self.old) → IsErr result }
        ensures fails { sink_fails self.new ≡ sink_fails self.old }
        ensures call { sink_call self.new ≡ raised (sink_call self.old) }
    {
        let call = self.calls;
        self.calls = call.saturating_add(1);
        if self.fails.as_slice().contains(&call) || self.held.extend_from_slice(bytes).is_err() {
            self.faults = self.faults.saturating_add(1);
            return Err(Failed);
        }
        Ok(bytes.len())
    }
}

/// Bytes that are handed out in turn. It never fails.
#[derive(Drop)]
pub struct PlainSource {
    bytes: Bytes,
    place: usize,
    ghost within: { place ≤ length bytes },
}

impl PlainSource {
    ghost use Rattle.keel_base.specs.InMemory.{plain_left};

    pub fn new(bytes: Bytes) -> Self
        ensures { plain_left result ≡ bytes }
    {
        PlainSource { bytes, place: 0 }
    }
}

impl Source for PlainSource {
    ghost remaining = { λ s. Some (drop s.place s.bytes) };

    ghost faults = { λ _. 0 };

    fn take(&mut self, buffer: &mut [u8]) -> Result<usize, Failed> {
        let count = copied(self.bytes.as_slice(), self.place, buffer);
        self.place += count;
        Ok(count)
    }
}

/// Takes all that it is given and keeps none of it, so that it never fails, and tells nothing.
#[derive(Drop)]
pub struct PlainSink;

impl Sink for PlainSink {
    ghost held = { λ _. None };

    ghost faults = { λ _. 0 };

    fn give(&mut self, bytes: &[u8]) -> Result<usize, Failed> {
        Ok(bytes.len())
    }
}
