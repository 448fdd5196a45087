// A job takes over the active segment.
ghost use Rattle.std.specs.Prelude.{◌≡◌, ◌≢◌, [], IfOk};
ghost use Rattle.keel_core.specs.Covering.{Closes, IsClosed, closed_by, taken_over};

use crate::segments::Segment;
use crate::store::Core;
use keel_base::OutOfMemory;
use keel_disk::Disk;
use std::alloc::Global;

/// How a job takes over the active segment.
#[derive(Drop)]
pub(crate) enum Closing {
    /// It did so before.
    Before,
    /// The segment has no row.
    Empty,
    /// The segment is full from then on.
    Full(Closed),
}

/// The memory of that: what becomes the active segment, with the logs of the one before, and a list without a segment
/// that has room for all.
#[derive(Drop)]
pub(crate) struct Closed {
    pub(crate) next: Segment,
    pub(crate) segments: Vec<Segment>,
}

/// So many full segments and more are want of memory.
const MANY_SEGMENTS: usize = 4_294_967_295;

impl<D: Disk> Core<D> {
    // Takes the memory to take over an active segment that has a row.
    pub(crate) fn closed(&self, alloc: Global) -> Result<Closed, OutOfMemory>
        ensures { IfOk result (IsClosed self.now) }
    {
        let count = self.segments.len();
        if count >= MANY_SEGMENTS {
            return Err(OutOfMemory);
        }
        let mut segments = Vec::new(alloc);
        segments.reserve(count + 1)?;
        let next = self.next_segment(alloc)?;
        Ok(Closed { next, segments })
    }

    // Takes the active segment over. It takes no memory.
    pub(crate) fn take_over(&mut self, closing: Closing)
        requires { Closes closing self.old }
        ensures { self.new ≡ closed_by closing self.old }
    {
        match closing {
            Closing::Before => {}
            Closing::Empty => self.log = None,
            Closing::Full(closed) => self.take_over_full(closed),
        }
    }

    fn take_over_full(&mut self, closed: Closed)
        requires some { self.old.rows ≢ [] }
        requires closed { IsClosed self.old closed }
        ensures { self.new ≡ taken_over self.old }
    {
        let Closed { next, segments } = closed;
        let mut segments = segments;
        let _ = segments.append(&mut self.segments);
        let mem = std::mem::replace(&mut self.mem, next.mem);
        segments.push_reserved(Segment {
            mem,
            logs: next.logs,
        });
        self.segments = segments;
        self.log = None;
    }
}
