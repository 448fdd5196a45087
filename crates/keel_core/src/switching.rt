// Behind a full segment another one is active.
ghost use Rattle.std.specs.Prelude.{◌≡◌, Some, IfOk};
ghost use Rattle.keel_core.specs.Flights.{next_flying};
ghost use Rattle.keel_core.specs.Steps.{IsNextSegment};
ghost use Rattle.keel_core.specs.Views.{MakesCall, ComesNearer, CanGoOn};

use crate::flight::Act;
use crate::log::OwnLog;
use crate::placing::reserve_all;
use crate::segments::Segment;
use crate::store::Core;
use keel_base::{Call, OutOfMemory};
use keel_disk::{Disk, DiskError};
use keel_machine::WriteStep;
use keel_mem::Mem;
use std::alloc::Global;

/// So many full segments and more are want of memory.
const MANY_SEGMENTS: usize = 4_294_967_295;

impl<D: Disk> Core<D> {
    // The name of the log that was made gets firm, and the group goes on in another segment. Its memory is taken first.
    pub(crate) fn switch(&mut self, alloc: Global, log: u64) -> WriteStep
        requires can { CanGoOn self.old }
        requires next { next_flying self.old.group ≡ Some (Act.SyncDirectory log) }
        ensures turn { MakesCall self.old result self.new }
        ensures nearer { ComesNearer self.old result self.new }
    {
        if self.segments.len() >= MANY_SEGMENTS {
            return WriteStep::OutOfMemory;
        }
        if self.segments.reserve(1).is_err() {
            return WriteStep::OutOfMemory;
        }
        let Ok(next) = self.next_segment(alloc) else {
            return WriteStep::OutOfMemory;
        };
        match self.disk.sync_dir(alloc) {
            Ok(()) => {
                let mem = std::mem::replace(&mut self.mem, next.mem);
                self.segments.push_reserved(Segment {
                    mem,
                    logs: next.logs,
                });
                self.log = Some(OwnLog {
                    number: log,
                    size: 0,
                    failed: false,
                });
                self.queue.move_on(Act::AddRecords, Call::SyncDir)
            }
            Err(DiskError::Fault(fault)) => self.give_up(Act::SyncDirectory { log }, fault),
            Err(DiskError::OutOfMemory) => WriteStep::OutOfMemory,
        }
    }

    // An empty memtable with room for all batches on their way, and the number of the log of the full segment.
    pub(crate) fn next_segment(&self, alloc: Global) -> Result<Segment, OutOfMemory>
        ensures { IfOk result (IsNextSegment self.now) }
    {
        let mut mem = Mem::new(alloc);
        reserve_all(&mut mem, self.trail.limbo())?;
        if let Some(flight) = &self.queue.group {
            reserve_all(&mut mem, flight.batches.as_slice())?;
        }
        reserve_all(&mut mem, self.queue.waiting.batches())?;
        let mut logs = Vec::new(alloc);
        if let Some(log) = self.log {
            logs.push(log.number)?;
        }
        Ok(Segment { mem, logs })
    }
}
