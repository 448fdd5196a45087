// Facts of the machine, each as the contract of a function.
ghost use Rattle.keel_machine.specs.BootLength.{BootEnds};
ghost use Rattle.keel_machine.specs.Laws.{ClosingEnds, FailureStops, FullQueueStops, LogFailureStops, ManifestFailureStops, OneCallAFlush, OneCallAStep, StoppedWorkRests, StopsAtTwo};
ghost use Rattle.keel_machine.specs.WorkedRows.{FirstBoot, FirstFlush, FirstPut, FirstResume, FullQueue, FullSegment, SecondPut};

/// A write step makes one changing call of the device at most.
pub fn one_call_a_step()
    ensures { OneCallAStep }
{}

/// While an error stands that stops writes, no batch is queued.
pub fn failure_stops()
    ensures { FailureStops }
{}

/// Every failure of a log stops writes, whatever failed before it.
pub fn log_failure_stops()
    ensures { LogFailureStops }
{}

/// So does every failure of a manifest.
pub fn manifest_failure_stops()
    ensures { ManifestFailureStops }
{}

/// Writes are stopped exactly where the standing error has severity 2 or more.
pub fn stops_at_two()
    ensures { StopsAtTwo }
{}

/// A flush step makes one changing call of the device at most.
pub fn one_call_a_flush()
    ensures { OneCallAFlush }
{}

/// While background work is stopped a flush step makes no call.
pub fn stopped_work_rests()
    ensures { StoppedWorkRests }
{}

/// While 64 batches wait, no further one is queued.
pub fn full_queue_stops()
    ensures { FullQueueStops }
{}

/// Closing leaves no group, no job and no waiting ticket, and no batch is queued any more.
pub fn closing_ends()
    ensures { ClosingEnds }
{}

/// A boot or a resume none of whose steps fails, rests or wants memory clears: with ten calls, and for each table that it makes three and
/// one for each block.
pub fn boot_ends()
    ensures { BootEnds }
{}

/// The calls of the boot of an empty directory.
pub fn first_boot()
    ensures { FirstBoot }
{}

/// The calls of the first put.
pub fn first_put()
    ensures { FirstPut }
{}

/// The calls of a second put.
pub fn second_put()
    ensures { SecondPut }
{}

/// The calls of a full queue, which is one group.
pub fn full_queue()
    ensures { FullQueue }
{}

/// The calls of a put behind a full segment, and that the store is full then.
pub fn full_segment()
    ensures { FullSegment }
{}

/// The calls of a flush, and that the store isn't full behind it.
pub fn first_flush()
    ensures { FirstFlush }
{}

/// The calls of a resume behind a failed write, which makes a table of what was published.
pub fn first_resume()
    ensures { FirstResume }
{}
