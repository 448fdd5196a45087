// What a device keeps of a story, and what follows, each as the contract of a function: a proof that needs one calls it.
ghost use Rattle.keel_recovery.specs.Calls.{CreateKeeps, CreateMakes, LogAppendKeeps, LogSyncKeeps, PublishKeeps, SyncDirKeeps};
ghost use Rattle.keel_recovery.specs.Laws.{CallLeavesPrefix, CrashLeavesPrefix, KeepingStands, ReadingLeavesPrefix, WayIsRead, WayReads};
ghost use Rattle.keel_recovery.specs.Machine.{CoveredBears, CoveredReads, CoveredStands, CrashTurns, FlushesAreSafe, FootingStays, InsideStep, OpeningBoots, OpeningGoesOn, ResumesAreSafe, StartsCovered, StepsAreSafe, TurnKeeps};
ghost use Rattle.keel_recovery.specs.Worked.{EmptyIsFirst, TwoPuts};

/// Where CURRENT names a manifest with edits of which each gives a version that the logs go on from, an image that a crash
/// leaves reads as a prefix of the story.
pub fn way_reads()
    ensures { WayReads }
{}

/// The directory as it is read has all that is published.
pub fn way_is_read()
    ensures { WayIsRead }
{}

/// A device that keeps a story stands for it.
pub fn keeping_stands()
    ensures { KeepingStands }
{}

/// The store makes a log.
pub fn create_makes()
    ensures { CreateMakes }
{}

/// Whatever is answered, all is kept, and the number is used up.
pub fn create_keeps()
    ensures { CreateKeeps }
{}

/// The store makes the name of its new log firm.
pub fn sync_dir_keeps()
    ensures { SyncDirKeeps }
{}

/// The store appends the records of batches. They count as handed over whether or not the call fails.
pub fn log_append_keeps()
    ensures { LogAppendKeeps }
{}

/// The store syncs its log, which is firm in whole then.
pub fn log_sync_keeps()
    ensures { LogSyncKeeps }
{}

/// The store publishes what was handed to its log.
pub fn publish_keeps()
    ensures { PublishKeeps }
{}

/// What a crash leaves stands for a prefix of the story, with all batches that must not be lost.
pub fn crash_leaves_prefix()
    ensures { CrashLeavesPrefix }
{}

/// The same of an image that has a reading among the prefixes, as one has that a crash inside a call leaves.
pub fn reading_leaves_prefix()
    ensures { ReadingLeavesPrefix }
{}

/// A crash inside a call leaves a prefix of the story before it, or of the one behind its Ok.
pub fn call_leaves_prefix()
    ensures { CallLeavesPrefix }
{}

/// Before an opening, the machine's device is covered where it is at rest and its directory, if it is read at all, is sound.
pub fn starts_covered()
    ensures { StartsCovered }
{}

/// An opening of a device that was left, and stands for the story, leaves a store that boots.
pub fn opening_boots()
    ensures { OpeningBoots }
{}

/// The device of a machine that has a story and keeps it covered stands for the story.
pub fn covered_stands()
    ensures { CoveredStands }
{}

/// The device of an open store bears out what reads say.
pub fn covered_bears()
    ensures { CoveredBears }
{}

/// Whatever a crash leaves of a machine's covered device is a turn of the machine.
pub fn crash_turns()
    ensures { CrashTurns }
{}

/// A crash inside the call of a machine's write step, whatever the answer.
pub fn inside_step()
    ensures { InsideStep }
{}

/// The same of each turn of a write step that made a call, as the device tells the call.
pub fn steps_are_safe()
    ensures { StepsAreSafe }
{}

/// Where a machine's story goes on, the directory of its covered device reads as the point that it leads to.
pub fn covered_reads()
    ensures { CoveredReads }
{}

/// An opening that goes on with a machine's story is refused for a fault of the device or for want of memory alone.
pub fn opening_goes_on()
    ensures { OpeningGoesOn }
{}

/// A machine's device is known to bear out the story until its count of forged images rises, as it can below its end,
/// 2^64 - 1.
pub fn footing_stays()
    ensures { FootingStays }
{}

/// What a crash may leave of two puts, of which the first was synced.
pub fn two_puts()
    ensures { TwoPuts }
{}

/// A store can begin on a device without a file.
pub fn empty_is_first()
    ensures { EmptyIsFirst }
{}

/// Every turn of the machine keeps its device covered.
pub fn turn_keeps()
    ensures { TurnKeeps }
{}

/// A crash inside the call of a resume step leaves a prefix of the story before it or behind it.
pub fn resumes_are_safe()
    ensures { ResumesAreSafe }
{}

/// A crash inside the call of a flush step leaves a prefix of the story.
pub fn flushes_are_safe()
    ensures { FlushesAreSafe }
{}
