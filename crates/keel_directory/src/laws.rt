//! What holds of readings, as the contracts of functions that do nothing.
ghost use Rattle.keel_directory.specs.Laws.{OneReading, UnneededFiles, NewStores, SettledStands, LogsAreThose, LeastIsLeast, FirstIsFirst};

/// A directory has one reading.
pub fn one_reading()
    ensures { OneReading }
{}

/// A reading needs CURRENT, its manifest, the tables of its version and the logs from the least on, and no other file.
pub fn unneeded_files()
    ensures { UnneededFiles }
{}

/// A directory without CURRENT, tables, trash and logs with a byte is that of a new store.
pub fn new_stores()
    ensures { NewStores }
{}

/// A settled device whose directory has a sound reading stands for the point that was read.
pub fn settled_stands()
    ensures { SettledStands }
{}

/// Where no name stands twice, the logs that a reading takes rise by number, and are the files of logs from the least
/// number on that have a byte.
pub fn logs_are_those()
    ensures { LogsAreThose }
{}

/// The table that a refusal names is missing or damaged, and of these none has a lesser number.
pub fn least_is_least()
    ensures { LeastIsLeast }
{}

/// The file that is named where CURRENT is missing is in use, and none in use is listed before it.
pub fn first_is_first()
    ensures { FirstIsFirst }
{}
