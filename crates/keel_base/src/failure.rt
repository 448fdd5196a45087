// The words in which a failure is told.

/// What a device answers where it fails. No device answers `SpaceLimit`: that is the store's own limit.
#[derive(Clone, Copy, Debug, PartialEq, Eq)]
pub enum Fault {
    Plain,
    NoSpace,
    SpaceLimit,
    Fenced,
    Retryable,
    DataLoss,
    Corrupt,
}

/// What the store was doing when a call failed.
#[derive(Clone, Copy, Debug, PartialEq, Eq)]
pub enum Reason {
    Flush,
    Compaction,
    Wal,
    Manifest,
}

/// A failure in the background: what was being done, and how the device failed.
#[derive(Clone, Copy, Debug, PartialEq, Eq)]
pub struct Failure {
    pub reason: Reason,
    pub fault: Fault,
}

/// How bad a failure is, in rising order. From `Hard` on nothing is written while it stands.
#[derive(Clone, Copy, Debug, PartialEq, Eq)]
pub enum Grade {
    NoError,
    Soft,
    Hard,
    Fatal,
    Unrecoverable,
}

/// A slot for a job that others wait for.
#[derive(Clone, Copy, Debug, PartialEq, Eq)]
pub enum SlotName {
    Flush,
    Compact0,
    Compact1,
}

/// The kinds of device calls. `Read` stands for every call that changes nothing.
#[derive(Clone, Copy, Debug, PartialEq, Eq)]
pub enum Call {
    Create,
    Append,
    Sync,
    Rename,
    Remove,
    Cut,
    SyncDir,
    Read,
}

/// The numbers that a store draws, each of which has an end.
#[derive(Clone, Copy, Debug, PartialEq, Eq)]
pub enum Counter {
    Sequence,
    FileNumber,
    JobNumber,
    Ticket,
}

/// A source or a sink failed.
#[derive(Clone, Copy, Debug, PartialEq, Eq)]
pub struct Failed;
