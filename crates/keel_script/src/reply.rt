// What a command is answered.
use keel_base::{Bytes, Call, Counter, Failure, Fault, FileName, Grade, OptionName, SlotName};

/// A line of the answer to a command. Lengths and sizes are in bytes, times in ticks of one millisecond.
#[derive(Drop)]
pub enum Reply {
    // Options, and whether the store is open.
    OptionSet {
        name: OptionName,
        value: u64,
    },
    BadOption {
        name: OptionName,
        least: u64,
        greatest: u64,
    },
    IsOpen,
    NotOpen,
    Opened {
        seq: u64,
    },
    // Why the store did not open.
    RefusedDevice(Fault),
    RefusedNoCurrent(FileName),
    RefusedBadCurrent(Bytes),
    RefusedDamagedManifest {
        at: u64,
    },
    RefusedMissingTable {
        number: u64,
    },
    RefusedBadTable {
        number: u64,
    },
    RefusedBadLog {
        number: u64,
        at: u64,
    },
    RefusedLogGap {
        number: u64,
        expected: u64,
        found: u64,
    },
    // What became of a write, or of asking for one.
    PutOk {
        seq: u64,
    },
    Failed(Failure),
    Stopped(Failure),
    Booting,
    BadSizeKey {
        length: u64,
    },
    BadSizeValue {
        length: u64,
    },
    Spent(Counter),
    Full {
        active: u64,
        immutables: u32,
    },
    QueueFull {
        waiting: u32,
    },
    Waiting {
        ticket: u64,
    },
    Queued {
        ticket: u64,
    },
    // What a step did, and why it did nothing.
    Idle,
    Moved {
        job: u64,
        call: Call,
    },
    WriteDone {
        job: u64,
        seq: u64,
        batches: u32,
    },
    Turned {
        batches: u32,
        failure: Failure,
    },
    Cancelled {
        job: u64,
        current: u64,
    },
    JobDone {
        job: u64,
    },
    Blocked(SlotName),
    NoRoom {
        reserved: u128,
        inputs: u128,
        buffer: u64,
        tracked: u128,
        limit: u64,
    },
    // Deletions.
    Wait {
        until: u64,
    },
    Purged(FileName),
    Trashed(FileName),
    Cut {
        name: FileName,
        length: u64,
    },
    Removed(FileName),
    DeleteRefused(Fault),
    // Recovery.
    Nothing,
    Busy {
        job: u64,
    },
    Beyond(Failure),
    Cleared,
    Started {
        job: u64,
    },
    JobCleared {
        job: u64,
        steps: u64,
    },
    NoSpaceYet {
        free: u64,
        need: u64,
    },
    OverLimit {
        total: u128,
        limit: u64,
    },
    GivenUp {
        attempts: u32,
    },
    // Rounds of all actors, and time.
    Quiet,
    More,
    Now {
        tick: u64,
    },
    // What was read, and why it was not.
    Value(Bytes),
    Absent,
    Row {
        key: Bytes,
        value: Bytes,
    },
    Rows {
        count: u64,
    },
    ErrorNone,
    Error {
        failure: Failure,
        grade: Grade,
    },
    Space {
        tracked: u128,
        trash: u128,
        reserved: u128,
        limit: u64,
    },
    FileLine {
        name: FileName,
        size: u64,
    },
    Files {
        count: u64,
    },
    ReadFault(Fault),
    BadCheck {
        stored: u32,
        computed: u32,
    },
    BadShape {
        at: u64,
    },
    AbsentTable {
        number: u64,
    },
    Level {
        level: u8,
        files: u32,
        bytes: u128,
    },
    Memory {
        active: u64,
        immutables: u32,
        waiting: u32,
    },
    // The limit of an open store, and its end.
    Limit {
        limit: u64,
    },
    Closed {
        tickets: u64,
    },
    // The simulated device.
    Armed,
    NotSimulated,
    Capacity {
        bytes: u64,
    },
    Crashed,
    /// The command is in the language, and nothing carries it out yet.
    NotBuilt,
}
