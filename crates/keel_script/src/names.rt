// The words for faults, calls and the like.
ghost use Rattle.std.specs.Prelude.{◌≡◌};
ghost use Rattle.keel_script.specs.Names.{fault_name, call_name, reason_name, counter_name, slot_name, grade_number};

use keel_base::{Call, Counter, Fault, Grade, Reason, SlotName};

/// The faults that a device can be told to have: all but the store's own limit.
pub const DEVICE_FAULTS: [Fault; 6] = [
    Fault::Plain,
    Fault::NoSpace,
    Fault::Fenced,
    Fault::Retryable,
    Fault::DataLoss,
    Fault::Corrupt,
];

pub const CALLS: [Call; 8] = [
    Call::Create,
    Call::Append,
    Call::Sync,
    Call::Rename,
    Call::Remove,
    Call::Cut,
    Call::SyncDir,
    Call::Read,
];

pub fn fault_name(fault: Fault) -> &'static [u8]
    ensures { result.now ≡ fault_name fault }
{
    match fault {
        Fault::Plain => b"plain",
        Fault::NoSpace => b"no-space",
        Fault::SpaceLimit => b"space-limit",
        Fault::Fenced => b"fenced",
        Fault::Retryable => b"retryable",
        Fault::DataLoss => b"data-loss",
        Fault::Corrupt => b"corrupt",
    }
}

pub fn call_name(call: Call) -> &'static [u8]
    ensures { result.now ≡ call_name call }
{
    match call {
        Call::Create => b"create",
        Call::Append => b"append",
        Call::Sync => b"sync",
        Call::Rename => b"rename",
        Call::Remove => b"remove",
        Call::Cut => b"cut",
        Call::SyncDir => b"sync-dir",
        Call::Read => b"read",
    }
}

pub fn reason_name(reason: Reason) -> &'static [u8]
    ensures { result.now ≡ reason_name reason }
{
    match reason {
        Reason::Flush => b"flush",
        Reason::Compaction => b"compaction",
        Reason::Wal => b"wal",
        Reason::Manifest => b"manifest",
    }
}

pub fn counter_name(counter: Counter) -> &'static [u8]
    ensures { result.now ≡ counter_name counter }
{
    match counter {
        Counter::Sequence => b"sequence",
        Counter::FileNumber => b"file-number",
        Counter::JobNumber => b"job-number",
        Counter::Ticket => b"ticket",
    }
}

pub fn slot_name(slot: SlotName) -> &'static [u8]
    ensures { result.now ≡ slot_name slot }
{
    match slot {
        SlotName::Flush => b"flush",
        SlotName::Compact0 => b"compact-0",
        SlotName::Compact1 => b"compact-1",
    }
}

/// Its number: the grades are declared in their order.
pub fn grade_number(grade: Grade) -> u8
    ensures { result ≡ grade_number grade }
{
    grade as u8
}
