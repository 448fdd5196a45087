// What a line can say.
ghost use Rattle.std.specs.Prelude.{◌≡◌};

use keel_base::{Bytes, Call, Fault, OptionName, OutOfMemory};

/// A command of a workload. Each actor's step is one, so that commands are steps in any order.
#[derive(Drop)]
pub enum Command {
    /// Sets an option for the next opening.
    SetOption {
        name: OptionName,
        value: u64,
    },
    Open,
    /// Writes a key, and waits for the outcome. With `sync` it is acknowledged only once it is firm.
    Put {
        key: Bytes,
        value: Bytes,
        sync: bool,
    },
    Del {
        key: Bytes,
        sync: bool,
    },
    /// Admits the write of a client alone: 0 to 63, which changes no answer.
    QueuePut {
        client: u8,
        key: Bytes,
        value: Bytes,
        sync: bool,
    },
    QueueDel {
        client: u8,
        key: Bytes,
        sync: bool,
    },
    /// One step of the writing actor.
    Write,
    Flush,
    /// One step of one of two compactions: 0 or 1.
    Compact {
        slot: u8,
    },
    Delete,
    Resume,
    ResumeStep,
    /// Goes round the actors until all rest, or so many moves were made: at most 1,000,000.
    Drain {
        moves: u64,
    },
    /// Ticks of one millisecond to pass.
    Tick {
        ticks: u64,
    },
    Get {
        key: Bytes,
    },
    /// The keys from one on and below another, and with no upper bound where that is empty.
    Scan {
        from: Bytes,
        to: Bytes,
    },
    Error,
    Space,
    Files,
    Levels,
    /// Sets the space limit of the open store, in bytes.
    Limit {
        limit: u64,
    },
    Close,
    /// Arms a failure of the simulated device: of a kind of call, after so many, so often, with so much of it done.
    Fail {
        call: Call,
        fault: Fault,
        skip: u64,
        times: u64,
        keep: u64,
    },
    /// Sets the bytes that the simulated device holds.
    Capacity {
        bytes: u64,
    },
    /// Crashes the simulated device: with so many operations kept, and so many bytes, then so many of garbage.
    Crash {
        dirops: u64,
        keep: u64,
        garbage: u64,
        seed: u64,
    },
}

/// Why a line gave no command.
#[derive(Clone, Copy, Debug, PartialEq, Eq)]
pub enum LineError {
    /// The line is in no command's form.
    NotACommand,
    OutOfMemory,
}

impl From<OutOfMemory> for LineError {
    ghost use Rattle.keel_script.specs.declared.command.LineError.TheVariants.{OutOfMemory as NoMemory};

    ghost from_gives = { λ _ e. e ≡ NoMemory };

    fn from(_: OutOfMemory) -> Self {
        LineError::OutOfMemory
    }
}
