// Why a table isn't read.
use keel_base::{Fault, OutOfMemory};

/// Why a table, or a part of it, isn't read. The device is as it was.
#[derive(Clone, Copy, Debug, PartialEq, Eq)]
pub enum TableFault {
    /// A read failed. The device has counted the fault.
    Device(Fault),
    /// No file has the table's name.
    Absent,
    /// The check that is stored behind some bytes isn't theirs. The two numbers differ.
    BadCheck { stored: u32, computed: u32 },
    /// What is wrong begins at that offset in the file, in bytes.
    BadShape { at: u64 },
    /// Memory was refused.
    OutOfMemory,
}

impl From<OutOfMemory> for TableFault {
    ghost use Rattle.std.specs.Prelude.{◌≡◌};
    ghost use Rattle.keel_table.specs.declared.fault.TableFault.TheVariants.{OutOfMemory};

    ghost from_gives = { λ _ e. e ≡ OutOfMemory };

    fn from(_: OutOfMemory) -> Self {
        TableFault::OutOfMemory
    }
}
