// The calls that change a device.

use keel_base::{Bytes, FileName};

/// A changing call, as it was handed in.
#[derive(Debug, Drop)]
pub enum Change {
    Create { name: FileName },
    Append { name: FileName, bytes: Bytes },
    Sync { name: FileName },
    Rename { from: FileName, to: FileName },
    Remove { name: FileName },
    Cut { name: FileName, length: u64 },
    SyncDir,
}
