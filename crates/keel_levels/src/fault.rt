// Why tables aren't read.
use keel_table::TableFault;

/// Why a table of a store isn't read. The device is as it was.
#[derive(Clone, Copy, Debug)]
pub struct LevelFault {
    /// The number of the table's file.
    pub number: u64,
    pub fault: TableFault,
}

/// Why a range isn't read. The device is as it was.
#[derive(Clone, Copy, Debug)]
pub enum ScanFault {
    Table(LevelFault),
    /// Memory was refused for rows that were read.
    OutOfMemory,
}
