//! Laws of the format, each as the contract of a function.
ghost use Rattle.keel_table.specs.Blocks.{BlocksAscend};
ghost use Rattle.keel_table.specs.Laws.{TablesOpen, BlocksAreSpelled, IndexesAreSpelled, FootersAreSpelled};
ghost use Rattle.keel_table.specs.Sizes.{OneRowSize, TablesAreSmall, FilesAreSmall};

/// The file of a table opens as the table of its rows: each block gives its rows, and a get the row of its key.
pub fn tables_open()
    ensures { TablesOpen }
{}

/// What a block gives is what its bytes spell: rows with their check, whose keys rise up to the key of its entry.
pub fn blocks_are_spelled()
    ensures { BlocksAreSpelled }
{}

/// What an index gives is what its bytes spell: entries with their check, of blocks that follow each other up to it.
pub fn indexes_are_spelled()
    ensures { IndexesAreSpelled }
{}

/// What opening takes as the footer is what the last bytes spell, and with blocks and index it is the whole file.
pub fn footers_are_spelled()
    ensures { FootersAreSpelled }
{}

/// Blocks that were read one after the other from the first on have rows whose keys rise from each to the next.
pub fn blocks_ascend()
    ensures { BlocksAscend }
{}

/// The table of one row of a key and a value of k and v bytes has 89 + 2k + v bytes.
pub fn one_row_size()
    ensures { OneRowSize }
{}

/// A table that a builder makes has at most 2^56 bytes, and as many rows: the most that a manifest can tell.
pub fn tables_are_small()
    ensures { TablesAreSmall }
{}

/// A file that opens as a table has less than 2^61 bytes, and no more rows than bytes.
pub fn files_are_small()
    ensures { FilesAreSmall }
{}
