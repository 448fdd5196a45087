//! What a memtable's rows are of the map, as the contracts of functions that do nothing.
ghost use Rattle.keel_mem.specs.Laws.{MemtableFolds, ScanFindsNewest};

/// A memtable is the fold of its batches: where its rows say what a map has, the rows behind a batch say what the batch makes of it.
pub fn memtable_folds()
    ensures { MemtableFolds }
{}

/// Of the rows that `rows` gives the first of a key is its newest.
pub fn scan_finds_newest()
    ensures { ScanFindsNewest }
{}
