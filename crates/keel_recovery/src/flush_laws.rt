// What the calls of a flush leave of what is kept, each as the contract of a function.
ghost use Rattle.keel_recovery.specs.FlushEdits.{EditAppendKeeps, EditGives, EditSyncKeeps, FlushEnds, OpenWayStays};
ghost use Rattle.keel_recovery.specs.FlushFiles.{LogsStay, TableAppendKeeps, TableCreateKeeps, TableNameKeeps, TableStays, TableSyncKeeps, TablesAreBelow};

/// The tables so far are numbered below the next file.
pub fn tables_are_below()
    ensures { TablesAreBelow }
{}

/// A flush makes its table.
pub fn table_create_keeps()
    ensures { TableCreateKeeps }
{}

/// It appends a piece of it.
pub fn table_append_keeps()
    ensures { TableAppendKeeps }
{}

/// It syncs it.
pub fn table_sync_keeps()
    ensures { TableSyncKeeps }
{}

/// It makes its name firm.
pub fn table_name_keeps()
    ensures { TableNameKeeps }
{}

/// Calls of groups and of edits leave the table as it is.
pub fn table_stays()
    ensures { TableStays }
{}

/// Calls of a flush leave the logs as they are.
pub fn logs_stay()
    ensures { LogsStay }
{}

/// A flush appends its edit to the manifest in use.
pub fn edit_append_keeps()
    ensures { EditAppendKeeps }
{}

/// It syncs the manifest.
pub fn edit_sync_keeps()
    ensures { EditSyncKeeps }
{}

/// Calls of groups and of tables leave the manifest as it is.
pub fn open_way_stays()
    ensures { OpenWayStays }
{}

/// The edit of a flush gives a version that the logs go on from.
pub fn edit_gives()
    ensures { EditGives }
{}

/// Behind a flush the log of its segment is needed no more.
pub fn flush_ends()
    ensures { FlushEnds }
{}
