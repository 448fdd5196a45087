//! What rows say of the map, as the contracts of functions that do nothing.
ghost use Rattle.keel_levels.specs.Laws.{NewestSplits, BatchesFold, NewestStandFor, OrderIsFree, PointsExist, RangesAreOfMaps};

/// The newest row of a key in two lists is the newer of the newest of each.
pub fn newest_splits()
    ensures { NewestSplits }
{}

/// Rows that say a point, with those of the next batch behind them, say what the batch makes of the point.
pub fn batches_fold()
    ensures { BatchesFold }
{}

/// The table of the newest rows of a segment stands for all rows of the segment, whatever other rows there are.
pub fn newest_stand_for()
    ensures { NewestStandFor }
{}

/// Older rows may stand before newer ones or behind them.
pub fn order_is_free()
    ensures { OrderIsFree }
{}

/// Any rows say some point.
pub fn points_exist()
    ensures { PointsExist }
{}

/// What `rows_between` answers is the keys of the range that have a value, with their values.
pub fn ranges_are_of_maps()
    ensures { RangesAreOfMaps }
{}
