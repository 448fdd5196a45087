//! What follows of the definitions.
ghost use Rattle.keel_open.specs.Laws as spec;
ghost use Rattle.keel_open.specs.Listed.{FirstOfListing};

/// The first file of a listing that a new store doesn't have is the directory's, where the device tells it.
pub fn first_of_listing()
    ensures { FirstOfListing }
{}

/// Where a manifest and its tables are read, what the logs give is what the directory gives.
pub fn logs_complete()
    ensures { spec.LogsComplete }
{}

/// A directory that is found to be that of a new store is read as one.
pub fn new_is_new()
    ensures { spec.NewIsNew }
{}

/// On a device as calls and crashes leave it each name is one of the store, and stands once.
pub fn sound_is_directory()
    ensures { spec.SoundIsDirectory }
{}
