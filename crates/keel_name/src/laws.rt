//! What holds of names, as the contracts of functions that do nothing.
ghost use Rattle.keel_name.specs.Laws.{OneSpelling, OneManifest, IsListingOrder};

/// No two names are spelled the same, so what `print` gave is read as the name that it was given.
pub fn one_spelling()
    ensures { OneSpelling }
{}

/// CURRENT names no two manifests, so of what `print_current` gave `read_current` gives the number that it was given.
pub fn one_manifest()
    ensures { OneManifest }
{}

/// Of two names exactly one is listed before the other, and what is listed before a name is listed before all behind it.
pub fn one_order()
    ensures { IsListingOrder }
{}
