// What a crash may leave of manifests.

/// A crash may leave CURRENT at this manifest, with the first `edits` of its edits.
#[derive(Clone, Copy, Debug, PartialEq, Eq)]
pub struct Doubt {
    pub manifest: u64,
    pub edits: u64,
}
