// What is found of a key.
use keel_base::Kind;

/// The newest row of a key.
#[derive(Clone, Copy, Debug)]
pub struct Found<'a> {
    pub seq: u64,
    pub kind: Kind,
    pub value: &'a [u8],
}
