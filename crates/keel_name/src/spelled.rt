// A file of a directory, with the bytes of its name.
ghost use Rattle.std.specs.Prelude.{◌≡◌};
ghost use Rattle.keel_base.specs.Name.{printed};

use keel_base::{Bytes, Entry};

#[derive(Drop)]
pub struct Spelled {
    pub entry: Entry,
    pub spelling: Bytes,
    ghost spelled: { spelling ≡ printed entry.name },
}
