// What a driver arranged on the device.
ghost use Rattle.std.specs.Prelude.{◌≡◌, ◌<◌, [], ◌∷◌, length, drop, OnOk, OnErr};

use keel_base::OutOfMemory;
use keel_disk::Arranged;
use std::alloc::Global;
use std::marker::Model;

/// What was arranged. Contracts see it as a list, the last first.
#[derive(Drop)]
pub struct Noted {
    items: Vec<Arranged>,
}

impl Model for Noted {
    ghost use Rattle.std.specs.Prelude.{List, reverse};
    ghost use Rattle.keel_disk.specs.declared.rule.Arranged.{Arranged};

    ghost Value = { List Arranged };

    ghost view = { λ n. reverse n.items.items };
}

impl Noted {
    pub fn new(alloc: Global) -> Noted
        ensures { result ≡ [] }
    {
        Noted {
            items: Vec::new(alloc),
        }
    }

    pub fn note(&mut self, entry: Arranged) -> Result<(), OutOfMemory>
        ensures ok { OnOk result (self.new ≡ entry ∷ self.old) }
        ensures err { OnErr result (self.new ≡ self.old) }
    {
        self.items.push(entry)?;
        Ok(())
    }

    /// Takes the last one back.
    pub fn take_back(&mut self)
        ensures { self.new ≡ drop 1 self.old }
    {
        let _ = self.items.pop();
    }
}
