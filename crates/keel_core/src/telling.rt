// What the store tells of itself.
ghost use Rattle.std.specs.Prelude.{◌≡◌, ◌<◌, ◌^◌};
ghost use Rattle.keel_machine.specs.Telling.{level_view as view_of_level, told_count};
ghost use Rattle.keel_machine.specs.Turns.{TellingError, TellingLevels};
ghost use Rattle.keel_core.specs.Views.{TakesTurn};

use crate::store::Core;
use keel_base::Failure;
use keel_disk::Disk;
use keel_edit::Added;
use keel_machine::{LevelView, LevelsView};

impl<D: Disk> Core<D> {
    /// The failure that stands.
    pub fn standing(&self) -> Option<Failure>
        ensures turn { TakesTurn self.now (TellingError result) self.now }
    {
        self.handler.standing()
    }

    /// What the levels and the memory hold.
    pub fn levels(&self) -> LevelsView
        ensures turn { TakesTurn self.now (TellingLevels result) self.now }
    {
        let tables = self.tables.entries.as_slice();
        LevelsView {
            level0: level_view(0, tables),
            level1: level_view(1, tables),
            level2: level_view(2, tables),
            level3: level_view(3, tables),
            active: self.mem.weight(),
            immutables: self.segments.len() as u32,
            waiting: self.queue.waiting.waiting(),
        }
    }
}

/// How many tables a level has, and how many bytes they have together.
fn level_view(level: u8, tables: &[Added]) -> LevelView
    ensures { result ≡ view_of_level level tables.now }
{
    let mut files: usize = 0;
    let mut bytes: u128 = 0;
    for table in tables {
        if table.level == level {
            files += 1;
            bytes += size_of(table);
        }
    }
    LevelView {
        files: told_count(files),
        bytes,
    }
}

/// How many bytes a table has.
fn size_of(table: &Added) -> u128
    ensures value { result ≡ table.now.size }
    ensures bound { result < 2 ^ 64 }
{
    table.size as u128
}

/// A count as it is told.
fn told_count(count: usize) -> u32
    ensures { result ≡ told_count count }
{
    if count <= MOST_TOLD {
        count as u32
    } else {
        u32::MAX
    }
}

/// The greatest count that is told.
const MOST_TOLD: usize = 4_294_967_295;
