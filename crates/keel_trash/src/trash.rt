// Files that wait to be deleted.
ghost use Rattle.std.specs.Prelude.{◌≡◌, ◌+◌, ◌-◌, ◌<◌, ◌≤◌, ◌∷◌, ◌++◌, [], None, IfSome, OnOk, OnErr, drop, length};
ghost use Rattle.keel_disk.specs.Counts.{FaultCounted, disk_fault};
ghost use Rattle.keel_disk.specs.Seen.{Calls};
ghost use Rattle.keel_space.specs.Tracked.{size_of};
ghost use Rattle.keel_trash.specs.Formulas.{is_immediate};
ghost use Rattle.keel_trash.specs.Steps.{IsFollowed, space_after as space_after_of};
ghost use Rattle.keel_trash.specs.declared.entry.Names.TheVariants as names;

use crate::deletion::{Deletion, Next, retirement, trash_deletion};
use crate::entry::{Names, Retired, trash_name};
use crate::formulas::{immediate, next_tick};
use crate::step::DeleteStep;
use keel_base::{Entry, FileName, OutOfMemory};
use keel_disk::{Disk, DiskError};
use keel_space::Space;
use std::alloc::Global;
use std::collections::VecDeque;
use std::marker::Model;

/// Queues of files that are to be deleted, and how fast. Sizes are in bytes, ticks of one millisecond.
#[derive(Debug, Drop)]
pub struct Trash {
    rate: u64,
    ratio: u32,
    chunk: u64,
    purge: VecDeque<FileName>,
    retire: VecDeque<Retired>,
    trash: VecDeque<Entry>,
    start: Option<u64>,
    taken: u128,
    spare: usize,
}

impl Model for Trash {
    ghost use Rattle.std.specs.Prelude.{◌+◌, ◌≤◌};
    ghost use Rattle.std.specs.VecDeque.{deque_len, deque_capacity};
    ghost use Rattle.keel_trash.specs.State.{TrashState};

    ghost Value = { TrashState };

    ghost view = { λ t. record {
      rate = t.rate;
      ratio = t.ratio;
      chunk = t.chunk;
      purge = t.purge.items;
      retire = t.retire.items;
      trash = t.trash.items;
      start = t.start;
      taken = t.taken;
      spare = t.spare;
    } };

    // Each entry of the retire queue may move to the trash queue.
    ghost invariant = { λ t. (deque_len t.purge + t.spare ≤ deque_capacity t.purge) × (deque_len t.retire + t.spare ≤ deque_capacity t.retire)
        × (deque_len t.trash + deque_len t.retire + t.spare ≤ deque_capacity t.trash) };
}

impl Trash {
    ghost use Rattle.keel_trash.specs.State.{TrashState, empty, AreQueued};
    ghost use Rattle.keel_trash.specs.Next.{next_of, retire_next, trash_next, goes_at_once};
    ghost use Rattle.keel_trash.specs.Steps.{put_back as rotated, doubted, halved, went as gone, after, after_refusal, Deletes, Steps, call_of, change_of, outcome, HasFirst, IsNext};

    /// Nothing waits. `rate` is the bytes that may be deleted in a second, 0 for no bound; `ratio` the share of trash, in
    /// thousandths of the total, over which tables are removed at once; `chunk` the bytes of a cut, 0 for none.
    pub fn new(alloc: Global, rate: u64, ratio: u32, chunk: u64) -> Trash
        ensures { result ≡ empty rate ratio chunk }
    {
        Trash {
            rate,
            ratio,
            chunk,
            purge: VecDeque::new(alloc),
            retire: VecDeque::new(alloc),
            trash: VecDeque::new(alloc),
            start: None,
            taken: 0,
            spare: 0,
        }
    }

    /// Makes room for `n` entries more. Refused memory leaves all as it was.
    pub fn grow(&mut self, n: usize) -> Result<(), OutOfMemory>
        ensures ok { OnOk result (n ≤ self.new.spare) }
        ensures no_less { self.old.spare ≤ self.new.spare }
        ensures same { self.new ≡ record self.old { spare = self.new.spare } }
        ensures err { OnErr result (self.new ≡ self.old) }
    {
        if n <= self.spare {
            return Ok(());
        }
        let moving = self.retire.len().checked_add(n).ok_or(OutOfMemory)?;
        self.purge.reserve(n)?;
        self.retire.reserve(n)?;
        self.trash.reserve(moving)?;
        self.spare = n;
        Ok(())
    }

    /// A table that no reading needs any more is to be deleted.
    pub fn retire(&mut self, name: FileName, size: u64)
        requires { 0 < self.old.spare }
        ensures { self.new ≡ record self.old { retire = self.old.retire ++ record { name = name; size = size; names = names.Plain } ∷ []; spare = self.old.spare - 1 } }
    {
        self.spare -= 1;
        self.retire.push_back_reserved(Retired {
            name,
            size,
            names: Names::Plain,
        });
    }

    /// A file that isn't tracked is to be removed.
    pub fn purge(&mut self, name: FileName)
        requires { 0 < self.old.spare }
        ensures { self.new ≡ record self.old { purge = self.old.purge ++ name ∷ []; spare = self.old.spare - 1 } }
    {
        self.spare -= 1;
        self.purge.push_back_reserved(name);
    }

    /// A trash file that was found at an opening is to be deleted.
    pub fn adopt(&mut self, name: FileName, size: u64)
        requires { 0 < self.old.spare }
        ensures { self.new ≡ record self.old { trash = self.old.trash ++ record { name = name; size = size } ∷ []; spare = self.old.spare - 1 } }
    {
        self.spare -= 1;
        self.trash.push_back_reserved(Entry { name, size });
    }

    /// Whether a table is removed at once: without a bound on the rate, or where trash is over its share of the total.
    pub fn immediate(rate: u64, ratio: u32, total: u128, trash: u128) -> bool
        ensures { result ≡ is_immediate rate ratio total trash }
    {
        immediate(rate, ratio, total, trash)
    }

    /// Makes the next deletion at this tick, at most one call on the device.
    ///
    /// `Idle` comes exactly where all queues are empty, and `Wait` where trash alone waits and isn't due; both make no call.
    /// `Refused` comes only where the device counted a fault. Behind `OutOfMemory` all is as before.
    pub fn delete_step<D: Disk>(
        &mut self,
        alloc: Global,
        disk: &mut D,
        space: &mut Space,
        now: u64,
    ) -> DeleteStep
        requires { AreQueued self.old space.old }
        ensures step { Steps (next_of self.old space.old now) now result self.old self.new space.old space.new }
        ensures queued { AreQueued self.new space.new }
        ensures rest { call_of (next_of self.old space.old now) ≡ None → disk.new ≡ disk.old }
        ensures call { IfSome (call_of (next_of self.old space.old now)) (λ change. Calls (D.seen disk.old) change (outcome result) (D.seen disk.new)) }
        ensures cause { FaultCounted (D.seen disk.old).faults (D.seen disk.new).faults (D.seen disk.new).last_fault (disk_fault (outcome result)) }
    {
        match self.next(space, now) {
            Next::Rest => DeleteStep::Idle,
            Next::Wait { until } => DeleteStep::Wait { until },
            Next::Delete(deletion) => self.delete(alloc, disk, space, now, deletion),
        }
    }

    fn delete<D: Disk>(
        &mut self,
        alloc: Global,
        disk: &mut D,
        space: &mut Space,
        now: u64,
        deletion: Deletion,
    ) -> DeleteStep
        requires { IsNext deletion self.old space.old }
        ensures step { Deletes deletion now result self.old self.new space.old space.new }
        ensures call { Calls (D.seen disk.old) (change_of deletion) (outcome result) (D.seen disk.new) }
    {
        match deletion.call(alloc, disk) {
            Ok(()) => {
                self.settle(deletion, now);
                follow(deletion, space);
                deletion.answer()
            }
            Err(DiskError::Fault(fault)) => {
                self.put_back(deletion);
                DeleteStep::Refused(fault)
            }
            Err(DiskError::OutOfMemory) => DeleteStep::OutOfMemory,
        }
    }

    fn next(&self, space: &Space, now: u64) -> Next
        ensures { result ≡ next_of self.now space.now now }
    {
        if let Some(name) = self.purge.front() {
            return Next::Delete(Deletion::Purge { name: *name });
        }
        if let Some(entry) = self.retire.front() {
            return Next::Delete(retirement(*entry, self.at_once(entry.name, space)));
        }
        self.next_trash(now)
    }

    // Whether a retired table is removed at once.
    fn at_once(&self, name: FileName, space: &Space) -> bool
        ensures { result ≡ goes_at_once self.now space.now name }
    {
        immediate(self.rate, self.ratio, space.total(), space.trash())
            || space.tracks(trash_name(name))
    }

    fn next_trash(&self, now: u64) -> Next
        ensures { result ≡ trash_next self.now now self.now.trash }
    {
        let Some(file) = self.trash.front() else {
            return Next::Rest;
        };
        let until = next_tick(self.rate, self.start, self.taken);
        if now < until {
            return Next::Wait { until };
        }
        Next::Delete(trash_deletion(*file, self.chunk))
    }

    // The queues behind a deletion that was done.
    fn settle(&mut self, deletion: Deletion, now: u64)
        requires { HasFirst deletion self.old }
        ensures { self.new ≡ after deletion now self.old }
    {
        match deletion {
            Deletion::Purge { .. } => self.drop_purged(),
            Deletion::Remove { .. } => self.drop_retired(),
            Deletion::Rename { trash, size, .. } => self.move_to_trash(trash, size),
            Deletion::RemovePlain { .. } => self.halve(),
            Deletion::RemoveRenamed { .. } => self.drop_retired(),
            Deletion::Cut {
                name,
                length,
                taken,
            } => self.shorten(name, length, taken, now),
            Deletion::RemoveTrash { size, .. } => self.drop_trash(size, now),
        }
    }

    // The queues behind one that the device refused.
    fn put_back(&mut self, deletion: Deletion)
        requires { HasFirst deletion self.old }
        ensures { self.new ≡ after_refusal deletion self.old }
    {
        match deletion {
            Deletion::Purge { .. } => self.rotate_purge(),
            Deletion::Remove { .. } => self.rotate_retire(),
            Deletion::Rename { .. } => self.doubt(),
            Deletion::RemovePlain { .. } => self.rotate_retire(),
            Deletion::RemoveRenamed { .. } => self.rotate_retire(),
            Deletion::Cut { .. } => self.rotate_trash(),
            Deletion::RemoveTrash { .. } => self.rotate_trash(),
        }
    }

    fn drop_purged(&mut self)
        ensures { self.new ≡ record self.old { purge = drop 1 self.old.purge } }
    {
        let _ = self.purge.pop_front();
    }

    fn drop_retired(&mut self)
        ensures { self.new ≡ record self.old { retire = drop 1 self.old.retire } }
    {
        let _ = self.retire.pop_front();
    }

    fn move_to_trash(&mut self, name: FileName, size: u64)
        requires { 0 < length self.old.retire }
        ensures { self.new ≡ record self.old { retire = drop 1 self.old.retire; trash = self.old.trash ++ record { name = name; size = size } ∷ [] } }
    {
        let _ = self.retire.pop_front();
        self.trash.push_back_reserved(Entry { name, size });
    }

    // The own name of the first retired table is gone.
    fn halve(&mut self)
        ensures { self.new ≡ record self.old { retire = halved self.old.retire } }
    {
        if let Some(entry) = self.retire.pop_front() {
            self.retire.push_front_reserved(Retired {
                name: entry.name,
                size: entry.size,
                names: Names::TrashOnly,
            });
        }
    }

    // The first retired table may have either name.
    fn doubt(&mut self)
        ensures { self.new ≡ record self.old { retire = doubted self.old.retire } }
    {
        if let Some(entry) = self.retire.pop_front() {
            self.retire.push_back_reserved(Retired {
                name: entry.name,
                size: entry.size,
                names: Names::Both,
            });
        }
    }

    fn shorten(&mut self, name: FileName, size: u64, taken: u64, now: u64)
        requires { 0 < length self.old.trash }
        ensures { self.new ≡ gone now taken (record { name = name; size = size } ∷ drop 1 self.old.trash) self.old }
    {
        let _ = self.trash.pop_front();
        self.trash.push_front_reserved(Entry { name, size });
        self.count(taken, now);
    }

    fn drop_trash(&mut self, size: u64, now: u64)
        ensures { self.new ≡ gone now size (drop 1 self.old.trash) self.old }
    {
        let _ = self.trash.pop_front();
        self.count(size, now);
    }

    // So many bytes of trash went at this tick. Where no trash is left, the count begins anew.
    fn count(&mut self, taken: u64, now: u64)
        ensures { self.new ≡ gone now taken self.old.trash self.old }
    {
        if self.trash.is_empty() {
            self.start = None;
            self.taken = 0;
            return;
        }
        self.start = Some(self.start.unwrap_or(now));
        self.taken = self.taken.saturating_add(taken as u128);
    }

    fn rotate_purge(&mut self)
        requires { 0 < length self.old.purge }
        ensures { self.new ≡ record self.old { purge = rotated self.old.purge } }
    {
        self.purge.rotate_left(1);
    }

    fn rotate_retire(&mut self)
        requires { 0 < length self.old.retire }
        ensures { self.new ≡ record self.old { retire = rotated self.old.retire } }
    {
        self.retire.rotate_left(1);
    }

    fn rotate_trash(&mut self)
        requires { 0 < length self.old.trash }
        ensures { self.new ≡ record self.old { trash = rotated self.old.trash } }
    {
        self.trash.rotate_left(1);
    }
}

// The tracked files behind a deletion that was done.
fn follow(deletion: Deletion, space: &mut Space)
    requires { IsFollowed deletion space.old }
    ensures { space.new ≡ space_after_of deletion space.old }
{
    match deletion {
        Deletion::Purge { .. } => {}
        Deletion::Remove { name } => space.untrack(name),
        Deletion::Rename { name, trash, .. } => space.move_name(name, trash),
        Deletion::RemovePlain { .. } => {}
        Deletion::RemoveRenamed { name, .. } => space.untrack(name),
        Deletion::Cut { name, length, .. } => space.shrink(name, length),
        Deletion::RemoveTrash { name, .. } => space.untrack(name),
    }
}
