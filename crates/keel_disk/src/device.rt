// A disk on which a driver arranges failures and crashes.
ghost use Rattle.std.specs.Prelude.{◌≡◌, IfOk};
ghost use Rattle.keel_disk.specs.declared.rule.Arranged.TheVariants as Arranged;
ghost use Rattle.keel_disk.specs.Seen.{IsArranged};
ghost use Rattle.keel_disk.specs.Told.{Arranges, Crashes};
ghost use Rattle.keel_disk.specs.Rule.{IsAllowed};

use crate::{Disk, Pick, Rule};
use keel_base::OutOfMemory;
use std::alloc::Global;

/// A disk on which failures and crashes can be arranged, where it is simulated. Where it isn't, these calls
/// answer false and change nothing.
pub trait Device: Disk {
    /// Whether failures and crashes can be arranged.
    fn simulated(&self) -> bool
        ensures { result ≡ (Self.seen self.now).simulated };

    /// Arranges how calls are to fail, or how much the device holds. The room may change, and nothing else.
    fn arrange(&mut self, alloc: Global, rule: Rule) -> Result<bool, OutOfMemory>
        requires { IsAllowed rule }
        ensures answer { IfOk result (λ done. done ≡ (Self.seen self.old).simulated) }
        ensures told { Arranges (Self.seen self.old).told result (Self.seen self.new).told }
        ensures rest { IsArranged (Arranged.Armed rule) (Self.seen self.old) result (Self.seen self.new) };

    /// Leaves what a crash at this moment could leave, and counts it where that is forged.
    fn crash(&mut self, alloc: Global, pick: Pick) -> Result<bool, OutOfMemory>
        ensures answer { IfOk result (λ done. done ≡ (Self.seen self.old).simulated) }
        ensures told { Crashes (Self.seen self.old).told result (Self.seen self.new).told }
        ensures rest { IsArranged (Arranged.Crashed pick) (Self.seen self.old) result (Self.seen self.new) };
}
