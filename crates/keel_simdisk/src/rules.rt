// The failures that are armed, in the order of arming.
ghost use Rattle.std.specs.Prelude.{◌≡◌, ◌≢◌, ◌++◌, ◌∷◌, [], OnOk, OnErr, IfSome};
ghost use Rattle.keel_base.specs.declared.failure.Call.{Call};
ghost use Rattle.keel_base.specs.declared.failure.Fault.TheVariants.{SpaceLimit};
ghost use Rattle.keel_simdisk.specs.Rules.{IsMet, Meets, planned_of, counted};

use keel_base::{Call, Fault, OutOfMemory};
use std::alloc::Global;
use std::marker::Model;

/// A failure that is armed: of the calls that look at it, `skip` go on, and then `times` fail.
#[derive(Clone, Copy)]
pub struct Armed {
    pub call: Call,
    pub fault: Fault,
    pub skip: u64,
    pub times: u64,
    pub keep: u64,
}

/// How a call is to fail, and how much of it is done.
#[derive(Clone, Copy)]
pub struct Planned {
    pub fault: Fault,
    pub keep: u64,
}

/// The failure at which a call looks, and its place among all.
#[derive(Clone, Copy)]
pub struct Met {
    pub place: usize,
    pub armed: Armed,
}

/// The failures that are armed. None of them has a fault that devices don't answer.
#[derive(Drop)]
pub struct Rules {
    items: Vec<Armed>,
}

impl Model for Rules {
    ghost use Rattle.std.specs.Prelude.{List};
    ghost use Rattle.keel_simdisk.specs.declared.rules.Armed.{Armed};
    ghost use Rattle.keel_simdisk.specs.Rules.{AreAllowed};

    ghost Value = { List Armed };

    ghost view = { λ r. r.items.items };

    ghost invariant = { λ r. AreAllowed r.items.items };
}

fn count_down(armed: Armed) -> Armed
    ensures { result ≡ counted armed }
{
    if armed.skip == 0 {
        Armed {
            times: armed.times.saturating_sub(1),
            ..armed
        }
    } else {
        Armed {
            skip: armed.skip - 1,
            ..armed
        }
    }
}

/// How a call fails that looks at this.
pub fn plan_of(met: Option<Met>) -> Option<Planned>
    ensures { result ≡ planned_of met }
{
    let Met { place: _, armed } = met?;
    if armed.skip == 0 {
        Some(Planned {
            fault: armed.fault,
            keep: armed.keep,
        })
    } else {
        None
    }
}

impl Rules {
    pub fn new(alloc: Global) -> Rules
        ensures { result ≡ [] }
    {
        Rules {
            items: Vec::new(alloc),
        }
    }

    pub fn arm(&mut self, armed: Armed) -> Result<(), OutOfMemory>
        requires { armed.fault ≢ SpaceLimit }
        ensures ok { OnOk result (self.new ≡ self.old ++ armed ∷ []) }
        ensures err { OnErr result (self.new ≡ self.old) }
    {
        self.items.push(armed)?;
        Ok(())
    }

    pub fn clear(&mut self)
        ensures { self.new ≡ [] }
    {
        self.items.clear();
    }

    /// The first failure of the call's kind that has times left.
    pub fn first(&self, call: Call) -> Option<Met>
        ensures met { IsMet call self.now result }
        ensures allowed { IfSome result (λ met. met.armed.fault ≢ SpaceLimit) }
    {
        for (place, armed) in self.items.iter().enumerate() {
            if armed.times > 0 && armed.call == call {
                return Some(Met {
                    place,
                    armed: *armed,
                });
            }
        }
        None
    }

    /// Counts the call that looked at this.
    pub fn count(&mut self, met: Option<Met>)
        ensures { (call : Call) → IsMet call self.old met → Meets call self.old (planned_of met) self.new }
    {
        if let Some(met) = met {
            if met.place < self.items.len() {
                self.items[met.place] = count_down(self.items[met.place]);
            }
        }
    }
}
