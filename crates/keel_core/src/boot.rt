// How far the job has come that makes tables of all segments.
ghost use Rattle.std.specs.Prelude.{◌≡◌};
ghost use Rattle.keel_core.specs.Boots.{boot_shown};
ghost use Rattle.keel_core.specs.Views.{resting};

use keel_resume::ResumeJob;
use std::marker::Model;

/// How far the boot of a store, or a resume, has come.
#[derive(Drop)]
pub(crate) enum Boot {
    /// The store boots, and nothing is under way.
    ToStart,
    /// A resume was asked for, and has made no call yet. The boot of this opening had cleared before, or not.
    Started { booted: bool },
    /// A boot or a resume runs.
    Running { booted: bool, running: Resumption },
    /// The boot of this opening has cleared, and nothing is under way.
    Cleared,
    /// The store was closed. The boot of this opening had cleared before, or not.
    Closed { booted: bool },
}

impl Boot {
    /// Nothing is under way.
    pub(crate) fn resting(booted: bool) -> Boot
        ensures { boot_shown result ≡ resting booted }
    {
        if booted { Boot::Cleared } else { Boot::ToStart }
    }
}

/// A boot or a resume, and how many steps it has made.
#[derive(Drop)]
pub(crate) struct Resumption {
    pub(crate) steps: u64,
    pub(crate) job: ResumeJob,
}

impl Model for Resumption {
    ghost use Rattle.keel_machine.specs.States.{Resumption as Run};
    ghost use Rattle.keel_core.specs.Plans.{IsGoing};

    ghost Value = { Run };

    ghost view = { λ r. record { steps = r.steps; job = r.job.job } };

    ghost invariant = { λ r. IsGoing r.job };
}
