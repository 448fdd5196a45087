// The standing error.
ghost use Rattle.std.specs.Prelude.{◌≡◌, ℕ, ◌+◌, ◌<◌, ◌↔◌, Bool, List, [], ◌∷◌, ◌++◌, Option, None, IsTrue};
ghost use Rattle.keel_base.specs.declared.failure.Failure.{Failure};
ghost use Rattle.keel_grade.specs.Grades.{grade_of};
ghost use Rattle.keel_handler.specs.Failures.{severity as severity_of, may_pass as may_pass_of, is_passing as is_passing_of, standing_severity as standing_severity_of, IsStanding, Stops, WorkStops};

use crate::{Due, Noted};
use keel_base::{Failure, Fault, Grade};
use keel_grade::{grade, severity as severity_of};
use std::marker::Model;

/// The first failure of the greatest severity since the last clear, and the attempts to recover from it. Ticks are
/// of one millisecond.
#[derive(Debug, Drop)]
pub struct Handler {
    paranoid: bool,
    auto: bool,
    most: u32,
    interval: u64,
    standing: Option<Failure>,
    attempts: u32,
    due: u64,
    given_up: bool,
}

impl Model for Handler {
    ghost use Rattle.std.specs.Prelude.{◌≤◌};
    ghost use Rattle.keel_handler.specs.Recovery.{HandlerState};

    ghost Value = { HandlerState };

    ghost view = { λ h. record {
      paranoid = h.paranoid;
      auto = h.auto;
      most = h.most;
      interval = h.interval;
      standing = h.standing;
      attempts = h.attempts;
      due = h.due;
      given_up = h.given_up;
    } };

    ghost invariant = { λ h. h.attempts ≤ h.most };
}

impl Handler {
    ghost use Rattle.keel_handler.specs.Recovery.{StandsFor, renewed, fresh, Notes, is_off, stops_writes, stops_work, recovers as recovers_from, Dues, postponed};

    /// No failure was met. `paranoid` takes doubtful failures as severe; with `auto`, recovery is tried by itself, at
    /// most `attempts` times for one standing error, `interval` ticks apart.
    pub fn new(paranoid: bool, auto: bool, attempts: u32, interval: u64) -> Handler
        ensures fresh { result ≡ fresh paranoid auto attempts interval }
        ensures stands { StandsFor result [] }
    {
        Handler {
            paranoid,
            auto,
            most: attempts,
            interval,
            standing: None,
            attempts: 0,
            due: 0,
            given_up: false,
        }
    }

    /// How bad a failure is by this handler's own setting of `paranoid`. It takes no note of it.
    pub fn grade(&self, failure: Failure) -> Grade
        ensures { result ≡ grade_of failure.reason failure.fault self.now.paranoid }
    {
        grade(failure.reason, failure.fault, self.paranoid)
    }

    /// Takes note of a failure. It replaces the standing error only where it is more severe, as in RocksDB. The count
    /// of attempts then begins anew, and recovery that had given up is on again.
    pub fn note(&mut self, failure: Failure) -> Noted
        ensures answer { Notes self.old failure result self.new }
        ensures stands { (failures : List Failure) → StandsFor self.old failures → StandsFor self.new (failures ++ failure ∷ []) }
    {
        if severity(self.paranoid, failure) <= standing_severity(self.paranoid, self.standing) {
            return Noted::Kept;
        }
        self.renew(Some(failure));
        Noted::Replaced
    }

    /// The standing error.
    pub fn standing(&self) -> Option<Failure>
        ensures value { result ≡ self.now.standing }
        ensures stands { (failures : List Failure) → StandsFor self.now failures → IsStanding self.now.paranoid failures result }
    {
        self.standing
    }

    /// Whether writes are stopped: the standing error is `Hard` or worse.
    pub fn stops(&self) -> bool
        ensures value { result ≡ stops_writes self.now }
        ensures stands { (failures : List Failure) → StandsFor self.now failures → (IsTrue result ↔ Stops self.now.paranoid failures) }
    {
        standing_severity(self.paranoid, self.standing) >= 2
    }

    /// Whether background work is stopped: where writes are, and also by a milder error where automatic recovery is
    /// off, since nothing would end it.
    pub fn work_stops(&self) -> bool
        ensures value { result ≡ stops_work self.now }
        ensures stands { (failures : List Failure) → StandsFor self.now failures → (IsTrue result ↔ WorkStops self.now.paranoid failures (is_off self.now)) }
    {
        self.stops() || self.standing.is_some() && (!self.auto || self.given_up)
    }

    /// Forgets all failures and attempts.
    pub fn clear(&mut self)
        ensures value { self.new ≡ renewed None self.old }
        ensures stands { StandsFor self.new [] }
    {
        self.renew(None);
    }

    /// Whether an automatic attempt is due at this tick. It counts no attempt. `GivenUp` comes once: it turns automatic
    /// recovery off until another error stands or none.
    pub fn due(&mut self, now: u64) -> Due
        ensures answer { Dues self.old now result self.new }
        ensures stands { (failures : List Failure) → StandsFor self.old failures → StandsFor self.new failures }
    {
        if !self.recovers() {
            return Due::No;
        }
        if self.attempts >= self.most {
            self.given_up = true;
            return Due::GivenUp {
                attempts: self.attempts,
            };
        }
        if now < self.due {
            return Due::Wait { until: self.due };
        }
        Due::Now
    }

    /// Counts an attempt, for which a job was started.
    pub fn begin_attempt(&mut self)
        requires { self.old.attempts < self.old.most }
        ensures counted { self.new ≡ record self.old { attempts = self.old.attempts + 1 } }
        ensures stands { (failures : List Failure) → StandsFor self.old failures → StandsFor self.new failures }
    {
        self.attempts += 1;
    }

    /// An attempt ended at this tick without a clear. The next one is due an interval later, also where the attempt's own
    /// failure is the standing error now.
    pub fn end_attempt(&mut self, now: u64)
        ensures due { self.new ≡ postponed now self.old }
        ensures stands { (failures : List Failure) → StandsFor self.old failures → StandsFor self.new failures }
    {
        self.due = now.saturating_add(self.interval);
    }

    // Another error stands, or none, and nothing was tried against it yet.
    fn renew(&mut self, standing: Option<Failure>)
        ensures { self.new ≡ renewed standing self.old }
    {
        self.standing = standing;
        self.attempts = 0;
        self.due = 0;
        self.given_up = false;
    }

    // Whether automatic recovery is on, and the standing error is one for it.
    fn recovers(&self) -> bool
        ensures { result ≡ recovers_from self.now }
    {
        self.auto && !self.given_up && is_passing(self.paranoid, self.standing)
    }
}

fn severity(paranoid: bool, failure: Failure) -> u8
    ensures { result ≡ severity_of paranoid failure }
{
    severity_of(grade(failure.reason, failure.fault, paranoid))
}

fn standing_severity(paranoid: bool, standing: Option<Failure>) -> u8
    ensures { result ≡ standing_severity_of paranoid standing }
{
    match standing {
        Some(failure) => severity(paranoid, failure),
        None => 0,
    }
}

// Whether an error may pass, and is neither none nor fatal.
fn is_passing(paranoid: bool, standing: Option<Failure>) -> bool
    ensures { result ≡ is_passing_of paranoid standing }
{
    match standing {
        Some(failure) => {
            let severity = severity(paranoid, failure);
            may_pass(failure.fault) && severity >= 1 && severity <= 2
        }
        None => false,
    }
}

fn may_pass(fault: Fault) -> bool
    ensures { result ≡ may_pass_of fault }
{
    match fault {
        Fault::NoSpace => true,
        Fault::Retryable => true,
        Fault::Plain => false,
        Fault::SpaceLimit => false,
        Fault::Fenced => false,
        Fault::DataLoss => false,
        Fault::Corrupt => false,
    }
}
