// Asking for a resume: it draws a number, and cancels what writes. Its calls are made by resume steps.
ghost use Rattle.std.specs.Prelude.{◌≡◌, ◌+◌, ◌<◌, ◌^◌, is_some, true};
ghost use Rattle.keel_machine.specs.Turns.{Starting};
ghost use Rattle.keel_core.specs.Starting.{MayStart, Tests, answered, flush_cancelled, graded_of, group_cancelled, is_number_spent, is_resuming, is_slot_spent, marked, number_behind, started};
ghost use Rattle.keel_core.specs.Views.{TakesTurn};

use crate::boot::Boot;
use crate::store::Core;
use keel_base::{Counter, Failure, LAST_NUMBER};
use keel_disk::Disk;
use keel_grade::severity;
use keel_machine::Start;

impl<D: Disk> Core<D> {
    /// Asks for a resume. It takes no memory, and makes no call: what was started goes on by resume steps. The failures of a
    /// store whose background work alone was stopped are forgotten at once.
    pub fn resume(&mut self) -> Start
        ensures turn { TakesTurn self.old (Starting result) self.new }
    {
        match self.start_test() {
            Ok(failure) => self.start_job(failure),
            Err(answer) => self.answer_with(answer),
        }
    }

    // The call answers so, and starts nothing.
    fn answer_with(&mut self, answer: Start) -> Start
        ensures answer { result ≡ answer }
        ensures view { self.new ≡ answered answer self.old }
    {
        if let Start::Cleared = answer {
            self.handler.clear();
        }
        answer
    }

    // The failure against which a resume is started, or what the call answers where none is.
    fn start_test(&self) -> Result<Failure, Start>
        ensures { Tests self.now result }
    {
        if self.is_closed() {
            return Err(Start::Closing);
        }
        if !self.handler.work_stops() {
            return Err(Start::Nothing);
        }
        let Some(failure) = self.handler.standing() else {
            return Err(Start::Nothing);
        };
        if self.is_resuming() {
            return Err(Start::Busy { job: self.boot_job });
        }
        if let Some(answer) = self.graded_test(failure) {
            return Err(answer);
        }
        if self.is_number_spent() {
            return Err(Start::Spent(Counter::JobNumber));
        }
        Ok(failure)
    }

    // Whether a resume was asked for and isn't over, or the boot is under way.
    pub(crate) fn is_resuming(&self) -> bool
        ensures { result ≡ is_resuming self.now.boot }
    {
        matches!(self.boot, Boot::Started { .. } | Boot::Running { .. })
    }

    // What is answered of a failure by its severity alone: one is beyond a resume, or is forgotten.
    fn graded_test(&self, failure: Failure) -> Option<Start>
        ensures { result ≡ graded_of self.now.handler.paranoid failure }
    {
        let severity = severity(self.handler.grade(failure));
        if severity >= 3 {
            return Some(Start::Beyond(failure));
        }
        if severity == 1 {
            return Some(Start::Cleared);
        }
        None
    }

    // Whether a number that the start would draw is past its end.
    fn is_number_spent(&self) -> bool
        ensures { result ≡ is_number_spent self.now }
    {
        self.boot_job >= LAST_NUMBER
            || is_slot_spent(self.queue.is_flying(), self.queue.job)
            || is_slot_spent(self.flush.is_some(), self.flush_job)
    }

    // A resume has a number, and nothing else is under way.
    fn start_job(&mut self, failure: Failure) -> Start
        requires { MayStart self.old }
        ensures view { self.new ≡ started failure self.old }
        ensures answer { result ≡ Start.Started (self.old.boot_job + 1) }
    {
        self.cancel_group(failure);
        self.cancel_flush();
        self.mark_started()
    }

    // The group in flight is over: its tickets have the failure as their outcome.
    fn cancel_group(&mut self, failure: Failure)
        requires { is_some self.old.group ≡ true → self.old.job < 2 ^ 56 }
        ensures { self.new ≡ group_cancelled failure self.old }
    {
        self.queue.cancel(failure);
    }

    // The flush that runs is over.
    fn cancel_flush(&mut self)
        requires { is_some self.old.flush ≡ true → self.old.flush_job < 2 ^ 56 }
        ensures { self.new ≡ flush_cancelled self.old }
    {
        self.flush_job = number_behind(self.flush.is_some(), self.flush_job);
        self.flush = None;
    }

    fn mark_started(&mut self) -> Start
        requires { self.old.boot_job < 2 ^ 56 }
        ensures view { self.new ≡ marked self.old }
        ensures answer { result ≡ Start.Started (self.old.boot_job + 1) }
    {
        let booted = self.has_booted();
        self.boot_job += 1;
        self.boot = Boot::Started { booted };
        Start::Started { job: self.boot_job }
    }
}

// The number of a slot behind a start, which cancels what runs.
pub(crate) fn number_behind(runs: bool, number: u64) -> u64
    requires { runs ≡ true → number < 2 ^ 56 }
    ensures { result ≡ number_behind runs number }
{
    if runs { number + 1 } else { number }
}

// Whether that would pass the end.
fn is_slot_spent(runs: bool, number: u64) -> bool
    ensures { result ≡ is_slot_spent runs number }
{
    runs && number >= LAST_NUMBER
}
