// Closing a store: nothing is under way any more, and each ticket has an outcome.
ghost use Rattle.std.specs.Prelude.{◌≡◌, ◌≤◌, ◌^◌};
ghost use Rattle.keel_machine.specs.Turns.{ShuttingDown};
ghost use Rattle.keel_machine.specs.Closing.{number_behind};
ghost use Rattle.keel_core.specs.Shutdown.{group_closed, jobs_closed, open_in, queue_closed};
ghost use Rattle.keel_core.specs.Views.{TakesTurn};

use crate::boot::Boot;
use crate::store::Core;
use keel_base::LAST_NUMBER;
use keel_disk::Disk;
use keel_machine::Outcome;

impl<D: Disk> Core<D> {
    /// Closes the store, and says how many tickets had no outcome: that of each is `Closed`. It makes no call of the device
    /// and takes no memory. The group in flight, the flush and the boot or resume are cancelled; what was handed to a log
    /// may be shown by a later opening. Reads are answered as before, and the device is handed back by `finish`.
    pub fn close(&mut self) -> u64
        ensures turn { TakesTurn self.old (ShuttingDown result) self.new }
    {
        let tickets = self.open_tickets();
        self.close_group();
        self.close_queue();
        self.close_jobs();
        tickets
    }

    fn open_tickets(&self) -> u64
        ensures { result ≡ open_in self.now }
    {
        self.queue.open_tickets()
    }

    // The group in flight is over.
    fn close_group(&mut self)
        ensures { self.new ≡ group_closed self.old }
    {
        self.queue.close_group();
    }

    // Nobody waits.
    fn close_queue(&mut self)
        ensures { self.new ≡ queue_closed self.old }
    {
        self.queue.turn_away(Outcome::Closed);
    }

    // No other job is under way.
    fn close_jobs(&mut self)
        ensures { self.new ≡ jobs_closed self.old }
    {
        let booted = self.has_booted();
        self.boot_job = number_closed(self.is_resuming(), self.boot_job);
        self.boot = Boot::Closed { booted };
        self.flush_job = number_closed(self.flush.is_some(), self.flush_job);
        self.flush = None;
    }
}

// The number of a slot behind a close, which cancels what runs. It stays where it is at its end.
pub(crate) fn number_closed(runs: bool, number: u64) -> u64
    ensures { result ≡ number_behind runs number }
{
    if runs && number < LAST_NUMBER {
        number + 1
    } else {
        number
    }
}
