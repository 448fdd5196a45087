// A resume that is asked for.
ghost use Rattle.std.specs.Prelude.{◌≡◌, ◌∷◌, []};
ghost use Rattle.keel_machine.specs.States.{State};
ghost use Rattle.keel_core.specs.Views.{StandsFor};
ghost use Rattle.keel_cli.specs.Jobs.{driven};
ghost use Rattle.keel_cli.specs.Starts.{StartRun, start_reply};
ghost use Rattle.keel_cli.specs.Stores.{CoreLeads, StandsForSome};

use crate::HeldJobs;
use crate::holding::start_held;
use keel_core::Core;
use keel_disk::Device;
use keel_machine::Start;
use keel_script::Reply;

// What asking for a resume is answered.
fn start_reply(start: Start) -> Reply
    ensures { result ≡ start_reply start }
{
    match start {
        Start::Closing => Reply::NotOpen,
        Start::Nothing => Reply::Nothing,
        Start::Busy { job } => Reply::Busy { job },
        Start::Beyond(failure) => Reply::Beyond(failure),
        Start::Cleared => Reply::Cleared,
        Start::Spent(counter) => Reply::Spent(counter),
        Start::Started { job } => Reply::Started { job },
    }
}

/// Asks for a resume, and says what became of it.
pub(crate) fn start<V: Device>(core: &mut Core<V>, jobs: &mut HeldJobs) -> Reply
    requires told { StandsForSome core.old }
    ensures carried { (s : State) → StandsFor core.old s
        → CoreLeads core.new (λ new. StartRun (driven s jobs.old) (result ∷ []) (driven new jobs.new)) }
    ensures told { StandsForSome core.new }
{
    let start = core.resume();
    jobs.resume = start_held(start, jobs.resume);
    start_reply(start)
}
