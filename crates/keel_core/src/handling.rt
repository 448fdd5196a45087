// The failure that stands.
ghost use Rattle.std.specs.Prelude.{◌≡◌};
ghost use Rattle.keel_handler.specs.Failures.{where_severe};
ghost use Rattle.keel_core.specs.Failing.{noted};

use keel_base::Failure;
use keel_handler::Handler;

/// Takes note of a failure.
pub(crate) fn note(handler: &mut Handler, failure: Failure)
    ensures { handler.new ≡ noted failure handler.old }
{
    let _ = handler.note(failure);
}

/// The failure that stands where it stops writes.
pub(crate) fn stopping(handler: &Handler) -> Option<Failure>
    ensures { result ≡ where_severe handler.now.paranoid handler.now.standing }
{
    if handler.stops() {
        handler.standing()
    } else {
        None
    }
}
