// What an open store tells of the failure that stands.
ghost use Rattle.std.specs.Prelude.{◌≡◌, ◌∷◌, []};
ghost use Rattle.keel_core.specs.Views.{StandsFor};
ghost use Rattle.keel_cli.specs.Jobs.{Driven, driven};
ghost use Rattle.keel_cli.specs.Stores.{CoreLeads};
ghost use Rattle.keel_cli.specs.Telling.{ErrorRun, error_reply};

use keel_base::Failure;
use keel_core::Core;
use keel_disk::Device;
use keel_grade::grade;
use keel_script::Reply;

// What a failure that stands is told as.
fn error_reply(paranoid: bool, standing: Option<Failure>) -> Reply
    ensures { result ≡ error_reply paranoid standing }
{
    match standing {
        None => Reply::ErrorNone,
        Some(failure) => Reply::Error {
            failure,
            grade: grade(failure.reason, failure.fault, paranoid),
        },
    }
}

/// Tells the failure that stands, with its grade.
pub(crate) fn error<V: Device>(core: &Core<V>) -> Reply
    ensures { (s : Driven) → StandsFor core.now s.state
        → CoreLeads core.now (λ new. ErrorRun s (result ∷ []) (driven new s.jobs)) }
{
    error_reply(core.options().paranoid, core.standing())
}
