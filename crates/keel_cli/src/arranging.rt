// What is arranged on a simulated device: calls that are to fail, and how much it holds.
ghost use Rattle.std.specs.Prelude.{◌≡◌, [], ◌∷◌, Some, IfOk, IsErr};
ghost use Rattle.keel_cli.specs.Arranging.{arranged_replies, rule_of, rule_reply};

use keel_base::OutOfMemory;
use keel_disk::Rule;
use keel_script::{Command, Reply};

/// The rule that a command asks for, where it asks for one.
pub(crate) fn rule_of(command: &Command) -> Option<Rule>
    ensures { result ≡ rule_of command.now }
{
    match command {
        Command::Fail {
            call,
            fault,
            skip,
            times,
            keep,
        } => Some(Rule::Fail {
            call: *call,
            fault: *fault,
            skip: *skip,
            times: *times,
            keep: *keep,
        }),
        Command::Capacity { bytes } => Some(Rule::Capacity(*bytes)),
        _ => None,
    }
}

// What a rule is answered that was arranged, or that can't be.
fn rule_reply(rule: Rule, done: bool) -> Reply
    ensures { result ≡ rule_reply rule done }
{
    if !done {
        return Reply::NotSimulated;
    }
    match rule {
        Rule::Fail { .. } => Reply::Armed,
        Rule::Capacity(bytes) => Reply::Capacity { bytes },
    }
}

/// The same, where memory did not end at it.
pub(crate) fn arranged_reply(
    rule: Rule,
    arranged: Result<bool, OutOfMemory>,
) -> Result<Reply, OutOfMemory>
    ensures printed { IfOk result (λ reply. arranged_replies rule arranged ≡ Some (reply ∷ [])) }
    ensures cut { IsErr result → IsErr arranged }
{
    match arranged {
        Ok(done) => Ok(rule_reply(rule, done)),
        Err(OutOfMemory) => Err(OutOfMemory),
    }
}
