// From a line to its command.
ghost use Rattle.std.specs.Prelude.{◌≡◌, ◌⊎◌, IfOk, IsErrOf, MatchOption, Ok, Err};
ghost use Rattle.keel_script.specs.Grammar.{Says};
ghost use Rattle.keel_script.specs.Reading as reads;
ghost use Rattle.keel_script.specs.Words.{words_of};
ghost use Rattle.keel_script.specs.declared.command.Command.{Command};

use crate::arguments::{call, device_fault, end, number, number_up_to, option_name, sync, text};
use crate::verb::{VERBS, Verb, verb_name};
use crate::words::next_word;
use crate::{Command, LineError};
use std::alloc::Global;

/// The command that a line says.
/// `NotACommand` comes exactly where it says none, unless memory ran out before that was known.
pub fn read_command(alloc: Global, line: &[u8]) -> Result<Command, LineError>
    ensures found { IfOk result (λ command. Says line.now command) }
    ensures only { (command : Command) → Says line.now command → (result ≡ Ok command) ⊎ (result ≡ Err LineError.OutOfMemory) }
    ensures refused { IsErrOf result LineError.NotACommand → (command : Command) → Says line.now command → ⊥ }
{
    command(alloc, line)
}

// The same, as it is computed.
#[tactic(auto, unfolding(crate::specs::Reading::command_from))]
fn command(alloc: Global, line: &[u8]) -> Result<Command, LineError>
    ensures { reads.Gives (λ command. command) result (reads.command_from (words_of line.now)) }
{
    match verb(line) {
        Some((verb, rest)) => behind(alloc, verb, rest),
        None => Err(LineError::NotACommand),
    }
}

#[tactic(auto, unfolding(crate::specs::Reading::first_by))]
fn verb(line: &[u8]) -> Option<(Verb, &[u8])>
    ensures { reads.Shows (λ x. (x.0, words_of x.1.now)) result (reads.first_by reads.verb_from (words_of line.now)) }
{
    let (word, rest) = next_word(line)?;
    let verb = find_verb(word)?;
    Some((verb, rest))
}

fn find_verb(word: &[u8]) -> Option<Verb>
    ensures { result ≡ reads.verb_from word.now }
{
    VERBS.iter().copied().find(|verb| verb_name(*verb) == word)
}

// The command with this first word.
#[tactic(auto, unfolding(crate::specs::Reading::behind))]
fn behind(alloc: Global, verb: Verb, line: &[u8]) -> Result<Command, LineError>
    ensures { reads.Gives (λ command. command) result (reads.behind verb (words_of line.now)) }
{
    match verb {
        Verb::SetOption => found(set_option(line)),
        Verb::Open => found(alone(Command::Open, line)),
        Verb::Put => put(alloc, line),
        Verb::Del => del(alloc, line),
        Verb::Queue => queue(alloc, line),
        Verb::Write => found(alone(Command::Write, line)),
        Verb::Flush => found(alone(Command::Flush, line)),
        Verb::Compact => found(compact(line)),
        Verb::Delete => found(alone(Command::Delete, line)),
        Verb::Resume => found(alone(Command::Resume, line)),
        Verb::ResumeStep => found(alone(Command::ResumeStep, line)),
        Verb::Drain => found(drain(line)),
        Verb::Tick => found(tick(line)),
        Verb::Get => get(alloc, line),
        Verb::Scan => scan(alloc, line),
        Verb::Error => found(alone(Command::Error, line)),
        Verb::Space => found(alone(Command::Space, line)),
        Verb::Files => found(alone(Command::Files, line)),
        Verb::Levels => found(alone(Command::Levels, line)),
        Verb::Limit => found(limit(line)),
        Verb::Close => found(alone(Command::Close, line)),
        Verb::Fail => found(fail(line)),
        Verb::Capacity => found(capacity(line)),
        Verb::Crash => found(crash(line)),
    }
}

// What needed no memory to be read.
fn found<T: Drop>(there: Option<T>) -> Result<T, LineError>
    ensures { MatchOption there (result ≡ Err LineError.NotACommand) (λ value. result ≡ Ok value) }
{
    match there {
        Some(value) => Ok(value),
        None => Err(LineError::NotACommand),
    }
}

#[tactic(auto, unfolding(crate::specs::Reading::alone))]
fn alone(command: Command, line: &[u8]) -> Option<Command>
    ensures { reads.Shows (λ command. command) result (reads.alone command (words_of line.now)) }
{
    end(line)?;
    Some(command)
}

#[tactic(auto, unfolding(crate::specs::Reading::set_option_at))]
fn set_option(line: &[u8]) -> Option<Command>
    ensures { reads.Shows (λ command. command) result (reads.set_option_at (words_of line.now)) }
{
    let (name, line) = option_name(line)?;
    let (value, line) = number(line)?;
    end(line)?;
    Some(Command::SetOption { name, value })
}

#[tactic(auto, unfolding(crate::specs::Reading::put_at))]
fn put(alloc: Global, line: &[u8]) -> Result<Command, LineError>
    ensures { reads.Gives (λ command. command) result (reads.put_at (words_of line.now)) }
{
    let (key, line) = text(alloc, line)?;
    let (value, line) = text(alloc, line)?;
    let sync = found(sync(line))?;
    Ok(Command::Put { key, value, sync })
}

#[tactic(auto, unfolding(crate::specs::Reading::del_at))]
fn del(alloc: Global, line: &[u8]) -> Result<Command, LineError>
    ensures { reads.Gives (λ command. command) result (reads.del_at (words_of line.now)) }
{
    let (key, line) = text(alloc, line)?;
    let sync = found(sync(line))?;
    Ok(Command::Del { key, sync })
}

#[tactic(auto, unfolding(crate::specs::Reading::queue_at))]
fn queue(alloc: Global, line: &[u8]) -> Result<Command, LineError>
    ensures { reads.Gives (λ command. command) result (reads.queue_at (words_of line.now)) }
{
    let Some((client, line)) = number_up_to(line, 63) else {
        return Err(LineError::NotACommand);
    };
    let Some((write, line)) = next_word(line) else {
        return Err(LineError::NotACommand);
    };
    if write == b"put".as_slice() {
        queue_put(alloc, client as u8, line)
    } else if write == b"del".as_slice() {
        queue_del(alloc, client as u8, line)
    } else {
        Err(LineError::NotACommand)
    }
}

#[tactic(auto, unfolding(crate::specs::Reading::queue_put_at))]
fn queue_put(alloc: Global, client: u8, line: &[u8]) -> Result<Command, LineError>
    ensures { reads.Gives (λ command. command) result (reads.queue_put_at client (words_of line.now)) }
{
    let (key, line) = text(alloc, line)?;
    let (value, line) = text(alloc, line)?;
    let sync = found(sync(line))?;
    Ok(Command::QueuePut {
        client,
        key,
        value,
        sync,
    })
}

#[tactic(auto, unfolding(crate::specs::Reading::queue_del_at))]
fn queue_del(alloc: Global, client: u8, line: &[u8]) -> Result<Command, LineError>
    ensures { reads.Gives (λ command. command) result (reads.queue_del_at client (words_of line.now)) }
{
    let (key, line) = text(alloc, line)?;
    let sync = found(sync(line))?;
    Ok(Command::QueueDel { client, key, sync })
}

#[tactic(auto, unfolding(crate::specs::Reading::compact_at))]
fn compact(line: &[u8]) -> Option<Command>
    ensures { reads.Shows (λ command. command) result (reads.compact_at (words_of line.now)) }
{
    let (slot, line) = number_up_to(line, 1)?;
    end(line)?;
    Some(Command::Compact { slot: slot as u8 })
}

#[tactic(auto, unfolding(crate::specs::Reading::drain_at))]
fn drain(line: &[u8]) -> Option<Command>
    ensures { reads.Shows (λ command. command) result (reads.drain_at (words_of line.now)) }
{
    let (moves, line) = number_up_to(line, 1_000_000)?;
    end(line)?;
    Some(Command::Drain { moves })
}

#[tactic(auto, unfolding(crate::specs::Reading::tick_at))]
fn tick(line: &[u8]) -> Option<Command>
    ensures { reads.Shows (λ command. command) result (reads.tick_at (words_of line.now)) }
{
    let (ticks, line) = number(line)?;
    end(line)?;
    Some(Command::Tick { ticks })
}

#[tactic(auto, unfolding(crate::specs::Reading::get_at))]
fn get(alloc: Global, line: &[u8]) -> Result<Command, LineError>
    ensures { reads.Gives (λ command. command) result (reads.get_at (words_of line.now)) }
{
    let (key, line) = text(alloc, line)?;
    found(end(line))?;
    Ok(Command::Get { key })
}

#[tactic(auto, unfolding(crate::specs::Reading::scan_at))]
fn scan(alloc: Global, line: &[u8]) -> Result<Command, LineError>
    ensures { reads.Gives (λ command. command) result (reads.scan_at (words_of line.now)) }
{
    let (from, line) = text(alloc, line)?;
    let (to, line) = text(alloc, line)?;
    found(end(line))?;
    Ok(Command::Scan { from, to })
}

#[tactic(auto, unfolding(crate::specs::Reading::limit_at))]
fn limit(line: &[u8]) -> Option<Command>
    ensures { reads.Shows (λ command. command) result (reads.limit_at (words_of line.now)) }
{
    let (limit, line) = number(line)?;
    end(line)?;
    Some(Command::Limit { limit })
}

#[tactic(auto, unfolding(crate::specs::Reading::fail_at))]
fn fail(line: &[u8]) -> Option<Command>
    ensures { reads.Shows (λ command. command) result (reads.fail_at (words_of line.now)) }
{
    let (call, line) = call(line)?;
    let (fault, line) = device_fault(line)?;
    let (skip, line) = number(line)?;
    let (times, line) = number(line)?;
    let (keep, line) = number(line)?;
    end(line)?;
    Some(Command::Fail {
        call,
        fault,
        skip,
        times,
        keep,
    })
}

#[tactic(auto, unfolding(crate::specs::Reading::capacity_at))]
fn capacity(line: &[u8]) -> Option<Command>
    ensures { reads.Shows (λ command. command) result (reads.capacity_at (words_of line.now)) }
{
    let (bytes, line) = number(line)?;
    end(line)?;
    Some(Command::Capacity { bytes })
}

#[tactic(auto, unfolding(crate::specs::Reading::crash_at))]
fn crash(line: &[u8]) -> Option<Command>
    ensures { reads.Shows (λ command. command) result (reads.crash_at (words_of line.now)) }
{
    let (dirops, line) = number(line)?;
    let (keep, line) = number(line)?;
    let (garbage, line) = number(line)?;
    let (seed, line) = number(line)?;
    end(line)?;
    Some(Command::Crash {
        dirops,
        keep,
        garbage,
        seed,
    })
}
