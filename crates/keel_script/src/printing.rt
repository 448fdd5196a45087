// From a command to its line.
ghost use Rattle.std.specs.Prelude.{◌≡◌, ◌∷◌, [], ◌++◌, IfOk, OnOk, codes};
ghost use Rattle.std.specs.Fmt.{decimal};
ghost use Rattle.std.specs.List.{flat_map};
ghost use Rattle.keel_script.specs.Grammar.{command_line, synced};
ghost use Rattle.keel_script.specs.Names.{call_name, fault_name};
ghost use Rattle.keel_script.specs.Parts.{printed_parts};
ghost use Rattle.keel_script.specs.Parts.Part.{Text};

use crate::Command;
use crate::line::{add_number, add_numbers, add_text, add_word, numbers};
use crate::names::{call_name, fault_name};
use keel_base::{Bytes, Call, Fault, OutOfMemory};
use std::alloc::Global;

/// The line that says a command with one space between words and texts in their one printed spelling.
pub fn print_command(alloc: Global, command: &Command) -> Result<Bytes, OutOfMemory>
    ensures { IfOk result (λ line. line ≡ command_line command.now) }
{
    let mut line = Bytes::new(alloc);
    add_command(&mut line, command)?;
    Ok(line)
}

fn add_command(line: &mut Bytes, command: &Command) -> Result<(), OutOfMemory>
    ensures { OnOk result (line.new ≡ line.old ++ command_line command.now) }
{
    match command {
        Command::SetOption { name, value } => {
            line.extend(b"option")?;
            add_word(line, name.name())?;
            add_number(line, *value)
        }
        Command::Open => line.extend(b"open"),
        Command::Put { key, value, sync } => {
            line.extend(b"put")?;
            put(line, key, value, *sync)
        }
        Command::Del { key, sync } => {
            line.extend(b"del")?;
            del(line, key, *sync)
        }
        Command::QueuePut {
            client,
            key,
            value,
            sync,
        } => {
            queued(line, *client, b"put")?;
            put(line, key, value, *sync)
        }
        Command::QueueDel { client, key, sync } => {
            queued(line, *client, b"del")?;
            del(line, key, *sync)
        }
        Command::Write => line.extend(b"write"),
        Command::Flush => line.extend(b"flush"),
        Command::Compact { slot } => numbers(line, b"compact", &[*slot as u128]),
        Command::Delete => line.extend(b"delete"),
        Command::Resume => line.extend(b"resume"),
        Command::ResumeStep => line.extend(b"resume-step"),
        Command::Drain { moves } => numbers(line, b"drain", &[*moves as u128]),
        Command::Tick { ticks } => numbers(line, b"tick", &[*ticks as u128]),
        Command::Get { key } => {
            line.extend(b"get")?;
            add_text(line, key)
        }
        Command::Scan { from, to } => {
            line.extend(b"scan")?;
            add_text(line, from)?;
            add_text(line, to)
        }
        Command::Error => line.extend(b"error"),
        Command::Space => line.extend(b"space"),
        Command::Files => line.extend(b"files"),
        Command::Levels => line.extend(b"levels"),
        Command::Limit { limit } => numbers(line, b"limit", &[*limit as u128]),
        Command::Close => line.extend(b"close"),
        Command::Fail {
            call,
            fault,
            skip,
            times,
            keep,
        } => fail(
            line,
            *call,
            *fault,
            &[*skip as u128, *times as u128, *keep as u128],
        ),
        Command::Capacity { bytes } => numbers(line, b"capacity", &[*bytes as u128]),
        Command::Crash {
            dirops,
            keep,
            garbage,
            seed,
        } => numbers(
            line,
            b"crash",
            &[
                *dirops as u128,
                *keep as u128,
                *garbage as u128,
                *seed as u128,
            ],
        ),
    }
}

// A client's write, up to its key.
fn queued(line: &mut Bytes, client: u8, write: &[u8]) -> Result<(), OutOfMemory>
    ensures { OnOk result (line.new ≡ line.old ++ codes "queue" ++ 32 ∷ decimal client ++ 32 ∷ write.now) }
{
    line.extend(b"queue")?;
    add_number(line, client as u64)?;
    add_word(line, write)
}

fn put(line: &mut Bytes, key: &Bytes, value: &Bytes, sync: bool) -> Result<(), OutOfMemory>
    ensures { OnOk result (line.new ≡ line.old ++ printed_parts (Text key.now ∷ Text value.now ∷ synced sync)) }
{
    add_text(line, key)?;
    add_text(line, value)?;
    add_sync(line, sync)
}

fn del(line: &mut Bytes, key: &Bytes, sync: bool) -> Result<(), OutOfMemory>
    ensures { OnOk result (line.new ≡ line.old ++ printed_parts (Text key.now ∷ synced sync)) }
{
    add_text(line, key)?;
    add_sync(line, sync)
}

fn add_sync(line: &mut Bytes, sync: bool) -> Result<(), OutOfMemory>
    ensures { OnOk result (line.new ≡ line.old ++ printed_parts (synced sync)) }
{
    if sync {
        add_word(line, b"sync")
    } else {
        Ok(())
    }
}

// A failure of a kind of calls, with its numbers.
fn fail(line: &mut Bytes, call: Call, fault: Fault, counts: &[u128]) -> Result<(), OutOfMemory>
    ensures { OnOk result (line.new ≡ line.old ++ codes "fail" ++ 32 ∷ call_name call ++ 32 ∷ fault_name fault ++ flat_map (λ n. 32 ∷ decimal n) counts.now) }
{
    line.extend(b"fail")?;
    add_word(line, call_name(call))?;
    add_word(line, fault_name(fault))?;
    add_numbers(line, counts)
}
