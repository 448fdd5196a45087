// From a reply to its line.
ghost use Rattle.std.specs.Prelude.{◌≡◌, ◌∷◌, [], ◌++◌, IfOk, OnOk};
ghost use Rattle.std.specs.Fmt.{decimal};
ghost use Rattle.keel_base.specs.Name.{printed};
ghost use Rattle.keel_script.specs.Replies.{told, failure_words, reply_line};

use crate::Reply;
use crate::line::{add_great_number, add_number, add_text, add_word, numbers};
use crate::names::{call_name, counter_name, fault_name, grade_number, reason_name, slot_name};
use keel_base::{Bytes, Failure, FileName, OutOfMemory};
use keel_name::print;
use std::alloc::Global;

/// The line of a reply, without its newline.
pub fn print_reply(alloc: Global, reply: &Reply) -> Result<Bytes, OutOfMemory>
    ensures { IfOk result (λ line. line ≡ reply_line reply.now) }
{
    let mut line = Bytes::new(alloc);
    add_reply(alloc, &mut line, reply)?;
    Ok(line)
}

/// Adds the line of a reply, without its newline.
pub fn add_reply(alloc: Global, line: &mut Bytes, reply: &Reply) -> Result<(), OutOfMemory>
    ensures { OnOk result (line.new ≡ line.old ++ reply_line reply.now) }
{
    match reply {
        // Options, and whether the store is open.
        Reply::OptionSet { name, value } => {
            worded(line, b"option", name.name())?;
            add_number(line, *value)
        }
        Reply::BadOption {
            name,
            least,
            greatest,
        } => worded_pair(line, b"bad-option", name.name(), *least, *greatest),
        Reply::IsOpen => line.extend(b"is-open"),
        Reply::NotOpen => line.extend(b"not-open"),
        Reply::Opened { seq } => one(line, b"opened", *seq),
        // Why the store did not open.
        Reply::RefusedDevice(fault) => worded(line, b"refused device", fault_name(*fault)),
        Reply::RefusedNoCurrent(name) => named(alloc, line, b"refused no-current", *name),
        Reply::RefusedBadCurrent(text) => {
            line.extend(b"refused bad-current")?;
            add_text(line, text)
        }
        Reply::RefusedDamagedManifest { at } => one(line, b"refused damaged-manifest", *at),
        Reply::RefusedMissingTable { number } => one(line, b"refused missing-table", *number),
        Reply::RefusedBadTable { number } => one(line, b"refused bad-table", *number),
        Reply::RefusedBadLog { number, at } => two(line, b"refused bad-log", *number, *at),
        Reply::RefusedLogGap {
            number,
            expected,
            found,
        } => three(line, b"refused log-gap", *number, *expected, *found),
        // What became of a write, or of asking for one.
        Reply::PutOk { seq } => one(line, b"ok", *seq),
        Reply::Failed(failure) => failed(line, b"failed", *failure),
        Reply::Stopped(failure) => failed(line, b"stopped", *failure),
        Reply::Booting => line.extend(b"booting"),
        Reply::BadSizeKey { length } => one(line, b"bad-size key", *length),
        Reply::BadSizeValue { length } => one(line, b"bad-size value", *length),
        Reply::Spent(counter) => worded(line, b"spent", counter_name(*counter)),
        Reply::Full { active, immutables } => two(line, b"full", *active, *immutables as u64),
        Reply::QueueFull { waiting } => one(line, b"queue-full", *waiting as u64),
        Reply::Waiting { ticket } => one(line, b"waiting", *ticket),
        Reply::Queued { ticket } => one(line, b"queued", *ticket),
        // What a step did, and why it did nothing.
        Reply::Idle => line.extend(b"idle"),
        Reply::Moved { job, call } => {
            one(line, b"moved", *job)?;
            add_word(line, call_name(*call))
        }
        Reply::WriteDone { job, seq, batches } => {
            three(line, b"done", *job, *seq, *batches as u64)
        }
        Reply::Turned { batches, failure } => {
            one(line, b"turned", *batches as u64)?;
            add_failure(line, *failure)
        }
        Reply::Cancelled { job, current } => two(line, b"cancelled", *job, *current),
        Reply::JobDone { job } => one(line, b"done", *job),
        Reply::Blocked(slot) => worded(line, b"blocked", slot_name(*slot)),
        Reply::NoRoom {
            reserved,
            inputs,
            buffer,
            tracked,
            limit,
        } => {
            let sums = [
                *reserved,
                *inputs,
                *buffer as u128,
                *tracked,
                *limit as u128,
            ];
            numbers(line, b"no-room", &sums)
        }
        Reply::Wait { until } => one(line, b"wait", *until),
        // Deletions.
        Reply::Purged(name) => named(alloc, line, b"purged", *name),
        Reply::Trashed(name) => named(alloc, line, b"trashed", *name),
        Reply::Cut { name, length } => sized(alloc, line, b"cut", *name, *length),
        Reply::Removed(name) => named(alloc, line, b"removed", *name),
        Reply::DeleteRefused(fault) => worded(line, b"refused", fault_name(*fault)),
        // Recovery.
        Reply::Nothing => line.extend(b"nothing"),
        Reply::Busy { job } => one(line, b"busy", *job),
        Reply::Beyond(failure) => failed(line, b"beyond", *failure),
        Reply::Cleared => line.extend(b"cleared"),
        Reply::Started { job } => one(line, b"started", *job),
        Reply::JobCleared { job, steps } => two(line, b"cleared", *job, *steps),
        Reply::NoSpaceYet { free, need } => two(line, b"no-space", *free, *need),
        Reply::OverLimit { total, limit } => great_pair(line, b"over-limit", *total, *limit),
        Reply::GivenUp { attempts } => one(line, b"given-up", *attempts as u64),
        // Rounds of all actors, and time.
        Reply::Quiet => line.extend(b"quiet"),
        Reply::More => line.extend(b"more"),
        Reply::Now { tick } => one(line, b"now", *tick),
        // What was read, and why it was not.
        Reply::Value(value) => {
            line.extend(b"value")?;
            add_text(line, value)
        }
        Reply::Absent => line.extend(b"absent"),
        Reply::Row { key, value } => {
            line.extend(b"row")?;
            add_text(line, key)?;
            add_text(line, value)
        }
        Reply::Rows { count } => one(line, b"rows", *count),
        Reply::ErrorNone => line.extend(b"error none"),
        Reply::Error { failure, grade } => {
            failed(line, b"error", *failure)?;
            add_number(line, grade_number(*grade) as u64)
        }
        Reply::Space {
            tracked,
            trash,
            reserved,
            limit,
        } => numbers(
            line,
            b"space",
            &[*tracked, *trash, *reserved, *limit as u128],
        ),
        Reply::FileLine { name, size } => sized(alloc, line, b"file", *name, *size),
        Reply::Files { count } => one(line, b"files", *count),
        Reply::ReadFault(fault) => worded(line, b"read-fault", fault_name(*fault)),
        Reply::BadCheck { stored, computed } => {
            two(line, b"bad-check", *stored as u64, *computed as u64)
        }
        Reply::BadShape { at } => one(line, b"bad-shape", *at),
        Reply::AbsentTable { number } => one(line, b"absent-table", *number),
        Reply::Level {
            level,
            files,
            bytes,
        } => numbers(line, b"level", &[*level as u128, *files as u128, *bytes]),
        Reply::Memory {
            active,
            immutables,
            waiting,
        } => three(
            line,
            b"memory",
            *active,
            *immutables as u64,
            *waiting as u64,
        ),
        // The limit of an open store, its end, and the simulated device.
        Reply::Limit { limit } => one(line, b"limit", *limit),
        Reply::Closed { tickets } => one(line, b"closed", *tickets),
        Reply::Armed => line.extend(b"armed"),
        Reply::NotSimulated => line.extend(b"not-simulated"),
        Reply::Capacity { bytes } => one(line, b"capacity", *bytes),
        Reply::Crashed => line.extend(b"crashed"),
        Reply::NotBuilt => line.extend(b"not-built"),
    }
}

// Adds a head and a number.
fn one(line: &mut Bytes, head: &[u8], number: u64) -> Result<(), OutOfMemory>
    ensures { OnOk result (line.new ≡ line.old ++ told head.now (decimal number ∷ [])) }
{
    line.extend(head)?;
    add_number(line, number)
}

// Adds a head and two numbers.
fn two(line: &mut Bytes, head: &[u8], first: u64, second: u64) -> Result<(), OutOfMemory>
    ensures { OnOk result (line.new ≡ line.old ++ told head.now (decimal first ∷ decimal second ∷ [])) }
{
    one(line, head, first)?;
    add_number(line, second)
}

// Adds a head and three numbers.
fn three(
    line: &mut Bytes,
    head: &[u8],
    first: u64,
    second: u64,
    third: u64,
) -> Result<(), OutOfMemory>
    ensures { OnOk result (line.new ≡ line.old ++ told head.now (decimal first ∷ decimal second ∷ decimal third ∷ [])) }
{
    two(line, head, first, second)?;
    add_number(line, third)
}

// Adds a head and a word.
fn worded(line: &mut Bytes, head: &[u8], word: &[u8]) -> Result<(), OutOfMemory>
    ensures { OnOk result (line.new ≡ line.old ++ told head.now (word.now ∷ [])) }
{
    line.extend(head)?;
    add_word(line, word)
}

// Adds a head, a word and two numbers.
fn worded_pair(
    line: &mut Bytes,
    head: &[u8],
    word: &[u8],
    first: u64,
    second: u64,
) -> Result<(), OutOfMemory>
    ensures { OnOk result (line.new ≡ line.old ++ told head.now (word.now ∷ decimal first ∷ decimal second ∷ [])) }
{
    worded(line, head, word)?;
    add_number(line, first)?;
    add_number(line, second)
}

// Adds a head and two numbers, of which 64 bits may be too few for the first.
fn great_pair(line: &mut Bytes, head: &[u8], first: u128, second: u64) -> Result<(), OutOfMemory>
    ensures { OnOk result (line.new ≡ line.old ++ told head.now (decimal first ∷ decimal second ∷ [])) }
{
    line.extend(head)?;
    add_great_number(line, first)?;
    add_number(line, second)
}

// Adds a head and the name of a file.
fn named(alloc: Global, line: &mut Bytes, head: &[u8], name: FileName) -> Result<(), OutOfMemory>
    ensures { OnOk result (line.new ≡ line.old ++ told head.now (printed name ∷ [])) }
{
    let name = print(alloc, name)?;
    worded(line, head, name.as_slice())
}

// Adds a head, the name of a file and a size.
fn sized(
    alloc: Global,
    line: &mut Bytes,
    head: &[u8],
    name: FileName,
    size: u64,
) -> Result<(), OutOfMemory>
    ensures { OnOk result (line.new ≡ line.old ++ told head.now (printed name ∷ decimal size ∷ [])) }
{
    named(alloc, line, head, name)?;
    add_number(line, size)
}

// Adds a head and a failure.
fn failed(line: &mut Bytes, head: &[u8], failure: Failure) -> Result<(), OutOfMemory>
    ensures { OnOk result (line.new ≡ line.old ++ told head.now (failure_words failure)) }
{
    line.extend(head)?;
    add_failure(line, failure)
}

// Adds a failure.
fn add_failure(line: &mut Bytes, failure: Failure) -> Result<(), OutOfMemory>
    ensures { OnOk result (line.new ≡ told line.old (failure_words failure)) }
{
    add_word(line, reason_name(failure.reason))?;
    add_word(line, fault_name(failure.fault))
}
