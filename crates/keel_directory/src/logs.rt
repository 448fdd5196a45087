// The batches of the logs from a number on.
ghost use Rattle.std.specs.Prelude.{◌≡◌, ◌+◌, ◌<◌, ◌≤◌, ◌^◌, List, ◌++◌, length, nat_lt, IfErr, IfOk, Ok, Err, OnOk};
ghost use Rattle.std.specs.List.{AllByRecursion, prefix_len};
ghost use Rattle.keel_base.specs.Rows.{op_row, op_rows};
ghost use Rattle.keel_batch.specs.Reading.{batch_of};
ghost use Rattle.keel_directory.specs.declared.logs.Replayed.{Replayed as ABatch};
ghost use Rattle.keel_directory.specs.Answers.{Answers, Names, IsOfLogs};
ghost use Rattle.keel_directory.specs.Replays as spec;
ghost use Rattle.keel_directory.specs.Replays.{ReadLog};

use crate::answer::DirectoryRefusal;
use crate::files::File;
use keel_base::{Bytes, FileName, Kind, Op, Ops, OutOfMemory, Row};
use keel_batch::{BatchError, decode};
use keel_frag::{LogRecord, read_log};
use std::alloc::Global;

/// A log that has a byte.
#[derive(Debug, Drop)]
pub struct LogFile {
    pub number: u64,
    pub bytes: Bytes,
}

/// A batch, and the log that it was read from.
#[derive(Debug, Drop)]
pub struct Replayed {
    pub log: u64,
    /// The number of the first op.
    pub seq: u64,
    pub ops: Ops,
}

/// How many logs from the first on have a lesser number.
fn place_of(logs: &[LogFile], number: u64) -> usize
    ensures place { result ≡ prefix_len (λ log. nat_lt log.number number) logs.now }
    ensures within { result ≤ length logs.now }
{
    let mut place = 0;
    for log in logs {
        if log.number >= number {
            return place;
        }
        place += 1;
    }
    place
}

/// Puts a log at its place among logs in order of number. It takes the place of one with its number.
fn put_log(logs: &mut Vec<LogFile>, log: LogFile) -> Result<(), OutOfMemory>
    ensures { OnOk result (logs.new.items ≡ spec.put_log log logs.old.items) }
{
    let place = place_of(logs.as_slice(), log.number);
    if place < logs.len() && logs[place].number == log.number {
        logs[place] = log;
        return Ok(());
    }
    logs.insert(place, log)?;
    Ok(())
}

/// Puts a file among the logs, where it is one of that number or more with a byte.
fn put_file(
    alloc: Global,
    least: u64,
    file: &File,
    logs: &mut Vec<LogFile>,
) -> Result<(), OutOfMemory>
    ensures { OnOk result (logs.new.items ≡ spec.with_log least file.now logs.old.items) }
{
    let FileName::Log(number) = file.0 else {
        return Ok(());
    };
    if file.1.len() == 0 || number < least {
        return Ok(());
    }
    let bytes = Bytes::from_slice(alloc, file.1.as_slice())?;
    put_log(logs, LogFile { number, bytes })
}

/// The logs from a number on that have a byte, in order.
fn logs_from(alloc: Global, least: u64, files: &[File]) -> Result<Vec<LogFile>, OutOfMemory>
    ensures { IfOk result (λ logs. logs.items ≡ spec.logs_from least files.now) }
{
    let mut logs = Vec::new(alloc);
    let mut left = files.len();
    'files: while left > 0 {
        left -= 1;
        put_file(alloc, least, &files[left], &mut logs)?;
    }
    Ok(logs)
}

/// The batch of a record.
fn batch_in(alloc: Global, log: u64, found: &LogRecord) -> Result<Replayed, DirectoryRefusal>
    ensures batch { Answers (λ batch. batch) (λ answer. answer ≡ spec.batch_found log found.now (batch_of found.now.payload)) result }
    ensures numbered { IfOk result spec.IsNumbered }
    ensures of_logs { IfErr result IsOfLogs }
{
    match decode(alloc, found.payload.as_slice()) {
        Ok(batch) => Ok(Replayed {
            log,
            seq: batch.seq,
            ops: batch.ops,
        }),
        Err(BatchError::BadBatch { .. }) => Err(DirectoryRefusal::BadLog {
            log,
            at: found.offset,
        }),
        Err(BatchError::OutOfMemory) => Err(DirectoryRefusal::OutOfMemory),
    }
}

/// Adds the batches of a log's records.
fn add_records(
    alloc: Global,
    log: u64,
    records: &[LogRecord],
    batches: &mut Vec<Replayed>,
) -> Result<(), DirectoryRefusal>
    ensures ok { OnOk result ((found : List ABatch) × (spec.batches_of log records.now ≡ Ok found) × (batches.new.items ≡ batches.old.items ++ found)) }
    ensures err { IfErr result (λ e. Names e (λ refusal. spec.batches_of log records.now ≡ Err refusal)) }
    ensures numbered { OnOk result (AllByRecursion spec.IsNumbered batches.old.items → AllByRecursion spec.IsNumbered batches.new.items) }
    ensures of_logs { IfErr result IsOfLogs }
{
    for found in records {
        batches.push(batch_in(alloc, log, found)?)?;
    }
    Ok(())
}

/// Adds the batches of logs.
fn add_logs(
    alloc: Global,
    logs: &[LogFile],
    batches: &mut Vec<Replayed>,
) -> Result<(), DirectoryRefusal>
    ensures ok { OnOk result ((read : List ReadLog) × spec.AreRead logs.now read × (found : List ABatch) × (spec.all_batches read ≡ Ok found) × (batches.new.items ≡ batches.old.items ++ found)) }
    ensures err { IfErr result (λ e. Names e (λ refusal. (read : List ReadLog) × spec.AreRead logs.now read × (spec.all_batches read ≡ Err refusal))) }
    ensures numbered { OnOk result (AllByRecursion spec.IsNumbered batches.old.items → AllByRecursion spec.IsNumbered batches.new.items) }
    ensures of_logs { IfErr result IsOfLogs }
{
    for log in logs {
        let records = read_log(alloc, log.bytes.as_slice())?;
        match add_records(alloc, log.number, records.all.as_slice(), batches) {
            Ok(()) => {}
            Err(error) => return Err(error),
        }
    }
    Ok(())
}

/// The number of the last op, where each batch begins behind the one before.
fn last_number(last: u64, batches: &[Replayed]) -> Result<u64, DirectoryRefusal>
    requires { AllByRecursion spec.IsNumbered batches.now }
    ensures answer { Answers (λ end. end) (λ answer. answer ≡ spec.run_on last batches.now) result }
    ensures of_logs { last < 2 ^ 63 → IfErr result IsOfLogs }
{
    let mut last = last;
    for batch in batches {
        if batch.seq == 0 || batch.seq - 1 != last {
            return Err(DirectoryRefusal::LogGap {
                log: batch.log,
                last,
                found: batch.seq,
            });
        }
        last += batch.ops.len() as u64;
    }
    Ok(last)
}

/// What logs give, in this order, where the last op before them has the number `last`.
pub fn replay_logs(
    alloc: Global,
    logs: &[LogFile],
    last: u64,
) -> Result<(Vec<Replayed>, u64), DirectoryRefusal>
    ensures answer { Answers (λ x. record { batches = x.0.items; last = x.1 }) (spec.LogsGive logs.now last) result }
    ensures numbered { IfOk result (λ x. AllByRecursion spec.IsNumbered x.0.items) }
    ensures of_logs { last < 2 ^ 63 → IfErr result IsOfLogs }
{
    let mut batches = Vec::new(alloc);
    add_logs(alloc, logs, &mut batches)?;
    let last = last_number(last, batches.as_slice())?;
    Ok((batches, last))
}

/// What the logs from a number on give, where the last op before them has the number `last`.
pub(crate) fn replay(
    alloc: Global,
    files: &[File],
    least: u64,
    last: u64,
) -> Result<(Vec<Replayed>, u64), DirectoryRefusal>
    ensures answer { Answers (λ x. record { batches = x.0.items; last = x.1 }) (spec.LogsAre files.now least last) result }
    ensures numbered { IfOk result (λ x. AllByRecursion spec.IsNumbered x.0.items) }
{
    let logs = logs_from(alloc, least, files)?;
    replay_logs(alloc, logs.as_slice(), last)
}

/// The row that an op of that number leaves.
fn row_of(alloc: Global, seq: u64, op: &Op) -> Result<Row, OutOfMemory>
    ensures { IfOk result (λ row. row ≡ op_row seq op.now) }
{
    match op {
        Op::Put { key, value } => Ok(Row {
            seq,
            kind: Kind::Put,
            key: Bytes::from_slice(alloc, key.as_slice())?,
            value: Bytes::from_slice(alloc, value.as_slice())?,
        }),
        Op::Del { key } => Ok(Row {
            seq,
            kind: Kind::Del,
            key: Bytes::from_slice(alloc, key.as_slice())?,
            value: Bytes::new(alloc),
        }),
    }
}

/// Adds the rows of ops that are numbered from a number on.
fn add_ops(alloc: Global, seq: u64, ops: &[Op], rows: &mut Vec<Row>) -> Result<(), OutOfMemory>
    requires { seq + length ops.now < 2 ^ 64 }
    ensures { OnOk result (rows.new.items ≡ rows.old.items ++ op_rows seq ops.now) }
{
    let mut seq = seq;
    for op in ops {
        rows.push(row_of(alloc, seq, op)?)?;
        seq += 1;
    }
    Ok(())
}

/// Adds the rows of batches.
pub(crate) fn add_batches(
    alloc: Global,
    batches: &[Replayed],
    rows: &mut Vec<Row>,
) -> Result<(), OutOfMemory>
    requires { AllByRecursion spec.IsNumbered batches.now }
    ensures { OnOk result (rows.new.items ≡ rows.old.items ++ spec.replayed_rows batches.now) }
{
    for batch in batches {
        add_ops(alloc, batch.seq, batch.ops.as_slice(), rows)?;
    }
    Ok(())
}
