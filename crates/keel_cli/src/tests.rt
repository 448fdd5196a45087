// What no clause says and no workload of `cases` at the top of the repository shows: runs over a device or a stream
// that fails, and a folder that is opened again.
mod folders;
mod streams;

use crate::run_words;
use keel_base::{Bytes, Call, Calls, Fault, MemSink, MemSource};
use keel_disk::{Device, Rule};
use keel_simdisk::SimDisk;
use std::alloc::Global;
use std::test::Fail;

fn bytes_of(alloc: Global, bytes: &[u8]) -> Result<Bytes, Fail> {
    Ok(Bytes::from_slice(alloc, bytes).ok().ok_or("memory")?)
}

fn word_of(alloc: Global, word: &str) -> Result<Vec<String>, Fail> {
    let mut words = Vec::new(alloc);
    words.push(String::from_str(alloc, word)?)?;
    Ok(words)
}

// Calls of which this one fails, counted from 0, or none.
fn failing_call(alloc: Global, fails: Option<u64>) -> Result<Calls, Fail> {
    let mut calls = Calls::new(alloc);
    if let Some(call) = fails {
        calls.push(call).ok().ok_or("memory")?;
    }
    Ok(calls)
}

fn source_of(alloc: Global, input: &[u8], fails: Option<u64>) -> Result<MemSource, Fail> {
    Ok(MemSource::new(bytes_of(alloc, input)?, failing_call(alloc, fails)?))
}

fn sink_of(alloc: Global, fails: Option<u64>) -> Result<MemSink, Fail> {
    Ok(MemSink::new(alloc, failing_call(alloc, fails)?))
}

// The output of a workload over a device.
fn output_over<V: Device>(alloc: Global, input: &[u8], device: V) -> Result<Bytes, Fail> {
    let words = word_of(alloc, "run")?;
    let source = source_of(alloc, input, None)?;
    let ended = run_words(
        alloc,
        &words,
        source,
        sink_of(alloc, None)?,
        sink_of(alloc, None)?,
        device,
    );
    bytes_of(alloc, ended.out.held())
}

// The output of a workload over a device of which one call fails behind so many of its kind, with nothing of it done.
fn output_failing(alloc: Global, input: &[u8], call: Call, skip: u64) -> Result<Bytes, Fail> {
    let mut device = SimDisk::new(alloc, 1073741824);
    let rule = Rule::Fail {
        call,
        fault: Fault::Retryable,
        skip,
        times: 1,
        keep: 0,
    };
    device.arrange(alloc, rule).ok().ok_or("memory")?;
    output_over(alloc, input, device)
}

const PUTS: &[u8] =
    b"open\ndrain 100\nput a 1 sync\nput b 2\nput c 3 sync\nput d 4\ncrash 0 0 0 1\nopen\n";

// A boot appends an edit and a name before the puts.
#[test]
fn a_failing_append_loses_what_is_not_synced(rt: HostRuntime) -> Result<(), Fail> {
    let out = output_failing(rt.alloc(), PUTS, Call::Append, 4)?;
    let told =
        b"opened 0\nquiet\nok 1\nok 2\nfailed wal retryable\nstopped wal retryable\ncrashed\nopened 1\n";
    assert_eq!(rt; out.as_slice(), told.as_slice());
    Ok(())
}

#[test]
fn a_failing_read_is_answered(rt: HostRuntime) -> Result<(), Fail> {
    let out = output_failing(rt.alloc(), b"open\nopen\n", Call::Read, 0)?;
    let told = b"refused device retryable\nopened 0\n";
    assert_eq!(rt; out.as_slice(), told.as_slice());
    Ok(())
}
