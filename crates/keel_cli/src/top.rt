// The top call: a workload is read, carried out and answered.
ghost use Rattle.std.specs.Prelude.{◌≡◌, ◌⊎◌, ◌↔◌, IfOk, map};
ghost use Rattle.std.specs.String.{string_bytes};
ghost use Rattle.keel_lines.specs.Inputs.{TakesFew};
ghost use Rattle.keel_cli.specs.declared.top.End.{End};
ghost use Rattle.keel_cli.specs.Ends.{Ends, NamesNoLine, StaysOrRunsOut, named, outside, message_of, status_of, Tells};
ghost use Rattle.keel_cli.specs.Words.{AskForRun};

use crate::{Asked, LinesDone, read_words, run_lines};
use keel_base::{OutOfMemory, Sink, Source, give_all};
use keel_disk::Device;
use std::alloc::Global;

/// How a run ends.
#[derive(Clone, Copy, Debug, PartialEq, Eq)]
pub enum End {
    Completed,
    Usage,
    NotACommand { line: u64 },
    LongLine { line: u64 },
    LongInput,
    ReadFault,
    WriteFault,
    OutOfMemory,
}

/// What was handed in, as the run leaves it, and how it ended.
#[derive(Drop)]
pub struct Ended<S: Source, K: Sink, E: Sink, V: Device> {
    pub status: u8,
    pub source: S,
    pub out: K,
    pub err: E,
    pub device: V,
}

/// Carries out the workload of the source, where the words ask for it.
fn work<S: Source, K: Sink, V: Device>(
    alloc: Global,
    words: &Vec<String>,
    source: S,
    out: &mut K,
    device: V,
) -> LinesDone<S, V>
    ensures usage { (result.end ≡ End.Usage) ↔ ¬ AskForRun (map string_bytes words.now.items) }
    ensures ends { Ends result.end
        (outside (S.remaining source) (S.faults source) (K.held out.old) (K.faults out.old) (V.seen device))
        (outside (S.remaining result.source) (S.faults result.source) (K.held out.new) (K.faults out.new) (V.seen result.device)) }
    ensures taken { TakesFew (S.remaining source) (S.remaining result.source) }
{
    match read_words(words) {
        Asked::Memory | Asked::Folder(_) => run_lines(alloc, source, out, device),
        Asked::Usage => LinesDone {
            source,
            device,
            end: End::Usage,
        },
    }
}

// The text of an end that names a line.
fn named_text(alloc: Global, line: u64, what: &[u8]) -> Result<Vec<u8>, OutOfMemory>
    ensures { IfOk result (λ text. text.items ≡ named line what.now) }
{
    let digits = line.to_string(alloc)?;
    let mut text = Vec::from_slice(alloc, b"line ")?;
    text.extend_from_slice(digits.as_bytes())?;
    text.extend_from_slice(what)?;
    Ok(text)
}

// The text of an end that names no line.
fn plain_text(end: End) -> &'static [u8]
    requires { NamesNoLine end }
    ensures { result.now ≡ message_of end }
{
    match end {
        End::Completed => b"",
        End::Usage => {
            b"usage: keel run, dir PATH, gen SEED COUNT, check, threads CLIENTS OPS SEED\n"
        }
        End::NotACommand { .. } | End::LongLine { .. } => unreachable!(),
        End::LongInput => b"input longer than 67108864 bytes\n",
        End::ReadFault => b"read fault\n",
        End::WriteFault => b"write fault\n",
        End::OutOfMemory => b"out of memory\n",
    }
}

// Writes a text that names a line. Where there is no memory for it, that is the end.
fn tell_line<E: Sink>(alloc: Global, err: &mut E, end: End, line: u64, what: &[u8]) -> End
    requires { message_of end ≡ named line what.now }
    ensures told { Tells (message_of result) (E.held err.old) (E.faults err.old) (E.held err.new) (E.faults err.new) }
    ensures end { (result ≡ end) ⊎ (result ≡ End.OutOfMemory) }
{
    match named_text(alloc, line, what) {
        Ok(text) => {
            let _ = give_all(err, &text);
            end
        }
        Err(_) => {
            let _ = give_all(err, plain_text(End::OutOfMemory));
            End::OutOfMemory
        }
    }
}

// Writes the text of an end. Where there is no memory for it, that is the end.
fn tell<E: Sink>(alloc: Global, err: &mut E, end: End) -> End
    ensures told { Tells (message_of result) (E.held err.old) (E.faults err.old) (E.held err.new) (E.faults err.new) }
    ensures end { StaysOrRunsOut end result }
{
    match end {
        End::NotACommand { line } => tell_line(alloc, err, end, line, b": not a command\n"),
        End::LongLine { line } => tell_line(alloc, err, end, line, b": longer than 8192 bytes\n"),
        _ => {
            let _ = give_all(err, plain_text(end));
            end
        }
    }
}

fn status_of(end: End) -> u8
    ensures { result ≡ status_of end }
{
    match end {
        End::Completed => 0,
        End::Usage => 2,
        End::NotACommand { .. } | End::LongLine { .. } | End::LongInput => 3,
        End::ReadFault => 4,
        End::WriteFault => 5,
        End::OutOfMemory => 6,
    }
}

/// Carries out the workload of the source and writes the replies.
pub fn run_words<S: Source, K: Sink, E: Sink, V: Device>(
    alloc: Global,
    words: &Vec<String>,
    source: S,
    out: K,
    err: E,
    device: V,
) -> Ended<S, K, E, V>
    // The status says how the run ended, what was done is what that end says, and err has its text.
    ensures ends { (end : End) × (result.status ≡ status_of end)
        × Ends end
        (outside (S.remaining source) (S.faults source) (K.held out) (K.faults out) (V.seen device))
        (outside (S.remaining result.source) (S.faults result.source) (K.held result.out) (K.faults result.out) (V.seen result.device))
        × Tells (message_of end) (E.held err) (E.faults err) (E.held result.err) (E.faults result.err) }
    ensures usage { (result.status ≡ 2) ↔ ¬ AskForRun (map string_bytes words.now.items) }
    // Of the source at most as many bytes were taken as an input may have, and one piece of it.
    ensures taken { TakesFew (S.remaining source) (S.remaining result.source) }
{
    let mut out = out;
    let mut err = err;
    let worked = work(alloc, words, source, &mut out, device);
    let end = tell(alloc, &mut err, worked.end);
    Ended {
        status: status_of(end),
        source: worked.source,
        out,
        err,
        device: worked.device,
    }
}
