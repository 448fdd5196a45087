// The lines of a workload, carried out in turn.
ghost use Rattle.std.specs.Prelude.{◌≡◌, ◌≢◌, ◌<◌, ◌-◌, ◌^◌, ◌≤◌, length};
ghost use Rattle.keel_base.specs.Counts.{Rose};
ghost use Rattle.keel_recovery.specs.Machine.{IsCovered};
ghost use Rattle.keel_script.specs.Grammar.{IsAllowed};
ghost use Rattle.keel_cli.specs.Driving.{LineLeads, StandsAt};
ghost use Rattle.keel_cli.specs.Ends.{Ends, end_at, end_behind, outside};
ghost use Rattle.keel_cli.specs.LineEnds.{CommandEnds, LineEnds, IsUnwritten};
ghost use Rattle.keel_lines.specs.Inputs.{TakesFew};
ghost use Rattle.keel_lines.specs.Lines.{longest_line};
ghost use Rattle.keel_cli.specs.declared.top.End.TheVariants.{Usage};
ghost use Rattle.keel_cli.specs.Sessions.{Session};

use crate::{Driver, End, text_of};
use keel_base::{Sink, Source, give_all};
use keel_disk::Device;
use keel_lines::{LineEnd, LineReader};
use keel_script::{Command, LineError, is_blank, read_command};
use std::alloc::Global;

/// Why a run stops at a line.
#[derive(Clone, Copy, Debug, PartialEq, Eq)]
pub enum LineStop {
    /// It is no command.
    Refused,
    /// Its replies weren't written, or in part.
    Unwritten,
    /// Memory ended at it.
    NoMemory,
}

/// The line at which a run stops, counted from 1.
#[derive(Clone, Copy, Debug, PartialEq, Eq)]
pub struct StopPlace {
    pub stop: LineStop,
    pub line: u64,
}

/// The lines of a source were carried out, as the end says.
#[derive(Drop)]
pub struct LinesDone<S: Source, V: Device> {
    pub source: S,
    pub device: V,
    pub end: End,
}

// Carries out a command and writes its replies.
fn run_command<K: Sink, V: Device>(
    alloc: Global,
    command: &Command,
    driver: &mut Driver<V>,
    out: &mut K,
) -> Result<(), LineStop>
    requires { IsAllowed command.now }
    ensures end { (now : Session) → StandsAt driver.old now → IsCovered now.store
        → LineLeads result driver.new (λ new.
        CommandEnds result now (K.held out.old) command.now new (K.held out.new)) }
    ensures later { K.faults out.old ≤ K.faults out.new }
    ensures cause { IsUnwritten result → Rose (K.faults out.old) (K.faults out.new) }
{
    let Ok(answer) = driver.answer(alloc, command) else {
        return Err(LineStop::NoMemory);
    };
    let Ok(text) = text_of(alloc, &answer) else {
        return Err(LineStop::NoMemory);
    };
    match give_all(out, text.as_slice()) {
        Ok(()) => Ok(()),
        Err(_) => Err(LineStop::Unwritten),
    }
}

// Carries out what a line says.
fn run_line<K: Sink, V: Device>(
    alloc: Global,
    line: &[u8],
    driver: &mut Driver<V>,
    out: &mut K,
) -> Result<(), LineStop>
    requires { length line.now ≤ longest_line }
    ensures end { (now : Session) → StandsAt driver.old now → IsCovered now.store
        → LineLeads result driver.new (λ new.
        LineEnds result now (K.held out.old) line.now new (K.held out.new)) }
    ensures later { K.faults out.old ≤ K.faults out.new }
    ensures cause { IsUnwritten result → Rose (K.faults out.old) (K.faults out.new) }
{
    if is_blank(line) {
        return Ok(());
    }
    match read_command(alloc, line) {
        Ok(command) => run_command(alloc, &command, driver, out),
        Err(LineError::NotACommand) => Err(LineStop::Refused),
        Err(LineError::OutOfMemory) => Err(LineStop::NoMemory),
    }
}

// How a run ends that stops at this line.
fn end_at(stop: LineStop, line: u64) -> End
    ensures { result ≡ end_at stop line }
{
    match stop {
        LineStop::Refused => End::NotACommand { line },
        LineStop::Unwritten => End::WriteFault,
        LineStop::NoMemory => End::OutOfMemory,
    }
}

// How a run ends that gets no line behind so many.
fn end_behind(error: LineEnd, lines: u64) -> End
    requires { lines < 2 ^ 64 - 1 }
    ensures { result ≡ end_behind error lines }
{
    match error {
        LineEnd::TooLong => End::LongLine { line: lines + 1 },
        LineEnd::LongInput => End::LongInput,
        LineEnd::Fault => End::ReadFault,
        LineEnd::OutOfMemory => End::OutOfMemory,
    }
}

/// Carries out the lines of a source as they are taken, up to the first at which the run stops.
pub fn run_lines<S: Source, K: Sink, V: Device>(
    alloc: Global,
    source: S,
    out: &mut K,
    device: V,
) -> LinesDone<S, V>
    ensures end { Ends result.end
        (outside (S.remaining source) (S.faults source) (K.held out.old) (K.faults out.old) (V.seen device))
        (outside (S.remaining result.source) (S.faults result.source) (K.held out.new) (K.faults out.new) (V.seen result.device)) }
    ensures ran { result.end ≢ Usage }
    ensures taken { TakesFew (S.remaining source) (S.remaining result.source) }
{
    let mut reader = LineReader::new(alloc, source);
    let mut driver = Driver::new(device);
    let mut number: u64 = 0;
    'lines: loop {
        let line = match reader.next() {
            Ok(Some(line)) => line,
            Ok(None) => {
                return LinesDone {
                    source: reader.into_source(),
                    device: driver.store.into_device(),
                    end: End::Completed,
                };
            }
            Err(error) => {
                return LinesDone {
                    source: reader.into_source(),
                    device: driver.store.into_device(),
                    end: end_behind(error, number),
                };
            }
        };
        number += 1;
        if let Err(stop) = run_line(alloc, line.as_slice(), &mut driver, out) {
            return LinesDone {
                source: reader.into_source(),
                device: driver.store.into_device(),
                end: end_at(stop, number),
            };
        }
    }
}
