//! The program: a workload of commands is carried out on a store, and answered.
//!
//! `run_words` is the top call, generic over where the input comes from, where output and messages go, and the
//! device. Its contract: the status says how the run ended. The lines of the input are carried out as they are taken;
//! those that were are a run of the machine (`keel_machine`) from a store that was never opened, each reply prints
//! the answer of its calls, and the output grew by just these lines. With 0 they are all lines of the input; with each
//! other status the contract says which they are. The device is handed back as the machine then has it.
//!
//! A store that was opened boots before it takes writes: `drain` goes round the boot, the writer and the flush,
//! `resume-step` makes one step of the boot. Until it has cleared, writes are answered `booting`, and reads give what the
//! opening found.
//!
//! Where the device was at rest as it was handed in, its directory read as a sound store or was refused, and no crash of
//! the run left a forged image, the device handed back stands for the story of the run: behind any crash, an opening
//! reads CURRENT, manifest, tables and logs as the map after the first of the logged writes, with every acknowledged
//! synced one. In the run itself each opening behind a crash finds just that, and so does each image inside the call of a
//! write step, a resume step or a flush step.
//!
//! The lines are `keel_lines`'s, their grammar and the replies `keel_script`'s. A command that isn't built yet is
//! answered `not-built`. It stands on `keel_core`, the store, and runs it over `keel_simdisk`, a device in memory, or
//! over a folder of the host, `keel_dirdisk`.
#![tactic(auto)]

ghost use Rattle.keel_machine.specs.States.{Known};
ghost use Rattle.keel_simdisk.specs.Calls.{seen_of};
ghost use Rattle.keel_cli.specs.Sessions.{MayBegin};

mod answer;
mod arranging;
mod booting;
mod draining;
mod driver;
mod failing;
mod flushing;
mod holding;
mod lines;
mod putting;
mod starting;
mod stepping;
mod store;
mod telling;
mod top;
mod words;

pub use answer::{Answer, text_of};
pub use driver::Driver;
pub use holding::HeldJobs;
use keel_base::{ReadSource, WriteSink, give_all};
use keel_dirdisk::DirDisk;
use keel_disk::Device;
use keel_simdisk::SimDisk;
pub use lines::{LineStop, LinesDone, StopPlace, run_lines};
use std::alloc::Global;
use std::process::ExitCode;
use std::{env, io};
pub use store::Store;
pub use top::{End, Ended, run_words};
pub use words::{Asked, read_words};

// How many bytes the device holds.
const CAPACITY: u64 = 1073741824;

// The words after the program's name.
fn words_of(rt: &HostRuntime) -> io::Result<Vec<String>> {
    let mut words = Vec::new(rt.alloc());
    for word in env::args(rt)?.skip(1) {
        words.push(word)?;
    }
    Ok(words)
}

// Runs the words over a device, and gives the status.
fn run_over<V: Device>(rt: &HostRuntime, words: &Vec<String>, device: V) -> u8 {
    let ended = run_words(
        rt.alloc(),
        words,
        ReadSource::new(rt.stdin()),
        WriteSink::new(rt.stdout()),
        WriteSink::new(rt.stderr()),
        device,
    );
    ended.status
}

// A new device in memory. It tells its state and is at rest, so that a run may count on it.
fn device_in_memory(alloc: Global) -> SimDisk
    ensures { MayBegin Known (seen_of result).told }
{
    SimDisk::new(alloc, CAPACITY)
}

fn main(rt: HostRuntime) -> ExitCode {
    let alloc = rt.alloc();
    let words = match words_of(&rt) {
        Ok(words) => words,
        Err(_) => Vec::new(alloc),
    };
    let status = match read_words(&words) {
        Asked::Folder(path) => match String::from_str(alloc, path.as_str()) {
            Ok(path) => run_over(&rt, &words, DirDisk::new(&rt, path, CAPACITY)),
            Err(_) => {
                let mut err = WriteSink::new(rt.stderr());
                let _ = give_all(&mut err, b"out of memory\n");
                6
            }
        },
        Asked::Memory | Asked::Usage => run_over(&rt, &words, device_in_memory(alloc)),
    };
    ExitCode::from(status)
}

#[cfg(test)]
mod tests;
