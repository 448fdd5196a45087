// Opening a store.
ghost use Rattle.std.specs.Prelude.{◌≡◌, ◌≤◌, ◌^◌, Err, IfErr, IfOk, length};
ghost use Rattle.keel_machine.specs.States.{State};
ghost use Rattle.keel_machine.specs.Turns.{Opening, Answers};
ghost use Rattle.keel_core.specs.Openings.{Expects, Opens, replayed_full};
ghost use Rattle.keel_core.specs.Opened.{ArePartsOf, IsCoreOf};
ghost use Rattle.keel_core.specs.Segments.{segments_shown};

use crate::boot::Boot;
use crate::placing::placed;
use crate::queue::Queue;
use crate::segments::Segment;
use crate::store::Core;
use crate::tables::{Tables, copied};
use crate::trail::Trail;
use keel_base::{LAST_NUMBER, Options, OutOfMemory};
use keel_directory::Replayed;
use keel_disk::Disk;
use keel_handler::Handler;
use keel_manifest::{Manifest, NextFile};
use keel_mem::Mem;
use keel_open::{OpenRefusal, StoreFound, read_store};
use std::alloc::Global;

/// An opening that is refused hands the device back.
#[derive(Drop)]
pub struct Refused<D: Disk> {
    pub refusal: OpenRefusal,
    pub disk: D,
}

// What is made of what an opening found, before anything is taken into use.
#[derive(Drop)]
struct Parts {
    tables: Tables,
    segments: Vec<Segment>,
    manifest: Manifest,
    last_seq: u64,
    next_file: u64,
}

impl<D: Disk> Core<D> {
    /// Opens the store in the directory of the device, which reads as `keel_open` says. It changes nothing there: the store
    /// then boots, by its resume steps. It is refused as `read_store` refuses to read, and for want of memory; the device is
    /// then as it was, but for the fault that it counted.
    pub fn open(alloc: Global, options: Options, disk: D) -> Result<Core<D>, Refused<D>>
        // A store's story goes on where the device bears it out.
        ensures ok { (s : State) → s.device ≡ D.seen disk → Expects s
            → IfOk result (Opens s options) }
        // A refusal has its cause in the device, whatever the story.
        ensures refused { (s : State) → s.device ≡ D.seen disk → IfErr result (λ e.
            Answers s (Opening options (Err e.refusal)) (D.seen e.disk)) }
    {
        let mut disk = disk;
        match read_store(alloc, &mut disk) {
            Ok(found) => match Parts::of(alloc, found) {
                Ok(parts) => Ok(Core::of_parts(alloc, options, disk, parts)),
                Err(OutOfMemory) => Err(Refused {
                    refusal: OpenRefusal::OutOfMemory,
                    disk,
                }),
            },
            Err(refusal) => Err(Refused { refusal, disk }),
        }
    }

    // The store of these parts, whose boot hasn't begun.
    fn of_parts(alloc: Global, options: Options, disk: D, parts: Parts) -> Core<D>
        requires numbers { parts.last_seq ≤ 2 ^ 56 }
        requires file { 1 ≤ parts.next_file }
        requires few { length parts.segments.items ≤ 1 }
        ensures { IsCoreOf (D.seen disk) options parts result }
    {
        let Parts {
            tables,
            segments,
            manifest,
            last_seq,
            next_file,
        } = parts;
        let handler = Handler::new(
            options.paranoid,
            options.auto,
            options.attempts,
            options.interval,
        );
        Core {
            disk,
            options,
            boot: Boot::ToStart,
            boot_job: 0,
            trail: Trail::new(alloc, last_seq),
            segments,
            mem: Mem::new(alloc),
            log: None,
            tables,
            queue: Queue::new(alloc),
            last_seq,
            handed_seq: last_seq,
            next_file: NextFile::new(next_file),
            manifest,
            flush: None,
            flush_job: 0,
            handler,
        }
    }
}

impl Parts {
    // Their memory is all that an opening takes.
    fn of(alloc: Global, found: StoreFound) -> Result<Parts, OutOfMemory>
        requires { 1 ≤ found.next_file }
        ensures { IfOk result (ArePartsOf found) }
    {
        if found.last_seq > LAST_NUMBER {
            return Err(OutOfMemory);
        }
        let tables = Tables::new(copied(alloc, found.version.as_slice())?);
        let manifest = Manifest::named(alloc, found.manifest, found.edits)?;
        let StoreFound {
            version,
            batches,
            logs,
            last_seq,
            next_file,
            ..
        } = found;
        let segments = replayed(alloc, version.last_seq(), batches.as_slice(), logs)?;
        Ok(Parts {
            tables,
            segments,
            manifest,
            last_seq,
            next_file,
        })
    }
}

// The replayed batches are one full segment, where there are any.
fn replayed(
    alloc: Global,
    seq: u64,
    batches: &[Replayed],
    logs: Vec<u64>,
) -> Result<Vec<Segment>, OutOfMemory>
    ensures shown { IfOk result (λ segments. segments_shown segments.items ≡ replayed_full seq batches.now logs.items) }
    ensures few { IfOk result (λ segments. length segments.items ≤ 1) }
{
    let mut segments = Vec::new(alloc);
    if batches.is_empty() {
        return Ok(segments);
    }
    let mem = placed(alloc, seq, batches)?;
    segments.push(Segment { mem, logs })?;
    Ok(segments)
}
