// A failed write, and the resume behind it.
use keel_base::{Batch, Bytes, Call, Fault, Op, Ops, Options, OutOfMemory};
use keel_core::Core;
use keel_disk::Rule;
use keel_machine::{Admit, ResumeStep, Start, WriteStep};
use keel_simdisk::SimDisk;
use std::alloc::Global;
use std::test::Fail;

const OPTIONS: Options = Options {
    paranoid: false,
    auto: true,
    attempts: 3,
    interval: 1000,
    write_buffer: 1_048_576,
    max_immutables: 2,
    level0_trigger: 4,
    level_base: 1_048_576,
    table_size: 1_048_576,
    limit: 0,
    buffer: 0,
    rate: 0,
    ratio: 0,
    chunk: 0,
};

/// A put that is to be firm.
fn put(alloc: Global) -> Result<Batch, OutOfMemory> {
    let mut ops = Ops::new(alloc);
    ops.push(Op::Put {
        key: Bytes::from_slice(alloc, b"k")?,
        value: Bytes::from_slice(alloc, b"v")?,
    })?;
    Ok(Batch { ops, sync: true })
}

/// Whether the boot or resume makes its last call within twenty steps.
fn clears(alloc: Global, core: &mut Core<SimDisk>) -> bool {
    for _ in 0..20 {
        if let ResumeStep::Cleared { .. } = core.resume_step(alloc, None) {
            return true;
        }
    }
    false
}

#[test]
fn a_store_is_resumed(rt: HostRuntime) -> Result<(), Fail> {
    let alloc = rt.alloc();
    let disk = SimDisk::new(alloc, 1_048_576);
    let mut core = Core::open(alloc, OPTIONS, disk).ok().ok_or("refused")?;
    let booted = clears(alloc, &mut core);
    assert!(rt; booted);
    let idle = core.resume();
    assert!(rt; matches!(idle, Start::Nothing));
    let admitted = core.admit(put(alloc)?);
    assert!(rt; matches!(admitted, Admit::Queued { ticket: 1 }));
    let rule = Rule::Fail {
        call: Call::Sync,
        fault: Fault::Retryable,
        skip: 0,
        times: 1,
        keep: 0,
    };
    core.arrange(alloc, rule)?;
    let appended = core.write_step(alloc, None);
    assert!(rt; matches!(appended, WriteStep::Moved { .. }));
    let failed = core.write_step(alloc, None);
    assert!(rt; matches!(failed, WriteStep::Failed(_)));
    let started = core.resume();
    assert!(rt; matches!(started, Start::Started { job: 2 }));
    let resumed = clears(alloc, &mut core);
    assert!(rt; resumed);
    Ok(())
}
