// CURRENT, and the version that its manifest gives.
ghost use Rattle.std.specs.Prelude.{◌≡◌, Ok, None, Some};
ghost use Rattle.keel_disk.specs.Seen.{IsQuiet};
ghost use Rattle.keel_directory.specs.Manifests as spec;
ghost use Rattle.keel_edit.specs.Reading.{edit_of};
ghost use Rattle.keel_version.specs.Tables.{nothing};
ghost use Rattle.keel_open.specs.Manifests.{CurrentTells, EditsAnswer, EditsTell};
ghost use Rattle.keel_open.specs.Refusals.{Answers, fault_in};

use crate::refusal::OpenRefusal;
use keel_base::FileName;
use keel_disk::{Disk, ReadError, read_file};
use keel_edit::{EditError, decode};
use keel_frag::{LogRecord, read_log};
use keel_manifest::{CurrentError, read_current};
use keel_version::{ApplyError, Version};
use std::alloc::Global;

/// The edits of a manifest.
#[derive(Debug, Drop)]
pub(crate) struct EditsFound {
    /// What they give in turn.
    pub(crate) version: Version,
    /// How many there are.
    pub(crate) count: u64,
}

/// The number of the manifest that CURRENT names, and `None` exactly where there is no CURRENT.
pub(crate) fn current_manifest<D: Disk>(
    alloc: Global,
    disk: &mut D,
) -> Result<Option<u64>, OpenRefusal>
    ensures names { CurrentTells (D.seen disk.old).told result }
    ensures quiet { IsQuiet (D.seen disk.old) (fault_in result) (D.seen disk.new) }
{
    match read_current(alloc, disk) {
        Ok(number) => Ok(number),
        Err(CurrentError::BadCurrent { bytes }) => Err(OpenRefusal::BadCurrent { bytes }),
        Err(CurrentError::Device(fault)) => Err(OpenRefusal::Device(fault)),
        Err(CurrentError::OutOfMemory) => Err(OpenRefusal::OutOfMemory),
    }
}

/// The version behind a record, which has to be an edit that applies.
fn behind_record(alloc: Global, version: Version, found: &LogRecord) -> Result<Version, OpenRefusal>
    ensures none { fault_in result ≡ None }
    ensures answers { Answers (λ next. next) (λ answer. answer ≡ spec.next_version found.now.offset (spec.behind_edit version (edit_of found.now.payload)) (λ next. Ok next)) result }
{
    let at = found.offset;
    let edit = match decode(alloc, found.payload.as_slice()) {
        Ok(edit) => edit,
        Err(EditError::BadShape { .. }) => return Err(OpenRefusal::DamagedManifest { at }),
        Err(EditError::OutOfMemory) => return Err(OpenRefusal::OutOfMemory),
    };
    match version.into_applied(alloc, &edit) {
        Ok(next) => Ok(next),
        Err(ApplyError::BadEdit { .. }) => Err(OpenRefusal::DamagedManifest { at }),
        Err(ApplyError::OutOfMemory) => Err(OpenRefusal::OutOfMemory),
    }
}

/// The version behind records that are edits which apply in turn, the first of them to no tables.
fn behind_records(alloc: Global, records: &[LogRecord]) -> Result<Version, OpenRefusal>
    ensures none { fault_in result ≡ None }
    ensures answers { Answers (λ version. version) (λ answer. answer ≡ spec.behind_edits nothing records.now) result }
{
    let mut version = Version::empty(alloc);
    'edits: for found in records {
        version = behind_record(alloc, version, found)?;
    }
    Ok(version)
}

/// The edits in the bytes of a manifest, of which there is one at least.
fn edits_in(alloc: Global, bytes: &[u8]) -> Result<EditsFound, OpenRefusal>
    ensures none { fault_in result ≡ None }
    ensures answers { EditsAnswer (Some bytes.now) result }
{
    let records = read_log(alloc, bytes)?;
    if records.all.is_empty() {
        return Err(OpenRefusal::DamagedManifest { at: 0 });
    }
    let version = behind_records(alloc, records.all.as_slice())?;
    let count = records.all.len() as u64;
    Ok(EditsFound { version, count })
}

/// The edits of the manifest of that number.
pub(crate) fn read_edits<D: Disk>(
    alloc: Global,
    disk: &mut D,
    number: u64,
) -> Result<EditsFound, OpenRefusal>
    ensures edits { EditsTell (D.seen disk.old).told number result }
    ensures quiet { IsQuiet (D.seen disk.old) (fault_in result) (D.seen disk.new) }
{
    let name = FileName::Manifest(number);
    let size = match disk.size(alloc, name) {
        Ok(size) => size,
        Err(ReadError::Absent) => return Err(OpenRefusal::DamagedManifest { at: 0 }),
        Err(ReadError::Fault(fault)) => return Err(OpenRefusal::Device(fault)),
        Err(ReadError::OutOfMemory) => return Err(OpenRefusal::OutOfMemory),
    };
    let bytes = match read_file(alloc, disk, name, size) {
        Ok(bytes) => bytes,
        Err(error) => return Err(OpenRefusal::from(error)),
    };
    edits_in(alloc, bytes.as_slice())
}
