// CURRENT, and the version that a manifest gives.
ghost use Rattle.std.specs.Prelude.{◌≡◌, Ok, take, option_map};
ghost use Rattle.keel_edit.specs.Reading.{edit_of};
ghost use Rattle.keel_directory.specs.Answers.{Answers};
ghost use Rattle.keel_directory.specs.Manifests as spec;

use crate::answer::DirectoryRefusal;
use keel_base::Bytes;
use keel_edit::{EditError, decode};
use keel_frag::{LogRecord, read_log};
use keel_name::read_current;
use keel_version::{ApplyError, Version};
use std::alloc::Global;

/// What begins some bytes, 64 of them where there are more.
fn front(bytes: &[u8]) -> &[u8]
    ensures { result.now ≡ take 64 bytes.now }
{
    if bytes.len() <= 64 {
        return bytes;
    }
    let (front, _) = bytes.split_at(64);
    front
}

/// The number of the manifest that CURRENT's bytes name, or their refusal.
pub(crate) fn current_manifest(alloc: Global, bytes: &[u8]) -> Result<u64, DirectoryRefusal>
    ensures { Answers (λ number. number) (spec.CurrentIs bytes.now) result }
{
    match read_current(bytes) {
        Some(number) => Ok(number),
        None => Err(DirectoryRefusal::BadCurrent {
            bytes: Bytes::from_slice(alloc, front(bytes))?,
        }),
    }
}

/// The version behind a record, which has to be an edit that applies.
fn behind_record(
    alloc: Global,
    version: Version,
    found: &LogRecord,
) -> Result<Version, DirectoryRefusal>
    ensures { Answers (λ next. next) (λ answer. answer ≡ spec.next_version found.now.offset (spec.behind_edit version (edit_of found.now.payload)) (λ next. Ok next)) result }
{
    let at = found.offset;
    let edit = match decode(alloc, found.payload.as_slice()) {
        Ok(edit) => edit,
        Err(EditError::BadShape { .. }) => return Err(DirectoryRefusal::DamagedManifest { at }),
        Err(EditError::OutOfMemory) => return Err(DirectoryRefusal::OutOfMemory),
    };
    match version.into_applied(alloc, &edit) {
        Ok(next) => Ok(next),
        Err(ApplyError::BadEdit { .. }) => Err(DirectoryRefusal::DamagedManifest { at }),
        Err(ApplyError::OutOfMemory) => Err(DirectoryRefusal::OutOfMemory),
    }
}

/// The version behind records that are edits which apply in turn.
fn behind_records(
    alloc: Global,
    version: Version,
    records: &[LogRecord],
) -> Result<Version, DirectoryRefusal>
    ensures { Answers (λ next. next) (λ answer. answer ≡ spec.behind_edits version records.now) result }
{
    let mut version = version;
    for found in records {
        version = behind_record(alloc, version, found)?;
    }
    Ok(version)
}

/// The version of a manifest, which has an edit at least.
pub(crate) fn manifest_version(
    alloc: Global,
    manifest: Option<&[u8]>,
) -> Result<Version, DirectoryRefusal>
    ensures { Answers (λ version. version) (spec.ManifestIs (option_map (λ bytes. bytes.now) manifest.entry)) result }
{
    let Some(bytes) = manifest else {
        return Err(DirectoryRefusal::DamagedManifest { at: 0 });
    };
    let records = read_log(alloc, bytes)?;
    if records.all.is_empty() {
        return Err(DirectoryRefusal::DamagedManifest { at: 0 });
    }
    behind_records(alloc, Version::empty(alloc), records.all.as_slice())
}
