// What a crash leaves, as new files.
ghost use Rattle.std.specs.Prelude.{◌≡◌, ◌≤◌, ◌↔◌, length, All, IfOk, IsTrue};
ghost use Rattle.keel_disk.specs.Image.{firm_file as firm_file_of, image_files, image_names};
ghost use Rattle.keel_disk.specs.Plain.{has_fragments, PlainWhere, ArePlain};
ghost use Rattle.keel_disk.specs.Sound.{IsFile};
ghost use Rattle.keel_disk.specs.State.{file_at};
ghost use Rattle.keel_simdisk.specs.Crash.{bytes_left, image_of};

use keel_base::{Bytes, FileName, OutOfMemory};
use keel_disk::{File, Pick};
use keel_frag::is_plain;
use std::alloc::Global;

// What is left of a file: the firm bytes and some past them, and then garbage.
fn left_of(alloc: Global, file: &File, pick: Pick) -> Result<Bytes, OutOfMemory>
    requires { file.now.firm ≤ length file.now.meant }
    ensures { IfOk result (λ bytes. bytes ≡ bytes_left pick file.now) }
{
    let meant = file.meant.as_slice();
    let kept = file.firm + (pick.keep as usize).min(meant.len() - file.firm);
    let mut bytes = Bytes::from_slice(alloc, &meant[..kept])?;
    let count = (pick.garbage as usize).min(meant.len() - kept);
    let mut value = (pick.seed % 256) as u8;
    for i in 0..count {
        bytes.extend(&[value])?;
        value = value.wrapping_add(1);
    }
    Ok(bytes)
}

// The same of a file by its number.
fn left_at(alloc: Global, files: &[File], number: usize, pick: Pick) -> Result<Bytes, OutOfMemory>
    requires { All IsFile files.now }
    ensures { IfOk result (λ bytes. bytes ≡ bytes_left pick (file_at number files.now)) }
{
    if number < files.len() {
        left_of(alloc, &files[number], pick)
    } else {
        Ok(Bytes::new(alloc))
    }
}

fn meant_at(files: &[File], number: usize) -> &[u8]
    ensures { result.now ≡ (file_at number files.now).meant }
{
    if number < files.len() {
        let file = &files[number];
        file.meant.as_slice()
    } else {
        &[]
    }
}

// Whether no fragment of a log or manifest is good by chance.
fn is_plain_file(name: FileName, meant: &[u8], bytes: &[u8]) -> bool
    ensures { IsTrue result ↔ PlainWhere (has_fragments name) meant.now bytes.now }
{
    match name {
        FileName::Log(_) => is_plain(meant, bytes),
        FileName::Table(_) => true,
        FileName::Trash(_) => true,
        FileName::Manifest(_) => is_plain(meant, bytes),
        FileName::Current => true,
        FileName::Temp(_) => true,
    }
}

fn both(one: bool, other: bool) -> bool
    ensures { IsTrue result ↔ (IsTrue one × IsTrue other) }
{
    one && other
}

// A file that is firm in whole.
fn firm_file(alloc: Global, meant: Bytes) -> Result<File, OutOfMemory>
    ensures { IfOk result (λ file. file ≡ firm_file_of meant) }
{
    let read = Bytes::from_slice(alloc, meant.as_slice())?;
    let firm = meant.len();
    Ok(File {
        meant,
        firm,
        spoilt: false,
        read,
    })
}

pub fn copied(alloc: Global, files: &[File]) -> Result<Vec<File>, OutOfMemory>
    ensures { IfOk result (λ copies. copies.items ≡ files.now) }
{
    let mut copies = Vec::new(alloc);
    for file in files {
        copies.push(File {
            meant: Bytes::from_slice(alloc, file.meant.as_slice())?,
            firm: file.firm,
            spoilt: file.spoilt,
            read: Bytes::from_slice(alloc, file.read.as_slice())?,
        })?;
    }
    Ok(copies)
}

/// Files and a directory as a crash leaves them, and whether they aren't forged.
#[derive(Drop)]
pub struct Remains {
    pub files: Vec<File>,
    pub names: Vec<(FileName, usize)>,
    pub plain: bool,
}

/// What a crash leaves of a directory whose changes are all firm.
pub fn restart(
    alloc: Global,
    files: &[File],
    directory: &[(FileName, usize)],
    pick: Pick,
) -> Result<Remains, OutOfMemory>
    requires { All IsFile files.now }
    ensures files { IfOk result (λ made. made.files.items ≡ image_files (image_of pick files.now directory.now)) }
    ensures names { IfOk result (λ made. made.names.items ≡ image_names 0 (image_of pick files.now directory.now)) }
    ensures plain { IfOk result (λ made. IsTrue made.plain ↔ ArePlain files.now directory.now (image_of pick files.now directory.now)) }
{
    let mut made = Vec::new(alloc);
    let mut names = Vec::new(alloc);
    let mut plain = true;
    for entry in directory {
        let number = made.len();
        let bytes = left_at(alloc, files, entry.1, pick)?;
        let is_plain = is_plain_file(entry.0, meant_at(files, entry.1), bytes.as_slice());
        plain = both(plain, is_plain);
        made.push(firm_file(alloc, bytes)?)?;
        names.push((entry.0, number))?;
    }
    Ok(Remains {
        files: made,
        names,
        plain,
    })
}
