// A folder of the host as a device.
use crate::calls::{
    LOG, TABLE, appends, creates, cuts, has, has_free, has_size, is_absent, is_refused,
    lists_the_log, removes, renames, syncs, syncs_names,
};
use keel_base::Fault;
use keel_dirdisk::DirDisk;
use keel_disk::{Device, Pick, Rule};
use std::test::Fail;
use std::{env, fs, process};

/// A new folder for the test of this name.
fn new_folder(rt: &HostRuntime, test: &str) -> Result<String, Fail> {
    let alloc = rt.alloc();
    let mut place = env::temp_dir(rt)?;
    let own = format!(in alloc; "keel_device_{}_{test}", process::id(rt.process()))?;
    place.push(own.as_str())?;
    fs::create_dir(rt, place.as_str())?;
    Ok(String::from_str(alloc, place.as_str())?)
}

/// A file of the folder with these bytes, made by another program.
fn write_file(rt: &HostRuntime, path: &str, name: &str, bytes: &str) -> Result<(), Fail> {
    let place = format!(in rt.alloc(); "{path}/{name}")?;
    fs::write(rt, place.as_str(), bytes)?;
    Ok(())
}

/// An append is within the budget, and a removal gives its bytes back.
#[test]
fn the_budget_is_kept(rt: HostRuntime) -> Result<(), Fail> {
    let alloc = rt.alloc();
    let path = new_folder(&rt, "budget")?;
    let mut disk = DirDisk::new(&rt, path.clone()?, 10);
    assert!(rt; is_refused(alloc, &mut disk, b"a", Fault::Plain));
    assert!(rt; creates(alloc, &mut disk, LOG));
    assert!(rt; appends(alloc, &mut disk, b"abcdef"));
    assert!(rt; is_refused(alloc, &mut disk, b"ghijk", Fault::NoSpace));
    assert!(rt; has_free(alloc, &mut disk, 4));
    assert!(rt; removes(alloc, &mut disk, LOG));
    assert!(rt; has_free(alloc, &mut disk, 10));
    fs::remove_dir_all(&rt, path.as_str())?;
    Ok(())
}

/// A new file, and one that is given another name, take the place of a file that has the name.
#[test]
fn a_name_is_taken_over(rt: HostRuntime) -> Result<(), Fail> {
    let alloc = rt.alloc();
    let path = new_folder(&rt, "names")?;
    let mut disk = DirDisk::new(&rt, path.clone()?, 10);
    assert!(rt; creates(alloc, &mut disk, LOG));
    assert!(rt; appends(alloc, &mut disk, b"abc"));
    assert!(rt; renames(alloc, &mut disk));
    assert!(rt; is_absent(alloc, &mut disk, LOG));
    assert!(rt; creates(alloc, &mut disk, TABLE));
    assert!(rt; has_size(alloc, &mut disk, TABLE, 0));
    assert!(rt; has_free(alloc, &mut disk, 10));
    fs::remove_dir_all(&rt, path.as_str())?;
    Ok(())
}

/// A file that is cut takes no bytes until the cut is firm.
#[test]
fn a_cut_waits(rt: HostRuntime) -> Result<(), Fail> {
    let alloc = rt.alloc();
    let path = new_folder(&rt, "cut")?;
    let mut disk = DirDisk::new(&rt, path.clone()?, 10);
    assert!(rt; creates(alloc, &mut disk, LOG));
    assert!(rt; appends(alloc, &mut disk, b"abcdef"));
    assert!(rt; cuts(alloc, &mut disk, 5));
    assert!(rt; is_refused(alloc, &mut disk, b"x", Fault::Plain));
    assert!(rt; syncs_names(alloc, &mut disk));
    assert!(rt; appends(alloc, &mut disk, b"xy"));
    assert!(rt; has_free(alloc, &mut disk, 3));
    fs::remove_dir_all(&rt, path.as_str())?;
    Ok(())
}

/// A device finds what another left, and no file that isn't the store's.
#[test]
fn a_later_device_finds_the_files(rt: HostRuntime) -> Result<(), Fail> {
    let alloc = rt.alloc();
    let path = new_folder(&rt, "later")?;
    write_file(&rt, path.as_str(), "notes.txt", "kept")?;
    write_file(&rt, path.as_str(), "000001.log", "abcdef")?;
    let mut disk = DirDisk::new(&rt, path.clone()?, 10);
    assert!(rt; syncs(alloc, &mut disk));
    assert!(rt; lists_the_log(alloc, &mut disk));
    assert!(rt; has(alloc, &mut disk, LOG, b"abcdef"));
    fs::remove_dir_all(&rt, path.as_str())?;
    Ok(())
}

/// A folder is one device's, until that ends.
#[test]
fn a_folder_is_locked(rt: HostRuntime) -> Result<(), Fail> {
    let alloc = rt.alloc();
    let path = new_folder(&rt, "locked")?;
    let mut disk = DirDisk::new(&rt, path.clone()?, 10);
    let mut other = DirDisk::new(&rt, path.clone()?, 10);
    assert!(rt; creates(alloc, &mut disk, LOG));
    assert!(rt; is_refused(alloc, &mut other, b"a", Fault::Plain));
    assert!(rt; !removes(alloc, &mut other, LOG));
    assert!(rt; has_size(alloc, &mut disk, LOG, 0));
    drop(disk);
    assert!(rt; removes(alloc, &mut other, LOG));
    fs::remove_dir_all(&rt, path.as_str())?;
    Ok(())
}

/// Nothing is arranged on it.
#[test]
fn nothing_is_arranged(rt: HostRuntime) -> Result<(), Fail> {
    let alloc = rt.alloc();
    let mut disk = DirDisk::new(&rt, String::new(alloc), 10);
    let pick = Pick {
        dirops: 0,
        keep: 0,
        garbage: 0,
        seed: 0,
    };
    assert!(rt; !disk.simulated());
    assert!(rt; disk.arrange(alloc, Rule::Capacity(1)) == Ok(false));
    assert!(rt; disk.crash(alloc, pick) == Ok(false));
    Ok(())
}
