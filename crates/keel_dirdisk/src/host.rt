// Single calls of the host, on the path of a file.

use crate::stop::Stop;
use std::fs::{self, File, OpenOptions};
use std::io;
use std::rt::Files;

/// Opens a folder and locks it, where no one else has. The lock is on the folder itself and ends with the descriptor,
/// also where the program is killed.
pub fn lock_at<R: Files<File = File>>(rt: &R, path: &str) -> Result<File, Stop> {
    let own = fs::open(rt, path)?;
    if own.try_lock().is_err() {
        return Err(Stop::Host);
    }
    Ok(own)
}

/// How many bytes a file has, and `None` where the name is absent. What stands there and isn't a regular file,
/// a link for one, is never opened.
pub fn size_at<R: Files>(rt: &R, path: &str) -> Result<Option<u64>, Stop> {
    match fs::symlink_metadata(rt, path) {
        Ok(found) if found.is_file() => Ok(Some(found.len())),
        Ok(_) => Err(Stop::Host),
        Err(error) if error.kind() == io::ErrorKind::NotFound => Ok(None),
        Err(_) => Err(Stop::Host),
    }
}

/// Opens a file that is there.
pub fn open_at<R: Files>(rt: &R, path: &str) -> Result<Option<R::File>, Stop> {
    if size_at(rt, path)?.is_none() {
        return Ok(None);
    }
    let file = OpenOptions::new().read(true).append(true).open(rt, path)?;
    Ok(Some(file))
}

// Makes a new empty file, where nothing is.
fn new_at<R: Files>(rt: &R, path: &str) -> Result<R::File, Stop> {
    let file = OpenOptions::new()
        .read(true)
        .append(true)
        .create_new(true)
        .open(rt, path)?;
    Ok(file)
}

/// Makes a new empty file, and says how many bytes the one had that it replaces. Such a one keeps its name until the
/// new one, made on the spare path, takes it in one step.
pub fn make_at<R: Files>(rt: &R, path: &str, spare: &str) -> Result<(R::File, u64), Stop> {
    let Some(freed) = size_at(rt, path)? else {
        let file = new_at(rt, path)?;
        return Ok((file, 0));
    };
    remove_at(rt, spare)?;
    let file = new_at(rt, spare)?;
    fs::rename(rt, spare, path)?;
    Ok((file, freed))
}

/// Takes a file away, where it is there, and says how many bytes it had.
pub fn remove_at<R: Files>(rt: &R, path: &str) -> Result<u64, Stop> {
    let Some(freed) = size_at(rt, path)? else {
        return Ok(0);
    };
    fs::remove_file(rt, path)?;
    Ok(freed)
}

/// Gives a file that is there another path, and says how many bytes the one had that it replaces.
pub fn rename_at<R: Files>(rt: &R, from: &str, to: &str) -> Result<u64, Stop> {
    if size_at(rt, from)?.is_none() {
        return Err(Stop::Host);
    }
    let freed = if from == to {
        0
    } else {
        size_at(rt, to)?.unwrap_or(0)
    };
    fs::rename(rt, from, to)?;
    Ok(freed)
}
