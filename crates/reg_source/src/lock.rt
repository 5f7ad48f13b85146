//! Folders in which one job writes at a time.
use crate::modes::{OWNER_ALONE, create_file};
use crate::unpublished::{Unpublished, unwritten};
use std::alloc::Global;
use std::fs::{File, OpenFile, OpenOptions, Permissions};
use std::io::ErrorKind;
use std::os::unix::fs::PermissionsExt;
use std::{fs, io};

/// The name of the file in a folder by which it is locked.
pub const LOCK_NAME: &str = ".lock";

/// Locks a folder, until what is given is dropped. The lock is one of the file `.lock` in it, which is made
/// where it is not there, for its owner alone, and stays: who may only read the folder cannot lock it.
/// `Write` where that is no regular file or cannot be opened, or another job has locked it.
pub fn locked(rt: &HostRuntime, alloc: Global, folder: &str) -> Result<File, Unpublished> {
    let path = format!(in alloc; "{folder}/{LOCK_NAME}")?;
    let file = opened(rt, path.as_str()).map_err(unwritten)?;
    match file.try_lock() {
        Ok(()) => Ok(file),
        Err(_) => Err(Unpublished::Write),
    }
}

// Opens the file of a lock. One that is there is given the mode of a new one.
fn opened(rt: &HostRuntime, path: &str) -> io::Result<File> {
    match create_file(rt, path, OWNER_ALONE) {
        Err(error) if error.kind() == ErrorKind::AlreadyExists => {}
        made => return made,
    }
    if !fs::symlink_metadata(rt, path)?.is_file() {
        return Err(ErrorKind::InvalidInput.into());
    }
    let file = OpenOptions::new().write(true).open(rt, path)?;
    OpenFile::set_permissions(&file, Permissions::from_mode(OWNER_ALONE))?;
    Ok(file)
}
