//! Files and folders that are made with a mode, whatever the umask of the process is.
use std::fs::{DirBuilder, Files, OpenFile, OpenOptions, Permissions};
use std::io::ErrorKind;
use std::os::unix::fs::{DirBuilderExt, OpenOptionsExt, PermissionsExt};
use std::{fs, io};

/// Its owner reads and writes a file, and nobody else.
pub const OWNER_ALONE: u32 = 0o600;

/// Its owner writes a file, and everybody reads it.
pub const READ_BY_ALL: u32 = 0o644;

/// Its owner writes a folder, and everybody reads it and goes through it.
const OPEN_TO_ALL: u32 = 0o755;

/// What a mode says of who may do what.
const RIGHTS: u32 = 0o7777;

/// A new file at a path, with this mode, that is open for writing. Nobody has more rights than that at any
/// moment.
pub fn create_file<H: Files>(rt: &H, path: &str, mode: u32) -> io::Result<H::File> {
    let file = OpenOptions::new()
        .write(true)
        .create_new(true)
        .mode(mode)
        .open(rt, path)?;
    // A umask may have taken rights away.
    OpenFile::set_permissions(&file, Permissions::from_mode(mode))?;
    Ok(file)
}

/// Makes the folder at a path, and each above it, that is not there. Everybody reads what is made. A link to
/// a folder is one.
pub fn make_folders<H: Files>(rt: &H, path: &str) -> io::Result<()> {
    match make_linked(rt, path) {
        Err(error) if error.kind() == ErrorKind::NotFound => {}
        made => return made,
    }
    for end in 1..path.len() {
        match path.split_at_checked(end) {
            Some((above, rest)) if rest.starts_with('/') => make_linked(rt, above)?,
            _ => {}
        }
    }
    make_linked(rt, path)
}

/// Makes the folder at a path, if it is not there. Everybody reads it then. A link in its place is an error.
pub fn make_folder<H: Files>(rt: &H, path: &str) -> io::Result<()> {
    match make(rt, path) {
        Ok(()) => Ok(()),
        Err(error) => match fs::symlink_metadata(rt, path) {
            Ok(found) if found.is_dir() => Ok(()),
            _ => Err(error),
        },
    }
}

// Makes a folder, if neither it nor a link to one is there.
fn make_linked<H: Files>(rt: &H, path: &str) -> io::Result<()> {
    match make(rt, path) {
        Ok(()) => Ok(()),
        Err(error) => match fs::metadata(rt, path) {
            Ok(found) if found.is_dir() => Ok(()),
            _ => Err(error),
        },
    }
}

// A new folder.
fn make<H: Files>(rt: &H, path: &str) -> io::Result<()> {
    DirBuilder::new().mode(OPEN_TO_ALL).create(rt, path)?;
    let found = fs::symlink_metadata(rt, path)?.permissions().mode();
    if found & OPEN_TO_ALL == OPEN_TO_ALL {
        return Ok(());
    }
    // A umask took rights away.
    let mode = found & RIGHTS | OPEN_TO_ALL;
    fs::set_permissions(rt, path, Permissions::from_mode(mode))
}
