//! Regular files, which are opened to be read.
ghost use Rattle.std.specs.Prelude.{◌↔◌, ◌<◌, IsOk, IsTrue};
ghost use Rattle.std.specs.Fs.{IsFile, file_type, metadata_len};

use std::fs::{Files, Metadata, OpenFile};
use std::io::ErrorKind;
use std::{fs, io};

/// Opens the regular file at a path to read it, whatever links lead there. What is there is asked before it
/// is opened, since a named pipe would be waited for; an error of the kind `InvalidInput` where it is
/// something else.
pub fn open_regular<H: Files>(rt: &H, path: &str) -> io::Result<H::File> {
    refuse_special(&fs::metadata(rt, path)?)?;
    let file = fs::open(rt, path)?;
    // Something else may have come there meanwhile.
    refuse_special(&OpenFile::metadata(&file)?)?;
    Ok(file)
}

/// Whether the file at a path has more bytes than so many, before it is opened and as far as the system says
/// how many it has.
pub fn is_longer<H: Files>(rt: &H, path: &str, most: usize) -> bool {
    match fs::metadata(rt, path) {
        Ok(found) => exceeds(&found, most),
        Err(_) => false,
    }
}

// Refuses what is no regular file.
fn refuse_special(found: &Metadata) -> io::Result<()>
    ensures { IsOk result ↔ IsFile (file_type found.now) }
{
    if found.is_file() {
        Ok(())
    } else {
        Err(ErrorKind::InvalidInput.into())
    }
}

fn exceeds(found: &Metadata, most: usize) -> bool
    ensures { IsTrue result ↔ (most < metadata_len found.now) }
{
    found.len() > most as u64
}
