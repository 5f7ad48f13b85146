//! The files of an office on a file system, read while another may be writing them. They are never
//! written, and no lock is taken.
ghost use Rattle.std.specs.Prelude.{IfErr};
ghost use Rattle.reg_sql.specs.Looking.{IsOfReading};

use crate::copying::{Places, copy_of, has_hot_journal, open_regular};
use crate::steady::Original;
use crate::trouble::Trouble;
use sqlite_disk::Memory;
use std::alloc::Global;
use std::io::Read;

/// How many bytes the header of a log has.
const HEADER_BYTES: u64 = 32;

/// The office's file at a path, and its log. What they hold no contract can say.
#[derive(Drop)]
pub struct SystemOriginal<'a> {
    rt: &'a HostRuntime,
    places: Places,
}

impl<'a> SystemOriginal<'a> {
    /// The one at a path, whatever links lead to it. `NoFile` where there is none.
    pub fn at(rt: &'a HostRuntime, path: &str) -> Result<Self, Trouble>
        ensures { IfErr result IsOfReading }
    {
        Ok(SystemOriginal {
            rt,
            places: Places::of(rt, path)?,
        })
    }
}

impl Original for SystemOriginal<'_> {
    fn header(&mut self, alloc: Global) -> Result<Memory, Trouble> {
        match open_regular(self.rt, self.places.log.as_str()) {
            Ok(log) => copy_of(alloc, &mut log.take(HEADER_BYTES)),
            Err(Trouble::NoFile) => Ok(Memory::new(alloc)),
            Err(trouble) => Err(trouble),
        }
    }

    fn file(&mut self, alloc: Global) -> Result<Memory, Trouble> {
        if has_hot_journal(self.rt, self.places.journal.as_str())? {
            return Err(Trouble::Journal);
        }
        let mut file = open_regular(self.rt, self.places.file.as_str())?;
        copy_of(alloc, &mut file)
    }

    fn log(&mut self, alloc: Global) -> Result<Memory, Trouble> {
        match open_regular(self.rt, self.places.log.as_str()) {
            Ok(mut log) => copy_of(alloc, &mut log),
            Err(Trouble::NoFile) => Ok(Memory::new(alloc)),
            Err(trouble) => Err(trouble),
        }
    }
}
