//! The file system, where new files are their owner's alone.
use reg_source::disk::{Disk, SystemDisk};
use reg_source::modes::{OWNER_ALONE, create_file};
use reg_source::unpublished::{Unpublished, unwritten};
use std::fs;

/// The file system. Nothing is known of it.
#[derive(Drop)]
pub struct PrivateDisk<'a> {
    rt: &'a HostRuntime,
    disk: SystemDisk<'a, HostRuntime>,
    /// A folder, which is locked until this is dropped.
    lock: fs::File,
}

impl<'a> PrivateDisk<'a> {
    /// That of a runtime, where a folder is locked.
    pub fn of(rt: &'a HostRuntime, lock: fs::File) -> Self {
        PrivateDisk {
            rt,
            disk: SystemDisk { rt },
            lock,
        }
    }
}

impl Disk for PrivateDisk<'_> {
    type Reader = fs::File;

    type Draft = fs::File;

    fn open(&self, name: &str) -> Option<fs::File> {
        self.disk.open(name)
    }

    fn find(&self, name: &str) -> Result<Option<fs::File>, Unpublished> {
        self.disk.find(name)
    }

    fn create(&mut self, name: &str) -> Result<fs::File, Unpublished> {
        create_file(self.rt, name, OWNER_ALONE).map_err(unwritten)
    }

    fn add(&self, draft: &mut fs::File, bytes: &[u8]) -> Result<(), Unpublished> {
        self.disk.add(draft, bytes)
    }

    fn keep(&mut self, draft: fs::File) -> Result<(), Unpublished> {
        self.disk.keep(draft)
    }

    fn rename(&mut self, from: &str, to: &str) -> Result<(), Unpublished> {
        self.disk.rename(from, to)
    }

    fn keep_names(&mut self, folder: &str) -> Result<(), Unpublished> {
        self.disk.keep_names(folder)
    }

    fn remove(&mut self, name: &str) {
        self.disk.remove(name);
    }
}
