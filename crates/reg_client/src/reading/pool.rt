//! Reads the prefixes of the pool.
use crate::reading::members::Members;
use json::Scratch;
use reg_blocks::pool::{Add, Pool};
use reg_blocks::prefix;
use reg_source::unpublished::Unpublished;
use std::alloc::Global;

/// The prefixes in an array.
pub(super) fn read(alloc: Global, body: &[u8]) -> Result<Pool, Unpublished> {
    let mut scratch = Scratch::new(alloc);
    let mut members = Members::new(&mut scratch, body)?;
    read_pool(alloc, &mut members)
}

fn read_pool(alloc: Global, members: &mut Members<'_>) -> Result<Pool, Unpublished> {
    members.open_array()?;
    let mut pool = Pool::new(alloc);
    add_prefixes(&mut pool, members)?;
    Ok(pool)
}

fn add_prefixes(pool: &mut Pool, members: &mut Members<'_>) -> Result<(), Unpublished> {
    for _ in 0..u64::MAX {
        if members.closes_array() {
            return members.end();
        }
        add(pool, members.item()?.as_bytes())?;
    }
    Err(Unpublished::Read)
}

fn add(pool: &mut Pool, digits: &[u8]) -> Result<(), Unpublished> {
    let Some(prefix) = prefix::read(digits) else {
        return Err(Unpublished::Read);
    };
    match pool.add(prefix) {
        Add::Added => Ok(()),
        Add::There | Add::Bits => Err(Unpublished::Read),
        Add::Memory => Err(Unpublished::Memory),
    }
}
