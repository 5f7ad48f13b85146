//! An office in a file of the system, which `SqlKeeper` opens by itself.
use crate::tests::exercise::CLERK;
use crate::tests::facts::ensure;
use crate::tests::folders::folder_for;
use reg_keeper::keeper::Keeper;
use reg_office::Office;
use reg_sql::keeper::SqlKeeper;
use reg_sql::open::OpenFault;
use sqlite::{Alter, FileFrom, FileStore, Unknown};
use std::alloc::Global;
use std::fs;
use std::test::Fail;

type AtPath = SqlKeeper<FileStore<FileFrom<Unknown>>>;

// The keeper of an office with so many capabilities, once the first clerk has one.
fn founded<K: Keeper + Drop>(alloc: Global, mut keeper: K, before: usize) -> Result<K, Fail> {
    let found = keeper.caps()?.into_vec().len();
    ensure(found == before, "the capabilities before")?;
    let mut office = Office::new(alloc, keeper);
    office.found(CLERK)?;
    let mut keeper = office.into_keeper();
    let found = keeper.caps()?.into_vec().len();
    ensure(found == 1, "the first clerk's")?;
    Ok(keeper)
}

// The same over any store, since what is over a known one unfolds all that it holds.
fn founded_in<S: Alter + Drop>(
    alloc: Global,
    keeper: SqlKeeper<S>,
    before: usize,
) -> Result<SqlKeeper<S>, Fail> {
    founded(alloc, keeper, before)
}

fn at_path(rt: &HostRuntime, path: &str, fresh: bool) -> Result<AtPath, OpenFault> {
    SqlKeeper::from_path(rt, path, fresh, Unknown)
}

// Nothing is opened at the path, where no new office is wanted, since it is none of an office's.
fn assert_not_ours(rt: &HostRuntime, path: &str) -> Result<(), Fail> {
    match at_path(rt, path, false) {
        Err(OpenFault::NotOurs) => Ok(()),
        _ => Err("a path with no office for this opening".into()),
    }
}

fn opened(rt: &HostRuntime, path: &str, fresh: bool) -> Result<AtPath, Fail> {
    match at_path(rt, path, fresh) {
        Ok(keeper) => Ok(keeper),
        Err(_) => Err("an office at a path".into()),
    }
}

// None is opened where nothing is, nor while another has it open.
#[test]
fn office_at_a_path(rt: HostRuntime) -> Result<(), Fail> {
    let folder = folder_for(&rt, "office_at_a_path")?;
    fs::create_dir(&rt, folder.as_str())?;
    let path = format!(in rt.alloc(); "{folder}/office.db")?;
    assert_not_ours(&rt, path.as_str())?;
    let keeper = founded_in(rt.alloc(), opened(&rt, path.as_str(), true)?, 0)?;
    assert_not_ours(&rt, path.as_str())?;
    drop(keeper);
    let keeper = opened(&rt, path.as_str(), false)?;
    drop(founded_in(rt.alloc(), keeper, 1)?);
    Ok(fs::remove_dir_all(&rt, folder.as_str())?)
}
