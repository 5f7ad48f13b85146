//! What is done with an office, whatever keeps it.
use crate::tests::facts::ensure;
use crate::tests::transcript::sent;
use reg_keeper::keeper::Keeper;
use reg_office::Office;
use reg_program::scripts::found_and_run;
use reg_sql::keeper::SqlKeeper;
use reg_store::lists::ListKeeper;
use std::str;
use std::test::Fail;

/// The token of the first clerk.
pub const CLERK: &[u8] = b"clerk-token-00001";

/// What is done with an office that is new, whatever keeps it. A test that names its keeper itself is
/// proved over all that this keeper holds: so one function names each, and does any exercise over it.
pub trait Exercise {
    /// Does it over this keeper, in which nothing is kept yet, and gives what was answered, if that is asked.
    fn done<K: Keeper + Drop>(self, rt: &HostRuntime, keeper: K) -> Result<String, Fail>;
}

/// Does this over an office's content in lists.
pub fn over_lists<E: Exercise>(rt: &HostRuntime, exercise: E) -> Result<String, Fail> {
    exercise.done(rt, ListKeeper::new(rt.alloc()))
}

/// Does this over tables in memory, and over lists: what was answered over lists, and over tables.
pub fn over_both<E: Exercise + Copy>(
    rt: &HostRuntime,
    exercise: E,
) -> Result<(String, String), Fail> {
    let Ok(keeper) = SqlKeeper::in_memory(rt.alloc()) else {
        return Err("an office in memory".into());
    };
    let tables = exercise.done(rt, keeper)?;
    let lists = over_lists(rt, exercise)?;
    Ok((lists, tables))
}

/// An office over this keeper, with what the lines of a transcript make of it, all of which it accepts.
pub fn opened<K: Keeper + Drop>(
    rt: &HostRuntime,
    keeper: K,
    transcript: &str,
) -> Result<Office<K>, Fail> {
    let mut office = Office::new(rt.alloc(), keeper);
    assert_accepted(rt, &mut office, transcript)?;
    Ok(office)
}

fn assert_accepted<K: Keeper>(
    rt: &HostRuntime,
    office: &mut Office<K>,
    transcript: &str,
) -> Result<(), Fail> {
    let lines = sent(rt.alloc(), &[transcript])?;
    let mut output = Vec::new(rt.alloc());
    let mut reader = lines.as_bytes();
    let done = found_and_run(rt.alloc(), office, CLERK, &mut reader, &mut output);
    ensure(done.is_ok(), "a script that is run")?;
    for answer in str::from_utf8(output.as_slice())?.lines() {
        ensure(answer.starts_with("20"), answer)?;
    }
    Ok(())
}
