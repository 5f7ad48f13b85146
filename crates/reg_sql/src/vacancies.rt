//! What is free in an office, made from its rows.
ghost use Rattle.std.specs.Prelude.{All, Contains, IsTrue, OnOk};
ghost use Rattle.std.specs.FinMap as fin;
ghost use Rattle.sqlite.specs.Held.{state};
ghost use Rattle.reg_blocks.specs.Block.{leading_24};
ghost use Rattle.reg_blocks.specs.Pool.{is_pool_prefix};
ghost use Rattle.reg_core.specs.WellKept.{WellKept};
ghost use Rattle.reg_tables.specs.Connection.{Holds};
ghost use Rattle.reg_rows.specs.Calls.{IsKeeping, Looks};
ghost use Rattle.reg_statements.specs.Content.{world_in};
ghost use Rattle.reg_vacancies.specs.Pool.{prefix_set};
ghost use Rattle.reg_vacancies.specs.Vacancies.{AreVacancies, Pool as Prefixes, AreVacanciesOf};
ghost use Rattle.reg_vacancies.specs.Values.{Entries};
ghost use Rattle.reg_sql.specs.Keeping.{KeepsOffice};
ghost use Rattle.reg_sql.specs.Listed.{given, registrations};

use reg_content::blocks::blocks;
use reg_core::entry::Entry;
use reg_core::holding::Listed;
use reg_keeper::keeper::Fault;
use reg_rows::entries::all_entries;
use reg_rows::pool::pool;
use reg_statements::loads::Loads;
use reg_tables::reports::Reports;
use reg_vacancies::vacancies::Vacancies;
use sqlite::Connection;
use std::alloc::{AllocError, Global};

/// The vacancies that are kept, or else those that the rows leave.
pub fn vacancies_of<S: Reports + Loads>(
    alloc: Global,
    conn: &mut Connection<S>,
    kept: Option<Vacancies>,
) -> Result<Vacancies, Fault>
    requires { KeepsOffice kept (state S.Store conn.old) }
    ensures { Looks (state S.Store conn.old) (state S.Store conn.new) result AreVacanciesOf }
{
    match kept {
        Some(vacancies) => Ok(vacancies),
        None => read_vacancies(alloc, conn),
    }
}

/// The vacancies that the rows leave. Each entry, prefix and block is read.
pub fn read_vacancies<S: Reports + Loads>(
    alloc: Global,
    conn: &mut Connection<S>,
) -> Result<Vacancies, Fault>
    requires keeping { IsKeeping (state S.Store conn.old) }
    requires kept { Holds (state S.Store conn.old) → WellKept (world_in (state S.Store conn.old)) }
    ensures { Looks (state S.Store conn.old) (state S.Store conn.new) result AreVacanciesOf }
{
    let mut vacancies = Vacancies::new(alloc);
    let entries = all_entries(alloc, conn)?;
    take_values(&mut vacancies, entries)?;
    let pool = pool(alloc, conn)?;
    add_prefixes(&mut vacancies, pool.prefixes())?;
    let blocks = blocks(alloc, conn)?;
    give_blocks(&mut vacancies, blocks.into_vec())?;
    Ok(vacancies)
}

/// Takes the values of entries.
fn take_values(vacancies: &mut Vacancies, mut entries: Vec<Entry>) -> Result<(), AllocError>
    ensures { OnOk result (AreVacancies vacancies.old fin.empty fin.empty fin.empty
        → AreVacancies vacancies.new (registrations entries.items) fin.empty fin.empty) }
{
    'entries: while let Some(entry) = entries.pop() {
        vacancies.take_value(&entry.registry, entry.value)?;
    }
    Ok(())
}

/// Adds prefixes, each of which may be in a pool.
fn add_prefixes(vacancies: &mut Vacancies, mut prefixes: &[u32]) -> Result<(), AllocError>
    requires { All (λ prefix. IsTrue (is_pool_prefix prefix)) prefixes.now }
    ensures { OnOk result ((entries : Entries) → AreVacancies vacancies.old entries fin.empty fin.empty
        → AreVacancies vacancies.new entries (prefix_set prefixes.entry.now) fin.empty) }
{
    'prefixes: while let [others @ .., prefix] = prefixes {
        vacancies.add_prefix(*prefix)?;
        prefixes = others;
    }
    Ok(())
}

/// Takes the places of blocks, each of which lies in the pool.
fn give_blocks(vacancies: &mut Vacancies, mut blocks: Vec<Listed>) -> Result<(), AllocError>
    ensures { OnOk result ((entries : Entries) (pool : Prefixes)
        → All (λ row. Contains (fin.keys pool) (leading_24 row.block)) blocks.items
        → AreVacancies vacancies.old entries pool fin.empty
        → AreVacancies vacancies.new entries pool (given blocks.items)) }
{
    'rows: while let Some(row) = blocks.pop() {
        vacancies.give(row.block)?;
    }
    Ok(())
}
