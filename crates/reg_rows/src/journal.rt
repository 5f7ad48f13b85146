//! Acts in their table.
ghost use Rattle.std.specs.Prelude.{◌≡◌, ◌+◌, ℕ, List, [], ◌∷◌, IfOk, length};
ghost use Rattle.sqlite.specs.Held.{state};
ghost use Rattle.reg_core.specs.Journal.{with_acts};
ghost use Rattle.reg_core.specs.World.{World};
ghost use Rattle.reg_rows.specs.Calls.{Steps};

use crate::kept::add;
use reg_core::journal::Act;
use reg_keeper::keeper::Fault;
use reg_ranges::formed::Formed;
use reg_records::acts::NumberedAct;
use reg_tables::reports::Reports;
use reg_tables::texts::INSERT_JOURNAL;
use sqlite::Transaction;

/// Adds these acts behind the last one, whose number is told, and tells the number of the last of them.
/// There is one at least. Where a number is no longer one of 32 bits, it is a fault of the store.
pub fn add_acts<S: Reports>(
    tx: &mut Transaction<'_, S>,
    acts: &[Act],
    last: u32,
) -> Result<u32, Fault>
    requires { acts.now ≡ [] → ⊥ }
    ensures same_reference { tx.new.conn.ghost_name ≡ tx.old.conn.ghost_name }
    ensures steps { Steps (state S.Store tx.old.conn.now) (state S.Store tx.new.conn.now) result
        (λ (w : World). last ≡ length w.journal)
        (λ (w : World). record w { journal = with_acts acts.now w.journal }) }
    ensures last { IfOk result (λ number. number ≡ last + length acts.now) }
{
    let [first, others @ ..] = acts else {
        return Ok(last);
    };
    let mut number = add_behind(tx, first, last)?;
    for act in others {
        number = add_behind(tx, act, number)?;
    }
    Ok(number)
}

/// Adds an act behind the last one, and tells its number.
fn add_behind<S: Reports>(tx: &mut Transaction<'_, S>, act: &Act, last: u32) -> Result<u32, Fault>
    ensures same_reference { tx.new.conn.ghost_name ≡ tx.old.conn.ghost_name }
    ensures steps { Steps (state S.Store tx.old.conn.now) (state S.Store tx.new.conn.now) result
        (λ (w : World). last ≡ length w.journal)
        (λ (w : World). record w { journal = act.now ∷ w.journal }) }
    ensures number { IfOk result (λ number. number ≡ last + 1) }
{
    let Some(number) = last.checked_add(1) else {
        return Err(Fault::Store);
    };
    add_act(tx, number, act)?;
    Ok(number)
}

/// Adds an act with the number that comes next.
#[tactic(auto, using(crate::proofs::Statements::adds_act))]
fn add_act<S: Reports>(tx: &mut Transaction<'_, S>, number: u32, act: &Act) -> Result<(), Fault>
    ensures same_reference { tx.new.conn.ghost_name ≡ tx.old.conn.ghost_name }
    ensures steps { Steps (state S.Store tx.old.conn.now) (state S.Store tx.new.conn.now) result
        (λ (w : World). number ≡ length w.journal + 1)
        (λ (w : World). record w { journal = act.now ∷ w.journal }) }
{
    let row = NumberedAct { number, act: *act };
    row.formed();
    add::<S, NumberedAct>(tx, INSERT_JOURNAL, &row.values())
}
