//! Capabilities in their table.
ghost use Rattle.std.specs.Prelude.{◌≡◌, [], None};
ghost use Rattle.std.specs.FinMap.{get, insert, remove};
ghost use Rattle.sqlite.specs.Held.{state};
ghost use Rattle.reg_core.specs.World.{World, without};
ghost use Rattle.reg_rows.specs.Calls.{IsKeeping, Looks, Steps};

use reg_core::capability::Cap;
use reg_core::text::Digest;
use reg_keeper::keeper::Fault;
use reg_ranges::formed::Formed;
use reg_records::caps::Grant;
use reg_records::column::name_value;
use reg_rows::kept::{add, find, take};
use reg_statements::loads::Loads;
use reg_tables::reports::Reports;
use reg_tables::texts::{DELETE_CAP, INSERT_CAPS, SELECT_CAP};
use sqlite::{Connection, Transaction};
use std::alloc::Global;

/// The capability at a digest.
#[tactic(auto, using(reg_tables::proofs::Statements::cap_by_key))]
pub fn cap<S: Reports + Loads>(
    alloc: Global,
    conn: &mut Connection<S>,
    digest: &Digest,
) -> Result<Option<Cap>, Fault>
    requires { IsKeeping (state S.Store conn.old) }
    ensures { Looks (state S.Store conn.old) (state S.Store conn.new) result
        (λ w cap. cap ≡ get w.caps digest.now) }
{
    let grant = find::<S, Grant>(alloc, conn, SELECT_CAP, &[name_value(digest)])?;
    Ok(grant.map(|grant| grant.cap))
}

/// Adds a capability at a digest that has none.
#[tactic(auto, using(reg_rows::proofs::Statements::adds_cap))]
pub fn add_cap<S: Reports>(
    tx: &mut Transaction<'_, S>,
    digest: &Digest,
    cap: &Cap,
) -> Result<(), Fault>
    ensures same_reference { tx.new.conn.ghost_name ≡ tx.old.conn.ghost_name }
    ensures steps { Steps (state S.Store tx.old.conn.now) (state S.Store tx.new.conn.now) result
        (λ (w : World). get w.caps digest.now ≡ None)
        (λ (w : World). record w { caps = insert w.caps digest.now cap.now }) }
{
    let grant = Grant {
        digest: *digest,
        cap: *cap,
    };
    grant.formed();
    add::<S, Grant>(tx, INSERT_CAPS, &grant.values())
}

/// Takes the capability at a digest away, if there is one.
#[tactic(auto, using(reg_rows::proofs::Statements::takes_cap))]
pub fn take_cap<S: Reports>(tx: &mut Transaction<'_, S>, digest: &Digest) -> Result<(), Fault>
    ensures same_reference { tx.new.conn.ghost_name ≡ tx.old.conn.ghost_name }
    ensures steps { Steps (state S.Store tx.old.conn.now) (state S.Store tx.new.conn.now) result
        (λ (w : World). Unit {0})
        (λ (w : World). record w { caps = remove w.caps digest.now }) }
{
    take::<S, Grant>(tx, DELETE_CAP, &[name_value(digest)])
}

/// Takes the capabilities at these digests away, where there are some. There is one digest at least.
pub fn take_caps<S: Reports>(tx: &mut Transaction<'_, S>, digests: &[Digest]) -> Result<(), Fault>
    requires { digests.now ≡ [] → ⊥ }
    ensures same_reference { tx.new.conn.ghost_name ≡ tx.old.conn.ghost_name }
    ensures steps { Steps (state S.Store tx.old.conn.now) (state S.Store tx.new.conn.now) result
        (λ (w : World). Unit {0})
        (λ (w : World). record w { caps = without digests.now w.caps }) }
{
    let [first, others @ ..] = digests else {
        return Ok(());
    };
    take_cap(tx, first)?;
    for digest in others {
        take_cap(tx, digest)?;
    }
    Ok(())
}
