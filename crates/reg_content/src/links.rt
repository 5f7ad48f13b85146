//! Agents of principals in their table.
ghost use Rattle.std.specs.Prelude.{◌≡◌, not, false, IfOk, map};
ghost use Rattle.std.specs.FinMap.{contains_key, insert, remove};
ghost use Rattle.sqlite.specs.Held.{state};
ghost use Rattle.reg_maps.specs.Maps.{only_if};
ghost use Rattle.reg_core.specs.Link.{agent_rows, principal_names};
ghost use Rattle.reg_core.specs.Request.{request_rows};
ghost use Rattle.reg_core.specs.View.{agents_of, principals_of, requests_of};
ghost use Rattle.reg_core.specs.World.{World, applied};
ghost use Rattle.reg_core.specs.declared.change.Change.TheVariants.{SetAgent};
ghost use Rattle.reg_rows.specs.Calls.{IsKeeping, Looks, Steps};

use crate::requests::own;
use reg_core::request::Request;
use reg_core::rows::Rows;
use reg_core::text::Account;
use reg_keeper::keeper::Fault;
use reg_ranges::formed::Formed;
use reg_records::column::name_value;
use reg_records::links::Link;
use reg_rows::kept::{add, find, list, take};
use reg_statements::loads::Loads;
use reg_tables::reports::Reports;
use reg_tables::texts::{
    DELETE_AGENT, INSERT_AGENTS, SELECT_AGENT, SELECT_AGENTS_OF, SELECT_PRINCIPALS_OF,
};
use sqlite::{Connection, Transaction};
use std::alloc::{AllocError, Global};

/// The agents of an account, in order.
#[tactic(auto, using(reg_tables::proofs::Statements::agents_of_principal))]
pub fn agents<S: Reports + Loads>(
    alloc: Global,
    conn: &mut Connection<S>,
    account: &Account,
) -> Result<Rows<Account>, Fault>
    requires { IsKeeping (state S.Store conn.old) }
    ensures { Looks (state S.Store conn.old) (state S.Store conn.new) result
        (λ w names. names ≡ agent_rows (agents_of account.now w)) }
{
    let links = list::<S, Link>(alloc, conn, SELECT_AGENTS_OF, &[name_value(account)])?;
    Ok(Rows::from_vec(agents_in(alloc, links.as_slice())?))
}

/// The principals of an account, in order: the accounts whose agent it is.
#[tactic(auto, using(reg_tables::proofs::Statements::principals_of_agent))]
pub fn principals<S: Reports + Loads>(
    alloc: Global,
    conn: &mut Connection<S>,
    account: &Account,
) -> Result<Rows<Account>, Fault>
    requires { IsKeeping (state S.Store conn.old) }
    ensures { Looks (state S.Store conn.old) (state S.Store conn.new) result
        (λ w names. names ≡ principal_names (principals_of account.now w)) }
{
    let links = list::<S, Link>(alloc, conn, SELECT_PRINCIPALS_OF, &[name_value(account)])?;
    Ok(Rows::from_vec(principals_in(alloc, links.as_slice())?))
}

/// All requests of a principal, by reference, if the account is its agent.
pub fn principal_rows<S: Reports + Loads>(
    alloc: Global,
    conn: &mut Connection<S>,
    principal: &Account,
    agent: &Account,
) -> Result<Option<Rows<Request>>, Fault>
    requires { IsKeeping (state S.Store conn.old) }
    ensures { Looks (state S.Store conn.old) (state S.Store conn.new) result
        (λ w rows. rows ≡ only_if (contains_key w.agents (principal.now, agent.now))
        (request_rows (requests_of principal.now w))) }
{
    if !is_agent(alloc, conn, principal, agent)? {
        return Ok(None);
    }
    let rows = own(alloc, conn, principal)?;
    Ok(Some(rows))
}

/// Whether an account is an agent of a principal.
#[tactic(auto, using(reg_tables::proofs::Statements::agent_by_key))]
pub fn is_agent<S: Reports + Loads>(
    alloc: Global,
    conn: &mut Connection<S>,
    principal: &Account,
    agent: &Account,
) -> Result<bool, Fault>
    requires { IsKeeping (state S.Store conn.old) }
    ensures { Looks (state S.Store conn.old) (state S.Store conn.new) result
        (λ w is. is ≡ contains_key w.agents (principal.now, agent.now)) }
{
    let link = find::<S, Link>(
        alloc,
        conn,
        SELECT_AGENT,
        &[name_value(principal), name_value(agent)],
    )?;
    Ok(link.is_some())
}

/// Makes an account an agent of a principal that it is not, or takes it away.
pub fn set_agent<S: Reports>(
    tx: &mut Transaction<'_, S>,
    principal: &Account,
    agent: &Account,
    reads: bool,
) -> Result<(), Fault>
    ensures same_reference { tx.new.conn.ghost_name ≡ tx.old.conn.ghost_name }
    ensures steps { Steps (state S.Store tx.old.conn.now) (state S.Store tx.new.conn.now) result
        (λ (w : World). contains_key w.agents (principal.now, agent.now) ≡ not reads)
        (λ (w : World). applied w (SetAgent principal.now agent.now reads)) }
{
    if reads {
        add_agent(tx, principal, agent)
    } else {
        take_agent(tx, principal, agent)
    }
}

/// Makes an account an agent of a principal that it is not.
#[tactic(auto, using(reg_rows::proofs::Statements::adds_link))]
fn add_agent<S: Reports>(
    tx: &mut Transaction<'_, S>,
    principal: &Account,
    agent: &Account,
) -> Result<(), Fault>
    ensures same_reference { tx.new.conn.ghost_name ≡ tx.old.conn.ghost_name }
    ensures steps { Steps (state S.Store tx.old.conn.now) (state S.Store tx.new.conn.now) result
        (λ (w : World). contains_key w.agents (principal.now, agent.now) ≡ false)
        (λ (w : World). record w { agents = insert w.agents (principal.now, agent.now) tt }) }
{
    let link = Link {
        principal: *principal,
        agent: *agent,
    };
    link.formed();
    add::<S, Link>(tx, INSERT_AGENTS, &link.values())
}

/// Takes an agent of a principal away, if it is one.
#[tactic(auto, using(reg_rows::proofs::Statements::takes_link))]
fn take_agent<S: Reports>(
    tx: &mut Transaction<'_, S>,
    principal: &Account,
    agent: &Account,
) -> Result<(), Fault>
    ensures same_reference { tx.new.conn.ghost_name ≡ tx.old.conn.ghost_name }
    ensures steps { Steps (state S.Store tx.old.conn.now) (state S.Store tx.new.conn.now) result
        (λ (w : World). Unit {0})
        (λ (w : World). record w { agents = remove w.agents (principal.now, agent.now) }) }
{
    take::<S, Link>(
        tx,
        DELETE_AGENT,
        &[name_value(principal), name_value(agent)],
    )
}

/// The agents of links.
fn agents_in(alloc: Global, links: &[Link]) -> Result<Vec<Account>, AllocError>
    ensures { IfOk result (λ names. names.items ≡ map (λ l. l.agent) links.now) }
{
    links.iter().map(|link| link.agent).collect(alloc)
}

/// The principals of links.
fn principals_in(alloc: Global, links: &[Link]) -> Result<Vec<Account>, AllocError>
    ensures { IfOk result (λ names. names.items ≡ map (λ l. l.principal) links.now) }
{
    links.iter().map(|link| link.principal).collect(alloc)
}
