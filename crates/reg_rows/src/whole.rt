//! The rows of whole tables: all capabilities, and all agents.
ghost use Rattle.std.specs.Prelude.{◌≡◌, IfOk, map};
ghost use Rattle.sqlite.specs.Held.{state};
ghost use Rattle.reg_core.specs.CapRows.{cap_rows};
ghost use Rattle.reg_core.specs.Link.{link_rows};
ghost use Rattle.reg_rows.specs.Calls.{IsKeeping, Looks};
ghost use Rattle.reg_rows.specs.Whole.{cap_of, link_of};

use crate::kept::list;
use reg_core::capability::CapRow;
use reg_core::link::LinkRow;
use reg_core::rows::Rows;
use reg_keeper::keeper::Fault;
use reg_records::caps::Grant;
use reg_records::links::Link;
use reg_statements::loads::Loads;
use reg_tables::reports::Reports;
use sqlite::Connection;
use std::alloc::{AllocError, Global};

/// All capabilities, by digest.
pub const SELECT_CAPS: &str = "SELECT digest, account, kind, until FROM caps ORDER BY digest";

/// All agents, by their principals and then by their own names.
pub const SELECT_AGENTS: &str = "SELECT principal, agent FROM agents ORDER BY principal, agent";

/// All capabilities, by digest.
#[tactic(auto, using(crate::proofs::WholeTables::all_caps))]
pub fn caps<S: Reports + Loads>(
    alloc: Global,
    conn: &mut Connection<S>,
) -> Result<Rows<CapRow>, Fault>
    requires { IsKeeping (state S.Store conn.old) }
    ensures { Looks (state S.Store conn.old) (state S.Store conn.new) result
        (λ w rows. rows ≡ cap_rows w.caps) }
{
    let grants = list::<S, Grant>(alloc, conn, SELECT_CAPS, &[])?;
    Ok(Rows::from_vec(caps_of(alloc, grants.as_slice())?))
}

/// All principals with their agents, by principal and then by agent.
#[tactic(auto, using(crate::proofs::WholeTables::all_links))]
pub fn links<S: Reports + Loads>(
    alloc: Global,
    conn: &mut Connection<S>,
) -> Result<Rows<LinkRow>, Fault>
    requires { IsKeeping (state S.Store conn.old) }
    ensures { Looks (state S.Store conn.old) (state S.Store conn.new) result
        (λ w rows. rows ≡ link_rows w.agents) }
{
    let links = list::<S, Link>(alloc, conn, SELECT_AGENTS, &[])?;
    Ok(Rows::from_vec(links_of(alloc, links.as_slice())?))
}

/// Rows of the table as a keeper gives them.
fn caps_of(alloc: Global, grants: &[Grant]) -> Result<Vec<CapRow>, AllocError>
    ensures { IfOk result (λ rows. rows.items ≡ map cap_of grants.now) }
{
    grants.iter().map(|grant| cap_row(grant)).collect(alloc)
}

/// A row of the table as a keeper gives it.
fn cap_row(grant: &Grant) -> CapRow
    ensures { result ≡ cap_of grant.now }
{
    CapRow {
        digest: grant.digest,
        cap: grant.cap,
    }
}

/// Rows of the table as a keeper gives them.
fn links_of(alloc: Global, links: &[Link]) -> Result<Vec<LinkRow>, AllocError>
    ensures { IfOk result (λ rows. rows.items ≡ map link_of links.now) }
{
    links.iter().map(|link| link_row(link)).collect(alloc)
}

/// A row of the table as a keeper gives it.
fn link_row(link: &Link) -> LinkRow
    ensures { result ≡ link_of link.now }
{
    LinkRow {
        principal: link.principal,
        agent: link.agent,
    }
}
