//! Links of one account to another, by the first of the two and by the second.
ghost use Rattle.std.specs.Prelude.{◌≡◌, false, IfOk, IsOk, OnOk, OnErr};
ghost use Rattle.std.specs.FinMap as fin;
ghost use Rattle.reg_core.specs.Link.{link_rows};
ghost use Rattle.reg_core.specs.World.{with_link};
ghost use Rattle.reg_store.specs.Lists.Pairs.{AreMirrored, all_pairs, firsts_of, seconds_of};

use crate::groups::{list_group, put_row, row_in, take_row};
use crate::maps::push_rows;
use reg_core::link::LinkRow;
use reg_core::rows::Rows;
use reg_core::text::Account;
use std::alloc::{AllocError, Global};
use std::collections::BTreeMap;

/// Accounts by one account, and then by another.
pub type Pairs = BTreeMap<Account, BTreeMap<Account, ()>>;

/// The links of each first account; and, once more, by their second. So no link of others is looked
/// at to find an account's own, on either side.
#[derive(Drop)]
pub struct Links {
    by_first: Pairs,
    by_second: Pairs,
    ghost in_step: { AreMirrored (all_pairs by_first) (all_pairs by_second) },
}

impl Links {
    ghost use Rattle.reg_store.specs.Lists.Links.{links_held};

    /// No link.
    pub fn new(alloc: Global) -> Self
        ensures { links_held result ≡ fin.empty }
    {
        Links {
            by_first: BTreeMap::new(alloc),
            by_second: BTreeMap::new(alloc),
        }
    }

    /// The second accounts of the links that have this one first, in order.
    pub fn seconds(&self, alloc: Global, first: &Account) -> Result<Rows<Account>, AllocError>
        ensures { IfOk result (λ names. names ≡ seconds_of first.now (links_held self.now)) }
    {
        seconds_in(alloc, &self.by_first, first)
    }

    /// The first accounts of the links that have this one second, in order.
    pub fn firsts(&self, alloc: Global, second: &Account) -> Result<Rows<Account>, AllocError>
        ensures { IfOk result (λ names. names ≡ firsts_of second.now (links_held self.now)) }
    {
        seconds_in(alloc, &self.by_second, second)
    }

    /// All links, by their first account and then by their second.
    pub fn all(&self, alloc: Global) -> Result<Rows<LinkRow>, AllocError>
        ensures { IfOk result (λ rows. rows ≡ link_rows (links_held self.now)) }
    {
        pairs_in(alloc, &self.by_first)
    }

    /// Whether one account is linked to another.
    pub fn has(&self, first: &Account, second: &Account) -> bool
        ensures { result ≡ fin.contains_key (links_held self.now) (first.now, second.now) }
    {
        row_in(&self.by_first, first, second).is_some()
    }

    /// Links one account to another, or ends that, which needs no memory. A link that is there or
    /// not there already stays so.
    pub fn set(
        &mut self,
        alloc: Global,
        first: Account,
        second: Account,
        linked: bool,
    ) -> Result<(), AllocError>
        ensures ok { OnOk result (links_held self.new
            ≡ with_link linked (first, second) (links_held self.old)) }
        ensures err { OnErr result (links_held self.new ≡ links_held self.old) }
        ensures taken { linked ≡ false → IsOk result }
    {
        if linked {
            add_both(
                alloc,
                &mut self.by_first,
                &mut self.by_second,
                first,
                second,
            )
        } else {
            take_both(&mut self.by_first, &mut self.by_second, &first, &second);
            Ok(())
        }
    }
}

// The second accounts of the pairs that have this one first, in order.
fn seconds_in(alloc: Global, pairs: &Pairs, first: &Account) -> Result<Rows<Account>, AllocError>
    ensures { IfOk result (λ names. names ≡ seconds_of first.now (all_pairs pairs.now)) }
{
    Ok(Rows::from_vec(list_group(alloc, pairs, first, |second, _| Ok(*second))?))
}

// All pairs, by their first account and then by their second.
fn pairs_in(alloc: Global, pairs: &Pairs) -> Result<Rows<LinkRow>, AllocError>
    ensures { IfOk result (λ rows. rows ≡ link_rows (all_pairs pairs.now)) }
{
    let mut rows = Vec::new(alloc);
    for (first, group) in pairs {
        let _group = group.len();
        push_rows(&mut rows, group, |second, _| {
            Ok(LinkRow {
                principal: *first,
                agent: *second,
            })
        })?;
    }
    Ok(Rows::from_vec(rows))
}

// Into both orders, or, where there is no memory for the second, into none.
fn add_both(
    alloc: Global,
    by_first: &mut Pairs,
    by_second: &mut Pairs,
    first: Account,
    second: Account,
) -> Result<(), AllocError>
    requires { AreMirrored (all_pairs by_first.old) (all_pairs by_second.old) }
    ensures in_step { AreMirrored (all_pairs by_first.new) (all_pairs by_second.new) }
    ensures ok { OnOk result (all_pairs by_first.new
        ≡ fin.insert (all_pairs by_first.old) (first, second) tt) }
    ensures err { OnErr result (all_pairs by_first.new ≡ all_pairs by_first.old) }
{
    put_row(alloc, by_first, first, second, ())?;
    match put_row(alloc, by_second, second, first, ()) {
        Ok(()) => Ok(()),
        Err(error) => {
            take_row(by_first, &first, &second);
            Err(error)
        }
    }
}

// Out of both orders.
fn take_both(by_first: &mut Pairs, by_second: &mut Pairs, first: &Account, second: &Account)
    requires { AreMirrored (all_pairs by_first.old) (all_pairs by_second.old) }
    ensures in_step { AreMirrored (all_pairs by_first.new) (all_pairs by_second.new) }
    ensures links { all_pairs by_first.new
        ≡ fin.remove (all_pairs by_first.old) (first.now, second.now) }
{
    take_row(by_first, first, second);
    take_row(by_second, second, first);
}
