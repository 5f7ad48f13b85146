//! The advice of experts by requests, and then by experts.
ghost use Rattle.std.specs.Prelude.{◌≡◌, map, IfOk};
ghost use Rattle.std.specs.FinMap as fin;
ghost use Rattle.reg_maps.specs.Maps.{text_cmp};
ghost use Rattle.reg_maps.specs.Groups.{pair_map};
ghost use Rattle.reg_core.specs.File.{opinion as opinion_of, seats_of};
ghost use Rattle.reg_core.specs.World.{name_cmp};

use crate::groups::{list_group, row_in};
use crate::lists::requests::RequestName;
use reg_core::advice::{Advice, Opinion};
use reg_core::rows::Rows;
use reg_core::text::Account;
use std::alloc::{AllocError, Global};
use std::collections::BTreeMap;

/// Advice by request, and then by expert.
pub type Opinions = BTreeMap<RequestName, BTreeMap<Account, Advice>>;

/// An expert's advice on a request.
pub fn advice_in(
    opinions: &Opinions,
    name: &RequestName,
    expert: &Account,
) -> Result<Option<Advice>, AllocError>
    ensures { IfOk result (λ advice. advice ≡
        fin.get (pair_map name_cmp text_cmp opinions.now) (name.now, expert.now)) }
{
    row_in(opinions, name, expert).cloned()
}

/// All advice on a request, by expert.
pub fn opinions_in(
    alloc: Global,
    opinions: &Opinions,
    name: &RequestName,
) -> Result<Rows<Opinion>, AllocError>
    ensures { IfOk result (λ rows. rows ≡ map (λ e. opinion_of e.0 e.1)
        (fin.entries (seats_of name.now (pair_map name_cmp text_cmp opinions.now)))) }
{
    Ok(Rows::from_vec(list_group(alloc, opinions, name, opinion)?))
}

fn opinion(expert: &Account, advice: &Advice) -> Result<Opinion, AllocError>
    ensures { IfOk result (λ row. row ≡ record { expert = expert.now; advice = advice.now }) }
{
    Ok(Opinion {
        expert: *expert,
        advice: advice.copy()?,
    })
}
