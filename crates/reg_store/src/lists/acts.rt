//! The acts of a journal that are listed, in order.
ghost use Rattle.std.specs.Prelude.{◌≡◌, filter, filter_map, slice_get, IfOk};
ghost use Rattle.reg_core.specs.Journal.{is_by as by, is_on as on};

use reg_core::journal::Act;
use reg_core::rows::Rows;
use reg_core::text::Account;
use reg_early::day::Day;
use std::alloc::{AllocError, Global};

/// All of them.
pub fn all_acts(alloc: Global, acts: &[Act]) -> Result<Rows<Act>, AllocError>
    ensures { IfOk result (λ rows. rows ≡ acts.now) }
{
    Ok(Rows::from_vec(Vec::from_slice(alloc, acts)?))
}

/// Those of a day.
pub fn acts_on(alloc: Global, acts: &[Act], day: Day) -> Result<Rows<Act>, AllocError>
    ensures { IfOk result (λ rows. rows ≡ filter (on day) acts.now) }
{
    Ok(Rows::from_vec(
        acts.iter()
            .copied()
            .filter(|act| is_on(act, day))
            .collect(alloc)?,
    ))
}

/// Those that an account made.
pub fn acts_by(alloc: Global, acts: &[Act], account: &Account) -> Result<Rows<Act>, AllocError>
    ensures { IfOk result (λ rows. rows ≡ filter (by account.now) acts.now) }
{
    Ok(Rows::from_vec(
        acts.iter()
            .copied()
            .filter(|act| is_by(act, account))
            .collect(alloc)?,
    ))
}

/// Those at these places, in this order.
pub fn acts_at(alloc: Global, acts: &[Act], places: &[usize]) -> Result<Rows<Act>, AllocError>
    ensures { IfOk result (λ rows. rows ≡ filter_map (slice_get acts.now) places.now) }
{
    Ok(Rows::from_vec(
        places
            .iter()
            .copied()
            .filter_map(|place| act_at(acts, place))
            .collect(alloc)?,
    ))
}

fn is_on(act: &Act, day: Day) -> bool
    ensures { result ≡ on day act.now }
{
    match act.stamp.moment {
        Some(moment) => moment / 86_400 == u64::from(day.days()),
        None => false,
    }
}

fn is_by(act: &Act, account: &Account) -> bool
    ensures { result ≡ by account.now act.now }
{
    match &act.stamp.by {
        Some(actor) => actor.account == *account,
        None => false,
    }
}

fn act_at(acts: &[Act], place: usize) -> Option<Act>
    ensures { result ≡ slice_get acts.now place }
{
    match acts.get(place) {
        Some(act) => Some(*act),
        None => None,
    }
}
