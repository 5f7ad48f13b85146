//! What is free in an office, beside a row more.
ghost use Rattle.std.specs.Prelude.{◌≡◌, is_some, IfOk, IsTrue, OnErr};
ghost use Rattle.std.specs.FinMap.{contains_key};
ghost use Rattle.reg_blocks.specs.Block.{leading_24};
ghost use Rattle.reg_blocks.specs.Pool.{is_pool_prefix};
ghost use Rattle.reg_core.specs.World.{World};
ghost use Rattle.reg_vacancies.specs.Vacancies.{MayBeOf};
ghost use Rattle.reg_opening.specs.Rows.{with_row};
ghost use Rattle.reg_opening.specs.declared.row.Row.TheVariants as row;

use crate::grows::Grows;
use reg_blocks::pool::is_pool_prefix;
use reg_core::entry::Entry;
use reg_core::holding::Holding;
use reg_vacancies::vacancies::Vacancies;
use std::alloc::AllocError;

/// What an entry more leaves free, if that was known before.
pub fn with_value<S: Grows>(
    free: Option<Vacancies>,
    entry: &Entry,
) -> Result<Option<Vacancies>, AllocError>
    ensures left { (w : World) → MayBeOf w free
        → IfOk result (MayBeOf (with_row w (row.Entry entry.now))) }
    ensures known { IfOk result (λ left. is_some left ≡ is_some free) }
    ensures refused { OnErr result S.Ungrown }
{
    let Some(mut free) = free else {
        return Ok(None);
    };
    S::take_value(&mut free, &entry.registry, entry.value)?;
    Ok(Some(free))
}

/// What is free with a prefix more, if that was known before. Of one that is in no pool nothing is known.
pub fn with_prefix<S: Grows>(
    free: Option<Vacancies>,
    prefix: u32,
) -> Result<Option<Vacancies>, AllocError>
    ensures left { (w : World) → MayBeOf w free
        → IfOk result (MayBeOf (with_row w (row.Prefix prefix))) }
    ensures known { IsTrue (is_pool_prefix prefix)
        → IfOk result (λ left. is_some left ≡ is_some free) }
    ensures refused { OnErr result S.Ungrown }
{
    let Some(mut free) = free else {
        return Ok(None);
    };
    if !is_pool_prefix(prefix) {
        return Ok(None);
    }
    S::add_prefix(&mut free, prefix)?;
    Ok(Some(free))
}

/// What a block more, which lies in the pool, leaves free, if that was known before.
pub fn with_block<S: Grows>(
    free: Option<Vacancies>,
    holding: &Holding,
) -> Result<Option<Vacancies>, AllocError>
    ensures left { (w : World) → IsTrue (contains_key w.pool (leading_24 holding.now.block))
        → MayBeOf w free → IfOk result (MayBeOf (with_row w (row.Block holding.now))) }
    ensures known { IfOk result (λ left. is_some left ≡ is_some free) }
    ensures refused { OnErr result S.Ungrown }
{
    let Some(mut free) = free else {
        return Ok(None);
    };
    S::give(&mut free, holding.block)?;
    Ok(Some(free))
}
