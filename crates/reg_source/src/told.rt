//! What was told, by its kind.
ghost use Rattle.std.specs.Prelude.{◌≡◌, IfOk};
ghost use Rattle.reg_core.specs.declared.told.Told.TheVariants as tells;

use crate::unpublished::Unpublished;
use reg_blocks::pool::Pool;
use reg_core::holding::Listed;
use reg_core::page::Page;
use reg_core::text::Name;
use reg_core::told::Told;

/// The names that were told; `Read` where none were.
pub fn names_in(told: &Told) -> Result<&[Name], Unpublished>
    ensures { IfOk result (λ names. told.now ≡ tells.Names names.now) }
{
    match told {
        Told::Names(names) => Ok(names.as_slice()),
        _ => Err(Unpublished::Read),
    }
}

/// The registry that was told; `Read` where none was.
pub fn page_in(told: &Told) -> Result<&Page, Unpublished>
    ensures { IfOk result (λ page. told.now ≡ tells.Page page.now) }
{
    match told {
        Told::Page(page) => Ok(page),
        _ => Err(Unpublished::Read),
    }
}

/// The blocks that were told; `Read` where none were.
pub fn blocks_in(told: &Told) -> Result<&[Listed], Unpublished>
    ensures { IfOk result (λ rows. told.now ≡ tells.Blocks rows.now) }
{
    match told {
        Told::Blocks(rows) => Ok(rows.as_slice()),
        _ => Err(Unpublished::Read),
    }
}

/// The pool that was told; `Read` where none was.
pub fn pool_in(told: &Told) -> Result<&Pool, Unpublished>
    ensures { IfOk result (λ pool. told.now ≡ tells.Pool pool.now) }
{
    match told {
        Told::Pool(pool) => Ok(pool),
        _ => Err(Unpublished::Read),
    }
}
