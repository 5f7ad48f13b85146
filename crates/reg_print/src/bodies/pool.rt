//! Prints the pool.
ghost use Rattle.reg_print.specs.Trees.Pool.{pool_tree, pooled_tree, prefix_tree};

use crate::printing::{Itself, Print, Printer};
use reg_blocks::pool::Pool;
use reg_blocks::prefix;

/// A number as the text of a prefix.
pub(crate) struct PrefixText;

/// That a prefix is in the pool.
pub(crate) struct Pooled;

/// The prefixes of the pool, each as a text, ascending.
impl Print<Itself> for Pool {
    ghost tree = { pool_tree };

    ghost levels = { 1 };

    fn print(&self, out: &mut Printer) {
        out.list::<PrefixText, u32>(self.prefixes());
    }
}

impl Print<PrefixText> for u32 {
    ghost tree = { prefix_tree };

    ghost levels = { 0 };

    fn print(&self, out: &mut Printer) {
        match prefix::text(out.alloc, *self) {
            Ok(text) => out.text(text.as_str()),
            Err(_) => out.is_whole = false,
        }
    }
}

impl Print<Pooled> for u32 {
    ghost tree = { pooled_tree };

    ghost levels = { 1 };

    fn print(&self, out: &mut Printer) {
        out.open_object();
        out.put_made("pool", prefix::text(out.alloc, *self));
        out.close_object();
    }
}
