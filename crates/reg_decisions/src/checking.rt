//! What an ask would be given, by the published rows themselves.
//!
//! `check_ask` is for users of this library, who have the rows as lists. An office keeps what is free
//! and decides by that, over the `FoundGround` of an ask; the answers are the same.
ghost use Rattle.std.specs.Prelude.{◌≡◌, ◌↔◌, IsTrue};
ghost use Rattle.std.specs.List.Sorted.{IsNonDecreasingBy, IsStrictlyIncreasing};
ghost use Rattle.std.specs.Option.{option_copied};
ghost use Rattle.reg_blocks.specs.Block.{first_address};
ghost use Rattle.reg_core.specs.Allowance.{allowed, allowed_on};
ghost use Rattle.reg_core.specs.FirstRefusals.{want_of as wanted};
ghost use Rattle.reg_core.specs.View.{Published};
ghost use Rattle.reg_decisions.specs.Ground.{AreRowsFor, Ascend, due_among, ground_in, least_among, size_wanted};

use crate::allowance::{FoundGround, given_for};
use reg_blocks::block::Block;
use reg_blocks::due;
use reg_blocks::pool::Pool;
use reg_blocks::size::Size;
use reg_core::ask::{Ask, Want};
use reg_core::entry::Entry;
use reg_core::refusal::Refusal;
use reg_core::request::Given;
use reg_core::text::Account;
use reg_ranges::free;
use reg_ranges::table::RangeTable;

/// The published rows that an ask needs.
#[derive(Clone, Copy)]
pub enum Ground<'a> {
    /// For an ask about a value of a registry.
    Code {
        /// The ranges of the registry that the ask names, if there is one.
        table: Option<&'a RangeTable>,
        /// The entry at the value that the ask names, if it names one and there is one.
        entry: Option<&'a Entry>,
        /// The values of the registry that have entries, ascending. They are looked at only where
        /// the ask wants the least value.
        taken: &'a [u32],
    },
    /// For an ask for a block.
    Block {
        /// The prefixes that blocks are cut from.
        pool: &'a Pool,
        /// The blocks that were given, ascending by first address.
        blocks: &'a [Block],
    },
}

impl Ground<'_> {
    /// Whether the values that are taken ascend, or the blocks that were given, as `check_ask` asks.
    pub fn ascends(&self) -> bool
        ensures { IsTrue result ↔ Ascend self.now }
    {
        match self {
            Ground::Code { taken, .. } => values_ascend(taken),
            Ground::Block { blocks, .. } => due::ascends(blocks),
        }
    }
}

fn values_ascend(values: &[u32]) -> bool
    ensures { IsTrue result ↔ IsStrictlyIncreasing values.now }
{
    values.is_sorted_by(|value, next| *value < *next)
}

/// What an ask of an account would be given now by the published rows, or the first refusal that it
/// meets: `Registry`, `Range`, `Policy`, `Early` where it asks for an early allocation or its
/// renewal, `Evidence` with its item; then, of a new entry, `Taken` or `Exhausted`, and of one that
/// stands `Entry`, `Permanent` or, of a renewal, `Renewed`; for a block only `Exhausted`. Other
/// requests are not looked at, and no memory is taken.
///
/// The rows ascend, which `Ground::ascends` tests; those of published registers do.
///
/// Rows of the other kind have nothing of what the ask names: they give `Registry` to an ask about a
/// value, and `Exhausted` to one for a block.
pub fn check_ask(account: &Account, ask: &Ask, rows: &Ground<'_>) -> Result<Given, Refusal>
    requires ascending { Ascend rows.now }
    ensures value { result ≡ allowed_on (ground_in rows.now ask.now) account.now ask.now }
    ensures office { (p : Published) → AreRowsFor p ask.now rows.now
        → result ≡ allowed p account.now ask.now }
{
    match rows {
        Ground::Code {
            table,
            entry,
            taken,
        } => {
            let least = least_for(*table, taken, ask);
            let found = FoundGround {
                table: *table,
                entry: *entry,
                least,
                due: None,
            };
            given_for(account, ask, found)
        }
        Ground::Block { pool, blocks } => {
            let due = due_for(pool, blocks, ask);
            let found = FoundGround {
                table: None,
                entry: None,
                least: None,
                due: due.as_ref(),
            };
            given_for(account, ask, found)
        }
    }
}

// The least value that is not taken, where the ask wants the least one of the registry.
fn least_for(table: Option<&RangeTable>, taken: &[u32], ask: &Ask) -> Option<u32>
    requires { IsStrictlyIncreasing taken.now }
    ensures { result ≡ least_among (option_copied table.entry) taken.now (wanted ask.now) }
{
    match (table, want_of(ask)) {
        (Some(table), Some(Want::Least(policy))) => free::least_free(table, policy, taken),
        _ => None,
    }
}

// The block due, where the ask wants a block.
fn due_for(pool: &Pool, blocks: &[Block], ask: &Ask) -> Option<Block>
    requires { IsNonDecreasingBy first_address blocks.now }
    ensures { result ≡ due_among pool.now blocks.now (size_wanted ask.now) }
{
    due::least_free(pool, blocks, size_of(ask)?)
}

// What the ask wants of a registry.
fn want_of(ask: &Ask) -> Option<Want>
    ensures { result ≡ wanted ask.now }
{
    match ask {
        Ask::Code(code) => Some(code.want),
        Ask::Early(early) => Some(early.want),
        Ask::Renew(renewal) => Some(Want::Value(renewal.value)),
        Ask::Permanent(permanence) => Some(Want::Value(permanence.value)),
        Ask::Block(_) => None,
    }
}

// The size of the block that the ask wants.
fn size_of(ask: &Ask) -> Option<Size>
    ensures { result ≡ size_wanted ask.now }
{
    match ask {
        Ask::Code(_) | Ask::Early(_) | Ask::Renew(_) | Ask::Permanent(_) => None,
        Ask::Block(block) => Some(block.size),
    }
}
