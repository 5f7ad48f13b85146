//! What is published, as facts.
ghost use Rattle.std.specs.Prelude.{◌≡◌, ◌++◌, [], map, IfOk, OnOk};
ghost use Rattle.reg_early.specs.DayText.{text_of_day};
ghost use Rattle.reg_history.specs.Published.{block_fact, entry_fact, no_details, page_facts, prefix_fact, range_fact, standing_of};
ghost use Rattle.reg_history.specs.Recording.{Took};

use crate::recorder::Takes;
use reg_blocks::block::Block;
use reg_blocks::prefix;
use reg_changes::change::{Class, Details, Fact, PublishedStanding, Subject};
use reg_changes::field::Field;
use reg_core::entry::PageEntry;
use reg_core::holding::Listed;
use reg_core::page::Page;
use reg_early::day::{Day, day_text};
use reg_early::term::Term;
use reg_print::listing::rows::Run;
use reg_print::note::note_text;
use reg_ranges::range::Range;
use std::alloc::{AllocError, Global};

/// Adds the facts of a registry to others. Only want of memory is an error.
pub fn add_page(alloc: Global, facts: &mut Vec<Fact>, page: &Page) -> Result<(), AllocError>
    ensures { OnOk result (facts.new.items ≡ facts.old.items ++ page_facts page.now) }
{
    take_page(alloc, facts, page)?;
    Ok(())
}

/// Adds the facts of the prefixes of a pool to others. Only want of memory is an error.
pub fn add_prefixes(
    alloc: Global,
    facts: &mut Vec<Fact>,
    prefixes: &[u32],
) -> Result<(), AllocError>
    ensures { OnOk result
        (facts.new.items ≡ facts.old.items ++ map prefix_fact prefixes.now) }
{
    take_prefixes(alloc, facts, prefixes)?;
    Ok(())
}

/// Adds the facts of blocks to others. Only want of memory is an error.
pub fn add_blocks(alloc: Global, facts: &mut Vec<Fact>, rows: &[Listed]) -> Result<(), AllocError>
    ensures { OnOk result
        (facts.new.items ≡ facts.old.items ++ map (λ row. block_fact row.block) rows.now) }
{
    take_blocks(alloc, facts, rows)?;
    Ok(())
}

/// Has the facts of a registry taken: its ranges, and then its entries by value. Only want of memory is an
/// error.
pub fn take_page<T: Takes>(alloc: Global, taker: &mut T, page: &Page) -> Result<(), AllocError>
    ensures { OnOk result (Took T.Awaits taker.old taker.new (page_facts page.now)) }
{
    let none = Field::new(alloc, "")?;
    let registry = Field::new(alloc, page.name.as_str())?;
    take_ranges(alloc, taker, &none, &registry, page.table.ranges())?;
    take_entries(alloc, taker, &none, &registry, page.entries.as_slice())?;
    Ok(())
}

// Has the facts of ranges taken. `none` is the empty field.
fn take_ranges<T: Takes>(
    alloc: Global,
    taker: &mut T,
    none: &Field,
    registry: &Field,
    ranges: &[Range],
) -> Result<(), AllocError>
    requires { none.now ≡ [] }
    ensures { OnOk result
        (Took T.Awaits taker.old taker.new (map (range_fact registry.now) ranges.now)) }
{
    for range in ranges {
        taker.take(alloc, range_fact(alloc, none, registry, range)?)?;
    }
    Ok(())
}

fn take_entries<T: Takes>(
    alloc: Global,
    taker: &mut T,
    none: &Field,
    registry: &Field,
    entries: &[PageEntry],
) -> Result<(), AllocError>
    requires { none.now ≡ [] }
    ensures { OnOk result
        (Took T.Awaits taker.old taker.new (map (entry_fact registry.now) entries.now)) }
{
    for entry in entries {
        taker.take(alloc, entry_fact(alloc, none, registry, entry)?)?;
    }
    Ok(())
}

/// Has the facts of the prefixes of a pool taken. Only want of memory is an error.
pub fn take_prefixes<T: Takes>(
    alloc: Global,
    taker: &mut T,
    prefixes: &[u32],
) -> Result<(), AllocError>
    ensures { OnOk result
        (Took T.Awaits taker.old taker.new (map prefix_fact prefixes.now)) }
{
    let none = Field::new(alloc, "")?;
    for prefix in prefixes {
        taker.take(alloc, prefix_fact(alloc, &none, *prefix)?)?;
    }
    Ok(())
}

/// Has the facts of blocks taken. Only want of memory is an error.
pub fn take_blocks<T: Takes>(
    alloc: Global,
    taker: &mut T,
    rows: &[Listed],
) -> Result<(), AllocError>
    ensures { OnOk result
        (Took T.Awaits taker.old taker.new (map (λ row. block_fact row.block) rows.now)) }
{
    let none = Field::new(alloc, "")?;
    for row in rows {
        taker.take(alloc, block_fact(alloc, &none, &row.block)?)?;
    }
    Ok(())
}

fn range_fact(
    alloc: Global,
    none: &Field,
    registry: &Field,
    range: &Range,
) -> Result<Fact, AllocError>
    requires { none.now ≡ [] }
    ensures { IfOk result (λ fact. fact ≡ range_fact registry.now range.now) }
{
    let values = Run {
        lo: range.lo,
        hi: range.hi,
    };
    let value = format!(in alloc; "{values}")?;
    Ok(Fact {
        subject: Subject {
            registry: registry.copy()?,
            class: Class::Range,
            value: Field::new(alloc, value.as_str())?,
        },
        details: Details {
            description: Field::new(alloc, note_text(&range.note))?,
            policy: Field::new(alloc, range.treatment.word())?,
            ..no_details(none)?
        },
    })
}

fn entry_fact(
    alloc: Global,
    none: &Field,
    registry: &Field,
    entry: &PageEntry,
) -> Result<Fact, AllocError>
    requires { none.now ≡ [] }
    ensures { IfOk result (λ fact. fact ≡ entry_fact registry.now entry.now) }
{
    let value = format!(in alloc; "{}", entry.value)?;
    Ok(Fact {
        subject: Subject {
            registry: registry.copy()?,
            class: Class::Entry,
            value: Field::new(alloc, value.as_str())?,
        },
        details: Details {
            description: Field::new(alloc, entry.label.as_str())?,
            policy: none.copy()?,
            first: day_field(alloc, entry.term.first)?,
            standing: standing_of(alloc, none, &entry.term)?,
            assignee: Field::new(alloc, entry.assignee.as_str())?,
        },
    })
}

fn prefix_fact(alloc: Global, none: &Field, prefix: u32) -> Result<Fact, AllocError>
    requires { none.now ≡ [] }
    ensures { IfOk result (λ fact. fact ≡ prefix_fact prefix) }
{
    let digits = prefix::text(alloc, prefix)?;
    Ok(Fact {
        subject: Subject {
            registry: none.copy()?,
            class: Class::Prefix,
            value: Field::new(alloc, digits.as_str())?,
        },
        details: no_details(none)?,
    })
}

fn block_fact(alloc: Global, none: &Field, block: &Block) -> Result<Fact, AllocError>
    requires { none.now ≡ [] }
    ensures { IfOk result (λ fact. fact ≡ block_fact block.now) }
{
    let digits = block.text(alloc)?;
    Ok(Fact {
        subject: Subject {
            registry: none.copy()?,
            class: Class::Block,
            value: Field::new(alloc, digits.as_str())?,
        },
        details: no_details(none)?,
    })
}

fn no_details(none: &Field) -> Result<Details, AllocError>
    requires { none.now ≡ [] }
    ensures { IfOk result (λ details. details ≡ no_details) }
{
    Ok(Details {
        description: none.copy()?,
        policy: none.copy()?,
        first: none.copy()?,
        standing: PublishedStanding {
            expires: none.copy()?,
            held: none.copy()?,
        },
        assignee: none.copy()?,
    })
}

fn standing_of(alloc: Global, none: &Field, term: &Term) -> Result<PublishedStanding, AllocError>
    requires { none.now ≡ [] }
    ensures { IfOk result (λ standing. standing ≡ standing_of term.now) }
{
    Ok(PublishedStanding {
        expires: match term.expires {
            Some(day) => day_field(alloc, day)?,
            None => none.copy()?,
        },
        held: match term.held {
            true => Field::new(alloc, "held")?,
            false => none.copy()?,
        },
    })
}

fn day_field(alloc: Global, day: Day) -> Result<Field, AllocError>
    ensures { IfOk result (λ field. field ≡ text_of_day day) }
{
    let text = day_text(alloc, day)?;
    Field::new(alloc, text.as_str())
}
