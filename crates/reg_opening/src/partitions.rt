//! Registries with their ranges, fed to an audit from their tables.
ghost use Rattle.std.specs.Prelude.{◌≡◌, IfErr, IfOk, IsTrue, OnErr};
ghost use Rattle.std.specs.FinMap.{empty};
ghost use Rattle.reg_opening.specs.Audits.{knows_free};
ghost use Rattle.reg_statements.specs.Content.{maxes_in, ranges_in, registries_in};
ghost use Rattle.reg_opening.specs.Partitions.{ArePartitions, AreRegistries, AreUnfed, IsFedPartitions, leading};
ghost use Rattle.reg_opening.specs.Partitions.{left_over, partition_row, shared_out, trailing};
ghost use Rattle.reg_opening.specs.Unordered.{AreRegistriesUnordered};

use crate::audit::Audit;
use crate::feed::{Fed, Part, Reading, feed_all};
use crate::feeder::Feeder;
use crate::flaw::RowFlaw;
use crate::grows::Grows;
use crate::opens::Opens;
use crate::row::Row;
use reg_core::text::Name;
use reg_keeper::keeper::Fault;
use reg_ranges::range::Range;
use reg_ranges::table::RangeTable;
use reg_records::ranges::RegistryRange;
use reg_records::registries::Registry;
use reg_statements::read::load;
use reg_statements::select::are_ascending;
use reg_tables::texts::{SELECT_RANGES, SELECT_REGISTRIES};
use sqlite::Connection;
use std::alloc::{AllocError, Global};
use std::marker::Model;

/// The places of the two tables among those of an office.
const REGISTRY_PLACE: usize = 2;

const RANGE_PLACE: usize = 3;

/// A registry with its ranges, which are a partition of its values.
#[derive(Drop)]
pub struct Partition {
    name: Name,
    table: RangeTable,
}

impl Fed for Partition {
    ghost row_of = { partition_row };

    fn row(self) -> Row {
        Row::Registry(self.name, self.table)
    }
}

/// A registry with the ranges that it took.
#[derive(Drop)]
struct Share {
    registry: Registry,
    ranges: Vec<Range>,
}

impl Model for Share {
    ghost use Rattle.reg_opening.specs.Partitions.{Share as Taken};

    ghost Value = { Taken };

    ghost view = { λ share. (share.registry, share.ranges.items) };
}

/// The ranges that the first rows give to a registry, and the rows after them.
fn leading<'a, S: Grows>(
    alloc: Global,
    mut rows: &'a [RegistryRange],
    name: &Name,
) -> Result<(Vec<Range>, &'a [RegistryRange]), AllocError>
    ensures both { IfOk result (λ both. (both.0.items ≡ leading name.now rows.entry.now)
        × (both.1.now ≡ trailing name.now rows.entry.now)) }
    ensures refused { OnErr result S.Ungrown }
{
    let mut ranges = Vec::new(alloc);
    'rows: while let [row, more @ ..] = rows {
        if row.registry != *name {
            break;
        }
        S::push(&mut ranges, S::copy_range(&row.range)?)?;
        rows = more;
    }
    Ok((ranges, rows))
}

/// Each registry with the ranges that it takes, one after the other, and the rows that nobody took.
fn shared_out<'a, S: Grows>(
    alloc: Global,
    mut registries: &[Registry],
    mut rows: &'a [RegistryRange],
) -> Result<(Vec<Share>, &'a [RegistryRange]), AllocError>
    ensures both { IfOk result (λ both.
        (both.0.items ≡ shared_out registries.entry.now rows.entry.now)
        × (both.1.now ≡ left_over registries.entry.now rows.entry.now)) }
    ensures refused { OnErr result S.Ungrown }
{
    let mut shares = Vec::new(alloc);
    'registries: while let [registry, more @ ..] = registries {
        let (ranges, others) = leading::<S>(alloc, rows, &registry.name)?;
        let share = Share {
            registry: *registry,
            ranges,
        };
        S::push(&mut shares, share)?;
        rows = others;
        registries = more;
    }
    Ok((shares, rows))
}

/// Each registry with its ranges, or none where those of one are no partition of its values.
fn partitions<S: Grows>(
    alloc: Global,
    shares: Vec<Share>,
) -> Result<Option<Vec<Partition>>, AllocError>
    ensures found { IfOk result (λ found. ArePartitions shares.items found) }
    ensures refused { OnErr result S.Ungrown }
{
    let mut all = Vec::new(alloc);
    for share in shares {
        let Ok(table) = RangeTable::make(share.registry.max, share.ranges) else {
            return Ok(None);
        };
        let partition = Partition {
            name: share.registry.name,
            table,
        };
        S::push(&mut all, partition)?;
    }
    Ok(Some(all))
}

/// The registries with their ranges. Rows that the store does not give in their order are a fault of
/// it.
pub(crate) struct Registries;

impl Part for Registries {
    ghost Before = { λ t w. (w.registries ≡ empty) × (w.entries ≡ empty) };

    ghost IsHeld = { AreRegistries };

    ghost filled = { λ t w. record w { registries = registries_in (maxes_in t) (ranges_in t) } };

    ghost Misordered = { AreRegistriesUnordered };

    fn feed<S: Opens>(
        reading: Reading,
        conn: &mut Connection<S>,
        feeder: &mut Feeder,
    ) -> Result<bool, Fault> {
        let alloc = reading.alloc;
        let Some(registries) = load::<S, Registry>(alloc, conn, SELECT_REGISTRIES, &[])? else {
            feeder.end(REGISTRY_PLACE, false, RowFlaw::Unread(REGISTRY_PLACE));
            return Ok(false);
        };
        let Some(rows) = load::<S, RegistryRange>(alloc, conn, SELECT_RANGES, &[])? else {
            feeder.end(RANGE_PLACE, false, RowFlaw::Unread(RANGE_PLACE));
            return Ok(false);
        };
        let is_whole = feed_partitions::<S>(
            alloc,
            &mut feeder.audit,
            registries.as_slice(),
            rows.as_slice(),
        )?;
        feeder.end(REGISTRY_PLACE, is_whole, RowFlaw::Unfit(RANGE_PLACE));
        Ok(is_whole)
    }
}

/// Feeds registries with their ranges.
fn feed_partitions<S: Grows>(
    alloc: Global,
    audit: &mut Audit,
    registries: &[Registry],
    rows: &[RegistryRange],
) -> Result<bool, Fault>
    ensures fed { IfOk result
        (λ fed. IsFedPartitions registries.now rows.now audit.old audit.new fed) }
    ensures free { IfOk result
        (λ _. IsTrue (knows_free audit.old) → IsTrue (knows_free audit.new)) }
    ensures fault { IfErr result (AreUnfed S.Ungrown registries.now rows.now) }
{
    if !are_ascending(registries) || !are_ascending(rows) {
        return Err(Fault::Store);
    }
    let (shares, left) = shared_out::<S>(alloc, registries, rows)?;
    if !left.is_empty() {
        return Ok(false);
    }
    match partitions::<S>(alloc, shares)? {
        Some(all) => {
            feed_all::<S, Partition>(audit, all)?;
            Ok(true)
        }
        None => Ok(false),
    }
}
