//! Runs in a map, from the first to the last number of each.
ghost use Rattle.std.specs.Prelude.{◌≡◌, ℕ, ◌+◌, ◌≤◌, ◌||◌, false, nat_eq, unwrap_or, OnOk, OnErr};
ghost use Rattle.std.specs.BTreeMap.{IsOrdered, IsUnchanged, get};
ghost use Rattle.std.specs.Ordering.{nat_cmp};
ghost use Rattle.reg_vacancies.specs.ValueSpans.{Apart, IsBefore, IsFirst, IsNextFree, Joins, is_within, reaches};

use std::alloc::AllocError;
use std::collections::BTreeMap;

/// From the first to the last number of each run.
pub type Spans = BTreeMap<u32, u32>;

/// Whether a number lies in a run.
#[tactic(auto, using(crate::proofs::SpanLaws::within_reaches))]
pub fn is_within(spans: &Spans, value: u32) -> bool
    requires { Apart spans.now }
    ensures { result ≡ is_within spans.now value }
{
    reaches(before(spans, value), value)
}

/// The least number from one on that lies in no run.
pub fn next_free(spans: &Spans, from: u32) -> Option<u32>
    requires { Apart spans.now }
    ensures { IsNextFree (is_within spans.now) from result }
{
    match before(spans, from) {
        Some((_, last)) if from <= last => last.checked_add(1),
        _ => Some(from),
    }
}

/// Adds a number, and joins it to the runs that it touches.
pub fn add(spans: &mut Spans, value: u32) -> Result<(), AllocError>
    requires { Apart spans.old }
    ensures apart { Apart spans.new }
    ensures ok { OnOk result ((n : ℕ) →
        is_within spans.new n ≡ (nat_eq n value || is_within spans.old n)) }
    ensures err { OnErr result (IsUnchanged spans.old spans.new) }
    ensures absent { OnErr result (is_within spans.old value ≡ false) }
{
    let run = before(spans, value);
    if reaches(run, value) {
        return Ok(());
    }
    let first = first_with(run, value);
    let last = last_with(spans, value);
    join(spans, first, last, value)
}

// The last run that begins at or below a number.
fn before(spans: &Spans, value: u32) -> Option<(u32, u32)>
    ensures before { IsBefore spans.now value result }
    ensures ordered { IsOrdered nat_cmp spans.now }
{
    let (first, last) = spans.range(..=value).next_back()?;
    Some((*first, *last))
}

// Whether a number lies in the last run that begins at or below it.
fn reaches(run: Option<(u32, u32)>, value: u32) -> bool
    ensures { result ≡ reaches run value }
{
    match run {
        Some((_, last)) => value <= last,
        None => false,
    }
}

// Where the run of a number begins, once it is added above this run.
fn first_with(run: Option<(u32, u32)>, value: u32) -> u32
    ensures { IsFirst run value result }
{
    match run {
        Some((first, last)) if last < value && last + 1 == value => first,
        _ => value,
    }
}

// Where the run of a number ends, once it is added.
#[tactic(auto, using(crate::proofs::Joining::last_at_top))]
fn last_with(spans: &Spans, value: u32) -> u32
    requires { Apart spans.now }
    ensures { result ≡ unwrap_or (get nat_cmp spans.now (value + 1)) value }
{
    match value.checked_add(1) {
        Some(above) => spans.get(&above).copied().unwrap_or(value),
        None => value,
    }
}

// Puts a run around a number in the place of the two beside it. The step that may need memory
// comes first.
fn join(spans: &mut Spans, first: u32, last: u32, value: u32) -> Result<(), AllocError>
    requires apart { Apart spans.old }
    requires first { first ≤ value }
    ensures ok { OnOk result (Joins spans.old spans.new first last value) }
    ensures err { OnErr result (IsUnchanged spans.old spans.new) }
    ensures ordered { IsOrdered nat_cmp spans.new }
{
    spans.insert(first, last)?;
    if let Some(above) = value.checked_add(1) {
        spans.remove(&above);
    }
    Ok(())
}
