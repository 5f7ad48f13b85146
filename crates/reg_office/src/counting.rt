//! How many rows of each kind an office has, requests and acts among them.
ghost use Rattle.std.specs.Prelude.{◌≡◌, length};
ghost use Rattle.reg_core.specs.Request.{request_rows};
ghost use Rattle.reg_keeper.specs.Keeper.{Selects, all_acts};
ghost use Rattle.reg_office.specs.Counting.{all_counts, in_state as state_count, request_counts};

use reg_core::counts::Counts;
use reg_core::request::{Request, StateWord};
use reg_early::day::Day;
use reg_keeper::keeper::{Fault, Keeper};
use reg_registers::counting::count;

/// How many rows of each kind an office has.
#[derive(Clone, Copy, Debug, PartialEq, Eq)]
pub struct AllCounts {
    /// Of each kind but requests and acts.
    pub others: Counts,
    pub requests: RequestCounts,
    /// The acts of the journal.
    pub acts: usize,
}

/// How many requests there are, and in which states.
#[derive(Clone, Copy, Debug, PartialEq, Eq)]
pub struct RequestCounts {
    pub all: usize,
    pub pending: usize,
    pub approved: usize,
    pub declined: usize,
    pub withdrawn: usize,
}

/// How many rows of each kind there are on a day, at a moment in seconds since
/// 1970-01-01T00:00:00Z. One kind is read after the other. `Memory` where there is none, or where the
/// entries are more than a number can say.
pub fn count_all<K: Keeper>(keeper: &mut K, moment: u64, today: Day) -> Result<AllCounts, Fault>
    ensures { Selects K.world K.Holds K.Sound K.FAILS keeper.old keeper.new result
        (λ w given. given ≡ all_counts moment today w) }
{
    let others = count(keeper, moment, today)?;
    let requests = count_requests(keeper)?;
    let acts = count_acts(keeper)?;
    Ok(AllCounts {
        others,
        requests,
        acts,
    })
}

fn count_requests<K: Keeper>(keeper: &mut K) -> Result<RequestCounts, Fault>
    ensures { Selects K.world K.Holds K.Sound K.FAILS keeper.old keeper.new result
        (λ w given. given ≡ request_counts (request_rows w.requests)) }
{
    let requests = keeper.all()?;
    Ok(RequestCounts::of(requests.as_slice()))
}

fn count_acts<K: Keeper>(keeper: &mut K) -> Result<usize, Fault>
    ensures { Selects K.world K.Holds K.Sound K.FAILS keeper.old keeper.new result
        (λ w count. count ≡ length (all_acts w)) }
{
    let acts = keeper.acts()?;
    Ok(acts.as_slice().len())
}

impl RequestCounts {
    /// Of these requests.
    fn of(requests: &[Request]) -> RequestCounts
        ensures { result ≡ request_counts requests.now }
    {
        RequestCounts {
            all: requests.len(),
            pending: in_state(requests, StateWord::Pending),
            approved: in_state(requests, StateWord::Approved),
            declined: in_state(requests, StateWord::Declined),
            withdrawn: in_state(requests, StateWord::Withdrawn),
        }
    }
}

/// How many requests are in a state.
fn in_state(requests: &[Request], word: StateWord) -> usize
    ensures { result ≡ state_count word requests.now }
{
    requests
        .iter()
        .filter(|request| request.state.word() == word)
        .count()
}
