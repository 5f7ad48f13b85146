//! Where connections stand, and which of them comes next, gives way, or is dropped.
ghost use Rattle.std.specs.Prelude.{◌≡◌, ◌-◌, ◌^◌, ◌↔◌, IsTrue, min, sum_by};
ghost use Rattle.std.specs.Option.{option_map};
ghost use Rattle.std.specs.Duration.{as_nanos};
ghost use Rattle.reg_http.specs.Places.{IsOver, answer_left, answer_rank, first_in, free_rank, giving_way, is_before, is_too_heavy, least_left, lesser, load_of, one_if_asking, rank_in, time_left, turn_rank, wait_rank, weight_rank, with_load, with_place};
ghost use Rattle.reg_http.specs.Schedules.{asks_since, is_free, refused, was_carried_out};
ghost use Rattle.reg_http.specs.declared.place.Stage.TheVariants as stage;

use std::time::Duration;

/// The most connections at a time.
pub(crate) const MOST_PLACES: usize = 1_024;

/// The most bytes of requests and unsent answers together, one answer alone aside.
pub(crate) const MOST_KEPT_BYTES: usize = 64_000_000;

// For how many seconds what a refused peer still sends is read.
const LINGER_SECONDS: u64 = 1;

/// Where a connection stands.
#[derive(Clone, Copy, Debug, PartialEq, Eq)]
pub(crate) enum Stage {
    /// There is none.
    Free,
    /// Its request is to come.
    Asking,
    /// It is to be carried out, since this round.
    Due(u64),
    /// It is being carried out.
    InTurn,
    /// Its answer, the one with this number, is being sent.
    Answered(u64),
    /// That answer refused it and was taken, and what it still sends is dropped.
    Refused(u64),
}

impl Stage {
    /// Where a connection stands whose answer refused it and was taken.
    pub fn refused(self) -> Stage
        ensures { result ≡ refused self }
    {
        match self {
            Stage::Answered(answer) => Stage::Refused(answer),
            Stage::Free | Stage::Asking | Stage::Due(_) | Stage::InTurn | Stage::Refused(_) => self,
        }
    }
}

/// A place for a connection.
#[derive(Clone, Copy, Debug)]
pub(crate) struct Place {
    /// Where the connection stands.
    pub stage: Stage,
    /// How many were accepted before it.
    pub number: u64,
    /// Since when the clock counts, by the monotonic clock: since it was accepted, its answer was made or
    /// more of its content taken, or it was refused.
    pub since: Duration,
    /// By when all of its answer is to be taken, where that has content.
    pub last: Option<Duration>,
    /// How many bytes of its request are kept.
    pub asked: usize,
    /// How many bytes of its answer are unsent.
    pub unsent: usize,
}

impl Place {
    /// A place without a connection.
    pub fn free() -> Place
        ensures { result.stage ≡ stage.Free }
    {
        Place {
            stage: Stage::Free,
            number: 0,
            since: Duration::ZERO,
            last: None,
            asked: 0,
            unsent: 0,
        }
    }

    /// A connection that was accepted now, after so many others.
    pub fn asking(number: u64, now: Duration) -> Place
        ensures { result ≡ asks_since now number }
    {
        Place {
            stage: Stage::Asking,
            number,
            since: now,
            last: None,
            asked: 0,
            unsent: 0,
        }
    }

    /// Whether there is no connection.
    pub fn is_free(&self) -> bool
        ensures { result ≡ is_free self.now }
    {
        self.stage == Stage::Free
    }

    /// Whether there is no connection, or it has its turn or had it.
    pub fn was_carried_out(&self) -> bool
        ensures { result ≡ was_carried_out self.now }
    {
        match self.stage {
            Stage::Asking | Stage::Due(_) => false,
            Stage::Free | Stage::InTurn | Stage::Answered(_) | Stage::Refused(_) => true,
        }
    }

    /// How long the clock still lets the connection go on; none where the clock does not end it.
    pub fn time_left(self, patience: Duration, now: Duration) -> Option<Duration>
        ensures { option_map as_nanos result ≡ time_left patience now self }
    {
        match self.stage {
            Stage::Asking => Some(left_of(patience, self.since, now)),
            Stage::Answered(_) => Some(self.answer_left(patience, now)),
            Stage::Refused(_) => Some(left_of(
                Duration::from_secs(LINGER_SECONDS),
                self.since,
                now,
            )),
            Stage::Free | Stage::Due(_) | Stage::InTurn => None,
        }
    }

    fn answer_left(self, patience: Duration, now: Duration) -> Duration
        ensures { as_nanos result ≡ answer_left patience now self }
    {
        let left = left_of(patience, self.since, now);
        match self.last {
            Some(last) => shorter(left, last.saturating_sub(now)),
            None => left,
        }
    }

    /// Whether it has been asking, answered or refused as long as the clock lets it.
    pub fn is_over(self, patience: Duration, now: Duration) -> bool
        ensures { IsTrue result ↔ IsOver patience now self }
    {
        match self.time_left(patience, now) {
            Some(left) => left.is_zero(),
            None => false,
        }
    }
}

// What is left of a time that began then.
fn left_of(span: Duration, since: Duration, now: Duration) -> Duration
    ensures { as_nanos result ≡ as_nanos span - (as_nanos now - as_nanos since) }
{
    span.saturating_sub(now.saturating_sub(since))
}

fn shorter(a: Duration, b: Duration) -> Duration
    ensures { as_nanos result ≡ min (as_nanos a) (as_nanos b) }
{
    if a.as_nanos() <= b.as_nanos() { a } else { b }
}

/// An order of places, which leaves some out.
#[derive(Clone, Copy, Debug, PartialEq, Eq)]
pub(crate) enum Order {
    /// Those that are due, in turn.
    Turn,
    /// Those that wait for a request, the one that was accepted first before all.
    Wait,
    /// Those whose answer was made, the first before all.
    Answer,
    /// Those that can be dropped, the one with the most unsent bytes before all.
    Weight,
    /// Those without a connection.
    Free,
}

impl Order {
    // The rank of a place; none where it is left out.
    fn rank(self, place: Place) -> Option<(u64, u64)>
        ensures { result ≡ rank_in self place }
    {
        match self {
            Order::Turn => place.turn_rank(),
            Order::Wait => place.wait_rank(),
            Order::Answer => place.answer_rank(),
            Order::Weight => place.weight_rank(),
            Order::Free => place.free_rank(),
        }
    }
}

impl Place {
    // How many there are here that wait for a request.
    fn one_if_asking(self) -> usize
        ensures { result ≡ one_if_asking self }
    {
        usize::from(self.stage == Stage::Asking)
    }

    fn turn_rank(self) -> Option<(u64, u64)>
        ensures { result ≡ turn_rank self.stage self.number }
    {
        match self.stage {
            Stage::Due(round) => Some((round, self.number)),
            _ => None,
        }
    }

    fn wait_rank(self) -> Option<(u64, u64)>
        ensures { result ≡ wait_rank self.stage self.number }
    {
        match self.stage {
            Stage::Asking => Some((self.number, 0)),
            _ => None,
        }
    }

    fn answer_rank(self) -> Option<(u64, u64)>
        ensures { result ≡ answer_rank self.stage }
    {
        match self.stage {
            Stage::Answered(answer) | Stage::Refused(answer) => Some((answer, 0)),
            _ => None,
        }
    }

    fn weight_rank(self) -> Option<(u64, u64)>
        ensures { result ≡ weight_rank self.stage self.asked self.unsent }
    {
        match self.stage {
            Stage::Asking | Stage::Answered(_) => Some((
                u64::MAX.saturating_sub(self.unsent as u64),
                u64::MAX.saturating_sub(self.asked as u64),
            )),
            _ => None,
        }
    }

    fn free_rank(self) -> Option<(u64, u64)>
        ensures { result ≡ free_rank self.stage }
    {
        match self.stage {
            Stage::Free => Some((0, 0)),
            _ => None,
        }
    }
}

fn is_before(a: (u64, u64), b: (u64, u64)) -> bool
    ensures { result ≡ is_before a b }
{
    a.0 < b.0 || a.0 == b.0 && a.1 < b.1
}

// The first of the places with the least rank.
fn first_in(places: &[Place], order: Order) -> Option<usize>
    ensures { result ≡ first_in order places.now }
{
    let mut found: Option<(usize, (u64, u64))> = None;
    for (at, place) in places.iter().enumerate() {
        found = with_place(found, at, order.rank(*place));
    }
    match found {
        Some((at, _)) => Some(at),
        None => None,
    }
}

// What is found with one place more.
fn with_place(
    found: Option<(usize, (u64, u64))>,
    at: usize,
    rank: Option<(u64, u64)>,
) -> Option<(usize, (u64, u64))>
    ensures { result ≡ with_place found at rank }
{
    let Some(rank) = rank else {
        return found;
    };
    match found {
        None => Some((at, rank)),
        Some((had, least)) => Some(if is_before(rank, least) {
            (at, rank)
        } else {
            (had, least)
        }),
    }
}

/// The connection that is carried out next: of those that are due, the one that became so first, and
/// of those of one round the one that was accepted first.
pub(crate) fn next_turn(places: &[Place]) -> Option<usize>
    ensures { result ≡ first_in Order.Turn places.now }
{
    first_in(places, Order::Turn)
}

/// A place without a connection.
pub(crate) fn free_place(places: &[Place]) -> Option<usize>
    ensures { result ≡ first_in Order.Free places.now }
{
    first_in(places, Order::Free)
}

/// The connection whose place a new one takes: where fewer than half of all places wait for a
/// request, the one whose answer was made first, if one was; else the one that was accepted first of
/// those that wait.
pub(crate) fn giving_way(places: &[Place]) -> Option<usize>
    ensures { result ≡ giving_way places.now }
{
    if waiting(places) < MOST_PLACES / 2 {
        if let Some(at) = first_in(places, Order::Answer) {
            return Some(at);
        }
    }
    first_in(places, Order::Wait)
}

// How many wait for a request, or the most that can be counted.
fn waiting(places: &[Place]) -> usize
    ensures { result ≡ min (sum_by one_if_asking places.now) (2 ^ 64 - 1) }
{
    let mut count = 0usize;
    for place in places {
        count = count.saturating_add(place.one_if_asking());
    }
    count
}

/// The connection that is dropped at the bound: of those that wait for a request or are answered, the
/// one with the most unsent bytes, and of those with as many the one with the longest request.
pub(crate) fn heaviest(places: &[Place]) -> Option<usize>
    ensures { result ≡ first_in Order.Weight places.now }
{
    first_in(places, Order::Weight)
}

/// Whether more is kept than may be: too much of requests, or too much of them and of two unsent
/// answers or more.
pub(crate) fn are_too_heavy(places: &[Place]) -> bool
    ensures { result ≡ is_too_heavy (load_of places.now) }
{
    let mut load = Load {
        asked: 0,
        unsent: 0,
        answers: 0,
    };
    for place in places {
        load = load.with(*place);
    }
    load.is_too_heavy()
}

// What is kept of some connections, each number at most the largest that there is.
#[derive(Clone, Copy, Debug)]
struct Load {
    // How many bytes of requests.
    asked: usize,
    // How many bytes of unsent answers.
    unsent: usize,
    // How many answers these are.
    answers: usize,
}

impl Load {
    fn with(self, place: Place) -> Load
        ensures { result ≡ with_load self place }
    {
        Load {
            asked: self.asked.saturating_add(place.asked),
            unsent: self.unsent.saturating_add(place.unsent),
            answers: self.answers.saturating_add(usize::from(place.unsent > 0)),
        }
    }

    fn is_too_heavy(self) -> bool
        ensures { result ≡ is_too_heavy self }
    {
        self.asked > MOST_KEPT_BYTES
            || self.answers > 1 && self.asked.saturating_add(self.unsent) > MOST_KEPT_BYTES
    }
}

/// How long the clock still lets every connection go on that it ends; none where it ends none.
pub(crate) fn least_left(places: &[Place], patience: Duration, now: Duration) -> Option<Duration>
    ensures { option_map as_nanos result ≡ least_left patience now places.now }
{
    let mut least = None;
    for place in places {
        least = lesser(least, place.time_left(patience, now));
    }
    least
}

fn lesser(a: Option<Duration>, b: Option<Duration>) -> Option<Duration>
    ensures { option_map as_nanos result ≡ lesser (option_map as_nanos a) (option_map as_nanos b) }
{
    match (a, b) {
        (Some(a), Some(b)) => Some(shorter(a, b)),
        (Some(a), None) => Some(a),
        (None, b) => b,
    }
}
