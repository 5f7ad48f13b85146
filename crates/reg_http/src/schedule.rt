//! Which connections there are, and what the clock and the order of things say of them.
ghost use Rattle.std.specs.Prelude.{◌≡◌, ◌<◌, ◌+◌, ◌-◌, ◌^◌, ◌↔◌, ◌||◌, if◌then◌else◌, ℕ, None, Some, IfOk, OnErr, IsTrue, length, min, nat_lt, slice_get};
ghost use Rattle.std.specs.List.{list_all};
ghost use Rattle.std.specs.Option.{is_some, option_map};
ghost use Rattle.std.specs.Duration.{as_nanos};
ghost use Rattle.reg_http.specs.Places.{first_in, giving_way, is_too_heavy, least_left, load_of};
ghost use Rattle.reg_http.specs.Schedules.{IsOverAt, SameBut, StandsSince, asks_since, counted_from, is_free, keeping, refused, stage_at, was_carried_out};
ghost use Rattle.reg_http.specs.declared.place.Order.TheVariants as order;
ghost use Rattle.reg_http.specs.declared.place.Stage.TheVariants as stage;

use crate::place::{
    MOST_PLACES, Place, Stage, are_too_heavy, free_place, giving_way, heaviest, least_left,
    next_turn,
};
use std::alloc::{AllocError, Global};
use std::time::Duration;

/// Where each connection stands, and since when.
#[derive(Drop)]
pub(crate) struct Schedule {
    /// The places, taken and free.
    pub places: Vec<Place>,
    /// What they are counted and timed by.
    pub counters: Counters,
}

/// What places are counted and timed by.
#[derive(Clone, Copy, Debug)]
pub(crate) struct Counters {
    /// How long a peer has to send its request, and again to take the answer.
    pub patience: Duration,
    /// The time of this round, by the monotonic clock.
    pub now: Duration,
    /// How often the sockets were looked at.
    pub rounds: u64,
    /// How many answers were made.
    pub answers: u64,
    /// How many connections were accepted.
    pub accepted: u64,
}

impl Schedule {
    /// No connection yet.
    pub fn new(alloc: Global, patience: Duration) -> Schedule
        ensures { result.counters.patience ≡ patience }
    {
        Schedule {
            places: Vec::new(alloc),
            counters: Counters {
                patience,
                now: Duration::ZERO,
                rounds: 0,
                answers: 0,
                accepted: 0,
            },
        }
    }

    /// How many places there are.
    pub fn len(&self) -> usize
        ensures { result ≡ length self.now.places.items }
    {
        self.places.len()
    }

    // ---- The clock

    /// Tells what time it is.
    pub fn tell_time(&mut self, now: Duration)
        ensures places { self.new.places.items ≡ self.old.places.items }
        ensures counters { self.new.counters ≡ record self.old.counters { now = now } }
    {
        self.counters.now = now;
    }

    /// Begins a round.
    pub fn begin_round(&mut self)
        ensures places { self.new.places.items ≡ self.old.places.items }
        ensures counters { self.new.counters ≡ record self.old.counters {
          rounds = min (self.old.counters.rounds + 1) (2 ^ 64 - 1);
        } }
    {
        self.counters.rounds = self.counters.rounds.saturating_add(1);
    }

    /// How long the clock still lets every connection go on that it ends; none where it ends none.
    pub fn least_left(&self) -> Option<Duration>
        ensures { option_map as_nanos result
            ≡ least_left self.now.counters.patience self.now.counters.now self.now.places.items }
    {
        least_left(
            self.places.as_slice(),
            self.counters.patience,
            self.counters.now,
        )
    }

    /// Whether the clock ends the connection there.
    pub fn is_over(&self, at: usize) -> bool
        ensures { IsTrue result
            ↔ IsOverAt self.now.counters.patience self.now.counters.now self.now.places.items at }
    {
        match self.places.get(at) {
            Some(place) => place.is_over(self.counters.patience, self.counters.now),
            None => false,
        }
    }

    // ---- Who stands where

    /// Where the connection stands; free where there is no such place.
    pub fn stage(&self, at: usize) -> Stage
        ensures { result ≡ stage_at self.now.places.items at }
    {
        match self.places.get(at) {
            Some(place) => place.stage,
            None => Stage::Free,
        }
    }

    /// Whether there is no connection.
    pub fn is_empty(&self) -> bool
        ensures { result ≡ list_all is_free self.now.places.items }
    {
        self.places.iter().all(|place| place.is_free())
    }

    /// Whether no connection asks or is due.
    pub fn is_asked_no_more(&self) -> bool
        ensures { result ≡ list_all was_carried_out self.now.places.items }
    {
        self.places.iter().all(|place| place.was_carried_out())
    }

    /// Whether there is a place for one more.
    pub fn has_room(&self) -> bool
        ensures { result ≡ (nat_lt (length self.now.places.items) 1_024
            || is_some (first_in order.Free self.now.places.items)) }
    {
        self.places.len() < MOST_PLACES || free_place(self.places.as_slice()).is_some()
    }

    /// The connection that is carried out next, if one is due.
    pub fn next_turn(&self) -> Option<usize>
        ensures { result ≡ first_in order.Turn self.now.places.items }
    {
        next_turn(self.places.as_slice())
    }

    /// The connection that gives way to a new one.
    pub fn giving_way(&self) -> Option<usize>
        ensures { result ≡ giving_way self.now.places.items }
    {
        giving_way(self.places.as_slice())
    }

    /// The connection that is dropped because more is kept than may be, if it is.
    pub fn too_heavy(&self) -> Option<usize>
        ensures { result ≡ (if is_too_heavy (load_of self.now.places.items)
            then first_in order.Weight self.now.places.items else None) }
    {
        if !are_too_heavy(self.places.as_slice()) {
            return None;
        }
        heaviest(self.places.as_slice())
    }

    // ---- From place to place

    /// Takes in a connection that was just accepted: it asks from now on.
    pub fn take_in(&mut self) -> Result<usize, AllocError>
        ensures asks { IfOk result (λ at. slice_get self.new.places.items at
            ≡ Some (asks_since self.old.counters.now self.old.counters.accepted)) }
        ensures others { IfOk result (λ at. (n : ℕ) → (n ≡ at → ⊥)
            → slice_get self.new.places.items n ≡ slice_get self.old.places.items n) }
        ensures kept { OnErr result (self.new.places.items ≡ self.old.places.items) }
    {
        let place = Place::asking(self.counters.accepted, self.counters.now);
        self.counters.accepted = self.counters.accepted.saturating_add(1);
        if let Some(at) = free_place(self.places.as_slice()) {
            if let Some(free) = self.places.get_mut(at) {
                *free = place;
                return Ok(at);
            }
        }
        let at = self.places.len();
        self.places.push(place)?;
        Ok(at)
    }

    /// Its request is settled, and it is due from this round on.
    pub fn settle(&mut self, at: usize)
        ensures stage { at < length self.old.places.items
            → stage_at self.new.places.items at ≡ stage.Due self.old.counters.rounds }
        ensures others { SameBut at self.old.places.items self.new.places.items }
        ensures counters { self.new.counters ≡ self.old.counters }
    {
        let round = self.counters.rounds;
        if let Some(place) = self.places.get_mut(at) {
            place.stage = Stage::Due(round);
        }
    }

    /// Its turn has come.
    pub fn begin_turn(&mut self, at: usize)
        ensures stage { at < length self.old.places.items
            → stage_at self.new.places.items at ≡ stage.InTurn }
        ensures others { SameBut at self.old.places.items self.new.places.items }
        ensures counters { self.new.counters ≡ self.old.counters }
    {
        if let Some(place) = self.places.get_mut(at) {
            place.stage = Stage::InTurn;
        }
    }

    /// Its answer was made, and is being sent from now on; where it has content, until `last` at most.
    pub fn begin_answer(&mut self, at: usize, last: Option<Duration>)
        ensures stands { StandsSince (stage.Answered self.old.counters.answers)
            self.old.counters.now last at self.old.places.items self.new.places.items }
        ensures others { SameBut at self.old.places.items self.new.places.items }
    {
        let stage = Stage::Answered(self.counters.answers);
        self.counters.answers = self.counters.answers.saturating_add(1);
        self.stand(at, stage, last);
    }

    /// More of its content was taken.
    pub fn goes_on(&mut self, at: usize)
        ensures since { slice_get self.new.places.items at
            ≡ option_map (counted_from self.old.counters.now) (slice_get self.old.places.items at) }
        ensures others { SameBut at self.old.places.items self.new.places.items }
        ensures counters { self.new.counters ≡ self.old.counters }
    {
        let now = self.counters.now;
        if let Some(place) = self.places.get_mut(at) {
            place.since = now;
        }
    }

    /// Its answer was taken and refused it: what it still sends is dropped from now on.
    pub fn refuse(&mut self, at: usize)
        ensures stands { StandsSince (refused (stage_at self.old.places.items at))
            self.old.counters.now None at self.old.places.items self.new.places.items }
        ensures others { SameBut at self.old.places.items self.new.places.items }
        ensures counters { self.new.counters ≡ self.old.counters }
    {
        let stage = self.stage(at).refused();
        self.stand(at, stage, None);
    }

    // Has a connection stand there from now on, with nothing kept of it.
    fn stand(&mut self, at: usize, stage: Stage, last: Option<Duration>)
        ensures stands { StandsSince stage self.old.counters.now last at self.old.places.items
            self.new.places.items }
        ensures others { SameBut at self.old.places.items self.new.places.items }
        ensures counters { self.new.counters ≡ self.old.counters }
    {
        let now = self.counters.now;
        if let Some(place) = self.places.get_mut(at) {
            let number = place.number;
            *place = Place {
                stage,
                number,
                since: now,
                last,
                asked: 0,
                unsent: 0,
            };
        }
    }

    /// So many bytes are kept of its request, or of its answer.
    pub fn keeps(&mut self, at: usize, asked: usize, unsent: usize)
        ensures sizes { slice_get self.new.places.items at
            ≡ option_map (keeping asked unsent) (slice_get self.old.places.items at) }
        ensures others { SameBut at self.old.places.items self.new.places.items }
        ensures counters { self.new.counters ≡ self.old.counters }
    {
        if let Some(place) = self.places.get_mut(at) {
            place.asked = asked;
            place.unsent = unsent;
        }
    }

    /// The connection is gone.
    pub fn free(&mut self, at: usize)
        ensures stage { stage_at self.new.places.items at ≡ stage.Free }
        ensures others { SameBut at self.old.places.items self.new.places.items }
        ensures counters { self.new.counters ≡ self.old.counters }
    {
        if let Some(place) = self.places.get_mut(at) {
            *place = Place::free();
        }
    }
}
