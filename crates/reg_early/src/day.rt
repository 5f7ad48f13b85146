//! Days of the Gregorian calendar.
ghost use Rattle.std.specs.Prelude.{◌≡◌, ◌↔◌, ℕ, length, IsSome, IfSome, IfOk};
ghost use Rattle.std.specs.String.{string_bytes};
ghost use Rattle.reg_early.specs.Calendar.{IsDay, year_after};
ghost use Rattle.reg_early.specs.Moment.{day_of_moment};
ghost use Rattle.reg_early.specs.DayText.{text_of_day};

use crate::civil::{date_on, day_on};
use jiff::tz::Offset;
use jiff::{Timestamp, ToSpan};
use reg_ranges::formed::Formed;
use std::alloc::{AllocError, Global};
use std::marker::Model;

// 2000-01-01 and 9999-12-31, in days since 1970-01-01.
const FIRST_DAY: u32 = 10_957;

const LAST_DAY: u32 = 2_932_896;

// The beginnings of the UTC years 2000 and 3000, in seconds since 1970-01-01T00:00:00Z.
const CLOCK_START: u64 = 946_684_800;

const CLOCK_END: u64 = 32_503_680_000;

/// A day from 2000-01-01 to 9999-12-31. Contracts see it as its number: the days since 1970-01-01.
#[derive(Clone, Copy, Debug, PartialEq, Eq, PartialOrd, Ord)]
pub struct Day {
    number: u32,
}

impl Model for Day {
    ghost Value = { ℕ };

    ghost view = { λ day. day.number };

    ghost invariant = { λ day. IsDay day.number };

    ghost inverse = { λ number. record { number = number } };
}

impl Day {
    /// The day with this number, in days since 1970-01-01; none outside 2000-01-01 (10957) to
    /// 9999-12-31 (2932896).
    pub fn from_days(days: u32) -> Option<Day>
        ensures accepted { IsSome result ↔ IsDay days }
        ensures value { IfSome result (λ day. day ≡ days) }
    {
        if (FIRST_DAY..=LAST_DAY).contains(&days) {
            Some(Day { number: days })
        } else {
            None
        }
    }

    /// The days since 1970-01-01.
    pub fn days(&self) -> u32
        ensures value { result ≡ self.now }
        ensures in_range { IsDay result }
    {
        self.number
    }
}

impl Formed for Day {
    ghost use Rattle.reg_early.specs.Forms.{is_day};

    ghost has_form = { is_day };

    #[tactic(auto, using(std::proofs::lemmas::Bool::Decides::nat_tests))]
    fn formed(&self) {
        let _ = &self.number;
    }
}

/// The UTC day of a moment in seconds since 1970-01-01T00:00:00Z; none outside the years 2000 to
/// 2999, that is below 946684800 and from 32503680000 on.
pub fn day_of(moment: u64) -> Option<Day>
    ensures value { result ≡ day_of_moment moment }
    ensures is_day { IfSome result IsDay }
{
    if !(CLOCK_START..CLOCK_END).contains(&moment) {
        return None;
    }
    let instant = Timestamp::from_second(moment as i64).unwrap();
    Some(day_on(Offset::UTC.to_datetime(instant).date()))
}

/// The same date of the next year; 28 February for 29 February, and 9999-12-31 for a day of 9999.
pub fn year_after(day: Day) -> Day
    ensures value { result ≡ year_after day }
    ensures is_day { IsDay result }
{
    day_on(date_on(day).saturating_add(1i64.year()))
}

/// The day as `YYYY-MM-DD` (RFC 3339, section 5.6).
pub fn day_text(alloc: Global, day: Day) -> Result<String, AllocError>
    ensures text { IfOk result (λ text. string_bytes text ≡ text_of_day day) }
    ensures ten_characters { IfOk result (λ text. length (string_bytes text) ≡ 10) }
{
    format!(in alloc; "{}", date_on(day))
}
