//! The days on which renewals are approved.
ghost use Rattle.std.specs.Prelude.{◌≡◌, ◌≤◌};
ghost use Rattle.reg_import.specs.Years.{year_before, year_before_by};

use reg_early::day::{Day, year_after};

/// The day one year before a day: the one whose year ends on it, and the earlier where there are
/// two, 28 and 29 February. None where there is none.
pub fn year_before(day: Day) -> Option<Day>
    ensures { result ≡ year_before day }
{
    match year_before_by(day, 366) {
        Some(earlier) => Some(earlier),
        None => year_before_by(day, 365),
    }
}

// The day so many days before, where its year ends on the day.
fn year_before_by(day: Day, days: u32) -> Option<Day>
    requires { days ≤ 366 }
    ensures { result ≡ year_before_by day days }
{
    let earlier = Day::from_days(day.days() - days)?;
    if year_after(earlier) == day {
        Some(earlier)
    } else {
        None
    }
}
