//! Days as dates of jiff's calendar, and back.
ghost use Rattle.std.specs.Prelude.{◌≡◌, pos};
ghost use Rattle.reg_early.specs.Calendar.{IsDay};
ghost use Rattle.jiff.specs.Words.{epoch_day, IsBetween};

use crate::day::Day;
use jiff::ToSpan;
use jiff::civil::{Date, date};

/// The day's date.
pub(crate) fn date_on(day: Day) -> Date
    ensures number { epoch_day result ≡ pos day }
    ensures is_day { IsDay day }
{
    let since_2000 = i64::from(day.days() - 10957);
    date(2000, 1, 1).checked_add(since_2000.days()).unwrap()
}

/// The day of a date from 2000 on.
pub(crate) fn day_on(date: Date) -> Day
    requires { IsBetween (pos 10957) (pos 2932896) (epoch_day date) }
    ensures { epoch_day date ≡ pos result }
{
    let days = date.to_plain().to_unix_epoch_day();
    Day::from_days(days as u32).unwrap()
}
