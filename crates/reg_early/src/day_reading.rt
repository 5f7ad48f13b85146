//! Days that are read from texts.
ghost use Rattle.std.specs.Prelude.{◌≡◌, ◌<◌, IfSome};
ghost use Rattle.reg_early.specs.DayReading.{day_at, midnight, pair, read_clock_day, read_day};

use crate::day::Day;
use jiff::civil::Date;

/// 3000-01-01, the first day after the years of the clock.
const CLOCK_DAYS: u32 = 376_200;

/// The day that is written as YYYY-MM-DD (RFC 3339, section 5.6), from 2000-01-01 to 9999-12-31.
#[tactic(auto, unfolding(crate::specs::DayReading::read_day))]
pub fn read_day(text: &[u8]) -> Option<Day>
    ensures { result ≡ read_day text.now }
{
    if text.len() != 10 || text[4] != b'-' || text[7] != b'-' {
        return None;
    }
    let century = pair(text[0], text[1])?;
    let year = pair(text[2], text[3])?;
    let month = pair(text[5], text[6])?;
    let day = pair(text[8], text[9])?;
    day_at(100 * century + year, month, day)
}

/// The day that is written so, where it is one of the years 2000 to 2999.
pub fn read_clock_day(text: &[u8]) -> Option<Day>
    ensures { result ≡ read_clock_day text.now }
{
    let day = read_day(text)?;
    if day.days() < CLOCK_DAYS {
        Some(day)
    } else {
        None
    }
}

// The number that two digits write.
fn pair(tens: u8, ones: u8) -> Option<u32>
    ensures value { result ≡ pair tens ones }
    ensures small { IfSome result (λ number. number < 100) }
{
    if !tens.is_ascii_digit() || !ones.is_ascii_digit() {
        return None;
    }
    Some(10 * u32::from(tens - b'0') + u32::from(ones - b'0'))
}

// The day of a date of the years 2000 to 9999, where the calendar has it.
fn day_at(year: u32, month: u32, day: u32) -> Option<Day>
    requires year { year < 10000 }
    requires month { month < 100 }
    requires day { day < 100 }
    ensures { result ≡ day_at year month day }
{
    if year < 2000 {
        return None;
    }
    let date = Date::new(year as i16, month as i8, day as i8).ok()?;
    Day::from_days(date.to_plain().to_unix_epoch_day().unsigned_abs())
}

/// The first moment of a day in UTC.
pub fn midnight(day: Day) -> u64
    ensures { result ≡ midnight day }
{
    u64::from(day.days()) * 86_400
}
