//! Moments as texts.
ghost use Rattle.std.specs.Prelude.{◌≡◌, ◌++◌, ◌<◌, string_bytes, IfOk, OnOk};
ghost use Rattle.reg_early.specs.DayText.{two_digits};
ghost use Rattle.reg_history.specs.Moment.{moment_text, time_text};

use reg_early::day::{day_of, day_text};
use std::alloc::{AllocError, Global};

/// The moment, in seconds since 1970-01-01T00:00:00Z, as `YYYY-MM-DDThh:mm:ssZ` (RFC 3339, section
/// 5.6); nothing outside the years 2000 to 2999. Only want of memory is an error.
pub fn moment_text(alloc: Global, moment: u64) -> Result<String, AllocError>
    ensures { IfOk result (λ text. string_bytes text ≡ moment_text moment) }
{
    let Some(day) = day_of(moment) else {
        return Ok(String::new(alloc));
    };
    let mut text = day_text(alloc, day)?;
    text.push_str("T")?;
    push_time(&mut text, moment % 86400)?;
    text.push_str("Z")?;
    Ok(text)
}

// Appends the time of a day, in seconds since it began.
fn push_time(text: &mut String, seconds: u64) -> Result<(), AllocError>
    requires { seconds < 86400 }
    ensures { OnOk result (string_bytes text.new ≡ string_bytes text.old ++ time_text seconds) }
{
    push_two_digits(text, seconds / 3600)?;
    text.push_str(":")?;
    push_two_digits(text, seconds / 60 % 60)?;
    text.push_str(":")?;
    push_two_digits(text, seconds % 60)
}

fn push_two_digits(text: &mut String, n: u64) -> Result<(), AllocError>
    requires { n < 100 }
    ensures { OnOk result (string_bytes text.new ≡ string_bytes text.old ++ two_digits n) }
{
    text.push(char::from((48 + n / 10) as u8))?;
    text.push(char::from((48 + n % 10) as u8))
}
