//! The moment at which something is done, by a clock.
ghost use Rattle.std.specs.Prelude.{◌≡◌};
ghost use Rattle.reg_http.specs.Listening.{moment_by};
ghost use Rattle.reg_http.specs.Meeting.{ReadsMoment, TakesNext};

use std::time::{Clock, Duration};

/// A clock that may tell what it says.
pub trait Dates {
    ghost use Rattle.std.specs.Prelude.{List, Option, None};
    ghost use Rattle.std.specs.declared.time.Duration.{Duration as OfClock};

    /// What it says, in turn, where that is known; none where it fails.
    ghost readings: { Self → Option (List (Option OfClock)) } = { λ _. None };

    /// The time since 1970-01-01T00:00:00Z.
    fn read(&mut self) -> Option<Duration>
        ensures { TakesNext (readings self.old) (readings self.new) result };
}

/// The dates of a clock, of which nothing is known.
#[derive(Drop)]
pub struct ClockDates<'a, C: Clock> {
    /// The clock.
    pub clock: &'a C,
}

impl<C: Clock> Dates for ClockDates<'_, C> {
    fn read(&mut self) -> Option<Duration> {
        self.clock.since_1970().ok()
    }
}

/// The moment that a clock says, in seconds since 1970-01-01T00:00:00Z: whole seconds; 0 where it
/// fails, or stands before. It is read once.
pub fn moment_now<D: Dates>(dates: &mut D) -> u64
    ensures { ReadsMoment (D.readings dates.old) (D.readings dates.new) result }
{
    moment_by(dates.read())
}

// The moment by what a clock said.
fn moment_by(reading: Option<Duration>) -> u64
    ensures { result ≡ moment_by reading }
{
    let Some(time) = reading else {
        return 0;
    };
    time.as_secs()
}
