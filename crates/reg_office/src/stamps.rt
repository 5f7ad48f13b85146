//! When a job does something that needs no token.
ghost use Rattle.std.specs.Prelude.{◌≡◌};
ghost use Rattle.reg_core.specs.Journal.{stamp_of_job};
ghost use Rattle.reg_office.specs.Stamps.{job_stamp};

use reg_core::journal::Stamp;
use reg_early::day::day_of;

/// At a moment, if there is one.
pub fn at(moment: Option<u64>) -> Stamp
    ensures { result ≡ stamp_of_job moment }
{
    Stamp { moment, by: None }
}

/// At this moment, where it is one of the years 2000 to 2999.
pub fn at_moment(moment: u64) -> Stamp
    ensures { result ≡ job_stamp moment }
{
    match day_of(moment) {
        Some(_) => at(Some(moment)),
        None => at(None),
    }
}
