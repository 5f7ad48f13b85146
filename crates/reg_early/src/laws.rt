//! Laws of the calendar and of terms. Each function does nothing; what it ensures is the law.
ghost use Rattle.reg_early.specs.DayReading.{DaysReadBack};
ghost use Rattle.reg_early.specs.Laws.{DaysAreDates, CalendarIsJiffs, YearAfterIsTheSameDate, MomentsHaveDays, TermsHaveDays, StatusesFollowTheExpiry, EarlyTermsLastAYear, RenewalsLastAYear, SettledTermsAreForGood};

/// Each day from 2000-01-01 to 9999-12-31 has one date, and each date of these years is that of one
/// day.
pub fn days_and_dates_are_one_to_one()
    ensures { DaysAreDates }
{}

/// jiff has the same calendar on each of these days.
pub fn calendar_is_jiffs()
    ensures { CalendarIsJiffs }
{}

/// The text of a day is read as that day.
pub fn days_read_back()
    ensures { DaysReadBack }
{}

/// The year after a day is the same date of the next year. After 29 February comes 28 February, and
/// after each day of 9999 its last.
pub fn year_after_is_the_same_date()
    ensures { YearAfterIsTheSameDate }
{}

/// The UTC day of a moment in the years 2000 to 2999 is one of these days.
pub fn moments_have_days()
    ensures { MomentsHaveDays }
{}

/// Terms that begin and are renewed on these days keep to them.
pub fn terms_have_days()
    ensures { TermsHaveDays }
{}

/// An entry is Temporary on each day before its expiry, and on every day while it is held; else it is
/// Expired on that day and on each day after it; one without expiry is Assigned on every day.
pub fn statuses_follow_the_expiry()
    ensures { StatusesFollowTheExpiry }
{}

/// What is allocated early expires on the same date of the next year, or on 28 February for 29
/// February; what is assigned for good has no expiry.
pub fn early_terms_last_a_year()
    ensures { EarlyTermsLastAYear }
{}

/// A renewal before the expiry day runs to the same date a year after that day, and a later one to
/// that a year after its own day; all else of the term stays. What has no expiry is not renewed, nor
/// what was renewed before, unless by a minute of the IESG.
pub fn renewals_last_a_year()
    ensures { RenewalsLastAYear }
{}

/// What is settled has no expiry and is not held, and keeps all else; what has none is not settled.
pub fn settled_terms_are_for_good()
    ensures { SettledTermsAreForGood }
{}
