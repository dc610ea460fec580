//! The days on which TARGET is closed.
ghost use Rattle.std.specs.Prelude.{◌≡◌, ◌≤◌, IsTrue};
ghost use Rattle.period_calendar.specs.Calendar.{is_civil};
ghost use Rattle.period_calendar.specs.Closing.{is_closing, is_weekend, is_fixed_holiday, is_good_friday, is_easter_monday};

use crate::civil::{day_of_year, weekday};
use crate::computus::easter;
use jiff::civil::Weekday;

fn is_weekend(year: u16, month: u8, day: u8) -> bool
    requires civil { IsTrue (is_civil year month day) }
    requires first { 2023 ≤ year }
    requires last { year ≤ 2099 }
    ensures { result ≡ is_weekend year month day }
{
    matches!(
        weekday(year, month, day),
        Weekday::Saturday | Weekday::Sunday
    )
}

fn is_fixed_holiday(month: u8, day: u8) -> bool
    ensures { result ≡ is_fixed_holiday month day }
{
    matches!((month, day), (1, 1) | (5, 1) | (12, 25) | (12, 26))
}

fn is_good_friday(year: u16, month: u8, day: u8) -> bool
    requires civil { IsTrue (is_civil year month day) }
    requires first { 2023 ≤ year }
    requires last { year ≤ 2099 }
    ensures { result ≡ is_good_friday year month day }
{
    let (easter_month, easter_day) = easter(year);
    day_of_year(year, month, day) + 2 == day_of_year(year, easter_month, easter_day)
}

fn is_easter_monday(year: u16, month: u8, day: u8) -> bool
    requires civil { IsTrue (is_civil year month day) }
    requires first { 2023 ≤ year }
    requires last { year ≤ 2099 }
    ensures { result ≡ is_easter_monday year month day }
{
    let (easter_month, easter_day) = easter(year);
    day_of_year(year, month, day) == day_of_year(year, easter_month, easter_day) + 1
}

/// Whether TARGET is closed on a day of the years 2023 to 2099: on Saturdays and Sundays, 1 January, Good Friday,
/// Easter Monday, 1 May, 25 December and 26 December.
#[tactic(auto, unfolding(crate::specs::Closing::is_closing))]
pub fn is_closing_day(year: u16, month: u8, day: u8) -> bool
    requires civil { IsTrue (is_civil year month day) }
    requires first { 2023 ≤ year }
    requires last { year ≤ 2099 }
    ensures { result ≡ is_closing year month day }
{
    is_weekend(year, month, day)
        || is_fixed_holiday(month, day)
        || is_good_friday(year, month, day)
        || is_easter_monday(year, month, day)
}
