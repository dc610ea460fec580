//! The days of the civil calendar.
ghost use Rattle.std.specs.Prelude.{◌≡◌, ◌+◌, ◌-◌, ◌≤◌, pos, IsTrue};
ghost use Rattle.jiff.specs.Words.{monday_zero};
ghost use Rattle.period_calendar.specs.Calendar.{is_civil, days_of_months, weekday};
ghost use Rattle.period_calendar.specs.NextDay.{IsDayAfter};

use jiff::civil::{Date, Weekday, date};

fn signed_year(year: u16) -> i16
    requires { year ≤ 9999 }
    ensures { result ≡ pos year }
{
    year as i16
}

fn signed(number: u8) -> i8
    requires { number ≤ 99 }
    ensures { result ≡ pos number }
{
    number as i8
}

// Whether the calendar has the day.
#[tactic(auto, unfolding(crate::specs::Calendar::is_civil))]
pub(crate) fn is_civil_day(year: u16, month: u8, day: u8) -> bool
    requires year { year ≤ 9999 }
    requires month { month ≤ 99 }
    requires day { day ≤ 99 }
    ensures { result ≡ is_civil year month day }
{
    Date::new(signed_year(year), signed(month), signed(day)).is_ok()
}

// The day as a date.
#[tactic(auto, unfolding(crate::specs::Calendar::is_civil))]
fn civil_date(year: u16, month: u8, day: u8) -> Date
    requires civil { IsTrue (is_civil year month day) }
    requires last { year ≤ 9999 }
    ensures year { result.year ≡ pos year }
    ensures month { result.month ≡ month }
    ensures day { result.day ≡ day }
{
    date(signed_year(year), signed(month), signed(day))
}

pub(crate) fn weekday(year: u16, month: u8, day: u8) -> Weekday
    requires civil { IsTrue (is_civil year month day) }
    requires first { 2023 ≤ year }
    requires last { year ≤ 9999 }
    ensures { monday_zero result ≡ weekday year month day }
{
    civil_date(year, month, day).weekday()
}

// The place of a day in its year, from 1.
pub(crate) fn day_of_year(year: u16, month: u8, day: u8) -> u16
    requires civil { IsTrue (is_civil year month day) }
    requires last { year ≤ 9999 }
    ensures value { result ≡ days_of_months year (month - 1) + day }
    ensures bound { result ≤ 366 }
{
    civil_date(year, month, day).day_of_year() as u16
}

// The day that follows a day.
#[tactic(auto, unfolding(crate::specs::Calendar::is_civil))]
pub(crate) fn day_after(year: u16, month: u8, day: u8) -> (u16, u8, u8)
    requires civil { IsTrue (is_civil year month day) }
    requires last { year ≤ 2099 }
    ensures after { IsDayAfter (record { year = year; month = month; day = day })
        (record { year = result.0; month = result.1; day = result.2 }) }
    ensures from { year ≤ result.0 }
    ensures to { result.0 ≤ year + 1 }
{
    if is_civil_day(year, month, day + 1) {
        (year, month, day + 1)
    } else if month < 12 {
        (year, month + 1, 1)
    } else {
        (year + 1, 1, 1)
    }
}
