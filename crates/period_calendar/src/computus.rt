//! Easter Sunday.
ghost use Rattle.std.specs.Prelude.{◌≡◌, ◌<◌, ◌≤◌, IsTrue};
ghost use Rattle.period_calendar.specs.Calendar.{is_civil};
ghost use Rattle.period_calendar.specs.Easter.{full_moon, days_to_sunday, weeks_back, easter_place, easter_of};

// How many days after 21 March the full moon is.
#[tactic(auto, unfolding(crate::specs::Easter::full_moon))]
fn full_moon(year: u16) -> u16
    requires first { 2023 ≤ year }
    requires last { year ≤ 2099 }
    ensures value { result ≡ full_moon year }
    ensures month { result < 30 }
{
    let century = year / 100;
    let moon_drift = (century - (century + 8) / 25 + 1) / 3;
    (19 * (year % 19) + century - century / 4 - moon_drift + 15) % 30
}

// How many days after the day that follows the full moon the Sunday is.
#[tactic(auto, unfolding(crate::specs::Easter::days_to_sunday))]
fn days_to_sunday(year: u16) -> u16
    requires first { 2023 ≤ year }
    requires last { year ≤ 2099 }
    ensures value { result ≡ days_to_sunday year }
    ensures week { result < 7 }
{
    let century = year / 100;
    let rest = year % 100;
    (32 + 2 * (century % 4) + 2 * (rest / 4) - full_moon(year) - rest % 4) % 7
}

// How many weeks earlier Easter is where the moon would come too late.
#[tactic(auto, unfolding(crate::specs::Easter::weeks_back))]
fn weeks_back(year: u16) -> u16
    requires first { 2023 ≤ year }
    requires last { year ≤ 2099 }
    ensures { result ≡ weeks_back year }
{
    (year % 19 + 11 * full_moon(year) + 22 * days_to_sunday(year)) / 451
}

// The place of Easter Sunday in months of 31 days.
#[tactic(auto, unfolding(crate::specs::Easter::easter_place, crate::specs::Easter::weeks_back))]
fn easter_place(year: u16) -> u16
    requires first { 2023 ≤ year }
    requires last { year ≤ 2099 }
    ensures value { result ≡ easter_place year }
    ensures march_22 { 114 ≤ result }
    ensures april_26 { result ≤ 149 }
{
    full_moon(year) + days_to_sunday(year) + 114 - 7 * weeks_back(year)
}

/// The month and the day of Easter Sunday of a year from 2023 to 2099.
#[tactic(auto, unfolding(crate::specs::Calendar::is_civil))]
pub fn easter(year: u16) -> (u8, u8)
    requires first { 2023 ≤ year }
    requires last { year ≤ 2099 }
    ensures value { result ≡ easter_of year }
    ensures civil { IsTrue (is_civil year result.0 result.1) }
{
    let place = easter_place(year);
    ((place / 31) as u8, (place % 31 + 1) as u8)
}
