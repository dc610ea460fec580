//! Business dates.
ghost use Rattle.std.specs.Prelude.{◌≡◌, ◌≤◌, Ok, IfOk, IfSome, MatchOption};
ghost use Rattle.period_calendar.specs.Dates.{date_parts, date_of_text};
ghost use Rattle.period_calendar.specs.MomentTexts.{date_text};
ghost use Rattle.period_calendar.specs.NextDay.{IsLastOpen, IsNextOpen};

use crate::civil::{day_after, is_civil_day};
use crate::closing::is_closing_day;
use crate::digits::{four_digits, push_ascii, push_two_digits, two_digits};
use arrayvec::ArrayString;
use std::marker::Model;

/// Why a text is no business date.
#[derive(Clone, Copy, Debug, PartialEq, Eq)]
pub enum DateFault {
    /// It isn't four digits, `-`, two digits, `-`, two digits.
    Form,
    /// The calendar has no such day.
    NoSuchDay,
    /// The year isn't one of 2023 to 2099.
    Years,
    /// TARGET is closed on that day.
    Closed,
}

/// A day of the years 2023 to 2099 on which TARGET isn't closed.
/// Contracts see the year, the month and the day of the month.
#[derive(Clone, Copy, Debug, PartialEq, Eq)]
pub struct BusinessDate {
    year: u16,
    month: u8,
    day: u8,
}

impl Model for BusinessDate {
    ghost use Rattle.std.specs.Prelude.{IsTrue};
    ghost use Rattle.period_calendar.specs.Calendar.{CivilDay};
    ghost use Rattle.period_calendar.specs.Closing.{is_open};

    ghost Value = { CivilDay };

    ghost view = { λ date. record { year = date.year; month = date.month; day = date.day } };

    ghost invariant = { λ date. IsTrue (is_open date.year date.month date.day) };

    ghost inverse = { λ civil. record { year = civil.year; month = civil.month; day = civil.day } };
}

// The numbers of a text of the form of a date, whatever day they name.
#[tactic(auto, using(crate::proofs::DateLemmas::date_places))]
fn date_parts(text: &[u8]) -> Option<(u16, u8, u8)>
    ensures value { result ≡ date_parts text.now }
    ensures small { IfSome result (λ parts. (parts.0 ≤ 9999) × (parts.1 ≤ 99) × (parts.2 ≤ 99)) }
{
    if text.len() != 10 || text[4] != b'-' || text[7] != b'-' {
        return None;
    }
    let year = four_digits(text[0], text[1], text[2], text[3])?;
    let month = two_digits(text[5], text[6])?;
    let day = two_digits(text[8], text[9])?;
    Some((year, month, day))
}

impl BusinessDate {
    /// The business date of a text `YYYY-MM-DD`, or the first fault that applies to it.
    #[tactic(auto, unfolding(crate::specs::Dates::date_of_text, crate::specs::Closing::is_open))]
    pub fn read(text: &[u8]) -> Result<BusinessDate, DateFault>
        ensures value { result ≡ date_of_text text.now }
        ensures one_text { IfOk result (λ date. text.now ≡ date_text date) }
    {
        let Some((year, month, day)) = date_parts(text) else {
            return Err(DateFault::Form);
        };
        if !is_civil_day(year, month, day) {
            return Err(DateFault::NoSuchDay);
        }
        if year < 2023 || year > 2099 {
            return Err(DateFault::Years);
        }
        if is_closing_day(year, month, day) {
            return Err(DateFault::Closed);
        }
        Ok(BusinessDate { year, month, day })
    }

    /// The text `YYYY-MM-DD` of the date, from which `read` gives the date again.
    #[tactic(auto, using(crate::proofs::DateLemmas::date_text_reads))]
    pub fn put(self) -> ArrayString<10>
        ensures text { result.bytes ≡ date_text self }
        ensures reads_back { date_of_text result.bytes ≡ Ok self }
    {
        let mut text = ArrayString::new();
        push_two_digits(&mut text, u32::from(self.year / 100));
        push_two_digits(&mut text, u32::from(self.year));
        push_ascii(&mut text, b'-');
        push_two_digits(&mut text, u32::from(self.month));
        push_ascii(&mut text, b'-');
        push_two_digits(&mut text, u32::from(self.day));
        text
    }

    /// The year, from 2023 to 2099.
    #[tactic(auto, unfolding(crate::specs::Closing::is_open))]
    pub fn year(self) -> u16
        ensures value { result ≡ self.year }
        ensures from { 2023 ≤ result }
        ensures to { result ≤ 2099 }
    {
        self.year
    }

    /// The first later day of the years 2023 to 2099 on which TARGET isn't closed. None exactly where no later day of these
    /// years is such a day.
    #[tactic(auto, unfolding(crate::specs::Closing::is_open))]
    pub fn next(self) -> Option<BusinessDate>
        ensures { MatchOption result (IsLastOpen self) (λ next. IsNextOpen self next) }
    {
        let (mut year, mut month, mut day) = day_after(self.year, self.month, self.day);
        'days: while year <= 2099 {
            if !is_closing_day(year, month, day) {
                return Some(BusinessDate { year, month, day });
            }
            (year, month, day) = day_after(year, month, day);
        }
        None
    }
}
