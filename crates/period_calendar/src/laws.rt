//! What holds of the texts of all dates and times.
ghost use Rattle.std.specs.Prelude.{◌≡◌, ℕ, ◌≤◌, List, Ok, Some, IsTrue};
ghost use Rattle.period_calendar.specs.Calendar.{CivilDay};
ghost use Rattle.period_calendar.specs.Closing.{is_open};
ghost use Rattle.period_calendar.specs.Dates.{date_of_text};
ghost use Rattle.period_calendar.specs.MomentTexts.{date_text};
ghost use Rattle.period_calendar.specs.Times.{time_of_text};
ghost use Rattle.period_calendar.specs.MomentTexts.{time_text};
ghost use Rattle.period_calendar.specs.declared.time.TheConstants.{MIDNIGHT};

/// Each open day and each time of a day has exactly one text, and no other day or time is read.
pub fn one_text_each()
    ensures dates { (date : CivilDay) → IsTrue (is_open date.year date.month date.day)
        → date_of_text (date_text date) ≡ Ok date }
    ensures date_texts { (text : List ℕ) (date : CivilDay) → date_of_text text ≡ Ok date
        → (text ≡ date_text date) × IsTrue (is_open date.year date.month date.day) }
    ensures times { (seconds : ℕ) → seconds ≤ MIDNIGHT
        → time_of_text (time_text seconds) ≡ Some seconds }
    ensures time_texts { (text : List ℕ) (seconds : ℕ) → time_of_text text ≡ Some seconds
        → (text ≡ time_text seconds) × (seconds ≤ MIDNIGHT) }
{}
