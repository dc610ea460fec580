//! What the definitions of this crate mean, each law the contract of a function that does nothing.

ghost use Rattle.std.specs.Prelude.{◌≡◌, ◌+◌, ◌<◌, ◌↔◌, ℕ, List, Some, None, Ok, decimal, is_some, length, true};
ghost use Rattle.cash_amounts.specs.AmountGrammar.{IsAmountText};
ghost use Rattle.batch_records.specs.Amounts.{cents_of};
ghost use Rattle.batch_records.specs.Codes.{first_code};
ghost use Rattle.batch_records.specs.CountText.{count_of};
ghost use Rattle.batch_records.specs.DayPart.{day_len};
ghost use Rattle.batch_records.specs.DayPartInWords.{HasEnd, IsFirstEnd};
ghost use Rattle.batch_records.specs.Days.{day_of_bytes};
ghost use Rattle.batch_records.specs.DayTexts.{day_text};
ghost use Rattle.batch_records.specs.Meets.{MeetsRules, is_typed, migrated};
ghost use Rattle.batch_records.specs.Records.{Fields};
ghost use Rattle.batch_records.specs.Repeats.{first_of_name, is_repeat};
ghost use Rattle.batch_records.specs.RepeatsInWords.{IsRepeatOf, IsRepeatOfFirst, earlier};
ghost use Rattle.batch_records.specs.Sound.{is_sound};
ghost use Rattle.batch_records.specs.DayRecord.{Day, no_room};
ghost use Rattle.batch_records.specs.Made.{day_on};
ghost use Rattle.batch_records.specs.Step.{IsInStep, after};
ghost use Rattle.batch_records.specs.Tallies.{States, day_after, is_behind_setup, late_code, tally_after, tally_of};
ghost use Rattle.batch_records.specs.declared.so_far.SoFar.{SoFar};
ghost use Rattle.batch_records.specs.declared.tally.Piece.{Piece};
ghost use Rattle.period_calendar.specs.Calendar.{CivilDay};
ghost use Rattle.record_rows.specs.Rows.{kept_row};

/// The amount of a field of a day is that of the grammar of amounts, and there is none where the field is no amount's text.
pub fn amounts_are_of_the_grammar()
    ensures { (text : List ℕ) (cents : ℕ) → (cents_of text ≡ Some cents) ↔ IsAmountText text cents }
{}

/// The count of a field is a number of at most seven digits, and the field's text is that number in decimal: a count has one
/// text, and no other text is a count.
pub fn counts_are_decimal_numbers()
    ensures { (text : List ℕ) (n : ℕ)
        → (count_of text ≡ Some n) ↔ ((text ≡ decimal n) × (n < 10000000)) }
{}

/// The day part of an input ends with the first line that is END and nothing else, with that line's end, and where there is
/// no such line it is the whole input.
pub fn days_end_with_the_first_end()
    ensures first { (input : List ℕ) (i n : ℕ) → IsFirstEnd input i n → day_len input ≡ i + n }
    ensures none { (input : List ℕ) → ((i n : ℕ) → HasEnd input i n → ⊥)
        → day_len input ≡ length input }
{}

/// A message is a repeat exactly where a message before it has its sender and its identification. It then has an
/// earlier one, which is the first of these.
pub fn repeats_have_an_earlier()
    ensures repeat { (day : Day) (n : ℕ) → is_some (earlier day n) ≡ is_repeat day n }
    ensures first { (day : Day) (n i : ℕ)
        → (earlier day n ≡ Some i) ↔ ((first_of_name day n ≡ Some i) × (i < n)) }
    ensures means { (day : Day) (n : ℕ)
        → (is_repeat day n ≡ true) ↔ ((i : ℕ) × IsRepeatOf day n i) }
    ensures least { (day : Day) (n i : ℕ) → (earlier day n ≡ Some i) ↔ IsRepeatOfFirst day n i }
{}

/// What `put_day` writes of a day that meets the rules is read as that day, and all of it belongs to it.
pub fn written_days_are_read_back()
    ensures { (day : Day) → MeetsRules day
        → day_of_bytes (day_text day) ≡ Ok (day, length (day_text day)) }
{}

/// A day of version 1 that meets the rules meets them in version 2 as well, where it states the same, and what `put_day` then
/// writes of it is read as that day. One of version 2 or 3 stays as it is.
pub fn days_migrate()
    ensures meets { (day : Day) → MeetsRules day → MeetsRules (migrated day) }
    ensures read { (day : Day) → MeetsRules day
        → day_of_bytes (day_text (migrated day))
        ≡ Ok (migrated day, length (day_text (migrated day))) }
{}

/// Every day that reading gives meets the rules.
pub fn read_days_meet_the_rules()
    ensures { (input : List ℕ) (day : Day) (len : ℕ) → day_of_bytes input ≡ Ok (day, len)
        → MeetsRules day }
{}

/// The days that meet the rules are the sound ones, among the values that a day's types can have, of days that promise no room.
pub fn sound_days_meet_the_rules()
    ensures { (day : Day) → is_typed day ≡ true → day.room ≡ no_room
        → (MeetsRules day ↔ (is_sound day ≡ true)) }
{}

/// A record is judged as what is kept of it by a reader without memory: of its first sixteen fields the first 64 bytes. They have
/// the same code, and a record that has none is kept whole.
#[tactic(auto, using(crate::proofs::CutCodes::kept_code, crate::proofs::CutWhole::fine_whole))]
pub fn cut_is_judged_alike()
    ensures judged { (s : SoFar) (r : Fields) → first_code s (kept_row r) ≡ first_code s r }
    ensures whole { (s : SoFar) (r : Fields) → first_code s r ≡ None → kept_row r ≡ r }
{}

/// A day that is under way is judged and taken by its numbers as after all its records: a record after the setup has the code
/// that `Tally::take` gives, and what it adds is what it adds to what the records before it come to, and to their day.
pub fn numbers_tell_what_records_come_to()
    ensures code { (s : SoFar) (r : Fields) → s.started ≡ true → is_behind_setup s r ≡ true
        → late_code (tally_of s) r ≡ first_code s r }
    ensures tally { (s : SoFar) (r : Fields) (piece : Piece) → IsInStep s
        → first_code s r ≡ None → States (tally_of s) r piece
        → tally_of (after s r) ≡ tally_after piece (tally_of s) }
    ensures day { (s : SoFar) (r : Fields) (piece : Piece) → IsInStep s
        → first_code s r ≡ None → States (tally_of s) r piece
        → (date : CivilDay) → day_on date (after s r) ≡ day_after piece (day_on date s) }
{}
