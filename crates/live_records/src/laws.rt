//! What the definitions of this crate mean, each law the contract of a function that does nothing.

ghost use Rattle.std.specs.Prelude.{ℕ, ◌≡◌, ◌≤◌, ◌+◌, ◌==◌, ◌&&◌, ◌∷◌, ◌++◌, [], if◌then◌else◌, false, true, Bool, List, length, map};
ghost use Rattle.std.specs.List.{list_any};
ghost use Rattle.batch_records.specs.DayPart.{begins_with, day_len};
ghost use Rattle.batch_records.specs.Days.{bad_records};
ghost use Rattle.batch_records.specs.Made.{is_day};
ghost use Rattle.batch_records.specs.Records.{Fields, day_records};
ghost use Rattle.batch_records.specs.Sound.{is_sound};
ghost use Rattle.batch_records.specs.declared.day.Message.{Message};
ghost use Rattle.record_rows.specs.Input.{place_of, rows_read};
ghost use Rattle.record_rows.specs.Lines.{line_of};
ghost use Rattle.record_rows.specs.Machine.{open_rows};
ghost use Rattle.record_rows.specs.declared.line.Line.TheVariants as lines;
ghost use Rattle.live_records.specs.Fates.{AreRecords, Continues, fates};
ghost use Rattle.live_records.specs.Heard.{day_of, fields_of, has_end, hear, heard, heard_in};
ghost use Rattle.live_records.specs.Rounds.{rounds_called, stops_called};
ghost use Rattle.live_records.specs.WholeRecords.{cut, has_ended, whole_records};

/// A reader that goes byte by byte sees the day part end: with the byte at which its line is `Over`, and the line feed after it,
/// where that byte is a carriage return. Where its line never is, the day part is the whole input. An input is cut after that byte.
pub fn day_parts_end_as_seen()
    ensures over { (front rest : List ℕ) (b : ℕ) → ¬ (line_of front ≡ lines.Over)
        → line_of (front ++ b ∷ []) ≡ lines.Over
        → day_len (front ++ b ∷ rest)
        ≡ length front + 1 + (if (b == 13) && begins_with 10 rest then 1 else 0) }
    ensures open { (input : List ℕ) → ¬ (line_of input ≡ lines.Over)
        → day_len input ≡ length input }
    ensures cut { (front rest : List ℕ) (b : ℕ) → ¬ (line_of front ≡ lines.Over)
        → line_of (front ++ b ∷ []) ≡ lines.Over → cut (front ++ b ∷ rest) ≡ front ++ b ∷ [] }
    ensures whole { (input : List ℕ) → ¬ (line_of input ≡ lines.Over) → cut input ≡ input }
{}

/// Who reads an input byte by byte has its whole records as they come, and hears one after the other: each with what became of those
/// before it. Where the input has ended with a line END, the record that is open there is whole as well.
pub fn records_are_heard_as_they_come()
    ensures one { (records : List Fields) (r : Fields)
        → heard (records ++ r ∷ []) ≡ hear (heard records) r }
    ensures read { (all : Bool) (input : List ℕ) → has_ended all (line_of input) ≡ false
        → whole_records all input ≡ rows_read input }
    ensures last { (all : Bool) (input : List ℕ) → has_ended all (line_of input) ≡ true
        → cut input ≡ input
        → whole_records all input ≡ rows_read input ++ open_rows (place_of input) }
{}

/// What becomes of records, and what they call for, stays as it is whatever follows: after more records, and after more bytes, of
/// which all may then have come.
pub fn fronts_stay()
    ensures records { (records more : List Fields) → Continues (heard records) (heard (records ++ more)) }
    ensures bytes { (front rest : List ℕ) (all : Bool)
        → Continues (heard_in false front) (heard_in all (front ++ rest)) }
{}

/// The accepted records by themselves have no code, and where the day has begun or END was accepted, the accepted day is sound.
pub fn accepted_days_are_sound()
    ensures fine { (records : List Fields) → bad_records (fields_of (heard records).accepted) ≡ [] }
    ensures sound { (records : List Fields)
        → list_any is_day (fields_of (heard records).accepted) ≡ true
        → is_sound (day_of (heard records)) ≡ true }
    ensures begun { (records : List Fields) → (heard records).begun ≡ true
        → list_any is_day (fields_of (heard records).accepted) ≡ true }
    ensures ended { (records : List Fields) → has_end (heard records) ≡ true
        → list_any is_day (fields_of (heard records).accepted) ≡ true }
{}

/// Of each record that is heard one thing is told: it is of the accepted day, or of the batch that is open, or of one that was refused,
/// or is told of by a line of its own. What is accepted stands in the order of its numbers, and each record is the one of its number.
/// Unless one ends the run, all records are heard.
pub fn each_record_is_told_once()
    ensures once { (records : List Fields) (n : ℕ) → 1 ≤ n → n ≤ (heard records).count
        → fates n (heard records) ≡ 1 }
    ensures none { (records : List Fields) → fates 0 (heard records) ≡ 0 }
    ensures beyond { (records : List Fields) (n : ℕ) → (heard records).count + 1 ≤ n
        → fates n (heard records) ≡ 0 }
    ensures own { (records : List Fields)
        → AreRecords records 0 ((heard records).accepted ++ (heard records).batch) }
    ensures all { (records : List Fields) → (heard records).broken ≡ false
        → (heard records).count ≡ length records }
    ensures few { (records : List Fields) → (heard records).count ≤ length records }
{}

/// What records call for is what the accepted day has: each of its messages is taken, after as many stops as stand before it in the
/// day, and each of its stops is reached.
pub fn calls_are_of_the_day()
    ensures rounds { (records : List Fields) → rounds_called 0 (heard records).calls
        ≡ map (λ (m : Message). m.round) (day_of (heard records)).messages }
    ensures stops { (records : List Fields) → stops_called (heard records).calls
        ≡ length (day_of (heard records)).stops }
{}
