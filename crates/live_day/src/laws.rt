//! What the definitions of this crate mean, each law the contract of a function that does nothing.

ghost use Rattle.std.specs.Prelude.{◌≡◌, ◌<◌, ◌∷◌, ◌++◌, [], false, true, List, ℕ, length};
ghost use Rattle.batch_records.specs.DayRecord.{Day};
ghost use Rattle.batch_records.specs.declared.day.Message.{Message};
ghost use Rattle.commit_journal.specs.Line.{History};
ghost use Rattle.live_order.specs.Longer.{SpeaksOf, longer};
ghost use Rattle.batch_records.specs.Records.{Fields};
ghost use Rattle.live_order.specs.LiveOrder.{Over, events};
ghost use Rattle.live_records.specs.Fates.{IsFront};
ghost use Rattle.live_records.specs.Heard.{day_of, heard};
ghost use Rattle.program_answers.specs.Programs.{is_no_answer};
ghost use Rattle.live_day.specs.Answers.{is_settled_by, live_answer, longest_input, looked_at};
ghost use Rattle.live_day.specs.Events.{events_called};
ghost use Rattle.live_day.specs.Told.{told, told_behind};

/// The events of the accepted day are what its records call for, in their order, and its end.
#[tactic(auto, using(crate::proofs::EventFacts::calls_are))]
pub fn calls_are_events()
    ensures { (records : List Fields) → events (day_of (heard records))
        ≡ events_called 0 1 (heard records).calls ++ (Over ∷ []) }
{}

/// What the lines of a journal tell of a day's own messages they tell with a longer day too.
#[tactic(auto, using(crate::proofs::ToldFacts::behind_same))]
pub fn longer_days_are_told_the_same()
    ensures { (day : Day) (ms : List Message) (ss : List ℕ) (i : ℕ) (J : History)
        → SpeaksOf (length day.messages) J
        → told_behind (longer day ms ss) i J ≡ told_behind day i J }
{}

/// What is told of a run while more may come can be told piece by piece: what comes next adds to it until the answer is settled, and the
/// answer begins with it. Before any byte nothing is told, too many bytes settle the answer, and no answer has the status of a run that
/// ended otherwise.
pub fn answers_go_on_as_told()
    ensures adds { (front rest : List ℕ) → is_settled_by front ≡ false
        → IsFront (told (looked_at front)) (told (looked_at (front ++ rest))) }
    ensures begins { (input : List ℕ) → IsFront (told (looked_at input)) (live_answer input).text }
    ensures none { told (looked_at []) ≡ [] }
    ensures long { (input : List ℕ) → longest_input < length input → is_settled_by input ≡ true }
    ensures own_status { (input : List ℕ) → is_no_answer (live_answer input).status ≡ false }
{}
