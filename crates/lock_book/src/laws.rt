//! Laws of what steps tell, each as the contract of a function without a body of its own.
ghost use Rattle.std.specs.Prelude.{ℕ, ◌≡◌, ◌<◌, ◌≤◌, true, IsSome, length};
ghost use Rattle.batch_records.specs.DayRecord.{Day};
ghost use Rattle.batch_records.specs.Sound.{is_sound};
ghost use Rattle.commit_journal.specs.declared.line.Want.{Want};
ghost use Rattle.commit_journal.specs.Line.{History};
ghost use Rattle.commit_journal.specs.Histories.{Begins};
ghost use Rattle.machine.specs.Telling.History.{taken};
ghost use Rattle.machine.specs.Legal.{IsLegal};
ghost use Rattle.lock_book.specs.declared.counted.Stepped.{Stepped};
ghost use Rattle.lock_book.specs.Rounds.{AreTaken, tells_of_taken};
ghost use Rattle.lock_book.specs.Steps.{Tells};

/// A message whose In want was stepped is taken in what the pass has then seen, where the line was made, or the message was
/// taken already, or the day is over.
pub fn steps_tell_of_taken()
    ensures { (day : Day) (n : ℕ) (P K : History) (stepped : Stepped) → is_sound day ≡ true
        → IsLegal day K → 0 < n → n ≤ length day.messages → Tells day (Want.In n) P K stepped
        → tells_of_taken stepped ≡ true → IsSome (taken K n) }
{}

/// What is taken stays taken.
pub fn taken_stays()
    ensures message { (n : ℕ) (P K : History) → Begins P K → IsSome (taken P n)
        → IsSome (taken K n) }
    ensures rounds { (day : Day) (round : ℕ) (P K : History) → Begins P K → AreTaken day round P
        → AreTaken day round K }
{}
