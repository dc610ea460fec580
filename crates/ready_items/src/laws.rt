//! Laws of what is kept, each as the contract of a function without a body of its own.
ghost use Rattle.std.specs.Prelude.{ℕ, Bool, Option};
ghost use Rattle.batch_records.specs.DayRecord.{Day};
ghost use Rattle.commit_journal.specs.Line.{History};
ghost use Rattle.number_set.specs.Next.{IsNext};
ghost use Rattle.ready_items.specs.Goes.{ready_at};
ghost use Rattle.ready_items.specs.Kept.{IsRenewed, KeepsReady, Ready, is_member};
ghost use Rattle.ready_items.specs.Shows.{IsIdle, Shows};

/// Where each account has its candidate, the members show what is ready.
pub fn renewed_shows()
    ensures { (day : Day) (J : History) (v : Ready) → KeepsReady day J v → IsRenewed v
        → Shows (is_member v) (ready_at day J) v.at }
{}

/// What is shown by members is not ready before the next member, and not at all from the place on where there is none.
pub fn shown_is_next()
    ensures { (members ready : ℕ → Bool) (p : ℕ) (o : Option ℕ) → Shows members ready p
        → IsNext members p o → IsIdle ready p o }
{}
