//! A law of what is kept, as the contract of a function without a body of its own.
ghost use Rattle.std.specs.Prelude.{List, ℕ, length};
ghost use Rattle.batch_records.specs.DayRecord.{Day};
ghost use Rattle.batch_records.specs.declared.day.Message.{Message};
ghost use Rattle.commit_journal.specs.Line.{History};
ghost use Rattle.live_order.specs.Longer.{SpeaksOf, longer};
ghost use Rattle.due_items.specs.Kept.{Due, HaveDue, KeepsDue};

/// What is kept of a day is kept of its messages, where more messages and stops follow.
pub fn what_follows_makes_nothing_due()
    ensures { (day : Day) (ms : List Message) (ss : List ℕ) (J : History) (due : Due)
        → SpeaksOf (length day.messages) J → KeepsDue day J due
        → HaveDue (longer day ms ss) (length day.messages) J due }
{}
