//! Laws of a day to which a message or a stop comes in, as the contract of a function without a body of its own.
ghost use Rattle.std.specs.Prelude.{ℕ, ◌≤◌, ◌<◌, [], ◌∷◌, length};
ghost use Rattle.batch_records.specs.DayRecord.{Day};
ghost use Rattle.batch_records.specs.declared.day.Message.{Message};
ghost use Rattle.commit_journal.specs.Line.{History};
ghost use Rattle.machine.specs.Telling.History.{clock};
ghost use Rattle.live_order.specs.LiveOrder.{stop_at};
ghost use Rattle.live_order.specs.Longer.{GoesOn, longer};
ghost use Rattle.day_facts.specs.Arrivals.{next_number, with_one, with_row};
ghost use Rattle.day_facts.specs.Facts.{Facts, StandsFor};

/// Of a message that comes in after the others of its day the facts get a row, as no lines tell of it, and stay as they are besides; at a
/// stop that comes in nothing of them changes. The clock has not passed the stops that came before.
pub fn facts_grow_with_their_day()
    ensures message { (day : Day) (m : Message) (J : History) (facts : Facts)
        → GoesOn day (m ∷ []) [] → clock J ≤ stop_at day (length day.stops)
        → StandsFor day J facts
        → StandsFor (with_one day m) J (with_row (with_one day m) (next_number day) facts) }
    ensures stop { (day : Day) (t : ℕ) (J : History) (facts : Facts)
        → GoesOn day [] (t ∷ []) → clock J ≤ stop_at day (length day.stops) → clock J < t
        → StandsFor day J facts → StandsFor (longer day [] (t ∷ [])) J facts }
{}
