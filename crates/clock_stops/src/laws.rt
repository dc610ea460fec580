//! A law of what is kept, as the contract of a function without a body of its own.
ghost use Rattle.std.specs.Prelude.{◌∷◌, [], Bool, List, length};
ghost use Rattle.batch_records.specs.DayRecord.{Day};
ghost use Rattle.batch_records.specs.declared.day.Message.{Message};
ghost use Rattle.commit_journal.specs.Line.{History};
ghost use Rattle.live_order.specs.Longer.{SpeaksOf, longer};
ghost use Rattle.clock_stops.specs.Kept.{KeepsStops};

/// A message that comes changes no stop before it is taken.
pub fn message_stops_nothing()
    ensures { (day : Day) (m : Message) (J : History) (times : List Bool)
        → SpeaksOf (length day.messages) J → KeepsStops day J times
        → KeepsStops (longer day (m ∷ []) []) J times }
{}
