//! What the status messages of lines keep, and a walk of a day that goes on, each as the contract of a function that does nothing.
ghost use Rattle.std.specs.Prelude.{ℕ, ◌<◌, [], ◌∷◌};
ghost use Rattle.batch_records.specs.DayRecord.{Day};
ghost use Rattle.commit_journal.specs.Line.{History};
ghost use Rattle.machine.specs.Telling.History.{clock};
ghost use Rattle.machine.specs.Legal.{IsLegal};
ghost use Rattle.live_order.specs.Longer.{longer};
ghost use Rattle.status_messages.specs.RejectedEntries.{EntriesOfDAreTold};
ghost use Rattle.status_messages.specs.Walks.{Stands, Walk};

/// A line of a legal journal that accepts a batch of procedure D moves those of its entries, in their order, that it doesn't
/// tell the system as rejected. So many are told that each entry is either moved or told, and none is told twice. An entry is told
/// exactly where its amount, with the amounts of the entries before it that aren't told, is above what the technical account held.
pub fn entries_of_d_are_told()
    ensures { EntriesOfDAreTold }
{}

/// A stop that comes in changes nothing of a walk: where the clock stands before it, and the lines that are told are legal for the day
/// with it, the walk stands for these lines and that day too.
pub fn stop_changes_no_walk()
    ensures { (day : Day) (t : ℕ) (J : History) (walk : Walk) → clock J < t
        → IsLegal (longer day [] (t ∷ [])) J → Stands day J walk
        → Stands (longer day [] (t ∷ [])) J walk }
{}
