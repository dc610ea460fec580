//! What the bytes of a store tell.
ghost use Rattle.durable_day.specs.StoreLaws.{FrontsAreFound, ClosedFrontsStand, OneJournalEach, StepsSurvive, RunsSurvive, DaysGoOn, NoneIsTakenAgain};

/// Some bytes begin with the lines of one longest legal journal of the day. They stand for a legal journal exactly where a closed
/// gate stands after these lines, and then for this one and no other.
pub fn one_journal_each()
    ensures found { FrontsAreFound }
    ensures stands { ClosedFrontsStand }
    ensures no_other { OneJournalEach }
{}

/// What a crash within a step may leave is opened as the journal as it was, or with the line of the want; what one within `go_on` may
/// leave, as a legal journal on the way to the end.
pub fn crashes_are_survived()
    ensures steps { StepsSurvive }
    ensures runs { RunsSurvive }
{}

/// From every legal journal of a sound day the day goes on to a complete one. A message that is taken is not taken again.
pub fn days_go_on()
    ensures complete { DaysGoOn }
    ensures once { NoneIsTakenAgain }
{}
