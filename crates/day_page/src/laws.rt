//! What holds of the page of every journal.
ghost use Rattle.day_page.specs.Laws.{IdsArePlain, IsAbove, IsAboveAll, IsBelow, IsHighest, IsLowest, IsMost, NamesArePlain, SeriesEnds};

/// Names and identifications have no byte of the markup, so they can't break out of it.
pub fn names_are_plain()
    ensures names { NamesArePlain }
    ensures ids { IdsArePlain }
{}

/// The lowest balance is that of some beginning of the journal, and at none it was lower.
pub fn lowest_is_a_balance()
    ensures one { IsLowest }
    ensures least { IsBelow }
{}

/// The highest balance is that of some beginning of the journal, and at none it was higher.
pub fn highest_is_a_balance()
    ensures one { IsHighest }
    ensures most { IsAbove }
{}

/// The highest sum of what waits is that of some beginning of the journal, and at none more waited.
pub fn peak_is_a_sum()
    ensures one { IsMost }
    ensures most { IsAboveAll }
{}

/// A series ends at the balance that the journal has.
#[tactic(auto, using(crate::proofs::SeriesFacts::series_ends))]
pub fn series_end()
    ensures { SeriesEnds }
{}
