//! What every complete journal of a trial comes to, as the contract of a function without a body of its own.
ghost use Rattle.std.specs.Prelude.{ℕ, ◌<◌, ◌≤◌, ◌^◌};
ghost use Rattle.machine.specs.Orders.Order.{plain};
ghost use Rattle.trial_day.specs.declared.day.TheConstants.{MAX_BATCHES};
ghost use Rattle.trial_day.specs.Trial.{generated};
ghost use Rattle.trial_day.specs.TrialLaws.{ComesToSummary, SummaryIsEveryJournals};

/// In every complete legal journal of the day of a trial, whatever the order of its lines, each batch is accepted and settled and
/// each entry is booked. So its lines, its moves and its balances are those of the summary, and the text that is made of it is the
/// summary. The journal of the written order is one.
pub fn summary_is_every_journals()
    ensures every { SummaryIsEveryJournals }
    ensures written { (seed batches : ℕ) → seed < 2 ^ 31 → 1 ≤ batches → batches ≤ MAX_BATCHES
        → ComesToSummary seed batches (plain (generated seed batches)) }
{}
