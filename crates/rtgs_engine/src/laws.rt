//! What the text of an output says by itself, each law the contract of a function that does nothing.
ghost use Rattle.rtgs_engine.specs.OutputLaws.{OutputsTell, ViewsOfOutputs};

/// Two lists of lines whose outputs over a day are the same text are one list: of any day, and of lines that are legal or
/// not, as long as their numbers are below 2^64. Every line in hand keeps that.
#[tactic(auto, using(crate::proofs::OneJournal::outputs_tell))]
pub fn one_journal_each()
    ensures { OutputsTell }
{}

/// Of a day that meets the rules and a legal journal of it, complete or not, each party learns from the text of the output
/// alone what the journal says of it: its view of the text's lines is never refused, and is the report over the journal.
#[tactic(auto, using(crate::proofs::OutputViews::views_of_outputs))]
pub fn views_of_outputs()
    ensures { ViewsOfOutputs }
{}
