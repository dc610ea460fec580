//! What nets and the batches of positions keep, each law the contract of a function that does nothing.
ghost use Rattle.as_client.specs.NettingLaws.{BatchesBalance, BatchesFitTheirProcedure, BatchesStateTheirOwn, NetsSumToZero};
ghost use Rattle.as_client.specs.ViewLaws.{ViewsAgree};
ghost use Rattle.as_client.specs.TextLaws.{LegalStatusesFit, LinesAgree, OutputsAgree, TextsAgree};

/// The net positions of any trades sum to zero.
#[tactic(auto, using(crate::proofs::NetFacts::nets_sum_to_zero))]
pub fn nets_sum_to_zero()
    ensures { NetsSumToZero }
{}

/// The batch of positions states its own number of entries and their sum, and its debits and its credits have equal sums.
pub fn batches_balance()
    ensures { BatchesBalance }
{}

/// A message of a day that is the batch of some positions, none of them zero, is never refused for its number of entries or
/// for their sum: not after any lines, and not by the line with which a legal journal took it.
pub fn batches_state_their_own()
    ensures { BatchesStateTheirOwn }
{}

/// A message of a day that is the batch of positions for procedure A or B is never refused for a difference of its two sides
/// or for the form of an entry, not after any lines, and not by the line with which a legal journal took it, where the
/// accounts of the positions are dedicated cash accounts and the technical account is that of its sender for the procedure.
pub fn batches_fit_their_procedure()
    ensures { BatchesFitTheirProcedure }
{}

/// A party whose statuses come from a legal journal of a day that meets the rules refuses none of those addressed to it, and
/// knows by them alone what the journal tells: the balance of each account that it owns and the word of each message that it
/// sent, and so the same report.
pub fn views_agree()
    ensures { ViewsAgree }
{}

/// Each status of a legal journal of a day that meets the rules keeps to the grammar of its text, so it is read back from that text.
#[tactic(auto, using(crate::proofs::StatusFits::legal_statuses_fit))]
pub fn legal_statuses_fit()
    ensures { LegalStatusesFit }
{}

/// A party that takes the statuses among lines of text reports what the journal tells, and refuses none: over any lines whose
/// statuses are those of the journal, over the texts of its statuses between other texts of whole lines that hold none, and over
/// an output of the journal's lines, its statuses, the balances and the number of lines.
pub fn texts_agree()
    ensures lines { LinesAgree }
    ensures texts { TextsAgree }
    ensures outputs { OutputsAgree }
{}
