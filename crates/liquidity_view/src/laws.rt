//! What holds of the figures of every journal.
ghost use Rattle.liquidity_view.specs.Laws.{OthersHaveNone};

/// Of a name that owns no dedicated cash account all figures are 0.
#[tactic(auto, using(crate::proofs::Others::others_have_none))]
pub fn others_have_no_figures()
    ensures { OthersHaveNone }
{}
