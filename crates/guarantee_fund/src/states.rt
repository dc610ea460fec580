//! What every want is refused for first, and the answer yes.
ghost use Rattle.std.specs.Prelude.{◌≡◌};
ghost use Rattle.machine.specs.Making.Lines.{is_answered_yes};
ghost use Rattle.guarantee_fund.specs.Reasons.{not_due};

use rule_book::phases::is_answered;
use rule_book::sorts::is_a_or_b;
use rule_book::{Desk, Why};

/// Why nothing can be due for batch n, where it is due only in phases that pass: the day has ended, n is no batch of procedure
/// A or B, it isn't taken, or its phase doesn't pass.
pub(crate) fn why_not_due<D: Desk>(desk: &D, n: u32, passes: bool) -> Option<Why>
    ensures { result ≡ not_due (D.day desk.now) (D.past desk.now) n passes }
{
    if let Some(place) = desk.ended() {
        return Some(Why::Over { place });
    }
    if !is_a_or_b(desk.setting(), n) {
        return Some(Why::NoSuch);
    }
    if desk.taken(n).is_none() {
        return Some(Why::Untaken);
    }
    if !passes {
        return Some(Why::Phase {
            phase: desk.phase(n),
            clock: desk.clock(),
        });
    }
    None
}

/// Whether n is a batch of procedure A or B whose system has answered that the fund pays.
pub(crate) fn is_answered_yes<D: Desk>(desk: &D, n: u32) -> bool
    ensures { result ≡ is_answered_yes (D.day desk.now) (D.past desk.now) n }
{
    is_a_or_b(desk.setting(), n) && is_answered(desk.phase(n)) && desk.answered(n).unwrap_or(false)
}
