//! When a system is asked whether its fund pays for a batch.
ghost use Rattle.std.specs.Prelude.{◌≡◌, Some, [], MatchResult};
ghost use Rattle.commit_journal.specs.declared.line.Want.TheVariants as wants;
ghost use Rattle.machine.specs.Making.Lines.{line_of};
ghost use Rattle.machine.specs.Making.Reasons.{why_of};
ghost use Rattle.guarantee_fund.specs.Reasons.{why_not_asked};

use crate::states::why_not_due;
use cash_amounts::MessageNumber;
use commit_journal::{Code, Head, Kind};
use period_calendar::MIDNIGHT;
use rule_book::batches::fund_of;
use rule_book::lines::head;
use rule_book::phases::is_overdue;
use rule_book::{Desk, Why};

#[tactic(auto, unfolding(crate::specs::Reasons::why_not_asked))]
fn why_not_asked<D: Desk>(desk: &D, n: u32) -> Option<Why>
    ensures { result ≡ why_not_asked (D.day desk.now) (D.past desk.now) n }
{
    if let Some(why) = why_not_due(desk, n, is_overdue(desk.phase(n))) {
        return Some(why);
    }
    if fund_of(desk.setting(), n).is_none() {
        return Some(Why::NoFund);
    }
    let clock = desk.clock();
    if clock >= MIDNIGHT {
        return Some(Why::Clock { clock });
    }
    None
}

/// The head of the line with which the system of batch n is asked whether its fund pays; the line moves nothing. Or why there
/// is no such line, the first of these: `Over`, the day has ended; `NoSuch`, n is no batch of procedure A or B; `Untaken`;
/// `Phase`, the batch isn't overdue; `NoFund`, its system has no fund account; `Clock`, it is midnight.
pub fn ask_due<D: Desk>(desk: &D, n: MessageNumber) -> Result<Head, Why>
    ensures { MatchResult result
        (λ head. line_of (D.day desk.now) (D.past desk.now) (wants.Ask n)
        ≡ Some (record { head = head; moves = [] }))
        (λ why. why_of (D.day desk.now) (D.past desk.now) (wants.Ask n) ≡ Some why) }
{
    match why_not_asked(desk, n) {
        Some(why) => Err(why),
        None => Ok(head(Kind::Ask, n, 0, Code::Ok)),
    }
}
