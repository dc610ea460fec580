//! What a batch still wants.
ghost use Rattle.std.specs.Prelude.{◌≡◌, true, None, IfSome};
ghost use Rattle.std.specs.List.{list_all};
ghost use Rattle.machine.specs.Making.Accounts.{accounts_of_message};
ghost use Rattle.machine.specs.Records.Messages.{is_b, sort_of};
ghost use Rattle.commit_journal.specs.declared.line.Want.TheVariants as wants;
ghost use Rattle.machine.specs.Orders.Hints.{unfinished};
ghost use Rattle.rule_book.specs.Answering.{has_accounts};
ghost use Rattle.settlement_laws.specs.Unfinished.{IsFirstWithLine, NoneHasALine};
ghost use Rattle.proc_b.specs.Reasons.{next_want};

use crate::booking::may_book;
use cash_amounts::MessageNumber;
use commit_journal::Want;
use rule_book::Desk;
use rule_book::reasons::may_expire;

#[tactic(auto, unfolding(crate::specs::Reasons::next_want))]
fn next_want<D: Desk>(desk: &D, n: u32) -> Option<Want>
    requires batch { is_b (sort_of (D.day desk.now) n) ≡ true }
    requires held { list_all (D.held desk.now) (accounts_of_message (D.day desk.now) n) ≡ true }
    ensures { result ≡ next_want (D.day desk.now) (D.past desk.now) n }
{
    if may_book(desk, n) {
        return Some(Want::All { msg: n });
    }
    if may_expire(desk, n) {
        return Some(Want::Expire { msg: n });
    }
    None
}

/// The want of a batch that has a line: to be booked as a whole, or to end. None where neither has one, as once the day has ended.
pub fn unfinished<D: Desk>(desk: &D, n: MessageNumber) -> Option<Want>
    requires batch { is_b (sort_of (D.day desk.now) n) ≡ true }
    requires held { has_accounts (D.held desk.now) (D.day desk.now) (wants.Expire n) ≡ true }
    ensures exact { result ≡ unfinished (D.day desk.now) (D.past desk.now) n }
    ensures first { IfSome result
        (λ want. IsFirstWithLine (D.day desk.now) (D.past desk.now) n want) }
    ensures none { result ≡ None → NoneHasALine (D.day desk.now) (D.past desk.now) n }
{
    next_want(desk, n)
}
