//! What a batch still wants.
ghost use Rattle.std.specs.Prelude.{◌≡◌, true, None, IfSome};
ghost use Rattle.commit_journal.specs.declared.line.Want.TheVariants as wants;
ghost use Rattle.machine.specs.Records.Messages.{sort_of, is_a, item_numbers};
ghost use Rattle.rule_book.specs.Answering.{has_accounts};
ghost use Rattle.std.specs.List.{find};
ghost use Rattle.machine.specs.Making.Lines.{may_book};
ghost use Rattle.machine.specs.Orders.Hints.{unfinished};
ghost use Rattle.settlement_laws.specs.Unfinished.{IsFirstWithLine, NoneHasALine};
ghost use Rattle.proc_a.specs.Reasons.{next_want};

use crate::booking::may_book;
use cash_amounts::MessageNumber;
use commit_journal::Want;
use rule_book::Desk;
use rule_book::parts::entry_count;
use rule_book::reasons::may_expire;

fn first_bookable<D: Desk>(desk: &D, n: u32) -> Option<u32>
    requires batch { is_a (sort_of (D.day desk.now) n) ≡ true }
    requires held { has_accounts (D.held desk.now) (D.day desk.now) (wants.Expire n) ≡ true }
    ensures { result ≡ find (may_book (D.day desk.now) (D.past desk.now) n)
        (item_numbers (D.day desk.now) n) }
{
    (0..entry_count(desk.setting(), n) + 1).find(|k| may_book(desk, n, *k))
}

#[tactic(auto, unfolding(crate::specs::Reasons::next_want))]
fn next_want<D: Desk>(desk: &D, n: u32) -> Option<Want>
    requires batch { is_a (sort_of (D.day desk.now) n) ≡ true }
    requires held { has_accounts (D.held desk.now) (D.day desk.now) (wants.Expire n) ≡ true }
    ensures { result ≡ next_want (D.day desk.now) (D.past desk.now) n }
{
    if let Some(entry) = first_bookable(desk, n) {
        return Some(Want::Book { msg: n, entry });
    }
    if may_expire(desk, n) {
        return Some(Want::Expire { msg: n });
    }
    None
}

/// The first want of batch n of procedure A that has a line: to book an entry, by its number, or to let the batch expire. None
/// where no such want has one, as once the day has ended.
pub fn unfinished<D: Desk>(desk: &D, n: MessageNumber) -> Option<Want>
    requires batch { is_a (sort_of (D.day desk.now) n) ≡ true }
    requires held { has_accounts (D.held desk.now) (D.day desk.now) (wants.Expire n) ≡ true }
    ensures exact { result ≡ unfinished (D.day desk.now) (D.past desk.now) n }
    ensures first { IfSome result
        (λ want. IsFirstWithLine (D.day desk.now) (D.past desk.now) n want) }
    ensures none { result ≡ None → NoneHasALine (D.day desk.now) (D.past desk.now) n }
{
    next_want(desk, n)
}
