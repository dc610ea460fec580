//! What a batch still wants.
ghost use Rattle.std.specs.Prelude.{◌≡◌, true, None, IfSome};
ghost use Rattle.machine.specs.Records.Messages.{is_e, sort_of, item_numbers};
ghost use Rattle.std.specs.List.{find};
ghost use Rattle.rule_book.specs.Answering.{has_accounts};
ghost use Rattle.machine.specs.Orders.Hints.{unfinished};
ghost use Rattle.machine.specs.Making.Lines.{may_book};
ghost use Rattle.settlement_laws.specs.Unfinished.{IsFirstWithLine, NoneHasALine};

use crate::booking::may_book;
use cash_amounts::MessageNumber;
use commit_journal::Want;
use rule_book::Desk;
use rule_book::parts::entry_count;
use rule_book::reasons::may_expire;

fn first_bookable<D: Desk>(desk: &D, n: u32) -> Option<u32>
    requires batch { is_e (sort_of (D.day desk.now) n) ≡ true }
    requires held { has_accounts (D.held desk.now) (D.day desk.now) (Want.Expire n) ≡ true }
    ensures { result ≡ find (may_book (D.day desk.now) (D.past desk.now) n)
        (item_numbers (D.day desk.now) n) }
{
    (0..entry_count(desk.setting(), n) + 1).find(|k| may_book(desk, n, *k))
}

fn next_want<D: Desk>(desk: &D, n: u32) -> Option<Want>
    requires batch { is_e (sort_of (D.day desk.now) n) ≡ true }
    requires held { has_accounts (D.held desk.now) (D.day desk.now) (Want.Expire n) ≡ true }
    ensures { result ≡ unfinished (D.day desk.now) (D.past desk.now) n }
{
    match first_bookable(desk, n) {
        Some(k) => Some(Want::Book { msg: n, entry: k }),
        None => {
            if may_expire(desk, n) {
                Some(Want::Expire { msg: n })
            } else {
                None
            }
        }
    }
}

/// The first want of batch n, of procedure E, that has a line: to book its first entry that has one, else to end the batch. None
/// where no such want has one, as once the day has ended. Takes a desk that has the accounts of Expire of the batch.
pub fn unfinished<D: Desk>(desk: &D, n: MessageNumber) -> Option<Want>
    requires batch { is_e (sort_of (D.day desk.now) n) ≡ true }
    requires held { has_accounts (D.held desk.now) (D.day desk.now) (Want.Expire n) ≡ true }
    ensures exact { result ≡ unfinished (D.day desk.now) (D.past desk.now) n }
    ensures first { IfSome result
        (λ want. IsFirstWithLine (D.day desk.now) (D.past desk.now) n want) }
    ensures none { result ≡ None → NoneHasALine (D.day desk.now) (D.past desk.now) n }
{
    next_want(desk, n)
}
