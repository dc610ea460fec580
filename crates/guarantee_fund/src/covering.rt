//! When the fund pays for a batch.
ghost use Rattle.std.specs.Prelude.{◌≡◌, ◌≤◌, ◌&&◌, not, true, [], length};
ghost use Rattle.commit_journal.specs.declared.line.Want.TheVariants as wants;
ghost use Rattle.rule_book.specs.Answering.{has_accounts, IsAnswer};
ghost use Rattle.machine.specs.Telling.Balances.{balance};
ghost use Rattle.machine.specs.Making.Lines.{fund_suffices, is_answered_yes, may_cover};
ghost use Rattle.machine.specs.Records.Messages.{entries, fund_account, is_a, is_b, sort_of};
ghost use Rattle.guarantee_fund.specs.Reasons.{why_not_paid};

use crate::needs::need;
use crate::payments::{pay_unbooked, settle_with_fund};
use crate::states::{is_answered_yes, why_not_due};
use cash_amounts::{Cents, MessageNumber};
use commit_journal::{Code, Head, Kind, MoveList};
use rule_book::batches::fund_account;
use rule_book::lines::head;
use rule_book::phases::is_answered;
use rule_book::{Desk, Why};

/// The balance of the fund account of an answered batch.
pub(crate) fn fund_balance<D: Desk>(desk: &D, n: u32) -> Cents
    requires held { has_accounts (D.held desk.now) (D.day desk.now) (wants.Cover n) ≡ true }
    requires answered { is_answered_yes (D.day desk.now) (D.past desk.now) n ≡ true }
    ensures { result ≡ balance (D.day desk.now) (D.past desk.now)
        (fund_account (D.day desk.now) n) }
{
    desk.balance(fund_account(desk.setting(), n))
}

/// Whether the fund holds what the batch needs.
pub(crate) fn fund_suffices<D: Desk>(desk: &D, n: u32) -> bool
    requires held { has_accounts (D.held desk.now) (D.day desk.now) (wants.Cover n) ≡ true }
    requires answered { is_answered_yes (D.day desk.now) (D.past desk.now) n ≡ true }
    ensures { result ≡ fund_suffices (D.day desk.now) (D.past desk.now) n }
{
    need(desk, n).get() <= fund_balance(desk, n).get()
}

/// Whether the system of batch n of procedure A or B has answered that the fund pays, and the fund holds what the batch needs:
/// then, unless the day is over, the fund pays.
pub fn may_cover<D: Desk>(desk: &D, n: MessageNumber) -> bool
    requires { has_accounts (D.held desk.now) (D.day desk.now) (wants.Cover n) ≡ true }
    ensures { result ≡ may_cover (D.day desk.now) (D.past desk.now) n }
{
    if !is_answered_yes(desk, n) {
        return false;
    }
    fund_suffices(desk, n)
}

/// Whether the system has answered that the fund pays, and the fund holds less than the batch needs.
pub(crate) fn falls_short<D: Desk>(desk: &D, n: u32) -> bool
    requires { has_accounts (D.held desk.now) (D.day desk.now) (wants.Cover n) ≡ true }
    ensures { result ≡ (is_answered_yes (D.day desk.now) (D.past desk.now) n
        && not (fund_suffices (D.day desk.now) (D.past desk.now) n)) }
{
    if !is_answered_yes(desk, n) {
        return false;
    }
    !fund_suffices(desk, n)
}

#[tactic(auto, unfolding(crate::specs::Reasons::why_not_paid))]
fn why_not_paid<D: Desk>(desk: &D, n: u32) -> Option<Why>
    requires { has_accounts (D.held desk.now) (D.day desk.now) (wants.Cover n) ≡ true }
    ensures { result ≡ why_not_paid (D.day desk.now) (D.past desk.now) n }
{
    if let Some(why) = why_not_due(desk, n, is_answered(desk.phase(n))) {
        return Some(why);
    }
    if !is_answered_yes(desk, n) {
        return Some(Why::Answer);
    }
    if !fund_suffices(desk, n) {
        return Some(Why::Short {
            account: fund_account(desk.setting(), n),
            balance: fund_balance(desk, n),
        });
    }
    None
}

/// The head of the line with which the fund pays for batch n of procedure A, with its moves in the empty list: each unbooked
/// debit entry, in order, from the fund to the technical account. Or why there is no such line, and the list stays empty. The
/// first of these: `Over`, the day has ended; `Untaken`; `Phase`, the batch isn't answered; `Answer`, the system answered that
/// the fund doesn't pay; `Short`, the fund holds less than `missing_a`, with its account and balance.
pub fn cover_a<D: Desk>(desk: &D, n: MessageNumber, moves: &mut MoveList) -> Result<Head, Why>
    requires batch { is_a (sort_of (D.day desk.now) n) ≡ true }
    requires held { has_accounts (D.held desk.now) (D.day desk.now) (wants.Cover n) ≡ true }
    requires empty { moves.old.moves ≡ [] }
    requires room { length (entries (D.day desk.now) n) ≤ moves.old.room }
    ensures { IsAnswer (D.day desk.now) (D.past desk.now) (wants.Cover n) moves.old moves.new
        result }
{
    match why_not_paid(desk, n) {
        Some(why) => Err(why),
        None => {
            pay_unbooked(desk, n, moves);
            Ok(head(Kind::Cover, n, 0, Code::Ok))
        }
    }
}

/// The head of the line with which batch n of procedure B is booked with the fund's help, with its moves in the empty list: all
/// debit entries and then all credit entries, in order, but a debit entry goes from the fund to the technical account where its
/// debit account holds less than the batch takes from it in all. Or why there is no such line, and the list stays empty: as of
/// `cover_a`, with `shortfall_b`.
pub fn cover_b<D: Desk>(desk: &D, n: MessageNumber, moves: &mut MoveList) -> Result<Head, Why>
    requires batch { is_b (sort_of (D.day desk.now) n) ≡ true }
    requires held { has_accounts (D.held desk.now) (D.day desk.now) (wants.Cover n) ≡ true }
    requires empty { moves.old.moves ≡ [] }
    requires room { length (entries (D.day desk.now) n) ≤ moves.old.room }
    ensures { IsAnswer (D.day desk.now) (D.past desk.now) (wants.Cover n) moves.old moves.new
        result }
{
    match why_not_paid(desk, n) {
        Some(why) => Err(why),
        None => {
            settle_with_fund(desk, n, moves);
            Ok(head(Kind::Cover, n, 0, Code::Ok))
        }
    }
}
