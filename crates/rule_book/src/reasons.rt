//! Why a want has no line, where several procedures ask the same.
ghost use Rattle.std.specs.Prelude.{◌≡◌, true};
ghost use Rattle.machine.specs.Making.Lines.{may_ask, may_expire};
ghost use Rattle.machine.specs.Records.Messages.{debit_account};
ghost use Rattle.machine.specs.Stages.Pending.{is_pending, item, stands_on};
ghost use Rattle.machine.specs.Making.Reasons.{why_not_expire, why_waits};

use crate::batches::{fund_account, fund_of};
use crate::desk::Desk;
use crate::parts::{debit_account_at, must_leave};
use crate::phases::is_overdue;
use crate::sorts::{is_a_or_b, may_lapse};
use batch_records::Entry;
use cash_amounts::{AccountNumber, Cents, EntryNumber, MessageNumber};
use machine::{Item, Why};
use period_calendar::MIDNIGHT;

// ---- Book

/// What keeps a pending item of this amount from being booked on one of its debit accounts: the foremost item that stands
/// before it there, or that the account holds less than the amount and what the item must leave there.
#[tactic(auto, unfolding(machine::specs::Making::Reasons::why_waits))]
pub fn why_waits<D: Desk>(
    desk: &D,
    item: Item,
    account: AccountNumber,
    amount: Cents,
) -> Option<Why>
    requires pending { is_pending (D.day desk.now) (D.past desk.now) item ≡ true }
    requires there { stands_on (D.day desk.now) account item ≡ true }
    requires held { D.held desk.now account ≡ true }
    ensures { result ≡ why_waits (D.day desk.now) (D.past desk.now) item account amount }
{
    if let Some(blocker) = desk.first_blocker(item, account) {
        return Some(Why::Blocked {
            account,
            msg: blocker.msg,
            entry: blocker.entry,
        });
    }
    let balance = desk.balance(account);
    if amount.get() + must_leave(desk.setting(), item.msg, account) <= balance.get() {
        None
    } else {
        Some(Why::Short { account, balance })
    }
}

/// What keeps the pending entry k of batch n from being booked, on its debit account.
pub fn why_entry_waits<D: Desk>(
    desk: &D,
    n: MessageNumber,
    k: EntryNumber,
    entry: &Entry,
) -> Option<Why>
    requires pending { is_pending (D.day desk.now) (D.past desk.now) (item n k) ≡ true }
    requires there { stands_on (D.day desk.now) (debit_account (D.day desk.now) entry.now)
        (item n k) ≡ true }
    requires held { D.held desk.now (debit_account (D.day desk.now) entry.now) ≡ true }
    ensures { result ≡ why_waits (D.day desk.now) (D.past desk.now) (item n k)
        (debit_account (D.day desk.now) entry.now) entry.now.amount }
{
    let account = debit_account_at(desk.setting(), n, k, entry);
    why_waits(desk, Item { msg: n, entry: k }, account, entry.amount)
}

// ---- Ask, Expire

/// Whether batch n of procedure A or B is overdue, its system has a fund account, and it is before midnight: then, unless the
/// day is over, the system can be asked.
pub fn may_ask<D: Desk>(desk: &D, n: MessageNumber) -> bool
    ensures { result ≡ may_ask (D.day desk.now) (D.past desk.now) n }
{
    let setting = desk.setting();
    is_a_or_b(setting, n)
        && is_overdue(desk.phase(n))
        && fund_of(setting, n).is_some()
        && desk.clock() < MIDNIGHT
}

/// Whether message n is a payment or a batch of procedure A, B, C or E, it is overdue, and its system can't be asked for its
/// fund: then, unless the day is over, it ends.
pub fn may_expire<D: Desk>(desk: &D, n: MessageNumber) -> bool
    ensures { result ≡ may_expire (D.day desk.now) (D.past desk.now) n }
{
    may_lapse(desk.setting(), n) && is_overdue(desk.phase(n)) && !may_ask(desk, n)
}

/// Why message n doesn't end now; None where it does. The first of these: `Over`, the day has ended; `NoSuch`, it is no payment
/// and no batch of procedure A, B, C or E; `Untaken`; `Phase`, it isn't overdue; `Fund`, its system can be asked for the fund
/// of this account.
#[tactic(auto, unfolding(machine::specs::Making::Reasons::why_not_expire))]
pub fn why_not_expire<D: Desk>(desk: &D, n: MessageNumber) -> Option<Why>
    ensures { result ≡ why_not_expire (D.day desk.now) (D.past desk.now) n }
{
    if let Some(place) = desk.ended() {
        return Some(Why::Over { place });
    }
    if !may_lapse(desk.setting(), n) {
        return Some(Why::NoSuch);
    }
    if desk.taken(n).is_none() {
        return Some(Why::Untaken);
    }
    let phase = desk.phase(n);
    if !is_overdue(phase) {
        return Some(Why::Phase {
            phase,
            clock: desk.clock(),
        });
    }
    if may_ask(desk, n) {
        return Some(Why::Fund {
            account: fund_account(desk.setting(), n),
        });
    }
    None
}
