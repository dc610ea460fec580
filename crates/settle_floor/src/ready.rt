//! The want of an item, and the first want that is ready.
ghost use Rattle.std.specs.Prelude.{◌≡◌, ◌<◌, false, true};
ghost use Rattle.std.specs.List.{find, list_all};
ghost use Rattle.rule_book.specs.Answering.{has_accounts};
ghost use Rattle.machine.specs.Orders.Hints.{unfinished};
ghost use Rattle.machine.specs.Making.Lines.{is_ready_item, is_ready_message, item_want, may_book, may_sweep, message_want};
ghost use Rattle.machine.specs.Making.FirstReady.{first_ready, first_ready_item};
ghost use Rattle.machine.specs.Records.Messages.{message_numbers};
ghost use Rattle.machine.specs.Stages.Pending.{item};
ghost use Rattle.machine.specs.Records.Setup.{account_numbers};
ghost use Rattle.scan_laws.specs.Numbers.{IsItem};
ghost use Rattle.due_items.specs.Due.{is_due};
ghost use Rattle.settle_floor.specs.Ready.{ready_in};

use crate::desk::IndexedDesk;
use crate::payments;
use crate::sweeps::may_sweep;
use commit_journal::Want;
use guarantee_fund::{may_ask, may_cover, may_refuse};
use period_calendar::MIDNIGHT;
use rule_book::parts::{account_count, entry_move};
use rule_book::phases::is_overdue;
use rule_book::reasons::why_waits;
use rule_book::sorts::{is_a, is_b, is_c, is_e, is_pay, may_lapse};
use rule_book::{Desk, Item, Phase};

// ---- the want of an item

fn overdue_want<D: Desk>(desk: &D, n: u32) -> Want
    ensures { result ≡ message_want (D.day desk.now) (D.past desk.now) n Phase.Overdue }
{
    if may_ask(desk, n) {
        Want::Ask { msg: n }
    } else {
        Want::Expire { msg: n }
    }
}

fn answered_want<D: Desk>(desk: &D, n: u32) -> Want
    requires { has_accounts (D.held desk.now) (D.day desk.now) (Want.Cover n) ≡ true }
    ensures { result ≡ message_want (D.day desk.now) (D.past desk.now) n Phase.Answered }
{
    if may_cover(desk, n) {
        Want::Cover { msg: n }
    } else {
        Want::Refuse { msg: n }
    }
}

fn open_want<D: Desk>(desk: &D, n: u32) -> Want
    ensures { result ≡ message_want (D.day desk.now) (D.past desk.now) n Phase.Open }
{
    if is_b(desk.setting(), n) {
        Want::All { msg: n }
    } else {
        Want::Book { msg: n, entry: 0 }
    }
}

fn message_want<D: Desk>(desk: &D, n: u32, phase: Phase) -> Want
    requires { has_accounts (D.held desk.now) (D.day desk.now) (Want.Cover n) ≡ true }
    ensures { result ≡ message_want (D.day desk.now) (D.past desk.now) n phase }
{
    match phase {
        Phase::Overdue => overdue_want(desk, n),
        Phase::Answered => answered_want(desk, n),
        Phase::Asking => Want::Refuse { msg: n },
        _ => open_want(desk, n),
    }
}

/// The only want of item (n, k) that can have a line now: of an entry that it be booked; of a message as a whole what its phase
/// asks for.
///
/// The desk has the balances of the message's accounts.
pub(crate) fn item_want<D: Desk>(desk: &D, n: u32, k: u32) -> Want
    requires { has_accounts (D.held desk.now) (D.day desk.now) (Want.Cover n) ≡ true }
    ensures { result ≡ item_want (D.day desk.now) (D.past desk.now) n k }
{
    if k == 0 {
        message_want(desk, n, desk.phase(n))
    } else {
        Want::Book { msg: n, entry: k }
    }
}

// ---- what is ready of a message

fn unfinished<D: Desk>(desk: &D, n: u32) -> Option<Want>
    requires all { list_all (D.held desk.now) (account_numbers (D.day desk.now)) ≡ true }
    ensures { result ≡ unfinished (D.day desk.now) (D.past desk.now) n }
{
    let setting = desk.setting();
    if is_pay(setting, n) {
        return payments::unfinished(desk, n);
    }
    if is_a(setting, n) {
        return proc_a::unfinished(desk, n);
    }
    if is_b(setting, n) {
        return proc_b::unfinished(desk, n);
    }
    if is_c(setting, n) {
        return proc_c::unfinished(desk, n);
    }
    if is_e(setting, n) {
        return proc_e::unfinished(desk, n);
    }
    None
}

fn ready_overdue<D: Desk>(desk: &D, n: u32) -> Option<Want>
    ensures { result ≡ ready_in (D.day desk.now) (D.past desk.now) n Phase.Overdue }
{
    if may_ask(desk, n) {
        return Some(Want::Ask { msg: n });
    }
    if may_lapse(desk.setting(), n) && is_overdue(desk.phase(n)) {
        return Some(Want::Expire { msg: n });
    }
    None
}

fn ready_answered<D: Desk>(desk: &D, n: u32) -> Option<Want>
    requires all { list_all (D.held desk.now) (account_numbers (D.day desk.now)) ≡ true }
    ensures { result ≡ ready_in (D.day desk.now) (D.past desk.now) n Phase.Answered }
{
    if may_cover(desk, n) {
        return Some(Want::Cover { msg: n });
    }
    ready_asking(desk, n)
}

fn ready_asking<D: Desk>(desk: &D, n: u32) -> Option<Want>
    requires all { list_all (D.held desk.now) (account_numbers (D.day desk.now)) ≡ true }
    ensures { result ≡ ready_in (D.day desk.now) (D.past desk.now) n Phase.Asking }
{
    if may_refuse(desk, n) {
        Some(Want::Refuse { msg: n })
    } else {
        None
    }
}

fn ready_in_phase<D: Desk>(desk: &D, n: u32, phase: Phase) -> Option<Want>
    requires all { list_all (D.held desk.now) (account_numbers (D.day desk.now)) ≡ true }
    ensures { result ≡ ready_in (D.day desk.now) (D.past desk.now) n phase }
{
    match phase {
        Phase::Overdue => ready_overdue(desk, n),
        Phase::Answered => ready_answered(desk, n),
        Phase::Asking => ready_asking(desk, n),
        Phase::Open | Phase::Covered => unfinished(desk, n),
        _ => None,
    }
}

// The first want of an item of message n that is ready.
fn ready_of<D: Desk>(desk: &D, n: u32) -> Option<Want>
    requires all { list_all (D.held desk.now) (account_numbers (D.day desk.now)) ≡ true }
    ensures { result ≡ first_ready_item (D.day desk.now) (D.past desk.now) n }
{
    ready_in_phase(desk, n, desk.phase(n))
}

// ---- of the day

fn is_ready_message<D: Desk>(desk: &D, n: u32) -> bool
    requires all { list_all (D.held desk.now) (account_numbers (D.day desk.now)) ≡ true }
    ensures { result ≡ is_ready_message (D.day desk.now) (D.past desk.now) n }
{
    ready_of(desk, n).is_some()
}

// Whether entry k of message n, which is due, is booked now.
fn is_ready_entry<D: Desk>(desk: &D, n: u32, k: u32) -> bool
    requires entry { 0 < k }
    requires due { is_due (D.day desk.now) (D.past desk.now) (item n k) ≡ true }
    requires all { list_all (D.held desk.now) (account_numbers (D.day desk.now)) ≡ true }
    ensures { result ≡ may_book (D.day desk.now) (D.past desk.now) n k }
{
    let item = Item { msg: n, entry: k };
    match entry_move(desk.setting(), n, k) {
        Some(part) => why_waits(desk, item, part.debit, part.amount).is_none(),
        None => false,
    }
}

// Whether an item that is due is ready; of a message as a whole, whether anything of it is.
fn is_ready_item<D: Desk>(desk: &D, item: Item) -> bool
    requires item { IsItem (D.day desk.now) item.msg item.entry }
    requires due { is_due (D.day desk.now) (D.past desk.now) item ≡ true }
    requires all { list_all (D.held desk.now) (account_numbers (D.day desk.now)) ≡ true }
    ensures ready { result ≡ true
        → is_ready_message (D.day desk.now) (D.past desk.now) item.msg ≡ true }
    ensures rests { result ≡ false
        → is_ready_item (D.day desk.now) (D.past desk.now) item.msg item.entry ≡ false }
{
    if item.entry == 0 {
        return is_ready_message(desk, item.msg);
    }
    is_ready_entry(desk, item.msg, item.entry)
}

// Goes from one item that is due to the next: no other is ready.
fn first_due_message<D: IndexedDesk>(desk: &D) -> Option<u32>
    requires all { list_all (D.held desk.now) (account_numbers (D.day desk.now)) ≡ true }
    ensures { result ≡ find (is_ready_message (D.day desk.now) (D.past desk.now))
        (message_numbers (D.day desk.now)) }
{
    let mut from = 0;
    'items: loop {
        match desk.next_due(from) {
            Some(number) => {
                let item = desk.item(number);
                if is_ready_item(desk, item) {
                    return Some(item.msg);
                }
                from = number + 1;
            }
            None => return None,
        }
    }
}

// After a scan that made nothing it is known that nothing is ready.
fn first_message<D: IndexedDesk>(desk: &D) -> Option<u32>
    requires all { list_all (D.held desk.now) (account_numbers (D.day desk.now)) ≡ true }
    ensures { result ≡ find (is_ready_message (D.day desk.now) (D.past desk.now))
        (message_numbers (D.day desk.now)) }
{
    if desk.is_at_rest() {
        return None;
    }
    first_due_message(desk)
}

fn is_ready_account<D: Desk>(desk: &D, a: u32) -> bool
    requires all { list_all (D.held desk.now) (account_numbers (D.day desk.now)) ≡ true }
    ensures { result ≡ may_sweep (D.day desk.now) (D.past desk.now) a }
{
    may_sweep(desk, a)
}

fn first_swept<D: Desk>(desk: &D) -> Option<u32>
    requires all { list_all (D.held desk.now) (account_numbers (D.day desk.now)) ≡ true }
    ensures { result ≡ find (may_sweep (D.day desk.now) (D.past desk.now))
        (account_numbers (D.day desk.now)) }
{
    (1..account_count(desk.setting()) + 1).find(|a| is_ready_account(desk, *a))
}

// Before midnight no account is swept.
fn first_account<D: Desk>(desk: &D) -> Option<u32>
    requires all { list_all (D.held desk.now) (account_numbers (D.day desk.now)) ≡ true }
    ensures { result ≡ find (may_sweep (D.day desk.now) (D.past desk.now))
        (account_numbers (D.day desk.now)) }
{
    if desk.clock() != MIDNIGHT {
        return None;
    }
    first_swept(desk)
}

/// The first want that is ready, did the day go on: by message and by entry, then the sweeps by account. The desk has the
/// balances of all accounts.
#[tactic(auto, unfolding(machine::specs::Making::FirstReady::first_ready))]
pub(crate) fn first_ready<D: IndexedDesk>(desk: &D) -> Option<Want>
    requires all { list_all (D.held desk.now) (account_numbers (D.day desk.now)) ≡ true }
    ensures { result ≡ first_ready (D.day desk.now) (D.past desk.now) }
{
    match first_message(desk) {
        Some(n) => ready_of(desk, n),
        None => match first_account(desk) {
            Some(account) => Some(Want::Sweep { account }),
            None => None,
        },
    }
}
