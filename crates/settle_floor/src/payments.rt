//! Payments: each is booked by itself, and is given up at the end of the day.
ghost use Rattle.std.specs.Prelude.{◌≡◌, ◌≤◌, true, [], option_to_list};
ghost use Rattle.rule_book.specs.Answering.{has_accounts, HasMoves, IsAnswer};
ghost use Rattle.machine.specs.Orders.Hints.{unfinished};
ghost use Rattle.machine.specs.Making.Lines.{may_book};
ghost use Rattle.machine.specs.Records.Messages.{is_pay, sort_of};
ghost use Rattle.machine.specs.Stages.Pending.{is_pending, item, stands_on};
ghost use Rattle.machine.specs.Making.Reasons.{why_waits};
ghost use Rattle.settle_floor.specs.Payments.{transfer_move, why_kept, why_unpaid};

use commit_journal::{Code, Head, Kind, Move, MoveList, Want};
use rule_book::lines::head;
use rule_book::parts::item_move;
use rule_book::phases::{is_open, is_overdue};
use rule_book::reasons::why_waits;
use rule_book::{Desk, Item, Setting, Why};

// What a payment or a liquidity transfer moves.
fn transfer_move(setting: &Setting, n: u32) -> Option<Move>
    ensures { result ≡ transfer_move setting.now.day n }
{
    item_move(setting, n, 0)
}

// Why an open payment waits: another item stands before it on its debit account, or the account doesn't have its amount and what it
// must leave there.
fn why_payment_waits<D: Desk>(desk: &D, n: u32, payment: Move) -> Option<Why>
    requires pending { is_pending (D.day desk.now) (D.past desk.now) (item n 0) ≡ true }
    requires there { stands_on (D.day desk.now) payment.debit (item n 0) ≡ true }
    requires held { D.held desk.now payment.debit ≡ true }
    ensures { result ≡ why_waits (D.day desk.now) (D.past desk.now) (item n 0) payment.debit
        payment.amount }
{
    why_waits(
        desk,
        Item { msg: n, entry: 0 },
        payment.debit,
        payment.amount,
    )
}

// Why a payment isn't booked.
#[tactic(auto, unfolding(crate::specs::Payments::why_unpaid))]
fn why_unpaid<D: Desk>(desk: &D, n: u32) -> Option<Why>
    requires pay { is_pay (sort_of (D.day desk.now) n) ≡ true }
    requires held { has_accounts (D.held desk.now) (D.day desk.now) (Want.Book n 0) ≡ true }
    ensures { result ≡ why_unpaid (D.day desk.now) (D.past desk.now) n }
{
    if let Some(place) = desk.ended() {
        return Some(Why::Over { place });
    }
    if desk.taken(n).is_none() {
        return Some(Why::Untaken);
    }
    let phase = desk.phase(n);
    if !is_open(phase) {
        return Some(Why::Phase {
            phase,
            clock: desk.clock(),
        });
    }
    if let Some(place) = desk.booked(n, 0) {
        return Some(Why::Booked { place });
    }
    match transfer_move(desk.setting(), n) {
        Some(payment) => why_payment_waits(desk, n, payment),
        None => None,
    }
}

// Why it isn't given up.
#[tactic(auto, unfolding(crate::specs::Payments::why_kept))]
fn why_kept<D: Desk>(desk: &D, n: u32) -> Option<Why>
    ensures { result ≡ why_kept (D.day desk.now) (D.past desk.now) n }
{
    if let Some(place) = desk.ended() {
        return Some(Why::Over { place });
    }
    if desk.taken(n).is_none() {
        return Some(Why::Untaken);
    }
    let phase = desk.phase(n);
    if is_overdue(phase) {
        return None;
    }
    Some(Why::Phase {
        phase,
        clock: desk.clock(),
    })
}

/// Puts what a payment or a liquidity transfer moves at the end of an empty list.
pub(crate) fn push_transfer(setting: &Setting, n: u32, moves: &mut MoveList)
    requires empty { moves.old.moves ≡ [] }
    requires room { 1 ≤ moves.old.room }
    ensures moves { moves.new.moves ≡ option_to_list (transfer_move setting.now.day n) }
    ensures room { HasMoves moves.old moves.new }
{
    if let Some(payment) = transfer_move(setting, n) {
        moves.push(payment);
    }
}

/// Answers that payment n be booked: with its one move, or with the first reason why not. `Over`: the day has ended.
/// `Untaken`. `Phase`: it isn't open. `Blocked`: another item stands before it on its debit account. `Short`: that account,
/// whose balance is given in cents, doesn't have its amount and what it must leave there. With a reason `moves` is as before.
pub(crate) fn book<D: Desk>(desk: &D, n: u32, moves: &mut MoveList) -> Result<Head, Why>
    requires pay { is_pay (sort_of (D.day desk.now) n) ≡ true }
    requires held { has_accounts (D.held desk.now) (D.day desk.now) (Want.Book n 0) ≡ true }
    requires empty { moves.old.moves ≡ [] }
    requires room { 1 ≤ moves.old.room }
    ensures { IsAnswer (D.day desk.now) (D.past desk.now) (Want.Book n 0) moves.old moves.new
        result }
{
    match why_unpaid(desk, n) {
        Some(why) => Err(why),
        None => {
            push_transfer(desk.setting(), n, moves);
            Ok(head(Kind::Book, n, 0, Code::Ok))
        }
    }
}

/// Answers that payment n be given up, which moves nothing. The reasons why not: `Over`, `Untaken`, `Phase` (it isn't
/// overdue).
pub(crate) fn expire<D: Desk>(desk: &D, n: u32, moves: &mut MoveList) -> Result<Head, Why>
    requires pay { is_pay (sort_of (D.day desk.now) n) ≡ true }
    requires empty { moves.old.moves ≡ [] }
    ensures { IsAnswer (D.day desk.now) (D.past desk.now) (Want.Expire n) moves.old moves.new
        result }
{
    match why_kept(desk, n) {
        Some(why) => Err(why),
        None => Ok(head(Kind::Expire, n, 0, Code::Ed)),
    }
}

// ---- what is left of a payment

fn may_book<D: Desk>(desk: &D, n: u32) -> bool
    requires pay { is_pay (sort_of (D.day desk.now) n) ≡ true }
    requires held { has_accounts (D.held desk.now) (D.day desk.now) (Want.Book n 0) ≡ true }
    ensures { result ≡ may_book (D.day desk.now) (D.past desk.now) n 0 }
{
    if !is_open(desk.phase(n)) {
        return false;
    }
    match transfer_move(desk.setting(), n) {
        Some(payment) => why_payment_waits(desk, n, payment).is_none(),
        None => false,
    }
}

/// The want of payment n that has a line, unless the day is over: to be booked, or to be given up.
pub(crate) fn unfinished<D: Desk>(desk: &D, n: u32) -> Option<Want>
    requires pay { is_pay (sort_of (D.day desk.now) n) ≡ true }
    requires held { has_accounts (D.held desk.now) (D.day desk.now) (Want.Book n 0) ≡ true }
    ensures { result ≡ unfinished (D.day desk.now) (D.past desk.now) n }
{
    if may_book(desk, n) {
        return Some(Want::Book { msg: n, entry: 0 });
    }
    if is_overdue(desk.phase(n)) {
        return Some(Want::Expire { msg: n });
    }
    None
}
