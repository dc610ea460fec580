//! What is answered on any want, whatever its numbers.
ghost use Rattle.std.specs.Prelude.{◌≡◌, ◌+◌, ◌≤◌, true, None, Some, [], ◌∷◌, length, OnErr};
ghost use Rattle.rule_book.specs.Answering.{has_accounts, IsAnswer};
ghost use Rattle.machine.specs.Making.Lines.{line_of};
ghost use Rattle.machine.specs.Records.Messages.{entries, is_pay, sort_of};
ghost use Rattle.machine.specs.Making.Reasons.{over};
ghost use Rattle.machine.specs.Words.{first_some};
ghost use Rattle.machine.specs.Making.Wants.{message_of};
ghost use Rattle.settle_floor.specs.Judging.{IsItemWant};
ghost use Rattle.settle_floor.specs.Taking.{IsNext};

use crate::desk::IndexedDesk;
use crate::payments;
use crate::sweeps::sweep;
use crate::taking::judge_in;
use crate::times::{end_day, pass_time};
use commit_journal::{Head, MoveList, Want};
use rule_book::sorts::{is_a, is_b, is_c, is_e, is_pay};
use rule_book::{Desk, Why};

// ---- wants that nothing has

// That the day has ended; else that there is no such item.
fn no_such<D: Desk>(desk: &D) -> Why
    ensures { Some result ≡ first_some (over (D.past desk.now) ∷ Some Why.NoSuch ∷ []) }
{
    match desk.ended() {
        Some(place) => Why::Over { place },
        None => Why::NoSuch,
    }
}

// ---- the wants

// Answers that a payment be booked; as entry 0, as it has no others.
fn judge_payment<D: Desk>(desk: &D, n: u32, k: u32, moves: &mut MoveList) -> Result<Head, Why>
    requires pay { is_pay (sort_of (D.day desk.now) n) ≡ true }
    requires held { has_accounts (D.held desk.now) (D.day desk.now) (Want.Book n k) ≡ true }
    requires empty { moves.old.moves ≡ [] }
    requires room { 1 ≤ moves.old.room }
    ensures { IsAnswer (D.day desk.now) (D.past desk.now) (Want.Book n k) moves.old moves.new
        result }
{
    if k == 0 {
        payments::book(desk, n, moves)
    } else {
        Err(no_such(desk))
    }
}

fn judge_book<D: Desk>(desk: &D, n: u32, k: u32, moves: &mut MoveList) -> Result<Head, Why>
    requires held { has_accounts (D.held desk.now) (D.day desk.now) (Want.Book n k) ≡ true }
    requires empty { moves.old.moves ≡ [] }
    requires room { 1 + length (entries (D.day desk.now) n) ≤ moves.old.room }
    ensures { IsAnswer (D.day desk.now) (D.past desk.now) (Want.Book n k) moves.old moves.new
        result }
{
    let setting = desk.setting();
    let want = Want::Book { msg: n, entry: k };
    if is_pay(setting, n) {
        return judge_payment(desk, n, k, moves);
    }
    if is_a(setting, n) {
        return proc_a::answer(desk, want, moves);
    }
    if is_c(setting, n) {
        return proc_c::answer(desk, want, moves);
    }
    if is_e(setting, n) {
        return proc_e::answer(desk, want, moves);
    }
    Err(no_such(desk))
}

fn judge_all<D: Desk>(desk: &D, n: u32, moves: &mut MoveList) -> Result<Head, Why>
    requires held { has_accounts (D.held desk.now) (D.day desk.now) (Want.All n) ≡ true }
    requires empty { moves.old.moves ≡ [] }
    requires room { 1 + length (entries (D.day desk.now) n) ≤ moves.old.room }
    ensures { IsAnswer (D.day desk.now) (D.past desk.now) (Want.All n) moves.old moves.new result }
{
    if is_b(desk.setting(), n) {
        return proc_b::answer(desk, Want::All { msg: n }, moves);
    }
    Err(no_such(desk))
}

fn judge_expire<D: Desk>(desk: &D, n: u32, moves: &mut MoveList) -> Result<Head, Why>
    requires held { has_accounts (D.held desk.now) (D.day desk.now) (Want.Expire n) ≡ true }
    requires empty { moves.old.moves ≡ [] }
    requires room { 1 + length (entries (D.day desk.now) n) ≤ moves.old.room }
    ensures { IsAnswer (D.day desk.now) (D.past desk.now) (Want.Expire n) moves.old moves.new
        result }
{
    let setting = desk.setting();
    let want = Want::Expire { msg: n };
    if is_pay(setting, n) {
        return payments::expire(desk, n, moves);
    }
    if is_a(setting, n) {
        return proc_a::answer(desk, want, moves);
    }
    if is_b(setting, n) {
        return proc_b::answer(desk, want, moves);
    }
    if is_c(setting, n) {
        return proc_c::answer(desk, want, moves);
    }
    if is_e(setting, n) {
        return proc_e::answer(desk, want, moves);
    }
    Err(no_such(desk))
}

/// Answers a want of an item: to book one, to settle a batch whole, to end a message, or one of a fund, of whatever numbers.
/// With the head of the want's line, whose moves are then in the empty list; or with the first reason why there is none, and the
/// list stays empty. `Over`: the day has ended. `NoSuch`: there is no such item, as entry 0 of a batch, or the message is none of
/// which this can be wanted. The procedures, `payments` and `guarantee_fund` have the other reasons.
pub(crate) fn judge_item<D: Desk>(desk: &D, want: Want, moves: &mut MoveList) -> Result<Head, Why>
    requires want { IsItemWant want }
    requires held { has_accounts (D.held desk.now) (D.day desk.now) want ≡ true }
    requires empty { moves.old.moves ≡ [] }
    requires room { 1 + length (entries (D.day desk.now) (message_of want)) ≤ moves.old.room }
    ensures { IsAnswer (D.day desk.now) (D.past desk.now) want moves.old moves.new result }
{
    match want {
        Want::Book { msg, entry } => judge_book(desk, msg, entry, moves),
        Want::All { msg } => judge_all(desk, msg, moves),
        Want::Expire { msg } => judge_expire(desk, msg, moves),
        Want::Ask { .. } | Want::Cover { .. } | Want::Refuse { .. } => {
            guarantee_fund::answer(desk, want, moves)
        }
        _ => unreachable!(),
    }
}

fn judge_any<D: IndexedDesk>(
    desk: &D,
    want: Want,
    is_next: bool,
    moves: &mut MoveList,
) -> Result<Head, Why>
    requires next { is_next ≡ true → IsNext (D.day desk.now) (D.past desk.now) want }
    requires held { has_accounts (D.held desk.now) (D.day desk.now) want ≡ true }
    requires empty { moves.old.moves ≡ [] }
    requires room { 1 + length (entries (D.day desk.now) (message_of want)) ≤ moves.old.room }
    ensures { IsAnswer (D.day desk.now) (D.past desk.now) want moves.old moves.new result }
{
    match want {
        Want::In { msg } => judge_in(desk, msg, is_next, moves),
        Want::Time => pass_time(desk, moves),
        Want::Sweep { account } => sweep(desk, account, moves),
        Want::End => end_day(desk, moves),
        Want::Book { .. }
        | Want::All { .. }
        | Want::Expire { .. }
        | Want::Ask { .. }
        | Want::Cover { .. }
        | Want::Refuse { .. } => judge_item(desk, want, moves),
    }
}

/// Answers any want: the head of its line, whose moves are then in the empty list; or the first reason why there is none, and then
/// the machine makes no line for it, and the list stays empty. The desk has the balances of the accounts that the line may touch, to
/// move the clock or to end the day those of all. `is_next` says that the earlier messages of the sender of one that is wanted to be
/// taken are known to be taken; they aren't looked for then.
#[tactic(auto, using(crate::proofs::Refusals::refused_none))]
pub fn judge<D: IndexedDesk>(
    desk: &D,
    want: Want,
    is_next: bool,
    moves: &mut MoveList,
) -> Result<Head, Why>
    requires next { is_next ≡ true → IsNext (D.day desk.now) (D.past desk.now) want }
    requires held { has_accounts (D.held desk.now) (D.day desk.now) want ≡ true }
    requires empty { moves.old.moves ≡ [] }
    requires room { 1 + length (entries (D.day desk.now) (message_of want)) ≤ moves.old.room }
    ensures answer { IsAnswer (D.day desk.now) (D.past desk.now) want moves.old moves.new result }
    ensures none { OnErr result (line_of (D.day desk.now) (D.past desk.now) want ≡ None) }
{
    judge_any(desk, want, is_next, moves)
}
