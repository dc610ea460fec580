//! What the fund pays for a batch.
ghost use Rattle.std.specs.Prelude.{◌≡◌, ◌≤◌, ◌<◌, ◌+◌, ◌&&◌, not, true, false, [], ◌∷◌, ◌++◌, length, map, nat_eq, if◌then◌else◌};
ghost use Rattle.commit_journal.specs.declared.line.Want.TheVariants as wants;
ghost use Rattle.rule_book.specs.Answering.{has_accounts, HasMoves};
ghost use Rattle.rule_book.specs.Moves.{goes_to};
ghost use Rattle.guarantee_fund.specs.Covering.{cover_by, covered_by};
ghost use Rattle.machine.specs.Making.Lines.{cover_of, covered_debit, debit_entries_by};
ghost use Rattle.machine.specs.Records.Messages.{credit_entries, debit_entries, entries, move_of};
ghost use Rattle.machine.specs.Stages.Phases.{is_booked};

use crate::needs::is_short;
use commit_journal::{Move, MoveList};
use rule_book::batches::{fund_account, goes_to, technical_account, technical_of};
use rule_book::lines::push_side;
use rule_book::parts::entry_moves;
use rule_book::{Desk, Setting};

// The move with which the fund pays for an entry that has this move: to the technical account, in place of the entry's debit account.
fn cover_by(setting: &Setting, n: u32, found: &Move) -> Move
    ensures { result ≡ cover_by setting.now.day n found.now }
{
    Move {
        debit: fund_account(setting, n),
        credit: technical_account(setting, n),
        amount: found.amount,
    }
}

// ---- procedure A

// Has the fund pay for entry k, which has this move, if it is an unbooked debit entry.
fn pay_for<D: Desk>(
    desk: &D,
    n: u32,
    k: u32,
    technical: Option<u32>,
    found: &Move,
    moves: &mut MoveList,
)
    requires room { 0 < moves.old.room }
    ensures moves { moves.new.moves
        ≡ moves.old.moves
        ++ (if goes_to technical found.now && not (is_booked (D.past desk.now) n k) then cover_by
        (D.day desk.now) n found.now ∷ [] else []) }
    ensures room { HasMoves moves.old moves.new }
    ensures one { length moves.new.moves ≤ length moves.old.moves + 1 }
{
    if goes_to(found, technical) && desk.booked(n, k).is_none() {
        moves.push(cover_by(desk.setting(), n, found));
    }
}

/// Has the fund pay for the unbooked debit entries of batch n, in their order.
pub(crate) fn pay_unbooked<D: Desk>(desk: &D, n: u32, moves: &mut MoveList)
    requires empty { moves.old.moves ≡ [] }
    requires room { length (entries (D.day desk.now) n) ≤ moves.old.room }
    ensures moves { moves.new.moves
        ≡ map (cover_of (D.day desk.now) n)
        (debit_entries_by (D.day desk.now) n (λ k. not (is_booked (D.past desk.now) n k))) }
    ensures room { HasMoves moves.old moves.new }
{
    let technical = technical_of(desk.setting(), n);
    let listed = entry_moves(desk.setting(), n);
    for (i, found) in listed.iter().enumerate() {
        pay_for(desk, n, i as u32 + 1, technical, found, moves);
    }
}

// ---- procedure B

// The move of a debit entry, which the fund pays where the debit account is short.
fn covered_by<D: Desk>(desk: &D, n: u32, found: &Move) -> Move
    requires { nat_eq found.now.debit 0 ≡ false → D.held desk.now found.now.debit ≡ true }
    ensures { result ≡ covered_by (D.day desk.now) (D.past desk.now) n found.now }
{
    if is_short(desk, n, found.debit) {
        cover_by(desk.setting(), n, found)
    } else {
        *found
    }
}

// Adds the move of an entry, if it is a debit entry.
fn push_debit<D: Desk>(desk: &D, n: u32, technical: Option<u32>, found: &Move, moves: &mut MoveList)
    requires held { nat_eq found.now.debit 0 ≡ false → D.held desk.now found.now.debit ≡ true }
    requires room { 0 < moves.old.room }
    ensures moves { moves.new.moves
        ≡ moves.old.moves
        ++ (if goes_to technical found.now then covered_by (D.day desk.now) (D.past desk.now) n
        found.now ∷ [] else []) }
    ensures room { HasMoves moves.old moves.new }
    ensures one { length moves.new.moves ≤ length moves.old.moves + 1 }
{
    if goes_to(found, technical) {
        moves.push(covered_by(desk, n, found));
    }
}

// Adds the moves of the debit entries, in their order.
fn push_debits<D: Desk>(desk: &D, n: u32, moves: &mut MoveList)
    requires held { has_accounts (D.held desk.now) (D.day desk.now) (wants.Cover n) ≡ true }
    requires empty { moves.old.moves ≡ [] }
    requires room { length (entries (D.day desk.now) n) ≤ moves.old.room }
    ensures moves { moves.new.moves
        ≡ map (covered_debit (D.day desk.now) (D.past desk.now) n)
        (debit_entries (D.day desk.now) n) }
    ensures room { HasMoves moves.old moves.new }
{
    let technical = technical_of(desk.setting(), n);
    let listed = entry_moves(desk.setting(), n);
    for found in listed {
        push_debit(desk, n, technical, found, moves);
    }
}

/// Books batch n as a whole, in the order of its entries but the debit entries first. The fund pays those debit entries whose
/// debit account holds less than all of them take from it.
pub(crate) fn settle_with_fund<D: Desk>(desk: &D, n: u32, moves: &mut MoveList)
    requires held { has_accounts (D.held desk.now) (D.day desk.now) (wants.Cover n) ≡ true }
    requires empty { moves.old.moves ≡ [] }
    requires room { length (entries (D.day desk.now) n) ≤ moves.old.room }
    ensures moves { moves.new.moves
        ≡ map (covered_debit (D.day desk.now) (D.past desk.now) n)
        (debit_entries (D.day desk.now) n)
        ++ map (move_of (D.day desk.now)) (credit_entries (D.day desk.now) n) }
    ensures room { HasMoves moves.old moves.new }
{
    push_debits(desk, n, moves);
    push_side(desk.setting(), n, false, moves);
}
