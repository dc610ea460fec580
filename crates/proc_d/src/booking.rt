//! Which entries of a batch are booked as it is taken.
ghost use Rattle.std.specs.Prelude.{◌≡◌, ◌≤◌, ◌++◌, true, length, map};
ghost use Rattle.machine.specs.Records.Messages.{entries, is_d, move_of, sort_of, technical_account};
ghost use Rattle.machine.specs.Telling.Balances.{balance};
ghost use Rattle.machine.specs.Stages.Intake.{afforded_in_order, intake_code};
ghost use Rattle.rule_book.specs.Answering.{HasMoves, has_accounts};
ghost use Rattle.proc_d.specs.Booked.{afforded};

use commit_journal::{Code, Move, MoveList, Want};
use rule_book::batches::technical_of;
use rule_book::parts::entry_moves;
use rule_book::{Desk, Setting};

// What the technical account of a batch holds that is taken well.
pub(crate) fn available<D: Desk>(desk: &D, n: u32) -> u64
    requires batch { is_d (sort_of (D.day desk.now) n) ≡ true }
    requires held { has_accounts (D.held desk.now) (D.day desk.now) (Want.In n) ≡ true }
    requires well { intake_code (D.day desk.now) (D.past desk.now) n ≡ Code.Ok }
    ensures { result ≡ balance (D.day desk.now) (D.past desk.now)
        (technical_account (D.day desk.now) n) }
{
    match technical_of(desk.setting(), n) {
        Some(account) => desk.balance(account).get(),
        None => unreachable!(),
    }
}

// Adds each of these moves in turn that what is left covers.
fn book_moves(listed: &[Move], mut available: u64, moves: &mut MoveList)
    requires { length listed.now ≤ moves.old.room }
    ensures moves { moves.new.moves ≡ moves.old.moves ++ afforded available listed.now }
    ensures room { HasMoves moves.old moves.new }
{
    for found in listed {
        let amount = found.amount.get();
        if amount <= available {
            available -= amount;
            moves.push(*found);
        }
    }
}

// Books each entry of batch n in turn that what is left covers.
pub(crate) fn book(setting: &Setting, n: u32, available: u64, moves: &mut MoveList)
    requires { length (entries setting.now.day n) ≤ moves.old.room }
    ensures moves { moves.new.moves
        ≡ moves.old.moves
        ++ map (move_of setting.now.day)
        (afforded_in_order available (entries setting.now.day n)) }
    ensures room { HasMoves moves.old moves.new }
{
    book_moves(entry_moves(setting, n), available, moves);
}
