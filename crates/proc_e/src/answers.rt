//! What the procedure answers on a want.
ghost use Rattle.std.specs.Prelude.{◌≡◌, true, [], ◌≤◌, length};
ghost use Rattle.machine.specs.Records.Messages.{entries};
ghost use Rattle.rule_book.specs.Answering.{has_accounts, IsAnswer};
ghost use Rattle.machine.specs.Making.Wants.{message_of};
ghost use Rattle.proc_e.specs.Wants.{IsWantOfE};

use crate::booking::book;
use crate::ending::expire;
use commit_journal::{Head, MoveList, Want};
use rule_book::{Desk, Why};

/// The head of the line of a want to book entry k of a batch of procedure E, or to end the batch; or the first reason why
/// there is no line. `Over`: the day has ended. `NoSuch`: the batch has no such entry. `Untaken`: it isn't taken. `Phase`: it
/// isn't open, or to be ended it isn't overdue. `Booked`, `Revoked`: the entry is. `Blocked`: another item stands before it
/// on its debit account. `Short`: that account, whose balance is given in cents, can't afford it.
///
/// With a line that books, `moves` is left with the entry's one move. A line that ends the batch has none, as what was booked
/// stays booked. With a reason `moves` is as before.
pub fn answer<D: Desk>(desk: &D, want: Want, moves: &mut MoveList) -> Result<Head, Why>
    requires want { IsWantOfE (D.day desk.now) want }
    requires held { has_accounts (D.held desk.now) (D.day desk.now) want ≡ true }
    requires empty { moves.old.moves ≡ [] }
    requires room { length (entries (D.day desk.now) (message_of want)) ≤ moves.old.room }
    ensures { IsAnswer (D.day desk.now) (D.past desk.now) want moves.old moves.new result }
{
    match want {
        Want::Book { msg, entry } => book(desk, msg, entry, moves),
        Want::Expire { msg } => expire(desk, msg, moves),
        _ => unreachable!(),
    }
}
