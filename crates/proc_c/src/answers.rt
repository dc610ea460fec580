//! What the procedure answers on a want.
ghost use Rattle.std.specs.Prelude.{◌≡◌, true, [], ◌≤◌, length};
ghost use Rattle.machine.specs.Records.Messages.{entries};
ghost use Rattle.rule_book.specs.Answering.{IsAnswer, has_accounts};
ghost use Rattle.machine.specs.Making.Wants.{message_of};
ghost use Rattle.proc_c.specs.Wants.{IsWantOfC};

use crate::booking::book;
use crate::ending::expire;
use commit_journal::{Head, MoveList, Want};
use rule_book::{Desk, Why};

/// What procedure C answers on a want to book an entry of a batch, or to end a batch: the head of the line that the want
/// has, whose moves are then in the list; or the first reason why it has none, and the list stays empty. A booked entry
/// moves its amount; the end of a batch moves nothing, and what was booked of it stays. The code of its line is `Ce` where the
/// cycle of the batch has ended, else `Ed`.
///
/// The reasons, of which the first that applies is told. Book: `Over`, the day has ended; `NoSuch`, the batch has no such entry;
/// `Untaken`; `Phase`, it isn't open; `Booked`, the entry is; `Blocked`, another item stands before it on its debit account;
/// `Short`, that account, whose balance is given in cents, can't afford it. Expire: `Over`, `Untaken`, `Phase` (it isn't
/// overdue).
///
/// Takes a want of a batch of the procedure (the entry may be any number), an empty list with room for a move of each
/// entry, and a desk that has the balances of the accounts that the want may touch.
pub fn answer<D: Desk>(desk: &D, want: Want, moves: &mut MoveList) -> Result<Head, Why>
    requires want { IsWantOfC (D.day desk.now) want }
    requires held { has_accounts (D.held desk.now) (D.day desk.now) want ≡ true }
    requires empty { moves.old.moves ≡ [] }
    requires room { length (entries (D.day desk.now) (message_of want)) ≤ moves.old.room }
    ensures { IsAnswer (D.day desk.now) (D.past desk.now) want moves.old moves.new result }
{
    match want {
        Want::Book { msg, entry } => book(desk, msg, entry, moves),
        Want::Expire { msg } => expire(desk, msg, moves),
        _ => unreachable!(),
    }
}
