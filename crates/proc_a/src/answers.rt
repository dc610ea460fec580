//! What the procedure answers on a want.
ghost use Rattle.std.specs.Prelude.{◌≡◌, ◌≤◌, true, [], length};
ghost use Rattle.machine.specs.Records.Messages.{entries};
ghost use Rattle.rule_book.specs.Answering.{has_accounts, IsAnswer};
ghost use Rattle.machine.specs.Making.Wants.{message_of};
ghost use Rattle.proc_a.specs.Wants.{IsWantOfA};

use crate::booking::book;
use crate::ending::expire;
use commit_journal::{Head, MoveList, Want};
use rule_book::{Desk, Why};

/// The line of a want that speaks of a batch of procedure A: its head, with its moves in the empty list. Or why there is
/// none, and the list stays empty.
///
/// Book: a debit entry is booked while the batch is open, a credit entry once all debit entries are, or once the fund paid
/// what they lacked; each when no other item stands before it on its debit account, and the account affords it. The reasons,
/// of which the first that applies is told: Over, NoSuch (the batch has no such entry), Untaken, Phase (neither open nor
/// covered), Booked, Covered (a debit entry that the fund paid), Debits (a credit entry of an open batch: the first unbooked
/// debit entry), Blocked, Short (with the debit account's balance in cents).
///
/// Expire: an overdue batch ends, unless its system can be asked for its fund. The booked debit entries go back, in their
/// order, from the technical account to their debit accounts. The reasons: Over, Untaken, Phase (not overdue), Fund.
pub fn answer<D: Desk>(desk: &D, want: Want, moves: &mut MoveList) -> Result<Head, Why>
    requires want { IsWantOfA (D.day desk.now) want }
    requires held { has_accounts (D.held desk.now) (D.day desk.now) want ≡ true }
    requires empty { moves.old.moves ≡ [] }
    requires room { length (entries (D.day desk.now) (message_of want)) ≤ moves.old.room }
    ensures { IsAnswer (D.day desk.now) (D.past desk.now) want moves.old moves.new result }
{
    match want {
        Want::Book { msg, entry } => book(desk, msg, entry, moves),
        Want::Expire { msg } => expire(desk, msg, moves),
        _ => unreachable!(),
    }
}
