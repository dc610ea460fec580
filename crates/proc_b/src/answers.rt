//! What the procedure answers on a want.
ghost use Rattle.std.specs.Prelude.{◌≡◌, true, [], ◌≤◌, length};
ghost use Rattle.rule_book.specs.Answering.{IsAnswer, has_accounts};
ghost use Rattle.machine.specs.Records.Messages.{entries};
ghost use Rattle.machine.specs.Making.Wants.{message_of};
ghost use Rattle.proc_b.specs.Wants.{IsWantOfB};

use crate::booking::book;
use crate::ending::expire;
use commit_journal::{Head, MoveList, Want};
use rule_book::{Desk, Why};

/// What a batch of B has to say to a want of it: the head of the line that is made for the want now, with its moves in the
/// list, or why there is none, and then the list stays. It touches nothing else.
///
/// The line of `All` is there where the batch is open, on each debtor account no item stands before it and each debtor
/// account holds at least what the batch's debit entries take from it in all; what the batch brings to the account doesn't
/// count. It moves all debit entries and then all credit entries, in file order. The line of `Expire` is there where the
/// batch is overdue and the system can't be asked for its fund; it moves nothing.
///
/// Why there is no line, the first of these: `Over`, the day has ended; `Untaken`; `Phase`, the batch isn't open, or for
/// `Expire` isn't overdue. Then for `All`: `Blocked`, by the first blocker on the first debtor account that has one; `Short`,
/// the first debtor account that holds too little, with its balance in cents. For `Expire`: `Fund`, the account of the fund
/// for which the system may be asked.
pub fn answer<D: Desk>(desk: &D, want: Want, moves: &mut MoveList) -> Result<Head, Why>
    requires want { IsWantOfB (D.day desk.now) want }
    requires held { has_accounts (D.held desk.now) (D.day desk.now) want ≡ true }
    requires empty { moves.old.moves ≡ [] }
    requires room { length (entries (D.day desk.now) (message_of want)) ≤ moves.old.room }
    ensures { IsAnswer (D.day desk.now) (D.past desk.now) want moves.old moves.new result }
{
    match want {
        Want::All { msg } => book(desk, msg, moves),
        Want::Expire { msg } => expire(desk, msg),
        _ => unreachable!(),
    }
}
