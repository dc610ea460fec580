//! What is answered on the wants of a fund.
ghost use Rattle.std.specs.Prelude.{◌≡◌, ◌≤◌, true, false, Some, [], length};
ghost use Rattle.commit_journal.specs.declared.line.Want.TheVariants as wants;
ghost use Rattle.rule_book.specs.Answering.{has_accounts, IsAnswer};
ghost use Rattle.machine.specs.Records.Messages.{entries, is_a_or_b, sort_of};
ghost use Rattle.machine.specs.Making.Reasons.{why_not_cover};
ghost use Rattle.machine.specs.Making.Wants.{message_of};
ghost use Rattle.guarantee_fund.specs.Wants.{is_of_fund};

use crate::asking::ask_due;
use crate::covering::{cover_a, cover_b};
use crate::refusing::refuse_due;
use commit_journal::{Head, MoveList, Want};
use rule_book::sorts::{is_a, is_b};
use rule_book::{Desk, Why};

// Why nothing is paid for a message that is no batch of procedure A or B.
fn no_batch<D: Desk>(desk: &D, n: u32) -> Why
    requires { is_a_or_b (sort_of (D.day desk.now) n) ≡ false }
    ensures { Some result ≡ why_not_cover (D.day desk.now) (D.past desk.now) n }
{
    match desk.ended() {
        Some(place) => Why::Over { place },
        None => Why::NoSuch,
    }
}

// Answers on the want to have the fund pay, of any message.
fn cover_due<D: Desk>(desk: &D, n: u32, moves: &mut MoveList) -> Result<Head, Why>
    requires held { has_accounts (D.held desk.now) (D.day desk.now) (wants.Cover n) ≡ true }
    requires empty { moves.old.moves ≡ [] }
    requires room { length (entries (D.day desk.now) n) ≤ moves.old.room }
    ensures { IsAnswer (D.day desk.now) (D.past desk.now) (wants.Cover n) moves.old moves.new
        result }
{
    let setting = desk.setting();
    if is_a(setting, n) {
        return cover_a(desk, n, moves);
    }
    if is_b(setting, n) {
        return cover_b(desk, n, moves);
    }
    Err(no_batch(desk, n))
}

/// The line of a want to ask a system whether its fund pays for a message, to have it pay, or to end the message because it
/// doesn't: its head, with its moves in the empty list. Or why there is none, and the list stays empty. `ask_due`, `cover_a`,
/// `cover_b` and `refuse_due` say when there is which; of a message that is no batch of procedure A or B there is no line, for
/// `Over` where the day has ended, else for `NoSuch`.
pub fn answer<D: Desk>(desk: &D, want: Want, moves: &mut MoveList) -> Result<Head, Why>
    requires want { is_of_fund want ≡ true }
    requires held { has_accounts (D.held desk.now) (D.day desk.now) want ≡ true }
    requires empty { moves.old.moves ≡ [] }
    requires room { length (entries (D.day desk.now) (message_of want)) ≤ moves.old.room }
    ensures { IsAnswer (D.day desk.now) (D.past desk.now) want moves.old moves.new result }
{
    match want {
        Want::Ask { msg } => ask_due(desk, msg),
        Want::Cover { msg } => cover_due(desk, msg, moves),
        Want::Refuse { msg } => refuse_due(desk, msg, moves),
        _ => unreachable!(),
    }
}
