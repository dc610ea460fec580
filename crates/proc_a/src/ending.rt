//! How a batch ends unsettled.
ghost use Rattle.std.specs.Prelude.{◌≡◌, ◌≤◌, true, [], length};
ghost use Rattle.commit_journal.specs.declared.line.Want.TheVariants as wants;
ghost use Rattle.machine.specs.Records.Messages.{sort_of, is_a, entries};
ghost use Rattle.rule_book.specs.Answering.{IsAnswer};

use commit_journal::{Code, Head, Kind, MoveList};
use rule_book::lines::{head, push_reversal};
use rule_book::reasons::why_not_expire;
use rule_book::{Desk, Why};

pub(crate) fn expire<D: Desk>(desk: &D, n: u32, moves: &mut MoveList) -> Result<Head, Why>
    requires batch { is_a (sort_of (D.day desk.now) n) ≡ true }
    requires empty { moves.old.moves ≡ [] }
    requires room { length (entries (D.day desk.now) n) ≤ moves.old.room }
    ensures { IsAnswer (D.day desk.now) (D.past desk.now) (wants.Expire n) moves.old moves.new
        result }
{
    match why_not_expire(desk, n) {
        Some(why) => Err(why),
        None => {
            push_reversal(desk, n, moves);
            Ok(head(Kind::Expire, n, 0, Code::Pe))
        }
    }
}
