//! How a batch ends unsettled.
ghost use Rattle.std.specs.Prelude.{◌≡◌, true, []};
ghost use Rattle.machine.specs.Records.Messages.{is_e, sort_of};
ghost use Rattle.rule_book.specs.Answering.{IsAnswer};

use commit_journal::{Code, Head, Kind, MoveList, Want};
use rule_book::lines::head;
use rule_book::reasons::why_not_expire;
use rule_book::{Desk, Why};

pub(crate) fn expire<D: Desk>(desk: &D, n: u32, moves: &mut MoveList) -> Result<Head, Why>
    requires batch { is_e (sort_of (D.day desk.now) n) ≡ true }
    requires empty { moves.old.moves ≡ [] }
    ensures { IsAnswer (D.day desk.now) (D.past desk.now) (Want.Expire n) moves.old moves.new
        result }
{
    match why_not_expire(desk, n) {
        Some(why) => Err(why),
        None => Ok(head(Kind::Expire, n, 0, Code::Pe)),
    }
}
