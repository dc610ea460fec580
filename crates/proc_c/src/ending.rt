//! How a batch ends unsettled.
ghost use Rattle.std.specs.Prelude.{◌≡◌, true, []};
ghost use Rattle.machine.specs.Records.Messages.{BatchC, is_c, sort_of};
ghost use Rattle.machine.specs.Telling.History.{taken};
ghost use Rattle.machine.specs.Stages.Phases.{phase, is_overdue};
ghost use Rattle.machine.specs.Making.Lines.{expiry_code};
ghost use Rattle.rule_book.specs.Answering.{IsAnswer};
ghost use Rattle.proc_c.specs.Reasons.{has_ended_since};

use crate::acceptance::open_cycle;
use commit_journal::{Code, Head, Kind, MoveList, Want};
use rule_book::lines::head;
use rule_book::reasons::why_not_expire;
use rule_book::{Desk, Why};

// Whether a cycle has ended, by the places where the open one was started and the batch was taken: none starts while
// another is open, so the open cycle is that of the batch exactly where it was started before.
fn has_ended_since(start: Option<u32>, taken: Option<u32>) -> bool
    ensures { result ≡ has_ended_since start taken }
{
    match (start, taken) {
        (Some(start), Some(place)) => place < start,
        _ => true,
    }
}

// The code with which an overdue batch ends: its cycle is over, or the day is.
fn expiry_code<D: Desk>(desk: &D, n: u32) -> Code
    requires batch { is_c (sort_of (D.day desk.now) n) ≡ true }
    requires overdue { is_overdue (phase (D.day desk.now) (D.past desk.now) n) ≡ true }
    ensures { result ≡ expiry_code BatchC (D.day desk.now) (D.past desk.now) n }
{
    if has_ended_since(open_cycle(desk, n), desk.taken(n)) {
        Code::Ce
    } else {
        Code::Ed
    }
}

#[tactic(auto, using(crate::proofs::WantTables::expire_line_is, crate::proofs::WantTables::expires_overdue))]
pub(crate) fn expire<D: Desk>(desk: &D, n: u32, moves: &MoveList) -> Result<Head, Why>
    requires batch { is_c (sort_of (D.day desk.now) n) ≡ true }
    requires empty { moves.now.moves ≡ [] }
    ensures { IsAnswer (D.day desk.now) (D.past desk.now) (Want.Expire n) moves.now moves.now
        result }
{
    if let Some(why) = why_not_expire(desk, n) {
        return Err(why);
    }
    Ok(head(Kind::Expire, n, 0, expiry_code(desk, n)))
}
