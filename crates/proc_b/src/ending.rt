//! How a batch ends unsettled.
ghost use Rattle.std.specs.Prelude.{◌≡◌, true, [], Some, MatchResult};
ghost use Rattle.machine.specs.Records.Messages.{is_b, sort_of};
ghost use Rattle.commit_journal.specs.declared.line.Want.TheVariants as wants;
ghost use Rattle.machine.specs.Making.Lines.{line_of};
ghost use Rattle.machine.specs.Making.Reasons.{why_of};

use commit_journal::{Code, Head, Kind};
use rule_book::lines::head;
use rule_book::reasons::why_not_expire;
use rule_book::{Desk, Why};

pub(crate) fn expire<D: Desk>(desk: &D, n: u32) -> Result<Head, Why>
    requires { is_b (sort_of (D.day desk.now) n) ≡ true }
    ensures { MatchResult result
        (λ head. line_of (D.day desk.now) (D.past desk.now) (wants.Expire n)
        ≡ Some (record { head = head; moves = [] }))
        (λ why. why_of (D.day desk.now) (D.past desk.now) (wants.Expire n) ≡ Some why) }
{
    match why_not_expire(desk, n) {
        Some(why) => Err(why),
        None => Ok(head(Kind::Expire, n, 0, Code::Pe)),
    }
}
