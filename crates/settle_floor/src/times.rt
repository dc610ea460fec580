//! Time: that the clock moves to the next stop, that the day ends, and what keeps it.
ghost use Rattle.std.specs.Prelude.{◌≡◌, true, []};
ghost use Rattle.std.specs.List.{list_all};
ghost use Rattle.commit_journal.specs.declared.line.Want.TheVariants as wants;
ghost use Rattle.rule_book.specs.Answering.{IsAnswer};
ghost use Rattle.machine.specs.Making.Reasons.{why_not_end, why_not_time};
ghost use Rattle.machine.specs.Records.Setup.{account_numbers};

use crate::desk::IndexedDesk;
use crate::ready::first_ready;
use commit_journal::{Code, Head, Kind, MoveList};
use period_calendar::MIDNIGHT;
use rule_book::Why;
use rule_book::lines::head;

#[tactic(auto, unfolding(machine::specs::Making::Reasons::why_not_time))]
fn why_not_passed<D: IndexedDesk>(desk: &D) -> Option<Why>
    requires all { list_all (D.held desk.now) (account_numbers (D.day desk.now)) ≡ true }
    ensures { result ≡ why_not_time (D.day desk.now) (D.past desk.now) }
{
    if let Some(place) = desk.ended() {
        return Some(Why::Over { place });
    }
    let clock = desk.clock();
    if clock >= MIDNIGHT {
        return Some(Why::Clock { clock });
    }
    if let Some(msg) = desk.untaken_reached() {
        return Some(Why::Left { msg });
    }
    match first_ready(desk) {
        Some(want) => Some(Why::Ready { want }),
        None => None,
    }
}

#[tactic(auto, unfolding(machine::specs::Making::Reasons::why_not_end))]
fn why_not_ended<D: IndexedDesk>(desk: &D) -> Option<Why>
    requires all { list_all (D.held desk.now) (account_numbers (D.day desk.now)) ≡ true }
    ensures { result ≡ why_not_end (D.day desk.now) (D.past desk.now) }
{
    if let Some(place) = desk.ended() {
        return Some(Why::Over { place });
    }
    let clock = desk.clock();
    if clock != MIDNIGHT {
        return Some(Why::Clock { clock });
    }
    match first_ready(desk) {
        Some(want) => Some(Why::Ready { want }),
        None => None,
    }
}

/// Answers that the clock move on to the next stop. Or why not, the first of these: `Over`, the day has ended; `Clock`, it is
/// midnight; `Left`, a message that stands after no stop still to come isn't taken; `Ready`, the first want that has a line. The
/// desk has the balances of all accounts. Nothing is moved: `moves` stays as it was.
pub(crate) fn pass_time<D: IndexedDesk>(desk: &D, moves: &mut MoveList) -> Result<Head, Why>
    requires all { list_all (D.held desk.now) (account_numbers (D.day desk.now)) ≡ true }
    requires empty { moves.old.moves ≡ [] }
    ensures { IsAnswer (D.day desk.now) (D.past desk.now) wants.Time moves.old moves.new result }
{
    match why_not_passed(desk) {
        Some(why) => Err(why),
        None => Ok(head(Kind::Time, 0, desk.next_stop(), Code::Ok)),
    }
}

/// Answers that the day end. The reasons why not: `Over`, `Clock` (it isn't midnight), `Ready`.
pub(crate) fn end_day<D: IndexedDesk>(desk: &D, moves: &mut MoveList) -> Result<Head, Why>
    requires all { list_all (D.held desk.now) (account_numbers (D.day desk.now)) ≡ true }
    requires empty { moves.old.moves ≡ [] }
    ensures { IsAnswer (D.day desk.now) (D.past desk.now) wants.End moves.old moves.new result }
{
    match why_not_ended(desk) {
        Some(why) => Err(why),
        None => Ok(head(Kind::End, 0, 0, Code::Ok)),
    }
}
