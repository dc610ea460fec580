//! When the fund doesn't pay for a batch, and how the batch then ends.
ghost use Rattle.std.specs.Prelude.{◌≡◌, ◌≤◌, ◌&&◌, true, [], length, unwrap_or};
ghost use Rattle.commit_journal.specs.declared.line.Code.TheVariants as line_codes;
ghost use Rattle.commit_journal.specs.declared.line.Want.TheVariants as wants;
ghost use Rattle.rule_book.specs.Answering.{has_accounts, IsAnswer};
ghost use Rattle.machine.specs.Making.Lines.{is_answered_no, is_unanswered, may_refuse, refusal};
ghost use Rattle.machine.specs.Records.Messages.{entries};
ghost use Rattle.guarantee_fund.specs.Reasons.{is_refusable, why_not_refused};

use crate::covering::{falls_short, fund_balance, may_cover};
use crate::needs::need;
use crate::states::why_not_due;
use cash_amounts::MessageNumber;
use commit_journal::{Code, Head, Kind, MoveList};
use period_calendar::MIDNIGHT;
use rule_book::lines::{head, push_reversal};
use rule_book::phases::{is_answered, is_asking};
use rule_book::sorts::is_a_or_b;
use rule_book::{Desk, Why};

// Whether the system of batch n has answered that the fund doesn't pay.
fn is_answered_no<D: Desk>(desk: &D, n: u32) -> bool
    ensures { result ≡ is_answered_no (D.day desk.now) (D.past desk.now) n }
{
    is_a_or_b(desk.setting(), n) && is_answered(desk.phase(n)) && !desk.answered(n).unwrap_or(false)
}

// Whether it hasn't answered by midnight.
fn is_unanswered<D: Desk>(desk: &D, n: u32) -> bool
    ensures { result ≡ is_unanswered (D.day desk.now) (D.past desk.now) n }
{
    is_a_or_b(desk.setting(), n) && is_asking(desk.phase(n)) && desk.clock() == MIDNIGHT
}

// The code with which the batch is refused, if it is.
fn refusal<D: Desk>(desk: &D, n: u32) -> Option<Code>
    requires { has_accounts (D.held desk.now) (D.day desk.now) (wants.Refuse n) ≡ true }
    ensures { result ≡ refusal (D.day desk.now) (D.past desk.now) n }
{
    if is_answered_no(desk, n) {
        return Some(Code::Gn);
    }
    if falls_short(desk, n) {
        return Some(Code::Gs);
    }
    if is_unanswered(desk, n) {
        return Some(Code::Ge);
    }
    None
}

/// Whether batch n of procedure A or B has to end, unless the day is over: its system has answered that the fund doesn't pay,
/// the fund holds less than the batch needs, or it is midnight and there is no answer.
pub fn may_refuse<D: Desk>(desk: &D, n: MessageNumber) -> bool
    requires { has_accounts (D.held desk.now) (D.day desk.now) (wants.Refuse n) ≡ true }
    ensures { result ≡ may_refuse (D.day desk.now) (D.past desk.now) n }
{
    refusal(desk, n).is_some()
}

// Whether the batch is in a phase in which it can be refused.
fn is_refusable<D: Desk>(desk: &D, n: u32) -> bool
    ensures { result ≡ is_refusable (D.day desk.now) (D.past desk.now) n }
{
    is_answered(desk.phase(n)) || is_asking(desk.phase(n)) && desk.clock() == MIDNIGHT
}

#[tactic(auto, unfolding(crate::specs::Reasons::why_not_refused))]
fn why_not_refused<D: Desk>(desk: &D, n: u32) -> Option<Why>
    requires { has_accounts (D.held desk.now) (D.day desk.now) (wants.Refuse n) ≡ true }
    ensures { result ≡ why_not_refused (D.day desk.now) (D.past desk.now) n }
{
    if let Some(why) = why_not_due(desk, n, is_refusable(desk, n)) {
        return Some(why);
    }
    if may_cover(desk, n) {
        return Some(Why::Enough {
            balance: fund_balance(desk, n),
            need: need(desk, n),
        });
    }
    None
}

// The code of the line with which the batch ends.
fn code_of<D: Desk>(desk: &D, n: u32) -> Code
    requires { has_accounts (D.held desk.now) (D.day desk.now) (wants.Refuse n) ≡ true }
    ensures { result ≡ unwrap_or (refusal (D.day desk.now) (D.past desk.now) n) line_codes.Ge }
{
    match refusal(desk, n) {
        Some(code) => code,
        None => Code::Ge,
    }
}

/// The head of the line with which batch n of procedure A or B ends because the fund doesn't pay, with its moves in the empty
/// list: of A each booked debit entry, in order, back from the technical account to its debit account; of B none. Its code says
/// why: `Gn`, the system answered that the fund doesn't pay; `Gs`, the fund holds less than the batch needs; `Ge`, it is
/// midnight and there is no answer. Or why there is no such line, and the list stays empty. The first of these: `Over`, the day
/// has ended; `NoSuch`, n is no batch of procedure A or B; `Untaken`; `Phase`, the batch is neither answered nor asking at
/// midnight; `Enough`, the system answered that the fund pays, and its balance is what the batch needs or more.
pub fn refuse_due<D: Desk>(desk: &D, n: MessageNumber, moves: &mut MoveList) -> Result<Head, Why>
    requires held { has_accounts (D.held desk.now) (D.day desk.now) (wants.Refuse n) ≡ true }
    requires empty { moves.old.moves ≡ [] }
    requires room { length (entries (D.day desk.now) n) ≤ moves.old.room }
    ensures { IsAnswer (D.day desk.now) (D.past desk.now) (wants.Refuse n) moves.old moves.new
        result }
{
    match why_not_refused(desk, n) {
        Some(why) => Err(why),
        None => {
            push_reversal(desk, n, moves);
            Ok(head(Kind::Refuse, n, 0, code_of(desk, n)))
        }
    }
}
