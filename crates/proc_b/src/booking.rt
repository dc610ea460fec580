//! What keeps a batch from being booked as a whole, and the line of All.
ghost use Rattle.std.specs.Prelude.{◌≡◌, true, option_map, [], ◌≤◌, length};
ghost use Rattle.std.specs.List.{find, list_all};
ghost use Rattle.machine.specs.Making.Accounts.{accounts_of_message};
ghost use Rattle.machine.specs.Making.Lines.{is_short_debtor};
ghost use Rattle.machine.specs.Records.Messages.{entries, is_b, sort_of};
ghost use Rattle.machine.specs.Stages.Pending.{debtors, is_pending, item, stands_on};
ghost use Rattle.machine.specs.Stages.Phases.{is_open, phase};
ghost use Rattle.machine.specs.Making.Reasons.{blocked, blocked_on, short};
ghost use Rattle.proc_b.specs.Reasons.{blocked_for, why_waits_b, short_for, may_book_b, why_not_book_b};
ghost use Rattle.commit_journal.specs.declared.line.Want.TheVariants as wants;
ghost use Rattle.rule_book.specs.Answering.{IsAnswer};
ghost use Rattle.rule_book.specs.Moves.{goes_to};

use commit_journal::{Code, Head, Kind, Move, MoveList};
use rule_book::batches::{goes_to, is_short_debtor, technical_of};
use rule_book::lines::{head, push_side};
use rule_book::parts::entry_moves;
use rule_book::phases::is_open;
use rule_book::{Desk, Item, Why};

// The first blocker of the batch on an account on which it stands.
fn blocked<D: Desk>(desk: &D, n: u32, a: u32) -> Option<Why>
    requires pending { is_pending (D.day desk.now) (D.past desk.now) (item n 0) ≡ true }
    requires there { stands_on (D.day desk.now) a (item n 0) ≡ true }
    ensures { result ≡ blocked (D.day desk.now) (D.past desk.now) (item n 0) a }
{
    match desk.first_blocker(Item { msg: n, entry: 0 }, a) {
        Some(blocker) => Some(Why::Blocked {
            account: a,
            msg: blocker.msg,
            entry: blocker.entry,
        }),
        None => None,
    }
}

// The first blocker on the debtor account of an entry that has this move, where it is a debit entry.
fn blocked_for<D: Desk>(desk: &D, n: u32, technical: Option<u32>, found: &Move) -> Option<Why>
    requires pending { is_pending (D.day desk.now) (D.past desk.now) (item n 0) ≡ true }
    requires there { goes_to technical found.now ≡ true
        → stands_on (D.day desk.now) found.now.debit (item n 0) ≡ true }
    ensures { result ≡ blocked_for (D.day desk.now) (D.past desk.now) n technical found.now }
{
    if goes_to(found, technical) {
        blocked(desk, n, found.debit)
    } else {
        None
    }
}

// The debtor account of such an entry, where it is a debit entry and the account lacks money.
fn short_for<D: Desk>(desk: &D, n: u32, technical: Option<u32>, found: &Move) -> Option<Why>
    requires held { goes_to technical found.now ≡ true → D.held desk.now found.now.debit ≡ true }
    ensures { result ≡ short_for (D.day desk.now) (D.past desk.now) n technical found.now }
{
    if !goes_to(found, technical) {
        return None;
    }
    let account = found.debit;
    if !is_short_debtor(desk, n, account) {
        return None;
    }
    Some(Why::Short {
        account,
        balance: desk.balance(account),
    })
}

fn first_blocked<D: Desk>(desk: &D, n: u32) -> Option<Why>
    requires batch { is_b (sort_of (D.day desk.now) n) ≡ true }
    requires pending { is_pending (D.day desk.now) (D.past desk.now) (item n 0) ≡ true }
    ensures { result ≡ blocked_on (D.day desk.now) (D.past desk.now) (item n 0)
        (debtors (D.day desk.now) n) }
{
    let technical = technical_of(desk.setting(), n);
    for found in entry_moves(desk.setting(), n) {
        if let Some(why) = blocked_for(desk, n, technical, found) {
            return Some(why);
        }
    }
    None
}

fn first_short<D: Desk>(desk: &D, n: u32) -> Option<Why>
    requires { list_all (D.held desk.now) (debtors (D.day desk.now) n) ≡ true }
    ensures { result ≡ option_map (short (D.day desk.now) (D.past desk.now))
        (find (is_short_debtor (D.day desk.now) (D.past desk.now) n) (debtors (D.day desk.now) n)) }
{
    let technical = technical_of(desk.setting(), n);
    for found in entry_moves(desk.setting(), n) {
        if let Some(why) = short_for(desk, n, technical, found) {
            return Some(why);
        }
    }
    None
}

/// Why an open batch isn't booked: the first blocker on the first debtor account that has one, else the first debtor
/// account that holds less than the batch takes from it.
#[tactic(auto, unfolding(crate::specs::Reasons::why_waits_b))]
fn why_waits<D: Desk>(desk: &D, n: u32) -> Option<Why>
    requires batch { is_b (sort_of (D.day desk.now) n) ≡ true }
    requires open { is_open (phase (D.day desk.now) (D.past desk.now) n) ≡ true }
    requires held { list_all (D.held desk.now) (accounts_of_message (D.day desk.now) n) ≡ true }
    ensures { result ≡ why_waits_b (D.day desk.now) (D.past desk.now) n }
{
    match first_blocked(desk, n) {
        Some(why) => Some(why),
        None => first_short(desk, n),
    }
}

#[tactic(auto, unfolding(crate::specs::Reasons::why_not_book_b))]
fn why_not_book<D: Desk>(desk: &D, n: u32) -> Option<Why>
    requires batch { is_b (sort_of (D.day desk.now) n) ≡ true }
    requires held { list_all (D.held desk.now) (accounts_of_message (D.day desk.now) n) ≡ true }
    ensures { result ≡ why_not_book_b (D.day desk.now) (D.past desk.now) n }
{
    if let Some(place) = desk.ended() {
        return Some(Why::Over { place });
    }
    if desk.taken(n).is_none() {
        return Some(Why::Untaken);
    }
    let phase = desk.phase(n);
    if !is_open(phase) {
        return Some(Why::Phase {
            phase,
            clock: desk.clock(),
        });
    }
    why_waits(desk, n)
}

pub(crate) fn may_book<D: Desk>(desk: &D, n: u32) -> bool
    requires batch { is_b (sort_of (D.day desk.now) n) ≡ true }
    requires held { list_all (D.held desk.now) (accounts_of_message (D.day desk.now) n) ≡ true }
    ensures { result ≡ may_book_b (D.day desk.now) (D.past desk.now) n }
{
    is_open(desk.phase(n)) && why_waits(desk, n).is_none()
}

pub(crate) fn book<D: Desk>(desk: &D, n: u32, moves: &mut MoveList) -> Result<Head, Why>
    requires batch { is_b (sort_of (D.day desk.now) n) ≡ true }
    requires held { list_all (D.held desk.now) (accounts_of_message (D.day desk.now) n) ≡ true }
    requires empty { moves.old.moves ≡ [] }
    requires room { length (entries (D.day desk.now) n) ≤ moves.old.room }
    ensures { IsAnswer (D.day desk.now) (D.past desk.now) (wants.All n) moves.old moves.new result }
{
    if let Some(why) = why_not_book(desk, n) {
        return Err(why);
    }
    push_side(desk.setting(), n, true, moves);
    push_side(desk.setting(), n, false, moves);
    Ok(head(Kind::All, n, 0, Code::Ok))
}
