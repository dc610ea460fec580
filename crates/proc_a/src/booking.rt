//! Which entries of a batch are pending, what keeps them from being booked, and the line of Book.
ghost use Rattle.std.specs.Prelude.{◌≡◌, ◌≤◌, true, [], length, ◌&&◌, ◌||◌, not};
ghost use Rattle.commit_journal.specs.declared.line.Want.TheVariants as wants;
ghost use Rattle.machine.specs.Records.Messages.{sort_of, is_a, entries, is_debit, is_credit};
ghost use Rattle.rule_book.specs.Answering.{has_accounts, IsAnswer};
ghost use Rattle.machine.specs.Words.{only_if};
ghost use Rattle.machine.specs.Telling.History.{covered};
ghost use Rattle.machine.specs.Stages.Phases.{phase, is_booked, is_open, is_covered};
ghost use Rattle.machine.specs.Stages.Pending.{item, first_unbooked_debit, is_next_of_a, is_pending};
ghost use Rattle.machine.specs.Making.Lines.{may_book};
ghost use Rattle.machine.specs.Making.Reasons.{is_open_or_covered, why_not_book};
ghost use Rattle.proc_a.specs.Reasons.{why_not_pending};

use commit_journal::{Code, Head, Kind, MoveList};
use rule_book::batches::{is_credit, is_debit};
use rule_book::lines::{head, push_entry};
use rule_book::parts::entry;
use rule_book::phases::{is_covered, is_open};
use rule_book::reasons::why_entry_waits;
use rule_book::{Desk, Phase, Why};

fn is_open_or_covered(phase: Phase) -> bool
    ensures { result ≡ is_open_or_covered phase }
{
    is_open(phase) || is_covered(phase)
}

fn is_unbooked_credit<D: Desk>(desk: &D, n: u32, k: u32) -> bool
    ensures { result ≡ (is_credit (D.day desk.now) n k && not (is_booked (D.past desk.now) n k)) }
{
    is_credit(desk.setting(), n, k) && desk.booked(n, k).is_none()
}

// Whether entry k is one that is booked next, in the open phase: a debit entry, or once there is none a credit entry.
fn is_next<D: Desk>(desk: &D, n: u32, k: u32) -> bool
    ensures { result ≡ is_next_of_a (D.day desk.now) (D.past desk.now) n k }
{
    let setting = desk.setting();
    desk.booked(n, k).is_none()
        && (is_debit(setting, n, k)
            || is_credit(setting, n, k) && desk.first_unbooked_debit(n).is_none())
}

fn is_next_in_phase<D: Desk>(desk: &D, n: u32, k: u32) -> bool
    ensures { result ≡ (is_open (phase (D.day desk.now) (D.past desk.now) n)
        && is_next_of_a (D.day desk.now) (D.past desk.now) n k
        || is_covered (phase (D.day desk.now) (D.past desk.now) n) && is_credit (D.day desk.now) n k
        && not (is_booked (D.past desk.now) n k)) }
{
    let phase = desk.phase(n);
    is_open(phase) && is_next(desk, n, k) || is_covered(phase) && is_unbooked_credit(desk, n, k)
}

// Whether entry k is pending.
fn is_pending<D: Desk>(desk: &D, n: u32, k: u32) -> bool
    requires { is_a (sort_of (D.day desk.now) n) ≡ true }
    ensures { result ≡ is_pending (D.day desk.now) (D.past desk.now) (item n k) }
{
    is_next_in_phase(desk, n, k)
}

// The Cover line, where entry k is a debit entry.
fn paid_by_cover<D: Desk>(desk: &D, n: u32, k: u32) -> Option<u32>
    ensures { result ≡ only_if (is_debit (D.day desk.now) n k) (covered (D.past desk.now) n) }
{
    if is_debit(desk.setting(), n, k) {
        desk.covered(n)
    } else {
        None
    }
}

// The first unbooked debit entry, where entry k is a credit entry of an open batch.
fn debit_outstanding<D: Desk>(desk: &D, n: u32, k: u32) -> Option<u32>
    ensures { result ≡ only_if
        (is_open (phase (D.day desk.now) (D.past desk.now) n) && is_credit (D.day desk.now) n k)
        (first_unbooked_debit (D.day desk.now) (D.past desk.now) n) }
{
    if is_open(desk.phase(n)) && is_credit(desk.setting(), n, k) {
        desk.first_unbooked_debit(n)
    } else {
        None
    }
}

#[tactic(auto, unfolding(crate::specs::Reasons::why_not_pending))]
fn why_not_pending<D: Desk>(desk: &D, n: u32, k: u32) -> Option<Why>
    ensures { result ≡ why_not_pending (D.day desk.now) (D.past desk.now) n k }
{
    if let Some(place) = desk.ended() {
        return Some(Why::Over { place });
    }
    if entry(&desk.setting().day, n, k).is_none() {
        return Some(Why::NoSuch);
    }
    if desk.taken(n).is_none() {
        return Some(Why::Untaken);
    }
    let phase = desk.phase(n);
    if !is_open_or_covered(phase) {
        return Some(Why::Phase {
            phase,
            clock: desk.clock(),
        });
    }
    if let Some(place) = desk.booked(n, k) {
        return Some(Why::Booked { place });
    }
    if let Some(place) = paid_by_cover(desk, n, k) {
        return Some(Why::Covered { place });
    }
    if let Some(entry) = debit_outstanding(desk, n, k) {
        return Some(Why::Debits { entry });
    }
    None
}

/// Why entry k of batch n can't be booked now; none where it can.
fn why_not_book<D: Desk>(desk: &D, n: u32, k: u32) -> Option<Why>
    requires batch { is_a (sort_of (D.day desk.now) n) ≡ true }
    requires held { has_accounts (D.held desk.now) (D.day desk.now) (wants.Book n k) ≡ true }
    ensures { result ≡ why_not_book (D.day desk.now) (D.past desk.now) n k }
{
    if let Some(why) = why_not_pending(desk, n, k) {
        return Some(why);
    }
    match entry(&desk.setting().day, n, k) {
        Some(entry) => why_entry_waits(desk, n, k, entry),
        None => None,
    }
}

/// Whether entry k of batch n can be booked now.
pub(crate) fn may_book<D: Desk>(desk: &D, n: u32, k: u32) -> bool
    requires batch { is_a (sort_of (D.day desk.now) n) ≡ true }
    requires held { has_accounts (D.held desk.now) (D.day desk.now) (wants.Expire n) ≡ true }
    ensures { result ≡ may_book (D.day desk.now) (D.past desk.now) n k }
{
    if !is_pending(desk, n, k) {
        return false;
    }
    match entry(&desk.setting().day, n, k) {
        Some(entry) => why_entry_waits(desk, n, k, entry).is_none(),
        None => false,
    }
}

pub(crate) fn book<D: Desk>(desk: &D, n: u32, k: u32, moves: &mut MoveList) -> Result<Head, Why>
    requires batch { is_a (sort_of (D.day desk.now) n) ≡ true }
    requires held { has_accounts (D.held desk.now) (D.day desk.now) (wants.Book n k) ≡ true }
    requires empty { moves.old.moves ≡ [] }
    requires room { length (entries (D.day desk.now) n) ≤ moves.old.room }
    ensures { IsAnswer (D.day desk.now) (D.past desk.now) (wants.Book n k) moves.old moves.new
        result }
{
    match why_not_book(desk, n, k) {
        Some(why) => Err(why),
        None => {
            push_entry(desk.setting(), n, k, moves);
            Ok(head(Kind::Book, n, k, Code::Ok))
        }
    }
}
