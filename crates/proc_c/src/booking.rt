//! What keeps an entry from being booked, and the line of Book.
ghost use Rattle.std.specs.Prelude.{◌≡◌, true, [], ◌≤◌, None, Some, length};
ghost use Rattle.machine.specs.Records.Messages.{entries, is_c, sort_of, debit_account, entry_at};
ghost use Rattle.machine.specs.Telling.History.{booked};
ghost use Rattle.machine.specs.Stages.Pending.{item};
ghost use Rattle.machine.specs.Making.Reasons.{why_waits};
ghost use Rattle.machine.specs.Stages.Phases.{phase, is_open};
ghost use Rattle.machine.specs.Making.Lines.{may_book};
ghost use Rattle.rule_book.specs.Answering.{IsAnswer, has_accounts};
ghost use Rattle.proc_c.specs.Reasons.{may_book_c, why_not_book_c};

use batch_records::Entry;
use commit_journal::{Code, Head, Kind, MoveList, Want};
use rule_book::lines::{head, push_entry};
use rule_book::parts::entry;
use rule_book::phases::is_open;
use rule_book::reasons::why_entry_waits;
use rule_book::{Desk, Why};

// Why an open entry that isn't booked has to wait: for one that stands before it on its debit account, or for money there.
#[tactic(auto, using(crate::proofs::WantTables::pending_is, crate::proofs::WantTables::stands_is))]
fn why_waits<D: Desk>(desk: &D, n: u32, k: u32, entry: &Entry) -> Option<Why>
    requires batch { is_c (sort_of (D.day desk.now) n) ≡ true }
    requires there { entry_at (D.day desk.now) n k ≡ Some entry.now }
    requires open { is_open (phase (D.day desk.now) (D.past desk.now) n) ≡ true }
    requires unbooked { booked (D.past desk.now) n k ≡ None }
    requires held { D.held desk.now (debit_account (D.day desk.now) entry.now) ≡ true }
    ensures { result ≡ why_waits (D.day desk.now) (D.past desk.now) (item n k)
        (debit_account (D.day desk.now) entry.now) entry.now.amount }
{
    why_entry_waits(desk, n, k, entry)
}

// Why an entry isn't booked now.
#[tactic(auto, unfolding(crate::specs::Reasons::why_not_book_c, machine::specs::Making::Reasons::why_waits))]
fn why_not_book<D: Desk>(desk: &D, n: u32, k: u32) -> Option<Why>
    requires batch { is_c (sort_of (D.day desk.now) n) ≡ true }
    requires held { has_accounts (D.held desk.now) (D.day desk.now) (Want.Book n k) ≡ true }
    ensures { result ≡ why_not_book_c (D.day desk.now) (D.past desk.now) n k }
{
    if let Some(place) = desk.ended() {
        return Some(Why::Over { place });
    }
    let Some(entry) = entry(&desk.setting().day, n, k) else {
        return Some(Why::NoSuch);
    };
    if desk.taken(n).is_none() {
        return Some(Why::Untaken);
    }
    let phase = desk.phase(n);
    if !is_open(phase) {
        return Some(Why::Phase {
            phase,
            clock: desk.clock(),
        });
    }
    if let Some(place) = desk.booked(n, k) {
        return Some(Why::Booked { place });
    }
    why_waits(desk, n, k, entry)
}

// Whether an entry is booked now.
#[tactic(auto, unfolding(crate::specs::Reasons::may_book_c))]
fn books_now<D: Desk>(desk: &D, n: u32, k: u32) -> bool
    requires batch { is_c (sort_of (D.day desk.now) n) ≡ true }
    requires held { has_accounts (D.held desk.now) (D.day desk.now) (Want.Expire n) ≡ true }
    ensures { result ≡ may_book_c (D.day desk.now) (D.past desk.now) n k }
{
    match entry(&desk.setting().day, n, k) {
        Some(entry) => {
            if !is_open(desk.phase(n)) || desk.booked(n, k).is_some() {
                return false;
            }
            why_waits(desk, n, k, entry).is_none()
        }
        None => false,
    }
}

#[tactic(auto, using(crate::proofs::WantTables::may_book_is))]
pub(crate) fn may_book<D: Desk>(desk: &D, n: u32, k: u32) -> bool
    requires batch { is_c (sort_of (D.day desk.now) n) ≡ true }
    requires held { has_accounts (D.held desk.now) (D.day desk.now) (Want.Expire n) ≡ true }
    ensures { result ≡ may_book (D.day desk.now) (D.past desk.now) n k }
{
    books_now(desk, n, k)
}

pub(crate) fn book<D: Desk>(desk: &D, n: u32, k: u32, moves: &mut MoveList) -> Result<Head, Why>
    requires batch { is_c (sort_of (D.day desk.now) n) ≡ true }
    requires held { has_accounts (D.held desk.now) (D.day desk.now) (Want.Book n k) ≡ true }
    requires empty { moves.old.moves ≡ [] }
    requires room { length (entries (D.day desk.now) n) ≤ moves.old.room }
    ensures { IsAnswer (D.day desk.now) (D.past desk.now) (Want.Book n k) moves.old moves.new
        result }
{
    match why_not_book(desk, n, k) {
        Some(why) => Err(why),
        None => {
            push_entry(desk.setting(), n, k, moves);
            Ok(head(Kind::Book, n, k, Code::Ok))
        }
    }
}
