//! What keeps an entry from being booked, and the line of Book.
ghost use Rattle.std.specs.Prelude.{◌≡◌, true, [], ◌≤◌, length};
ghost use Rattle.machine.specs.Records.Messages.{entries, is_e, sort_of};
ghost use Rattle.rule_book.specs.Answering.{has_accounts, IsAnswer};
ghost use Rattle.machine.specs.Making.Lines.{may_book};
ghost use Rattle.machine.specs.Making.Reasons.{why_not_book};
ghost use Rattle.proc_e.specs.Reasons.{why_not_pending};

use commit_journal::{Code, Head, Kind, MoveList, Want};
use rule_book::lines::{head, push_entry};
use rule_book::parts::entry;
use rule_book::phases::is_open;
use rule_book::reasons::why_entry_waits;
use rule_book::{Desk, Why};

// Why entry k isn't booked, besides that the day may have ended.
#[tactic(auto, unfolding(crate::specs::Reasons::why_not_pending))]
fn why_not_pending<D: Desk>(desk: &D, n: u32, k: u32) -> Option<Why>
    requires batch { is_e (sort_of (D.day desk.now) n) ≡ true }
    requires held { has_accounts (D.held desk.now) (D.day desk.now) (Want.Book n k) ≡ true }
    ensures { result ≡ why_not_pending (D.day desk.now) (D.past desk.now) n k }
{
    let Some(entry) = entry(&desk.setting().day, n, k) else {
        return Some(Why::NoSuch);
    };
    if desk.taken(n).is_none() {
        return Some(Why::Untaken);
    }
    let phase = desk.phase(n);
    if !is_open(phase) {
        return Some(Why::Phase {
            phase,
            clock: desk.clock(),
        });
    }
    if let Some(place) = desk.booked(n, k) {
        return Some(Why::Booked { place });
    }
    if let Some(place) = desk.revoked(n, k) {
        return Some(Why::Revoked { place });
    }
    why_entry_waits(desk, n, k, entry)
}

// Why entry k isn't booked.
fn why_not_book<D: Desk>(desk: &D, n: u32, k: u32) -> Option<Why>
    requires batch { is_e (sort_of (D.day desk.now) n) ≡ true }
    requires held { has_accounts (D.held desk.now) (D.day desk.now) (Want.Book n k) ≡ true }
    ensures { result ≡ why_not_book (D.day desk.now) (D.past desk.now) n k }
{
    match desk.ended() {
        Some(place) => Some(Why::Over { place }),
        None => why_not_pending(desk, n, k),
    }
}

pub(crate) fn may_book<D: Desk>(desk: &D, n: u32, k: u32) -> bool
    requires batch { is_e (sort_of (D.day desk.now) n) ≡ true }
    requires held { has_accounts (D.held desk.now) (D.day desk.now) (Want.Expire n) ≡ true }
    ensures { result ≡ may_book (D.day desk.now) (D.past desk.now) n k }
{
    why_not_pending(desk, n, k).is_none()
}

pub(crate) fn book<D: Desk>(desk: &D, n: u32, k: u32, moves: &mut MoveList) -> Result<Head, Why>
    requires batch { is_e (sort_of (D.day desk.now) n) ≡ true }
    requires held { has_accounts (D.held desk.now) (D.day desk.now) (Want.Book n k) ≡ true }
    requires empty { moves.old.moves ≡ [] }
    requires room { length (entries (D.day desk.now) n) ≤ moves.old.room }
    ensures { IsAnswer (D.day desk.now) (D.past desk.now) (Want.Book n k) moves.old moves.new
        result }
{
    match why_not_book(desk, n, k) {
        Some(why) => Err(why),
        None => {
            push_entry(desk.setting(), n, k, moves);
            Ok(head(Kind::Book, n, k, Code::Ok))
        }
    }
}
