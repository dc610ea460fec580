//! Which items wait, and why.
ghost use Rattle.std.specs.Prelude.{◌≡◌, ◌≤◌, ◌&&◌, ◌||◌, true, false, [], length};
ghost use Rattle.batch_records.specs.DayRecord.{Day};
ghost use Rattle.commit_journal.specs.Line.{History};
ghost use Rattle.machine.specs.Words.{is_zero, when};
ghost use Rattle.machine.specs.Records.Messages.{entries, is_a, is_b, is_c, is_debit, is_e, is_pay, sort_of};
ghost use Rattle.machine.specs.Making.Reasons.{books, paid_by_cover, revoked_part, why_of, why_waits};
ghost use Rattle.machine.specs.Stages.Pending.{is_pending, item, stands_on};
ghost use Rattle.rule_book.specs.Answering.{has_accounts, IsAnswer};
ghost use Rattle.settle_floor.specs.Payments.{transfer_move, why_unpaid};
ghost use Rattle.day_reasons.specs.Desks.{clear, HoldsAll};
ghost use Rattle.day_reasons.specs.Waits.{is_done, is_unfinished, IsSettling, settling, waiting_want};

use cash_amounts::{EntryNumber, MessageNumber};
use commit_journal::{Head, Move, MoveList, Want};
use rule_book::batches::is_debit;
use rule_book::parts::item_move;
use rule_book::phases::is_open;
use rule_book::reasons::why_waits;
use rule_book::sorts::{is_a, is_b, is_c, is_e, is_pay};
use rule_book::{Desk, Item, Phase, Setting, Why};

// ---- which items wait

/// Whether a message in this phase was accepted, and something of it may still be settled.
pub fn is_unfinished(phase: Phase) -> bool
    ensures { result ≡ is_unfinished phase }
{
    match phase {
        Phase::Covered
        | Phase::Answered
        | Phase::Asking
        | Phase::Information
        | Phase::Waiting
        | Phase::Open
        | Phase::Overdue => true,
        Phase::Untaken | Phase::Rejected | Phase::Closed | Phase::Revoked | Phase::Settled => false,
    }
}

// The In line of the objection that revoked an entry of a batch of E.
fn revoked_part<D: Desk>(desk: &D, n: u32, k: u32) -> Option<u32>
    ensures { result ≡ revoked_part (D.day desk.now) (D.past desk.now) n k }
{
    if is_e(desk.setting(), n) {
        desk.revoked(n, k)
    } else {
        None
    }
}

fn is_debit_of_a(setting: &Setting, n: u32, k: u32) -> bool
    ensures { result ≡ (is_a (sort_of setting.now.day n) && is_debit setting.now.day n k) }
{
    is_a(setting, n) && is_debit(setting, n, k)
}

// The Cover line, where it paid the entry.
fn paid_by_cover<D: Desk>(desk: &D, n: u32, k: u32) -> Option<u32>
    ensures { result ≡ paid_by_cover (D.day desk.now) (D.past desk.now) n k }
{
    if is_debit_of_a(desk.setting(), n, k) {
        desk.covered(n)
    } else {
        None
    }
}

fn is_done<D: Desk>(desk: &D, n: u32, k: u32) -> bool
    ensures { result ≡ is_done (D.day desk.now) (D.past desk.now) n k }
{
    desk.booked(n, k).is_some()
        || revoked_part(desk, n, k).is_some()
        || paid_by_cover(desk, n, k).is_some()
}

fn is_zero(k: u32) -> bool
    ensures { result ≡ is_zero k }
{
    k == 0
}

fn when(test: bool, want: Want) -> Option<Want>
    ensures { result ≡ when test want }
{
    if test { Some(want) } else { None }
}

// Whether message n is a batch whose entries are booked one by one.
fn has_entries_booked(setting: &Setting, n: u32) -> bool
    ensures { result ≡ (is_a (sort_of setting.now.day n) || is_c (sort_of setting.now.day n)
        || is_e (sort_of setting.now.day n)) }
{
    is_a(setting, n) || is_c(setting, n) || is_e(setting, n)
}

// The want that settles an item.
fn settling(setting: &Setting, n: u32, k: u32) -> Option<Want>
    ensures { result ≡ settling setting.now.day n k }
{
    let is_whole = is_zero(k);
    if is_pay(setting, n) {
        return when(is_whole, Want::Book { msg: n, entry: k });
    }
    if is_b(setting, n) {
        return when(is_whole, Want::All { msg: n });
    }
    if has_entries_booked(setting, n) {
        return when(!is_whole, Want::Book { msg: n, entry: k });
    }
    None
}

/// The want that would settle an item, where it isn't done.
pub fn waiting_want<D: Desk>(desk: &D, n: MessageNumber, k: EntryNumber) -> Option<Want>
    ensures { result ≡ waiting_want (D.day desk.now) (D.past desk.now) n k }
{
    if is_done(desk, n, k) {
        None
    } else {
        settling(desk.setting(), n, k)
    }
}

// ---- why a payment waits

fn transfer_move(setting: &Setting, n: u32) -> Option<Move>
    ensures { result ≡ transfer_move setting.now.day n }
{
    item_move(setting, n, 0)
}

fn why_payment_waits<D: Desk>(desk: &D, n: u32, payment: Move) -> Option<Why>
    requires pending { is_pending (D.day desk.now) (D.past desk.now) (item n 0) ≡ true }
    requires there { stands_on (D.day desk.now) payment.debit (item n 0) ≡ true }
    requires held { D.held desk.now payment.debit ≡ true }
    ensures { result ≡ why_waits (D.day desk.now) (D.past desk.now) (item n 0) payment.debit
        payment.amount }
{
    why_waits(
        desk,
        Item { msg: n, entry: 0 },
        payment.debit,
        payment.amount,
    )
}

// Why a payment isn't booked.
#[tactic(auto, unfolding(settle_floor::specs::Payments::why_unpaid))]
fn why_unpaid<D: Desk>(desk: &D, n: u32) -> Option<Why>
    requires pay { is_pay (sort_of (D.day desk.now) n) ≡ true }
    requires held { has_accounts (D.held desk.now) (D.day desk.now) (Want.Book n 0) ≡ true }
    ensures { result ≡ why_unpaid (D.day desk.now) (D.past desk.now) n }
{
    if let Some(place) = desk.ended() {
        return Some(Why::Over { place });
    }
    if desk.taken(n).is_none() {
        return Some(Why::Untaken);
    }
    let phase = desk.phase(n);
    if !is_open(phase) {
        return Some(Why::Phase {
            phase,
            clock: desk.clock(),
        });
    }
    if let Some(place) = desk.booked(n, 0) {
        return Some(Why::Booked { place });
    }
    match transfer_move(desk.setting(), n) {
        Some(payment) => why_payment_waits(desk, n, payment),
        None => None,
    }
}

// ---- why an item waits

// The reason that was answered, where no line was. The list of moves is then empty again.
fn reason_in(judged: Result<Head, Why>, moves: &mut MoveList) -> Option<Why>
    ensures reason { (day : Day) (J : History) (want : Want)
        → IsAnswer day J want clear moves.old judged → result ≡ why_of day J want }
    ensures moves { (day : Day) (J : History) (want : Want)
        → IsAnswer day J want clear moves.old judged → moves.new ≡ clear }
{
    match judged {
        Ok(_) => {
            moves.clear();
            None
        }
        Err(why) => Some(why),
    }
}

// What is answered on the want to book an entry of a batch of E.
fn judge_of_e<D: Desk>(desk: &D, n: u32, k: u32, moves: &mut MoveList) -> Result<Head, Why>
    requires batch { is_e (sort_of (D.day desk.now) n) ≡ true }
    requires held { has_accounts (D.held desk.now) (D.day desk.now) (Want.Book n k) ≡ true }
    requires empty { moves.old.moves ≡ [] }
    requires room { length (entries (D.day desk.now) n) ≤ moves.old.room }
    ensures { IsAnswer (D.day desk.now) (D.past desk.now) (Want.Book n k) moves.old moves.new
        result }
{
    proc_e::answer(desk, Want::Book { msg: n, entry: k }, moves)
}

// What is answered on the want to book an entry of a batch.
fn judge_entry<D: Desk>(desk: &D, n: u32, k: u32, moves: &mut MoveList) -> Result<Head, Why>
    requires books { books (sort_of (D.day desk.now) n) k ≡ true }
    requires other { is_pay (sort_of (D.day desk.now) n) ≡ false }
    requires held { has_accounts (D.held desk.now) (D.day desk.now) (Want.Book n k) ≡ true }
    requires empty { moves.old.moves ≡ [] }
    requires room { length (entries (D.day desk.now) n) ≤ moves.old.room }
    ensures { IsAnswer (D.day desk.now) (D.past desk.now) (Want.Book n k) moves.old moves.new
        result }
{
    let setting = desk.setting();
    let want = Want::Book { msg: n, entry: k };
    if is_a(setting, n) {
        return proc_a::answer(desk, want, moves);
    }
    if is_c(setting, n) {
        return proc_c::answer(desk, want, moves);
    }
    judge_of_e(desk, n, k, moves)
}

// Why a payment, as entry 0, or an entry of a batch isn't booked.
fn why_unbooked<D: Desk>(desk: &D, n: u32, k: u32, moves: &mut MoveList) -> Option<Why>
    requires books { books (sort_of (D.day desk.now) n) k ≡ true }
    requires all { HoldsAll (D.held desk.now) (D.day desk.now) }
    requires moves { moves.old ≡ clear }
    ensures reason { result ≡ why_of (D.day desk.now) (D.past desk.now) (Want.Book n k) }
    ensures moves { moves.new ≡ clear }
{
    if is_pay(desk.setting(), n) {
        return why_unpaid(desk, n);
    }
    let judged = judge_entry(desk, n, k, moves);
    reason_in(judged, moves)
}

// Why a batch of B isn't settled.
fn why_not_whole<D: Desk>(desk: &D, n: u32, moves: &mut MoveList) -> Option<Why>
    requires batch { is_b (sort_of (D.day desk.now) n) ≡ true }
    requires all { HoldsAll (D.held desk.now) (D.day desk.now) }
    requires moves { moves.old ≡ clear }
    ensures reason { result ≡ why_of (D.day desk.now) (D.past desk.now) (Want.All n) }
    ensures moves { moves.new ≡ clear }
{
    let judged = proc_b::answer(desk, Want::All { msg: n }, moves);
    reason_in(judged, moves)
}

/// Why a want that settles an item has no line; None where it has one. The list of moves is empty before and after.
pub fn why_unsettled<D: Desk>(desk: &D, want: Want, moves: &mut MoveList) -> Option<Why>
    requires settles { IsSettling (D.day desk.now) want }
    requires all { HoldsAll (D.held desk.now) (D.day desk.now) }
    requires moves { moves.old ≡ clear }
    ensures reason { result ≡ why_of (D.day desk.now) (D.past desk.now) want }
    ensures moves { moves.new ≡ clear }
{
    match want {
        Want::Book { msg, entry } => why_unbooked(desk, msg, entry, moves),
        Want::All { msg } => why_not_whole(desk, msg, moves),
        _ => unreachable!(),
    }
}
