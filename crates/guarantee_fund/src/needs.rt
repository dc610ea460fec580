//! What a batch needs of the fund.
ghost use Rattle.std.specs.Prelude.{◌≡◌, ◌≤◌, ◌^◌, ◌&&◌, not, true, false, filter, nat_eq, sum_by, if◌then◌else◌};
ghost use Rattle.commit_journal.specs.declared.line.Want.TheVariants as wants;
ghost use Rattle.rule_book.specs.Answering.{has_accounts};
ghost use Rattle.rule_book.specs.Moves.{goes_to};
ghost use Rattle.machine.specs.Stages.Intake.{amount_of};
ghost use Rattle.machine.specs.Making.Lines.{debit_entries_by, is_short_debtor, need};
ghost use Rattle.machine.specs.Records.Messages.{debit_account, debit_entries, is_a, is_b, sort_of};
ghost use Rattle.machine.specs.Stages.Phases.{is_booked};

use cash_amounts::{Cents, MessageNumber};
use commit_journal::Move;
use rule_book::Desk;
use rule_book::batches::{goes_to, gross, is_short_debtor, technical_of};
use rule_book::parts::entry_moves;
use rule_book::sorts::{is_a, is_b};

// ---- procedure A

// The amount of entry k, which has this move, in cents, where it is an unbooked debit entry, else 0.
fn unbooked_amount<D: Desk>(desk: &D, n: u32, k: u32, technical: Option<u32>, found: &Move) -> u64
    ensures { result ≡ (if goes_to technical found.now && not (is_booked (D.past desk.now) n k) then
        found.now.amount else 0) }
{
    if goes_to(found, technical) && desk.booked(n, k).is_none() {
        found.amount.get()
    } else {
        0
    }
}

fn unbooked_sum<D: Desk>(desk: &D, n: u32) -> u64
    ensures sum { result ≡ sum_by amount_of
        (debit_entries_by (D.day desk.now) n (λ k. not (is_booked (D.past desk.now) n k))) }
    ensures small { result ≤ 10 ^ 18 }
{
    let technical = technical_of(desk.setting(), n);
    let listed = entry_moves(desk.setting(), n);
    let mut sum = 0;
    for (i, found) in listed.iter().enumerate() {
        sum += unbooked_amount(desk, n, i as u32 + 1, technical, found);
    }
    sum
}

/// What batch n of procedure A lacks: the sum of its unbooked debit entries.
pub fn missing_a<D: Desk>(desk: &D, n: MessageNumber) -> Cents
    requires { is_a (sort_of (D.day desk.now) n) ≡ true }
    ensures { result ≡ need (D.day desk.now) (D.past desk.now) n }
{
    Cents::of(unbooked_sum(desk, n)).unwrap()
}

// ---- procedure B

/// Whether an account holds less than batch n takes from it in all. Number 0, of an entry whose debit account has no such name,
/// holds nothing.
pub(crate) fn is_short<D: Desk>(desk: &D, n: u32, a: u32) -> bool
    requires { nat_eq a 0 ≡ false → D.held desk.now a ≡ true }
    ensures { result ≡ is_short_debtor (D.day desk.now) (D.past desk.now) n a }
{
    if a == 0 {
        return 0 < gross(desk.setting(), n, a);
    }
    is_short_debtor(desk, n, a)
}

// The amount of an entry that has this move, in cents, where it is a debit entry of a short account, else 0.
fn short_amount<D: Desk>(desk: &D, n: u32, technical: Option<u32>, found: &Move) -> u64
    requires { nat_eq found.now.debit 0 ≡ false → D.held desk.now found.now.debit ≡ true }
    ensures { result ≡ (if goes_to technical found.now
        && is_short_debtor (D.day desk.now) (D.past desk.now) n found.now.debit then
        found.now.amount else 0) }
{
    if goes_to(found, technical) && is_short(desk, n, found.debit) {
        found.amount.get()
    } else {
        0
    }
}

fn short_sum<D: Desk>(desk: &D, n: u32) -> u64
    requires held { has_accounts (D.held desk.now) (D.day desk.now) (wants.Expire n) ≡ true }
    ensures sum { result ≡ sum_by amount_of
        (filter (λ e. is_short_debtor (D.day desk.now) (D.past desk.now) n
        (debit_account (D.day desk.now) e)) (debit_entries (D.day desk.now) n)) }
    ensures small { result ≤ 10 ^ 18 }
{
    let technical = technical_of(desk.setting(), n);
    let listed = entry_moves(desk.setting(), n);
    let mut sum = 0;
    for found in listed {
        sum += short_amount(desk, n, technical, found);
    }
    sum
}

/// What batch n of procedure B lacks: the sum of all its debit entries on those accounts that hold less than its debit entries
/// take from them in all. What the batch brings to an account doesn't count.
pub fn shortfall_b<D: Desk>(desk: &D, n: MessageNumber) -> Cents
    requires batch { is_b (sort_of (D.day desk.now) n) ≡ true }
    requires held { has_accounts (D.held desk.now) (D.day desk.now) (wants.Expire n) ≡ true }
    ensures { result ≡ need (D.day desk.now) (D.past desk.now) n }
{
    Cents::of(short_sum(desk, n)).unwrap()
}

// ---- either

/// What batch n lacks; nothing, where it is of neither procedure.
pub(crate) fn need<D: Desk>(desk: &D, n: u32) -> Cents
    requires held { has_accounts (D.held desk.now) (D.day desk.now) (wants.Expire n) ≡ true }
    ensures { result ≡ need (D.day desk.now) (D.past desk.now) n }
{
    let setting = desk.setting();
    if is_a(setting, n) {
        return missing_a(desk, n);
    }
    if is_b(setting, n) {
        return shortfall_b(desk, n);
    }
    Cents::of(0).unwrap()
}
