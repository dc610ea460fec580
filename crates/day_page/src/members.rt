//! What the members of a row hold together, kept by what the lines move.
ghost use Rattle.std.specs.Prelude.{◌≡◌, ◌≤◌, ◌+◌, ◌*◌, ◌^◌, [], ℕ, IfOk, length, replicate, slice_index, sum_by};
ghost use Rattle.refused_memory.specs.declared.lists.TheConstants.{MOST};
ghost use Rattle.cash_amounts.specs.declared.limits.TheConstants.{MAX_ACCOUNTS};
ghost use Rattle.machine.specs.Orders.Bounds.{move_limit};
ghost use Rattle.day_facts.specs.Lists.{change_at};
ghost use Rattle.day_page.specs.Members.{brought, counted, once_more, taken};

use cash_amounts::Memory;
use commit_journal::Move;
use refused_memory::filled;
use rule_book::Setting;
use rule_book::parts::account_count;
use std::alloc::Global;

// ---- how often each account is a member

// One more of an account, where the table has it.
fn count_one(counts: &mut [u32], a: u32)
    ensures { counts.new ≡ change_at a once_more counts.old }
{
    let i = a as usize;
    if i >= counts.len() {
        return;
    }
    counts[i] = counts[i].saturating_add(1);
}

// Counts all members, where none was counted.
fn count_all(counts: &mut [u32], members: &[u32])
    requires few { length members.now ≤ MAX_ACCOUNTS }
    requires none { counts.old ≡ counted [] (length counts.old) }
    ensures { counts.new ≡ counted members.now (length counts.old) }
{
    for a in members {
        count_one(counts, *a);
    }
}

// So many accounts, of which none is counted.
fn no_counts(alloc: Global, count: usize) -> Result<Vec<u32>, Memory>
    requires { count ≤ MOST }
    ensures { IfOk result (λ counts. counts.items ≡ replicate count 0) }
{
    filled(alloc, 0, count)
}

/// How often each account is a member, by its number, from 0 on. `Memory` says that there wasn't enough of it.
pub fn counts_of(alloc: Global, setting: &Setting, members: &[u32]) -> Result<Vec<u32>, Memory>
    requires few { length members.now ≤ MAX_ACCOUNTS }
    ensures { IfOk result (λ counts. counts.items
        ≡ counted members.now (length setting.now.day.accounts + 1)) }
{
    let mut counts = no_counts(alloc, account_count(setting) as usize + 1)?;
    count_all(counts.as_mut_slice(), members);
    Ok(counts)
}

// ---- what moves do to the members

// How often an account is a member; never, where the table ends before it.
fn times(counts: &[u32], a: u32) -> u32
    ensures { result ≡ slice_index counts.now a }
{
    match counts.get(a as usize) {
        Some(times) => *times,
        None => 0,
    }
}

// An amount for each time that the account is a member, in cents.
fn share(counts: &[u32], a: u32, amount: u64) -> u128
    requires cents { amount ≤ 10 ^ 18 }
    requires few { slice_index counts.now a ≤ MAX_ACCOUNTS }
    ensures value { result ≡ amount * slice_index counts.now a }
    ensures small { result ≤ 10 ^ 18 * MAX_ACCOUNTS }
{
    u128::from(amount) * u128::from(times(counts, a))
}

/// What moves bring to the members, in cents, each as often as its payee is one.
pub fn came(counts: &[u32], moves: &[Move]) -> u128
    requires few { length moves.now ≤ move_limit }
    requires counts { (a : ℕ) → slice_index counts.now a ≤ MAX_ACCOUNTS }
    ensures value { result ≡ sum_by (brought counts.now) moves.now }
    ensures small { result ≤ 10 ^ 18 * MAX_ACCOUNTS * length moves.now }
{
    let mut sum = 0;
    for one in moves {
        sum += share(counts, one.credit, one.amount.get());
    }
    sum
}

/// What moves take from the members, in cents, each as often as its payer is one.
pub fn gone(counts: &[u32], moves: &[Move]) -> u128
    requires few { length moves.now ≤ move_limit }
    requires counts { (a : ℕ) → slice_index counts.now a ≤ MAX_ACCOUNTS }
    ensures value { result ≡ sum_by (taken counts.now) moves.now }
    ensures small { result ≤ 10 ^ 18 * MAX_ACCOUNTS * length moves.now }
{
    let mut sum = 0;
    for one in moves {
        sum += share(counts, one.debit, one.amount.get());
    }
    sum
}
