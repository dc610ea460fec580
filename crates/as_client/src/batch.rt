//! The batch that settles positions.
ghost use Rattle.std.specs.Prelude.{◌≡◌, ◌+◌, ◌≤◌, ◌++◌, Ok, length, sum_by, true, IfOk, MatchResult, OnOk};
ghost use Rattle.std.specs.List.{list_all};
ghost use Rattle.cash_amounts.specs.declared.limits.TheConstants.{MAX_ENTRIES_OF_FIRST};
ghost use Rattle.machine.specs.Stages.Intake.{amount_of};
ghost use Rattle.as_client.specs.BatchOf.{batch_of, credit_of, credits_of, debit_of, debits_of, entries_of_positions, fits_an_entry, listed, owed, owing, sum_of_positions, Tells};

use crate::trade::Position;
use batch_records::{Body, Entries, Entry};
use cash_amounts::{Cents, Memory, Name, Procedure};
use std::alloc::Global;

/// Why positions make no batch.
#[derive(Clone, Copy, Debug, PartialEq, Eq)]
pub enum BatchFault {
    /// They sum to this many cents, which aren't zero.
    Sum { sum: i128 },
    /// There was no memory left.
    Memory(Memory),
}

impl From<Memory> for BatchFault {
    ghost use Rattle.std.specs.Prelude.{◌≡◌};
    ghost use Rattle.as_client.specs.declared.batch.BatchFault.TheVariants as batch_faults;

    ghost from_gives = { λ memory fault. fault ≡ batch_faults.Memory memory };

    fn from(memory: Memory) -> Self {
        BatchFault::Memory(memory)
    }
}

// What the account owes, in cents.
fn owing(position: &Position) -> u64
    ensures { result ≡ owing position.now.sum }
{
    if position.sum < 0 {
        position.sum.unsigned_abs()
    } else {
        0
    }
}

// What the account is owed, in cents.
fn owed(position: &Position) -> u64
    ensures { result ≡ owed position.now.sum }
{
    if position.sum > 0 {
        position.sum.unsigned_abs()
    } else {
        0
    }
}

// What the accounts owe together.
fn all_owing(positions: &[Position]) -> u64
    requires { sum_by (λ p. owing p.sum) positions.now ≤ 100000000000000000 }
    ensures { result ≡ sum_by (λ p. owing p.sum) positions.now }
{
    let mut sum = 0;
    for position in positions {
        sum += owing(position);
    }
    sum
}

// What the accounts are owed together.
fn all_owed(positions: &[Position]) -> u64
    requires { sum_by (λ p. owed p.sum) positions.now ≤ 100000000000000000 }
    ensures { result ≡ sum_by (λ p. owed p.sum) positions.now }
{
    let mut sum = 0;
    for position in positions {
        sum += owed(position);
    }
    sum
}

// Puts what an account owes at the end, as an entry to the technical account.
fn push_debit(entries: &mut Entries, position: &Position, technical: &Name) -> Result<(), Memory>
    requires { fits_an_entry position.now ≡ true }
    ensures { OnOk result (entries.new
        ≡ entries.old ++ listed (debit_of technical.now position.now.account position.now.sum)) }
{
    let amount = owing(position);
    if amount > 0 {
        entries.push(Entry {
            debit: position.account.copy(),
            credit: technical.copy(),
            amount: Cents::of(amount).unwrap(),
        })?;
    }
    Ok(())
}

// Puts what an account is owed at the end, as an entry from the technical account.
fn push_credit(entries: &mut Entries, position: &Position, technical: &Name) -> Result<(), Memory>
    requires { fits_an_entry position.now ≡ true }
    ensures { OnOk result (entries.new
        ≡ entries.old ++ listed (credit_of technical.now position.now.account position.now.sum)) }
{
    let amount = owed(position);
    if amount > 0 {
        entries.push(Entry {
            debit: technical.copy(),
            credit: position.account.copy(),
            amount: Cents::of(amount).unwrap(),
        })?;
    }
    Ok(())
}

// The debits, and then the credits.
fn push_debits(
    entries: &mut Entries,
    positions: &[Position],
    technical: &Name,
) -> Result<(), Memory>
    requires { list_all fits_an_entry positions.now ≡ true }
    ensures { OnOk result (entries.new ≡ entries.old ++ debits_of technical.now positions.now) }
{
    for position in positions {
        push_debit(entries, position, technical)?;
    }
    Ok(())
}

fn push_credits(
    entries: &mut Entries,
    positions: &[Position],
    technical: &Name,
) -> Result<(), Memory>
    requires { list_all fits_an_entry positions.now ≡ true }
    ensures { OnOk result (entries.new ≡ entries.old ++ credits_of technical.now positions.now) }
{
    for position in positions {
        push_credit(entries, position, technical)?;
    }
    Ok(())
}

// The entries of positions.
fn entries_of(alloc: Global, positions: &[Position], technical: &Name) -> Result<Entries, Memory>
    requires { list_all fits_an_entry positions.now ≡ true }
    ensures { IfOk result (λ entries. entries ≡ entries_of_positions technical.now positions.now) }
{
    let mut entries = Entries::new(alloc);
    push_debits(&mut entries, positions, technical)?;
    push_credits(&mut entries, positions, technical)?;
    Ok(entries)
}

// What the entries of positions sum to.
fn total(positions: &[Position]) -> Cents
    requires few { length positions.now ≤ MAX_ENTRIES_OF_FIRST }
    requires sizes { list_all fits_an_entry positions.now ≡ true }
    ensures { result ≡ sum_by (λ p. owing p.sum) positions.now
        + sum_by (λ p. owed p.sum) positions.now }
{
    Cents::of(all_owing(positions) + all_owed(positions)).unwrap()
}

// What the positions sum to.
#[tactic(auto, using(crate::proofs::SumFacts::sum_is_sides))]
fn sum_of(positions: &[Position]) -> i128
    requires few { length positions.now ≤ MAX_ENTRIES_OF_FIRST }
    requires sizes { list_all fits_an_entry positions.now ≡ true }
    ensures { result ≡ sum_of_positions positions.now }
{
    i128::from(all_owed(positions)) - i128::from(all_owing(positions))
}

/// The batch that settles positions over a technical account: a debit of each account that owes, and then a credit of each
/// that is owed, both in the order of the positions. It states their own number and sum, and no earliest time. `Sum` says that the positions
/// don't sum to zero, and `Memory` that they do and there wasn't enough memory. More than `MAX_ENTRIES_OF_FIRST` positions, or one of more
/// than 9,999,999,999,999 cents in size, can't be given.
#[tactic(auto, using(crate::proofs::SumFacts::entries_sum), unfolding(crate::specs::BatchOf::batch_of))]
pub fn batch_of(
    alloc: Global,
    positions: &[Position],
    technical: &Name,
    procedure: Procedure,
    info: Option<u32>,
    till: Option<u32>,
) -> Result<Body, BatchFault>
    requires few { length positions.now ≤ MAX_ENTRIES_OF_FIRST }
    requires sizes { list_all fits_an_entry positions.now ≡ true }
    ensures { MatchResult result
        (λ body. batch_of positions.now technical.now procedure info till ≡ Ok body)
        (λ fault. Tells fault (batch_of positions.now technical.now procedure info till)) }
{
    let sum = sum_of(positions);
    if sum != 0 {
        return Err(BatchFault::Sum { sum });
    }
    let entries = entries_of(alloc, positions, technical)?;
    Ok(Body::Batch {
        procedure,
        info,
        from: None,
        till,
        count: entries.as_slice().len() as u32,
        sum: total(positions),
        entries,
    })
}
