//! The entries of the messages of a trial.
ghost use Rattle.std.specs.Prelude.{◌≡◌, ◌<◌, ◌≤◌, ◌++◌, map, nat_lt, sum_by, true, IfOk, OnOk};
ghost use Rattle.std.specs.List.{list_all};
ghost use Rattle.cash_amounts.specs.declared.cents.TheConstants.{MAX_CENTS};
ghost use Rattle.machine.specs.Stages.Intake.{amount_of};
ghost use Rattle.trial_day.specs.Trial.{credit_entry, dca_name, debit_entry, drawn_amount, drawn_credit, drawn_debit, drawn_entries, drawn_other, entries_over, transfer_entry};

use crate::draws::Trio;
use crate::names::{dca_name, technical_a, technical_b};
use batch_records::{Entries, Entry};
use cash_amounts::{Cents, Memory, Name, Procedure};
use std::alloc::Global;

/// How many dedicated cash accounts there are.
pub const BANKS: u32 = 16;

/// The largest amount, in cents.
pub const MAX_AMOUNT: u32 = 10_000;

// The amount of a trio.
fn drawn_amount(trio: &Trio) -> Cents
    ensures { result ≡ drawn_amount trio.now }
{
    Cents::of(u64::from(trio.amount % MAX_AMOUNT + 1)).unwrap()
}

// The dedicated cash account that a trio debits.
fn drawn_debit(trio: &Trio) -> Name
    ensures { result ≡ dca_name (drawn_debit trio.now) }
{
    dca_name(trio.debit % BANKS + 1)
}

// The one that it credits.
fn drawn_credit(trio: &Trio) -> Name
    ensures { result ≡ dca_name (drawn_credit trio.now) }
{
    dca_name(trio.credit % BANKS + 1)
}

// The one that it credits where another than the debited one is wanted.
fn drawn_other(trio: &Trio) -> Name
    requires { trio.now.debit < 65536 }
    ensures { result ≡ dca_name (drawn_other trio.now) }
{
    dca_name((trio.debit + 1 + trio.credit % (BANKS - 1)) % BANKS + 1)
}

// Puts the debits of trios at the end, to a technical account.
fn push_debits(entries: &mut Entries, technical: &Name, trios: &[Trio]) -> Result<(), Memory>
    ensures { OnOk result (entries.new ≡ entries.old ++ map (debit_entry technical.now) trios.now) }
{
    for trio in trios {
        entries.push(Entry {
            debit: drawn_debit(trio),
            credit: technical.copy(),
            amount: drawn_amount(trio),
        })?;
    }
    Ok(())
}

// Puts their credits at the end, from it.
fn push_credits(entries: &mut Entries, technical: &Name, trios: &[Trio]) -> Result<(), Memory>
    ensures { OnOk result (entries.new
        ≡ entries.old ++ map (credit_entry technical.now) trios.now) }
{
    for trio in trios {
        entries.push(Entry {
            debit: technical.copy(),
            credit: drawn_credit(trio),
            amount: drawn_amount(trio),
        })?;
    }
    Ok(())
}

// Puts a transfer of each trio at the end.
fn push_transfers(entries: &mut Entries, trios: &[Trio]) -> Result<(), Memory>
    requires { list_all (λ t. nat_lt t.debit 65536) trios.now ≡ true }
    ensures { OnOk result (entries.new ≡ entries.old ++ map transfer_entry trios.now) }
{
    for trio in trios {
        entries.push(Entry {
            debit: drawn_debit(trio),
            credit: drawn_other(trio),
            amount: drawn_amount(trio),
        })?;
    }
    Ok(())
}

// The debits of trios, and then their credits.
fn entries_over(alloc: Global, technical: &Name, trios: &[Trio]) -> Result<Entries, Memory>
    ensures { IfOk result (λ entries. entries ≡ entries_over technical.now trios.now) }
{
    let mut entries = Entries::new(alloc);
    push_debits(&mut entries, technical, trios)?;
    push_credits(&mut entries, technical, trios)?;
    Ok(entries)
}

fn transfers(alloc: Global, trios: &[Trio]) -> Result<Entries, Memory>
    requires { list_all (λ t. nat_lt t.debit 65536) trios.now ≡ true }
    ensures { IfOk result (λ entries. entries ≡ map transfer_entry trios.now) }
{
    let mut entries = Entries::new(alloc);
    push_transfers(&mut entries, trios)?;
    Ok(entries)
}

/// The entries of a message of system s, from 1 to 8, by its procedure: over its technical account of A or of B, and else
/// from bank to bank.
#[tactic(auto, unfolding(crate::specs::Trial::drawn_entries))]
pub fn drawn_entries(
    alloc: Global,
    procedure: Procedure,
    s: u32,
    trios: &[Trio],
) -> Result<Entries, Memory>
    requires least { 1 ≤ s }
    requires most { s ≤ 8 }
    requires drawn { list_all (λ t. nat_lt t.debit 65536) trios.now ≡ true }
    ensures { IfOk result (λ entries. entries ≡ drawn_entries procedure s trios.now) }
{
    match procedure {
        Procedure::A => entries_over(alloc, &technical_a(s), trios),
        Procedure::B => entries_over(alloc, &technical_b(s), trios),
        _ => transfers(alloc, trios),
    }
}

/// The sum of the amounts of entries, in cents.
pub fn sum_of(entries: &[Entry]) -> Cents
    requires { sum_by amount_of entries.now ≤ MAX_CENTS }
    ensures { result ≡ sum_by amount_of entries.now }
{
    let mut sum = 0;
    for entry in entries {
        sum += entry.amount.get();
    }
    Cents::of(sum).unwrap()
}
