//! The days of a chain, told one after the other.
ghost use Rattle.std.specs.Prelude.{◌≡◌, ◌≤◌, ◌<◌, ℕ, List, ◌∷◌, length, None, Ok, IfOk, true};
ghost use Rattle.batch_records.specs.DayRecord.{Day};
ghost use Rattle.batch_records.specs.Days.{day_of_bytes};
ghost use Rattle.batch_records.specs.Sound.{is_sound};
ghost use Rattle.day_chain.specs.Answers.{fault_behind, longest_input};
ghost use Rattle.day_chain.specs.Ledgers.{Stands};
ghost use Rattle.day_chain.specs.Steps.{IsPrepared, TakesNext, TellsDay};

use crate::ledger::{Last, Ledger, YearSums, add_day, fault_behind, open_year};
use crate::saying::{refuse, say_apart};
use crate::settling::{Settled, settle};
use crate::text::put_part;
use batch_records::{Day, DayFault, read_day};
use cash_amounts::Memory;
use outside_io::Sink;
use std::alloc::Global;

/// A day that joins and is settled, beside what is kept of those before it.
#[derive(Drop)]
pub struct Prepared {
    pub count: u32,
    pub years: Vec<YearSums>,
    pub year: YearSums,
    pub settled: Settled,
}

// Settles a day that joins those before it, and takes all memory that is needed to keep it.
fn prepare(alloc: Global, ledger: Ledger, day: Day) -> Result<Prepared, Memory>
    requires sound { is_sound day ≡ true }
    ensures { (told : List Day) → Stands told ledger → fault_behind told day ≡ None
        → IfOk result (λ prepared. IsPrepared told day prepared) }
{
    let Ledger {
        count,
        mut years,
        last,
    } = ledger;
    let year = open_year(alloc, &mut years, last, &day)?;
    let settled = settle(alloc, day)?;
    Ok(Prepared {
        count,
        years,
        year,
        settled,
    })
}

// What is kept once the day is told.
fn keep(prepared: Prepared) -> Ledger
    requires few { prepared.count < longest_input }
    requires prepared { (told : List Day) × (day : Day) × IsPrepared told day prepared }
    ensures { (told : List Day) (day : Day) → IsPrepared told day prepared
        → Stands (day ∷ told) result }
{
    let Prepared {
        count,
        years,
        mut year,
        settled,
    } = prepared;
    add_day(&mut year.sums, &settled);
    let before = settled.into_before();
    Ledger {
        count: count + 1,
        years,
        last: Some(Last { before, year }),
    }
}

// Tells a day that joins those before it. An Err is the status with which the chain ends.
fn tell_day<S: Sink>(alloc: Global, ledger: Ledger, day: Day, output: &mut S) -> Result<Ledger, u8>
    requires sound { is_sound day ≡ true }
    requires few { ledger.count < longest_input }
    requires stands { (told : List Day) × Stands told ledger × (fault_behind told day ≡ None) }
    ensures { (told : List Day) → Stands told ledger → fault_behind told day ≡ None
        → TellsDay told day (S.state output.old) (S.state output.new) result }
{
    let prepared = match prepare(alloc, ledger, day) {
        Ok(prepared) => prepared,
        Err(_) => return Err(1),
    };
    if put_part(
        &prepared.settled.setting.day,
        &prepared.settled.journal,
        output,
    )
    .is_err()
    {
        drop(prepared);
        return Err(5);
    }
    Ok(keep(prepared))
}

// Takes a day that was read and has so many bytes, where it joins: what is kept then, and its bytes.
fn take_day<S: Sink>(
    alloc: Global,
    ledger: Ledger,
    day: Day,
    size: usize,
    output: &mut S,
) -> Result<(Ledger, usize), u8>
    requires sound { is_sound day ≡ true }
    requires few { ledger.count < longest_input }
    requires stands { (told : List Day) × Stands told ledger }
    ensures told { (told : List Day) (bytes : List ℕ) → Stands told ledger
        → day_of_bytes bytes ≡ Ok (day, size) → size ≤ length bytes
        → TakesNext told bytes (S.state output.old) (S.state output.new) result }
    ensures length { IfOk result (λ taken. taken.1 ≡ size) }
{
    if let Some(fault) = fault_behind(&ledger.last, &day) {
        let status = say_apart(ledger.count, fault, output);
        drop(ledger);
        drop(day);
        return Err(status);
    }
    match tell_day(alloc, ledger, day, output) {
        Ok(ledger) => Ok((ledger, size)),
        Err(status) => Err(status),
    }
}

/// Takes the next day, where it is one and joins: what is kept then, and how many bytes it has.
pub fn take_next<S: Sink>(
    alloc: Global,
    ledger: Ledger,
    bytes: &[u8],
    output: &mut S,
) -> Result<(Ledger, usize), u8>
    requires few { ledger.count < longest_input }
    requires stands { (told : List Day) × Stands told ledger }
    ensures told { (told : List Day) → Stands told ledger
        → TakesNext told bytes.now (S.state output.old) (S.state output.new) result }
    ensures within { IfOk result (λ taken. taken.1 ≤ length bytes.now) }
{
    match read_day(alloc, bytes) {
        Ok((day, length)) => take_day(alloc, ledger, day, length, output),
        Err(DayFault::Record { number, code }) => Err(refuse(ledger.count, number, code, output)),
        Err(DayFault::Memory(_)) => Err(1),
    }
}
