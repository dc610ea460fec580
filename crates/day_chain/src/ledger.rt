//! What is kept of a chain so far: the sums of its years, and what the next day has to join.
ghost use Rattle.std.specs.Prelude.{◌≡◌, ◌≤◌, ◌<◌, ◌+◌, ◌*◌, ℕ, List, [], ◌∷◌, None, true, length, IfOk};
ghost use Rattle.cash_amounts.specs.Numbers.{numbered};
ghost use Rattle.batch_records.specs.DayRecord.{Day};
ghost use Rattle.batch_records.specs.Sound.{is_sound};
ghost use Rattle.commit_journal.specs.Histories.{moves_of};
ghost use Rattle.machine.specs.Orders.Order.{plain};
ghost use Rattle.settle_floor.specs.Floors.{IsBalanced};
ghost use Rattle.day_chain.specs.declared.ledger.YearSums.{YearSums};
ghost use Rattle.day_chain.specs.Answers.{fault_behind};
ghost use Rattle.day_chain.specs.DayEnds.{set_aside};
ghost use Rattle.day_chain.specs.Ledgers.{IsOpened, most_amounts, Stands, StandsAt};
ghost use Rattle.day_chain.specs.Summing.{asides_to, HaveRoom, with_moves};

use crate::joining::{DayBefore, JoinFault, fault_between, is_technical};
use crate::settling::Settled;
use crate::sums::{Sums, add_moves, new_sums, set_aside};
use account_book::Holdings;
use batch_records::Day;
use cash_amounts::{MAX_CENTS, Memory};
use refused_memory::push;
use rule_book::parts::account_count;
use std::alloc::Global;

/// The sums of all accounts over the days of a year so far, by account number.
#[derive(Drop)]
pub struct YearSums {
    pub year: u16,
    pub sums: Vec<Sums>,
}

/// What is kept of the latest day: what the next one has to join, and the sums of its year.
#[derive(Drop)]
pub struct Last {
    pub before: DayBefore,
    pub year: YearSums,
}

/// What is kept of the days so far: how many there were, the sums of the years that are over, and what is kept of the latest
/// day.
#[derive(Drop)]
pub struct Ledger {
    pub count: u32,
    pub years: Vec<YearSums>,
    pub last: Option<Last>,
}

impl Ledger {
    /// Nothing is kept before the first day.
    pub fn new(alloc: Global) -> Ledger
        ensures { Stands [] result }
    {
        Ledger {
            count: 0,
            years: Vec::new(alloc),
            last: None,
        }
    }
}

// ---- the next day

/// Why a day doesn't join the latest one; none where it does, and where it is the first.
pub fn fault_behind(last: &Option<Last>, day: &Day) -> Option<JoinFault>
    requires stands { (told : List Day) × (books : List YearSums) × StandsAt last.now told books }
    requires sound { is_sound day.now ≡ true }
    ensures { (told : List Day) (books : List YearSums) → StandsAt last.now told books
        → result ≡ fault_behind told day.now }
{
    match last {
        Some(last) => fault_between(&last.before, day),
        None => None,
    }
}

/// The sums to which those of a day are to be added: those of the latest day's year, or new ones, where a year begins. The
/// sums of a year that is over are put with those of the others.
pub fn open_year(
    alloc: Global,
    years: &mut Vec<YearSums>,
    last: Option<Last>,
    day: &Day,
) -> Result<YearSums, Memory>
    requires sound { is_sound day.now ≡ true }
    ensures { (told : List Day) → StandsAt last told years.old.items
        → fault_behind told day.now ≡ None
        → IfOk result (λ book. IsOpened day.now told book years.new.items) }
{
    let year = day.date().year();
    match last {
        Some(last) => {
            if last.year.year == year {
                return Ok(last.year);
            }
            push(years, last.year)?;
        }
        None => {}
    }
    let sums = new_sums(alloc, day)?;
    Ok(YearSums { year, sums })
}

// ---- what a day adds

// What is set aside of an account at the end of the day.
fn aside_of(settled: &Settled, a: u32) -> u64
    requires lines { settled.now.journal.history ≡ plain settled.now.setting.day }
    requires balanced { IsBalanced settled.now.setting.day settled.now.journal
        (numbered settled.now.till) }
    requires least { 0 < a }
    requires most { a ≤ length settled.now.setting.day.accounts }
    ensures value { result ≡ set_aside settled.now.setting.day a }
    ensures small { result ≤ MAX_CENTS }
{
    if is_technical(settled.setting.day.accounts(), a) {
        settled.till.balance(a).get()
    } else {
        0
    }
}

// Adds what is set aside at the end of the day.
fn add_asides(sums: &mut [Sums], settled: &Settled)
    requires lines { settled.now.journal.history ≡ plain settled.now.setting.day }
    requires balanced { IsBalanced settled.now.setting.day settled.now.journal
        (numbered settled.now.till) }
    requires room { HaveRoom (length settled.now.setting.day.accounts) sums.old }
    ensures sums { sums.new ≡ asides_to (set_aside settled.now.setting.day)
        (length settled.now.setting.day.accounts) sums.old }
    ensures room { (n : ℕ) → HaveRoom (n + length settled.now.setting.day.accounts) sums.old
        → HaveRoom n sums.new }
{
    for before in 0..account_count(&settled.setting) {
        let amount = aside_of(settled, before + 1);
        set_aside(sums, before + 1, amount);
    }
}

/// Adds a day to the sums of its year.
pub fn add_day(sums: &mut [Sums], settled: &Settled)
    requires lines { settled.now.journal.history ≡ plain settled.now.setting.day }
    requires balanced { IsBalanced settled.now.setting.day settled.now.journal
        (numbered settled.now.till) }
    requires room { HaveRoom most_amounts sums.old }
    ensures sums { sums.new ≡ asides_to (set_aside settled.now.setting.day)
        (length settled.now.setting.day.accounts)
        (with_moves (moves_of settled.now.journal.history) sums.old) }
    ensures room { (n : ℕ) → HaveRoom (n + most_amounts) sums.old → HaveRoom n sums.new }
{
    add_moves(sums, settled.journal.moves());
    add_asides(sums, settled);
}
