//! Which accounts are shown: all dedicated cash accounts of a party, and of the whole day the ten that moved most.
ghost use Rattle.std.specs.Prelude.{◌≡◌, ◌≤◌, ◌++◌, ◌∷◌, [], IfOk, count_by, length, replicate, if◌then◌else◌};
ghost use Rattle.cash_amounts.specs.declared.limits.TheConstants.{MAX_ACCOUNTS};
ghost use Rattle.commit_journal.specs.Histories.{moves_of};
ghost use Rattle.day_facts.specs.Lists.{changed};
ghost use Rattle.day_page.specs.Courses;
ghost use Rattle.day_page.specs.Courses.{added, is_ahead, is_shown, most_shown, mover_of, shown_of, shown_part, turned_by};

use crate::parties::owns_dca;
use crate::words::Request;
use cash_amounts::{MAX_ACCOUNTS, Memory};
use commit_journal::{Journal, Move};
use refused_memory::{filled, push};
use rule_book::Setting;
use rule_book::parts::account_count;
use std::alloc::Global;

/// An account, whether it is a dedicated cash account of the party, and the sum of all that left it and came to it, in cents.
#[derive(Clone, Copy, Debug, PartialEq, Eq)]
pub struct Mover {
    pub account: u32,
    pub own: bool,
    pub cents: u128,
}

// Adds an amount to the sum of an account, where there is one.
fn add_to(sums: &mut [u128], a: u32, amount: u64)
    ensures { sums.new ≡ changed a (added amount) sums.old }
{
    if a == 0 || a as usize > sums.len() {
        return;
    }
    let i = a as usize - 1;
    sums[i] = sums[i].saturating_add(u128::from(amount));
}

// Adds what each move took and brought to the sums of its two accounts, which were nothing.
fn add_all(sums: &mut [u128], moves: &[Move])
    requires none { sums.old ≡ turned_by [] (length sums.old) }
    ensures { sums.new ≡ turned_by moves.now (length sums.old) }
{
    for one in moves {
        let amount = one.amount.get();
        add_to(sums, one.debit, amount);
        add_to(sums, one.credit, amount);
    }
}

// So many sums of nothing.
fn no_sums(alloc: Global, count: u32) -> Result<Vec<u128>, Memory>
    ensures { IfOk result (λ sums. sums.items ≡ replicate count 0) }
{
    filled(alloc, 0, count as usize)
}

// What all moves of the journal did to each account, by its number.
fn turnovers(alloc: Global, setting: &Setting, journal: &Journal) -> Result<Vec<u128>, Memory>
    ensures { IfOk result (λ sums. sums.items
        ≡ turned_by (moves_of journal.now.history) (length setting.now.day.accounts)) }
{
    let mut sums = no_sums(alloc, account_count(setting))?;
    add_all(sums.as_mut_slice(), journal.moves());
    Ok(sums)
}

fn mover_of(setting: &Setting, request: &Request, a: u32, cents: u128) -> Mover
    ensures { result ≡ mover_of setting.now.day request.now a cents }
{
    Mover {
        account: a,
        own: owns_dca(setting, request, a),
        cents,
    }
}

fn movers(
    alloc: Global,
    setting: &Setting,
    request: &Request,
    journal: &Journal,
) -> Result<Vec<Mover>, Memory>
    ensures { IfOk result (λ movers. movers.items
        ≡ Courses.movers setting.now.day request.now journal.now.history) }
{
    let sums = turnovers(alloc, setting, journal)?;
    let mut movers = Vec::new(alloc);
    for before in 0..account_count(setting) {
        let cents = sums[before as usize];
        push(&mut movers, mover_of(setting, request, before + 1, cents))?;
    }
    Ok(movers)
}

fn is_ahead(one: &Mover, other: &Mover) -> bool
    ensures { result ≡ is_ahead one.now other.now }
{
    other.own
        && (one.cents < other.cents || one.cents == other.cents && other.account < one.account)
}

fn count_ahead(movers: &[Mover], one: &Mover) -> usize
    ensures { result ≡ count_by (is_ahead one.now) movers.now }
{
    movers.iter().filter(|other| is_ahead(one, other)).count()
}

// How many accounts are shown at most: of a party all that a day may have.
fn most_shown(request: &Request) -> usize
    ensures value { result ≡ most_shown request.now }
    ensures few { result ≤ MAX_ACCOUNTS }
{
    match &request.party {
        Some(_) => MAX_ACCOUNTS,
        None => 10,
    }
}

fn is_shown(most: usize, movers: &[Mover], one: &Mover) -> bool
    ensures { result ≡ is_shown most movers.now one.now }
{
    one.own && count_ahead(movers, one) < most
}

// Puts a number at the end of a list, where the test holds.
pub fn push_if(list: &mut Vec<u32>, test: bool, number: u32) -> Result<(), Memory>
    ensures { IfOk result (λ pushed. list.new.items
        ≡ list.old.items ++ (if test then number ∷ [] else [])) }
{
    if test {
        push(list, number)?;
    }
    Ok(())
}

// Puts the number of an account that is shown after the others.
fn put_shown(most: usize, movers: &[Mover], one: &Mover, shown: &mut Vec<u32>) -> Result<(), Memory>
    ensures { IfOk result (λ put. shown.new.items
        ≡ shown.old.items ++ shown_part most movers.now one.now) }
{
    push_if(shown, is_shown(most, movers, one), one.account)
}

fn shown_among(alloc: Global, most: usize, movers: &[Mover]) -> Result<Vec<u32>, Memory>
    ensures { IfOk result (λ shown. shown.items ≡ shown_of most movers.now) }
{
    let mut shown = Vec::new(alloc);
    for one in movers {
        put_shown(most, movers, one, &mut shown)?;
    }
    Ok(shown)
}

/// The numbers of the accounts that are shown, in file order.
pub fn shown(
    alloc: Global,
    setting: &Setting,
    request: &Request,
    journal: &Journal,
) -> Result<Vec<u32>, Memory>
    ensures shown { IfOk result (λ shown. shown.items
        ≡ Courses.shown setting.now.day request.now journal.now.history) }
    ensures few { IfOk result (λ shown. length shown.items ≤ MAX_ACCOUNTS) }
{
    let most = most_shown(request);
    let movers = movers(alloc, setting, request, journal)?;
    let mut shown = shown_among(alloc, most, movers.as_slice())?;
    shown.truncate(most);
    Ok(shown)
}
