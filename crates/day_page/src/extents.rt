//! What each account holds after some lines, kept for all accounts in one pass along the journal.
ghost use Rattle.std.specs.Prelude.{◌≡◌, ◌≤◌, ◌-◌, ◌*◌, ◌^◌, [], ℕ, IfOk, length};
ghost use Rattle.commit_journal.specs.Histories.{oldest};
ghost use Rattle.machine.specs.Telling.Balances.{credits};
ghost use Rattle.machine.specs.Legal.{IsLegal};
ghost use Rattle.day_facts.specs.Lists.{changed};
ghost use Rattle.day_page.specs.Extents;
ghost use Rattle.day_page.specs.Extents.{credited_by, debited_by, held_in, lowered, marked, marked_by, moved_by, raised};

use cash_amounts::Memory;
use commit_journal::{Journal, Move};
use refused_memory::push;
use rule_book::Setting;
use rule_book::parts::{account_count, opening};
use std::alloc::Global;

/// What an account holds after some lines, and the lowest and the highest that it held over all beginnings of them, in cents.
#[derive(Clone, Copy, Debug, PartialEq, Eq)]
pub struct Extent {
    pub held: u128,
    pub lowest: u128,
    pub highest: u128,
}

// ---- before the first line

fn opened(setting: &Setting, a: u32) -> Extent
    ensures { result ≡ Extents.extent setting.now.day [] a }
{
    let held = u128::from(opening(setting, a));
    Extent {
        held,
        lowest: held,
        highest: held,
    }
}

/// What all accounts hold before the first line.
pub fn first_extents(alloc: Global, setting: &Setting) -> Result<Vec<Extent>, Memory>
    ensures { IfOk result (λ extents. extents.items ≡ Extents.extents setting.now.day []) }
{
    let mut extents = Vec::new(alloc);
    for before in 0..account_count(setting) {
        push(&mut extents, opened(setting, before + 1))?;
    }
    Ok(extents)
}

// ---- one account

fn raise(extents: &mut [Extent], a: u32, amount: u64)
    ensures { extents.new ≡ changed a (raised amount) extents.old }
{
    if a == 0 || a as usize > extents.len() {
        return;
    }
    let i = a as usize - 1;
    extents[i].held = extents[i].held.saturating_add(u128::from(amount));
}

fn lower(extents: &mut [Extent], a: u32, amount: u64)
    ensures { extents.new ≡ changed a (lowered amount) extents.old }
{
    if a == 0 || a as usize > extents.len() {
        return;
    }
    let i = a as usize - 1;
    extents[i].held = extents[i].held.saturating_sub(u128::from(amount));
}

fn mark(extents: &mut [Extent], a: u32)
    ensures { extents.new ≡ changed a marked extents.old }
{
    if a == 0 || a as usize > extents.len() {
        return;
    }
    let i = a as usize - 1;
    let held = extents[i].held;
    extents[i] = Extent {
        held,
        lowest: extents[i].lowest.min(held),
        highest: extents[i].highest.max(held),
    };
}

// ---- one line

fn credit_all(extents: &mut [Extent], moves: &[Move])
    ensures value { extents.new ≡ credited_by moves.now extents.old }
    ensures small { (a : ℕ) → credits a moves.now ≤ 10 ^ 18 * length moves.now }
{
    for one in moves {
        raise(extents, one.credit, one.amount.get());
    }
}

fn debit_all(extents: &mut [Extent], moves: &[Move])
    ensures { extents.new ≡ debited_by moves.now extents.old }
{
    for one in moves {
        lower(extents, one.debit, one.amount.get());
    }
}

fn mark_all(extents: &mut [Extent], moves: &[Move])
    ensures { extents.new ≡ marked_by moves.now extents.old }
{
    for one in moves {
        mark(extents, one.debit);
        mark(extents, one.credit);
    }
}

fn move_all(extents: &mut [Extent], moves: &[Move])
    ensures value { extents.new ≡ moved_by moves.now extents.old }
    ensures small { (a : ℕ) → credits a moves.now ≤ 10 ^ 18 * length moves.now }
{
    credit_all(extents, moves);
    debit_all(extents, moves);
    mark_all(extents, moves);
}

/// What all accounts hold after the line at a place, where they held that before it.
pub fn note_line(setting: &Setting, journal: &Journal, place: u32, extents: &mut [Extent])
    requires legal { IsLegal setting.now.day journal.now.history }
    requires from { 1 ≤ place }
    requires to { place ≤ length journal.now.history }
    requires before { extents.old ≡ Extents.extents setting.now.day
        (oldest journal.now.history (place - 1)) }
    ensures { extents.new ≡ Extents.extents setting.now.day (oldest journal.now.history place) }
{
    let (_, moves) = journal.line(place);
    move_all(extents, moves);
}

// ---- what they hold

/// What account a holds; nothing where there is none.
pub fn held_at(extents: &[Extent], a: u32) -> u128
    ensures { result ≡ held_in extents.now a }
{
    if a == 0 {
        return 0;
    }
    match extents.get(a as usize - 1) {
        Some(extent) => extent.held,
        None => 0,
    }
}
