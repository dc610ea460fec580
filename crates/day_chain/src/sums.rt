//! What a statement sums up of each account over the days of a year.
ghost use Rattle.std.specs.Prelude.{◌≡◌, ◌≤◌, ◌<◌, ◌+◌, ◌*◌, ◌^◌, ℕ, true, length, map, IfOk};
ghost use Rattle.std.specs.List.{range_with_len};
ghost use Rattle.batch_records.specs.Sound.{is_sound};
ghost use Rattle.machine.specs.Records.Setup.{account_numbers};
ghost use Rattle.day_chain.specs.Summing.{blank, changed, HaveRoom, more_aside, more_credits, more_debits, with_move, with_moves};

use batch_records::Day;
use cash_amounts::{AccountNumber, MAX_CENTS, Memory};
use commit_journal::Move;
use refused_memory::push;
use rule_book::parts::account;
use std::alloc::Global;

/// The sums of an account over the days of a year so far, in cents: its opening on the first of them, what left it and came to
/// it, and what was set aside.
#[derive(Clone, Copy, Debug, PartialEq, Eq)]
pub struct Sums {
    pub opening: u64,
    pub debits: u128,
    pub credits: u128,
    pub aside: u128,
}

// ---- one more amount

impl Sums {
    fn debit(&mut self, amount: u64)
        requires { self.old.debits + amount < 2 ^ 128 }
        ensures { self.new ≡ more_debits amount self.old }
    {
        self.debits += u128::from(amount);
    }

    fn credit(&mut self, amount: u64)
        requires { self.old.credits + amount < 2 ^ 128 }
        ensures { self.new ≡ more_credits amount self.old }
    {
        self.credits += u128::from(amount);
    }

    fn set_aside(&mut self, amount: u64)
        requires { self.old.aside + amount < 2 ^ 128 }
        ensures { self.new ≡ more_aside amount self.old }
    {
        self.aside += u128::from(amount);
    }
}

fn debit(sums: &mut [Sums], a: u32, amount: u64)
    requires room { HaveRoom 1 sums.old }
    requires small { amount ≤ MAX_CENTS }
    ensures { sums.new ≡ changed a (more_debits amount) sums.old }
{
    if a == 0 || a as usize > sums.len() {
        return;
    }
    let own = &mut sums[a as usize - 1];
    own.debit(amount);
}

fn credit(sums: &mut [Sums], a: u32, amount: u64)
    requires room { HaveRoom 1 sums.old }
    requires small { amount ≤ MAX_CENTS }
    ensures { sums.new ≡ changed a (more_credits amount) sums.old }
{
    if a == 0 || a as usize > sums.len() {
        return;
    }
    let own = &mut sums[a as usize - 1];
    own.credit(amount);
}

/// Adds what is set aside to the sums of an account.
pub fn set_aside(sums: &mut [Sums], a: AccountNumber, amount: u64)
    requires room { HaveRoom 1 sums.old }
    requires small { amount ≤ MAX_CENTS }
    ensures { sums.new ≡ changed a (more_aside amount) sums.old }
{
    if a == 0 || a as usize > sums.len() {
        return;
    }
    let own = &mut sums[a as usize - 1];
    own.set_aside(amount);
}

// ---- a journal

fn add_move(sums: &mut [Sums], one: Move)
    requires { HaveRoom 2 sums.old }
    ensures sums { sums.new ≡ with_move one sums.old }
    ensures room { (n : ℕ) → HaveRoom (n + 2) sums.old → HaveRoom n sums.new }
{
    let amount = one.amount.get();
    debit(sums, one.debit, amount);
    credit(sums, one.credit, amount);
}

/// Adds moves to the sums of their accounts.
pub fn add_moves(sums: &mut [Sums], moves: &[Move])
    requires { HaveRoom (2 * length moves.now) sums.old }
    ensures sums { sums.new ≡ with_moves moves.now sums.old }
    ensures room { (n : ℕ) → HaveRoom (n + 2 * length moves.now) sums.old → HaveRoom n sums.new }
{
    for one in moves {
        add_move(sums, *one);
    }
}

// ---- a new year

fn blank(day: &Day, a: u32) -> Sums
    ensures { result ≡ blank day.now a }
{
    let opening = match account(day, a) {
        Some(record) => record.opening.get(),
        None => 0,
    };
    Sums {
        opening,
        debits: 0,
        credits: 0,
        aside: 0,
    }
}

/// The sums of all accounts before the first day of a year.
pub fn new_sums(alloc: Global, day: &Day) -> Result<Vec<Sums>, Memory>
    requires { is_sound day.now ≡ true }
    ensures { IfOk result (λ sums. sums.items ≡ map (blank day.now) (account_numbers day.now)) }
{
    let mut sums = Vec::new(alloc);
    let count = day.accounts().len() as u32;
    for before in 0..count {
        push(&mut sums, blank(day, before + 1))?;
    }
    Ok(sums)
}
