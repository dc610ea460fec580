//! What each account of a day holds.
ghost use Rattle.std.specs.Prelude.{◌≡◌, ◌<◌, ◌≤◌, Some, length, map, IfOk};
ghost use Rattle.cash_amounts.specs.Numbers.{numbered};

use crate::amounts::{less, more};
use crate::name::HallName;
use account_book::{Holdings, Till};
use cash_amounts::{AccountNumber, Cents, Memory};
use refused_memory::{push, with_capacity};
use rule_book::Setting;
use rule_book::parts::account_count;
use std::alloc::Global;
use std::marker::{Model, PhantomData};

/// What each account of a day holds. Contracts see the balances as a list, by the number of the account.
#[derive(Drop)]
pub struct Balances {
    held: Vec<Cents>,
}

impl Model for Balances {
    ghost use Rattle.std.specs.Prelude.{List, ℕ};

    ghost Value = { List ℕ };

    ghost view = { λ balances. balances.held.items };
}

impl Balances {
    // The openings of all accounts.
    pub(crate) fn open(alloc: Global, setting: &Setting) -> Result<Balances, Memory>
        ensures count { IfOk result (λ balances. length balances ≡ length setting.now.day.accounts) }
        ensures openings { IfOk result (λ balances. balances
            ≡ map (λ r. r.opening) setting.now.book.accounts) }
    {
        let count = account_count(setting);
        let mut held = with_capacity(alloc, count as usize)?;
        for i in 0..count {
            push(&mut held, setting.book.opening(i + 1))?;
        }
        Ok(Balances { held })
    }

    /// What an account holds, in cents.
    pub fn get(&self, a: AccountNumber) -> Cents
        requires least { 0 < a }
        requires most { a ≤ length self.now }
        ensures { numbered self.now a ≡ Some result }
    {
        self.held[(a - 1) as usize]
    }
}

impl Holdings for Balances {
    ghost holdings = { numbered };

    fn has(&self, a: AccountNumber) -> bool {
        0 < a && (a as usize) <= self.held.len()
    }

    fn balance(&self, a: AccountNumber) -> Cents {
        self.held[(a - 1) as usize]
    }
}

// The balances of all accounts of the hall's day, and of no other, between which amounts are moved. Contracts see them as a list,
// by the number of the account.
#[derive(Drop)]
pub(crate) struct HallTill<H: HallName> {
    held: Vec<Cents>,
    of: PhantomData<H>,
}

impl<H: HallName> Model for HallTill<H> {
    ghost use Rattle.std.specs.Prelude.{◌≡◌, List, ℕ, length};

    ghost Value = { List ℕ };

    ghost view = { λ till. till.held.items };

    ghost invariant = { λ till. length till.held.items ≡ length H.day.accounts };
}

impl<H: HallName> HallTill<H> {
    pub(crate) fn new(balances: Balances) -> HallTill<H>
        requires { length balances ≡ length H.day.accounts }
        ensures { result ≡ balances }
    {
        let Balances { held } = balances;
        HallTill {
            held,
            of: PhantomData,
        }
    }

    pub(crate) fn into_balances(self) -> Balances
        ensures same { result ≡ self }
        ensures count { length result ≡ length H.day.accounts }
    {
        let HallTill { held, .. } = self;
        Balances { held }
    }
}

impl<H: HallName> Holdings for HallTill<H> {
    ghost holdings = { numbered };

    fn has(&self, a: AccountNumber) -> bool {
        0 < a && (a as usize) <= self.held.len()
    }

    fn balance(&self, a: AccountNumber) -> Cents {
        self.held[(a - 1) as usize]
    }
}

impl<H: HallName> Till for HallTill<H> {
    fn transfer(&mut self, debit: AccountNumber, credit: AccountNumber, amount: Cents) {
        let from = (debit - 1) as usize;
        let to = (credit - 1) as usize;
        self.held[from] = less(self.held[from], amount);
        self.held[to] = more(self.held[to], amount);
    }
}
