//! What is held on accounts, and moved between them.
ghost use Rattle.std.specs.Prelude.{◌≡◌, ◌≢◌, ◌+◌, ◌-◌, ◌≤◌, ℕ, Option, IfOk, IsSome, Some, is_some, length, map};
ghost use Rattle.std.specs.Option.{IsSomeAnd};
ghost use Rattle.refused_memory.specs.declared.lists.TheConstants.{MOST};
ghost use Rattle.cash_amounts.specs.Numbers.{numbered};
ghost use Rattle.cash_amounts.specs.declared.cents.TheConstants.{MAX_CENTS};
ghost use Rattle.account_book.specs.Transfers.{transferred};

use crate::Book;
use cash_amounts::{AccountNumber, Cents, Memory};
use refused_memory::with_capacity;
use std::alloc::Global;
use std::marker::Model;

/// Balances of some accounts, to read. Contracts see what is held on each account, by its number, where it is here.
pub trait Holdings {
    ghost holdings: { Self → ℕ → Option ℕ };

    /// Whether the balance of the account is here.
    fn has(&self, a: AccountNumber) -> bool
        ensures { result ≡ is_some (holdings self.now a) };

    /// The balance, in cents, of an account that is here.
    fn balance(&self, a: AccountNumber) -> Cents
        requires { IsSome (holdings self.now a) }
        ensures { holdings self.now a ≡ Some result };
}

/// Balances between which amounts are moved.
pub trait Till: Holdings {
    /// Moves an amount from the debit account to the credit account. Both are here and different, the debit account covers
    /// the amount, and the credit account has room for it. The other accounts stay as they are.
    fn transfer(&mut self, debit: AccountNumber, credit: AccountNumber, amount: Cents)
        requires apart { debit ≢ credit }
        requires covered { IsSomeAnd (Self.holdings self.old debit) (λ held. amount ≤ held) }
        requires fits { IsSomeAnd (Self.holdings self.old credit)
            (λ held. held + amount ≤ MAX_CENTS) }
        ensures { (a : ℕ) → Self.holdings self.new a
            ≡ transferred (Self.holdings self.old) debit credit amount a };
}

/// The balances of all accounts. Contracts see them as a list, by number.
#[derive(Drop)]
pub struct OneTill {
    balances: Vec<Cents>,
}

impl Model for OneTill {
    ghost use Rattle.std.specs.Prelude.{List, ℕ};

    ghost Value = { List ℕ };

    ghost view = { λ till. till.balances.items };
}

/// Room for the balances of at most so many accounts. Contracts see how many.
#[derive(Drop)]
pub struct TillRoom {
    most: usize,
    balances: Vec<Cents>,
}

impl Model for TillRoom {
    ghost use Rattle.std.specs.Prelude.{ℕ, vec_capacity};
    ghost use Rattle.account_book.specs.Rooms.{HasRoom};

    ghost Value = { ℕ };

    ghost view = { λ r. r.most };

    ghost invariant = { λ r. HasRoom r.most r.balances.items (vec_capacity r.balances) };
}

impl TillRoom {
    /// Room for so many accounts. `Memory` says that there wasn't that much.
    pub fn take(alloc: Global, accounts: usize) -> Result<TillRoom, Memory>
        requires { accounts ≤ MOST }
        ensures { IfOk result (λ room. room ≡ accounts) }
    {
        let balances = with_capacity(alloc, accounts)?;
        Ok(TillRoom {
            most: accounts,
            balances,
        })
    }
}

impl OneTill {
    /// All accounts of the book at their openings, in room that was taken for them. Takes no memory.
    pub fn in_room(room: TillRoom, book: &Book) -> OneTill
        requires { length book.now.accounts ≤ room }
        ensures { result ≡ map (λ r. r.opening) book.now.accounts }
    {
        let count = book.count();
        let mut balances = room.balances;
        for i in 0..count {
            balances.push_reserved(book.opening(i + 1));
        }
        OneTill { balances }
    }

    /// All accounts of the book at their openings. `Memory` says that there wasn't enough of it.
    pub fn open(alloc: Global, book: &Book) -> Result<OneTill, Memory>
        ensures { IfOk result (λ till. till ≡ map (λ r. r.opening) book.now.accounts) }
    {
        let room = TillRoom::take(alloc, book.count() as usize)?;
        Ok(OneTill::in_room(room, book))
    }
}

impl Holdings for OneTill {
    ghost holdings = { numbered };

    fn has(&self, a: AccountNumber) -> bool {
        0 < a && (a as usize) <= self.balances.len()
    }

    fn balance(&self, a: AccountNumber) -> Cents {
        self.balances[(a - 1) as usize]
    }
}

impl Till for OneTill {
    fn transfer(&mut self, debit: AccountNumber, credit: AccountNumber, amount: Cents) {
        let from = (debit - 1) as usize;
        let to = (credit - 1) as usize;
        self.balances[from] = less(self.balances[from], amount);
        self.balances[to] = more(self.balances[to], amount);
    }
}

fn less(held: Cents, amount: Cents) -> Cents
    requires { amount ≤ held }
    ensures { result ≡ held - amount }
{
    Cents::of(held.get() - amount.get()).unwrap()
}

fn more(held: Cents, amount: Cents) -> Cents
    requires { held + amount ≤ MAX_CENTS }
    ensures { result ≡ held + amount }
{
    Cents::of(held.get() + amount.get()).unwrap()
}
