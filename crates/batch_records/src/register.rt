//! The accounts of a day that is being read, with an index of their names.

ghost use Rattle.std.specs.Prelude.{◌≡◌, ◌<◌, ◌≤◌, ◌||◌, ◌&&◌, ◌+◌, ℕ, List, [], ◌∷◌, ◌++◌, IfOk, bytes_eq, length};
ghost use Rattle.cash_amounts.specs.Kinds.{is_dca};
ghost use Rattle.cash_amounts.specs.SoundSetup.{owns_dca};
ghost use Rattle.cash_amounts.specs.declared.limits.TheConstants.{MAX_ACCOUNTS};
ghost use Rattle.batch_records.specs.Codes.{is_dca_named};
ghost use Rattle.batch_records.specs.Indexed.{is_among, has_name};
ghost use Rattle.batch_records.specs.Made.{number_named};

use crate::lists::Accounts;
use crate::setup::{is_dca_number, number_named, owns_dca};
use cash_amounts::{AccountKind, AccountRecord, MAX_ACCOUNTS, Memory, Name};
use message_names::FirstNames;
use refused_memory::with_capacity;
use std::alloc::Global;
use std::marker::Model;

/// Accounts in file order, with room for as many as a day may have, and with an index of their names and of the banks that own a
/// dedicated cash account among them, so that a name is found without a walk over all accounts, whatever the names are. Contracts
/// see the list.
#[derive(Drop)]
pub struct Register {
    accounts: Vec<AccountRecord>,
    names: FirstNames,
    banks: FirstNames,
}

impl Model for Register {
    ghost use Rattle.std.specs.Prelude.{List, vec_capacity};
    ghost use Rattle.cash_amounts.specs.declared.records.AccountRecord.{AccountRecord};
    ghost use Rattle.batch_records.specs.Indexed.{IsKept};

    ghost Value = { List AccountRecord };

    ghost view = { λ r. r.accounts.items };

    ghost invariant = { λ r. IsKept r.accounts.items (vec_capacity r.accounts) r.names r.banks };
}

impl Register {
    /// No accounts. `Memory` says that there wasn't enough of it.
    pub fn with_room(alloc: Global) -> Result<Register, Memory>
        ensures { IfOk result (λ register. register ≡ []) }
    {
        let accounts = with_capacity(alloc, MAX_ACCOUNTS)?;
        let names = FirstNames::with_room(alloc, MAX_ACCOUNTS as u32)?;
        let banks = FirstNames::with_room(alloc, MAX_ACCOUNTS as u32)?;
        Ok(Register {
            accounts,
            names,
            banks,
        })
    }

    /// Puts an account at the end. Takes no memory.
    pub fn push(&mut self, account: AccountRecord)
        requires { length self.old < MAX_ACCOUNTS }
        ensures { self.new ≡ self.old ++ account ∷ [] }
    {
        self.names.enter(&account.name);
        enter_bank(&mut self.banks, &account);
        self.accounts.push_reserved(account);
    }

    /// The accounts.
    pub fn as_slice(&self) -> &[AccountRecord]
        ensures { result.now ≡ self.now }
    {
        self.accounts.as_slice()
    }

    /// The list, without its index.
    pub fn into_list(self) -> Accounts
        ensures { result ≡ self }
    {
        Accounts::of(self.accounts)
    }

    fn number_of(&self, name: &Name) -> Option<usize>
        ensures { result ≡ number_named self.now name.now }
    {
        match self.names.first(name) {
            Some(i) => Some(i as usize + 1),
            None => None,
        }
    }

    /// The number of the first account of this name, which counts from 1.
    pub fn number(&self, name: &[u8]) -> Option<usize>
        ensures { result ≡ number_named self.now name.now }
    {
        match Name::read(name) {
            Some(name) => self.number_of(&name),
            None => number_named(self.accounts.as_slice(), name),
        }
    }

    /// Whether an account has this name.
    #[tactic(auto, using(crate::proofs::NumberFacts::number_there))]
    pub fn has_account(&self, name: &[u8]) -> bool
        ensures { result ≡ has_name self.now name.now }
    {
        self.number(name).is_some()
    }

    /// Whether the account of this name is a dedicated cash account.
    pub fn has_dca(&self, name: &[u8]) -> bool
        ensures { result ≡ is_dca_named self.now name.now }
    {
        match self.number(name) {
            Some(a) => is_dca_number(self.accounts.as_slice(), a),
            None => false,
        }
    }

    fn is_owner(&self, bank: &Name) -> bool
        ensures { result ≡ owns_dca self.now bank.now }
    {
        is_among(&self.banks, bank)
    }

    /// Whether a bank owns a dedicated cash account.
    pub fn owns_dca(&self, bank: &[u8]) -> bool
        ensures { result ≡ owns_dca self.now bank.now }
    {
        match Name::read(bank) {
            Some(bank) => self.is_owner(&bank),
            None => owns_dca(self.accounts.as_slice(), bank),
        }
    }
}

// Whether a name was entered.
#[tactic(auto, using(crate::proofs::NumberFacts::number_there))]
fn is_among(names: &FirstNames, name: &Name) -> bool
    ensures { result ≡ is_among names.now.names name.now }
{
    names.first(name).is_some()
}

// Enters the owner of a dedicated cash account.
fn enter_bank(banks: &mut FirstNames, account: &AccountRecord)
    requires { length banks.old.names < banks.old.most }
    ensures names { (bank : List ℕ)
        → is_among banks.new.names bank
        ≡ (is_among banks.old.names bank
        || (is_dca account.now.kind && bytes_eq account.now.owner bank)) }
    ensures few { length banks.new.names ≤ length banks.old.names + 1 }
    ensures most { banks.new.most ≡ banks.old.most }
{
    if account.kind == AccountKind::Dca {
        banks.enter(&account.owner);
    }
}
