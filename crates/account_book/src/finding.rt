//! Names looked up by their hashes. Where the first of a hash has another name, which hardly ever is, all are gone over.
ghost use Rattle.std.specs.Prelude.{◌≡◌, ◌<◌, ◌≤◌, ◌^◌, length, IfSome};
ghost use Rattle.cash_amounts.specs.Tests.{same_name};
ghost use Rattle.account_book.specs.Directory.{find_account, find_system, first_dca, is_dca_of};
ghost use Rattle.account_book.specs.Filed.{Agree, account_hashed, bank_hashed, hash_of, number_at, system_hashed};

use crate::directory::Directories;
use cash_amounts::{AccountKind, AccountRecord, Name, SystemRecord};

fn is_account(name: &Name, account: &AccountRecord) -> bool
    ensures { result ≡ same_name account.now.name name.now }
{
    account.name == *name
}

fn is_system(name: &Name, system: &SystemRecord) -> bool
    ensures { result ≡ same_name system.now.name name.now }
{
    system.name == *name
}

fn is_dca_of(bank: &Name, account: &AccountRecord) -> bool
    ensures { result ≡ is_dca_of bank.now account.now }
{
    matches!(account.kind, AccountKind::Dca) && account.owner == *bank
}

fn any_account(accounts: &[AccountRecord], name: &Name) -> Option<u32>
    requires { length accounts.now < 2 ^ 32 }
    ensures { result ≡ find_account accounts.now name.now }
{
    for (i, account) in accounts.iter().enumerate() {
        if is_account(name, account) {
            return Some(i as u32 + 1);
        }
    }
    None
}

fn any_system(systems: &[SystemRecord], name: &Name) -> Option<u32>
    requires { length systems.now < 2 ^ 32 }
    ensures { result ≡ find_system systems.now name.now }
{
    for (i, system) in systems.iter().enumerate() {
        if is_system(name, system) {
            return Some(i as u32 + 1);
        }
    }
    None
}

fn any_dca(accounts: &[AccountRecord], bank: &Name) -> Option<u32>
    requires { length accounts.now < 2 ^ 32 }
    ensures { result ≡ first_dca accounts.now bank.now }
{
    for (i, account) in accounts.iter().enumerate() {
        if is_dca_of(bank, account) {
            return Some(i as u32 + 1);
        }
    }
    None
}

impl Directories {
    // The first account with a name of the hash of this one.
    fn account_hashed(&self, accounts: &[AccountRecord], name: &Name) -> Option<u32>
        requires { Agree (number_at self.now.accounts)
            (account_hashed self.now.hasher accounts.now) }
        ensures number { result
            ≡ account_hashed self.now.hasher accounts.now (hash_of self.now.hasher name.now) }
        ensures within { IfSome result (λ a. (0 < a) × (a ≤ length accounts.now)) }
    {
        self.accounts.get(self.hasher.hash(name))
    }

    fn system_hashed(&self, systems: &[SystemRecord], name: &Name) -> Option<u32>
        requires { Agree (number_at self.now.systems) (system_hashed self.now.hasher systems.now) }
        ensures number { result
            ≡ system_hashed self.now.hasher systems.now (hash_of self.now.hasher name.now) }
        ensures within { IfSome result (λ s. (0 < s) × (s ≤ length systems.now)) }
    {
        self.systems.get(self.hasher.hash(name))
    }

    fn bank_hashed(&self, accounts: &[AccountRecord], bank: &Name) -> Option<u32>
        requires { Agree (number_at self.now.banks) (bank_hashed self.now.hasher accounts.now) }
        ensures number { result
            ≡ bank_hashed self.now.hasher accounts.now (hash_of self.now.hasher bank.now) }
        ensures within { IfSome result (λ a. (0 < a) × (a ≤ length accounts.now)) }
    {
        self.banks.get(self.hasher.hash(bank))
    }

    // The number of the account of a name.
    pub(crate) fn account(&self, accounts: &[AccountRecord], name: &Name) -> Option<u32>
        requires few { length accounts.now < 2 ^ 32 }
        requires filed { Agree (number_at self.now.accounts)
            (account_hashed self.now.hasher accounts.now) }
        ensures { result ≡ find_account accounts.now name.now }
    {
        match self.account_hashed(accounts, name) {
            Some(a) => {
                if is_account(name, &accounts[(a - 1) as usize]) {
                    Some(a)
                } else {
                    any_account(accounts, name)
                }
            }
            None => None,
        }
    }

    // The number of the system of a name.
    pub(crate) fn system(&self, systems: &[SystemRecord], name: &Name) -> Option<u32>
        requires few { length systems.now < 2 ^ 32 }
        requires filed { Agree (number_at self.now.systems)
            (system_hashed self.now.hasher systems.now) }
        ensures { result ≡ find_system systems.now name.now }
    {
        match self.system_hashed(systems, name) {
            Some(s) => {
                if is_system(name, &systems[(s - 1) as usize]) {
                    Some(s)
                } else {
                    any_system(systems, name)
                }
            }
            None => None,
        }
    }

    // The number of the first dedicated cash account of a bank.
    pub(crate) fn bank(&self, accounts: &[AccountRecord], bank: &Name) -> Option<u32>
        requires few { length accounts.now < 2 ^ 32 }
        requires filed { Agree (number_at self.now.banks)
            (bank_hashed self.now.hasher accounts.now) }
        ensures { result ≡ first_dca accounts.now bank.now }
    {
        match self.bank_hashed(accounts, bank) {
            Some(a) => {
                if is_dca_of(bank, &accounts[(a - 1) as usize]) {
                    Some(a)
                } else {
                    any_dca(accounts, bank)
                }
            }
            None => None,
        }
    }
}
