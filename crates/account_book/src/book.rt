//! The book of accounts and systems.
ghost use Rattle.std.specs.Prelude.{◌≡◌, ◌<◌, ◌≤◌, ℕ, List, Some, true, length, IfOk, IfSome};
ghost use Rattle.std.specs.Option.{option_and_then, option_map};
ghost use Rattle.cash_amounts.specs.Numbers.{numbered};
ghost use Rattle.cash_amounts.specs.SoundSetup.{sound_setup};
ghost use Rattle.account_book.specs.Filed.{roles};
ghost use Rattle.account_book.specs.Directory.{account_name, find_account, find_system, first_dca, fund_account, linked_system, lists_procedure, opening, owner, system_name, technical_account, uses};

use crate::copies::{copy_accounts, copy_systems};
use crate::directory::{Directories, Roles, all_roles, links, place};
use crate::room::BookRoom;
use cash_amounts::{
    AccountKind, AccountNumber, AccountRecord, Cents, Memory, Name, Procedure, SystemRecord,
};
use std::alloc::Global;
use std::marker::Model;

/// The accounts and systems of a sound setup, each numbered from 1 in file order. Names are looked up by
/// a hash that hangs on all of them. Contracts see the two lists of records.
#[derive(Drop)]
pub struct Book {
    accounts: Vec<AccountRecord>,
    systems: Vec<SystemRecord>,
    directories: Directories,
    links: Vec<Option<u32>>,
    roles: Vec<Roles>,
}

impl Model for Book {
    ghost use Rattle.account_book.specs.Setup.{Setup};

    ghost Value = { Setup };

    ghost use Rattle.account_book.specs.Filed.{IsFiled};

    ghost view = { λ b. record { accounts = b.accounts.items; systems = b.systems.items } };

    ghost invariant = { λ b. IsFiled b.accounts.items b.systems.items b.directories b.links.items
        b.roles.items };
}

impl Book {
    /// The book of these records, in room that was taken for them. Takes no memory. A setup that isn't sound can't be given.
    pub fn in_room(room: BookRoom, accounts: &[AccountRecord], systems: &[SystemRecord]) -> Book
        requires sound { sound_setup accounts.now systems.now ≡ true }
        requires accounts { length accounts.now ≤ room.accounts }
        requires systems { length systems.now ≤ room.systems }
        ensures { result ≡ record { accounts = accounts.now; systems = systems.now } }
    {
        let directories = room.directories.file(accounts, systems);
        let links = links(room.links, accounts, systems, &directories);
        let roles = all_roles(room.roles, accounts, systems);
        Book {
            accounts: copy_accounts(room.accounts, accounts),
            systems: copy_systems(room.systems, systems),
            directories,
            links,
            roles,
        }
    }

    /// The book of these records. `Memory` says that there wasn't enough of it; a setup that isn't sound can't be given.
    pub fn build(
        alloc: Global,
        accounts: &[AccountRecord],
        systems: &[SystemRecord],
    ) -> Result<Book, Memory>
        requires { sound_setup accounts.now systems.now ≡ true }
        ensures { IfOk result (λ book. book
            ≡ record { accounts = accounts.now; systems = systems.now }) }
    {
        let room = BookRoom::take(alloc, accounts.len(), systems.len())?;
        Ok(Book::in_room(room, accounts, systems))
    }

    // The record of an account.
    fn account(&self, a: u32) -> &AccountRecord
        requires least { 0 < a }
        requires most { a ≤ length self.now.accounts }
        ensures { numbered self.now.accounts a ≡ Some result.now }
    {
        &self.accounts[(a - 1) as usize]
    }

    // The record of a system.
    fn system_record(&self, s: u32) -> &SystemRecord
        requires least { 0 < s }
        requires most { s ≤ length self.now.systems }
        ensures { numbered self.now.systems s ≡ Some result.now }
    {
        &self.systems[(s - 1) as usize]
    }

    /// How many accounts there are.
    pub fn count(&self) -> u32
        ensures count { result ≡ length self.now.accounts }
        ensures sound { sound_setup self.now.accounts self.now.systems ≡ true }
    {
        self.accounts.len() as u32
    }

    /// The number of the account of this name, if there is one.
    pub fn find(&self, name: &Name) -> Option<u32>
        ensures number { result ≡ find_account self.now.accounts name.now }
        ensures name { IfSome result (λ a. account_name self.now.accounts a ≡ name.now) }
        ensures within { IfSome result (λ a. (0 < a) × (a ≤ length self.now.accounts)) }
    {
        self.directories.account(&self.accounts, name)
    }

    /// The name of an account.
    pub fn name(&self, a: AccountNumber) -> &Name
        requires least { 0 < a }
        requires most { a ≤ length self.now.accounts }
        ensures { result.now ≡ account_name self.now.accounts a }
    {
        &self.account(a).name
    }

    /// The kind of an account.
    pub fn kind(&self, a: AccountNumber) -> AccountKind
        requires least { 0 < a }
        requires most { a ≤ length self.now.accounts }
        ensures { option_map (λ r. r.kind) (numbered self.now.accounts a) ≡ Some result }
    {
        self.account(a).kind
    }

    /// The owner of an account: a bank, of a dedicated cash account or a sub-account, else a system.
    pub fn owner(&self, a: AccountNumber) -> &Name
        requires least { 0 < a }
        requires most { a ≤ length self.now.accounts }
        ensures { result.now ≡ owner self.now.accounts a }
    {
        &self.account(a).owner
    }

    /// The balance with which an account begins the day, in cents.
    pub fn opening(&self, a: AccountNumber) -> Cents
        requires least { 0 < a }
        requires most { a ≤ length self.now.accounts }
        ensures { result ≡ opening self.now.accounts a }
    {
        self.account(a).opening
    }

    /// The number of the system that an account is dedicated to: some for a sub-account, none for the other kinds.
    pub fn linked(&self, a: AccountNumber) -> Option<u32>
        requires least { 0 < a }
        requires most { a ≤ length self.now.accounts }
        ensures number { result ≡ option_and_then (find_system self.now.systems)
            (linked_system self.now.accounts a) }
        ensures name { option_map (system_name self.now.systems) result
            ≡ linked_system self.now.accounts a }
        ensures within { IfSome result (λ s. (0 < s) × (s ≤ length self.now.systems)) }
    {
        self.links[(a - 1) as usize]
    }

    /// The number of the bank's first dedicated cash account, if it has one, which makes it a bank.
    pub fn first_dca(&self, bank: &Name) -> Option<u32>
        ensures number { result ≡ first_dca self.now.accounts bank.now }
        ensures within { IfSome result (λ a. (0 < a) × (a ≤ length self.now.accounts)) }
    {
        self.directories.bank(&self.accounts, bank)
    }

    /// How many systems there are.
    pub fn system_count(&self) -> u32
        ensures count { result ≡ length self.now.systems }
        ensures sound { sound_setup self.now.accounts self.now.systems ≡ true }
    {
        self.systems.len() as u32
    }

    /// The number of the system of this name, if there is one.
    pub fn system(&self, name: &Name) -> Option<u32>
        ensures number { result ≡ find_system self.now.systems name.now }
        ensures name { IfSome result (λ s. system_name self.now.systems s ≡ name.now) }
        ensures within { IfSome result (λ s. (0 < s) × (s ≤ length self.now.systems)) }
    {
        self.directories.system(&self.systems, name)
    }

    /// The name of a system.
    pub fn system_name(&self, s: u32) -> &Name
        requires least { 0 < s }
        requires most { s ≤ length self.now.systems }
        ensures { result.now ≡ system_name self.now.systems s }
    {
        &self.system_record(s).name
    }

    // What accounts a system has.
    fn roles(&self, s: u32) -> Roles
        requires least { 0 < s }
        requires most { s ≤ length self.now.systems }
        ensures { option_map (roles self.now.accounts) (numbered self.now.systems s) ≡ Some result }
    {
        self.roles[(s - 1) as usize]
    }

    /// The number of the technical account that a system has for a procedure, if it has one.
    pub fn technical(&self, s: u32, procedure: Procedure) -> Option<u32>
        requires least { 0 < s }
        requires most { s ≤ length self.now.systems }
        ensures number { result ≡ technical_account self.now.accounts
            (system_name self.now.systems s) procedure }
        ensures within { IfSome result (λ a. (0 < a) × (a ≤ length self.now.accounts)) }
    {
        self.roles(s).technical[place(procedure)]
    }

    /// The number of the guarantee fund account of a system, if it has one.
    pub fn fund(&self, s: u32) -> Option<u32>
        requires least { 0 < s }
        requires most { s ≤ length self.now.systems }
        ensures number { result ≡ fund_account self.now.accounts (system_name self.now.systems s) }
        ensures within { IfSome result (λ a. (0 < a) × (a ≤ length self.now.accounts)) }
    {
        self.roles(s).fund
    }

    // Whether a system lists a procedure.
    fn lists(&self, s: u32, procedure: Procedure) -> bool
        requires least { 0 < s }
        requires most { s ≤ length self.now.systems }
        ensures { result ≡ lists_procedure self.now.systems (system_name self.now.systems s)
            procedure }
    {
        self.systems[(s - 1) as usize].procedures[place(procedure)]
    }

    /// Whether a system lists a procedure and, for all but E, has the technical account for it.
    pub fn uses(&self, s: u32, procedure: Procedure) -> bool
        requires least { 0 < s }
        requires most { s ≤ length self.now.systems }
        ensures { result ≡ uses self.now.accounts self.now.systems (system_name self.now.systems s)
            procedure }
    {
        self.lists(s, procedure)
            && (matches!(procedure, Procedure::E) || self.technical(s, procedure).is_some())
    }
}
