//! What is found out about the records of a setup once, when a book is built.
ghost use Rattle.std.specs.Prelude.{◌≡◌, ◌<◌, ◌≤◌, ◌+◌, ◌^◌, ℕ, nat_eq, None, Some, length, map, vec_capacity, IfOk, if◌then◌else◌};
ghost use Rattle.std.specs.Option.{option_or};
ghost use Rattle.refused_memory.specs.declared.maps.TheConstants.{MOST_ENTRIES};
ghost use Rattle.indexmap.specs.IndexMap.{spare};
ghost use Rattle.cash_amounts.specs.Kinds.{flag_of};
ghost use Rattle.account_book.specs.Directory.{find_system, fund_account, is_fund_of, is_technical_of, technical_account};
ghost use Rattle.account_book.specs.Filed.{Agree, AreFiled, IsFree, account_hashed, bank_hashed, is_dca_hashed, link, number_at, roles, system_hashed};
ghost use Rattle.account_book.specs.Rooms.{AreFree, HasRoom};

use crate::setup_hasher::SetupHasher;
use cash_amounts::{AccountKind, AccountRecord, Memory, Name, Procedure, SystemRecord};
use indexmap::IndexMap;
use refused_memory::map_with_capacity;
use std::alloc::Global;

// Numbers by the hashes of names, of each hash the first number, in room that was taken for them.
#[derive(Drop)]
pub(crate) struct Directory {
    numbers: IndexMap<u64, u32>,
}

impl Directory {
    fn with_room(alloc: Global, most: usize) -> Result<Directory, Memory>
        requires { most ≤ MOST_ENTRIES }
        ensures { IfOk result (IsFree most) }
    {
        let numbers = map_with_capacity(alloc, most)?;
        Ok(Directory { numbers })
    }

    // The number under a hash.
    pub(crate) fn get(&self, hash: u64) -> Option<u32>
        ensures { result ≡ number_at self.now hash }
    {
        self.numbers.get(&hash).copied()
    }

    // Enters a number under a hash, unless one is there already. Takes no memory.
    fn enter(&mut self, hash: u64, number: u32)
        requires { 0 < spare self.old.numbers }
        ensures entered { (other : ℕ)
            → number_at self.new other
            ≡ option_or (number_at self.old other) (if nat_eq hash other then Some number else None) }
        ensures room { spare self.old.numbers ≤ spare self.new.numbers + 1 }
    {
        if let Some(_earlier) = self.numbers.get(&hash) {
            return;
        }
        self.numbers.insert(hash, number).unwrap();
    }
}

// The accounts that a system has: a technical account for each procedure, and the fund.
#[derive(Clone, Copy)]
pub(crate) struct Roles {
    pub technical: [Option<u32>; 5],
    pub fund: Option<u32>,
}

// The numbers of the accounts by the hashes of their names.
fn account_numbers(room: Directory, accounts: &[AccountRecord], hasher: &SetupHasher) -> Directory
    requires few { length accounts.now < 2 ^ 32 }
    requires free { IsFree (length accounts.now) room }
    ensures { Agree (number_at result) (account_hashed hasher.now accounts.now) }
{
    let mut directory = room;
    for (i, account) in accounts.iter().enumerate() {
        directory.enter(hasher.hash(&account.name), i as u32 + 1);
    }
    directory
}

// The numbers of the systems by the hashes of their names.
fn system_numbers(room: Directory, systems: &[SystemRecord], hasher: &SetupHasher) -> Directory
    requires few { length systems.now < 2 ^ 32 }
    requires free { IsFree (length systems.now) room }
    ensures { Agree (number_at result) (system_hashed hasher.now systems.now) }
{
    let mut directory = room;
    for (i, system) in systems.iter().enumerate() {
        directory.enter(hasher.hash(&system.name), i as u32 + 1);
    }
    directory
}

// Enters the bank of a dedicated cash account with the account's number, unless one is there under the hash already.
fn enter_bank(directory: &mut Directory, account: &AccountRecord, hasher: &SetupHasher, number: u32)
    requires { 0 < spare directory.old.numbers }
    ensures entered { (hash : ℕ)
        → number_at directory.new hash
        ≡ option_or (number_at directory.old hash)
        (if is_dca_hashed hasher.now hash account.now then Some number else None) }
    ensures room { spare directory.old.numbers ≤ spare directory.new.numbers + 1 }
{
    if matches!(account.kind, AccountKind::Dca) {
        directory.enter(hasher.hash(&account.owner), number);
    }
}

// The first dedicated cash accounts of the banks, by the hashes of their names.
fn banks(room: Directory, accounts: &[AccountRecord], hasher: &SetupHasher) -> Directory
    requires few { length accounts.now < 2 ^ 32 }
    requires free { IsFree (length accounts.now) room }
    ensures { Agree (number_at result) (bank_hashed hasher.now accounts.now) }
{
    let mut directory = room;
    for (i, account) in accounts.iter().enumerate() {
        enter_bank(&mut directory, account, hasher, i as u32 + 1);
    }
    directory
}

// The directories of a setup, by the hashes of names: accounts, systems, and banks with their first dedicated cash accounts.
#[derive(Drop)]
pub(crate) struct Directories {
    pub accounts: Directory,
    pub systems: Directory,
    pub banks: Directory,
    pub hasher: SetupHasher,
}

// Room for them.
#[derive(Drop)]
pub(crate) struct DirectoryRoom {
    accounts: Directory,
    systems: Directory,
    banks: Directory,
}

impl DirectoryRoom {
    pub(crate) fn take(
        alloc: Global,
        accounts: usize,
        systems: usize,
    ) -> Result<DirectoryRoom, Memory>
        requires { (accounts ≤ MOST_ENTRIES) × (systems ≤ MOST_ENTRIES) }
        ensures { IfOk result (AreFree accounts systems) }
    {
        let account_room = Directory::with_room(alloc, accounts)?;
        let system_room = Directory::with_room(alloc, systems)?;
        let bank_room = Directory::with_room(alloc, accounts)?;
        Ok(DirectoryRoom {
            accounts: account_room,
            systems: system_room,
            banks: bank_room,
        })
    }

    // The directories of these records. Takes no memory.
    pub(crate) fn file(self, accounts: &[AccountRecord], systems: &[SystemRecord]) -> Directories
        requires accounts { length accounts.now < 2 ^ 32 }
        requires systems { length systems.now < 2 ^ 32 }
        requires free { AreFree (length accounts.now) (length systems.now) self }
        ensures { AreFiled accounts.now systems.now result }
    {
        let hasher = SetupHasher::of(accounts, systems);
        Directories {
            accounts: account_numbers(self.accounts, accounts, &hasher),
            systems: system_numbers(self.systems, systems, &hasher),
            banks: banks(self.banks, accounts, &hasher),
            hasher,
        }
    }
}

// The number of the system that an account is dedicated to.
fn link(directories: &Directories, systems: &[SystemRecord], account: &AccountRecord) -> Option<u32>
    requires few { length systems.now < 2 ^ 32 }
    requires filed { Agree (number_at directories.now.systems)
        (system_hashed directories.now.hasher systems.now) }
    ensures { result ≡ link (find_system systems.now) account.now }
{
    match &account.system {
        Some(name) => directories.system(systems, name),
        None => None,
    }
}

// The numbers of the systems that the accounts are dedicated to, in room for so many.
pub(crate) fn links(
    room: Vec<Option<u32>>,
    accounts: &[AccountRecord],
    systems: &[SystemRecord],
    directories: &Directories,
) -> Vec<Option<u32>>
    requires few { length systems.now < 2 ^ 32 }
    requires filed { Agree (number_at directories.now.systems)
        (system_hashed directories.now.hasher systems.now) }
    requires free { HasRoom (length accounts.now) room.items (vec_capacity room) }
    ensures { result.items ≡ map (link (find_system systems.now)) accounts.now }
{
    let mut links = room;
    for account in accounts {
        links.push_reserved(link(directories, systems, account));
    }
    links
}

// Where a procedure stands among the five.
pub(crate) fn place(procedure: Procedure) -> usize
    ensures place { result ≡ flag_of procedure }
    ensures within { result < 5 }
{
    match procedure {
        Procedure::A => 0,
        Procedure::B => 1,
        Procedure::C => 2,
        Procedure::D => 3,
        Procedure::E => 4,
    }
}

fn is_technical_of(system: &Name, procedure: Procedure, account: &AccountRecord) -> bool
    ensures { result ≡ is_technical_of system.now procedure account.now }
{
    matches!(account.kind, AccountKind::Tech)
        && account.owner == *system
        && account
            .procedure
            .is_some_and(|own| place(own) == place(procedure))
}

fn is_fund_of(system: &Name, account: &AccountRecord) -> bool
    ensures { result ≡ is_fund_of system.now account.now }
{
    matches!(account.kind, AccountKind::Fund) && account.owner == *system
}

fn technical_account(accounts: &[AccountRecord], system: &Name, procedure: Procedure) -> Option<u32>
    requires { length accounts.now < 2 ^ 32 }
    ensures { result ≡ technical_account accounts.now system.now procedure }
{
    for (i, account) in accounts.iter().enumerate() {
        if is_technical_of(system, procedure, account) {
            return Some(i as u32 + 1);
        }
    }
    None
}

fn fund_account(accounts: &[AccountRecord], system: &Name) -> Option<u32>
    requires { length accounts.now < 2 ^ 32 }
    ensures { result ≡ fund_account accounts.now system.now }
{
    for (i, account) in accounts.iter().enumerate() {
        if is_fund_of(system, account) {
            return Some(i as u32 + 1);
        }
    }
    None
}

fn roles_of(accounts: &[AccountRecord], system: &SystemRecord) -> Roles
    requires { length accounts.now < 2 ^ 32 }
    ensures { result ≡ roles accounts.now system.now }
{
    let name = &system.name;
    Roles {
        technical: [
            technical_account(accounts, name, Procedure::A),
            technical_account(accounts, name, Procedure::B),
            technical_account(accounts, name, Procedure::C),
            technical_account(accounts, name, Procedure::D),
            technical_account(accounts, name, Procedure::E),
        ],
        fund: fund_account(accounts, name),
    }
}

// The accounts that the systems have, in room for so many. There are few systems, so each goes over all accounts.
pub(crate) fn all_roles(
    room: Vec<Roles>,
    accounts: &[AccountRecord],
    systems: &[SystemRecord],
) -> Vec<Roles>
    requires few { length accounts.now < 2 ^ 32 }
    requires free { HasRoom (length systems.now) room.items (vec_capacity room) }
    ensures { result.items ≡ map (roles accounts.now) systems.now }
{
    let mut all = room;
    for system in systems {
        all.push_reserved(roles_of(accounts, system));
    }
    all
}
