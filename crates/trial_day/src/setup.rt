//! The accounts and systems of a trial.
ghost use Rattle.std.specs.Prelude.{◌≡◌, ◌≤◌, ◌++◌, [], ◌∷◌, flat_map, map, IfOk, OnOk};
ghost use Rattle.std.specs.List.{range_with_len};
ghost use Rattle.trial_day.specs.Trial.{dca, technical_account, technical_accounts, trial_accounts, trial_system, trial_systems};

use crate::entries::BANKS;
use crate::names::{bank_name, dca_name, system_name, technical_a, technical_b};
use batch_records::{Accounts, Systems};
use cash_amounts::{AccountKind, AccountRecord, Cents, Memory, Name, Procedure, SystemRecord};
use std::alloc::Global;

/// How many systems there are.
pub const SYSTEMS: u32 = 8;

/// With what the account of each bank opens, in cents.
const OPENING: u64 = 100_000_000_000;

// The dedicated cash account of bank n.
fn dca(n: u32) -> AccountRecord
    requires least { 1 ≤ n }
    requires most { n ≤ 16 }
    ensures { result ≡ dca n }
{
    AccountRecord {
        name: dca_name(n),
        kind: AccountKind::Dca,
        owner: bank_name(n),
        system: None,
        procedure: None,
        opening: Cents::of(OPENING).unwrap(),
    }
}

// The technical account of this name that system s has for a procedure.
fn technical_account(name: Name, s: u32, procedure: Procedure) -> AccountRecord
    requires least { 1 ≤ s }
    requires most { s ≤ 8 }
    ensures { result ≡ technical_account name s procedure }
{
    AccountRecord {
        name,
        kind: AccountKind::Tech,
        owner: system_name(s),
        system: None,
        procedure: Some(procedure),
        opening: Cents::of(0).unwrap(),
    }
}

// Puts the accounts of the banks at the end.
fn push_dcas(accounts: &mut Accounts) -> Result<(), Memory>
    ensures { OnOk result (accounts.new ≡ accounts.old ++ map dca (range_with_len 1 16)) }
{
    for before in 0..BANKS {
        accounts.push(dca(before + 1))?;
    }
    Ok(())
}

// Puts the technical accounts of system s at the end.
fn push_technicals_of(accounts: &mut Accounts, s: u32) -> Result<(), Memory>
    requires least { 1 ≤ s }
    requires most { s ≤ 8 }
    ensures { OnOk result (accounts.new ≡ accounts.old ++ technical_accounts s) }
{
    accounts.push(technical_account(technical_a(s), s, Procedure::A))?;
    accounts.push(technical_account(technical_b(s), s, Procedure::B))
}

// Puts those of all systems at the end.
fn push_technicals(accounts: &mut Accounts) -> Result<(), Memory>
    ensures { OnOk result (accounts.new
        ≡ accounts.old ++ flat_map technical_accounts (range_with_len 1 8)) }
{
    for before in 0..SYSTEMS {
        push_technicals_of(accounts, before + 1)?;
    }
    Ok(())
}

// The accounts of a trial.
#[tactic(auto, unfolding(crate::specs::Trial::trial_accounts))]
pub(crate) fn trial_accounts(alloc: Global) -> Result<Accounts, Memory>
    ensures { IfOk result (λ accounts. accounts ≡ trial_accounts) }
{
    let mut accounts = Accounts::new(alloc);
    push_dcas(&mut accounts)?;
    push_technicals(&mut accounts)?;
    Ok(accounts)
}

// System s, which lists A, B and E.
fn trial_system(s: u32) -> SystemRecord
    requires least { 1 ≤ s }
    requires most { s ≤ 8 }
    ensures { result ≡ trial_system s }
{
    SystemRecord {
        name: system_name(s),
        procedures: [true, true, false, false, true],
    }
}

// The systems of a trial.
#[tactic(auto, unfolding(crate::specs::Trial::trial_systems))]
pub(crate) fn trial_systems(alloc: Global) -> Result<Systems, Memory>
    ensures { IfOk result (λ systems. systems ≡ trial_systems) }
{
    let mut systems = Systems::new(alloc);
    for before in 0..SYSTEMS {
        systems.push(trial_system(before + 1))?;
    }
    Ok(systems)
}
