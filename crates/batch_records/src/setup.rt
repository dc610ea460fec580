//! What the systems and accounts so far have.

ghost use Rattle.std.specs.Prelude.{◌≡◌, ◌<◌, ◌+◌, ◌^◌, ◌&&◌, bytes_eq, slice_get, IfSome};
ghost use Rattle.std.specs.List.{list_any, position};
ghost use Rattle.cash_amounts.specs.Kinds.{flag_of, is_dca};
ghost use Rattle.cash_amounts.specs.SoundSetup.{is_flag_set, is_fund_for, is_listed, is_system_name, is_technical_for, is_the, lists, owns_dca};
ghost use Rattle.cash_amounts.specs.Tests.{some_passes};
ghost use Rattle.batch_records.specs.Made.{number_named};
ghost use Rattle.batch_records.specs.Sound.{is_dca_number};

use crate::words::is_word;
use cash_amounts::{AccountKind, AccountRecord, Procedure, SystemRecord};

// The index of the account of this name in the list.
fn place_named(accounts: &[AccountRecord], name: &[u8]) -> Option<usize>
    ensures place { result ≡ position (λ a. bytes_eq a.name name.now) accounts.now }
    ensures small { IfSome result (λ i. i + 1 < 2 ^ 64) }
{
    accounts
        .iter()
        .position(|a| is_word(a.name.as_bytes(), name))
}

// The number of the account of this name in the list, which counts from 1.
pub fn number_named(accounts: &[AccountRecord], name: &[u8]) -> Option<usize>
    ensures { result ≡ number_named accounts.now name.now }
{
    match place_named(accounts, name) {
        Some(i) => Some(i + 1),
        None => None,
    }
}

// Whether the account of this number is a dedicated cash account.
pub fn is_dca_number(accounts: &[AccountRecord], a: usize) -> bool
    ensures { result ≡ is_dca_number accounts.now a }
{
    if a == 0 {
        return false;
    }
    match accounts.get(a - 1) {
        Some(account) => account.kind == AccountKind::Dca,
        None => false,
    }
}

fn is_dca_of(account: &AccountRecord, bank: &[u8]) -> bool
    ensures { result ≡ (is_dca account.now.kind && bytes_eq account.now.owner bank.now) }
{
    account.kind == AccountKind::Dca && is_word(account.owner.as_bytes(), bank)
}

// Whether a bank has a dedicated cash account in the list.
pub fn owns_dca(accounts: &[AccountRecord], bank: &[u8]) -> bool
    ensures { result ≡ owns_dca accounts.now bank.now }
{
    accounts.iter().any(|a| is_dca_of(a, bank))
}

fn is_the(p: Procedure, found: Option<Procedure>) -> bool
    ensures { result ≡ is_the p found }
{
    found == Some(p)
}

fn is_technical_for(system: &[u8], p: Procedure, account: &AccountRecord) -> bool
    ensures { result ≡ is_technical_for system.now p account.now }
{
    account.kind == AccountKind::Tech
        && is_word(account.owner.as_bytes(), system)
        && is_the(p, account.procedure)
}

fn has_technical_for(accounts: &[AccountRecord], system: &[u8], p: Procedure) -> bool
    ensures { result ≡ list_any (is_technical_for system.now p) accounts.now }
{
    accounts.iter().any(|a| is_technical_for(system, p, a))
}

// Whether a system has a technical account of this procedure in the list, where one is given.
pub fn has_technical(accounts: &[AccountRecord], system: &[u8], p: Option<Procedure>) -> bool
    ensures { result ≡ some_passes (λ p. list_any (is_technical_for system.now p) accounts.now) p }
{
    match p {
        Some(p) => has_technical_for(accounts, system, p),
        None => false,
    }
}

fn is_fund_for(system: &[u8], account: &AccountRecord) -> bool
    ensures { result ≡ is_fund_for system.now account.now }
{
    account.kind == AccountKind::Fund && is_word(account.owner.as_bytes(), system)
}

// Whether a system has a fund in the list.
pub fn has_fund(accounts: &[AccountRecord], system: &[u8]) -> bool
    ensures { result ≡ list_any (is_fund_for system.now) accounts.now }
{
    accounts.iter().any(|a| is_fund_for(system, a))
}

// Whether a system of this name is in the list.
pub fn is_system_name(systems: &[SystemRecord], name: &[u8]) -> bool
    ensures { result ≡ is_system_name systems.now name.now }
{
    systems.iter().any(|s| is_word(s.name.as_bytes(), name))
}

// Whether the flag of a procedure is set.
fn has_flag(procedures: &[bool; 5], p: Procedure) -> bool
    ensures { result ≡ is_flag_set (slice_get procedures.now (flag_of p)) }
{
    match p {
        Procedure::A => procedures[0],
        Procedure::B => procedures[1],
        Procedure::C => procedures[2],
        Procedure::D => procedures[3],
        Procedure::E => procedures[4],
    }
}

fn is_lister(system: &SystemRecord, name: &[u8], p: Procedure) -> bool
    ensures { result ≡ (bytes_eq system.now.name name.now
        && is_flag_set (slice_get system.now.procedures (flag_of p))) }
{
    is_word(system.name.as_bytes(), name) && has_flag(&system.procedures, p)
}

// Whether a system of this name lists the procedure.
pub fn lists(systems: &[SystemRecord], name: &[u8], p: Procedure) -> bool
    ensures { result ≡ lists systems.now name.now p }
{
    systems.iter().any(|s| is_lister(s, name, p))
}

// Whether a system of this name lists the procedure, where one is given that has a technical account.
pub fn is_listed(systems: &[SystemRecord], name: &[u8], p: Option<Procedure>) -> bool
    ensures { result ≡ is_listed systems.now name.now p }
{
    match p {
        None | Some(Procedure::E) => false,
        Some(p) => lists(systems, name, p),
    }
}
