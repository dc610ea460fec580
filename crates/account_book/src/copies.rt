//! Copies of the records of a setup.
ghost use Rattle.std.specs.Prelude.{◌≡◌, length, vec_capacity};
ghost use Rattle.account_book.specs.Rooms.{HasRoom};

use cash_amounts::{AccountRecord, SystemRecord};

fn copy_account(account: &AccountRecord) -> AccountRecord
    ensures { result ≡ account.now }
{
    let system = match &account.system {
        Some(name) => Some(name.copy()),
        None => None,
    };
    AccountRecord {
        name: account.name.copy(),
        kind: account.kind,
        owner: account.owner.copy(),
        system,
        procedure: account.procedure,
        opening: account.opening,
    }
}

fn copy_system(system: &SystemRecord) -> SystemRecord
    ensures { result ≡ system.now }
{
    SystemRecord {
        name: system.name.copy(),
        procedures: system.procedures,
    }
}

// Copies in room for so many.
pub(crate) fn copy_accounts(
    room: Vec<AccountRecord>,
    accounts: &[AccountRecord],
) -> Vec<AccountRecord>
    requires { HasRoom (length accounts.now) room.items (vec_capacity room) }
    ensures { result.items ≡ accounts.now }
{
    let mut copies = room;
    for account in accounts {
        copies.push_reserved(copy_account(account));
    }
    copies
}

pub(crate) fn copy_systems(room: Vec<SystemRecord>, systems: &[SystemRecord]) -> Vec<SystemRecord>
    requires { HasRoom (length systems.now) room.items (vec_capacity room) }
    ensures { result.items ≡ systems.now }
{
    let mut copies = room;
    for system in systems {
        copies.push_reserved(copy_system(system));
    }
    copies
}
