//! Room for a book, which is taken before its records are there.
ghost use Rattle.std.specs.Prelude.{◌≡◌, IfOk, ◌≤◌};
ghost use Rattle.refused_memory.specs.declared.maps.TheConstants.{MOST_ENTRIES};

use crate::directory::{DirectoryRoom, Roles};
use cash_amounts::{AccountRecord, Memory, SystemRecord};
use refused_memory::with_capacity;
use std::alloc::Global;
use std::marker::Model;

/// Room for the book of at most so many accounts and systems.
#[derive(Drop)]
pub struct BookRoom {
    most_accounts: usize,
    most_systems: usize,
    pub(crate) accounts: Vec<AccountRecord>,
    pub(crate) systems: Vec<SystemRecord>,
    pub(crate) directories: DirectoryRoom,
    pub(crate) links: Vec<Option<u32>>,
    pub(crate) roles: Vec<Roles>,
}

impl Model for BookRoom {
    ghost use Rattle.std.specs.Prelude.{vec_capacity};
    ghost use Rattle.account_book.specs.Rooms.{AreFree, HasRoom, Room};

    ghost Value = { Room };

    ghost view = { λ r. record { accounts = r.most_accounts; systems = r.most_systems } };

    ghost invariant = { λ r. HasRoom r.most_accounts r.accounts.items (vec_capacity r.accounts)
        × HasRoom r.most_systems r.systems.items (vec_capacity r.systems)
        × AreFree r.most_accounts r.most_systems r.directories
        × HasRoom r.most_accounts r.links.items (vec_capacity r.links)
        × HasRoom r.most_systems r.roles.items (vec_capacity r.roles) };
}

impl BookRoom {
    /// Room for so many accounts and systems. `Memory` says that there wasn't that much.
    pub fn take(alloc: Global, accounts: usize, systems: usize) -> Result<BookRoom, Memory>
        requires { (accounts ≤ MOST_ENTRIES) × (systems ≤ MOST_ENTRIES) }
        ensures { IfOk result (λ room. room
            ≡ record { accounts = accounts; systems = systems }) }
    {
        let directories = DirectoryRoom::take(alloc, accounts, systems)?;
        let account_room = with_capacity(alloc, accounts)?;
        let system_room = with_capacity(alloc, systems)?;
        let links = with_capacity(alloc, accounts)?;
        let roles = with_capacity(alloc, systems)?;
        Ok(BookRoom {
            most_accounts: accounts,
            most_systems: systems,
            accounts: account_room,
            systems: system_room,
            directories,
            links,
            roles,
        })
    }
}
