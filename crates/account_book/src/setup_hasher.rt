//! How the names of a setup are hashed.
ghost use Rattle.std.specs.Prelude.{◌≡◌};
ghost use Rattle.account_book.specs.Filed.{hash_of};

use cash_amounts::{AccountRecord, Name, SystemRecord};
use std::hash::{DefaultHasher, Hasher};

// Hashes a name, by SipHash, after a word that SipHash makes of all names of a setup in file order. So which names fall together
// hangs on each name that the setup has: who changes one to that end changes where all fall.
#[derive(Clone, Copy)]
pub(crate) struct SetupHasher {
    behind_setup: DefaultHasher,
}

fn behind_accounts(mut hasher: DefaultHasher, accounts: &[AccountRecord]) -> DefaultHasher {
    for account in accounts {
        hasher.write(account.name.as_bytes());
        hasher.write(account.owner.as_bytes());
    }
    hasher
}

fn behind_systems(mut hasher: DefaultHasher, systems: &[SystemRecord]) -> DefaultHasher {
    for system in systems {
        hasher.write(system.name.as_bytes());
    }
    hasher
}

impl SetupHasher {
    // The hasher of the names of these records. It has taken one whole word, so that it takes a name by whole words too.
    pub(crate) fn of(accounts: &[AccountRecord], systems: &[SystemRecord]) -> SetupHasher {
        let behind_accounts = behind_accounts(DefaultHasher::new(), accounts);
        let mut behind_setup = DefaultHasher::new();
        behind_setup.write_u64(behind_systems(behind_accounts, systems).finish());
        SetupHasher { behind_setup }
    }

    // The hash of a name.
    #[tactic(auto, unfolding(crate::specs::Filed::hash_of))]
    pub(crate) fn hash(&self, name: &Name) -> u64
        ensures { result ≡ hash_of self.now name.now }
    {
        let mut hasher = self.behind_setup;
        hasher.write(name.as_bytes());
        hasher.finish()
    }
}
