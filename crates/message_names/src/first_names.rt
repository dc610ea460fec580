//! Names of parties and accounts in the order in which they are entered. Contracts see them as a list, with the number of names
//! that there can be.
ghost use Rattle.std.specs.Prelude.{◌≡◌, ◌<◌, ◌++◌, [], ◌∷◌, IfOk, length};
ghost use Rattle.message_names.specs.Names.{first_named};

use crate::packing::sender_key;
use cash_amounts::{Memory, Name};
use first_of_key::FirstKeys;
use std::alloc::Global;
use std::marker::Model;

/// Names, numbered from 0 in the order in which they are entered. The room for them is taken at the start.
#[derive(Drop)]
pub struct FirstNames {
    keys: FirstKeys,
}

impl Model for FirstNames {
    ghost use Rattle.message_names.specs.Names.{Listed};
    ghost use Rattle.message_names.specs.Stored.{AreKeys, names_in};

    ghost Value = { Listed };

    ghost view = { λ s. record { names = names_in s.keys.keys; most = s.keys.most } };

    ghost invariant = { λ s. AreKeys (names_in s.keys.keys) s.keys.keys };
}

impl FirstNames {
    /// No names, with room for so many. `Memory` says that there wasn't that much.
    pub fn with_room(alloc: Global, most: u32) -> Result<FirstNames, Memory>
        ensures { IfOk result (λ names. names ≡ record { names = []; most = most }) }
    {
        let keys = FirstKeys::with_room(alloc, most)?;
        Ok(FirstNames { keys })
    }

    /// The number of the first that is this name. None exactly where there is none.
    pub fn first(&self, name: &Name) -> Option<u32>
        ensures { result ≡ first_named self.now.names name.now }
    {
        self.keys.first(sender_key(name))
    }

    /// Enters a name, of which the number is how many there were before it. Takes no memory.
    pub fn enter(&mut self, name: &Name)
        requires { length self.old.names < self.old.most }
        ensures names { self.new.names ≡ self.old.names ++ name.now ∷ [] }
        ensures most { self.new.most ≡ self.old.most }
    {
        self.keys.enter(sender_key(name));
    }
}
