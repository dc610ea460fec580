//! The systems of a setup, and what its accounts keep, in room for as many as a day may have.

ghost use Rattle.std.specs.Prelude.{◌≡◌, ◌<◌, [], ◌∷◌, ◌++◌, IfOk, length};
ghost use Rattle.cash_amounts.specs.declared.limits.TheConstants.{MAX_ACCOUNTS, MAX_SYSTEMS};

use crate::day::Reserve;
use crate::lists::{Reserves, Systems};
use cash_amounts::{MAX_ACCOUNTS, MAX_SYSTEMS, Memory, SystemRecord};
use refused_memory::with_capacity;
use std::alloc::Global;
use std::marker::Model;

/// Systems in file order, with room for as many as a day may have. Contracts see the list.
#[derive(Drop)]
pub struct HeldSystems {
    items: Vec<SystemRecord>,
}

impl Model for HeldSystems {
    ghost use Rattle.std.specs.Prelude.{◌≤◌, List, vec_capacity};
    ghost use Rattle.cash_amounts.specs.declared.records.SystemRecord.{SystemRecord};
    ghost use Rattle.cash_amounts.specs.declared.limits.TheConstants.{MAX_SYSTEMS};

    ghost Value = { List SystemRecord };

    ghost view = { λ a. a.items.items };

    ghost invariant = { λ a. MAX_SYSTEMS ≤ vec_capacity a.items };
}

impl HeldSystems {
    // No systems. `Memory` says that there wasn't enough of it.
    pub(crate) fn with_room(alloc: Global) -> Result<HeldSystems, Memory>
        ensures { IfOk result (λ held. held ≡ []) }
    {
        let items = with_capacity(alloc, MAX_SYSTEMS)?;
        Ok(HeldSystems { items })
    }

    // Puts a system at the end. Takes no memory.
    pub(crate) fn push(&mut self, system: SystemRecord)
        requires { length self.old < MAX_SYSTEMS }
        ensures { self.new ≡ self.old ++ system ∷ [] }
    {
        self.items.push_reserved(system);
    }

    /// The systems.
    pub fn as_slice(&self) -> &[SystemRecord]
        ensures { result.now ≡ self.now }
    {
        self.items.as_slice()
    }

    // The same list.
    pub(crate) fn into_list(self) -> Systems
        ensures { result ≡ self }
    {
        Systems::of(self.items)
    }
}

/// What accounts keep, in file order, with room for as many as a day may have. Contracts see the list.
#[derive(Drop)]
pub struct HeldReserves {
    items: Vec<Reserve>,
}

impl Model for HeldReserves {
    ghost use Rattle.std.specs.Prelude.{◌≤◌, List, vec_capacity};
    ghost use Rattle.batch_records.specs.declared.day.Reserve.{Reserve};
    ghost use Rattle.cash_amounts.specs.declared.limits.TheConstants.{MAX_ACCOUNTS};

    ghost Value = { List Reserve };

    ghost view = { λ a. a.items.items };

    ghost invariant = { λ a. MAX_ACCOUNTS ≤ vec_capacity a.items };
}

impl HeldReserves {
    // Nothing is kept. `Memory` says that there wasn't enough of it.
    pub(crate) fn with_room(alloc: Global) -> Result<HeldReserves, Memory>
        ensures { IfOk result (λ held. held ≡ []) }
    {
        let items = with_capacity(alloc, MAX_ACCOUNTS)?;
        Ok(HeldReserves { items })
    }

    // Puts at the end what an account keeps. Takes no memory.
    pub(crate) fn push(&mut self, reserve: Reserve)
        requires { length self.old < MAX_ACCOUNTS }
        ensures { self.new ≡ self.old ++ reserve ∷ [] }
    {
        self.items.push_reserved(reserve);
    }

    /// What they keep.
    pub fn as_slice(&self) -> &[Reserve]
        ensures { result.now ≡ self.now }
    {
        self.items.as_slice()
    }

    // The same list.
    pub(crate) fn into_list(self) -> Reserves
        ensures { result ≡ self }
    {
        Reserves::of(self.items)
    }
}
