//! The slot of a row or none, in four bytes.
ghost use Rattle.std.specs.Prelude.{◌≡◌, ◌+◌, ◌<◌, ◌^◌, None, Some};

use std::marker::Model;

// The slot of a row, or none. Contracts see the option.
#[derive(Clone, Copy)]
pub struct Slot {
    number: u32,
}

// What stands for none; no queue has a slot of this number.
const NONE: u32 = u32::MAX;

impl Model for Slot {
    ghost use Rattle.std.specs.Prelude.{ℕ, Option};

    ghost Value = { Option ℕ };

    ghost use Rattle.pending_items.specs.Slots.{kept, of_kept, of_kept-kept};

    ghost view = { kept };

    ghost inverse = { of_kept };

    ghost inverse_ok = { λ a h. of_kept-kept a };
}

pub fn no_slot() -> Slot
    ensures { result ≡ None }
{
    Slot { number: NONE }
}

pub fn slot_is(slot: u32) -> Slot
    requires { slot + 1 < 2 ^ 32 }
    ensures { result ≡ Some slot }
{
    Slot { number: slot }
}

impl Slot {
    pub fn get(self) -> Option<u32>
        ensures { result ≡ self }
    {
        if self.number == NONE {
            None
        } else {
            Some(self.number)
        }
    }
}
