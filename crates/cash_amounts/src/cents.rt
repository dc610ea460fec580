//! Amounts in cents, and their sums.
ghost use Rattle.std.specs.Prelude.{◌≡◌, ◌≤◌, sum};
ghost use Rattle.std.specs.Option.{SomeIff};

use std::marker::Model;

/// The largest amount that is held, in cents: 10,000,000,000,000,000.00 euros.
pub const MAX_CENTS: u64 = 1_000_000_000_000_000_000;

/// An amount from 0 to `MAX_CENTS` cents, which contracts see as a number.
#[derive(Clone, Copy, Debug, PartialEq, Eq, PartialOrd, Ord)]
pub struct Cents {
    value: u64,
}

impl Model for Cents {
    ghost use Rattle.std.specs.Prelude.{ℕ, ◌≤◌};
    ghost use Rattle.cash_amounts.specs.declared.cents.TheConstants.{MAX_CENTS};

    ghost Value = { ℕ };

    ghost view = { λ cents. cents.value };

    ghost invariant = { λ cents. cents.value ≤ MAX_CENTS };

    ghost inverse = { λ number. record { value = number } };
}

impl Cents {
    /// The amount of so many cents. None exactly where they are more than `MAX_CENTS`.
    pub fn of(value: u64) -> Option<Cents>
        ensures { SomeIff result (value ≤ MAX_CENTS) value }
    {
        if value <= MAX_CENTS {
            Some(Cents { value })
        } else {
            None
        }
    }

    // The amount of so many cents, which are known to be no more than `MAX_CENTS`.
    pub(crate) fn within(value: u64) -> Cents
        requires { value ≤ MAX_CENTS }
        ensures { result ≡ value }
    {
        Cents { value }
    }

    /// The number of cents.
    pub fn get(self) -> u64
        ensures value { result ≡ self }
        ensures within { result ≤ MAX_CENTS }
    {
        self.value
    }
}

/// The sum of the amounts. None exactly where it is more than `MAX_CENTS`.
pub fn sum(list: &[Cents]) -> Option<Cents>
    ensures { SomeIff result (sum list.now ≤ MAX_CENTS) (sum list.now) }
{
    let mut total = 0;
    for cents in list {
        total += cents.get();
        if total > MAX_CENTS {
            return None;
        }
    }
    Some(Cents { value: total })
}
