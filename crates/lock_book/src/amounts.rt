// Amounts that are taken from a balance, and given to it.
ghost use Rattle.std.specs.Prelude.{◌≡◌, ◌+◌, ◌-◌, ◌≤◌};
ghost use Rattle.cash_amounts.specs.declared.cents.TheConstants.{MAX_CENTS};

use cash_amounts::Cents;

pub fn less(held: Cents, amount: Cents) -> Cents
    requires { amount ≤ held }
    ensures { result ≡ held - amount }
{
    Cents::of(held.get() - amount.get()).unwrap()
}

pub fn more(held: Cents, amount: Cents) -> Cents
    requires { held + amount ≤ MAX_CENTS }
    ensures { result ≡ held + amount }
{
    Cents::of(held.get() + amount.get()).unwrap()
}
