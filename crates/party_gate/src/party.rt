//! Whose gate it is.
use std::marker::Brand;

/// A name for one party. It has no functions. Where a program calls a function that is generic over the name, `Brand` stands for it, and
/// the proof of that call picks the name.
pub trait PartyName {
    ghost use Rattle.std.specs.Prelude.{List, ℕ};

    ghost name: { List ℕ };
}

impl PartyName for Brand {
    ghost use Rattle.std.specs.Prelude.{[]};

    ghost name = { [] };
}
