//! Requests for the memory of a table that threads share.
ghost use Rattle.std.specs.Prelude.{◌≡◌, [], length, IfOk};
ghost use Rattle.atomic_table.specs.Table.{opening};

use crate::Memory;
use crate::memory::refused;
use atomic_table::{Seat, Table, TableRule};
use std::alloc::Global;

/// A table of these words, with no slot, and its first seat.
pub fn table_of_words<S, V, K, P: TableRule<S, V, K>>(
    alloc: Global,
    words: &[u64],
    about: &K,
) -> Result<(Table<S, V, K, P, Global>, Seat<S, V>), Memory>
    requires { P.holds about.now (opening words.now [] (P.first about.now)) }
    ensures { IfOk result (λ t. (t.0.shared.table_id.words ≡ length words.now)
        × (t.0.shared.table_id.slots ≡ 0)
        × (t.1.table_id ≡ t.0.shared.table_id)
        × (t.1.id ≡ 0)
        × (t.1.me ≡ (P.first about.now, []))
        × (t.0.shared.key ≡ about.now)) }
{
    match Table::of_words(alloc, words, about) {
        Ok(table) => Ok(table),
        Err(_) => Err(refused()),
    }
}
