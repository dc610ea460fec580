//! The least amounts after an amount has changed.
ghost use Rattle.std.specs.Prelude.{◌≡◌, ◌≢◌, ℕ, ◌<◌, ◌≤◌, length, vec_len, vec_capacity};
ghost use Rattle.amount_forest.specs.Nodes.{IsLinked, IsMended};

use crate::node::{Entry, Link, NONE, is_same, least_for};

// Mends a node and those above it, up to one that has its least amount already.
pub(crate) fn mend(entries: &[Entry], links: &[Link], leasts: &mut Vec<Option<u64>>, node: u32)
    requires linked { IsLinked entries.now links.now }
    requires small { length entries.now ≤ NONE }
    requires leasts { length leasts.old.items ≡ length entries.now }
    requires within { node < length entries.now }
    requires others { (i : ℕ) → i < length entries.now → i ≢ node → IsMended entries.now links.now leasts.old.items i }
    ensures mended { (i : ℕ) → i < length entries.now → IsMended entries.now links.now leasts.new.items i }
    ensures size { length leasts.new.items ≡ length leasts.old.items }
    ensures len { vec_len leasts.new ≡ vec_len leasts.old }
    ensures capacity { vec_capacity leasts.new ≡ vec_capacity leasts.old }
{
    let mut at = node;
    while at != NONE {
        let amount = least_for(entries, links, leasts, at);
        if is_same(leasts[at as usize], amount) {
            return;
        }
        leasts[at as usize] = amount;
        at = links[at as usize].up;
    }
}
