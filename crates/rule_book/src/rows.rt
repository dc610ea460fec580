//! Rows of items that stand one after another in one list, so that a day of many messages takes few lists.
ghost use Rattle.std.specs.Prelude.{◌≡◌, ◌≤◌, ◌∷◌, length, get_or};
ghost use Rattle.rule_book.specs.Rows.{spot_of};

use cash_amounts::{EntryNumber, MessageNumber};

// Where row i begins, counted from 0: where the one before ends.
pub(crate) fn start_of(ends: &[usize], i: usize) -> usize
    requires { i ≤ length ends.now }
    ensures { result ≡ get_or (0 ∷ ends.now) i 0 }
{
    if i == 0 { 0 } else { ends[i - 1] }
}

/// Where item k of row n stands, of rows that end there. Rows count from 1, and the items of a row from 0.
pub fn spot(ends: &[usize], n: MessageNumber, k: EntryNumber) -> Option<usize>
    ensures { result ≡ spot_of ends.now n k }
{
    if n == 0 || n as usize > ends.len() {
        return None;
    }
    let start = start_of(ends, n as usize - 1);
    let size = ends[n as usize - 1].saturating_sub(start);
    if (k as usize) < size {
        Some(start + k as usize)
    } else {
        None
    }
}
