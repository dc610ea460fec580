//! Whether two lines say the same.
ghost use Rattle.std.specs.Prelude.{◌≡◌, ◌≢◌, true, false};
ghost use Rattle.std.specs.List.{list_all, zip};
ghost use Rattle.journal_replay.specs.Same.{is_same_move, line_with};

use commit_journal::{Head, Move};

fn same_move(one: Move, other: Move) -> bool
    ensures { result ≡ is_same_move one other }
{
    one.debit == other.debit && one.credit == other.credit && one.amount.get() == other.amount.get()
}

// Whether the moves that stand at the same place are the same, as far as both lists go.
fn same_pairs(some: &[Move], others: &[Move]) -> bool
    ensures { result ≡ list_all (λ pair. is_same_move pair.0 pair.1) (zip some.now others.now) }
{
    some.iter()
        .zip(others)
        .all(|(one, other)| same_move(*one, *other))
}

fn same_moves(some: &[Move], others: &[Move]) -> bool
    ensures same { result ≡ true → some.now ≡ others.now }
    ensures apart { result ≡ false → some.now ≢ others.now }
{
    if some.len() != others.len() {
        return false;
    }
    same_pairs(some, others)
}

fn same_head(one: Head, other: Head) -> bool
    ensures same { result ≡ true → one ≡ other }
    ensures apart { result ≡ false → one ≢ other }
{
    one.kind == other.kind
        && one.msg == other.msg
        && one.entry == other.entry
        && one.code == other.code
}

/// Whether two lines have the same head and the same moves.
pub fn same_line(head: Head, moves: &[Move], other: Head, others: &[Move]) -> bool
    ensures same { result ≡ true → line_with head moves.now ≡ line_with other others.now }
    ensures apart { result ≡ false → line_with head moves.now ≢ line_with other others.now }
{
    if !same_head(head, other) {
        return false;
    }
    same_moves(moves, others)
}
