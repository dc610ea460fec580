//! Moves made on a till.
ghost use Rattle.std.specs.Prelude.{◌≡◌};
ghost use Rattle.settle_floor.specs.Carrying.{after, CanMoveAll};

use account_book::Till;
use commit_journal::Move;

/// Makes the moves, one after the other.
pub fn carry_out<T: Till>(till: &mut T, moves: &[Move])
    requires { CanMoveAll (T.holdings till.old) moves.now }
    ensures { T.holdings till.new ≡ after (T.holdings till.old) moves.now }
{
    for one in moves {
        till.transfer(one.debit, one.credit, one.amount);
    }
}
