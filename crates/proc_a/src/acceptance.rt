//! The acceptance of a batch: the code of its intake.
ghost use Rattle.std.specs.Prelude.{◌≡◌, true, [], is_none};
ghost use Rattle.machine.specs.Records.Messages.{sort_of, is_a};
ghost use Rattle.machine.specs.Telling.History.{taken};
ghost use Rattle.machine.specs.Stages.Intake.{intake_code};

use cash_amounts::{MessageNumber, Procedure};
use commit_journal::{Code, MoveList};
use rule_book::Desk;
use rule_book::taking::code_over_technical;

/// The code with which the untaken batch n of procedure A is taken now: the first of these that applies. Du: an earlier
/// message has its sender and its identification. Us: its sender is no system. Pr: the system doesn't use the procedure. Ct:
/// it has no entry, or another number of entries than it states. Sm: their amounts have another sum than it states. Nz: what
/// goes to the technical account isn't what comes from it. En: an entry doesn't go between a dedicated cash account and the
/// technical account. Ti: the settlement end isn't above the clock, a stated end of the information period or a stated earliest
/// time isn't between the two, or the former is above the latter. Else Ok, with which the batch is accepted. An intake of a batch
/// of A moves nothing, so the list stays as it is.
pub fn intake<D: Desk>(desk: &D, n: MessageNumber, moves: &mut MoveList) -> Code
    requires batch { is_a (sort_of (D.day desk.now) n) ≡ true }
    requires untaken { is_none (taken (D.past desk.now) n) ≡ true }
    requires empty { moves.old.moves ≡ [] }
    ensures code { result ≡ intake_code (D.day desk.now) (D.past desk.now) n }
    ensures moves { moves.new ≡ moves.old }
{
    code_over_technical(desk, n, Procedure::A)
}
