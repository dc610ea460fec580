//! The acceptance of a batch: the code of its intake.
ghost use Rattle.std.specs.Prelude.{◌≡◌, true, [], is_none};
ghost use Rattle.machine.specs.Records.Messages.{is_b, sort_of};
ghost use Rattle.machine.specs.Telling.History.{taken};
ghost use Rattle.machine.specs.Stages.Intake.{intake_code};

use cash_amounts::{MessageNumber, Procedure};
use commit_journal::{Code, MoveList};
use rule_book::Desk;
use rule_book::taking::code_over_technical;

/// The code with which a batch is taken, which isn't yet. The first that applies:
///
/// - `Du`: an earlier message has its sender and identification.
/// - `Us`: its sender is no system.
/// - `Pr`: the system doesn't list procedure B, or has no technical account for it.
/// - `Ct`: it has no entry, or another number of entries than it states.
/// - `Sm`: their amounts have another sum than it states.
/// - `Nz`: what the entries pay to the technical account isn't what they pay from it.
/// - `En`: an entry isn't between a cash account and the technical account.
/// - `Ti`: the settlement end isn't after the clock, an information end or an earliest time that it states isn't between the two,
///   or the information end is after the earliest time.
///
/// Else `Ok`. A batch moves nothing when it is taken, so the list of moves stays.
pub fn intake<D: Desk>(desk: &D, n: MessageNumber, moves: &mut MoveList) -> Code
    requires batch { is_b (sort_of (D.day desk.now) n) ≡ true }
    requires untaken { is_none (taken (D.past desk.now) n) ≡ true }
    requires empty { moves.old.moves ≡ [] }
    ensures code { result ≡ intake_code (D.day desk.now) (D.past desk.now) n }
    ensures moves { moves.new ≡ moves.old }
{
    code_over_technical(desk, n, Procedure::B)
}
