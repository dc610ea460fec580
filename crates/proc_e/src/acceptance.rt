//! The acceptance of a batch: the code of its intake.
ghost use Rattle.std.specs.Prelude.{◌≡◌, true, [], is_none};
ghost use Rattle.std.specs.List.{list_all};
ghost use Rattle.cash_amounts.specs.declared.records.Procedure.TheVariants as procedures;
ghost use Rattle.machine.specs.Records.Messages.{entries, is_e, sort_of};
ghost use Rattle.machine.specs.Telling.History.{taken};
ghost use Rattle.machine.specs.Stages.Intake.{intake_code};
ghost use Rattle.rule_book.specs.IntakeParts.{own_code};
ghost use Rattle.proc_e.specs.Reasons.{is_bilateral, is_bilateral_move};

use cash_amounts::{MessageNumber, Procedure};
use commit_journal::{Code, Move, MoveList};
use rule_book::batches::times_are_wrong;
use rule_book::parts::{entry_moves, is_dca_account};
use rule_book::taking::common_fault;
use rule_book::{Desk, Setting};

// Whether a move goes from a dedicated cash account to another one.
fn fits(setting: &Setting, found: &Move) -> bool
    ensures { result ≡ is_bilateral_move setting.now.day found.now }
{
    is_dca_account(setting, found.debit)
        && is_dca_account(setting, found.credit)
        && found.debit != found.credit
}

fn are_bilateral(setting: &Setting, moves: &[Move]) -> bool
    ensures { result ≡ list_all (is_bilateral_move setting.now.day) moves.now }
{
    moves.iter().all(|found| fits(setting, found))
}

fn all_fit(setting: &Setting, n: u32) -> bool
    ensures { result ≡ list_all (is_bilateral setting.now.day) (entries setting.now.day n) }
{
    are_bilateral(setting, entry_moves(setting, n))
}

// The code of a batch that has none of the faults that batches have alike.
#[tactic(auto, unfolding(rule_book::specs::IntakeParts::own_code))]
fn own_code<D: Desk>(desk: &D, n: u32) -> Code
    ensures { result ≡ own_code procedures.E (D.day desk.now) (D.past desk.now) n }
{
    if !all_fit(desk.setting(), n) {
        return Code::En;
    }
    if times_are_wrong(desk, n) {
        Code::Ti
    } else {
        Code::Ok
    }
}

fn code_of<D: Desk>(desk: &D, n: u32) -> Code
    requires { is_e (sort_of (D.day desk.now) n) ≡ true }
    ensures { result ≡ intake_code (D.day desk.now) (D.past desk.now) n }
{
    match common_fault(desk.setting(), n, Procedure::E) {
        Some(code) => code,
        None => own_code(desk, n),
    }
}

/// The code with which batch n, of procedure E and not taken yet, is taken: OK, or the first of these that applies. DU: it
/// is a repeat. US: the sender is no system. PR: the system doesn't use the procedure. CT: there is no entry, or another
/// number of them than stated. SM: the amounts don't add up to the stated sum. EN: an entry doesn't go from a dedicated cash
/// account to another one. TI: the settlement end isn't above the clock, or a stated information end isn't between the two.
/// Its intake moves no money: `moves` stays as it was.
pub fn intake<D: Desk>(desk: &D, n: MessageNumber, moves: &mut MoveList) -> Code
    requires batch { is_e (sort_of (D.day desk.now) n) ≡ true }
    requires untaken { is_none (taken (D.past desk.now) n) ≡ true }
    requires empty { moves.old.moves ≡ [] }
    ensures code { result ≡ intake_code (D.day desk.now) (D.past desk.now) n }
    ensures moves { moves.new ≡ moves.old }
{
    code_of(desk, n)
}
