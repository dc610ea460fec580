//! The acceptance of a batch: the code of its intake.
ghost use Rattle.std.specs.Prelude.{◌≡◌, ◌≤◌, true, is_none, length, []};
ghost use Rattle.std.specs.List.{list_all};
ghost use Rattle.cash_amounts.specs.declared.records.Procedure.TheVariants as procedures;
ghost use Rattle.machine.specs.Records.Messages.{BatchD, entries, is_d, sort_of};
ghost use Rattle.machine.specs.Telling.History.{taken};
ghost use Rattle.machine.specs.Stages.Intake.{entry_fits, intake_code, intake_moves};
ghost use Rattle.rule_book.specs.IntakeParts.{own_code};
ghost use Rattle.rule_book.specs.Answering.{HasMoves, has_accounts};
ghost use Rattle.proc_d.specs.Booked.{is_paid_out};

use crate::booking::{available, book};
use cash_amounts::{MessageNumber, Procedure};
use commit_journal::{Code, Move, MoveList, Want};
use rule_book::batches::{comes_from, technical_of};
use rule_book::parts::{entry_moves, is_dca_account};
use rule_book::taking::{common_fault, states_a_time};
use rule_book::{Desk, Setting};

// Whether a move goes from the technical account to a cash account.
fn fits(setting: &Setting, technical: Option<u32>, found: &Move) -> bool
    ensures { result ≡ is_paid_out setting.now.day technical found.now }
{
    comes_from(found, technical) && is_dca_account(setting, found.credit)
}

fn are_paid_out(setting: &Setting, technical: Option<u32>, moves: &[Move]) -> bool
    ensures { result ≡ list_all (is_paid_out setting.now.day technical) moves.now }
{
    moves.iter().all(|found| fits(setting, technical, found))
}

fn all_fit(setting: &Setting, n: u32) -> bool
    ensures { result ≡ list_all (entry_fits BatchD setting.now.day n) (entries setting.now.day n) }
{
    are_paid_out(setting, technical_of(setting, n), entry_moves(setting, n))
}

// The code of a batch that has none of the faults that batches have alike.
#[tactic(auto, unfolding(rule_book::specs::IntakeParts::own_code))]
fn own_code<D: Desk>(desk: &D, n: u32) -> Code
    ensures { result ≡ own_code procedures.D (D.day desk.now) (D.past desk.now) n }
{
    let setting = desk.setting();
    if !all_fit(setting, n) {
        return Code::En;
    }
    if states_a_time(setting, n) {
        return Code::Ti;
    }
    Code::Ok
}

fn code_of<D: Desk>(desk: &D, n: u32) -> Code
    requires { is_d (sort_of (D.day desk.now) n) ≡ true }
    ensures { result ≡ intake_code (D.day desk.now) (D.past desk.now) n }
{
    match common_fault(desk.setting(), n, Procedure::D) {
        Some(code) => code,
        None => own_code(desk, n),
    }
}

/// The code with which a batch of procedure D is taken, and the moves of its entries: with code OK those of the entries, in
/// their order, that the technical account affords, less the entries booked before them. An entry that isn't covered moves
/// nothing, and those after it are still looked at. With any other code there are none.
///
/// The code is the first that applies: `Du`, it is a repeat; `Us`, its sender is no system; `Pr`, the system doesn't list
/// procedure D or has no technical account for it; `Ct`, it has no entry or not as many as it states; `Sm`, their amounts
/// have another sum than it states; `En`, an entry isn't from the technical account to a cash account; `Ti`, it states an
/// information end, an earliest time or a settlement end; else `Ok`.
///
/// Takes an untaken batch, an empty list with room for a move of each entry, and a desk that has the balances of the
/// entries' accounts.
pub fn intake<D: Desk>(desk: &D, n: MessageNumber, moves: &mut MoveList) -> Code
    requires batch { is_d (sort_of (D.day desk.now) n) ≡ true }
    requires untaken { is_none (taken (D.past desk.now) n) ≡ true }
    requires held { has_accounts (D.held desk.now) (D.day desk.now) (Want.In n) ≡ true }
    requires empty { moves.old.moves ≡ [] }
    requires room { length (entries (D.day desk.now) n) ≤ moves.old.room }
    ensures code { result ≡ intake_code (D.day desk.now) (D.past desk.now) n }
    ensures moves { moves.new.moves ≡ intake_moves (D.day desk.now) (D.past desk.now) n result }
    ensures room { HasMoves moves.old moves.new }
{
    let setting = desk.setting();
    let code = code_of(desk, n);
    if matches!(code, Code::Ok) {
        book(setting, n, available(desk, n), moves);
    }
    code
}
