//! The acceptance of a batch: the code of its intake.
ghost use Rattle.std.specs.Prelude.{◌≡◌, true, is_none, []};
ghost use Rattle.std.specs.List.{list_all};
ghost use Rattle.cash_amounts.specs.declared.records.Procedure.TheVariants as procedures;
ghost use Rattle.machine.specs.Records.Messages.{BatchC, entries, is_c, sender, sort_of};
ghost use Rattle.machine.specs.Telling.History.{taken};
ghost use Rattle.machine.specs.Telling.Facts.{open_cycle};
ghost use Rattle.machine.specs.Stages.Intake.{entry_fits, intake_code};
ghost use Rattle.rule_book.specs.IntakeParts.{own_code};
ghost use Rattle.proc_c.specs.Reasons.{joins_sub};

use cash_amounts::{MessageNumber, Name, Procedure};
use commit_journal::{Code, Move, MoveList};
use rule_book::batches::{comes_from, goes_to, technical_of};
use rule_book::parts::{entry_moves, is_sub_for, message, sender};
use rule_book::taking::{common_fault, states_a_time};
use rule_book::{Desk, Setting};

// Whether a move goes between a sub-account of the system and the technical account, either way.
fn fits(setting: &Setting, system: &[u8], technical: Option<u32>, found: &Move) -> bool
    ensures { result ≡ joins_sub setting.now.day system.now technical found.now }
{
    is_sub_for(setting, system, found.debit) && goes_to(found, technical)
        || comes_from(found, technical) && is_sub_for(setting, system, found.credit)
}

fn join_subs(setting: &Setting, system: &[u8], technical: Option<u32>, moves: &[Move]) -> bool
    ensures { result ≡ list_all (joins_sub setting.now.day system.now technical) moves.now }
{
    moves
        .iter()
        .all(|found| fits(setting, system, technical, found))
}

fn all_fit(setting: &Setting, n: u32) -> bool
    ensures { result ≡ list_all (entry_fits BatchC setting.now.day n) (entries setting.now.day n) }
{
    let system = sender(&setting.day, n);
    join_subs(
        setting,
        system,
        technical_of(setting, n),
        entry_moves(setting, n),
    )
}

// The place where the open cycle of the batch's system was started.
pub(crate) fn open_cycle<D: Desk>(desk: &D, n: u32) -> Option<u32>
    requires { is_c (sort_of (D.day desk.now) n) ≡ true }
    ensures { result ≡ open_cycle (D.day desk.now) (sender (D.day desk.now) n) (D.past desk.now) }
{
    match message(&desk.setting().day, n) {
        Some(message) => open_cycle_of(desk, &message.sender),
        None => None,
    }
}

/// The place of the START line of the open cycle of the system of this name. A name that is no system's has no cycle.
pub fn open_cycle_of<D: Desk>(desk: &D, system: &Name) -> Option<u32>
    ensures { result ≡ open_cycle (D.day desk.now) system.now (D.past desk.now) }
{
    match desk.setting().book.system(system) {
        Some(number) => desk.cycle(number),
        None => None,
    }
}

/// The code with which a batch of procedure C is taken. The list of moves stays empty: no entry is booked as the batch is
/// taken.
///
/// The code is the first that applies: `Du`, it is a repeat; `Us`, its sender is no system; `Pr`, the system doesn't list
/// procedure C or has no technical account for it; `Ct`, it has no entry or not as many as it states; `Sm`, their amounts
/// have another sum than it states; `En`, an entry isn't between a sub-account dedicated to the system and the technical
/// account; `Ti`, it states an information end, an earliest time or a settlement end; `Cy`, no cycle of the system is open; else
/// `Ok`.
///
/// Takes an untaken batch and an empty list.
pub fn intake<D: Desk>(desk: &D, n: MessageNumber, moves: &mut MoveList) -> Code
    requires batch { is_c (sort_of (D.day desk.now) n) ≡ true }
    requires untaken { is_none (taken (D.past desk.now) n) ≡ true }
    requires empty { moves.old.moves ≡ [] }
    ensures code { result ≡ intake_code (D.day desk.now) (D.past desk.now) n }
    ensures moves { moves.new ≡ moves.old }
{
    code_of(desk, n)
}

fn code_of<D: Desk>(desk: &D, n: u32) -> Code
    requires { is_c (sort_of (D.day desk.now) n) ≡ true }
    ensures { result ≡ intake_code (D.day desk.now) (D.past desk.now) n }
{
    match common_fault(desk.setting(), n, Procedure::C) {
        Some(code) => code,
        None => own_code(desk, n),
    }
}

// The code of a batch that has none of the faults that batches have alike.
#[tactic(auto, unfolding(rule_book::specs::IntakeParts::own_code))]
fn own_code<D: Desk>(desk: &D, n: u32) -> Code
    requires { is_c (sort_of (D.day desk.now) n) ≡ true }
    ensures { result ≡ own_code procedures.C (D.day desk.now) (D.past desk.now) n }
{
    let setting = desk.setting();
    if !all_fit(setting, n) {
        return Code::En;
    }
    if states_a_time(setting, n) {
        return Code::Ti;
    }
    if open_cycle(desk, n).is_none() {
        return Code::Cy;
    }
    Code::Ok
}
