//! The codes with which batches are taken, where several procedures ask the same.
ghost use Rattle.std.specs.Prelude.{◌≡◌, true};
ghost use Rattle.cash_amounts.specs.declared.records.Procedure.TheVariants as procedures;
ghost use Rattle.machine.specs.Stages.Intake.{intake_code, states_a_time};
ghost use Rattle.rule_book.specs.IntakeParts.{common_fault, own_code};
ghost use Rattle.machine.specs.Records.Messages.{is_a_or_b, sort_of, sort_of_batch};

use crate::batches::{
    all_join_technical, count_is_wrong, is_system, sides_differ, sum_is_wrong, times_are_wrong,
    uses,
};
use crate::desk::Desk;
use crate::parts::{earliest, info_end, is_repeat, sender, stated_end};
use crate::setting::Setting;
use cash_amounts::{MessageNumber, Procedure};
use commit_journal::Code;

/// The first of these that applies to batch n of this procedure; None where none does. `Du`: an earlier message has its sender
/// and identification. `Us`: its sender is no system. `Pr`: the system doesn't list the procedure, or lacks the technical
/// account for it. `Ct`: it has no entry, or another number of entries than it states. `Sm`: their amounts have another sum
/// than it states.
#[tactic(auto, unfolding(crate::specs::IntakeParts::common_fault))]
pub fn common_fault(setting: &Setting, n: MessageNumber, procedure: Procedure) -> Option<Code>
    ensures { result ≡ common_fault procedure setting.now.day n }
{
    if is_repeat(setting, n) {
        return Some(Code::Du);
    }
    let system = sender(&setting.day, n);
    if !is_system(setting, system) {
        return Some(Code::Us);
    }
    if !uses(setting, system, procedure) {
        return Some(Code::Pr);
    }
    if count_is_wrong(setting, n) {
        return Some(Code::Ct);
    }
    if sum_is_wrong(setting, n) {
        return Some(Code::Sm);
    }
    None
}

/// Whether a batch states an information end, an earliest time or a settlement end.
pub fn states_a_time(setting: &Setting, n: MessageNumber) -> bool
    ensures { result ≡ states_a_time setting.now.day n }
{
    let day = &setting.day;
    info_end(day, n).is_some() || earliest(day, n).is_some() || stated_end(day, n).is_some()
}

// The code of a batch of A or B that has none of the common faults.
#[tactic(auto, unfolding(crate::specs::IntakeParts::own_code))]
fn code_of_sides<D: Desk>(desk: &D, n: u32) -> Code
    ensures { result ≡ own_code procedures.A (D.day desk.now) (D.past desk.now) n }
{
    let setting = desk.setting();
    if sides_differ(setting, n) {
        return Code::Nz;
    }
    if !all_join_technical(setting, n) {
        return Code::En;
    }
    if times_are_wrong(desk, n) {
        Code::Ti
    } else {
        Code::Ok
    }
}

/// The code with which batch n of procedure A or B is taken: a common fault, or the first of these that applies. `Nz`: what its
/// entries pay to the technical account isn't what they pay from it. `En`: an entry isn't between a dedicated cash account and
/// the technical account. `Ti`: its settlement end isn't above the clock, a stated end of its information period or a stated earliest
/// time isn't between the two, or the former is above the latter. Else `Ok`.
pub fn code_over_technical<D: Desk>(desk: &D, n: MessageNumber, procedure: Procedure) -> Code
    requires sort { sort_of (D.day desk.now) n ≡ sort_of_batch procedure }
    requires sides { is_a_or_b (sort_of_batch procedure) ≡ true }
    ensures { result ≡ intake_code (D.day desk.now) (D.past desk.now) n }
{
    match common_fault(desk.setting(), n, procedure) {
        Some(code) => code,
        None => code_of_sides(desk, n),
    }
}
