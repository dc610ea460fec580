//! The codes with which messages that are no batches are taken.
ghost use Rattle.batch_records.specs.declared.day.Entry.{Entry};
ghost use Rattle.batch_records.specs.Flat.{body_with_entries};
ghost use Rattle.std.specs.Prelude.{◌≡◌, ◌≤◌, ◌+◌, ◌&&◌, not, true, false, None, Some, [], is_some, is_none, nat_lt, if◌then◌else◌, List};
ghost use Rattle.std.specs.List.{find, list_any};
ghost use Rattle.cash_amounts.specs.Kinds.{is_dca, is_sub, is_technical, same_procedure};
ghost use Rattle.cash_amounts.specs.Tests.{same_name, some_passes};
ghost use Rattle.batch_records.specs.Repeats.{message_at};
ghost use Rattle.machine.specs.Records.Messages.{is_batch, is_confirm, is_cycle, is_liquidity, is_object, is_pay, sender, sort_of, sort_of_body};
ghost use Rattle.machine.specs.Telling.History.{is_accepted};
ghost use Rattle.machine.specs.Telling.Balances.{balance};
ghost use Rattle.machine.specs.Records.Reserves.{kept};
ghost use Rattle.machine.specs.Telling.Facts.{open_cycle};
ghost use Rattle.machine.specs.Stages.Intake.{intake_code, is_locked, target};
ghost use Rattle.rule_book.specs.Answering.{has_accounts};
ghost use Rattle.machine.specs.Records.Setup.{is_sub_account, linked};
ghost use Rattle.settle_floor.specs.Codes.{answer_code, cycle_code, cycle_message_is_misplaced, has_payment_form, has_transfer_form, is_liquidity_move, is_payment_move, is_unafforded, leaves_locked, objection_code, payment_code, takes_part, transfer_code};

use crate::desk::IndexedDesk;
use batch_records::RecordBody;
use cash_amounts::{Cents, MessageNumber, Name, Procedure};
use commit_journal::{Code, Move, Want};
use proc_c::open_cycle_of;
use rule_book::batches::{is_system, uses};
use rule_book::parties::takes_part;
use rule_book::parts::{
    is_bank, is_dca_account, is_dca_of, is_repeat, is_sub_account, is_sub_of, is_technical_d,
    item_move, kept, message, owns, sender,
};
use rule_book::phases::{is_asking, is_information};
use rule_book::{Desk, Setting};

// ---- payments

// Whether the accounts are those of a bank's payment: from one of its dedicated cash accounts to another dedicated cash
// account, whoever owns it.
fn fits_payment(setting: &Setting, bank: &[u8], found: &Move) -> bool
    ensures { result ≡ is_payment_move setting.now.day bank.now found.now }
{
    is_dca_of(setting, bank, found.debit)
        && is_dca_account(setting, found.credit)
        && found.debit != found.credit
}

fn has_payment_form(setting: &Setting, n: u32) -> bool
    ensures { result ≡ has_payment_form setting.now.day n }
{
    match item_move(setting, n, 0) {
        Some(found) => fits_payment(setting, sender(&setting.day, n), &found),
        None => false,
    }
}

#[tactic(auto, unfolding(crate::specs::Codes::payment_code))]
fn code_by_form(setting: &Setting, n: u32) -> Code
    ensures { result ≡ payment_code setting.now.day n }
{
    if is_repeat(setting, n) {
        return Code::Du;
    }
    if !is_bank(setting, sender(&setting.day, n)) {
        return Code::Us;
    }
    if has_payment_form(setting, n) {
        Code::Ok
    } else {
        Code::Ac
    }
}

/// The code with which a payment is taken. DU: it is a repeat. US: the sender is no bank. AC: the accounts aren't one of the
/// sender's dedicated cash accounts and another dedicated cash account, whoever owns it.
#[tactic(auto, using(crate::proofs::IntakeTables::code_of_payment))]
pub fn payment_code<D: Desk>(desk: &D, n: MessageNumber) -> Code
    requires payment { is_pay (sort_of (D.day desk.now) n) ≡ true }
    ensures { result ≡ intake_code (D.day desk.now) (D.past desk.now) n }
{
    code_by_form(desk.setting(), n)
}

// ---- liquidity transfers

// Whether the accounts are those of a bank's transfer: between one of its dedicated cash accounts and one of its
// sub-accounts, or from such a cash account to a technical account for procedure D.
fn fits_transfer(setting: &Setting, bank: &[u8], found: &Move) -> bool
    ensures { result ≡ is_liquidity_move setting.now.day bank.now found.now }
{
    is_dca_of(setting, bank, found.debit) && is_sub_of(setting, bank, found.credit)
        || is_sub_of(setting, bank, found.debit) && is_dca_of(setting, bank, found.credit)
        || is_dca_of(setting, bank, found.debit) && is_technical_d(setting, found.credit)
}

fn has_transfer_form(setting: &Setting, n: u32) -> bool
    ensures { result ≡ has_transfer_form setting.now.day n }
{
    match item_move(setting, n, 0) {
        Some(found) => fits_transfer(setting, sender(&setting.day, n), &found),
        None => false,
    }
}

// Whether the account is a sub-account, and a cycle of its system is open.
fn is_locked<D: Desk>(desk: &D, a: u32) -> bool
    ensures { result ≡ is_locked (D.day desk.now) (D.past desk.now) a }
{
    if !is_sub_account(desk.setting(), a) {
        return false;
    }
    has_open_cycle(desk, a)
}

// Whether a cycle is open of the system to which a sub-account is dedicated.
fn has_open_cycle<D: Desk>(desk: &D, a: u32) -> bool
    requires { is_sub_account (D.day desk.now) a ≡ true }
    ensures { result ≡ some_passes (λ s. is_some (open_cycle (D.day desk.now) s (D.past desk.now)))
        (linked (D.day desk.now) a) }
{
    match desk.setting().book.linked(a) {
        Some(system) => desk.cycle(system).is_some(),
        None => false,
    }
}

fn leaves_locked<D: Desk>(desk: &D, n: u32) -> bool
    ensures { result ≡ leaves_locked (D.day desk.now) (D.past desk.now) n }
{
    match item_move(desk.setting(), n, 0) {
        Some(found) => is_locked(desk, found.debit),
        None => false,
    }
}

// Whether an account holds less than this amount and what a normal payment must leave there.
fn is_below<D: Desk>(desk: &D, a: u32, amount: Cents) -> bool
    requires { D.held desk.now a ≡ true }
    ensures { result ≡ nat_lt (balance (D.day desk.now) (D.past desk.now) a)
        (amount + kept (D.day desk.now) a false) }
{
    desk.balance(a).get() < amount.get() + kept(desk.setting(), a, false)
}

// Whether the debit account of a transfer between accounts that fit holds less than the amount and what a normal payment must leave
// there.
fn is_unafforded<D: Desk>(desk: &D, n: u32) -> bool
    requires transfer { is_liquidity (sort_of (D.day desk.now) n) ≡ true }
    requires formed { has_transfer_form (D.day desk.now) n ≡ true }
    requires held { has_accounts (D.held desk.now) (D.day desk.now) (Want.In n) ≡ true }
    ensures { result ≡ is_unafforded (D.day desk.now) (D.past desk.now) n }
{
    match item_move(desk.setting(), n, 0) {
        Some(found) => is_below(desk, found.debit, found.amount),
        None => false,
    }
}

#[tactic(auto, unfolding(crate::specs::Codes::transfer_code))]
fn code_by_liquidity<D: Desk>(desk: &D, n: u32) -> Code
    requires transfer { is_liquidity (sort_of (D.day desk.now) n) ≡ true }
    requires held { has_accounts (D.held desk.now) (D.day desk.now) (Want.In n) ≡ true }
    ensures { result ≡ transfer_code (D.day desk.now) (D.past desk.now) n }
{
    let setting = desk.setting();
    if is_repeat(setting, n) {
        return Code::Du;
    }
    if !is_bank(setting, sender(&setting.day, n)) {
        return Code::Us;
    }
    if !has_transfer_form(setting, n) {
        return Code::Ac;
    }
    if leaves_locked(desk, n) {
        return Code::Lk;
    }
    if is_unafforded(desk, n) {
        Code::Nc
    } else {
        Code::Ok
    }
}

/// The code with which a liquidity transfer is taken. DU: it is a repeat. US: the sender is no bank. AC: the accounts aren't
/// one of the sender's dedicated cash accounts and one of its sub-accounts, in either order, nor one of its dedicated cash
/// accounts and a technical account for procedure D. LK: the money would leave a sub-account while a cycle of its system is
/// open. NC: the debit account holds less than the amount and what a normal payment must leave there.
#[tactic(auto, using(crate::proofs::IntakeTables::code_of_transfer))]
pub fn transfer_code<D: Desk>(desk: &D, n: MessageNumber) -> Code
    requires transfer { is_liquidity (sort_of (D.day desk.now) n) ≡ true }
    requires held { has_accounts (D.held desk.now) (D.day desk.now) (Want.In n) ≡ true }
    ensures { result ≡ intake_code (D.day desk.now) (D.past desk.now) n }
{
    code_by_liquidity(desk, n)
}

// ---- the batch that an objection or an answer names

fn is_accepted<D: Desk>(desk: &D, n: u32) -> bool
    ensures { result ≡ is_accepted (D.past desk.now) n }
{
    matches!(desk.code(n), Some(Code::Ok))
}

// The batch, where it is accepted.
fn if_accepted<D: Desk>(desk: &D, b: u32) -> Option<u32>
    ensures { result ≡ (if is_accepted (D.past desk.now) b then Some b else None) }
{
    if is_accepted(desk, b) { Some(b) } else { None }
}

// The accepted batch that an objection or an answer names.
fn target<D: IndexedDesk>(desk: &D, n: u32) -> Option<u32>
    ensures { result ≡ target (D.day desk.now) (D.past desk.now) n }
{
    match desk.batch_named(n) {
        Some(b) => if_accepted(desk, b),
        None => None,
    }
}

// ---- objections

// Whether the sender of message n has an account of the batch.
fn sender_takes_part(setting: &Setting, n: u32, b: u32) -> bool
    requires { is_object (sort_of setting.now.day n) ≡ true }
    ensures { result ≡ takes_part setting.now.day (sender setting.now.day n) b }
{
    match message(&setting.day, n) {
        Some(message) => takes_part(setting, b, &message.sender),
        None => false,
    }
}

#[tactic(auto, unfolding(crate::specs::Codes::objection_code))]
fn code_by_target<D: IndexedDesk>(desk: &D, n: u32) -> Code
    requires { is_object (sort_of (D.day desk.now) n) ≡ true }
    ensures { result ≡ objection_code (D.day desk.now) (D.past desk.now) n }
{
    let setting = desk.setting();
    if is_repeat(setting, n) {
        return Code::Du;
    }
    if !is_bank(setting, sender(&setting.day, n)) {
        return Code::Us;
    }
    let Some(b) = target(desk, n) else {
        return Code::Bt;
    };
    if !is_information(desk.phase(b)) {
        return Code::Ph;
    }
    if sender_takes_part(setting, n, b) {
        Code::Ok
    } else {
        Code::Np
    }
}

/// The code with which an objection is taken. DU: it is a repeat. US: the sender is no bank. BT: no accepted batch has the
/// name. PH: that batch isn't in its information period. NP: the sender has no account in it.
#[tactic(auto, using(crate::proofs::IntakeTables::code_of_objection))]
pub fn objection_code<D: IndexedDesk>(desk: &D, n: MessageNumber) -> Code
    requires objection { is_object (sort_of (D.day desk.now) n) ≡ true }
    ensures { result ≡ intake_code (D.day desk.now) (D.past desk.now) n }
{
    code_by_target(desk, n)
}

// ---- answers

#[tactic(auto, unfolding(crate::specs::Codes::answer_code))]
fn code_by_asking<D: IndexedDesk>(desk: &D, n: u32) -> Code
    ensures { result ≡ answer_code (D.day desk.now) (D.past desk.now) n }
{
    let setting = desk.setting();
    if is_repeat(setting, n) {
        return Code::Du;
    }
    if !is_system(setting, sender(&setting.day, n)) {
        return Code::Us;
    }
    let Some(b) = target(desk, n) else {
        return Code::Bt;
    };
    if is_asking(desk.phase(b)) {
        Code::Ok
    } else {
        Code::Ph
    }
}

/// The code with which an answer is taken. DU: it is a repeat. US: the sender is no system. BT: no accepted batch of the
/// sender has the identification. PH: that batch isn't asking.
#[tactic(auto, using(crate::proofs::IntakeTables::code_of_answer))]
pub fn answer_code<D: IndexedDesk>(desk: &D, n: MessageNumber) -> Code
    requires answer { is_confirm (sort_of (D.day desk.now) n) ≡ true }
    ensures { result ≡ intake_code (D.day desk.now) (D.past desk.now) n }
{
    code_by_asking(desk, n)
}

// ---- cycle messages

// Whether the message starts a cycle of its sender while one is open, or ends one while none is.
fn is_misplaced<D: Desk>(desk: &D, n: u32) -> bool
    ensures { result ≡ cycle_message_is_misplaced (D.day desk.now) (D.past desk.now) n }
{
    match message(&desk.setting().day, n) {
        Some(message) => match message.body {
            RecordBody::Cycle { start: true } => open_cycle_of(desk, &message.sender).is_some(),
            RecordBody::Cycle { start: false } => open_cycle_of(desk, &message.sender).is_none(),
            _ => false,
        },
        None => false,
    }
}

#[tactic(auto, unfolding(crate::specs::Codes::cycle_code))]
fn code_by_cycle<D: Desk>(desk: &D, n: u32) -> Code
    ensures { result ≡ cycle_code (D.day desk.now) (D.past desk.now) n }
{
    let setting = desk.setting();
    let system = sender(&setting.day, n);
    if is_repeat(setting, n) {
        return Code::Du;
    }
    if !is_system(setting, system) {
        return Code::Us;
    }
    if !uses(setting, system, Procedure::C) {
        return Code::Pr;
    }
    if is_misplaced(desk, n) {
        Code::Cy
    } else {
        Code::Ok
    }
}

/// The code with which a cycle message is taken. DU: it is a repeat. US: the sender is no system. PR: it doesn't use
/// procedure C. CY: a cycle of it is open and the message starts one, or none is and the message ends one.
#[tactic(auto, using(crate::proofs::IntakeTables::code_of_cycle))]
pub fn cycle_code<D: Desk>(desk: &D, n: MessageNumber) -> Code
    requires cycle { is_cycle (sort_of (D.day desk.now) n) ≡ true }
    ensures { result ≡ intake_code (D.day desk.now) (D.past desk.now) n }
{
    code_by_cycle(desk, n)
}
