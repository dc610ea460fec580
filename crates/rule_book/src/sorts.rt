//! Tests of the sorts of messages.
ghost use Rattle.std.specs.Prelude.{◌≡◌, ◌||◌};
ghost use Rattle.machine.specs.Making.Lines.{may_lapse};
ghost use Rattle.machine.specs.Records.Messages.{batch_procedure, is_a, is_a_or_b, is_b, is_batch, is_c, is_d, is_e, is_pay, sort_of};
ghost use Rattle.machine.specs.Stages.Phases.{is_no_order};

use crate::parts::message;
use crate::setting::Setting;
use batch_records::{Day, RecordBody};
use cash_amounts::{MessageNumber, Procedure};

/// The procedure of a batch; None of another message, and where the day has no message of the number.
pub fn procedure_of_batch(setting: &Setting, n: MessageNumber) -> Option<Procedure>
    ensures { result ≡ batch_procedure setting.now.day n }
{
    match message(&setting.day, n) {
        Some(message) => match message.body {
            RecordBody::Batch { procedure, .. } => Some(procedure),
            _ => None,
        },
        None => None,
    }
}

// Whether message n of a day is a batch, of any procedure.
pub(crate) fn is_batch_of(day: &Day, n: u32) -> bool
    ensures { result ≡ is_batch (sort_of day.now n) }
{
    match message(day, n) {
        Some(message) => match message.body {
            RecordBody::Batch { .. } => true,
            _ => false,
        },
        None => false,
    }
}

/// Whether message n is a batch, of any procedure.
pub fn is_batch(setting: &Setting, n: MessageNumber) -> bool
    ensures { result ≡ is_batch (sort_of setting.now.day n) }
{
    is_batch_of(&setting.day, n)
}

/// Whether it is a batch of procedure A.
pub fn is_a(setting: &Setting, n: MessageNumber) -> bool
    ensures { result ≡ is_a (sort_of setting.now.day n) }
{
    match message(&setting.day, n) {
        Some(message) => match message.body {
            RecordBody::Batch { procedure, .. } => matches!(procedure, Procedure::A),
            _ => false,
        },
        None => false,
    }
}

// Whether message n of a day is a batch of procedure B.
pub(crate) fn is_b_of(day: &Day, n: u32) -> bool
    ensures { result ≡ is_b (sort_of day.now n) }
{
    match message(day, n) {
        Some(message) => match message.body {
            RecordBody::Batch { procedure, .. } => matches!(procedure, Procedure::B),
            _ => false,
        },
        None => false,
    }
}

/// Whether it is a batch of procedure B.
pub fn is_b(setting: &Setting, n: MessageNumber) -> bool
    ensures { result ≡ is_b (sort_of setting.now.day n) }
{
    is_b_of(&setting.day, n)
}

/// Whether it is a batch of procedure C.
pub fn is_c(setting: &Setting, n: MessageNumber) -> bool
    ensures { result ≡ is_c (sort_of setting.now.day n) }
{
    match message(&setting.day, n) {
        Some(message) => match message.body {
            RecordBody::Batch { procedure, .. } => matches!(procedure, Procedure::C),
            _ => false,
        },
        None => false,
    }
}

/// Whether it is a batch of procedure D.
pub fn is_d(setting: &Setting, n: MessageNumber) -> bool
    ensures { result ≡ is_d (sort_of setting.now.day n) }
{
    match message(&setting.day, n) {
        Some(message) => match message.body {
            RecordBody::Batch { procedure, .. } => matches!(procedure, Procedure::D),
            _ => false,
        },
        None => false,
    }
}

/// Whether it is a batch of procedure E.
pub fn is_e(setting: &Setting, n: MessageNumber) -> bool
    ensures { result ≡ is_e (sort_of setting.now.day n) }
{
    match message(&setting.day, n) {
        Some(message) => match message.body {
            RecordBody::Batch { procedure, .. } => matches!(procedure, Procedure::E),
            _ => false,
        },
        None => false,
    }
}

/// Whether it is a batch of procedure A or B.
#[tactic(auto, using(machine::proofs::SortFacts::either_is))]
pub fn is_a_or_b(setting: &Setting, n: MessageNumber) -> bool
    ensures { result ≡ is_a_or_b (sort_of setting.now.day n) }
{
    is_a(setting, n) || is_b(setting, n)
}

/// Whether it is a payment.
pub fn is_pay(setting: &Setting, n: MessageNumber) -> bool
    ensures { result ≡ is_pay (sort_of setting.now.day n) }
{
    match message(&setting.day, n) {
        Some(message) => match message.body {
            RecordBody::Pay { .. } => true,
            _ => false,
        },
        None => false,
    }
}

/// Whether it is a liquidity transfer, an objection, an answer or a cycle message: its intake is all that it wants.
pub fn is_no_order(setting: &Setting, n: MessageNumber) -> bool
    ensures { result ≡ is_no_order (sort_of setting.now.day n) }
{
    match message(&setting.day, n) {
        Some(message) => match message.body {
            RecordBody::Batch { procedure, .. } => match procedure {
                Procedure::A => false,
                Procedure::B => false,
                Procedure::C => false,
                Procedure::D => false,
                Procedure::E => false,
            },
            RecordBody::Pay { .. } => false,
            _ => true,
        },
        None => false,
    }
}

/// Whether it is one that may expire: a payment, or a batch of procedure A, B, C or E.
pub fn may_lapse(setting: &Setting, n: MessageNumber) -> bool
    ensures { result ≡ may_lapse (sort_of setting.now.day n) }
{
    match message(&setting.day, n) {
        Some(message) => match message.body {
            RecordBody::Batch { procedure, .. } => !matches!(procedure, Procedure::D),
            RecordBody::Pay { .. } => true,
            _ => false,
        },
        None => false,
    }
}
