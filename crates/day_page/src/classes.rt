//! The classes of messages, and what became of them.
ghost use Rattle.batch_records.specs.declared.day.Entry.{Entry};
ghost use Rattle.batch_records.specs.Flat.{body_with_entries};
ghost use Rattle.std.specs.Prelude.{◌≡◌, ◌≤◌, ◌+◌, ◌*◌, ◌^◌, length, List};
ghost use Rattle.cash_amounts.specs.declared.cents.TheConstants.{MAX_CENTS};
ghost use Rattle.cash_amounts.specs.declared.limits.TheConstants.{MAX_ENTRIES};
ghost use Rattle.commit_journal.specs.Histories.{oldest};
ghost use Rattle.machine.specs.Records.Messages.{message_at};
ghost use Rattle.machine.specs.Orders.Bounds.{move_limit};
ghost use Rattle.machine.specs.Stages.Phases.{is_booked};
ghost use Rattle.machine.specs.Words.{some_passes};
ghost use Rattle.day_page.specs.declared.classes.Outcome.TheVariants as outcomes;
ghost use Rattle.day_page.specs.Classes.{booked_cents, booked_item, booked_items, came_to, cents_as, intake_cents, item_cents, moved_cents, class_of_batch, class_of_body, class_word, code_count, has_code, is_in_phase, is_left, is_of, is_of_code, left_count, order_cents, order_cents_in, outcome_cents, outcome_count, outcome_part, same_class, sent_count, word_of};
ghost use Rattle.day_page.specs.Running.{most_moved};

use crate::parties::sent;
use crate::past::Past;
use crate::words::Request;
use batch_records::RecordBody;
use cash_amounts::{MessageNumber, Procedure};
use commit_journal::{Code, Move};
use rule_book::parts::{entry_count, item_move, message, message_count};
use rule_book::sorts::{is_a_or_b, is_d};
use rule_book::{Phase, Setting};

/// The classes of messages.
#[derive(Clone, Copy, Debug, PartialEq, Eq)]
pub enum Class {
    Payment,
    BatchA,
    BatchB,
    BatchC,
    BatchD,
    BatchE,
    Transfer,
    Objection,
    Answer,
    Cycle,
}

/// What became of a payment or a batch.
#[derive(Clone, Copy, Debug, PartialEq, Eq)]
pub enum Outcome {
    Settled,
    Revoked,
    Closed,
    /// It is still open.
    Going,
}

fn batch_class(procedure: Procedure) -> Class
    ensures { result ≡ class_of_batch procedure }
{
    match procedure {
        Procedure::A => Class::BatchA,
        Procedure::B => Class::BatchB,
        Procedure::C => Class::BatchC,
        Procedure::D => Class::BatchD,
        Procedure::E => Class::BatchE,
    }
}

fn class_of(body: &RecordBody) -> Class
    ensures { (entries : List Entry) → result ≡ class_of_body (body_with_entries body.now entries) }
{
    match body {
        RecordBody::Batch { procedure, .. } => batch_class(*procedure),
        RecordBody::Pay { .. } => Class::Payment,
        RecordBody::Liquidity { .. } => Class::Transfer,
        RecordBody::Object { .. } => Class::Objection,
        RecordBody::Confirm { .. } => Class::Answer,
        RecordBody::Cycle { .. } => Class::Cycle,
    }
}

/// The word for a class.
pub fn class_word(class: Class) -> &'static [u8]
    ensures { result.now ≡ class_word class }
{
    match class {
        Class::Payment => b"payment",
        Class::BatchA => b"batch of A",
        Class::BatchB => b"batch of B",
        Class::BatchC => b"batch of C",
        Class::BatchD => b"batch of D",
        Class::BatchE => b"batch of E",
        Class::Transfer => b"liquidity transfer",
        Class::Objection => b"objection",
        Class::Answer => b"answer on a fund",
        Class::Cycle => b"cycle message",
    }
}

/// The word for message n; nothing where there is none.
pub fn word_of<'a>(setting: &Setting, n: MessageNumber) -> &'a [u8]
    ensures { result.now ≡ word_of setting.now.day n }
{
    match message(&setting.day, n) {
        Some(message) => class_word(class_of(&message.body)),
        None => b"",
    }
}

fn is_class(body: &RecordBody, class: Class) -> bool
    ensures { (entries : List Entry) → result
        ≡ same_class (class_of_body (body_with_entries body.now entries)) class }
{
    class_of(body) == class
}

fn has_class(setting: &Setting, class: Class, n: u32) -> bool
    ensures { result ≡ some_passes (λ m. same_class (class_of_body m.body) class)
        (message_at setting.now.day n) }
{
    match message(&setting.day, n) {
        Some(message) => is_class(&message.body, class),
        None => false,
    }
}

fn is_of(setting: &Setting, request: &Request, class: Class, n: u32) -> bool
    ensures { result ≡ is_of setting.now.day request.now class n }
{
    sent(setting, request, n) && has_class(setting, class, n)
}

// ---- how many there are

fn has_code(past: &Past, code: Code, n: u32) -> bool
    ensures { result ≡ has_code (oldest past.now.journal.now.history past.now.place) code n }
{
    match past.code(n) {
        Some(taken) => taken == code,
        None => false,
    }
}

// Most messages have another code, which is known without a look at the message.
fn is_of_code(past: &Past, request: &Request, class: Class, code: Code, n: u32) -> bool
    ensures { result ≡ is_of_code past.now.setting.now.day request.now
        (oldest past.now.journal.now.history past.now.place) class code n }
{
    has_code(past, code, n) && is_of(past.setting, request, class, n)
}

fn is_left(past: &Past, request: &Request, class: Class, n: u32) -> bool
    ensures { result ≡ is_left past.now.setting.now.day request.now
        (oldest past.now.journal.now.history past.now.place) class n }
{
    is_of(past.setting, request, class, n) && past.code(n).is_none()
}

/// How many messages of a class the party sent.
#[tactic(auto, unfolding(crate::specs::Classes::sent_count))]
pub fn sent_count(setting: &Setting, request: &Request, class: Class) -> usize
    ensures { result ≡ sent_count setting.now.day request.now class }
{
    (1..message_count(setting) + 1)
        .filter(|n| is_of(setting, request, class, *n))
        .count()
}

/// How many of them were taken with a code.
#[tactic(auto, unfolding(crate::specs::Classes::code_count))]
pub fn code_count(past: &Past, request: &Request, class: Class, code: Code) -> usize
    ensures { result ≡ code_count past.now.setting.now.day request.now
        (oldest past.now.journal.now.history past.now.place) class code }
{
    (1..message_count(past.setting) + 1)
        .filter(|n| is_of_code(past, request, class, code, *n))
        .count()
}

/// How many of them aren't taken yet.
#[tactic(auto, unfolding(crate::specs::Classes::left_count))]
pub fn left_count(past: &Past, request: &Request, class: Class) -> usize
    ensures { result ≡ left_count past.now.setting.now.day request.now
        (oldest past.now.journal.now.history past.now.place) class }
{
    (1..message_count(past.setting) + 1)
        .filter(|n| is_left(past, request, class, *n))
        .count()
}

// ---- what became of payments and batches

fn is_in(outcome: Outcome, phase: Phase) -> bool
    ensures { result ≡ is_in_phase outcome phase }
{
    match outcome {
        Outcome::Settled => matches!(phase, Phase::Settled),
        Outcome::Revoked => matches!(phase, Phase::Revoked),
        Outcome::Closed => matches!(phase, Phase::Closed),
        Outcome::Going => is_going(phase),
    }
}

fn is_going(phase: Phase) -> bool
    ensures { result ≡ is_in_phase outcomes.Going phase }
{
    match phase {
        Phase::Covered
        | Phase::Answered
        | Phase::Asking
        | Phase::Information
        | Phase::Waiting
        | Phase::Open
        | Phase::Overdue => true,
        _ => false,
    }
}

fn came_to(past: &Past, request: &Request, class: Class, outcome: Outcome, n: u32) -> bool
    ensures { result ≡ came_to past.now.setting.now.day request.now
        (oldest past.now.journal.now.history past.now.place) class outcome n }
{
    is_of(past.setting, request, class, n) && is_in(outcome, past.phase(n))
}

/// How many of them came to an outcome.
#[tactic(auto, unfolding(crate::specs::Classes::outcome_count))]
pub fn outcome_count(past: &Past, request: &Request, class: Class, outcome: Outcome) -> usize
    ensures { result ≡ outcome_count past.now.setting.now.day request.now
        (oldest past.now.journal.now.history past.now.place) class outcome }
{
    (1..message_count(past.setting) + 1)
        .filter(|n| came_to(past, request, class, outcome, *n))
        .count()
}

fn cents_in(body: &RecordBody) -> u64
    ensures value { (entries : List Entry) → result ≡ order_cents_in (body_with_entries body.now entries) }
    ensures small { result ≤ 10 ^ 18 }
{
    match body {
        RecordBody::Batch { sum, .. } => sum.get(),
        RecordBody::Pay { amount, .. } => amount.get(),
        _ => 0,
    }
}

/// The amount of a payment, or the sum of a batch, in cents.
pub fn order_cents(setting: &Setting, n: MessageNumber) -> u64
    ensures value { result ≡ order_cents setting.now.day n }
    ensures small { result ≤ 10 ^ 18 }
{
    match message(&setting.day, n) {
        Some(message) => cents_in(&message.body),
        None => 0,
    }
}

fn cents(one: &Move) -> u64
    ensures value { result ≡ one.now.amount }
    ensures small { result ≤ 10 ^ 18 }
{
    one.amount.get()
}

fn moved_cents(moves: &[Move]) -> u128
    requires few { length moves.now ≤ move_limit }
    ensures value { result ≡ moved_cents moves.now }
    ensures small { result ≤ most_moved }
{
    let mut sum = 0;
    for one in moves {
        sum += u128::from(cents(one));
    }
    sum
}

// What the line that took message n moved, in cents.
fn intake_cents(past: &Past, n: u32) -> u128
    ensures value { result ≡ intake_cents
        (oldest past.now.journal.now.history past.now.place) n }
    ensures small { result ≤ most_moved }
{
    match past.taken(n) {
        Some(place) => {
            let (_, moves) = past.journal.line(place);
            moved_cents(moves)
        }
        None => 0,
    }
}

fn item_cents(setting: &Setting, n: u32, k: u32) -> u64
    ensures value { result ≡ item_cents setting.now.day n k }
    ensures small { result ≤ 10 ^ 18 }
{
    match item_move(setting, n, k) {
        Some(one) => one.amount.get(),
        None => 0,
    }
}

fn booked_item(past: &Past, n: u32, k: u32) -> u64
    ensures value { result ≡ booked_item past.now.setting.now.day
        (oldest past.now.journal.now.history past.now.place) n k }
    ensures small { result ≤ 10 ^ 18 }
{
    if past.is_booked(n, k) {
        item_cents(past.setting, n, k)
    } else {
        0
    }
}

fn booked_items(past: &Past, n: u32) -> u128
    ensures value { result ≡ booked_items past.now.setting.now.day
        (oldest past.now.journal.now.history past.now.place) n }
    ensures small { result ≤ MAX_CENTS * (MAX_ENTRIES + 1) }
{
    let mut sum = 0;
    for k in 0..entry_count(past.setting, n) + 1 {
        sum += u128::from(booked_item(past, n, k));
    }
    sum
}

// What was booked of a payment or a batch that is settled, in cents.
fn booked_cents(past: &Past, n: u32) -> u128
    ensures value { result ≡ booked_cents past.now.setting.now.day
        (oldest past.now.journal.now.history past.now.place) n }
    ensures small { result ≤ most_moved }
{
    if is_d(past.setting, n) {
        return intake_cents(past, n);
    }
    if is_a_or_b(past.setting, n) {
        return u128::from(order_cents(past.setting, n));
    }
    booked_items(past, n)
}

// What message n adds to the sum of an outcome: what was booked of one that is settled, what any other states.
fn cents_as(past: &Past, outcome: Outcome, n: u32) -> u128
    ensures value { result ≡ cents_as outcome past.now.setting.now.day
        (oldest past.now.journal.now.history past.now.place) n }
    ensures small { result ≤ most_moved }
{
    match outcome {
        Outcome::Settled => booked_cents(past, n),
        _ => u128::from(order_cents(past.setting, n)),
    }
}

fn outcome_part(past: &Past, request: &Request, class: Class, outcome: Outcome, n: u32) -> u128
    ensures small { result ≤ most_moved }
    ensures value { result ≡ outcome_part past.now.setting.now.day request.now
        (oldest past.now.journal.now.history past.now.place) class outcome n }
{
    if came_to(past, request, class, outcome, n) {
        cents_as(past, outcome, n)
    } else {
        0
    }
}

/// What those sum to, in cents: what was booked of those that are settled, what the others state.
pub fn outcome_cents(past: &Past, request: &Request, class: Class, outcome: Outcome) -> u128
    ensures { result ≡ outcome_cents past.now.setting.now.day request.now
        (oldest past.now.journal.now.history past.now.place) class outcome }
{
    let mut sum = 0;
    for before in 0..message_count(past.setting) {
        sum += outcome_part(past, request, class, outcome, before + 1);
    }
    sum
}
