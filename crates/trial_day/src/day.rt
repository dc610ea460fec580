//! The day of a trial.
ghost use Rattle.std.specs.Prelude.{◌≡◌, ◌++◌, ◌∷◌, [], OnOk, ℕ, ◌*◌, ◌-◌, ◌<◌, ◌≤◌, ◌^◌, length, map, sum_by, true, IfOk};
ghost use Rattle.std.specs.List.{range_with_len};
ghost use Rattle.batch_records.specs.Flat.{has_entries, with_entries};
ghost use Rattle.batch_records.specs.Meets.{MeetsRules};
ghost use Rattle.batch_records.specs.Sound.{is_sound};
ghost use Rattle.cash_amounts.specs.declared.cents.TheConstants.{MAX_CENTS};
ghost use Rattle.machine.specs.Stages.Intake.{amount_of};
ghost use Rattle.trial_day.specs.declared.day.TheConstants.{MAX_BATCHES};
ghost use Rattle.trial_day.specs.Trial.{batch, generated, number_behind, procedure_of_message, system_of_message, trial_message};

use crate::draws::trios_behind;
use crate::entries::{drawn_entries, sum_of};
use crate::names::{message_id, system_name};
use crate::setup::{SYSTEMS, trial_accounts, trial_systems};
use batch_records::{Day, Entries, Entry, MessageRecord, Messages, RecordBody, Reserves, Stops};
use cash_amounts::{Memory, Procedure};
use period_calendar::BusinessDate;
use std::alloc::Global;

/// A seed is below this number.
pub const SEEDS: u32 = 2_147_483_648;

/// How many batches a trial may have.
pub const MAX_BATCHES: u32 = 10_000;

// The procedure of message i.
fn procedure_of_message(i: u32) -> Procedure
    ensures { result ≡ procedure_of_message i }
{
    match i % 3 {
        1 => Procedure::A,
        2 => Procedure::B,
        _ => Procedure::E,
    }
}

// The number of the system that sends message i.
fn system_of_message(i: u32) -> u32
    requires { 1 ≤ i }
    ensures number { result ≡ system_of_message i }
    ensures least { 1 ≤ result }
    ensures most { result ≤ 8 }
{
    (i - 1) % SYSTEMS + 1
}

// The message of these entries, without them.
fn batch(i: u32, procedure: Procedure, entries: &[Entry]) -> MessageRecord
    requires least { 1 ≤ i }
    requires most { i ≤ MAX_BATCHES }
    requires few { length entries.now ≤ 8 }
    requires small { sum_by amount_of entries.now ≤ MAX_CENTS }
    ensures message { with_entries result entries.now ≡ batch i procedure entries.now }
    ensures batch { has_entries result.body ≡ true }
{
    let count = entries.len() as u32;
    let sum = sum_of(entries);
    MessageRecord {
        round: 0,
        sender: system_name(system_of_message(i)),
        id: message_id(i),
        body: RecordBody::Batch {
            procedure,
            info: None,
            from: None,
            till: None,
            count,
            sum,
        },
    }
}

// A message that was drawn, its entries, and the number of its last draw.
#[derive(Drop)]
struct Drawn {
    message: MessageRecord,
    entries: Entries,
    last: u32,
}

// The message of number i, whose draws stand after x, and the number of its last draw.
#[tactic(auto, unfolding(crate::specs::Trial::trial_message))]
fn trial_message(alloc: Global, i: u32, x: u32) -> Result<Drawn, Memory>
    requires least { 1 ≤ i }
    requires most { i ≤ MAX_BATCHES }
    requires within { x < 2 ^ 31 }
    ensures message { IfOk result (λ r. (seed : ℕ) → x ≡ number_behind seed (12 * (i - 1))
        → with_entries r.message r.entries ≡ trial_message seed i) }
    ensures number { IfOk result (λ r. r.last ≡ number_behind x 12) }
    ensures batch { IfOk result (λ r. has_entries r.message.body ≡ true) }
    ensures small { IfOk result (λ r. r.last < 2 ^ 31) }
{
    let (trios, last) = trios_behind(x);
    let procedure = procedure_of_message(i);
    let entries = drawn_entries(alloc, procedure, system_of_message(i), &trios)?;
    let message = batch(i, procedure, entries.as_slice());
    Ok(Drawn {
        message,
        entries,
        last,
    })
}

// Puts a batch at the end, with its entries.
fn push_batch(
    messages: &mut Messages,
    message: MessageRecord,
    entries: Entries,
) -> Result<(), Memory>
    requires { has_entries message.body ≡ true }
    ensures { OnOk result (messages.new ≡ messages.old ++ with_entries message entries ∷ []) }
{
    messages.push(message)?;
    for entry in entries.into_items() {
        messages.push_entry(entry)?;
    }
    Ok(())
}

// The messages of a trial.
fn trial_messages(alloc: Global, seed: u32, batches: u32) -> Result<Messages, Memory>
    requires seed { seed < 2 ^ 31 }
    requires most { batches ≤ MAX_BATCHES }
    ensures { IfOk result (λ messages. messages
        ≡ map (trial_message seed) (range_with_len 1 batches)) }
{
    let mut messages = Messages::new(alloc);
    let mut x = seed;
    for before in 0..batches {
        let drawn = trial_message(alloc, before + 1, x)?;
        push_batch(&mut messages, drawn.message, drawn.entries)?;
        x = drawn.last;
    }
    Ok(messages)
}

// 2 June 2025, a Monday.
fn trial_date() -> BusinessDate
    ensures { result ≡ record { year = 2025; month = 6; day = 2 } }
{
    BusinessDate::read(b"2025-06-02").unwrap()
}

/// The day of a trial: of a seed below 2^31, with 1 to 10,000 batches. It is the one that is defined (`generated`), is sound, and
/// meets the rules of a day file, so `put_day` can write it, and reading gives it back.
/// `Memory` says that there wasn't enough of it.
#[tactic(auto, unfolding(crate::specs::Trial::generated))]
pub fn generate(alloc: Global, seed: u32, batches: u32) -> Result<Day, Memory>
    requires seed { seed < 2 ^ 31 }
    requires least { 1 ≤ batches }
    requires most { batches ≤ MAX_BATCHES }
    ensures day { IfOk result (λ day. day ≡ generated seed batches) }
    ensures sound { IfOk result (λ day. is_sound day ≡ true) }
    ensures meets { IfOk result (λ day. MeetsRules day) }
{
    Ok(Day::of(
        1,
        trial_date(),
        trial_accounts(alloc)?,
        trial_systems(alloc)?,
        Reserves::new(alloc),
        Stops::new(alloc),
        trial_messages(alloc, seed, batches)?,
    ))
}
