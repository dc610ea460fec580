// The senders of a day by their numbers, and the lanes of its messages.
ghost use Rattle.std.specs.Prelude.{◌≡◌, ◌+◌, ◌<◌, ◌^◌, ℕ, List, None, Some, OnOk, IfOk, if◌then◌else◌, is_some, map, unwrap_or};
ghost use Rattle.std.specs.BTreeMap.{get};
ghost use Rattle.std.specs.Cmp.Lexicographic.{slice_cmp};
ghost use Rattle.std.specs.Option.{option_or};
ghost use Rattle.std.specs.Ordering.{nat_cmp};
ghost use Rattle.machine.specs.Records.Messages.{message_numbers};
ghost use Rattle.machine.specs.Words.{same_name};
ghost use Rattle.lane_workers.specs.Senders.{lane_of, number_among, senders_of};

use cash_amounts::{Memory, Name};
use refused_memory::{insert, push, with_capacity};
use rule_book::Setting;
use std::alloc::Global;
use std::collections::BTreeMap;

// Enters a sender under the next number, unless it has one, and gives the number that is next then.
fn enter(numbers: &mut BTreeMap<Name, u32>, sender: &Name, next: u32) -> Result<u32, Memory>
    requires { next + 1 < 2 ^ 32 }
    ensures next { IfOk result (λ after. after
        ≡ (if is_some (get (slice_cmp nat_cmp) numbers.old sender.now) then next else next + 1)) }
    ensures entered { OnOk result ((name : List ℕ)
        → get (slice_cmp nat_cmp) numbers.new name
        ≡ option_or (get (slice_cmp nat_cmp) numbers.old name)
        (if same_name sender.now name then Some next else None)) }
{
    if numbers.get(sender).is_some() {
        return Ok(next);
    }
    insert(numbers, sender.copy(), next)?;
    Ok(next + 1)
}

// The numbers of all senders of the day.
fn number_senders(alloc: Global, setting: &Setting) -> Result<BTreeMap<Name, u32>, Memory>
    ensures { IfOk result (λ numbers. (name : List ℕ)
        → get (slice_cmp nat_cmp) numbers name
        ≡ number_among (senders_of setting.now.day.messages) name) }
{
    let day = &setting.day;
    let mut numbers = BTreeMap::new(alloc);
    let mut next = 0;
    for i in 0..day.message_count() {
        next = enter(&mut numbers, &day.message(i).sender, next)?;
    }
    Ok(numbers)
}

fn number_of(numbers: &BTreeMap<Name, u32>, sender: &Name) -> u32
    ensures { result ≡ unwrap_or (get (slice_cmp nat_cmp) numbers.now sender.now) 0 }
{
    match numbers.get(sender) {
        Some(number) => *number,
        None => 0,
    }
}

/// The lanes of the messages, by file order, for so many workers: a sender's lane is its number modulo the workers.
pub(crate) fn lanes_of_messages(
    alloc: Global,
    setting: &Setting,
    workers: u32,
) -> Result<Vec<u32>, Memory>
    requires { 0 < workers }
    ensures { IfOk result (λ lanes. lanes.items
        ≡ map (lane_of setting.now.day workers) (message_numbers setting.now.day)) }
{
    let day = &setting.day;
    let numbers = number_senders(alloc, setting)?;
    let mut lanes = with_capacity(alloc, day.message_count())?;
    for i in 0..day.message_count() {
        push(
            &mut lanes,
            number_of(&numbers, &day.message(i).sender) % workers,
        )?;
    }
    Ok(lanes)
}
