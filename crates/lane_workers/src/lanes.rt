// The messages of a day by round and lane.
ghost use Rattle.std.specs.Prelude.{◌≡◌, ℕ, ◌+◌, ◌-◌, ◌*◌, ◌<◌, ◌≤◌, ◌++◌, [], ◌∷◌, OnOk, IfOk, filter, if◌then◌else◌, length, map, nat_eq, slice_index, slice_range};
ghost use Rattle.std.specs.List.{range_with_len};
ghost use Rattle.machine.specs.Records.Messages.{message_numbers};
ghost use Rattle.lane_workers.specs.Stints.{AreLanesOf, HasStints, first_of, is_idle, round_count, stint, stint_count};
ghost use Rattle.lane_workers.specs.Senders.{lane_of};

use crate::senders::lanes_of_messages;
use cash_amounts::Memory;
use refused_memory::{push, with_capacity};
use rule_book::Setting;
use rule_book::parts::message_count;
use std::alloc::Global;

// Stints of messages, one after the other, and where each begins, with the end of the last.
#[derive(Drop)]
struct Stints {
    order: Vec<u32>,
    begins: Vec<usize>,
}

/// The messages of a day by round and lane, for 1 to 8 workers, and the first message of each round. Senders are numbered from
/// 0 by their first messages; the lane of a message is its sender's number modulo the workers.
#[derive(Drop)]
pub struct Lanes {
    workers: u32,
    stints: Stints,
    firsts: Vec<u32>,
}

// How many rounds the day has.
fn round_count(setting: &Setting) -> u32
    ensures { result ≡ round_count setting.now.day }
{
    setting.day.stops().len() as u32 + 1
}

// The first message of this round or of a later one; one more than there are messages, where there is none.
fn first_of(setting: &Setting, round: u32) -> u32
    ensures first { result ≡ first_of setting.now.day round }
    ensures range { (0 < result) × (result ≤ length setting.now.day.messages + 1) }
{
    let messages = setting.day.message_records();
    messages.partition_point(|message| message.round < round) as u32 + 1
}

// Whether this is the lane of a message.
fn is_in(lanes: &[u32], n: u32, lane: u32) -> bool
    requires { (0 < n) × (n ≤ length lanes.now) }
    ensures { result ≡ nat_eq (slice_index lanes.now (n - 1)) lane }
{
    lanes[n as usize - 1] == lane
}

fn push_if(order: &mut Vec<u32>, n: u32, passes: bool) -> Result<(), Memory>
    ensures { OnOk result (order.new.items ≡ order.old.items ++ (if passes then n ∷ [] else [])) }
{
    if passes {
        push(order, n)?;
    }
    Ok(())
}

// A part of the order.
fn part(order: &[u32], begin: usize, end: usize) -> &[u32]
    requires { (begin ≤ end) × (end ≤ length order.now) }
    ensures { result.now ≡ slice_range order.now begin end }
{
    &order[begin..end]
}

// Adds those messages to the order whose lane is this one, from the first on and below the end.
fn add_messages(
    order: &mut Vec<u32>,
    lanes: &[u32],
    lane: u32,
    first: u32,
    end: u32,
) -> Result<(), Memory>
    requires range { (0 < first) × (first ≤ end) × (end ≤ length lanes.now + 1) }
    ensures { OnOk result (order.new.items
        ≡ order.old.items
        ++ filter (λ n. nat_eq (slice_index lanes.now (n - 1)) lane)
        (range_with_len first (end - first))) }
{
    for n in first..end {
        push_if(order, n, is_in(lanes, n, lane))?;
    }
    Ok(())
}

impl Stints {
    // No stints, with room for those of so many messages.
    fn none(alloc: Global, setting: &Setting, workers: u32) -> Result<Stints, Memory>
        ensures { IfOk result (λ stints. HasStints setting.now.day workers 0 stints) }
    {
        let order = with_capacity(alloc, message_count(setting) as usize)?;
        let mut begins = Vec::new(alloc);
        push(&mut begins, 0)?;
        Ok(Stints { order, begins })
    }

    // Adds the stint of a round and a lane.
    fn add_stint(
        &mut self,
        setting: &Setting,
        lanes: &[u32],
        workers: u32,
        round: u32,
        lane: u32,
    ) -> Result<(), Memory>
        requires lanes { lanes.now ≡ map (lane_of setting.now.day workers)
            (message_numbers setting.now.day) }
        requires round { round ≤ length setting.now.day.stops }
        requires lane { lane < workers }
        requires stints { HasStints setting.now.day workers (round * workers + lane) self.old }
        ensures { OnOk result (HasStints setting.now.day workers (round * workers + lane + 1)
            self.new) }
    {
        let first = first_of(setting, round);
        let end = first_of(setting, round + 1);
        add_messages(&mut self.order, lanes, lane, first, end)?;
        push(&mut self.begins, self.order.len())?;
        Ok(())
    }

    // Adds the stints of a round.
    fn add_round(
        &mut self,
        setting: &Setting,
        lanes: &[u32],
        workers: u32,
        round: u32,
    ) -> Result<(), Memory>
        requires lanes { lanes.now ≡ map (lane_of setting.now.day workers)
            (message_numbers setting.now.day) }
        requires round { round ≤ length setting.now.day.stops }
        requires stints { HasStints setting.now.day workers (round * workers) self.old }
        ensures { OnOk result (HasStints setting.now.day workers ((round + 1) * workers) self.new) }
    {
        for lane in 0..workers {
            self.add_stint(setting, lanes, workers, round, lane)?;
        }
        Ok(())
    }
}

// The stints of all rounds.
fn all_stints(alloc: Global, setting: &Setting, workers: u32) -> Result<Stints, Memory>
    requires { (0 < workers) × (workers ≤ 8) }
    ensures { IfOk result (λ stints. HasStints setting.now.day workers
        (stint_count setting.now.day workers) stints) }
{
    let lanes = lanes_of_messages(alloc, setting, workers)?;
    let mut stints = Stints::none(alloc, setting, workers)?;
    for round in 0..round_count(setting) {
        stints.add_round(setting, &lanes, workers, round)?;
    }
    Ok(stints)
}

// The first message of each round.
fn all_firsts(alloc: Global, setting: &Setting) -> Result<Vec<u32>, Memory>
    ensures { IfOk result (λ firsts. firsts.items
        ≡ map (first_of setting.now.day) (range_with_len 0 (round_count setting.now.day))) }
{
    let rounds = round_count(setting);
    let mut firsts = with_capacity(alloc, rounds as usize)?;
    for round in 0..rounds {
        push(&mut firsts, first_of(setting, round))?;
    }
    Ok(firsts)
}

impl Lanes {
    /// The lanes of the setting's day for so many workers. `Memory` says that there wasn't enough of it.
    pub fn build(alloc: Global, setting: &Setting, workers: u32) -> Result<Lanes, Memory>
        requires { (1 ≤ workers) × (workers ≤ 8) }
        ensures workers { IfOk result (λ lanes. lanes.workers ≡ workers) }
        ensures lanes { IfOk result (λ lanes. AreLanesOf setting.now.day lanes) }
    {
        let stints = all_stints(alloc, setting, workers)?;
        let firsts = all_firsts(alloc, setting)?;
        Ok(Lanes {
            workers,
            stints,
            firsts,
        })
    }

    /// How many workers there are.
    pub fn workers(&self) -> u32
        ensures { result ≡ self.now.workers }
    {
        self.workers
    }

    /// The messages of a round and a lane, in file order.
    pub fn stint(&self, setting: &Setting, round: u32, lane: u32) -> &[u32]
        requires lanes { AreLanesOf setting.now.day self.now }
        requires round { round ≤ length setting.now.day.stops }
        requires lane { lane < self.now.workers }
        ensures { result.now ≡ stint setting.now.day self.now.workers round lane }
    {
        let place = round as usize * self.workers as usize + lane as usize;
        let begin = self.stints.begins[place];
        let end = self.stints.begins[place + 1];
        part(&self.stints.order, begin, end)
    }

    /// Whether no message of the round is of these lanes, from the first on and below the end.
    pub fn is_idle(&self, setting: &Setting, round: u32, from: u32, end: u32) -> bool
        requires lanes { AreLanesOf setting.now.day self.now }
        requires round { round ≤ length setting.now.day.stops }
        requires range { (from ≤ end) × (end ≤ self.now.workers) }
        ensures { result ≡ is_idle setting.now.day self.now.workers round from end }
    {
        let place = round as usize * self.workers as usize;
        let before = self.stints.begins[place + from as usize];
        let behind = self.stints.begins[place + end as usize];
        before == behind
    }

    /// The first message of a round or of a later one; one more than there are messages, where there is none.
    pub fn first(&self, setting: &Setting, round: u32) -> u32
        requires lanes { AreLanesOf setting.now.day self.now }
        requires round { round ≤ length setting.now.day.stops }
        ensures { result ≡ first_of setting.now.day round }
    {
        self.firsts[round as usize]
    }
}
