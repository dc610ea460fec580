//! Settling by workers.
ghost use Rattle.std.specs.Prelude.{◌≡◌, ◌≤◌, ℕ, true, length, IfOk, Ok};
ghost use Rattle.batch_records.specs.DayRecord.{Day};
ghost use Rattle.batch_records.specs.Days.{day_of_bytes};
ghost use Rattle.batch_records.specs.Sound.{is_sound};
ghost use Rattle.lane_workers.specs.Stints.{AreLanesOf};
ghost use Rattle.settle_floor.specs.Floors.{IsBalanced};
ghost use Rattle.batch_records.specs.Counts.{record_count};
ghost use Rattle.program_answers.specs.Limits.{longest_input};
ghost use Rattle.program_answers.specs.Giving.{SaysIfRoom, SaysOneIfRoom};
ghost use Rattle.rtgs_engine.specs.Answers.{answer_of_day};
ghost use Rattle.rtgs_engine.specs.GivenAnswers.{SaysOfMade, settled};
ghost use Rattle.rtgs_engine.specs.Journals.{IsOfDay};
ghost use Rattle.rtgs_engine.specs.Promises.{IsInputAnswer};

use crate::output::put_output;
use crate::run::Settled;
use crate::top::refuse_rest;
use crate::words::Command;
use account_book::Holdings;
use batch_records::{Day, DayFault};
use cash_amounts::Memory;
use lane_workers::{Lanes, settle};
use lock_book::{HallKit, HallName};
use outside_io::{Gate, Sink};
use program_answers::{Rest, read_input, refuse, status_after};
use rule_book::Setting;
use status_messages::StatusWalk;
use std::alloc::Global;
use std::marker::Brand;
use std::sync::Wait;
use std::thread::Threads;

// All that is opened before workers settle a day.
#[derive(Drop)]
struct Opened {
    lanes: Lanes,
    kit: HallKit,
}

fn open(alloc: Global, day: Day, workers: u32) -> Result<Opened, Memory>
    requires sound { is_sound day ≡ true }
    requires workers { (1 ≤ workers) × (workers ≤ 8) }
    ensures workers { IfOk result (λ opened. opened.lanes.workers ≡ workers) }
    ensures lanes { IfOk result (λ opened. AreLanesOf day opened.lanes) }
    ensures kit { IfOk result (λ opened. opened.kit.day ≡ day) }
{
    let setting = Setting::build(alloc, day)?;
    match Lanes::build(alloc, &setting, workers) {
        Ok(lanes) => match HallKit::make(alloc, setting) {
            Ok(kit) => Ok(Opened { lanes, kit }),
            Err(memory) => {
                drop(lanes);
                Err(memory)
            }
        },
        Err(memory) => {
            drop(setting);
            Err(memory)
        }
    }
}

// Writes the output of a settled day. The walk is opened here, once the hall is let go, so that what they keep of the lines isn't held
// twice; where memory for it is wanting, nothing is written.
fn put_settled<T: Holdings + Drop, S: Sink>(alloc: Global, made: Settled<T>, output: &mut S) -> u8
    requires balanced { IsBalanced made.setting.day made.journal (T.holdings made.till) }
    ensures { SaysIfRoom S.state output.old output.new
        (settled made.setting.day made.journal.history) result }
{
    match StatusWalk::with_room(alloc, &made.setting) {
        Ok(mut walk) => {
            let written = put_output(&mut walk, &made, output);
            drop(walk);
            drop(made);
            status_after(0, written)
        }
        Err(_) => {
            drop(made);
            1
        }
    }
}

// Lets the workers settle the day, and writes its output.
fn settle_opened<H, R, G, S>(rt: &R, gate: &G, alloc: Global, opened: Opened, output: &mut S) -> u8
where
    H: HallName + Send + Sync,
    R: Threads + Wait + Sync,
    G: Gate + Sync,
    S: Sink,
    requires sound { is_sound H.day ≡ true }
    requires kit { (opened.kit.table ≡ H.table) × (opened.kit.day ≡ H.day) }
    requires lanes { AreLanesOf H.day opened.lanes }
    requires workers { 1 ≤ opened.lanes.workers }
    ensures { SaysOfMade S.state output.old output.new (IsOfDay opened.lanes.workers H.day)
        (settled H.day) result }
{
    let Opened { lanes, kit } = opened;
    let (journal, till, setting) = settle::<H, R, G>(rt, kit, &lanes, gate);
    drop(lanes);
    put_settled(
        alloc,
        Settled {
            setting,
            journal,
            till,
        },
        output,
    )
}

// Settles a day by workers and writes its output.
fn work_day<R: Threads + Wait + Sync, G: Gate + Sync, S: Sink>(
    rt: &R,
    gate: &G,
    count: u32,
    alloc: Global,
    day: Day,
    output: &mut S,
) -> u8
    requires count { (1 ≤ count) × (count ≤ 8) }
    requires sound { is_sound day ≡ true }
    ensures { SaysOfMade S.state output.old output.new (IsOfDay count day) (settled day) result }
{
    match open(alloc, day, count) {
        Ok(opened) => settle_opened::<Brand, R, G, S>(rt, gate, alloc, opened, output),
        Err(_) => 1,
    }
}

// Settles a day behind which only line ends may stand.
fn work_alone<R: Threads + Wait + Sync, G: Gate + Sync, S: Sink>(
    rt: &R,
    gate: &G,
    count: u32,
    alloc: Global,
    day: Day,
    rest: Rest,
    output: &mut S,
) -> u8
    requires count { (1 ≤ count) × (count ≤ 8) }
    requires sound { is_sound day ≡ true }
    ensures { SaysOfMade S.state output.old output.new (IsOfDay count day)
        (λ made. answer_of_day (Command.Settle count) day made rest (record_count day)) result }
{
    if rest.is_blank() {
        work_day(rt, gate, count, alloc, day, output)
    } else {
        refuse_rest(&day, output)
    }
}

/// Settles the day of an input of no more than the greatest size, by at least one worker.
pub(crate) fn work_bytes<R: Threads + Wait + Sync, G: Gate + Sync, S: Sink>(
    rt: &R,
    gate: &G,
    count: u32,
    alloc: Global,
    bytes: Vec<u8>,
    output: &mut S,
) -> u8
    requires count { (1 ≤ count) × (count ≤ 8) }
    requires short { length bytes.items ≤ longest_input }
    ensures { SaysOneIfRoom S.state output.old output.new
        (IsInputAnswer (Command.Settle count) bytes.items) result }
{
    match read_input(alloc, bytes) {
        Ok((day, rest)) => work_alone(rt, gate, count, alloc, day, rest, output),
        Err(DayFault::Record { number, code }) => refuse(number, code, output),
        Err(DayFault::Memory(_)) => 1,
    }
}
