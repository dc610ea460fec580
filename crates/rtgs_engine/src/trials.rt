//! Trials: the day of a seed is settled, and its summary written.
ghost use Rattle.std.specs.Prelude.{◌≡◌, ◌≤◌, true, IfOk};
ghost use Rattle.cash_amounts.specs.Numbers.{numbered};
ghost use Rattle.batch_records.specs.Sound.{is_sound};
ghost use Rattle.lane_workers.specs.Stints.{AreLanesOf};
ghost use Rattle.machine.specs.Legal.{is_complete};
ghost use Rattle.settle_floor.specs.Floors.{IsBalanced};
ghost use Rattle.trial_day.specs.Trial.{generated};
ghost use Rattle.program_answers.specs.Giving.{Says, SaysIfRoom};
ghost use Rattle.rtgs_engine.specs.Answers.{tried};
ghost use Rattle.rtgs_engine.specs.Trials.{IsInRange};

use crate::run::{Settled, settle_in};
use crate::words::Trial;
use account_book::{Holdings, OneTill};
use cash_amounts::Memory;
use lane_workers::{Lanes, settle};
use lock_book::{HallKit, HallName};
use outside_io::{Gate, Sink};
use program_answers::status_after;
use rule_book::Setting;
use std::alloc::Global;
use std::marker::Brand;
use std::sync::Wait;
use std::thread::Threads;
use trial_day::{generate, put_summary};

// The setting of a trial's day.
fn setting_of(alloc: Global, trial: Trial) -> Result<Setting, Memory>
    requires range { IsInRange trial }
    ensures day { IfOk result (λ setting. setting.day ≡ generated trial.seed trial.batches) }
    ensures sound { IfOk result (λ setting. is_sound setting.day ≡ true) }
{
    let day = generate(alloc, trial.seed, trial.batches)?;
    Setting::build(alloc, day)
}

// Settles the day of a trial in the written order.
fn settle_trial(alloc: Global, trial: Trial) -> Result<Settled<OneTill>, Memory>
    requires range { IsInRange trial }
    ensures day { IfOk result (λ settled. settled.setting.day
        ≡ generated trial.seed trial.batches) }
    ensures complete { IfOk result (λ settled. is_complete settled.journal.history ≡ true) }
    ensures balanced { IfOk result (λ settled. IsBalanced settled.setting.day settled.journal
        (numbered settled.till)) }
{
    let setting = setting_of(alloc, trial)?;
    settle_in(alloc, setting)
}

// Writes the summary of a trial that is settled.
fn say_summary<T: Holdings, S: Sink>(_trial: Trial, settled: &Settled<T>, output: &mut S) -> u8
    requires range { IsInRange _trial }
    requires day { settled.now.setting.day ≡ generated _trial.seed _trial.batches }
    requires complete { is_complete settled.now.journal.history ≡ true }
    requires balanced { IsBalanced settled.now.setting.day settled.now.journal
        (T.holdings settled.now.till) }
    ensures { Says (S.state output.old) (S.state output.new) (tried _trial) result }
{
    status_after(
        0,
        put_summary(&settled.setting, &settled.journal, &settled.till, output),
    )
}

/// Answers a trial without workers.
pub(crate) fn try_alone<S: Sink>(alloc: Global, trial: Trial, output: &mut S) -> u8
    requires range { IsInRange trial }
    ensures { SaysIfRoom S.state output.old output.new (tried trial) result }
{
    match settle_trial(alloc, trial) {
        Ok(settled) => {
            let status = say_summary(trial, &settled, output);
            drop(settled);
            status
        }
        Err(_) => 1,
    }
}

// All that is opened before workers settle the day of a trial.
#[derive(Drop)]
struct OpenedTrial {
    lanes: Lanes,
    kit: HallKit,
}

fn open_trial(alloc: Global, trial: Trial) -> Result<OpenedTrial, Memory>
    requires range { IsInRange trial }
    requires some { 1 ≤ trial.workers }
    ensures sound { IfOk result (λ opened. is_sound opened.kit.day ≡ true) }
    ensures workers { IfOk result (λ opened. opened.lanes.workers ≡ trial.workers) }
    ensures lanes { IfOk result (λ opened. AreLanesOf opened.kit.day opened.lanes) }
    ensures kit { IfOk result (λ opened. opened.kit.day ≡ generated trial.seed trial.batches) }
{
    let setting = setting_of(alloc, trial)?;
    match Lanes::build(alloc, &setting, trial.workers) {
        Ok(lanes) => match HallKit::make(alloc, setting) {
            Ok(kit) => Ok(OpenedTrial { lanes, kit }),
            Err(memory) => {
                drop(lanes);
                Err(memory)
            }
        },
        Err(memory) => {
            drop(setting);
            Err(memory)
        }
    }
}

// Lets the workers settle the day, and writes the summary. Nothing asks for memory.
fn try_opened<H, R, G, S>(rt: &R, gate: &G, trial: Trial, opened: OpenedTrial, output: &mut S) -> u8
where
    H: HallName + Send + Sync,
    R: Threads + Wait + Sync,
    G: Gate + Sync,
    S: Sink,
    requires range { IsInRange trial }
    requires trial { H.day ≡ generated trial.seed trial.batches }
    requires sound { is_sound H.day ≡ true }
    requires kit { (opened.kit.table ≡ H.table) × (opened.kit.day ≡ H.day) }
    requires lanes { AreLanesOf H.day opened.lanes }
    requires workers { 1 ≤ opened.lanes.workers }
    ensures { Says (S.state output.old) (S.state output.new) (tried trial) result }
{
    let OpenedTrial { lanes, kit } = opened;
    let (journal, till, setting) = settle::<H, R, G>(rt, kit, &lanes, gate);
    let settled = Settled {
        setting,
        journal,
        till,
    };
    let status = say_summary(trial, &settled, output);
    drop(lanes);
    drop(settled);
    status
}

/// Answers a trial by workers.
pub(crate) fn try_by_workers<R: Threads + Wait + Sync, G: Gate + Sync, S: Sink>(
    rt: &R,
    gate: &G,
    alloc: Global,
    trial: Trial,
    output: &mut S,
) -> u8
    requires range { IsInRange trial }
    requires some { 1 ≤ trial.workers }
    ensures { SaysIfRoom S.state output.old output.new (tried trial) result }
{
    match open_trial(alloc, trial) {
        Ok(opened) => try_opened::<Brand, R, G, S>(rt, gate, trial, opened, output),
        Err(_) => 1,
    }
}
