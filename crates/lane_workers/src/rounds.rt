// The rounds of a day, one after the other, until the End line stands.
ghost use Rattle.std.specs.Prelude.{◌≡◌, ℕ, ◌≤◌, [], true, length};
ghost use Rattle.cash_amounts.specs.Numbers.{numbered};
ghost use Rattle.machine.specs.Telling.History.{is_ended};
ghost use Rattle.machine.specs.Legal.{IsLegal, is_complete};
ghost use Rattle.settle_floor.specs.Floors.{IsBalanced};
ghost use Rattle.lock_book.specs.Rounds.{AreTaken};
ghost use Rattle.journal_pass.specs.Known.{with_lines};
ghost use Rattle.lane_workers.specs.Stints.{AreLanesOf};
ghost use Rattle.lane_workers.specs.Seen.{AreTakenBelow, GoesOn, HadTurns, IsReached};

use crate::lanes::Lanes;
use crate::workers::work_lanes;
use commit_journal::Journal;
use journal_pass::Pass;
use lock_book::{Balances, Hall, HallKit, HallName};
use outside_io::Gate;
use rule_book::Setting;
use std::sync::Wait;
use std::thread::Threads;

// Lets the workers take the rounds from the next one up to the hall's. The pass is that of lane 0.
fn take_rounds<H: HallName + Send + Sync, R: Threads + Wait + Sync, G: Gate + Sync>(
    rt: &R,
    hall: &Hall<H>,
    lanes: &Lanes,
    mut pass: Pass,
    next: u32,
    gate: &G,
) -> Pass
    requires pass { (pass.table ≡ H.table) × (pass.lane ≡ 0) }
    requires lanes { AreLanesOf H.day lanes.now }
    requires round { IsReached H.day hall.now pass.lines }
    requires before { AreTakenBelow H.day next pass.lines }
    ensures pass { result ≡ with_lines pass result.lines }
    ensures seen { GoesOn H.day pass.lines result.lines }
    ensures taken { AreTaken H.day hall.now result.lines }
    ensures turns { (round : ℕ) → next ≤ round → round ≤ hall.now
        → HadTurns H.day lanes.now.workers round 0 lanes.now.workers pass.lines result.lines }
{
    for round in next..hall.round() + 1 {
        pass = work_lanes(rt, hall, lanes, pass, round, lanes.workers(), gate);
    }
    pass
}

// Takes and finishes round after round, until the End line stands. The pass is that of lane 0.
fn run<H: HallName + Send + Sync, R: Threads + Wait + Sync, G: Gate + Sync>(
    rt: &R,
    hall: &mut Hall<H>,
    lanes: &Lanes,
    mut pass: Pass,
    gate: &G,
) -> Pass
    requires pass { (pass.table ≡ H.table) × (pass.lane ≡ 0) }
    requires lanes { AreLanesOf H.day lanes.now }
    requires round { hall.old ≡ 0 }
    ensures table { result.table ≡ H.table }
    ensures ended { is_ended result.lines ≡ true }
{
    let mut next = 0;
    'rounds: loop {
        pass = take_rounds(rt, hall, lanes, pass, next, gate);
        next = hall.round() + 1;
        if hall.finish_round(&mut pass) {
            return pass;
        }
    }
}

/// Settles the day of the kit by so many workers as there are lanes, and gives the journal, the balances over it and the
/// setting. Each round each worker takes the messages of its lane in file order, and then gives each item of these one chance;
/// what is left of the round is made in the written order. Takes no memory.
pub fn settle<H: HallName + Send + Sync, R: Threads + Wait + Sync, G: Gate + Sync>(
    rt: &R,
    kit: HallKit,
    lanes: &Lanes,
    gate: &G,
) -> (Journal, Balances, Setting)
    requires kit { (kit.table ≡ H.table) × (kit.day ≡ H.day) }
    requires lanes { AreLanesOf H.day lanes.now }
    ensures balanced { IsBalanced H.day result.0 (numbered result.1) }
    ensures complete { is_complete result.0.history ≡ true }
    ensures count { length result.1 ≡ length H.day.accounts }
    ensures day { result.2.day ≡ H.day }
{
    let (mut hall, pass) = Hall::<H>::open(kit);
    let pass = run(rt, &mut hall, lanes, pass, gate);
    hall.close(pass)
}
