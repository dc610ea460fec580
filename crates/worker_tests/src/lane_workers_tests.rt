ghost use Rattle.std.specs.Prelude.{◌≡◌, ◌<◌, ◌≤◌};
ghost use Rattle.lane_workers.specs.Stints.{AreLanesOf};

use batch_records::read_day;
use lane_workers::Lanes;
use rule_book::Setting;
use std::alloc::Global;
use std::process::Abort;

// Four banks and three rounds. Account 4 can pay only once account 3 has paid it, and in the second round nobody sends.
const DAY: &str =
    "DAY;2025-06-02\nACC;X1;DCA;BANKA;;100.00\nACC;Y1;DCA;BANKB;;100.00\nACC;Z1;DCA;BANKC;;100.00\nACC;V1;DCA;BANKD;;0.00\nPAY;BANKA;P1;N;X1;Y1;10.00\nPAY;BANKD;P2;N;V1;X1;5.00\nPAY;BANKB;P3;N;Y1;Z1;20.00\nPAY;BANKC;P4;N;Z1;V1;30.00\nPAY;BANKA;P5;N;X1;Z1;1.00\nTIM;10:00:00\nTIM;12:00:00\nPAY;BANKA;P6;N;X1;V1;40.00\nPAY;BANKC;P7;N;Z1;Y1;2.00\nEND\n";

fn setting_of(rt: &impl Abort, alloc: Global) -> Setting {
    let (day, _) = read_day(alloc, DAY.as_bytes()).ok().expect(rt, "a day");
    Setting::build(alloc, day).ok().expect(rt, "memory")
}

fn lanes_of(rt: &impl Abort, alloc: Global, setting: &Setting, workers: u32) -> Lanes
    requires { (0 < workers) × (workers ≤ 8) }
    ensures { AreLanesOf setting.now.day result }
{
    match Lanes::build(alloc, setting, workers) {
        Ok(lanes) => lanes,
        Err(_) => panic!(rt; "memory"),
    }
}

// Rounds and lanes, and the messages of each stint. Senders are numbered by their first messages: BANKA, BANKD, BANKB, BANKC.
const STINTS: [(u32, u32, &[u32]); 5] = [
    (0, 0, &[1, 3, 5]),
    (0, 1, &[2, 4]),
    (1, 0, &[]),
    (2, 0, &[6]),
    (2, 1, &[7]),
];

// Rounds, and the first message of each or of a later one.
const FIRSTS: [(u32, u32); 3] = [(0, 1), (1, 6), (2, 6)];

fn is_stint(setting: &Setting, lanes: &Lanes, round: u32, lane: u32, messages: &[u32]) -> bool
    requires { AreLanesOf setting.now.day lanes.now }
{
    if round as usize > setting.day.stops().len() || lane >= lanes.workers() {
        return false;
    }
    lanes.stint(setting, round, lane) == messages
}

fn are_stints(setting: &Setting, lanes: &Lanes) -> bool
    requires { AreLanesOf setting.now.day lanes.now }
{
    for (round, lane, messages) in STINTS {
        if !is_stint(setting, lanes, round, lane, messages) {
            return false;
        }
    }
    true
}

fn is_first(setting: &Setting, lanes: &Lanes, round: u32, message: u32) -> bool
    requires { AreLanesOf setting.now.day lanes.now }
{
    if round as usize > setting.day.stops().len() {
        return false;
    }
    lanes.first(setting, round) == message
}

fn are_firsts(setting: &Setting, lanes: &Lanes) -> bool
    requires { AreLanesOf setting.now.day lanes.now }
{
    for (round, message) in FIRSTS {
        if !is_first(setting, lanes, round, message) {
            return false;
        }
    }
    true
}

#[test]
fn stints_by_round_and_lane(rt: HostRuntime) {
    let setting = setting_of(&rt, rt.alloc());
    let lanes = lanes_of(&rt, rt.alloc(), &setting, 2);
    let stops = setting.day.stops().len();
    let workers = lanes.workers();
    let stints = are_stints(&setting, &lanes);
    let firsts = are_firsts(&setting, &lanes);
    drop(lanes);
    drop(setting);
    assert_eq!(rt; stops, 2);
    assert_eq!(rt; workers, 2);
    assert!(rt; stints);
    assert!(rt; firsts);
}
