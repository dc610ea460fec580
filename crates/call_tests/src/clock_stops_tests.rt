use batch_records::read_day;
use clock_stops::ClockStops;
use commit_journal::{Code, Head, Kind};
use rule_book::Setting;
use std::alloc::Global;
use std::process::Abort;
use std::test::Fail;

// Batch 1 states 09:00 and 11:00, batch 2 states 10:00 and is rejected, message 3 is a payment; the day states 08:00 and 12:00.
const DAY: &str =
    "DAY;2025-06-02\nAS;HOUSE;E\nACC;X1;DCA;BANKA;;40.00\nACC;Y1;DCA;BANKB;;0.00\nBAT;HOUSE;H1;E;09:00:00;11:00:00;1;5.00\nENT;X1;Y1;5.00\nBAT;HOUSE;H2;E;;10:00:00;2;5.00\nENT;X1;Y1;5.00\nTIM;08:00:00\nPAY;BANKA;P1;N;X1;Y1;1.00\nTIM;12:00:00\nEND\n";

const LINES: [Head; 3] = [
    Head {
        kind: Kind::In,
        msg: 1,
        entry: 0,
        code: Code::Ok,
    },
    Head {
        kind: Kind::In,
        msg: 2,
        entry: 0,
        code: Code::Ct,
    },
    Head {
        kind: Kind::In,
        msg: 3,
        entry: 0,
        code: Code::Ok,
    },
];

// After so many lines, and at this time: the next stop.
const NEXT: [(usize, u32, u32); 14] = [
    (0, 0, 28_800),
    (0, 28_799, 28_800),
    (0, 28_800, 43_200),
    (0, 43_200, 86_400),
    (1, 0, 28_800),
    (1, 28_800, 32_400),
    (1, 32_400, 39_600),
    (1, 39_600, 43_200),
    (2, 32_400, 39_600),
    (3, 28_800, 32_400),
    (3, 39_600, 43_200),
    (3, 43_200, 86_400),
    (3, 86_400, 86_400),
    (3, 4_294_967_295, 86_400),
];

fn stops_after(rt: &impl Abort, alloc: Global, setting: &Setting, lines: &[Head]) -> ClockStops {
    let mut stops = ClockStops::with_room(alloc, setting)
        .ok()
        .expect(rt, "memory");
    for line in lines {
        stops.note(setting, *line);
    }
    stops
}

// The stop that is next after a time, when so many lines have been noted.
fn next_after(rt: &impl Abort, alloc: Global, setting: &Setting, count: usize, time: u32) -> u32 {
    let lines = LINES.get(..count).expect(rt, "lines");
    let stops = stops_after(rt, alloc, setting, lines);
    let next = stops.next(time);
    drop(stops);
    next
}

// The first row that is wrong.
fn first_wrong(rt: &impl Abort, alloc: Global, setting: &Setting) -> Option<usize> {
    for (i, row) in NEXT.iter().enumerate() {
        if next_after(rt, alloc, setting, row.0, row.1) != row.2 {
            return Some(i);
        }
    }
    None
}

#[test]
fn next_stops(rt: HostRuntime) -> Result<(), Fail> {
    let alloc = rt.alloc();
    let (day, _) = read_day(alloc, DAY.as_bytes()).ok().expect(&rt, "a day");
    let setting = Setting::build(alloc, day).ok().expect(&rt, "memory");
    let wrong = first_wrong(&rt, alloc, &setting);
    drop(setting);
    assert_eq!(rt; wrong, None);
    Ok(())
}
