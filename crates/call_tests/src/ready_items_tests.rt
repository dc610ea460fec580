ghost use Rattle.std.specs.Prelude.{[]};
ghost use Rattle.due_items.specs.Kept.{KeepsDue};

use batch_records::read_day;
use commit_journal::{Code, Head, Kind, Move};
use day_facts::DayFacts;
use due_items::DueItems;
use pending_items::PendingItems;
use ready_items::ReadyItems;
use rule_book::Setting;
use std::alloc::Global;
use std::process::Abort;

// Two normal payments of BANKA with a high one between them, and one of BANKB. X1 is account 1, and Y1 account 2.
const DAY: &str =
    "DAY;2025-06-02\nACC;X1;DCA;BANKA;;40.00\nACC;Y1;DCA;BANKB;;100.00\nPAY;BANKA;P1;N;X1;Y1;60.00\nPAY;BANKA;P2;H;X1;Y1;40.00\nPAY;BANKA;P3;N;X1;Y1;10.00\nPAY;BANKB;P4;N;Y1;X1;100.00\nEND\n";

const LINES: [(Kind, u32); 6] = [
    (Kind::In, 1),
    (Kind::In, 2),
    (Kind::In, 3),
    (Kind::In, 4),
    (Kind::Book, 2),
    (Kind::Book, 4),
];

// After so many of the lines, with these balances, in cents: the number of the next item that may go.
const TABLE: [(usize, u64, u64, Option<u32>); 12] = [
    (0, 4000, 10000, None),
    // P1 takes more than X1 holds
    (1, 4000, 10000, None),
    (1, 6000, 10000, Some(0)),
    (1, 5999, 10000, None),
    // P2 is high and stands before P1, which was there first
    (2, 4000, 10000, Some(1)),
    (2, 3999, 10000, None),
    // P3 would be covered, but stands after P2
    (3, 1000, 10000, None),
    // P4 goes on the other account
    (4, 1000, 10000, Some(3)),
    (4, 4000, 10000, Some(1)),
    // without P2 the first normal payment goes that is covered
    (5, 0, 14000, Some(3)),
    (5, 1000, 0, Some(2)),
    (6, 10000, 4000, Some(0)),
];

fn head_of(kind: Kind, msg: u32) -> Head {
    Head {
        kind,
        msg,
        entry: 0,
        code: Code::Ok,
    }
}

// ---- what is kept of a day

fn setting_of(rt: &impl Abort, alloc: Global) -> Setting {
    let (day, _) = read_day(alloc, DAY.as_bytes()).ok().expect(rt, "a day");
    Setting::build(alloc, day).ok().expect(rt, "memory")
}

fn facts_of(rt: &impl Abort, alloc: Global, setting: &Setting) -> DayFacts {
    DayFacts::with_room(alloc, setting)
        .ok()
        .expect(rt, "memory")
}

fn pending_of(rt: &impl Abort, alloc: Global, setting: &Setting) -> PendingItems {
    PendingItems::with_room(alloc, setting)
        .ok()
        .expect(rt, "memory")
}

fn due_of(rt: &impl Abort, alloc: Global, setting: &Setting) -> DueItems
    ensures { KeepsDue setting.now.day [] result }
{
    match DueItems::with_room(alloc, setting) {
        Ok(due) => due,
        Err(_) => panic!(rt; "memory"),
    }
}

fn ready_of(rt: &impl Abort, alloc: Global, setting: &Setting, due: &DueItems) -> ReadyItems
    requires { KeepsDue setting.now.day [] due.now }
{
    match ReadyItems::with_room(alloc, setting, due) {
        Ok(ready) => ready,
        Err(_) => panic!(rt; "memory"),
    }
}

// ---- lines, and candidates

fn note(
    setting: &Setting,
    facts: &mut DayFacts,
    pending: &mut PendingItems,
    due: &mut DueItems,
    ready: &mut ReadyItems,
    head: Head,
) {
    facts.note(setting, head);
    pending.note(setting, facts, head);
    due.note(setting, facts, head);
    ready.note(setting, facts, due, &[]);
}

fn held(a: u32, x: u64, y: u64) -> u64 {
    if a == 1 { x } else { y }
}

fn find_one(
    setting: &Setting,
    due: &DueItems,
    pending: &PendingItems,
    ready: &mut ReadyItems,
    a: u32,
    money: u64,
) {
    match ready.next_touched(a) {
        Some(b) if b == a => ready.renew_account(setting, due, pending, a, money),
        _ => {}
    }
}

// The candidates of the two accounts, which hold this much, and of number 0.
fn find_all(
    setting: &Setting,
    due: &DueItems,
    pending: &PendingItems,
    ready: &mut ReadyItems,
    x: u64,
    y: u64,
) {
    for a in 0..3 {
        find_one(setting, due, pending, ready, a, held(a, x, y));
    }
}

fn note_all(
    setting: &Setting,
    facts: &mut DayFacts,
    pending: &mut PendingItems,
    due: &mut DueItems,
    ready: &mut ReadyItems,
    lines: &[(Kind, u32)],
) {
    for (kind, msg) in lines {
        note(setting, facts, pending, due, ready, head_of(*kind, *msg));
    }
}

fn next_ready(
    setting: &Setting,
    due: &DueItems,
    pending: &PendingItems,
    ready: &mut ReadyItems,
    x: u64,
    y: u64,
) -> Option<u32> {
    find_all(setting, due, pending, ready, x, y);
    ready.next()
}

// With what is kept of no lines.
fn next_with(
    rt: &impl Abort,
    alloc: Global,
    setting: &Setting,
    due: &mut DueItems,
    ready: &mut ReadyItems,
    row: (&[(Kind, u32)], u64, u64),
) -> Option<u32> {
    let (lines, x, y) = row;
    let mut facts = facts_of(rt, alloc, setting);
    let mut pending = pending_of(rt, alloc, setting);
    note_all(setting, &mut facts, &mut pending, due, ready, lines);
    let next = next_ready(setting, due, &pending, ready, x, y);
    drop(facts);
    drop(pending);
    next
}

fn next_after(
    rt: &impl Abort,
    alloc: Global,
    setting: &Setting,
    row: (&[(Kind, u32)], u64, u64),
) -> Option<u32> {
    let mut due = due_of(rt, alloc, setting);
    let mut ready = ready_of(rt, alloc, setting, &due);
    let next = next_with(rt, alloc, setting, &mut due, &mut ready, row);
    drop(ready);
    drop(due);
    next
}

fn first_wrong(rt: &impl Abort, alloc: Global, setting: &Setting) -> Option<usize> {
    for (i, (count, x, y, want)) in TABLE.iter().enumerate() {
        let lines = LINES.get(..*count).expect(rt, "lines");
        if next_after(rt, alloc, setting, (lines, *x, *y)) != *want {
            return Some(i);
        }
    }
    None
}

#[test]
fn next_items(rt: HostRuntime) {
    let alloc = rt.alloc();
    let setting = setting_of(&rt, alloc);
    let wrong = first_wrong(&rt, alloc, &setting);
    drop(setting);
    assert_eq!(rt; wrong, None);
}
