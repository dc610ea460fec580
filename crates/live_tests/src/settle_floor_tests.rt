ghost use Rattle.std.specs.Prelude.{◌≡◌, ◌<◌, ◌≤◌, ◌+◌, ℕ, Ok, Some, [], IfSome, get_or, length, map, min, slice_get, true};
ghost use Rattle.batch_records.specs.DayRecord.{Day};
ghost use Rattle.batch_records.specs.Days.{day_of_bytes};
ghost use Rattle.batch_records.specs.Flat.{with_entries};
ghost use Rattle.batch_records.specs.Sound.{is_sound};
ghost use Rattle.batch_records.specs.declared.day.Message.{Message};
ghost use Rattle.batch_records.specs.declared.day.MessageRecord.{MessageRecord};
ghost use Rattle.cash_amounts.specs.Numbers.{numbered};
ghost use Rattle.cash_amounts.specs.declared.limits.TheConstants.{MAX_ENTRIES_OF_DAY, MAX_MESSAGES};
ghost use Rattle.machine.specs.Orders.Bounds.{entries_of_all};
ghost use Rattle.period_calendar.specs.declared.time.TheConstants.{MIDNIGHT};
ghost use Rattle.rule_book.specs.Repeated.{with_one};
ghost use Rattle.settle_floor.specs.Floors.{AtWork, IsFor};
ghost use Rattle.live_day.specs.LiveFloors.{HasMade};
ghost use Rattle.live_tests.specs.GrowingDays.{BringsMessage, BringsStop, IsFront};

use account_book::OneTill;
use batch_records::{Day, DayRoom, Entry, MessageRecord, RecordBody, Reserve, Reserves, read_day};
use cash_amounts::{MAX_ACCOUNTS, MAX_ENTRIES_OF_DAY, MAX_MESSAGES, MAX_SYSTEMS};
use commit_journal::{Head, Journal, Move, Want};
use period_calendar::MIDNIGHT;
use rule_book::parts::{account_count, message_count};
use rule_book::{Item, Setting};
use settle_floor::Floor;
use std::alloc::Global;
use std::process::Abort;

// Procedure A: a batch that fails and is given back, one that is settled, and payments.
const GIVEN_BACK: &str =
    "DAY;2025-06-02\nAS;CLEAR;A\nACC;NORTH1;DCA;NORTH;;500.00\nACC;SOUTH1;DCA;SOUTH;;300.00\nACC;WEST1;DCA;WEST;;20.00\nACC;CLEARA;TEC;CLEAR;A;0.00\nBAT;CLEAR;MORNING;A;;10:00:00;3;500.00\nENT;NORTH1;CLEARA;150.00\nENT;WEST1;CLEARA;100.00\nENT;CLEARA;SOUTH1;250.00\nPAY;WEST;W1;H;WEST1;SOUTH1;15.00\nTIM;12:00:00\nPAY;SOUTH;S1;N;SOUTH1;WEST1;120.00\nBAT;CLEAR;NOON;A;;13:00:00;3;500.00\nENT;NORTH1;CLEARA;150.00\nENT;WEST1;CLEARA;100.00\nENT;CLEARA;SOUTH1;250.00\nEND\n";

// Procedure B: the fund is asked, and pays once the system has answered.
const FUND: &str =
    "DAY;2025-06-02\nAS;CLEAR;B\nACC;NORTH1;DCA;NORTH;;70.00\nACC;SOUTH1;DCA;SOUTH;;90.00\nACC;WEST1;DCA;WEST;;0.00\nACC;CLEARB;TEC;CLEAR;B;0.00\nACC;CLEARF;FND;CLEAR;;150.00\nBAT;CLEAR;B1;B;;10:00:00;4;320.00\nENT;NORTH1;CLEARB;60.00\nENT;SOUTH1;CLEARB;100.00\nENT;CLEARB;WEST1;130.00\nENT;CLEARB;SOUTH1;30.00\nPAY;NORTH;N1;N;NORTH1;WEST1;10.00\nTIM;11:00:00\nCNF;CLEAR;A1;B1;Y\nEND\n";

// Procedure B in version 2: an earliest time, and an objection that is accepted.
const WAITING: &str =
    "VER;2\nDAY;2025-06-02\nAS;CLEAR;B\nACC;NORTH1;DCA;NORTH;;80.00\nACC;SOUTH1;DCA;SOUTH;;40.00\nACC;WEST1;DCA;WEST;;0.00\nACC;CLEARB;TEC;CLEAR;B;0.00\nBAT;CLEAR;NOON;B;3;200.00;info=11:30:00;from=12:00:00;till=13:00:00\nENT;NORTH1;CLEARB;60.00\nENT;SOUTH1;CLEARB;40.00\nENT;CLEARB;WEST1;100.00\nPAY;NORTH;N1;N;NORTH1;SOUTH1;30.00\nTIM;10:00:00\nOBJ;SOUTH;O1;CLEAR;NOON\nTIM;11:00:00\nPAY;SOUTH;S1;N;SOUTH1;NORTH1;20.00\nEND\n";

// Procedure C: liquidity transfers, a cycle, and what its end leaves.
const CYCLE: &str =
    "DAY;2025-06-02\nAS;DEPOT;C\nACC;NORTH1;DCA;NORTH;;200.00\nACC;SOUTH1;DCA;SOUTH;;50.00\nACC;NORTHSUB;SUB;NORTH;DEPOT;0.00\nACC;SOUTHSUB;SUB;SOUTH;DEPOT;0.00\nACC;DEPOTC;TEC;DEPOT;C;0.00\nLIQ;NORTH;L1;NORTH1;NORTHSUB;120.00\nCYC;DEPOT;K1;START\nBAT;DEPOT;B1;C;;;3;195.00\nENT;NORTHSUB;DEPOTC;70.00\nENT;NORTHSUB;DEPOTC;60.00\nENT;DEPOTC;SOUTHSUB;65.00\nLIQ;NORTH;L2;NORTHSUB;NORTH1;10.00\nTIM;12:00:00\nCYC;DEPOT;K2;END\nLIQ;NORTH;L3;NORTHSUB;NORTH1;10.00\nEND\n";

// Procedure D: transfers to the technical account, of which one isn't covered, and a batch of which some entries aren't.
const PREFUNDED: &str =
    "DAY;2025-06-02\nAS;RETAIL;D\nACC;NORTH1;DCA;NORTH;;100.00\nACC;SOUTH1;DCA;SOUTH;;40.00\nACC;WEST1;DCA;WEST;;0.00\nACC;RETAILD;TEC;RETAIL;D;0.00\nLIQ;NORTH;L1;NORTH1;RETAILD;90.00\nLIQ;SOUTH;L2;SOUTH1;RETAILD;50.00\nTIM;09:00:00\nBAT;RETAIL;B1;D;;;3;130.00\nENT;RETAILD;WEST1;60.00\nENT;RETAILD;SOUTH1;45.00\nENT;RETAILD;SOUTH1;25.00\nEND\n";

// Procedure E: a bank that the batch names objects in its information period, and another one too late.
const OBJECTION: &str =
    "DAY;2025-06-02\nAS;HOUSE;E\nACC;NORTH1;DCA;NORTH;;200.00\nACC;SOUTH1;DCA;SOUTH;;50.00\nACC;WEST1;DCA;WEST;;0.00\nBAT;HOUSE;H1;E;09:00:00;11:00:00;4;240.00\nENT;NORTH1;SOUTH1;80.00\nENT;SOUTH1;WEST1;100.00\nENT;WEST1;NORTH1;45.00\nENT;NORTH1;SOUTH1;15.00\nPAY;NORTH;N1;H;NORTH1;WEST1;120.00\nTIM;08:00:00\nOBJ;WEST;W1;HOUSE;H1\nTIM;09:30:00\nOBJ;SOUTH;S1;HOUSE;H1\nEND\n";

// Version 2 with what an account keeps: payments that wait for it, and a batch of E.
const RESERVED: &str =
    "VER;2\nDAY;2025-06-02\nAS;HOUSE;E\nACC;NORTH1;DCA;NORTH;;100.00\nACC;SOUTH1;DCA;SOUTH;;50.00\nRES;NORTH1;30.00;20.00\nPAY;NORTH;N1;N;NORTH1;SOUTH1;60.00\nPAY;NORTH;N2;N;NORTH1;SOUTH1;50.00\nTIM;09:00:00\nPAY;NORTH;N3;H;NORTH1;SOUTH1;20.00\nTIM;10:00:00\nBAT;HOUSE;H1;E;1;30.00\nENT;NORTH1;SOUTH1;30.00\nTIM;11:00:00\nPAY;SOUTH;S1;N;SOUTH1;NORTH1;110.00\nEND\n";

// Messages that are rejected: a repeat, senders and accounts that don't fit; and stops after the last message.
const REJECTED: &str =
    "DAY;2025-06-02\nACC;X1;DCA;BANKA;;50.00\nACC;Y1;DCA;BANKB;;50.00\nTIM;07:00:00\nTIM;08:00:00\nPAY;BANKA;P1;N;X1;Y1;10.00\nPAY;BANKA;P1;N;X1;Y1;20.00\nPAY;BANKC;P1;N;X1;Y1;10.00\nPAY;BANKB;P2;N;X1;Y1;10.00\nTIM;09:00:00\nPAY;BANKB;P3;N;Y1;Z9;10.00\nPAY;BANKB;P4;N;Y1;Y1;10.00\nTIM;10:00:00\nTIM;11:00:00\nEND\n";

// Priorities: a high payment that isn't covered, and what passes it.
const PRIORITIES: &str =
    "DAY;2025-06-03\nACC;NORTH1;DCA;BANKN;;100.00\nACC;SOUTH1;DCA;BANKS;;50.00\nPAY;BANKN;N1;H;NORTH1;SOUTH1;130.00\nPAY;BANKN;N2;N;NORTH1;SOUTH1;20.00\nTIM;09:30:00\nPAY;BANKS;S1;N;SOUTH1;NORTH1;80.00\nPAY;BANKS;S2;H;SOUTH1;NORTH1;40.00\nTIM;14:00:00\nPAY;BANKN;N3;H;NORTH1;SOUTH1;10.00\nEND\n";

// No message at all.
const EMPTY: &str = "DAY;2025-06-02\nACC;X1;DCA;BANKA;;5.00\nEND\n";

const DAYS: [&str; 10] = [
    GIVEN_BACK, FUND, WAITING, CYCLE, PREFUNDED, OBJECTION, RESERVED, REJECTED, PRIORITIES, EMPTY,
];

// ---- what is compared

fn same_head(a: Head, b: Head) -> bool {
    a.kind == b.kind && a.msg == b.msg && a.entry == b.entry && a.code == b.code
}

fn same_move(a: Move, b: Move) -> bool {
    a.debit == b.debit && a.credit == b.credit && a.amount.get() == b.amount.get()
}

fn same_moves(a: &[Move], b: &[Move]) -> bool {
    if a.len() != b.len() {
        return false;
    }
    for i in 0..a.len() {
        if i < b.len() && !same_move(a[i], b[i]) {
            return false;
        }
    }
    true
}

fn same_line(a: &Journal, b: &Journal, place: u32) -> bool {
    if place == 0 || place > a.len() || place > b.len() {
        return false;
    }
    let (head, moves) = a.line(place);
    let (other, others) = b.line(place);
    same_head(head, other) && same_moves(moves, others)
}

fn same_journal(a: &Journal, b: &Journal) -> bool {
    if a.len() != b.len() {
        return false;
    }
    for before in 0..a.len() {
        if !same_line(a, b, before + 1) {
            return false;
        }
    }
    true
}

// A want by its sort, and what it is of.
fn words_of(want: Option<Want>) -> (u32, u32, u32) {
    match want {
        None => (0, 0, 0),
        Some(Want::In { msg }) => (1, msg, 0),
        Some(Want::Book { msg, entry }) => (2, msg, entry),
        Some(Want::All { msg }) => (3, msg, 0),
        Some(Want::Time) => (4, 0, 0),
        Some(Want::Expire { msg }) => (5, msg, 0),
        Some(Want::Ask { msg }) => (6, msg, 0),
        Some(Want::Cover { msg }) => (7, msg, 0),
        Some(Want::Refuse { msg }) => (8, msg, 0),
        Some(Want::Sweep { account }) => (9, account, 0),
        Some(Want::End) => (10, 0, 0),
    }
}

// The hints from an item on are the same over both days.
fn same_hint(
    setting: &Setting,
    floor: &Floor,
    whole: &Setting,
    wide: &Floor,
    msg: u32,
    entry: u32,
) -> bool
    requires opened { IsFor setting.now.day floor.now }
    requires wide { IsFor whole.now.day wide.now }
{
    let own = words_of(floor.hint(setting, Item { msg, entry }));
    own == words_of(wide.hint(whole, Item { msg, entry }))
}

// So are all, from each of so many messages on and from each of its first four entries.
fn same_hints(setting: &Setting, floor: &Floor, whole: &Setting, wide: &Floor, count: u32) -> bool
    requires opened { IsFor setting.now.day floor.now }
    requires wide { IsFor whole.now.day wide.now }
{
    for msg in 0..count {
        for entry in 0..5 {
            if !same_hint(setting, floor, whole, wide, msg, entry) {
                return false;
            }
        }
    }
    true
}

// The earlier one of two times.
fn earlier(time: Option<u32>, other: Option<u32>) -> Option<u32> {
    match (time, other) {
        (Some(a), Some(b)) => Some(a.min(b)),
        (Some(a), None) => Some(a),
        (None, _) => None,
    }
}

// The stop at an index.
fn stop_of(whole: &Day, at: usize) -> Option<u32>
    ensures { IfSome result (λ time. (at < length whole.now.stops)
        × (time ≡ get_or whole.now.stops at 0)) }
{
    if at < whole.stops().len() {
        Some(whole.stops()[at])
    } else {
        None
    }
}

// A message where it is one of so many.
fn one_of(message: Option<u32>, count: u32) -> Option<u32> {
    match message {
        Some(n) => { if n <= count { Some(n) } else { None } }
        None => None,
    }
}

// The first message that is left to take over the day is that over the whole day, where it has come.
fn same_left(setting: &Setting, floor: &Floor, whole: &Setting, wide: &Floor) -> bool
    requires opened { IsFor setting.now.day floor.now }
    requires wide { IsFor whole.now.day wide.now }
{
    let left = one_of(wide.untaken_reached(whole), message_count(setting));
    floor.untaken_reached(setting) == left
}

// The next time over the whole day is that over the day, or the first stop that is to come.
fn same_time(setting: &Setting, floor: &Floor, whole: &Setting, wide: &Floor) -> bool
    requires opened { IsFor setting.now.day floor.now }
    requires wide { IsFor whole.now.day wide.now }
{
    let own = floor.next_time(setting);
    earlier(own, stop_of(&whole.day, setting.day.stops().len())) == wide.next_time(whole)
}

// The two floors have the same lines, and tell the same of what comes next.
fn tell_the_same(
    setting: &Setting,
    floor: &Floor,
    till: &OneTill,
    whole: &Setting,
    wide: &Floor,
    wide_till: &OneTill,
) -> bool
    requires at_work { AtWork setting.now.day floor.now (numbered till.now) }
    requires wide { AtWork whole.now.day wide.now (numbered wide_till.now) }
{
    if !same_journal(floor.journal(), wide.journal()) {
        return false;
    }
    if floor.round() != wide.round() {
        return false;
    }
    if !same_left(setting, floor, whole, wide) {
        return false;
    }
    if words_of(floor.candidate(setting, till)) != words_of(wide.candidate(whole, wide_till)) {
        return false;
    }
    if !same_time(setting, floor, whole, wide) {
        return false;
    }
    same_hints(setting, floor, whole, wide, 8)
}

// ---- the whole day comes piece by piece

fn body_of(body: &RecordBody) -> RecordBody
    ensures { result ≡ body.now }
{
    match body {
        RecordBody::Batch {
            procedure,
            info,
            from,
            till,
            count,
            sum,
        } => RecordBody::Batch {
            procedure: *procedure,
            info: *info,
            from: *from,
            till: *till,
            count: *count,
            sum: *sum,
        },
        RecordBody::Pay {
            high,
            debit,
            credit,
            amount,
        } => RecordBody::Pay {
            high: *high,
            debit: debit.copy(),
            credit: credit.copy(),
            amount: *amount,
        },
        RecordBody::Liquidity {
            debit,
            credit,
            amount,
        } => RecordBody::Liquidity {
            debit: debit.copy(),
            credit: credit.copy(),
            amount: *amount,
        },
        RecordBody::Object { system, batch } => RecordBody::Object {
            system: system.copy(),
            batch: batch.copy(),
        },
        RecordBody::Confirm { batch, yes } => RecordBody::Confirm {
            batch: batch.copy(),
            yes: *yes,
        },
        RecordBody::Cycle { start } => RecordBody::Cycle { start: *start },
    }
}

fn record_of(message: &MessageRecord) -> MessageRecord
    ensures { result ≡ message.now }
{
    MessageRecord {
        round: message.round,
        sender: message.sender.copy(),
        id: message.id.copy(),
        body: body_of(&message.body),
    }
}

fn entry_of(entry: &Entry) -> Entry
    ensures { result ≡ entry.now }
{
    Entry {
        debit: entry.debit.copy(),
        credit: entry.credit.copy(),
        amount: entry.amount,
    }
}

fn reserves_of(rt: &impl Abort, alloc: Global, reserves: &[Reserve]) -> Reserves
    ensures { result ≡ reserves.now }
{
    let mut kept = Reserves::new(alloc);
    for reserve in reserves {
        let one = Reserve {
            account: reserve.account,
            urgent: reserve.urgent,
            high: reserve.high,
        };
        match kept.push(one) {
            Ok(()) => {}
            Err(_) => panic!(rt; "memory"),
        }
    }
    kept
}

// The entries of the last message of a day, which has none.
fn bring_entries(rt: &impl Abort, day: &mut Day, entries: &[Entry])
    ensures { (before : Day) (own : MessageRecord) → day.old ≡ with_one before (with_entries own [])
        → day.new ≡ with_one before (with_entries own entries.now) }
{
    for entry in entries {
        if day.entry_count() >= day.most_entries() {
            panic!(rt; "room");
        }
        day.push_entry_in_room(entry_of(entry));
    }
}

// The message at an index of the whole day.
fn bring(rt: &impl Abort, day: &mut Day, whole: &Day, i: usize)
    requires { i < length whole.now.messages }
    ensures { (last : Message) → slice_get whole.now.messages i ≡ Some last
        → day.new ≡ with_one day.old last }
{
    if day.message_count() >= day.most_messages() {
        panic!(rt; "room");
    }
    day.push_in_room(record_of(whole.message(i)));
    bring_entries(rt, day, whole.entries(i));
}

fn into_day(setting: Setting) -> Day
    ensures { result ≡ setting.day }
{
    let Setting {
        day,
        book,
        kept,
        found,
        tables,
    } = setting;
    drop(book);
    drop(kept);
    drop(found);
    drop(tables);
    day
}

fn setting_of(rt: &impl Abort, alloc: Global, day: Day) -> Setting
    requires { is_sound day ≡ true }
    ensures { result.day ≡ day }
{
    match Setting::build(alloc, day) {
        Ok(setting) => setting,
        Err(_) => panic!(rt; "memory"),
    }
}

// There is room for a message with so many entries.
fn has_room(day: &Day, entries: usize) -> bool
    ensures low { result ≡ true → length day.now.messages < min day.now.room.messages MAX_MESSAGES }
    ensures few { result ≡ true → entries_of_all day.now + entries
        ≤ min day.now.room.entries MAX_ENTRIES_OF_DAY }
{
    let count = day.message_count();
    if count >= day.most_messages() || count >= MAX_MESSAGES {
        return false;
    }
    let most = day.most_entries().min(MAX_ENTRIES_OF_DAY);
    let before = day.entry_count();
    before <= most && entries <= most - before
}

// The next message stands after the stops that have come.
fn is_message_next(day: &Day, whole: &Day) -> bool
    ensures { result ≡ true → (last : Message)
        × (slice_get whole.now.messages (length day.now.messages) ≡ Some last)
        × (last.round ≡ length day.now.stops) }
{
    let i = day.message_count();
    if i >= whole.message_count() {
        return false;
    }
    whole.message(i).round as usize == day.stops().len()
}

fn with_message(rt: &impl Abort, alloc: Global, setting: Setting, whole: &Setting) -> Setting
    requires front { IsFront whole.now.day setting.day }
    ensures front { IsFront whole.now.day result.day }
    ensures brings { BringsMessage setting.day result.day }
{
    let i = setting.day.message_count();
    if !is_message_next(&setting.day, &whole.day) {
        panic!(rt; "no message");
    }
    if !has_room(&setting.day, whole.day.entries(i).len()) {
        panic!(rt; "room");
    }
    let mut day = into_day(setting);
    bring(rt, &mut day, &whole.day, i);
    setting_of(rt, alloc, day)
}

fn with_next_stop(
    rt: &impl Abort,
    alloc: Global,
    setting: Setting,
    whole: &Setting,
) -> (Setting, u32)
    requires front { IsFront whole.now.day setting.day }
    ensures front { IsFront whole.now.day result.0.day }
    ensures brings { BringsStop setting.day result.0.day result.1 }
    ensures early { result.1 ≤ MIDNIGHT }
{
    let time = match stop_of(&whole.day, setting.day.stops().len()) {
        Some(time) => time,
        None => panic!(rt; "no stop"),
    };
    if time > MIDNIGHT {
        panic!(rt; "too late");
    }
    let mut day = into_day(setting);
    day.stop_in_room(time);
    (setting_of(rt, alloc, day), time)
}

// The setting of a day file.
fn setting_read(rt: &impl Abort, alloc: Global, input: &[u8]) -> Setting
    ensures { (n : ℕ) × (day_of_bytes input.now ≡ Ok (result.day, n)) }
{
    let day = match read_day(alloc, input) {
        Ok((day, _)) => day,
        Err(_) => panic!(rt; "a day"),
    };
    setting_of(rt, alloc, day)
}

fn room_for(rt: &impl Abort, alloc: Global, whole: &Day) -> DayRoom
    ensures { length whole.now.stops ≤ result.stops }
{
    let (messages, entries) = (whole.message_count(), whole.entry_count());
    let stops = whole.stops().len();
    assert!(rt; messages <= MAX_MESSAGES);
    assert!(rt; entries <= MAX_ENTRIES_OF_DAY);
    assert!(rt; stops <= MAX_MESSAGES);
    match DayRoom::take(alloc, messages, entries, stops) {
        Ok(room) => room,
        Err(_) => panic!(rt; "memory"),
    }
}

// The setup of the day of a file, with room for the rest.
fn setup_read(rt: &impl Abort, alloc: Global, input: &[u8], whole: &Setting) -> Setting
    requires { (n : ℕ) × (day_of_bytes input.now ≡ Ok (whole.now.day, n)) }
    ensures front { IsFront whole.now.day result.day }
    ensures messages { result.day.messages ≡ [] }
    ensures stops { result.day.stops ≡ [] }
{
    let day = match read_day(alloc, input) {
        Ok((day, _)) => day,
        Err(_) => panic!(rt; "a day"),
    };
    let version = day.version();
    let date = day.date();
    let reserves = reserves_of(rt, alloc, day.reserves());
    let room = room_for(rt, alloc, &whole.day);
    let (accounts, systems) = day.into_setup();
    setting_of(
        rt,
        alloc,
        Day::in_room(version, date, accounts, systems, reserves, room),
    )
}

// ---- two floors

fn till_of(rt: &impl Abort, alloc: Global, setting: &Setting) -> OneTill
    ensures { result ≡ map (λ r. r.opening) setting.now.book.accounts }
{
    match OneTill::open(alloc, &setting.book) {
        Ok(till) => till,
        Err(_) => panic!(rt; "memory"),
    }
}

// One for the whole day.
fn wide_floor(rt: &impl Abort, alloc: Global, whole: &Setting) -> Floor
    ensures { AtWork whole.now.day result
        (numbered (map (λ r. r.opening) whole.now.book.accounts)) }
{
    match Floor::open(alloc, whole) {
        Ok(floor) => floor,
        Err(_) => panic!(rt; "memory"),
    }
}

// One for a day of which only the setup has come, with room for what its own room lets come, and for more accounts and systems.
fn floor_of(rt: &impl Abort, alloc: Global, setting: &Setting) -> Floor
    requires messages { setting.now.day.messages ≡ [] }
    requires stops { setting.now.day.stops ≡ [] }
    ensures { HasMade setting.now.day result
        (numbered (map (λ r. r.opening) setting.now.book.accounts)) }
{
    let accounts = account_count(setting) + 3;
    let systems = setting.book.system_count() + 2;
    let messages = setting.day.most_messages().min(MAX_MESSAGES) as u32;
    let entries = setting.day.most_entries().min(MAX_ENTRIES_OF_DAY) as u32;
    assert!(rt; accounts as usize <= MAX_ACCOUNTS);
    assert!(rt; systems as usize <= MAX_SYSTEMS);
    match Floor::empty(alloc, accounts, systems, messages, entries) {
        Ok(floor) => floor,
        Err(_) => panic!(rt; "memory"),
    }
}

// The next message comes to the floor, and is taken on both. Whether they told the same before.
fn take_next(
    rt: &impl Abort,
    alloc: Global,
    setting: Setting,
    floor: &mut Floor,
    till: &mut OneTill,
    whole: &Setting,
    wide: &mut Floor,
    wide_till: &mut OneTill,
) -> (Setting, bool)
    requires front { IsFront whole.now.day setting.day }
    requires made { HasMade setting.day floor.old (numbered till.old) }
    requires wide { AtWork whole.now.day wide.old (numbered wide_till.old) }
    ensures front { IsFront whole.now.day result.0.day }
    ensures made { HasMade result.0.day floor.new (numbered till.new) }
    ensures wide { AtWork whole.now.day wide.new (numbered wide_till.new) }
{
    let setting = with_message(rt, alloc, setting, whole);
    let n = message_count(&setting);
    floor.arrive(&setting, n);
    let alike = tell_the_same(&setting, floor, till, whole, wide, wide_till);
    floor.take_in(&setting, till, n);
    wide.take_in(whole, wide_till, n);
    (setting, alike)
}

// The next stop comes to the floor, and is reached on both. Whether they told the same before.
fn reach_next(
    rt: &impl Abort,
    alloc: Global,
    setting: Setting,
    floor: &mut Floor,
    till: &mut OneTill,
    whole: &Setting,
    wide: &mut Floor,
    wide_till: &mut OneTill,
) -> (Setting, bool)
    requires front { IsFront whole.now.day setting.day }
    requires made { HasMade setting.day floor.old (numbered till.old) }
    requires wide { AtWork whole.now.day wide.old (numbered wide_till.old) }
    ensures front { IsFront whole.now.day result.0.day }
    ensures made { HasMade result.0.day floor.new (numbered till.new) }
    ensures wide { AtWork whole.now.day wide.new (numbered wide_till.new) }
{
    let (setting, time) = with_next_stop(rt, alloc, setting, whole);
    floor.stop(time);
    let alike = tell_the_same(&setting, floor, till, whole, wide, wide_till);
    floor.come_to(&setting, till, time);
    wide.come_to(whole, wide_till, time);
    (setting, alike)
}

// The next of the day's messages and stops. Whether the floors told the same before it and after it.
fn go_on(
    rt: &impl Abort,
    alloc: Global,
    setting: Setting,
    floor: &mut Floor,
    till: &mut OneTill,
    whole: &Setting,
    wide: &mut Floor,
    wide_till: &mut OneTill,
) -> (Setting, bool)
    requires front { IsFront whole.now.day setting.day }
    requires made { HasMade setting.day floor.old (numbered till.old) }
    requires wide { AtWork whole.now.day wide.old (numbered wide_till.old) }
    ensures front { IsFront whole.now.day result.0.day }
    ensures made { HasMade result.0.day floor.new (numbered till.new) }
    ensures wide { AtWork whole.now.day wide.new (numbered wide_till.new) }
{
    if is_message_next(&setting.day, &whole.day) {
        take_next(rt, alloc, setting, floor, till, whole, wide, wide_till)
    } else {
        reach_next(rt, alloc, setting, floor, till, whole, wide, wide_till)
    }
}

fn first_of(wrong: Option<usize>, at: usize, alike: bool) -> Option<usize> {
    if wrong.is_none() && !alike {
        Some(at)
    } else {
        wrong
    }
}

// The first event before or after which they tell something else, if there is one; one more than all where that is the end.
fn wrong_event(
    rt: &impl Abort,
    alloc: Global,
    setting: Setting,
    floor: &mut Floor,
    till: &mut OneTill,
    whole: &Setting,
    wide: &mut Floor,
    wide_till: &mut OneTill,
) -> Option<usize>
    requires front { IsFront whole.now.day setting.day }
    requires made { HasMade setting.day floor.old (numbered till.old) }
    requires wide { AtWork whole.now.day wide.old (numbered wide_till.old) }
{
    let messages = whole.day.message_count();
    let stops = whole.day.stops().len();
    let mut own = setting;
    let mut wrong = None;
    for at in 0..messages + stops {
        let (next, before) = go_on(rt, alloc, own, floor, till, whole, wide, wide_till);
        own = next;
        let behind = tell_the_same(&own, floor, till, whole, wide, wide_till);
        wrong = first_of(wrong, at, before && behind);
    }
    floor.run_out(&own, till);
    wide.run_out(whole, wide_till);
    let alike = tell_the_same(&own, floor, till, whole, wide, wide_till);
    drop(own);
    first_of(wrong, messages + stops, alike)
}

fn wrong_beside(rt: &impl Abort, alloc: Global, setting: Setting, whole: &Setting) -> Option<usize>
    requires front { IsFront whole.now.day setting.day }
    requires messages { setting.day.messages ≡ [] }
    requires stops { setting.day.stops ≡ [] }
{
    let mut till = till_of(rt, alloc, &setting);
    let mut wide_till = till_of(rt, alloc, whole);
    let mut floor = floor_of(rt, alloc, &setting);
    let mut wide = wide_floor(rt, alloc, whole);
    let wrong = wrong_event(
        rt,
        alloc,
        setting,
        &mut floor,
        &mut till,
        whole,
        &mut wide,
        &mut wide_till,
    );
    // How each part of a floor is let go is proved below.
    drop(floor.into_journal());
    drop(wide.into_journal());
    drop(till);
    drop(wide_till);
    wrong
}

fn wrong_of(rt: &impl Abort, alloc: Global, input: &[u8]) -> Option<usize> {
    let whole = setting_read(rt, alloc, input);
    let setting = setup_read(rt, alloc, input, &whole);
    let wrong = wrong_beside(rt, alloc, setting, &whole);
    drop(whole);
    wrong
}

// The first day that goes wrong, and its event.
fn first_wrong(rt: &impl Abort, alloc: Global) -> Option<(usize, usize)> {
    for (i, day) in DAYS.iter().enumerate() {
        match wrong_of(rt, alloc, day.as_bytes()) {
            Some(event) => return Some((i, event)),
            None => {}
        }
    }
    None
}

#[test]
fn floor_that_grows_tells_what_one_for_the_whole_day_tells(rt: HostRuntime) {
    let alloc = rt.alloc();
    assert_eq!(rt; first_wrong(&rt, alloc), None);
}
