ghost use Rattle.std.specs.Prelude.{◌≡◌, true, length};
ghost use Rattle.lock_book.specs.Rounds.{AreTaken, tells_of_taken};

use batch_records::read_day;
use commit_journal::{Journal, Want, put_journal};
use journal_pass::Pass;
use lock_book::{Balances, Hall, HallKit, HallName, Needs, Stepped};
use outside_io::{Gate, MemSink, NoGate};
use rule_book::parts::{account_count, message_count};
use rule_book::{Item, Setting, Why};
use std::alloc::{AllocError, Global};
use std::marker::Brand;
use std::process::Abort;
use std::sync::Wait;
use std::sync::atomic::{AtomicU64, Ordering};
use std::test::*;
use std::thread::{Threads, join};

// A batch of A that two banks pay for.
const COVERED: &str =
    "DAY;2025-06-02\nAS;CH1;ABCDE\nACC;X1;DCA;BANKA;;40.00\nACC;Y1;DCA;BANKB;;60.00\nACC;Z1;DCA;BANKC;;0.00\nACC;TA;TEC;CH1;A;0.00\nACC;TB;TEC;CH1;B;0.00\nACC;TC;TEC;CH1;C;0.00\nACC;TD;TEC;CH1;D;0.00\nACC;SX;SUB;BANKA;CH1;0.00\nACC;GF;FND;CH1;;0.00\nBAT;CH1;B1;A;;;3;200.00\nENT;X1;TA;40.00\nENT;Y1;TA;60.00\nENT;TA;Z1;100.00\nEND\n";

// Two payments between two pairs of accounts.
const APART: &str =
    "DAY;2025-06-02\nACC;X1;DCA;BANKA;;100.00\nACC;Y1;DCA;BANKB;;100.00\nACC;Z1;DCA;BANKC;;100.00\nACC;V1;DCA;BANKD;;100.00\nPAY;BANKA;P1;N;X1;Y1;1.00\nPAY;BANKC;P2;N;Z1;V1;1.00\nEND\n";

// Two payments between the same two accounts.
const SHARED: &str =
    "DAY;2025-06-02\nACC;X1;DCA;BANKA;;100.00\nACC;Y1;DCA;BANKB;;100.00\nPAY;BANKA;P1;N;X1;Y1;1.00\nPAY;BANKB;P2;N;Y1;X1;1.00\nEND\n";

// Two payments to one account, each from an account of a lower group: accounts 1 and 3, and 2 and 3.
const HIGHER: &str =
    "DAY;2025-06-02\nACC;X1;DCA;BANKA;;100.00\nACC;Y1;DCA;BANKB;;100.00\nACC;Z1;DCA;BANKC;;100.00\nPAY;BANKA;P1;N;X1;Z1;1.00\nPAY;BANKB;P2;N;Y1;Z1;1.00\nEND\n";

// Two payments to one account, each from an account of a higher group: accounts 1 and 2, and 1 and 3.
const LOWER: &str =
    "DAY;2025-06-02\nACC;X1;DCA;BANKA;;100.00\nACC;Y1;DCA;BANKB;;100.00\nACC;Z1;DCA;BANKC;;100.00\nPAY;BANKB;P1;N;Y1;X1;1.00\nPAY;BANKC;P2;N;Z1;X1;1.00\nEND\n";

fn kit_of(rt: &impl Abort, alloc: Global, input: &str) -> HallKit {
    let (day, _) = read_day(alloc, input.as_bytes()).ok().expect(rt, "a day");
    let setting = Setting::build(alloc, day).ok().expect(rt, "memory");
    HallKit::make(alloc, setting).ok().expect(rt, "memory")
}

fn is_made(stepped: Stepped) -> bool {
    matches!(stepped, Stepped::Made { .. })
}

// Whether the line was made at this place.
fn is_made_at(stepped: Stepped, expected: u32) -> bool {
    match stepped {
        Stepped::Made { place, .. } => place == expected,
        _ => false,
    }
}

// Whether after so many lines the entry is told to be booked in the line at this place.
fn is_booked(stepped: Stepped, lines: u32, expected: u32) -> bool {
    match stepped {
        Stepped::NotNow {
            seen,
            why: Why::Booked { place },
        } => seen == lines && place == expected,
        _ => false,
    }
}

// Whether after so many lines the credit waits for this debit entry.
fn is_waiting(stepped: Stepped, lines: u32, expected: u32) -> bool {
    match stepped {
        Stepped::NotNow {
            seen,
            why: Why::Debits { entry },
        } => seen == lines && entry == expected,
        _ => false,
    }
}

// 1 where the line was made, 2 where the message is told to be taken already, and else 0.
fn told(stepped: Stepped) -> u32 {
    match stepped {
        Stepped::Made { .. } => 1,
        Stepped::NotNow {
            why: Why::Taken { .. },
            ..
        } => 2,
        _ => 0,
    }
}

fn is_taken(stepped: Stepped) -> bool
    ensures { result ≡ tells_of_taken stepped }
{
    matches!(
        stepped,
        Stepped::Made { .. }
            | Stepped::NotNow {
                why: Why::Taken { .. } | Why::Over { .. },
                ..
            }
    )
}

// Takes the one message of the day; whether it is taken then.
fn take_first<H: HallName, R: Wait>(rt: &R, hall: &Hall<H>, pass: &mut Pass) -> bool
    requires table { pass.old.table ≡ H.table }
    requires one { length H.day.messages ≡ 1 }
    ensures table { pass.new.table ≡ H.table }
    ensures taken { result ≡ true → AreTaken H.day hall.now pass.new.lines }
{
    hall.setting();
    is_taken(hall.step(rt, pass, Want::In { msg: 1 }, &NoGate))
}

// A step of an entry of the one batch.
fn book<H: HallName, R: Wait>(rt: &R, hall: &Hall<H>, pass: &mut Pass, entry: u32) -> Stepped
    requires table { pass.old.table ≡ H.table }
    requires taken { AreTaken H.day hall.now pass.old.lines }
    ensures table { pass.new.table ≡ H.table }
    ensures taken { AreTaken H.day hall.now pass.new.lines }
{
    hall.step(rt, pass, Want::Book { msg: 1, entry }, &NoGate)
}

// The entry of the one batch that is named first; 0 where none is.
fn named<H: HallName, R: Wait>(rt: &R, hall: &Hall<H>, pass: &mut Pass) -> u32
    requires table { pass.old.table ≡ H.table }
    requires taken { AreTaken H.day hall.now pass.old.lines }
    ensures table { pass.new.table ≡ H.table }
    ensures taken { AreTaken H.day hall.now pass.new.lines }
{
    match hall.hint(rt, pass, Item { msg: 0, entry: 0 }) {
        Some(Want::Book { entry, .. }) => entry,
        _ => 0,
    }
}

// A test that returns early while it has a hall has to drop it there, so a hall's steps are told by what they came to, and judged once
// it is gone. To let a hall go is much to prove, so it is closed, and what that gives is let go.
fn let_go<H: HallName>(hall: Hall<H>, pass: Pass)
    requires { pass.table ≡ H.table }
{
    let (journal, balances, setting) = hall.close(pass);
    drop(journal);
    drop(balances);
    drop(setting);
}

// Whether the day has one message and nine accounts.
fn is_small<H: HallName>(hall: &Hall<H>) -> bool
    ensures messages { result ≡ true → length H.day.messages ≡ 1 }
    ensures accounts { result ≡ true → length H.day.accounts ≡ 9 }
{
    let messages = message_count(hall.setting());
    let accounts = account_count(hall.setting());
    messages == 1 && accounts == 9
}

// Books the entries of the one batch; whether each step and each hint is answered as it should be.
fn books_all<H: HallName, R: Wait>(rt: &R, hall: &Hall<H>, pass: &mut Pass) -> bool
    requires table { pass.old.table ≡ H.table }
    requires taken { AreTaken H.day hall.now pass.old.lines }
    ensures table { pass.new.table ≡ H.table }
    ensures taken { AreTaken H.day hall.now pass.new.lines }
{
    let seen = pass.seen() == 1;
    let waits = is_waiting(book(rt, hall, pass, 3), 1, 1);
    let first = is_made_at(book(rt, hall, pass, 1), 2);
    let again = is_booked(book(rt, hall, pass, 1), 2, 2);
    let next = named(rt, hall, pass) == 2;
    let second = is_made_at(book(rt, hall, pass, 2), 3);
    let third = is_made_at(book(rt, hall, pass, 3), 4);
    let none = named(rt, hall, pass) == 0;
    seen && waits && first && again && next && second && third && none
}

// Settles the one batch, and finishes the round: whether all went as it should, the lines that were seen, and what came of the day.
fn settled<H: HallName, R: Wait + Abort>(rt: &R, kit: HallKit) -> (bool, u32, Journal, Balances)
    requires { (kit.table ≡ H.table) × (kit.day ≡ H.day) }
    ensures nine { length result.3 ≡ 9 }
{
    let (mut hall, mut pass) = Hall::<H>::open(kit);
    let first = hall.round() == 0;
    if !is_small(&hall) {
        panic!(rt; "another day");
    }
    if !take_first(rt, &hall, &mut pass) {
        panic!(rt; "not taken");
    }
    let booked = books_all(rt, &hall, &mut pass);
    let ended = hall.finish_round(&mut pass);
    let seen = pass.seen();
    let (journal, balances, _) = hall.close(pass);
    (first && booked && ended, seen, journal, balances)
}

const COVERED_JOURNAL: &[u8] =
    b"J;1;IN;1;0;OK;0\nJ;2;BOOK;1;1;OK;1\nM;1;4;40.00\nJ;3;BOOK;1;2;OK;1\nM;2;4;60.00\nJ;4;BOOK;1;3;OK;1\nM;4;3;100.00\nJ;5;TIME;0;86400;OK;0\nJ;6;END;0;0;OK;0\n";

fn has_text(alloc: Global, journal: &Journal, text: &[u8]) -> Result<bool, AllocError> {
    let mut sink = MemSink::over(vec![in alloc; 0u8; 300]?, Vec::new(alloc));
    let all = put_journal(journal, &mut sink).is_ok();
    Ok(all && sink.written() == text)
}

// One pass steps a batch, and finishes the round; then the day is over.
#[test]
fn one_pass_settles_a_batch(rt: HostRuntime) -> Result<(), Fail> {
    let alloc = rt.alloc();
    let (well, seen, journal, balances) = settled::<Brand, _>(&rt, kit_of(&rt, alloc, COVERED));
    let held = [
        balances.get(1).get(),
        balances.get(3).get(),
        balances.get(4).get(),
    ];
    let written = has_text(alloc, &journal, COVERED_JOURNAL);
    drop(journal);
    drop(balances);
    assert!(rt; well);
    assert_eq!(rt; seen, 6);
    assert!(rt; written?);
    assert_eq!(rt; held, [0, 10000, 0]);
    Ok(())
}

// Steps and hints look past what their caller's pass had seen.
#[test]
fn fresh_step(rt: HostRuntime) -> Result<(), Fail> {
    let (well, before, after, noted, joined) = fresh::<Brand, _>(
        &rt,
        kit_of(&rt, rt.alloc(), COVERED),
    );
    assert!(rt; well);
    assert_eq!(rt; before, 0);
    assert_eq!(rt; after, 2);
    assert_eq!(rt; noted, 2);
    assert_eq!(rt; joined, 2);
    Ok(())
}

fn fresh<H: HallName, R: Wait + Abort>(rt: &R, kit: HallKit) -> (bool, u32, u32, u32, u32)
    requires { (kit.table ≡ H.table) × (kit.day ≡ H.day) }
{
    let (hall, mut first) = Hall::<H>::open(kit);
    let mut second = hall.fork(&mut first, 1);
    let mut third = hall.fork(&mut first, 2);
    let one = is_made_at(hall.step(rt, &mut first, Want::In { msg: 1 }, &NoGate), 1);
    let two = is_made_at(
        hall.step(rt, &mut second, Want::Book { msg: 1, entry: 1 }, &NoGate),
        2,
    );
    let before = third.seen();
    let three = hall.hint(rt, &mut third, Item { msg: 0, entry: 0 });
    let hinted = matches!(three, Some(Want::Book { msg: 1, entry: 2 }));
    let after = third.seen();
    let note = hall.note(&mut third);
    hall.meet(&mut first, note);
    let noted = first.seen();
    hall.join(&mut first, second);
    let joined = first.seen();
    let_go(hall, first);
    (one && two && hinted, before, after, noted, joined)
}

// Who holds the floor takes a message, asks for its first item and books it, and calls the gate for each line.
#[test]
fn held_floor_makes_line_after_line(rt: HostRuntime) -> Result<(), Fail> {
    let (well, calls) = held::<Brand, _>(&rt, kit_of(&rt, rt.alloc(), COVERED));
    assert!(rt; well);
    assert_eq!(rt; calls, 3);
    Ok(())
}

// Counts its calls.
#[derive(Drop)]
struct Counting {
    calls: AtomicU64,
}

impl Gate for Counting {
    fn hold(&self, _lane: u32) {
        self.calls.fetch_add(1, Ordering::SeqCst);
    }
}

fn held<H: HallName, R: Wait + Abort>(rt: &R, kit: HallKit) -> (bool, u64)
    requires { (kit.table ≡ H.table) × (kit.day ≡ H.day) }
{
    let gate = Counting {
        calls: AtomicU64::new(0),
    };
    let (hall, mut pass) = Hall::<H>::open(kit);
    let needs = Needs::of_items(hall.setting(), &[1]);
    let mut floor = hall.hold(rt, pass.lane(), needs, &gate);
    let taken = is_made_at(floor.take(&hall, &mut pass, 1, &gate), 1);
    let hinted = matches!(
        floor.hint(&hall, &mut pass, Item { msg: 1, entry: 0 }),
        Some(Want::Book { msg: 1, entry: 1 })
    );
    let first = is_made_at(
        floor.step(&hall, &mut pass, Want::Book { msg: 1, entry: 1 }, &gate),
        2,
    );
    let second = is_made_at(
        floor.step(&hall, &mut pass, Want::Book { msg: 1, entry: 2 }, &gate),
        3,
    );
    drop(floor);
    let again = is_booked(
        hall.step(rt, &mut pass, Want::Book { msg: 1, entry: 1 }, &NoGate),
        3,
        2,
    );
    let_go(hall, pass);
    (
        taken && hinted && first && second && again,
        gate.calls.load(Ordering::SeqCst),
    )
}

// Of two threads that step one In want, one makes its line, and the other is told that the message is taken.
#[test]
fn same_want_twice(rt: HostRuntime) -> Result<(), Fail> {
    let (a, b) = twice::<Brand, _>(&rt, kit_of(&rt, rt.alloc(), COVERED));
    assert_eq!(rt; a.min(b), 1);
    assert_eq!(rt; a.max(b), 2);
    Ok(())
}

fn twice<H: HallName + Send + Sync, R: Threads + Wait + Abort + Sync>(
    rt: &R,
    kit: HallKit,
) -> (u32, u32)
    requires { (kit.table ≡ H.table) × (kit.day ≡ H.day) }
{
    let (hall, mut first) = Hall::<H>::open(kit);
    let mut second = hall.fork(&mut first, 1);
    let spare = hall.fork(&mut first, 2);
    let both = join(
        rt,
        || -> u32
            requires { first.table ≡ H.table }
        { told(hall.step(rt, &mut first, Want::In { msg: 1 }, &NoGate)) },
        || -> u32
            requires { second.table ≡ H.table }
        { told(hall.step(rt, &mut second, Want::In { msg: 1 }, &NoGate)) },
    );
    let_go(hall, spare);
    both
}

// Holds the first that comes until the other's line is made, for some time.
#[derive(Drop)]
struct UntilMade {
    came: AtomicU64,
    made: AtomicU64,
    met: AtomicU64,
}

impl Gate for UntilMade {
    fn hold(&self, _lane: u32) {
        if self.came.fetch_add(1, Ordering::SeqCst) > 0 {
            return;
        }
        for _ in 0..100_000_000 {
            if self.made.load(Ordering::SeqCst) > 0 {
                self.met.fetch_add(1, Ordering::SeqCst);
                return;
            }
        }
    }
}

// Two threads hold different groups at once: while one is held at the gate, the other's line is made.
#[test]
fn different_groups_at_once(rt: HostRuntime) -> Result<(), Fail> {
    let (well, met) = apart::<Brand, _>(&rt, kit_of(&rt, rt.alloc(), APART));
    assert!(rt; well);
    assert_eq!(rt; met, 1);
    Ok(())
}

fn apart<H: HallName + Send + Sync, R: Threads + Wait + Abort + Sync>(
    rt: &R,
    kit: HallKit,
) -> (bool, u64)
    requires { (kit.table ≡ H.table) × (kit.day ≡ H.day) }
{
    let (hall, mut first) = Hall::<H>::open(kit);
    let one = is_made(hall.step(rt, &mut first, Want::In { msg: 1 }, &NoGate));
    let two = is_made(hall.step(rt, &mut first, Want::In { msg: 2 }, &NoGate));
    let mut second = hall.fork(&mut first, 1);
    let spare = hall.fork(&mut first, 2);
    let gate = UntilMade {
        came: AtomicU64::new(0),
        made: AtomicU64::new(0),
        met: AtomicU64::new(0),
    };
    let (a, b) = join(
        rt,
        || -> bool
            requires { first.table ≡ H.table }
        {
            let made = is_made(hall.step(rt, &mut first, Want::Book { msg: 1, entry: 0 }, &gate));
            gate.made.fetch_add(1, Ordering::SeqCst);
            made
        },
        || -> bool
            requires { second.table ≡ H.table }
        {
            let made = is_made(hall.step(rt, &mut second, Want::Book { msg: 2, entry: 0 }, &gate));
            gate.made.fetch_add(1, Ordering::SeqCst);
            made
        },
    );
    let_go(hall, spare);
    (one && two && a && b, gate.met.load(Ordering::SeqCst))
}

// Holds the first that comes until both have told that they are about to call, for some time, and then some time more.
#[derive(Drop)]
struct Beside {
    told: AtomicU64,
    came: AtomicU64,
    alone: AtomicU64,
}

impl Beside {
    fn both_told(&self) -> bool {
        for _ in 0..100_000_000 {
            if self.told.load(Ordering::SeqCst) > 1 {
                return true;
            }
        }
        false
    }

    fn stays_alone(&self) -> bool {
        for _ in 0..1_000_000 {
            if self.came.load(Ordering::SeqCst) > 1 {
                return false;
            }
        }
        true
    }
}

impl Gate for Beside {
    fn hold(&self, _lane: u32) {
        if self.came.fetch_add(1, Ordering::SeqCst) > 0 {
            return;
        }
        if self.both_told() && self.stays_alone() {
            self.alone.fetch_add(1, Ordering::SeqCst);
        }
    }
}

// The gate stands inside the locks of all groups: while one thread is held there, the other waits, whether the two share both of
// their groups, or only the higher of each, or only the lower.
#[test]
fn gate_is_inside_the_locks(rt: HostRuntime) -> Result<(), Fail> {
    assert!(rt; is_held_alone(&rt, rt.alloc(), SHARED));
    assert!(rt; is_held_alone(&rt, rt.alloc(), HIGHER));
    assert!(rt; is_held_alone(&rt, rt.alloc(), LOWER));
    Ok(())
}

// Whether both payments are booked, and nobody comes to the gate while the first is held there.
fn is_held_alone<R: Threads + Wait + Abort + Sync>(rt: &R, alloc: Global, input: &str) -> bool {
    let (well, alone) = inside::<Brand, _>(rt, kit_of(rt, alloc, input));
    well && alone == 1
}

fn inside<H: HallName + Send + Sync, R: Threads + Wait + Abort + Sync>(
    rt: &R,
    kit: HallKit,
) -> (bool, u64)
    requires { (kit.table ≡ H.table) × (kit.day ≡ H.day) }
{
    let (hall, mut first) = Hall::<H>::open(kit);
    let one = is_made(hall.step(rt, &mut first, Want::In { msg: 1 }, &NoGate));
    let two = is_made(hall.step(rt, &mut first, Want::In { msg: 2 }, &NoGate));
    let mut second = hall.fork(&mut first, 1);
    let spare = hall.fork(&mut first, 2);
    let gate = Beside {
        told: AtomicU64::new(0),
        came: AtomicU64::new(0),
        alone: AtomicU64::new(0),
    };
    let (a, b) = join(
        rt,
        || -> bool
            requires { first.table ≡ H.table }
        {
            gate.told.fetch_add(1, Ordering::SeqCst);
            is_made(hall.step(rt, &mut first, Want::Book { msg: 1, entry: 0 }, &gate))
        },
        || -> bool
            requires { second.table ≡ H.table }
        {
            gate.told.fetch_add(1, Ordering::SeqCst);
            is_made(hall.step(rt, &mut second, Want::Book { msg: 2, entry: 0 }, &gate))
        },
    );
    let_go(hall, spare);
    (one && two && a && b, gate.alone.load(Ordering::SeqCst))
}
