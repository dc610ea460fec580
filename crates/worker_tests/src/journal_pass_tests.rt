ghost use Rattle.std.specs.Prelude.{◌≡◌, ◌-◌, ◌<◌};

use batch_records::{Day, read_day};
use commit_journal::{Code, Head, Journal, Kind};
use journal_pass::{PassTable, Teller, open_table};
use std::alloc::Global;
use std::process::Abort;

fn two_payments(rt: &impl Abort, alloc: Global) -> Day {
    let input =
        b"DAY;2025-06-02\nACC;X1;DCA;BANKA;;100.00\nACC;Y1;DCA;BANKB;;0.00\nPAY;BANKA;P1;N;X1;Y1;60.00\nPAY;BANKA;P2;N;X1;Y1;50.00\nEND\n";
    let (day, _) = read_day(alloc, input).ok().expect(rt, "a day");
    day
}

// The line that takes the message is pushed, and the teller counts it.
fn take(table: &PassTable, teller: &mut Teller, journal: &mut Journal, msg: u32)
    requires table { teller.old.table ≡ table.now.table }
    requires whole { journal.old.history ≡ teller.old.lines }
    requires room { 0 < journal.old.room_for_lines }
    ensures table { teller.new.table ≡ teller.old.table }
    ensures whole { journal.new.history ≡ teller.new.lines }
    ensures room { journal.new.room_for_lines ≡ journal.old.room_for_lines - 1 }
{
    let head = Head {
        kind: Kind::In,
        msg,
        entry: 0,
        code: Code::Ok,
    };
    journal.push(head, &[]);
    teller.count(table, journal);
}

// What passes tell of the lines that they have seen, and of their lanes: at first; after a look; a fork; after a line more, and another
// look; a fork that met a note, and the pass that it joined.
fn told(rt: &impl Abort, alloc: Global) -> [u32; 11] {
    let day = two_payments(rt, alloc);
    let (table, mut teller, mut first) = open_table(alloc, &day).ok().expect(rt, "memory");
    let mut journal = Journal::with_room(alloc, 6, 1).ok().expect(rt, "memory");
    let begun = (first.seen(), first.lane());
    take(&table, &mut teller, &mut journal, 1);
    let looked = first.look(&table, &mut teller, &journal);
    let mut fork = first.fork(&table, 3);
    let forked = (fork.lane(), fork.seen());
    take(&table, &mut teller, &mut journal, 2);
    let still = fork.seen();
    let again = first.look(&table, &mut teller, &journal);
    let note = first.note(&table);
    fork.meet(&table, note);
    let met = (fork.seen(), fork.lane());
    first.join(&table, fork);
    let joined = (first.seen(), first.lane());
    drop(journal);
    drop(day);
    [
        begun.0, begun.1, looked, forked.0, forked.1, still, again, met.0, met.1, joined.0,
        joined.1,
    ]
}

#[test]
fn a_fork_sees_what_it_is_told(rt: HostRuntime) {
    assert_eq!(rt; told(&rt, rt.alloc()), [0, 0, 1, 3, 1, 1, 2, 2, 3, 2, 0]);
}

fn moved<T: Send + Drop>(_value: T) {}

fn lent<T: Sync>(_value: &T) {}

// A teller, a pass and a note may go to another thread, and threads may share a table.
#[test]
fn passes_go_to_threads(rt: HostRuntime) {
    let alloc = rt.alloc();
    let day = two_payments(&rt, alloc);
    let (table, teller, mut pass) = open_table(alloc, &day).ok().expect(&rt, "memory");
    lent(&table);
    moved(pass.note(&table));
    moved(teller);
    moved(pass);
    moved(table);
}
