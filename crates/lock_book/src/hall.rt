// The hall: eight groups of accounts and the floor, each behind a lock of its own.
ghost use Rattle.std.specs.Prelude.{◌≡◌, [], false, is_some, length};
ghost use Rattle.cash_amounts.specs.Numbers.{numbered};
ghost use Rattle.commit_journal.specs.Line.{History};
ghost use Rattle.commit_journal.specs.Histories.{Begins};
ghost use Rattle.journal_pass.specs.Beginning.{longer};
ghost use Rattle.journal_pass.specs.Known.{with_lines};
ghost use Rattle.machine.specs.Telling.Facts.{round};
ghost use Rattle.machine.specs.Orders.Hints.{hint};
ghost use Rattle.machine.specs.Telling.History.{is_ended};
ghost use Rattle.machine.specs.Legal.{IsLegal};
ghost use Rattle.machine.specs.Orders.Order.{to_round};
ghost use Rattle.settle_floor.specs.Floors.{IsBalanced};
ghost use Rattle.lock_book.specs.Rounds.{AreTaken};
ghost use Rattle.lock_book.specs.Steps.{moves_time, Tells};

use crate::balances::Balances;
use crate::counted::{CountedFloor, Stepped};
use crate::group::Group;
use crate::held::Held;
use crate::held_floor::HeldFloor;
use crate::kit::{HallKit, Parts};
use crate::name::HallName;
use crate::needs::{Needs, needed_by};
use crate::round_till::RoundTill;
use commit_journal::{Journal, Want};
use journal_pass::{Note, Pass, PassTable};
use outside_io::Gate;
use rule_book::{Item, Setting};
use std::marker::Model;
use std::sync::{Mutex, MutexGuard, Wait};

/// A day at work for any number of threads, each with a pass. Contracts see the round, which `finish_round` alone changes; what
/// lies behind the locks is known only by its type.
#[derive(Drop)]
pub struct Hall<H: HallName> {
    setting: Setting,
    table: PassTable,
    zero: Mutex<Group<H, 0>>,
    one: Mutex<Group<H, 1>>,
    two: Mutex<Group<H, 2>>,
    three: Mutex<Group<H, 3>>,
    four: Mutex<Group<H, 4>>,
    five: Mutex<Group<H, 5>>,
    six: Mutex<Group<H, 6>>,
    seven: Mutex<Group<H, 7>>,
    floor: Mutex<CountedFloor<H>>,
    till: Mutex<RoundTill<H>>,
    round: u32,
}

impl<H: HallName> Model for Hall<H> {
    ghost use Rattle.std.specs.Prelude.{◌≡◌, ℕ};

    ghost Value = { ℕ };

    ghost view = { λ h. h.round };

    ghost invariant = { λ h. (h.setting.day ≡ H.day) × (h.table.table ≡ H.table)
        × (h.table.day ≡ H.day) };
}

impl<H: HallName> Hall<H> {
    /// The hall of the kit, and a pass of lane 0 that has seen nothing. The journal is empty.
    pub fn open(kit: HallKit) -> (Hall<H>, Pass)
        requires { (kit.table ≡ H.table) × (kit.day ≡ H.day) }
        ensures round { result.0 ≡ 0 }
        ensures pass { result.1 ≡ record { table = H.table; day = H.day; lines = []; lane = 0 } }
    {
        let HallKit { setting, parts } = kit;
        let Parts {
            table,
            floor,
            teller,
            low,
            high,
            till,
            till_pass,
            first,
        } = parts;
        let hall = Hall {
            setting,
            table,
            zero: Mutex::new(Group::new(low.a)),
            one: Mutex::new(Group::new(low.b)),
            two: Mutex::new(Group::new(low.c)),
            three: Mutex::new(Group::new(low.d)),
            four: Mutex::new(Group::new(high.a)),
            five: Mutex::new(Group::new(high.b)),
            six: Mutex::new(Group::new(high.c)),
            seven: Mutex::new(Group::new(high.d)),
            floor: Mutex::new(CountedFloor::new(floor, teller)),
            till: Mutex::new(RoundTill::new(till, till_pass)),
            round: 0,
        };
        (hall, first)
    }

    /// The round of the journal that the last `finish_round` left, and 0 before the first.
    pub fn round(&self) -> u32
        ensures { result ≡ self.now }
    {
        self.round
    }

    /// The day at work, with its book.
    pub fn setting(&self) -> &Setting
        ensures { result.now.day ≡ H.day }
    {
        &self.setting
    }

    /// A pass for a lane, which has seen the same. The pass itself stays.
    pub fn fork(&self, pass: &mut Pass, lane: u32) -> Pass
        requires { pass.old.table ≡ H.table }
        ensures same { pass.new ≡ pass.old }
        ensures new { result ≡ record {
          table = pass.old.table;
          day = pass.old.day;
          lines = pass.old.lines;
          lane = lane;
        } }
    {
        pass.fork(&self.table, lane)
    }

    /// What the pass has seen, for another to meet. The pass itself stays.
    pub fn note(&self, pass: &mut Pass) -> Note
        requires { pass.old.table ≡ H.table }
        ensures same { pass.new ≡ pass.old }
        ensures new { result ≡ record {
          table = pass.old.table;
          day = pass.old.day;
          lines = pass.old.lines;
        } }
    {
        pass.note(&self.table)
    }

    /// The pass has then seen the longer of what it and the note's pass had seen. Both are beginnings of that. Its lane stays.
    pub fn meet(&self, pass: &mut Pass, note: Note)
        requires { (pass.old.table ≡ H.table) × (note.table ≡ H.table) }
        ensures seen { pass.new ≡ with_lines pass.old (longer pass.old.lines note.lines) }
        ensures this { Begins pass.old.lines pass.new.lines }
        ensures that { Begins note.lines pass.new.lines }
    {
        pass.meet(&self.table, note);
    }

    /// The pass has then seen the longer of what the two had seen. Both are beginnings of that. Its lane stays; the other pass
    /// is gone.
    pub fn join(&self, pass: &mut Pass, other: Pass)
        requires { (pass.old.table ≡ H.table) × (other.table ≡ H.table) }
        ensures seen { pass.new ≡ with_lines pass.old (longer pass.old.lines other.lines) }
        ensures this { Begins pass.old.lines pass.new.lines }
        ensures that { Begins other.lines pass.new.lines }
    {
        pass.join(&self.table, other);
    }

    // What a step needs of the hall beside the locks.
    pub(crate) fn day_and_table(&self) -> (&Setting, &PassTable)
        ensures setting { result.0.now.day ≡ H.day }
        ensures table { result.1.now.table ≡ H.table }
    {
        (&self.setting, &self.table)
    }

    // Locks these groups in rising number.
    fn lock_groups<R: Wait>(&self, rt: &R, needs: Needs) -> Held<'_, H>
        ensures { (is_some result.zero ≡ needs.zero) × (is_some result.one ≡ needs.one)
            × (is_some result.two ≡ needs.two) × (is_some result.three ≡ needs.three)
            × (is_some result.four ≡ needs.four) × (is_some result.five ≡ needs.five)
            × (is_some result.six ≡ needs.six) × (is_some result.seven ≡ needs.seven) }
    {
        Held {
            zero: lock_if(rt, &self.zero, needs.zero),
            one: lock_if(rt, &self.one, needs.one),
            two: lock_if(rt, &self.two, needs.two),
            three: lock_if(rt, &self.three, needs.three),
            four: lock_if(rt, &self.four, needs.four),
            five: lock_if(rt, &self.five, needs.five),
            six: lock_if(rt, &self.six, needs.six),
            seven: lock_if(rt, &self.seven, needs.seven),
        }
    }

    /// Locks these groups in rising number, calls the gate for this lane, and then locks the floor. All of it stays locked until
    /// what is returned is dropped, by which a thread makes lines one after another.
    pub fn hold<R: Wait, G: Gate>(
        &self,
        rt: &R,
        lane: u32,
        needs: Needs,
        gate: &G,
    ) -> HeldFloor<'_, H> {
        let groups = self.lock_groups(rt, needs);
        gate.hold(lane);
        let floor = self.floor.lock(rt);
        let till = self.till.lock(rt);
        HeldFloor::of(groups, floor, till)
    }

    /// Makes the line of a want, where it has one now, or tells why it has none; a want other than Time and End. Locks the
    /// groups of the want's accounts in rising number, calls the gate, and then locks the floor. The pass has then seen the whole
    /// journal, and what it had seen before is a beginning of that.
    pub fn step<R: Wait, G: Gate>(&self, rt: &R, pass: &mut Pass, want: Want, gate: &G) -> Stepped
        requires table { pass.old.table ≡ H.table }
        requires want { moves_time want ≡ false }
        ensures pass { pass.new ≡ with_lines pass.old pass.new.lines }
        ensures before { Begins pass.old.lines pass.new.lines }
        ensures legal { IsLegal H.day pass.new.lines }
        ensures tells { Tells H.day want pass.old.lines pass.new.lines result }
    {
        let needs = needed_by(&self.setting, want);
        let mut held = self.lock_groups(rt, needs);
        gate.hold(pass.lane());
        let mut floor = self.floor.lock(rt);
        floor.work(&self.setting, &self.table, &mut held, pass, want)
    }

    /// The want of the first item at or after this one, by message and then by entry, that is pending or whose message's phase
    /// asks for a line, whether or not it has one; None where there is no such item in what the pass has then seen, which is the
    /// whole journal. Locks the floor alone.
    pub fn hint<R: Wait>(&self, rt: &R, pass: &mut Pass, from: Item) -> Option<Want>
        requires { pass.old.table ≡ H.table }
        ensures pass { pass.new ≡ with_lines pass.old pass.new.lines }
        ensures before { Begins pass.old.lines pass.new.lines }
        ensures legal { IsLegal H.day pass.new.lines }
        ensures hint { result ≡ hint H.day pass.new.lines from }
    {
        let mut floor = self.floor.lock(rt);
        floor.hint(&self.setting, &self.table, pass, from)
    }

    /// Makes the rest of a round, in the written order: what is ready, and then time, until the next round is reached or the
    /// End line stands; true where it stands. Each message of the rounds so far has to be taken in what the pass has seen. The
    /// pass has then seen the whole journal, and `round` is the round of that. Locks nothing, and makes no line after the End
    /// line.
    pub fn finish_round(&mut self, pass: &mut Pass) -> bool
        requires table { pass.old.table ≡ H.table }
        requires taken { AreTaken H.day self.old pass.old.lines }
        ensures pass { pass.new ≡ with_lines pass.old pass.new.lines }
        ensures before { Begins pass.old.lines pass.new.lines }
        ensures legal { IsLegal H.day pass.new.lines }
        ensures lines { (J : History) × IsLegal H.day J × Begins pass.old.lines J
            × (pass.new.lines ≡ to_round H.day J) }
        ensures ended { result ≡ is_ended pass.new.lines }
        ensures round { self.new ≡ round H.day pass.new.lines }
    {
        let Hall {
            setting,
            table,
            floor,
            till,
            round,
            ..
        } = self;
        let floor = floor.get_mut();
        let ended = floor.finish(setting, table, till.get_mut(), pass);
        *round = floor.round();
        ended
    }

    /// The journal, which begins with what the pass had seen, the balances over it, and the day with its book.
    pub fn close(self, mut pass: Pass) -> (Journal, Balances, Setting)
        requires { pass.table ≡ H.table }
        ensures before { Begins pass.lines result.0.history }
        ensures balanced { IsBalanced H.day result.0 (numbered result.1) }
        ensures count { length result.1 ≡ length H.day.accounts }
        ensures day { result.2.day ≡ H.day }
    {
        let Hall {
            setting,
            table,
            zero,
            one,
            two,
            three,
            four,
            five,
            six,
            seven,
            floor,
            till,
            ..
        } = self;
        let mut till = till.into_inner();
        // Each is let go by one call, whose proof is then done once.
        drop(zero);
        drop(one);
        drop(two);
        drop(three);
        drop(four);
        drop(five);
        drop(six);
        drop(seven);
        let journal = floor.into_inner().close(&table, &mut till, &mut pass);
        drop(table);
        (journal, till.into_balances(), setting)
    }
}

fn lock_if<'a, T, R: Wait>(rt: &R, mutex: &'a Mutex<T>, needed: bool) -> Option<MutexGuard<'a, T>>
    ensures { is_some result ≡ needed }
{
    if needed { Some(mutex.lock(rt)) } else { None }
}
