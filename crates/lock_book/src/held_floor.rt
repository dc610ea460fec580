//! The floor in the hands of one thread for a while.
ghost use Rattle.std.specs.Prelude.{◌≡◌, false, true};
ghost use Rattle.commit_journal.specs.declared.line.Want.{Want};
ghost use Rattle.commit_journal.specs.Histories.{Begins};
ghost use Rattle.journal_pass.specs.Known.{with_lines};
ghost use Rattle.machine.specs.Legal.{IsLegal};
ghost use Rattle.machine.specs.Orders.Hints.{hint};
ghost use Rattle.lock_book.specs.Steps.{IsNextFor, moves_time, Tells};

use crate::counted::{CountedFloor, Stepped};
use crate::hall::Hall;
use crate::held::Held;
use crate::name::HallName;
use crate::round_till::RoundTill;
use commit_journal::Want;
use journal_pass::Pass;
use outside_io::Gate;
use rule_book::Item;
use std::sync::MutexGuard;

/// The floor of a hall, which one thread has locked, with some groups of accounts before it. So it makes one line after another,
/// by the balances of all accounts that are kept beside the floor; the groups are brought up to its lines by whoever needs them
/// next. It is let go of where this is dropped.
#[derive(Drop)]
pub struct HeldFloor<'a, H: HallName> {
    groups: Held<'a, H>,
    floor: MutexGuard<'a, CountedFloor<H>>,
    till: MutexGuard<'a, RoundTill<H>>,
    is_fresh: bool,
}

impl<'a, H: HallName> HeldFloor<'a, H> {
    pub(crate) fn of(
        groups: Held<'a, H>,
        floor: MutexGuard<'a, CountedFloor<H>>,
        till: MutexGuard<'a, RoundTill<H>>,
    ) -> HeldFloor<'a, H> {
        HeldFloor {
            groups,
            floor,
            till,
            is_fresh: true,
        }
    }

    // Calls the gate for a line, but for the first one, for which it was called before the floor was locked.
    fn call<G: Gate>(&mut self, lane: u32, gate: &G) {
        if self.is_fresh {
            self.is_fresh = false;
        } else {
            gate.hold(lane);
        }
    }

    fn work(&mut self, hall: &Hall<H>, pass: &mut Pass, want: Want, is_next: bool) -> Stepped
        requires table { pass.old.table ≡ H.table }
        requires next { is_next ≡ true → IsNextFor H.day pass.old.lines want }
        ensures pass { pass.new ≡ with_lines pass.old pass.new.lines }
        ensures before { Begins pass.old.lines pass.new.lines }
        ensures legal { IsLegal H.day pass.new.lines }
        ensures tells { Tells H.day want pass.old.lines pass.new.lines result }
    {
        let (setting, table) = hall.day_and_table();
        self.floor
            .work_on(setting, table, &mut self.till, pass, want, is_next)
    }

    /// Takes a message each earlier message of whose sender is taken in what the pass has seen, or tells why not. It promises
    /// what `Hall::step` promises of that want, and locks nothing.
    pub fn take<G: Gate>(&mut self, hall: &Hall<H>, pass: &mut Pass, n: u32, gate: &G) -> Stepped
        requires table { pass.old.table ≡ H.table }
        requires next { IsNextFor H.day pass.old.lines (Want.In n) }
        ensures pass { pass.new ≡ with_lines pass.old pass.new.lines }
        ensures before { Begins pass.old.lines pass.new.lines }
        ensures legal { IsLegal H.day pass.new.lines }
        ensures tells { Tells H.day (Want.In n) pass.old.lines pass.new.lines result }
    {
        self.call(pass.lane(), gate);
        self.work(hall, pass, Want::In { msg: n }, true)
    }

    /// Makes the line of a want, where it has one now, or tells why it has none; a want other than Time and End. It promises
    /// what `Hall::step` does, and locks nothing.
    pub fn step<G: Gate>(
        &mut self,
        hall: &Hall<H>,
        pass: &mut Pass,
        want: Want,
        gate: &G,
    ) -> Stepped
        requires table { pass.old.table ≡ H.table }
        requires want { moves_time want ≡ false }
        ensures pass { pass.new ≡ with_lines pass.old pass.new.lines }
        ensures before { Begins pass.old.lines pass.new.lines }
        ensures legal { IsLegal H.day pass.new.lines }
        ensures tells { Tells H.day want pass.old.lines pass.new.lines result }
    {
        self.call(pass.lane(), gate);
        self.work(hall, pass, want, false)
    }

    /// What `Hall::hint` answers, without a lock.
    pub fn hint(&mut self, hall: &Hall<H>, pass: &mut Pass, from: Item) -> Option<Want>
        requires { pass.old.table ≡ H.table }
        ensures pass { pass.new ≡ with_lines pass.old pass.new.lines }
        ensures before { Begins pass.old.lines pass.new.lines }
        ensures legal { IsLegal H.day pass.new.lines }
        ensures hint { result ≡ hint H.day pass.new.lines from }
    {
        let (setting, table) = hall.day_and_table();
        self.floor.hint(setting, table, pass, from)
    }
}
