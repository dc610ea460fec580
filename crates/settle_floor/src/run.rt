//! The written order: messages in file order, scans over the items until nothing is made, sub-accounts, then time.
ghost use Rattle.std.specs.Prelude.{◌≡◌, ◌<◌, ◌≤◌, ◌+◌, ◌^◌, ◌||◌, false, true, Some, None, is_none, is_some, length, nat_le, nat_lt, slice_set, if◌then◌else◌, IfSome};
ghost use Rattle.period_calendar.specs.declared.time.TheConstants.{MIDNIGHT};
ghost use Rattle.batch_records.specs.DayRecord.{Day};
ghost use Rattle.commit_journal.specs.declared.line.Want.TheVariants as wants;
ghost use Rattle.machine.specs.Telling.Facts.{round, untaken_reached};
ghost use Rattle.machine.specs.Telling.History.{clock, is_ended};
ghost use Rattle.machine.specs.Legal.{IsLegal, is_complete};
ghost use Rattle.machine.specs.Making.Lines.{item_want};
ghost use Rattle.scan_laws.specs.Numbers.{item_count};
ghost use Rattle.scan_laws.specs.Runs.{flat_step};
ghost use Rattle.live_order.specs.LiveOrder.{has_reached, laps_to};
ghost use Rattle.machine.specs.Orders.Order.{append, empty_all, is_past, one_scan, quiet, scan, take_all, take_step, time_want, to_end, to_round, lap};
ghost use Rattle.number_set.specs.Next.{IsNext};
ghost use Rattle.ready_items.specs.Kept.{IsRenewed, is_member};
ghost use Rattle.settle_floor.specs.Floors.{AtWork, IsFor, IsReadyStill, with_ready};
ghost use Rattle.settle_floor.specs.Runs.{IsVisited, before_in};

use crate::desk::at_work;
use crate::floor::Floor;
use crate::ready::item_want;
use account_book::{Holdings, Till};
use cash_amounts::MessageNumber;
use commit_journal::Want;
use period_calendar::MIDNIGHT;
use rule_book::Setting;
use rule_book::parts::{account_count, message_count};

fn time_or_end(clock: u32) -> Want
    ensures { result ≡ (if nat_lt clock MIDNIGHT then wants.Time else wants.End) }
{
    if clock < MIDNIGHT {
        Want::Time
    } else {
        Want::End
    }
}

fn is_early(clock: u32) -> bool
    ensures { result ≡ nat_lt clock MIDNIGHT }
{
    clock < MIDNIGHT
}

fn is_at_least(clock: u32, time: u32) -> bool
    ensures { result ≡ nat_le time clock }
{
    time <= clock
}

fn is_over_or_behind(over: bool, first: u32, round: u32) -> bool
    ensures { result ≡ (over || nat_lt first round) }
{
    over || first < round
}

fn count_before(count: u32, first: Option<u32>) -> u32
    ensures { result ≡ before_in count first }
{
    match first {
        Some(n) => n.saturating_sub(1),
        None => count,
    }
}

// What an account holds, in cents, and 0 where the day has no account of this number.
fn money_of<T: Holdings>(setting: &Setting, till: &T, a: u32) -> u64
    requires { 1 ≤ a → a ≤ length setting.now.day.accounts
        → is_some (T.holdings till.now a) ≡ true }
    ensures held { 1 ≤ a → a ≤ length setting.now.day.accounts
        → T.holdings till.now a ≡ Some result }
    ensures none { length setting.now.day.accounts < a → result ≡ 0 }
{
    if a == 0 || a > account_count(setting) {
        return 0;
    }
    till.balance(a).get()
}

impl Floor {
    fn len(&self) -> u32
        ensures { result ≡ length self.now.journal.history }
    {
        self.journal().len()
    }

    fn has_ended(&self) -> bool
        ensures { (day : Day) → IsFor day self.now → result ≡ is_ended self.now.journal.history }
    {
        self.lines.ended().is_some()
    }

    /// How many of the stated stops the clock has reached.
    pub fn round(&self) -> u32
        ensures { (day : Day) → IsFor day self.now → result ≡ round day self.now.journal.history }
    {
        self.lines.round()
    }

    // Appends the want's line where it has one.
    fn append<T: Till>(&mut self, setting: &Setting, till: &mut T, want: Want)
        requires at_work { AtWork setting.now.day self.old (T.holdings till.old) }
        ensures lines { self.new.journal.history
            ≡ append setting.now.day self.old.journal.history want }
        ensures at_work { AtWork setting.now.day self.new (T.holdings till.new) }
    {
        let _ = self.answer(setting, till, want);
    }

    // How many messages stand before the first of the rounds reached that isn't taken.
    fn first_left(&self, setting: &Setting) -> u32
        requires opened { IsFor setting.now.day self.now }
        ensures few { result ≤ length setting.now.day.messages }
        ensures still { self.now.journal.history
            ≡ one_scan (take_step setting.now.day) self.now.journal.history result }
    {
        count_before(message_count(setting), self.lines.untaken_reached(setting))
    }

    fn is_all_taken(&self, setting: &Setting) -> bool
        requires opened { IsFor setting.now.day self.now }
        ensures { result ≡ is_none (untaken_reached setting.now.day self.now.journal.history) }
    {
        self.lines.untaken_reached(setting).is_none()
    }

    // Takes whatever is due, message by message, from the first that is left. Once none is, the others are passed over.
    fn take_all<T: Till>(&mut self, setting: &Setting, till: &mut T)
        requires at_work { AtWork setting.now.day self.old (T.holdings till.old) }
        ensures lines { self.new.journal.history
            ≡ take_all setting.now.day self.old.journal.history }
        ensures at_work { AtWork setting.now.day self.new (T.holdings till.new) }
    {
        let first = self.first_left(setting);
        for n in first..message_count(setting) {
            if self.is_all_taken(setting) {
                return;
            }
            self.append(setting, till, Want::In { msg: n + 1 });
        }
    }

    pub(crate) fn want_at<T: Holdings>(&self, setting: &Setting, till: &T, n: u32, k: u32) -> Want
        requires at_work { AtWork setting.now.day self.now (T.holdings till.now) }
        ensures { result ≡ item_want setting.now.day self.now.journal.history n k }
    {
        let desk = at_work(setting, &self.lines, till);
        item_want(&desk, n, k)
    }

    // Gives the item of this number one chance.
    fn visit<T: Till>(&mut self, setting: &Setting, till: &mut T, number: u32)
        requires at_work { AtWork setting.now.day self.old (T.holdings till.old) }
        requires within { number < item_count setting.now.day }
        ensures lines { self.new.journal.history
            ≡ flat_step setting.now.day self.old.journal.history number }
        ensures at_work { AtWork setting.now.day self.new (T.holdings till.new) }
    {
        let item = self.lines.item(number);
        let want = self.want_at(setting, till, item.msg, item.entry);
        self.append(setting, till, want);
    }

    // Finds the candidate of account a anew.
    fn renew_account<T: Holdings>(&mut self, setting: &Setting, till: &T, a: u32)
        requires at_work { AtWork setting.now.day self.old (T.holdings till.now) }
        requires within { a < length self.old.index.ready.touched }
        ensures same { self.new ≡ with_ready self.old self.new.index.ready }
        ensures ready { IsReadyStill setting.now.day self.old.journal.history self.old.index.ready
            self.new.index.ready }
        ensures renewed { self.new.index.ready.touched
            ≡ slice_set self.old.index.ready.touched a false }
        ensures still { self.new.index.ready.at ≡ self.old.index.ready.at }
    {
        let money = money_of(setting, till, a);
        self.lines.renew_account(setting, a, money);
    }

    // Finds the candidates anew of all accounts that were touched.
    fn renew_accounts<T: Holdings>(&mut self, setting: &Setting, till: &T)
        requires at_work { AtWork setting.now.day self.old (T.holdings till.now) }
        ensures same { self.new ≡ with_ready self.old self.new.index.ready }
        ensures ready { IsReadyStill setting.now.day self.old.journal.history self.old.index.ready
            self.new.index.ready }
        ensures renewed { IsRenewed self.new.index.ready }
        ensures still { self.new.index.ready.at ≡ self.old.index.ready.at }
    {
        let mut from = 0;
        'accounts: loop {
            match self.lines.next_touched(from) {
                Some(a) => {
                    self.renew_account(setting, till, a);
                    from = a + 1;
                }
                None => return,
            }
        }
    }

    // The scan goes to a number.
    fn move_to(&mut self, setting: &Setting, from: u32)
        requires opened { IsFor setting.now.day self.old }
        ensures same { self.new ≡ with_ready self.old self.new.index.ready }
        ensures ready { IsReadyStill setting.now.day self.old.journal.history self.old.index.ready
            self.new.index.ready }
        ensures at { self.new.index.ready.at ≡ from }
    {
        self.lines.move_to(setting, from);
    }

    // It goes on from there, and each account has its candidate.
    pub(crate) fn go_on_from<T: Holdings>(&mut self, setting: &Setting, till: &T, from: u32)
        requires at_work { AtWork setting.now.day self.old (T.holdings till.now) }
        ensures same { self.new ≡ with_ready self.old self.new.index.ready }
        ensures ready { IsReadyStill setting.now.day self.old.journal.history self.old.index.ready
            self.new.index.ready }
        ensures renewed { IsRenewed self.new.index.ready }
        ensures at { self.new.index.ready.at ≡ from }
    {
        self.move_to(setting, from);
        self.renew_accounts(setting, till);
    }

    /// Finds anew what could settle next on each account whose balance or whose items changed, by which the next Time or End line is
    /// made without a look at each item that is due. The lines stay. Takes no memory.
    pub fn renew<T: Holdings>(&mut self, setting: &Setting, till: &T)
        requires at_work { AtWork setting.now.day self.old (T.holdings till.now) }
        ensures journal { self.new.journal ≡ self.old.journal }
        ensures renewed { IsRenewed self.new.index.ready }
        ensures at_work { AtWork setting.now.day self.new (T.holdings till.now) }
    {
        self.go_on_from(setting, till, 0);
    }

    // It goes after the next member.
    fn pass_member(&mut self, setting: &Setting, number: u32)
        requires opened { IsFor setting.now.day self.old }
        requires next { IsNext (is_member self.old.index.ready) self.old.index.ready.at
            (Some number) }
        ensures same { self.new ≡ with_ready self.old self.new.index.ready }
        ensures ready { IsReadyStill setting.now.day self.old.journal.history self.old.index.ready
            self.new.index.ready }
    {
        self.lines.pass(setting, number);
    }

    // It goes back to the beginning.
    fn turn_back(&mut self, setting: &Setting)
        requires opened { IsFor setting.now.day self.old }
        requires none { IsNext (is_member self.old.index.ready) self.old.index.ready.at None }
        ensures same { self.new ≡ with_ready self.old self.new.index.ready }
        ensures ready { IsReadyStill setting.now.day self.old.journal.history self.old.index.ready
            self.new.index.ready }
    {
        self.lines.turn_back(setting);
    }

    pub(crate) fn next_member(&self) -> Option<u32>
        ensures { IsNext (is_member self.now.index.ready) self.now.index.ready.at result }
    {
        self.lines.next_member()
    }

    // Gives the next member one chance.
    fn visit_member<T: Till>(&mut self, setting: &Setting, till: &mut T, number: u32)
        requires at_work { AtWork setting.now.day self.old (T.holdings till.old) }
        requires next { IsNext (is_member self.old.index.ready) self.old.index.ready.at
            (Some number) }
        ensures lines { self.new.journal.history
            ≡ flat_step setting.now.day self.old.journal.history number }
        ensures at_work { AtWork setting.now.day self.new (T.holdings till.new) }
    {
        self.pass_member(setting, number);
        self.visit(setting, till, number);
    }

    // From this number on gives the next item one chance that may have a line, and answers it.
    fn visit_next<T: Till>(&mut self, setting: &Setting, till: &mut T, from: u32) -> Option<u32>
        requires at_work { AtWork setting.now.day self.old (T.holdings till.old) }
        ensures lines { IsVisited setting.now.day from self.old.journal.history
            self.new.journal.history result }
        ensures small { IfSome result (λ x. x + 1 < 2 ^ 32) }
        ensures at_work { AtWork setting.now.day self.new (T.holdings till.new) }
    {
        self.go_on_from(setting, till, from);
        match self.next_member() {
            Some(number) => {
                self.visit_member(setting, till, number);
                Some(number)
            }
            None => {
                self.turn_back(setting);
                None
            }
        }
    }

    // Gives every item one chance, by message and entry. Only members can have a line.
    fn scan<T: Till>(&mut self, setting: &Setting, till: &mut T)
        requires at_work { AtWork setting.now.day self.old (T.holdings till.old) }
        ensures lines { self.new.journal.history ≡ scan setting.now.day self.old.journal.history }
        ensures at_work { AtWork setting.now.day self.new (T.holdings till.new) }
    {
        let mut from = 0;
        'items: loop {
            match self.visit_next(setting, till, from) {
                Some(number) => from = number + 1,
                None => return,
            }
        }
    }

    // Scans as long as they change the journal.
    fn quiet<T: Till>(&mut self, setting: &Setting, till: &mut T)
        requires at_work { AtWork setting.now.day self.old (T.holdings till.old) }
        ensures lines { self.new.journal.history ≡ quiet setting.now.day self.old.journal.history }
        ensures at_work { AtWork setting.now.day self.new (T.holdings till.new) }
    {
        'scans: loop {
            let before = self.len();
            self.scan(setting, till);
            if self.len() == before {
                return;
            }
        }
    }

    fn is_before_midnight(&self) -> bool
        ensures { (day : Day) → IsFor day self.now
            → result ≡ nat_lt (clock self.now.journal.history) MIDNIGHT }
    {
        is_early(self.lines.clock())
    }

    // Empties the sub-accounts, by number; before midnight none is.
    fn empty_all<T: Till>(&mut self, setting: &Setting, till: &mut T)
        requires at_work { AtWork setting.now.day self.old (T.holdings till.old) }
        ensures lines { self.new.journal.history
            ≡ empty_all setting.now.day self.old.journal.history }
        ensures at_work { AtWork setting.now.day self.new (T.holdings till.new) }
    {
        if self.is_before_midnight() {
            return;
        }
        for a in 0..account_count(setting) {
            self.append(setting, till, Want::Sweep { account: a + 1 });
        }
    }

    fn time_want(&self) -> Want
        ensures { (day : Day) → IsFor day self.now → result ≡ time_want self.now.journal.history }
    {
        time_or_end(self.lines.clock())
    }

    // Takes what is due, lets the items settle, empties the sub-accounts, and then moves the clock or ends the day.
    fn lap<T: Till>(&mut self, setting: &Setting, till: &mut T)
        requires at_work { AtWork setting.now.day self.old (T.holdings till.old) }
        ensures lines { self.new.journal.history ≡ lap setting.now.day self.old.journal.history }
        ensures at_work { AtWork setting.now.day self.new (T.holdings till.new) }
    {
        self.take_all(setting, till);
        self.quiet(setting, till);
        self.empty_all(setting, till);
        let want = self.time_want();
        self.append(setting, till, want);
    }

    fn is_past(&self, first: u32) -> bool
        ensures { (day : Day) → IsFor day self.now
            → result ≡ is_past day first self.now.journal.history }
    {
        is_over_or_behind(self.has_ended(), first, self.round())
    }

    /// Makes lines in the written order until the next round is reached or the End line stands; true where it stands. The
    /// till has their moves. Takes no memory.
    pub fn run_round<T: Till>(&mut self, setting: &Setting, till: &mut T) -> bool
        requires at_work { AtWork setting.now.day self.old (T.holdings till.old) }
        ensures lines { self.new.journal.history
            ≡ to_round setting.now.day self.old.journal.history }
        ensures ended { result ≡ is_ended self.new.journal.history }
        ensures at_work { AtWork setting.now.day self.new (T.holdings till.new) }
    {
        let first = self.round();
        'laps: while !self.is_past(first) {
            self.lap(setting, till);
        }
        self.has_ended()
    }

    /// Makes the lines of the rest of the day, in the written order, until the End line stands. The till has their moves.
    /// Takes no memory.
    pub fn run_out<T: Till>(&mut self, setting: &Setting, till: &mut T)
        requires at_work { AtWork setting.now.day self.old (T.holdings till.old) }
        ensures lines { self.new.journal.history ≡ to_end setting.now.day self.old.journal.history }
        ensures complete { is_complete self.new.journal.history ≡ true }
        ensures at_work { AtWork setting.now.day self.new (T.holdings till.new) }
    {
        'rounds: while !self.has_ended() {
            self.run_round(setting, till);
        }
    }

    /// Takes message n, which has come in, and lets what is ready then settle. The till has the moves. Takes no memory.
    pub fn take_in<T: Till>(&mut self, setting: &Setting, till: &mut T, n: MessageNumber)
        requires at_work { AtWork setting.now.day self.old (T.holdings till.old) }
        ensures lines { self.new.journal.history ≡ quiet setting.now.day
            (append setting.now.day self.old.journal.history (wants.In n)) }
        ensures at_work { AtWork setting.now.day self.new (T.holdings till.new) }
    {
        self.append(setting, till, Want::In { msg: n });
        self.quiet(setting, till);
    }

    /// Makes lines in the written order until the clock has come to a time of the day, in seconds, and lets what is ready then settle.
    /// The till has the moves. Takes no memory.
    pub fn come_to<T: Till>(&mut self, setting: &Setting, till: &mut T, time: u32)
        requires time { time ≤ MIDNIGHT }
        requires at_work { AtWork setting.now.day self.old (T.holdings till.old) }
        ensures lines { self.new.journal.history ≡ quiet setting.now.day
            (laps_to setting.now.day time self.old.journal.history) }
        ensures at_work { AtWork setting.now.day self.new (T.holdings till.new) }
    {
        'laps: while !self.has_come_to(time) {
            self.lap(setting, till);
        }
        self.quiet(setting, till);
    }

    fn has_come_to(&self, time: u32) -> bool
        ensures { (day : Day) → IsFor day self.now
            → result ≡ has_reached time self.now.journal.history }
    {
        is_at_least(self.lines.clock(), time)
    }
}
