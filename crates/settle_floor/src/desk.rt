//! The floor as a desk: a journal that is legal for its day, with the balances that a till has.
ghost use Rattle.std.specs.Prelude.{◌≡◌, ◌↔◌, ◌==◌, ◌<◌, ◌^◌, ℕ, Option, Some, None, true, is_some, nat_eq, IfSome};
ghost use Rattle.machine.specs.Words.{when};
ghost use Rattle.commit_journal.specs.Kept.{Kept};
ghost use Rattle.machine.specs.Telling.Facts.{untaken_earlier, untaken_reached};
ghost use Rattle.machine.specs.Making.Lines.{next_stop};
ghost use Rattle.day_facts.specs.Facts.{StandsFor};
ghost use Rattle.day_facts.specs.Told.{aim_of};
ghost use Rattle.day_facts.specs.Props.{StandsFor-prop};
ghost use Rattle.pending_items.specs.Kept.{KeepsPending};
ghost use Rattle.pending_items.specs.Props.{KeepsPending-prop};
ghost use Rattle.scan_laws.specs.Numbers.{item_count, item_of};
ghost use Rattle.due_items.specs.Kept.{KeepsDue};
ghost use Rattle.due_items.specs.Props.{KeepsDue-prop};
ghost use Rattle.clock_stops.specs.Kept.{KeepsStops};
ghost use Rattle.clock_stops.specs.Props.{KeepsStops-prop};
ghost use Rattle.settle_floor.specs.Floors.{IsIndex};
ghost use Rattle.settle_floor.specs.Props.{RestAll-prop};
ghost use Rattle.settle_floor.specs.Ready.{IsAtRest, IsNextDue, RestAll};
ghost use Rattle.number_set.specs.Next.{IsNext};
ghost use Rattle.ready_items.specs.Kept.{IsRenewed, is_member};
ghost use Rattle.settle_floor.specs.Tills.{KeepsBalances};

use crate::indexed::Indexed;
use account_book::Holdings;
use cash_amounts::{AccountNumber, Cents, EntryNumber, MessageNumber};
use clock_stops::ClockStops;
use commit_journal::{Code, Journal};
use day_facts::{DayFacts, batch_named};
use due_items::DueItems;
use pending_items::PendingItems;
use ready_items::ReadyItems;
use rule_book::{Desk, Item, Phase, Setting};

/// A journal at work, with the index of what its lines tell, and the balances that are at hand.
#[derive(Drop)]
pub struct FloorDesk<'a, T: Holdings> {
    setting: &'a Setting,
    journal: &'a Journal,
    facts: &'a DayFacts,
    pending: &'a PendingItems,
    due: &'a DueItems,
    ready: &'a ReadyItems,
    stops: &'a ClockStops,
    till: &'a T,

    ghost stands: { StandsFor setting.now.day journal.now.history
        facts.now } by { StandsFor-prop _ _ _ },
    ghost queued: { KeepsPending setting.now.day journal.now.history
        pending.now } by { KeepsPending-prop _ _ _ },
    ghost listed: { KeepsDue setting.now.day journal.now.history
        due.now } by { KeepsDue-prop _ _ _ },
    ghost timed: { KeepsStops setting.now.day journal.now.history
        stops.now } by { KeepsStops-prop _ _ _ },
    ghost rests: { IsAtRest ready.now
        → RestAll setting.now.day journal.now.history } by { RestAll-prop _ _ _ },
    ghost kept: { KeepsBalances (T.holdings till.now) setting.now.day journal.now.history },
}

impl<T: Holdings> Desk for FloorDesk<'_, T> {
    ghost day = { λ desk. desk.setting.now.day };

    ghost past = { λ desk. desk.journal.now.history };

    ghost held = { λ desk a. is_some (T.holdings desk.till.now a) };

    ghost sound = { λ desk. desk.setting.now.sound };

    ghost legal = { λ desk. desk.stands.legal };

    fn setting(&self) -> &Setting {
        self.setting
    }

    fn clock(&self) -> u32 {
        self.facts.clock()
    }

    fn round(&self) -> u32 {
        self.facts.round()
    }

    fn lines(&self) -> u32 {
        self.journal.len()
    }

    fn taken(&self, n: MessageNumber) -> Option<u32> {
        self.facts.taken(n)
    }

    fn code(&self, n: MessageNumber) -> Option<Code> {
        self.facts.code(n)
    }

    fn booked(&self, n: MessageNumber, k: EntryNumber) -> Option<u32> {
        self.facts.booked(n, k)
    }

    fn first_unbooked_debit(&self, n: MessageNumber) -> Option<u32> {
        self.facts.first_unbooked_debit(n)
    }

    fn revoked(&self, n: MessageNumber, k: EntryNumber) -> Option<u32> {
        self.facts.revoked(self.setting, n, k)
    }

    fn asked(&self, n: MessageNumber) -> Option<u32> {
        self.facts.asked(n)
    }

    fn answered(&self, n: MessageNumber) -> Option<bool> {
        self.facts.answer(n)
    }

    fn covered(&self, n: MessageNumber) -> Option<u32> {
        self.facts.covered(n)
    }

    fn closed(&self, n: MessageNumber) -> Option<u32> {
        self.facts.closed(n)
    }

    fn cycle(&self, system: u32) -> Option<u32> {
        let name = self.setting.book.system_name(system);
        self.facts.cycle(self.setting, name)
    }

    fn phase(&self, n: MessageNumber) -> Phase {
        self.facts.phase(self.setting, n)
    }

    fn balance(&self, a: AccountNumber) -> Cents {
        self.till.balance(a)
    }

    fn ended(&self) -> Option<u32> {
        self.facts.ended()
    }

    fn has(&self, a: AccountNumber) -> bool {
        self.till.has(a)
    }

    fn first_blocker(&self, item: Item, a: AccountNumber) -> Option<Item> {
        self.pending
            .first_blocker(self.setting, self.facts, item, a)
    }
}

/// A desk that tells more at once than a procedure asks.
pub trait IndexedDesk: Desk {
    /// It is known that no item is ready.
    ghost at_rest: { Self → Type 0 };

    /// The first message that may be taken for the time and isn't: one that stands after no stop that the clock hasn't reached.
    fn untaken_reached(&self) -> Option<u32>
        ensures { result ≡ untaken_reached (Self.day self.now) (Self.past self.now) };

    /// The batch of the day that a message objects to or confirms, taken or not.
    fn batch_named(&self, n: MessageNumber) -> Option<u32>
        ensures { result ≡ aim_of (Self.day self.now) n };

    /// The first message before this one of its sender that isn't taken.
    fn untaken_earlier(&self, n: MessageNumber) -> Option<u32>
        ensures { result ≡ untaken_earlier (Self.day self.now) (Self.past self.now) n };

    /// The next stop of the clock, in seconds: a stated one, an end of an accepted batch, or midnight.
    fn next_stop(&self) -> u32
        ensures { result ≡ next_stop (Self.day self.now) (Self.past self.now) };

    /// The next item that is due, by number, from this number on.
    fn next_due(&self, from: u32) -> Option<u32>
        ensures next { IsNextDue (Self.day self.now) (Self.past self.now) from result }
        ensures within { IfSome result (λ i. i < item_count (Self.day self.now)) }
        ensures small { item_count (Self.day self.now) < 2 ^ 32 };

    /// Whether it is known that no item is ready. It need not be known where none is, and each desk says where it is known
    /// (`at_rest`).
    fn is_at_rest(&self) -> bool
        ensures rest { result ≡ true → RestAll (Self.day self.now) (Self.past self.now) }
        ensures known { (result ≡ true) ↔ at_rest self.now };

    /// The item of a number of the day.
    fn item(&self, number: u32) -> Item
        ensures { number < item_count (Self.day self.now)
            → result ≡ item_of (Self.day self.now) number };
}

fn are_renewed(ready: &ReadyItems) -> bool
    ensures { (result ≡ true) ↔ IsRenewed ready.now }
{
    match ready.next_touched(0) {
        Some(_) => false,
        None => true,
    }
}

fn is_at_start(ready: &ReadyItems) -> bool
    ensures { result ≡ nat_eq ready.now.at 0 }
{
    ready.at() == 0
}

fn has_none(ready: &ReadyItems) -> bool
    ensures { (result ≡ true) ↔ IsNext (is_member ready.now) ready.now.at None }
{
    match ready.next() {
        Some(_) => false,
        None => true,
    }
}

// Whether each account has its candidate, the scan is at the beginning, and no member is left.
fn are_at_rest(ready: &ReadyItems) -> bool
    ensures { (result ≡ true) ↔ IsAtRest ready.now }
{
    if !are_renewed(ready) {
        return false;
    }
    if !is_at_start(ready) {
        return false;
    }
    has_none(ready)
}

impl<T: Holdings> IndexedDesk for FloorDesk<'_, T> {
    ghost at_rest = { λ desk. IsAtRest desk.ready.now };

    fn untaken_reached(&self) -> Option<u32> {
        self.facts.untaken_reached(self.setting)
    }

    fn batch_named(&self, n: MessageNumber) -> Option<u32> {
        batch_named(self.setting, n)
    }

    fn untaken_earlier(&self, n: MessageNumber) -> Option<u32> {
        self.facts.untaken_earlier(self.setting, n)
    }

    fn next_stop(&self) -> u32 {
        self.stops.next(self.facts.clock())
    }

    fn next_due(&self, from: u32) -> Option<u32> {
        self.due.next(from)
    }

    fn is_at_rest(&self) -> bool {
        are_at_rest(self.ready)
    }

    fn item(&self, number: u32) -> Item {
        match self.due.item(number) {
            Some(item) => item,
            None => Item { msg: 0, entry: 0 },
        }
    }
}

/// The desk at which the next line of a journal is made.
pub fn at_work<'a, T: Holdings>(
    setting: &'a Setting,
    lines: &'a Indexed,
    till: &'a T,
) -> FloorDesk<'a, T>
    requires index { IsIndex setting.now.day lines.now.journal.history lines.now.index }
    requires kept { KeepsBalances (T.holdings till.now) setting.now.day lines.now.journal.history }
    ensures setting { result.setting.now ≡ setting.now }
    ensures journal { result.journal.now ≡ lines.now.journal }
    ensures till { result.till.now ≡ till.now }
{
    let journal = lines.journal();
    let facts = lines.facts();
    let pending = lines.pending();
    let due = lines.due();
    let ready = lines.ready();
    let stops = lines.stops();
    FloorDesk {
        setting,
        journal,
        facts,
        pending,
        due,
        ready,
        stops,
        till,
    }
}

/// A till with nothing on it, for what is asked of a journal alone. It has number 0, which no account has, because a
/// `balance` whose `requires` nothing meets is refused as empty.
#[derive(Drop)]
pub struct NothingHeld;

impl Holdings for NothingHeld {
    ghost holdings = { λ till a. when (a == 0) 0 };

    fn has(&self, a: AccountNumber) -> bool {
        a == 0
    }

    fn balance(&self, _a: u32) -> Cents {
        nothing()
    }
}

fn nothing() -> Cents
    ensures { result ≡ 0 }
{
    Cents::of(0).unwrap()
}
