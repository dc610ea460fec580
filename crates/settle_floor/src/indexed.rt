//! A journal with the index of what its lines tell.
ghost use Rattle.std.specs.Prelude.{◌≡◌, ◌<◌, ◌≤◌, ◌^◌, ◌∷◌, [], ◌+◌, ℕ, List, Some, None, false, length, slice_set, IfOk, IfSome};
ghost use Rattle.cash_amounts.specs.declared.limits.TheConstants.{MAX_ACCOUNTS, MAX_ENTRIES_OF_DAY, MAX_MESSAGES, MAX_SYSTEMS};
ghost use Rattle.period_calendar.specs.declared.time.TheConstants.{MIDNIGHT};
ghost use Rattle.batch_records.specs.DayRecord.{Day};
ghost use Rattle.commit_journal.specs.Kept.{pushed, with_room};
ghost use Rattle.day_facts.specs.Facts.{StandsFor};
ghost use Rattle.settle_floor.specs.Floors.{HasPlaces, IsIndex, IsReadyStill, with_ready};
ghost use Rattle.clock_stops.specs.Kept.{KeepsStops};
ghost use Rattle.ready_items.specs.Kept.{KeepsReady, is_member};
ghost use Rattle.machine.specs.Telling.Balances.{balance};
ghost use Rattle.number_set.specs.Members.{has};
ghost use Rattle.number_set.specs.Next.{IsNext};
ghost use Rattle.scan_laws.specs.Numbers.{item_count, item_of};
ghost use Rattle.pending_items.specs.Kept.{KeepsPending};
ghost use Rattle.due_items.specs.Kept.{KeepsDue};
ghost use Rattle.machine.specs.Telling.Facts.{round, untaken_reached};
ghost use Rattle.machine.specs.Orders.Hints.{hint};
ghost use Rattle.machine.specs.Telling.History.{clock, ended};
ghost use Rattle.machine.specs.Legal.{IsLegal};
ghost use Rattle.machine.specs.Stages.Phases.{phase};
ghost use Rattle.machine.specs.Records.Messages.{entries};
ghost use Rattle.batch_records.specs.declared.day.Message.{Message};
ghost use Rattle.commit_journal.specs.Line.{History};
ghost use Rattle.live_order.specs.Coming.{ComesNext, setup, StaysLegal};
ghost use Rattle.live_order.specs.Longer.{longer};
ghost use Rattle.day_facts.specs.Room as of_facts;
ghost use Rattle.pending_items.specs.Room as of_pending;
ghost use Rattle.due_items.specs.Room as of_due;
ghost use Rattle.ready_items.specs.Room as of_ready;

use cash_amounts::{AccountNumber, Memory, MessageNumber};
use clock_stops::ClockStops;
use commit_journal::{Head, Journal, Move, Want};
use day_facts::DayFacts;
use due_items::DueItems;
use pending_items::PendingItems;
use ready_items::ReadyItems;
use rule_book::{Item, Phase, Setting};
use std::alloc::Global;
use std::marker::Model;

// What the lines tell of the messages and of the clock.
#[derive(Drop)]
struct Told {
    facts: DayFacts,
    stops: ClockStops,
}

impl Told {
    // Of no messages and no lines, of any day of at most so many systems, with room for so many messages, with so many entries in all.
    fn empty(alloc: Global, systems: u32, messages: u32, entries: u32) -> Result<Told, Memory>
        requires { messages + entries < 2 ^ 32 }
        ensures empty { (day : Day) → length day.systems ≤ systems
            → IfOk result (λ told. StandsFor (setup day) [] told.facts
            × KeepsStops (setup day) [] told.stops) }
        ensures room { IfOk result (λ told. of_facts.HasRoom messages entries told.facts) }
    {
        let facts = DayFacts::empty(alloc, systems, messages, entries)?;
        let stops = ClockStops::empty(alloc)?;
        Ok(Told { facts, stops })
    }
}

// What the lines tell of the items: which wait, which are due, and which may have a line.
#[derive(Drop)]
struct Items {
    pending: PendingItems,
    due: DueItems,
    ready: ReadyItems,
}

impl Items {
    // Of no messages and no lines, of any day of at most so many accounts and systems, with room for so many messages, with so many entries
    // in all.
    fn empty(
        alloc: Global,
        accounts: u32,
        systems: u32,
        messages: u32,
        entries: u32,
    ) -> Result<Items, Memory>
        requires accounts { accounts ≤ MAX_ACCOUNTS }
        requires systems { systems ≤ MAX_SYSTEMS }
        requires messages { messages ≤ MAX_MESSAGES }
        requires entries { entries ≤ MAX_ENTRIES_OF_DAY }
        ensures empty { (day : Day) → length day.accounts ≤ accounts → length day.systems ≤ systems
            → IfOk result (λ items. KeepsPending (setup day) [] items.pending
            × KeepsDue (setup day) [] items.due × KeepsReady (setup day) [] items.ready) }
        ensures room { IfOk result (λ items. of_pending.HasRoom messages entries items.pending
            × of_due.HasRoom messages entries items.due
            × of_ready.HasRoom messages entries items.ready) }
    {
        let pending = PendingItems::empty(alloc, accounts, systems, messages, entries)?;
        let due = match DueItems::empty(alloc, messages, entries) {
            Ok(due) => due,
            Err(e) => {
                drop(pending);
                return Err(e);
            }
        };
        match ReadyItems::empty(alloc, accounts, messages, entries) {
            Ok(ready) => Ok(Items {
                pending,
                due,
                ready,
            }),
            Err(e) => {
                drop(pending);
                drop(due);
                Err(e)
            }
        }
    }

    // Message n of the setting's day comes, which the facts have already.
    fn arrive(&mut self, setting: &Setting, facts: &DayFacts, n: MessageNumber)
        requires pending { of_pending.HasRoom 1 (length (entries setting.now.day n)) self.old.pending }
        requires due { of_due.HasRoom 1 (length (entries setting.now.day n)) self.old.due }
        requires ready { of_ready.HasRoom 1 (length (entries setting.now.day n)) self.old.ready }
        ensures room { (messages more : ℕ)
            → of_pending.HasRoom (messages + 1) (more + length (entries setting.now.day n)) self.old.pending
            → of_due.HasRoom (messages + 1) (more + length (entries setting.now.day n)) self.old.due
            → of_ready.HasRoom (messages + 1) (more + length (entries setting.now.day n)) self.old.ready
            → of_pending.HasRoom messages more self.new.pending × of_due.HasRoom messages more self.new.due
            × of_ready.HasRoom messages more self.new.ready }
        ensures day { (day : Day) (m : Message) (ms : List Message) (ss : List ℕ) (J : History)
            → ComesNext setting.now.day n day m ms ss → StaysLegal day m J
            → StandsFor (longer day (m ∷ []) []) J facts.now
            → KeepsPending day J self.old.pending → KeepsDue day J self.old.due
            → KeepsReady day J self.old.ready
            → KeepsPending (longer day (m ∷ []) []) J self.new.pending
            × KeepsDue (longer day (m ∷ []) []) J self.new.due
            × KeepsReady (longer day (m ∷ []) []) J self.new.ready }
    {
        self.pending.arrive(setting, facts, n);
        self.due.arrive(setting, n);
        self.ready.arrive(setting, &self.due, n);
    }
}

/// A journal, and the index in which each of its lines is noted.
#[derive(Drop)]
pub struct Indexed {
    journal: Journal,
    told: Told,
    items: Items,
}

impl Model for Indexed {
    ghost use Rattle.settle_floor.specs.Floors.{OnFloor};

    ghost Value = { OnFloor };

    ghost view = { λ lines. record {
      journal = lines.journal;
      index = record {
        facts = lines.told.facts;
        pending = lines.items.pending;
        due = lines.items.due;
        ready = lines.items.ready;
        stops = lines.told.stops;
      };
    } };
}

impl Indexed {
    pub fn journal(&self) -> &Journal
        ensures { result.now ≡ self.now.journal }
    {
        &self.journal
    }

    pub fn into_journal(self) -> Journal
        ensures { result ≡ self.journal }
    {
        // The parts that aren't kept are let go one by one: each drop is then one call, whose proof is done once.
        let Indexed {
            journal,
            told,
            items,
        } = self;
        drop(told);
        drop(items);
        journal
    }

    pub fn facts(&self) -> &DayFacts
        ensures { result.now ≡ self.now.index.facts }
    {
        &self.told.facts
    }

    pub fn pending(&self) -> &PendingItems
        ensures { result.now ≡ self.now.index.pending }
    {
        &self.items.pending
    }

    pub fn due(&self) -> &DueItems
        ensures { result.now ≡ self.now.index.due }
    {
        &self.items.due
    }

    pub fn ready(&self) -> &ReadyItems
        ensures { result.now ≡ self.now.index.ready }
    {
        &self.items.ready
    }

    pub fn stops(&self) -> &ClockStops
        ensures { result.now ≡ self.now.index.stops }
    {
        &self.told.stops
    }

    /// The time to which the clock was last moved, in seconds.
    pub fn clock(&self) -> u32
        ensures { (day : Day) → StandsFor day self.now.journal.history self.now.index.facts
            → result ≡ clock self.now.journal.history }
    {
        self.told.facts.clock()
    }

    /// How many of the stated stops the clock has reached.
    pub fn round(&self) -> u32
        ensures { (day : Day) → StandsFor day self.now.journal.history self.now.index.facts
            → result ≡ round day self.now.journal.history }
    {
        self.told.facts.round()
    }

    /// How far a message has come.
    pub fn phase(&self, setting: &Setting, n: MessageNumber) -> Phase
        requires stands { StandsFor setting.now.day self.now.journal.history self.now.index.facts }
        ensures { result ≡ phase setting.now.day self.now.journal.history n }
    {
        self.told.facts.phase(setting, n)
    }

    /// The first message of the rounds reached that isn't taken.
    pub fn untaken_reached(&self, setting: &Setting) -> Option<u32>
        requires stands { StandsFor setting.now.day self.now.journal.history self.now.index.facts }
        ensures { result ≡ untaken_reached setting.now.day self.now.journal.history }
    {
        self.told.facts.untaken_reached(setting)
    }

    /// The place of the End line.
    pub fn ended(&self) -> Option<u32>
        ensures { (day : Day) → StandsFor day self.now.journal.history self.now.index.facts
            → result ≡ ended self.now.journal.history }
    {
        self.told.facts.ended()
    }

    /// The next item that is due, by number, from this number on.
    pub fn next_due(&self, from: u32) -> Option<u32>
        ensures next { IsNext (has self.now.index.due.set) from result }
        ensures within { IfSome result (λ i. i < length self.now.index.due.set) }
        ensures small { length self.now.index.due.set < 2 ^ 32 }
    {
        self.items.due.next(from)
    }

    /// The item of a number of the day.
    pub fn item(&self, number: u32) -> Item
        ensures { (day : Day) → KeepsDue day self.now.journal.history self.now.index.due
            → number < item_count day → result ≡ item_of day number }
    {
        match self.items.due.item(number) {
            Some(item) => item,
            None => Item { msg: 0, entry: 0 },
        }
    }

    /// The want of the first item at or after this one that is due.
    pub fn hint(&self, setting: &Setting, from: Item) -> Option<Want>
        requires stands { StandsFor setting.now.day self.now.journal.history self.now.index.facts }
        requires due { KeepsDue setting.now.day self.now.journal.history self.now.index.due }
        ensures { result ≡ hint setting.now.day self.now.journal.history from }
    {
        self.items.due.hint(setting, &self.told.facts, from)
    }

    /// Puts a line at the end, and notes it.
    pub fn push(&mut self, setting: &Setting, head: Head, moves: &[Move])
        requires index { IsIndex setting.now.day self.old.journal.history self.old.index }
        requires legal { IsLegal setting.now.day
            (record { head = head; moves = moves.now } ∷ self.old.journal.history) }
        requires room { 0 < self.old.journal.room_for_lines }
        requires room_for_moves { length moves.now ≤ self.old.journal.room_for_moves }
        ensures journal { self.new.journal ≡ pushed self.old.journal head moves.now }
        ensures index { IsIndex setting.now.day self.new.journal.history self.new.index }
        ensures places { (messages more : ℕ) → HasPlaces messages more self.old.index
            → HasPlaces messages more self.new.index }
    {
        self.journal.push(head, moves);
        self.told.facts.note(setting, head);
        self.items.pending.note(setting, &self.told.facts, head);
        self.items.due.note(setting, &self.told.facts, head);
        self.items
            .ready
            .note(setting, &self.told.facts, &mut self.items.due, moves);
        self.told.stops.note(setting, head);
    }

    // ---- what is ready

    /// The next account from this number on whose candidate is to be found anew.
    pub fn next_touched(&self, from: u32) -> Option<u32>
        ensures next { IsNext (has self.now.index.ready.touched) from result }
        ensures within { IfSome result (λ a. a < length self.now.index.ready.touched) }
        ensures small { length self.now.index.ready.touched < 2 ^ 32 }
    {
        self.items.ready.next_touched(from)
    }

    /// Finds the candidate of account a anew, which holds this much, in cents.
    pub fn renew_account(&mut self, setting: &Setting, a: AccountNumber, money: u64)
        requires index { IsIndex setting.now.day self.old.journal.history self.old.index }
        requires within { a < length self.old.index.ready.touched }
        requires money { 1 ≤ a → money ≡ balance setting.now.day self.old.journal.history a }
        ensures same { self.new ≡ with_ready self.old self.new.index.ready }
        ensures ready { IsReadyStill setting.now.day self.old.journal.history self.old.index.ready
            self.new.index.ready }
        ensures renewed { self.new.index.ready.touched
            ≡ slice_set self.old.index.ready.touched a false }
        ensures still { self.new.index.ready.at ≡ self.old.index.ready.at }
    {
        self.items
            .ready
            .renew_account(setting, &self.items.due, &self.items.pending, a, money);
    }

    /// The next item from the place of the scan on that may have a line, by number.
    pub fn next_member(&self) -> Option<u32>
        ensures { IsNext (is_member self.now.index.ready) self.now.index.ready.at result }
    {
        self.items.ready.next()
    }

    /// The scan comes to that item and goes after it.
    pub fn pass(&mut self, setting: &Setting, number: u32)
        requires index { IsIndex setting.now.day self.old.journal.history self.old.index }
        requires next { IsNext (is_member self.old.index.ready) self.old.index.ready.at
            (Some number) }
        ensures same { self.new ≡ with_ready self.old self.new.index.ready }
        ensures ready { IsReadyStill setting.now.day self.old.journal.history self.old.index.ready
            self.new.index.ready }
    {
        self.items.ready.pass(setting, &self.items.due, number);
    }

    /// The scan goes back to the beginning, once there is no such item.
    pub fn turn_back(&mut self, setting: &Setting)
        requires index { IsIndex setting.now.day self.old.journal.history self.old.index }
        requires none { IsNext (is_member self.old.index.ready) self.old.index.ready.at None }
        ensures same { self.new ≡ with_ready self.old self.new.index.ready }
        ensures ready { IsReadyStill setting.now.day self.old.journal.history self.old.index.ready
            self.new.index.ready }
    {
        self.items.ready.turn_back();
    }

    /// The scan goes to a number, by which all accounts are touched unless it was there.
    pub fn move_to(&mut self, setting: &Setting, number: u32)
        requires index { IsIndex setting.now.day self.old.journal.history self.old.index }
        ensures same { self.new ≡ with_ready self.old self.new.index.ready }
        ensures ready { IsReadyStill setting.now.day self.old.journal.history self.old.index.ready
            self.new.index.ready }
        ensures at { self.new.index.ready.at ≡ number }
    {
        self.items.ready.move_to(number);
    }

    // ---- a day that goes on

    // Of no messages and no lines, of any day of at most so many accounts and systems, with room for so many messages, with so many entries
    // in all, and for so many lines and moves.
    pub fn empty(
        alloc: Global,
        accounts: u32,
        systems: u32,
        messages: u32,
        entries: u32,
        most_lines: u32,
        most_moves: u32,
    ) -> Result<Indexed, Memory>
        requires accounts { accounts ≤ MAX_ACCOUNTS }
        requires systems { systems ≤ MAX_SYSTEMS }
        requires messages { messages ≤ MAX_MESSAGES }
        requires entries { entries ≤ MAX_ENTRIES_OF_DAY }
        ensures journal { IfOk result (λ lines. lines.journal ≡ with_room most_lines most_moves) }
        ensures index { (day : Day) → length day.accounts ≤ accounts → length day.systems ≤ systems
            → IfOk result (λ lines. IsIndex (setup day) [] lines.index) }
        ensures places { IfOk result (λ lines. HasPlaces messages entries lines.index) }
    {
        let journal = Journal::with_room(alloc, most_lines, most_moves)?;
        let told = Told::empty(alloc, systems, messages, entries)?;
        match Items::empty(alloc, accounts, systems, messages, entries) {
            Ok(items) => Ok(Indexed {
                journal,
                told,
                items,
            }),
            Err(memory) => Err(memory),
        }
    }

    /// Message n of the setting's day comes, which is the next. Takes no memory.
    pub fn arrive(&mut self, setting: &Setting, n: MessageNumber)
        requires { HasPlaces 1 (length (entries setting.now.day n)) self.old.index }
        ensures journal { self.new.journal ≡ self.old.journal }
        ensures places { (messages more : ℕ)
            → HasPlaces (messages + 1) (more + length (entries setting.now.day n)) self.old.index
            → HasPlaces messages more self.new.index }
        ensures index { (day : Day) (m : Message) (ms : List Message) (ss : List ℕ) (J : History)
            → ComesNext setting.now.day n day m ms ss → IsLegal (longer day (m ∷ []) []) J
            → IsIndex day J self.old.index → IsIndex (longer day (m ∷ []) []) J self.new.index }
    {
        self.told.facts.arrive(setting, n);
        self.items.arrive(setting, &self.told.facts, n);
    }

    /// A stop of the day comes, at this time in seconds. Takes no memory.
    pub fn stop(&mut self, time: u32)
        ensures journal { self.new.journal ≡ self.old.journal }
        ensures places { (messages more : ℕ) → HasPlaces messages more self.old.index
            → HasPlaces messages more self.new.index }
        ensures index { (day : Day) (J : History) → time < MIDNIGHT + 1 → clock J < time
            → IsLegal (longer day [] (time ∷ [])) J → IsIndex day J self.old.index
            → IsIndex (longer day [] (time ∷ [])) J self.new.index }
    {
        self.told.stops.stop(time);
    }
}
