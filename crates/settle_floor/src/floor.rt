//! The floor: the journal of a day at work.
ghost use Rattle.std.specs.Prelude.{◌≡◌, ◌<◌, ◌≤◌, ◌+◌, ◌*◌, ◌∷◌, ℕ, List, length, min, true, None, Some, [], map, is_some, nat_lt, if◌then◌else◌, IfOk, IfSome, IsSome, OnErr};
ghost use Rattle.cash_amounts.specs.Numbers.{numbered};
ghost use Rattle.period_calendar.specs.declared.time.TheConstants.{MIDNIGHT};
ghost use Rattle.commit_journal.specs.declared.line.Want.{Want};
ghost use Rattle.commit_journal.specs.Kept.{with_room};
ghost use Rattle.machine.specs.Orders.Bounds.{entries_of_all, most_lines, most_moves};
ghost use Rattle.rule_book.specs.Answering.{has_accounts};
ghost use Rattle.machine.specs.Orders.Hints.{hint};
ghost use Rattle.machine.specs.Telling.History.{clock, is_ended};
ghost use Rattle.machine.specs.OtherLaws.{is_work};
ghost use Rattle.machine.specs.Making.Lines.{line_of, next_stop};
ghost use Rattle.machine.specs.Making.FirstReady.{first_ready};
ghost use Rattle.settle_floor.specs.Floors.{AtWork, IsFor, IsEntered, IsAnswered, HasPlaces, HasSame, entries_left, messages_left};
ghost use Rattle.settle_floor.specs.Room.{HasCome, IsOpen, up_to_stop};
ghost use Rattle.settle_floor.specs.Taking.{IsNext};
ghost use Rattle.cash_amounts.specs.declared.limits.TheConstants.{MAX_ACCOUNTS, MAX_ENTRIES_OF_DAY, MAX_MESSAGES, MAX_SYSTEMS};
ghost use Rattle.batch_records.specs.DayRecord.{Day};
ghost use Rattle.batch_records.specs.declared.day.Message.{Message};
ghost use Rattle.machine.specs.Records.Messages.{entries};
ghost use Rattle.machine.specs.Legal.{IsLegal};
ghost use Rattle.live_order.specs.Coming.{ComesNext, setup};
ghost use Rattle.live_order.specs.Longer.{longer};
ghost use Rattle.settle_floor.specs.Tills.{KeepsBalances};

use crate::carry::carry_out;
use crate::desk::{IndexedDesk, NothingHeld, at_work};
use crate::indexed::Indexed;
use crate::judging::judge;
use crate::ready::first_ready;
use crate::sizes::{entries_in_all, messages_in_all};
use account_book::{Holdings, Till};
use cash_amounts::{Memory, MessageNumber};
use commit_journal::{Journal, MAX_MOVES, MoveList, Want};
use period_calendar::MIDNIGHT;
use rule_book::parts::{account_count, message_count};
use rule_book::{Desk, Item, Setting, Why};
use std::alloc::Global;
use std::marker::Model;

/// The room for the moves of the line that is being made: those of a whole batch, and one more.
const LINE_ROOM: u32 = MAX_MOVES + 1;

/// The journal of a day, with room for whatever the day can bring, and the index of what its lines tell. Contracts see both. Each call with a setting needs
/// one of the day for which the floor was opened (`IsFor`).
#[derive(Drop)]
pub struct Floor {
    pub(crate) lines: Indexed,
    moves: MoveList,
}

impl Model for Floor {
    ghost use Rattle.std.specs.Prelude.{◌≡◌, []};
    ghost use Rattle.settle_floor.specs.Floors.{OnFloor};
    ghost use Rattle.settle_floor.specs.declared.floor.TheConstants.{LINE_ROOM};

    ghost Value = { OnFloor };

    ghost view = { λ floor. floor.lines };

    ghost invariant = { λ floor. floor.moves ≡ record { moves = []; room = LINE_ROOM } };
}

impl Floor {
    /// An empty journal for the day of the setting, with room for as many lines and moves as the day can bring at most, with all
    /// messages that it has room for. All memory that the day can need is taken here, and `Memory` says that there wasn't that much.
    /// With a till of the book's openings the floor is at work.
    pub fn open(alloc: Global, setting: &Setting) -> Result<Floor, Memory>
        ensures empty { IfOk result (λ floor. floor.journal.history ≡ []) }
        ensures room { IfOk result (λ floor. floor.journal ≡ with_room
            (most_lines setting.now.day
            + (4 * messages_left setting.now.day + entries_left setting.now.day))
            (most_moves setting.now.day
            + (messages_left setting.now.day + 2 * entries_left setting.now.day))) }
        ensures opened { IfOk result (λ floor. IsFor setting.now.day floor) }
        ensures at_work { IfOk result (λ floor. AtWork setting.now.day floor
            (numbered (map (λ r. r.opening) setting.now.book.accounts))) }
    {
        let messages = messages_in_all(setting);
        let entries = entries_in_all(setting);
        let accounts = account_count(setting);
        let systems = setting.book.system_count();
        let mut floor = Floor::empty(alloc, accounts, systems, messages, entries)?;
        floor.arrive_all(setting);
        floor.stop_all(setting);
        Ok(floor)
    }

    /// The lines so far.
    pub fn journal(&self) -> &Journal
        ensures { result.now ≡ self.now.journal }
    {
        self.lines.journal()
    }

    /// The journal, once no more lines are to be made.
    pub fn into_journal(self) -> Journal
        ensures { result ≡ self.journal }
    {
        self.lines.into_journal()
    }

    /// For how many more lines there is room. A floor has always enough for the rest of the day.
    pub fn spare(&self) -> u32
        ensures { result ≡ self.now.journal.room_for_lines }
    {
        self.journal().spare()
    }

    /// The next stop of the clock, in seconds: a stated one, an end of an accepted batch, or midnight; none at midnight.
    pub fn next_time(&self, setting: &Setting) -> Option<u32>
        requires opened { IsFor setting.now.day self.now }
        ensures { result ≡ (if nat_lt (clock self.now.journal.history) MIDNIGHT then Some
            (next_stop setting.now.day self.now.journal.history) else None) }
    {
        let till = NothingHeld;
        let desk = at_work(setting, &self.lines, &till);
        if desk.clock() < MIDNIGHT {
            Some(desk.next_stop())
        } else {
            None
        }
    }

    /// The first want that is ready: it has a line, and is none of In, Time and End. None where no such want has a line, as
    /// after the end of the day.
    pub fn candidate<T: Holdings>(&self, setting: &Setting, till: &T) -> Option<Want>
        requires at_work { AtWork setting.now.day self.now (T.holdings till.now) }
        ensures first { result ≡ (if is_ended self.now.journal.history then None
            else first_ready setting.now.day self.now.journal.history) }
        ensures work { IfSome result
            (λ want. (is_work want ≡ true)
            × IsSome (line_of setting.now.day self.now.journal.history want)) }
        ensures none { result ≡ None → (want : Want) → is_work want ≡ true
            → line_of setting.now.day self.now.journal.history want ≡ None }
    {
        let desk = at_work(setting, &self.lines, till);
        if desk.ended().is_some() {
            return None;
        }
        first_ready(&desk)
    }

    /// The want of the first item at or after this one, by message and then by entry, that is pending or whose message's phase
    /// asks for a line: whether or not something keeps it back, and whether or not its account holds enough. None where there is
    /// no such item. The item needn't be one of the day.
    pub fn hint(&self, setting: &Setting, from: Item) -> Option<Want>
        requires opened { IsFor setting.now.day self.now }
        ensures { result ≡ hint setting.now.day self.now.journal.history from }
    {
        self.lines.hint(setting, from)
    }

    /// The line of the want is put at the end of the journal, where it has one, and its place, from 1, is the answer. Else the
    /// answer is why there is none, and nothing changes. The till has the accounts of the want with the balances of the
    /// journal; they are read as they are before the line, and not moved.
    pub fn enter<T: Holdings>(
        &mut self,
        setting: &Setting,
        till: &T,
        want: Want,
    ) -> Result<u32, Why>
        requires opened { IsFor setting.now.day self.old }
        requires kept { KeepsBalances (T.holdings till.now) setting.now.day
            self.old.journal.history }
        requires held { has_accounts (λ a. is_some (T.holdings till.now a)) setting.now.day want
            ≡ true }
        ensures entered { IsEntered setting.now.day self.old self.new want result }
        ensures opened { IsFor setting.now.day self.new }
    {
        self.enter_known(setting, till, want, false)
    }

    /// The same as `enter`. With `is_next`, of a want to take a message, each earlier message of its sender is known to be taken,
    /// and isn't looked for.
    pub fn enter_known<T: Holdings>(
        &mut self,
        setting: &Setting,
        till: &T,
        want: Want,
        is_next: bool,
    ) -> Result<u32, Why>
        requires opened { IsFor setting.now.day self.old }
        requires kept { KeepsBalances (T.holdings till.now) setting.now.day
            self.old.journal.history }
        requires held { has_accounts (λ a. is_some (T.holdings till.now a)) setting.now.day want
            ≡ true }
        requires next { is_next ≡ true → IsNext setting.now.day self.old.journal.history want }
        ensures entered { IsEntered setting.now.day self.old self.new want result }
        ensures opened { IsFor setting.now.day self.new }
    {
        let desk = at_work(setting, &self.lines, till);
        match judge(&desk, want, is_next, &mut self.moves) {
            Ok(head) => {
                self.lines.push(setting, head, self.moves.as_slice());
                self.moves.clear();
                Ok(self.lines.journal().len())
            }
            Err(why) => Err(why),
        }
    }

    /// Makes the line of the want, where it has one: the line is put at the end of the journal, its moves are made on the till,
    /// and its place, from 1, is the answer. Else the answer is the first reason why there is none, and neither journal nor till
    /// changes. The till has at least the accounts of the want, each with its balance over the journal, and has them so after.
    pub fn answer<T: Till>(
        &mut self,
        setting: &Setting,
        till: &mut T,
        want: Want,
    ) -> Result<u32, Why>
        requires opened { IsFor setting.now.day self.old }
        requires kept { KeepsBalances (T.holdings till.old) setting.now.day
            self.old.journal.history }
        requires held { has_accounts (λ a. is_some (T.holdings till.old a)) setting.now.day want
            ≡ true }
        ensures answered { IsAnswered setting.now.day self.old self.new want (T.holdings till.old)
            (T.holdings till.new) result }
        ensures opened { IsFor setting.now.day self.new }
        ensures kept { KeepsBalances (T.holdings till.new) setting.now.day
            self.new.journal.history }
        ensures same { HasSame (T.holdings till.old) (T.holdings till.new) }
        ensures refused { OnErr result (till.new ≡ till.old) }
    {
        match self.enter(setting, till, want) {
            Ok(place) => {
                let (_, moves) = self.journal().line(place);
                carry_out(till, moves);
                Ok(place)
            }
            Err(why) => Err(why),
        }
    }

    // ---- a day that goes on

    /// The floor of any day of at most so many accounts and systems, of which nothing but its setup has come, with room for so many
    /// messages, with so many entries in all, and for whatever lines and moves they can bring at most. All memory that the day can need
    /// is taken here, and `Memory` says that there wasn't that much.
    pub fn empty(
        alloc: Global,
        accounts: u32,
        systems: u32,
        messages: u32,
        entries: u32,
    ) -> Result<Floor, Memory>
        requires accounts { accounts ≤ MAX_ACCOUNTS }
        requires systems { systems ≤ MAX_SYSTEMS }
        requires messages { messages ≤ MAX_MESSAGES }
        requires entries { entries ≤ MAX_ENTRIES_OF_DAY }
        ensures journal { IfOk result (λ floor. floor.journal ≡ with_room
            (4 * messages + entries + accounts + (MIDNIGHT + 1))
            (messages + 2 * entries + accounts)) }
        ensures opened { (day : Day) → length day.accounts ≤ accounts → length day.systems ≤ systems
            → IfOk result (λ floor. IsOpen (setup day) messages entries floor) }
    {
        let moves = MoveList::with_room(alloc, LINE_ROOM)?;
        let lines = Indexed::empty(
            alloc,
            accounts,
            systems,
            messages,
            entries,
            4 * messages + entries + accounts + (MIDNIGHT + 1),
            messages + 2 * entries + accounts,
        )?;
        Ok(Floor { lines, moves })
    }

    /// Message n of the setting's day comes, which is the next, where the day had room for it and for its entries within the limits. It
    /// isn't taken yet: no line is made. Takes no memory.
    pub fn arrive(&mut self, setting: &Setting, n: MessageNumber)
        requires { HasPlaces 1 (length (entries setting.now.day n)) self.old.index }
        ensures journal { self.new.journal ≡ self.old.journal }
        ensures places { (day : Day) (m : Message) (ms : List Message) (ss : List ℕ) (messages more : ℕ)
            → ComesNext setting.now.day n day m ms ss
            → IsLegal (longer day (m ∷ []) []) self.old.journal.history
            → IsOpen day (messages + 1) (more + length (entries setting.now.day n)) self.old
            → IsOpen (longer day (m ∷ []) []) messages more self.new }
        ensures opened { (day : Day) (m : Message) (ms : List Message) (ss : List ℕ)
            → ComesNext setting.now.day n day m ms ss
            → IsLegal (longer day (m ∷ []) []) self.old.journal.history
            → length day.messages < min day.room.messages MAX_MESSAGES
            → entries_of_all day + length (entries setting.now.day n)
            ≤ min day.room.entries MAX_ENTRIES_OF_DAY → IsFor day self.old
            → IsFor (longer day (m ∷ []) []) self.new }
    {
        self.lines.arrive(setting, n);
    }

    /// A stop of the day comes, at this time in seconds. The clock doesn't move to it yet. Takes no memory.
    pub fn stop(&mut self, time: u32)
        ensures journal { self.new.journal ≡ self.old.journal }
        ensures opened { (day : Day) → time < MIDNIGHT + 1 → clock self.old.journal.history < time
            → IsLegal (longer day [] (time ∷ [])) self.old.journal.history → IsFor day self.old
            → IsFor (longer day [] (time ∷ [])) self.new }
    {
        self.lines.stop(time);
    }

    // The messages of a whole day come, one after another.
    fn arrive_all(&mut self, setting: &Setting)
        requires { HasCome setting.now.day 0 self.old }
        ensures journal { self.new.journal ≡ self.old.journal }
        ensures opened { IsFor (up_to_stop setting.now.day 0) self.new }
    {
        for before in 0..message_count(setting) {
            self.arrive(setting, before + 1);
        }
    }

    // The stops of a whole day come, one after another, after its messages.
    fn stop_all(&mut self, setting: &Setting)
        requires empty { self.old.journal.history ≡ [] }
        requires opened { IsFor (up_to_stop setting.now.day 0) self.old }
        ensures journal { self.new.journal ≡ self.old.journal }
        ensures opened { IsFor setting.now.day self.new }
    {
        for at in 0..setting.day.stops().len() {
            self.stop(setting.day.stops()[at]);
        }
    }
}
