//! The index of what a journal tells.
ghost use Rattle.std.specs.Prelude.{ℕ, ◌≡◌, ◌+◌, ◌^◌, ◌<◌, ◌≤◌, ◌&&◌, ◌||◌, not, [], ◌∷◌, List, true, IfOk, IfSome, if◌then◌else◌, count_by, is_none, is_some, length, nat_le, nat_lt, sum_by, unwrap_or};
ghost use Rattle.batch_records.specs.DayRecord.{Day};
ghost use Rattle.batch_records.specs.declared.day.Message.{Message};
ghost use Rattle.commit_journal.specs.Line.{Line, History};
ghost use Rattle.machine.specs.Telling.History.{asked, booked, clock, closed, covered, ended, is_end, is_time, is_ok, settled_whole, taken, taken_code};
ghost use Rattle.machine.specs.Telling.Facts.{answer, answered, cycle_ended, open_cycle, revoked, round, untaken_earlier, untaken_reached};
ghost use Rattle.machine.specs.Words.{same_name, some_passes};
ghost use Rattle.machine.specs.Records.Setup.{system_named};
ghost use Rattle.live_order.specs.Coming.{ComesNext, StaysLegal, setup};
ghost use Rattle.live_order.specs.Longer.{longer};
ghost use Rattle.machine.specs.Records.Messages.{earliest, entries, entry_at, info_end, is_a, is_credit, item_numbers, round_of, sender, settlement_start, sort_of};
ghost use Rattle.machine.specs.Stages.Phases.{is_covered, is_open, phase};
ghost use Rattle.machine.specs.Stages.Pending.{active_place, first_unbooked_debit, is_pending};
ghost use Rattle.machine.specs.Legal.{IsLegal};
ghost use Rattle.batch_records.specs.Sound.{entries_in};
ghost use Rattle.day_facts.specs.Arrivals.{Arrived, first_rows_at, with_row};
ghost use Rattle.day_facts.specs.Cycles.{end_in};
ghost use Rattle.day_facts.specs.Left.{last_in, owes};
ghost use Rattle.day_facts.specs.Objectors.{fresh, repeats_accepted, repeats_objection};
ghost use Rattle.day_facts.specs.Own.{code_in, place_in};
ghost use Rattle.day_facts.specs.Phasing.{active_by, going_by, has_asked, has_booked, has_covered, has_ended, has_revoked, next_by, open_by, opened_by, pending_by, phase_at, phase_by, revoked_by, settled_by, stage_by, stage_in, standing_by, taken_by};
ghost use Rattle.day_facts.specs.Rows.{none_in};
ghost use Rattle.day_facts.specs.Told.{answered_in};
ghost use Rattle.day_facts.specs.Untaken.{LastIsTaken, awaited_from, is_awaited_of, next_after, reached_by, untaken_from};
ghost use Rattle.day_facts.specs.Room.{HasRoom};
ghost use Rattle.day_facts.specs.Facts.{StandsFor, round_at, with_stage, with_stage_of, with_tables};

use crate::aims::line_aim;
use crate::booked::{item_count, note_booked};
use crate::cycles::CycleTable;
use crate::flag_tables::DayFlags;
use crate::left::LastDebits;
use crate::objectors::{Objectors, repeats_objection};
use crate::openings::Openings;
use crate::own::OwnTable;
use crate::places::{PlaceRows, or_here};
use crate::revoked::{note_revoked, parts, revoked_at};
use crate::stages::{Stage, StageTable};
use crate::told::ToldTable;
use cash_amounts::{EntryNumber, Memory, MessageNumber, Name, Procedure};
use commit_journal::{Code, Head, Kind};
use period_calendar::MIDNIGHT;
use rule_book::batches::{is_credit, is_debit};
use rule_book::parts::{
    earliest, entry, entry_count, info_end, message, message_count, sender, sent_before,
    settlement_end, settlement_start,
};
use rule_book::phases::{is_covered, is_open};
use rule_book::sorts::{is_no_order, is_pay, procedure_of_batch};
use rule_book::{Item, Phase, Setting};
use std::alloc::Global;
use std::marker::Model;

/// What the lines of a journal tell of a day, kept line by line, so that each question is answered at once.
#[derive(Drop)]
pub struct DayFacts {
    own: OwnTable,
    told: ToldTable,
    booked: PlaceRows,
    revoked: PlaceRows,
    flags: DayFlags,
    objectors: Objectors,
    last: LastDebits,
    stages: StageTable,
    cycles: CycleTable,
    openings: Openings,
    next: u32,
    clock: u32,
    round: u32,
    ended: Option<u32>,
    lines: u32,
}

impl Model for DayFacts {
    ghost use Rattle.day_facts.specs.Facts.{AreAlike, Facts};

    ghost Value = { Facts };

    ghost view = { λ facts. record {
      own = facts.own.items;
      told = facts.told.items;
      booked = facts.booked.rows;
      revoked = facts.revoked.rows;
      debits = facts.flags.debits;
      waiting = facts.flags.waiting;
      kept = facts.flags.kept;
      last = facts.last.items;
      stages = facts.stages.items;
      cycles = facts.cycles;
      openings = facts.openings;
      next = facts.next;
      clock = facts.clock;
      round = facts.round;
      ended = facts.ended;
      lines = facts.lines;
      room = record { messages = facts.own.room; items = facts.booked.room_for_items };
    } };

    ghost invariant = { λ facts. AreAlike facts.own.room facts.told.room facts.last.room
        facts.stages.room facts.booked.room_for_rows facts.revoked.room_for_rows facts.flags.room_for_rows
        facts.booked.room_for_items facts.revoked.room_for_items facts.flags.room_for_items };
}

fn clock_after(before: u32, head: Head) -> u32
    ensures { result ≡ (if is_time head.kind then head.entry else before) }
{
    if matches!(head.kind, Kind::Time) {
        head.entry
    } else {
        before
    }
}

// The stops rise, so that their number is found by halving.
fn stops_reached(setting: &Setting, now: u32) -> usize
    ensures value { result ≡ round_at setting.now.day now }
    ensures few { result ≤ length setting.now.day.stops }
{
    setting.day.stops().partition_point(|stop| *stop <= now)
}

fn round_at(setting: &Setting, time: u32) -> u32
    ensures { result ≡ round_at setting.now.day time }
{
    stops_reached(setting, time) as u32
}

fn round_after(setting: &Setting, before: u32, head: Head) -> u32
    ensures { result ≡ (if is_time head.kind then round_at setting.now.day head.entry else before) }
{
    if matches!(head.kind, Kind::Time) {
        round_at(setting, head.entry)
    } else {
        before
    }
}

fn is_end(kind: Kind) -> bool
    ensures { result ≡ is_end kind }
{
    matches!(kind, Kind::End)
}

fn untaken_from(own: &OwnTable, setting: &Setting, start: u32) -> Option<u32>
    ensures { result ≡ untaken_from setting.now.day own.now.items start }
{
    (start..message_count(setting) + 1).find(|n| is_untaken(own, *n))
}

fn is_untaken(own: &OwnTable, n: u32) -> bool
    ensures { result ≡ is_none (place_in (λ own. own.taken) own.now.items n) }
{
    own.taken(n).is_none()
}

// The first message from this one on that isn't taken, or the number behind all messages.
fn next_after(own: &OwnTable, setting: &Setting, start: u32) -> u32
    ensures { result ≡ next_after setting.now.day own.now.items start }
{
    match untaken_from(own, setting, start) {
        Some(n) => n,
        None => message_count(setting) + 1,
    }
}

fn has_sender(setting: &Setting, m: u32, name: &[u8]) -> bool
    ensures { result ≡ same_name (sender setting.now.day m) name.now }
{
    sender(&setting.day, m) == name
}

// Whether message m is to be taken before message n, whose sender has this name, and isn't.
fn is_awaited(own: &OwnTable, setting: &Setting, n: u32, name: &[u8], m: u32) -> bool
    ensures { result ≡ is_awaited_of setting.now.day own.now.items n name.now m }
{
    m < n && has_sender(setting, m, name) && is_untaken(own, m)
}

// The first of them from this number on.
fn awaited(own: &OwnTable, setting: &Setting, n: u32, start: u32) -> Option<u32>
    ensures { result ≡ awaited_from setting.now.day own.now.items n start }
{
    let name = sender(&setting.day, n);
    let end = n.min(message_count(setting) + 1);
    (start..end).find(|m| is_awaited(own, setting, n, name, *m))
}

// Whether the last message of its sender before message n is taken, or there is none. Of a message of the day.
fn last_is_taken(own: &OwnTable, setting: &Setting, n: u32) -> bool
    requires one { 1 ≤ n }
    requires within { n ≤ length setting.now.day.messages }
    ensures { result ≡ true → LastIsTaken setting.now.day own.now.items n }
{
    match sent_before(setting, n) {
        Some(m) => !is_untaken(own, m),
        None => true,
    }
}

// Whether n is a message of the day, and the last of its sender before it is taken, or there is none.
fn follows_its_sender(own: &OwnTable, setting: &Setting, n: u32) -> bool
    ensures { result ≡ true → LastIsTaken setting.now.day own.now.items n }
{
    if n == 0 || message_count(setting) < n {
        return false;
    }
    last_is_taken(own, setting, n)
}

fn round_of(setting: &Setting, n: u32) -> u32
    ensures { result ≡ round_of setting.now.day n }
{
    match message(&setting.day, n) {
        Some(message) => message.round,
        None => 0,
    }
}

fn is_credit_of_a(setting: &Setting, n: u32, k: u32) -> bool
    ensures { result ≡ (is_a (sort_of setting.now.day n) && is_credit setting.now.day n k) }
{
    match procedure_of_batch(setting, n) {
        Some(Procedure::A) => is_credit(setting, n, k),
        _ => false,
    }
}

fn has_entry(setting: &Setting, n: u32, k: u32) -> bool
    ensures { result ≡ is_some (entry_at setting.now.day n k) }
{
    entry(&setting.day, n, k).is_some()
}

// The batch of which a line may revoke something: none, where it repeats an earlier objection.
fn fresh(aim: Option<u32>, earlier: Option<u32>) -> Option<u32>
    ensures { result ≡ fresh aim earlier }
{
    match earlier {
        Some(_) => None,
        None => aim,
    }
}

impl DayFacts {
    // No messages of any day, with room for so many, and for so many items of all of them, and the cycles of so many systems; so many
    // stops are reached.
    fn none(
        alloc: Global,
        systems: u32,
        round: u32,
        most: u32,
        items: u32,
    ) -> Result<DayFacts, Memory>
        ensures rows { (day : Day) → IfOk result (λ facts. facts ≡ first_rows_at day 0 round systems
            (record { messages = most; items = items })) }
        ensures room { IfOk result (λ facts. facts.room
            ≡ record { messages = most; items = items }) }
    {
        let own = OwnTable::with_room(alloc, most)?;
        let told = ToldTable::with_room(alloc, most)?;
        let booked = PlaceRows::with_room(alloc, most as usize, items as usize)?;
        let revoked = PlaceRows::with_room(alloc, most as usize, items as usize)?;
        let flags = DayFlags::with_room(alloc, most as usize, items)?;
        let objectors = Objectors::with_room(alloc, items)?;
        let last = LastDebits::with_room(alloc, most)?;
        let stages = StageTable::with_room(alloc, most)?;
        let cycles = CycleTable::new(alloc, systems)?;
        let openings = Openings::new(alloc)?;
        Ok(DayFacts {
            own,
            told,
            booked,
            revoked,
            flags,
            objectors,
            last,
            stages,
            cycles,
            openings,
            next: 1,
            clock: 0,
            round,
            ended: None,
            lines: 0,
        })
    }

    // Takes message n, which comes next, over no lines. Takes no memory.
    fn take(&mut self, setting: &Setting, n: u32)
        requires messages { 0 < self.old.room.messages }
        requires items { length (entries setting.now.day n) + 1 ≤ self.old.room.items }
        ensures { self.new ≡ with_row setting.now.day n self.old }
    {
        self.own.arrive();
        self.told.arrive(setting);
        self.booked.arrive(entry_count(setting, n) + 1);
        self.revoked.arrive(parts(setting, n));
        self.flags.arrive(setting, n);
        self.objectors.arrive(setting);
        self.last.arrive();
        self.stages.arrive();
    }

    // What no lines tell of the day.
    fn whole(alloc: Global, setting: &Setting, items: u32) -> Result<DayFacts, Memory>
        requires { sum_by (λ m. length (entries_in m.body)) setting.now.day.messages
            + length setting.now.day.messages ≤ items }
        ensures { IfOk result (λ facts. Arrived setting.now.day
            (length setting.now.day.messages) (length setting.now.day.messages) items facts) }
    {
        let systems = setting.book.system_count();
        let count = message_count(setting);
        let mut facts = DayFacts::none(alloc, systems, round_at(setting, 0), count, items)?;
        for before in 0..count {
            facts.take(setting, before + 1);
        }
        Ok(facts)
    }

    /// What no lines tell. All memory that is needed is taken here, and `Memory` says that there wasn't that much.
    pub fn with_room(alloc: Global, setting: &Setting) -> Result<DayFacts, Memory>
        ensures { IfOk result (λ facts. StandsFor setting.now.day [] facts) }
    {
        let facts = DayFacts::whole(alloc, setting, item_count(setting) as u32)?;
        Ok(facts)
    }

    // ---- a day that goes on

    /// What no lines tell of any day of at most so many systems, of which nothing but its setup has come, with room for so many
    /// messages, with so many entries in all. All memory that is needed is taken here, and `Memory` says that there wasn't that much.
    pub fn empty(
        alloc: Global,
        systems: u32,
        messages: u32,
        entries: u32,
    ) -> Result<DayFacts, Memory>
        requires { messages + entries < 2 ^ 32 }
        ensures empty { (day : Day) → length day.systems ≤ systems
            → IfOk result (λ facts. StandsFor (setup day) [] facts) }
        ensures room { IfOk result (λ facts. HasRoom messages entries facts) }
    {
        let facts = DayFacts::none(alloc, systems, 0, messages, messages + entries)?;
        Ok(facts)
    }

    /// Message n of the setting's day comes, which is the next, with room for it: others may stand behind it already. Where the facts
    /// stood for some lines and the day before it, they stand for these lines and the day with it. Takes no memory, and its time hangs
    /// on the message alone.
    pub fn arrive(&mut self, setting: &Setting, n: MessageNumber)
        requires { HasRoom 1 (length (entries setting.now.day n)) self.old }
        ensures room { (messages more : ℕ)
            → HasRoom (messages + 1) (more + length (entries setting.now.day n)) self.old
            → HasRoom messages more self.new }
        ensures day { (day : Day) (m : Message) (ms : List Message) (ss : List ℕ) (J : History)
            → ComesNext setting.now.day n day m ms ss → StaysLegal day m J
            → StandsFor day J self.old → StandsFor (longer day (m ∷ []) []) J self.new }
    {
        self.take(setting, n);
    }

    // Notes the line in all but the stages.
    fn mark(&mut self, setting: &Setting, aim: Option<u32>, earlier: Option<u32>, head: Head)
        ensures { self.new ≡ with_tables setting.now.day head aim earlier self.old }
    {
        let place = self.lines.saturating_add(1);
        let fresh = fresh(aim, earlier);
        self.own.note(place, head);
        self.told.note(setting, aim, place, head.msg);
        note_booked(&mut self.booked, place, head);
        note_revoked(&mut self.revoked, setting, fresh, place, head.msg);
        self.last.note(self.flags.debits(), place, head);
        self.flags.note(setting, fresh, head);
        self.objectors.note(setting, fresh, head.msg);
        self.cycles.note(setting, place, head);
        self.openings.note(place, head);
        self.next = next_after(&self.own, setting, self.next);
        self.clock = clock_after(self.clock, head);
        self.round = round_after(setting, self.round, head);
        self.ended = or_here(self.ended, is_end(head.kind), place);
        self.lines = place;
    }

    fn renew(&mut self, setting: &Setting, n: u32)
        ensures { self.new ≡ with_stage setting.now.day n self.old }
    {
        let stage = self.stage_now(setting, n);
        self.stages.put(n, stage);
    }

    fn renew_named(&mut self, setting: &Setting, aim: Option<u32>)
        ensures { self.new ≡ with_stage_of setting.now.day aim self.old }
    {
        match aim {
            Some(n) => self.renew(setting, n),
            None => {}
        }
    }

    // The accepted objection that message n repeats, where it names the batch.
    fn earlier(&self, setting: &Setting, aim: Option<u32>, n: u32) -> Option<u32>
        ensures { IfSome result (λ m. repeats_objection setting.now.day self.now.own m n ≡ true) }
    {
        let Some(b) = aim else {
            return None;
        };
        let m = self.objectors.at(setting, b, n);
        if repeats_objection(&self.own, setting, m, n) {
            Some(m)
        } else {
            None
        }
    }

    /// Notes the next line, of which the head is enough. Where the facts stood for the lines before it, they stand for these and it. The
    /// room for what is still to come stays.
    pub fn note(&mut self, setting: &Setting, head: Head)
        ensures lines { (J : History) (l : Line) → l.head ≡ head → IsLegal setting.now.day (l ∷ J)
            → StandsFor setting.now.day J self.old → StandsFor setting.now.day (l ∷ J) self.new }
        ensures room { (messages more : ℕ) → HasRoom messages more self.old
            → HasRoom messages more self.new }
    {
        let aim = line_aim(setting, head);
        let earlier = self.earlier(setting, aim, head.msg);
        self.mark(setting, aim, earlier, head);
        self.renew(setting, head.msg);
        self.renew_named(setting, aim);
    }

    /// The place of the In line of a message.
    pub fn taken(&self, n: MessageNumber) -> Option<u32>
        ensures { (day : Day) (J : History) → StandsFor day J self.now → result ≡ taken J n }
    {
        self.own.taken(n)
    }

    /// The code of the In line of a message.
    pub fn code(&self, n: MessageNumber) -> Option<Code>
        ensures { (day : Day) (J : History) → StandsFor day J self.now → result ≡ taken_code J n }
    {
        self.own.code(n)
    }

    /// The place of the Book line of an item.
    pub fn booked(&self, n: MessageNumber, k: EntryNumber) -> Option<u32>
        ensures { (day : Day) (J : History) → StandsFor day J self.now → result ≡ booked J n k }
    {
        self.booked.at(n, k)
    }

    /// The place of the All line of a message.
    pub fn settled_whole(&self, n: MessageNumber) -> Option<u32>
        ensures { (day : Day) (J : History) → StandsFor day J self.now
            → result ≡ settled_whole J n }
    {
        self.own.settled_whole(n)
    }

    /// The place of the Ask line of a message.
    pub fn asked(&self, n: MessageNumber) -> Option<u32>
        ensures { (day : Day) (J : History) → StandsFor day J self.now → result ≡ asked J n }
    {
        self.own.asked(n)
    }

    /// The place of the Cover line of a message.
    pub fn covered(&self, n: MessageNumber) -> Option<u32>
        ensures { (day : Day) (J : History) → StandsFor day J self.now → result ≡ covered J n }
    {
        self.own.covered(n)
    }

    /// The place of the Expire or Refuse line of a message.
    pub fn closed(&self, n: MessageNumber) -> Option<u32>
        ensures { (day : Day) (J : History) → StandsFor day J self.now → result ≡ closed J n }
    {
        self.own.closed(n)
    }

    /// The place of the In line of the first accepted objection that revokes (n, k).
    pub fn revoked(&self, setting: &Setting, n: MessageNumber, k: EntryNumber) -> Option<u32>
        ensures { (J : History) → StandsFor setting.now.day J self.now
            → result ≡ revoked setting.now.day J n k }
    {
        revoked_at(&self.revoked, setting, n, k)
    }

    /// An accepted objection to batch b that message n repeats, of the same bank, where one is known. It may be n itself.
    pub fn repeated(
        &self,
        setting: &Setting,
        b: MessageNumber,
        n: MessageNumber,
    ) -> Option<MessageNumber>
        ensures { (J : History) → StandsFor setting.now.day J self.now
            → IfSome result (λ m. repeats_accepted setting.now.day J m n ≡ true) }
    {
        self.earlier(setting, Some(b), n)
    }

    /// The place of the accepted answer on batch n.
    pub fn answered(&self, n: MessageNumber) -> Option<u32>
        ensures { (day : Day) (J : History) → StandsFor day J self.now → result ≡ answered day J n }
    {
        self.told.answered(n)
    }

    /// Whether the accepted answer on batch n is Y, where there is one.
    pub fn answer(&self, n: MessageNumber) -> Option<bool>
        ensures { (day : Day) (J : History) → StandsFor day J self.now → result ≡ answer day J n }
    {
        self.told.answer(n)
    }

    /// The place of the START line of the system's open cycle.
    pub fn cycle(&self, setting: &Setting, system: &Name) -> Option<u32>
        ensures { (J : History) → StandsFor setting.now.day J self.now
            → result ≡ open_cycle setting.now.day system.now J }
    {
        self.cycles.cycle(setting, system)
    }

    /// The time to which the clock was last moved, in seconds.
    #[tactic(auto, using(crate::proofs::Standing::clock_stands))]
    pub fn clock(&self) -> u32
        ensures { (day : Day) (J : History) → StandsFor day J self.now → result ≡ clock J }
    {
        self.clock
    }

    /// How many of the stated stops the clock has reached.
    #[tactic(auto, using(crate::proofs::Standing::round_stands))]
    pub fn round(&self) -> u32
        ensures { (day : Day) (J : History) → StandsFor day J self.now → result ≡ round day J }
    {
        self.round
    }

    /// The place of the End line.
    #[tactic(auto, using(crate::proofs::Standing::end_stands))]
    pub fn ended(&self) -> Option<u32>
        ensures { (day : Day) (J : History) → StandsFor day J self.now → result ≡ ended J }
    {
        self.ended
    }

    fn untaken_now(&self, setting: &Setting) -> Option<u32>
        ensures { result ≡ reached_by setting.now.day self.now.next self.now.round }
    {
        if self.next <= message_count(setting) && round_of(setting, self.next) <= self.round {
            Some(self.next)
        } else {
            None
        }
    }

    /// The first message of the rounds reached that isn't taken.
    pub fn untaken_reached(&self, setting: &Setting) -> Option<u32>
        ensures { (J : History) → StandsFor setting.now.day J self.now
            → result ≡ untaken_reached setting.now.day J }
    {
        self.untaken_now(setting)
    }

    /// The first message before message n, of its sender, that isn't taken. Where there is none this is told at once, as messages of one
    /// sender are taken in order; else the messages from the first of all that isn't taken are looked at.
    pub fn untaken_earlier(&self, setting: &Setting, n: MessageNumber) -> Option<u32>
        ensures { (J : History) → StandsFor setting.now.day J self.now
            → result ≡ untaken_earlier setting.now.day J n }
    {
        if follows_its_sender(&self.own, setting, n) {
            return None;
        }
        awaited(&self.own, setting, n, self.next)
    }

    /// How many lines there are.
    #[tactic(auto, using(crate::proofs::Standing::lines_stand))]
    pub fn lines(&self) -> u32
        ensures { (day : Day) (J : History) → StandsFor day J self.now → result ≡ length J }
    {
        self.lines
    }

    // ---- how far a message has come

    fn is_taken(&self, n: u32) -> bool
        ensures { result ≡ taken_by self.now n }
    {
        self.own.taken(n).is_some()
    }

    fn is_accepted(&self, n: u32) -> bool
        ensures { result ≡ some_passes is_ok (code_in self.now.own n) }
    {
        matches!(self.own.code(n), Some(Code::Ok))
    }

    fn is_closed(&self, n: u32) -> bool
        ensures { result ≡ is_some (place_in (λ own. own.closed) self.now.own n) }
    {
        self.own.closed(n).is_some()
    }

    fn is_whole(&self, n: u32) -> bool
        ensures { result ≡ is_some (place_in (λ own. own.whole) self.now.own n) }
    {
        self.own.settled_whole(n).is_some()
    }

    fn is_covered(&self, n: u32) -> bool
        ensures { result ≡ has_covered self.now n }
    {
        self.own.covered(n).is_some()
    }

    fn is_asked(&self, n: u32) -> bool
        ensures { result ≡ has_asked self.now n }
    {
        self.own.asked(n).is_some()
    }

    fn is_answered(&self, n: u32) -> bool
        ensures { result ≡ is_some (answered_in self.now.told n) }
    {
        self.told.answered(n).is_some()
    }

    fn is_booked(&self, n: u32, k: u32) -> bool
        ensures { result ≡ has_booked self.now n k }
    {
        self.booked.at(n, k).is_some()
    }

    fn is_revoked(&self, setting: &Setting, n: u32, k: u32) -> bool
        ensures { result ≡ has_revoked setting.now.day self.now n k }
    {
        revoked_at(&self.revoked, setting, n, k).is_some()
    }

    fn keeps_none(&self, n: u32) -> bool
        ensures { result ≡ none_in self.now.kept n }
    {
        self.flags.kept().none_stands(n)
    }

    fn waits_for_none(&self, n: u32) -> bool
        ensures { result ≡ none_in self.now.waiting n }
    {
        self.flags.waiting().none_stands(n)
    }

    fn owes_none(&self, n: u32) -> bool
        ensures { result ≡ none_in self.now.debits n }
    {
        self.flags.debits().none_stands(n)
    }

    // The place of the line that ended a cycle of the sender of message n last, or 0.
    fn last_end(&self, setting: &Setting, n: u32) -> u32
        ensures { result ≡ end_in self.now.cycles
            (system_named setting.now.day (sender setting.now.day n)) }
    {
        match message(&setting.day, n) {
            Some(message) => self.cycles.last_end(setting, &message.sender),
            None => 0,
        }
    }

    fn taken_at(&self, n: u32) -> u32
        ensures { result ≡ unwrap_or (place_in (λ own. own.taken) self.now.own n) 0 }
    {
        match self.own.taken(n) {
            Some(place) => place,
            None => 0,
        }
    }

    fn has_ended(&self, setting: &Setting, n: u32) -> bool
        ensures { result ≡ has_ended setting.now.day self.now n }
    {
        self.taken_at(n) < self.last_end(setting, n)
    }

    fn is_revoked_whole(&self, setting: &Setting, n: u32) -> bool
        ensures { result ≡ revoked_by (sort_of setting.now.day n) setting.now.day self.now n }
    {
        match procedure_of_batch(setting, n) {
            Some(Procedure::A) | Some(Procedure::B) => self.is_revoked(setting, n, 0),
            Some(Procedure::E) => self.keeps_none(n),
            _ => false,
        }
    }

    fn is_settled(&self, setting: &Setting, n: u32) -> bool
        ensures { result ≡ settled_by (sort_of setting.now.day n) setting.now.day self.now n }
    {
        match procedure_of_batch(setting, n) {
            Some(Procedure::A) | Some(Procedure::C) | Some(Procedure::E) => self.waits_for_none(n),
            Some(Procedure::B) => self.is_whole(n) || self.is_covered(n),
            Some(Procedure::D) => true,
            None => is_pay(setting, n) && self.is_booked(n, 0),
        }
    }

    fn is_open(&self, setting: &Setting, n: u32) -> bool
        ensures { result ≡ open_by (sort_of setting.now.day n) setting.now.day self.now n }
    {
        match procedure_of_batch(setting, n) {
            Some(Procedure::A) | Some(Procedure::B) | Some(Procedure::E) => {
                self.clock < settlement_end(&setting.day, n)
            }
            Some(Procedure::C) => self.clock < MIDNIGHT && !self.has_ended(setting, n),
            Some(Procedure::D) => false,
            None => is_pay(setting, n) && self.clock < MIDNIGHT,
        }
    }

    fn is_covered_a(&self, setting: &Setting, n: u32) -> bool
        ensures { result ≡ (is_a (sort_of setting.now.day n) && has_covered self.now n) }
    {
        match procedure_of_batch(setting, n) {
            Some(Procedure::A) => self.is_covered(n),
            _ => false,
        }
    }

    fn is_in_information(&self, setting: &Setting, n: u32) -> bool
        ensures { result ≡ some_passes (nat_lt self.now.clock) (info_end setting.now.day n) }
    {
        match info_end(&setting.day, n) {
            Some(end) => self.clock < end,
            None => false,
        }
    }

    fn is_waiting(&self, setting: &Setting, n: u32) -> bool
        ensures { result ≡ some_passes (nat_lt self.now.clock) (earliest setting.now.day n) }
    {
        match earliest(&setting.day, n) {
            Some(from) => self.clock < from,
            None => false,
        }
    }

    // The stage of an accepted payment or batch that is neither closed, revoked nor settled.
    fn standing_stage(&self, setting: &Setting, n: u32) -> Stage
        ensures { result ≡ standing_by setting.now.day self.now n }
    {
        if self.is_covered_a(setting, n) {
            return Stage::Covered;
        }
        if !self.is_asked(n) {
            return Stage::Going;
        }
        if self.is_answered(n) {
            Stage::Answered
        } else {
            Stage::Asking
        }
    }

    // The stage of a message by what the lines about it and about the batches that they name say.
    fn stage_now(&self, setting: &Setting, n: u32) -> Stage
        ensures { result ≡ stage_by setting.now.day self.now n }
    {
        if !self.is_taken(n) {
            return Stage::Untaken;
        }
        if !self.is_accepted(n) {
            return Stage::Rejected;
        }
        if is_no_order(setting, n) {
            return Stage::Settled;
        }
        if self.is_closed(n) {
            return Stage::Closed;
        }
        if self.is_revoked_whole(setting, n) {
            return Stage::Revoked;
        }
        if self.is_settled(setting, n) {
            return Stage::Settled;
        }
        self.standing_stage(setting, n)
    }

    fn stage_at(&self, n: u32) -> Stage
        ensures { result ≡ stage_in self.now.stages n }
    {
        self.stages.at(n)
    }

    // The phase of a message that goes on, by the clock.
    fn going_phase(&self, setting: &Setting, n: u32) -> Phase
        ensures { result ≡ going_by setting.now.day self.now n }
    {
        if self.is_in_information(setting, n) {
            return Phase::Information;
        }
        if self.is_waiting(setting, n) {
            return Phase::Waiting;
        }
        if self.is_open(setting, n) {
            Phase::Open
        } else {
            Phase::Overdue
        }
    }

    fn phase_at(&self, setting: &Setting, n: u32, stage: Stage) -> Phase
        ensures { result ≡ phase_at stage setting.now.day self.now n }
    {
        match stage {
            Stage::Untaken => Phase::Untaken,
            Stage::Rejected => Phase::Rejected,
            Stage::Settled => Phase::Settled,
            Stage::Closed => Phase::Closed,
            Stage::Revoked => Phase::Revoked,
            Stage::Covered => Phase::Covered,
            Stage::Answered => Phase::Answered,
            Stage::Asking => Phase::Asking,
            Stage::Going => self.going_phase(setting, n),
        }
    }

    fn phase_now(&self, setting: &Setting, n: u32) -> Phase
        ensures { result ≡ phase_by setting.now.day self.now n }
    {
        let stage = self.stage_at(n);
        self.phase_at(setting, n, stage)
    }

    /// How far a message has come.
    pub fn phase(&self, setting: &Setting, n: MessageNumber) -> Phase
        ensures { (J : History) → StandsFor setting.now.day J self.now
            → result ≡ phase setting.now.day J n }
    {
        self.phase_now(setting, n)
    }

    /// Whether the sender of message n, a system, has ended a cycle since the message was taken.
    pub fn cycle_ended(&self, setting: &Setting, n: MessageNumber) -> bool
        ensures { (J : History) → StandsFor setting.now.day J self.now
            → result ≡ cycle_ended setting.now.day n J }
    {
        self.has_ended(setting, n)
    }

    // ---- which items are pending

    fn is_next(&self, setting: &Setting, n: u32, k: u32) -> bool
        ensures { result ≡ next_by setting.now.day self.now n k }
    {
        !self.is_booked(n, k)
            && (is_debit(setting, n, k) || is_credit(setting, n, k) && self.owes_none(n))
    }

    fn is_pending_of_a(&self, setting: &Setting, n: u32, k: u32, phase: Phase) -> bool
        ensures { result ≡ (is_open phase && next_by setting.now.day self.now n k
            || is_covered phase && is_credit setting.now.day n k && not (has_booked self.now n k)) }
    {
        is_open(phase) && self.is_next(setting, n, k)
            || is_covered(phase) && is_credit(setting, n, k) && !self.is_booked(n, k)
    }

    fn is_pending_in(&self, setting: &Setting, n: u32, k: u32, phase: Phase) -> bool
        ensures { result ≡ pending_by (sort_of setting.now.day n) setting.now.day self.now n k
            phase }
    {
        match procedure_of_batch(setting, n) {
            Some(Procedure::A) => self.is_pending_of_a(setting, n, k, phase),
            Some(Procedure::B) => k == 0 && is_open(phase),
            Some(Procedure::C) => {
                has_entry(setting, n, k) && is_open(phase) && !self.is_booked(n, k)
            }
            Some(Procedure::D) => false,
            Some(Procedure::E) => {
                has_entry(setting, n, k)
                    && is_open(phase)
                    && !self.is_booked(n, k)
                    && !self.is_revoked(setting, n, k)
            }
            None => is_pay(setting, n) && k == 0 && is_open(phase),
        }
    }

    fn is_pending_now(&self, setting: &Setting, item: Item) -> bool
        ensures { result ≡ pending_by (sort_of setting.now.day item.msg) setting.now.day self.now
            item.msg item.entry (phase_by setting.now.day self.now item.msg) }
    {
        let phase = self.phase_now(setting, item.msg);
        self.is_pending_in(setting, item.msg, item.entry, phase)
    }

    /// Whether an item is pending.
    pub fn is_pending(&self, setting: &Setting, item: Item) -> bool
        ensures { (J : History) → StandsFor setting.now.day J self.now
            → result ≡ is_pending setting.now.day J item }
    {
        self.is_pending_now(setting, item)
    }

    // ---- what is left

    /// How many debit entries of a batch aren't booked.
    pub fn debits_left(&self, n: MessageNumber) -> usize
        ensures { (day : Day) (J : History) → StandsFor day J self.now
            → result ≡ count_by (owes day J n) (item_numbers day n) }
    {
        self.flags.debits().count(n)
    }

    /// The first debit entry of a batch that isn't booked, found in a few steps.
    pub fn first_unbooked_debit(&self, n: MessageNumber) -> Option<u32>
        ensures { (day : Day) (J : History) → StandsFor day J self.now
            → result ≡ first_unbooked_debit day J n }
    {
        self.flags.debits().first(n)
    }

    // ---- where items stand

    fn opened_now(&self, setting: &Setting, n: u32) -> u32
        ensures { result ≡ opened_by self.now n (settlement_start setting.now.day n) }
    {
        match settlement_start(&setting.day, n) {
            Some(start) => self.openings.at(start),
            None => self.taken_at(n),
        }
    }

    fn credit_at(&self, n: u32) -> u32
        ensures { result ≡ unwrap_or (place_in (λ own. own.covered) self.now.own n)
            (last_in self.now.last n) }
    {
        match self.own.covered(n) {
            Some(place) => place,
            None => self.last.at(n),
        }
    }

    fn active_now(&self, setting: &Setting, n: u32, k: u32) -> u32
        ensures { result ≡ active_by setting.now.day self.now n k }
    {
        if is_credit_of_a(setting, n, k) {
            self.credit_at(n)
        } else {
            self.opened_now(setting, n)
        }
    }

    /// The place of the line that made an item active.
    pub fn active_place(&self, setting: &Setting, item: Item) -> u32
        ensures { (J : History) → StandsFor setting.now.day J self.now
            → result ≡ active_place setting.now.day J item }
    {
        self.active_now(setting, item.msg, item.entry)
    }
}
