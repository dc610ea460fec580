//! A walk along a journal, which tells the parties of its lines.
ghost use Rattle.std.specs.Prelude.{◌≡◌, ◌≤◌, ◌<◌, ◌^◌, ◌+◌, ◌-◌, ◌++◌, ◌∷◌, [], ℕ, List, length, IfOk, OnOk};
ghost use Rattle.cash_amounts.specs.declared.limits.TheConstants.{MAX_ACCOUNTS};
ghost use Rattle.outside_io.specs.Calls.{Puts};
ghost use Rattle.commit_journal.specs.Histories.{oldest};
ghost use Rattle.batch_records.specs.DayRecord.{Day};
ghost use Rattle.batch_records.specs.declared.day.Message.{Message};
ghost use Rattle.commit_journal.specs.Line.{History};
ghost use Rattle.day_facts.specs.Room.{HasRoom};
ghost use Rattle.live_order.specs.Coming.{ComesNext, setup, StaysLegal};
ghost use Rattle.live_order.specs.Longer.{longer};
ghost use Rattle.machine.specs.Legal.{IsLegal};
ghost use Rattle.machine.specs.Records.Messages.{entries};
ghost use Rattle.status_messages.specs.LineTexts.{after_text, behind_text, ends_text, information_text, intake_text, is_settled_in, line_text, objected_batch, objection_text, opening_text, rest_text, settlement_text, subject_of};
ghost use Rattle.status_messages.specs.StatusesAt.{statuses_at};
ghost use Rattle.status_messages.specs.Telling.{texts};
ghost use Rattle.status_messages.specs.Walks.{Stands};

use crate::banks::{clear, enter_informed};
use crate::noted::{Noted, up_to};
use crate::revocations::put_entry_revocations;
use crate::told::{
    put_ask, put_batch_revocation, put_failure, put_information, put_intake, put_moves,
    put_rejections, put_settlement,
};
use batch_records::Day;
use cash_amounts::{LinePlace, Memory, MessageNumber};
use commit_journal::{Head, Journal, Move};
use day_facts::{DayFacts, note_at};
use number_set::NumberSet;
use outside_io::{Sink, WriteFault};
use rule_book::Setting;
use rule_book::parts::account_count;
use std::alloc::Global;
use std::marker::Model;

/// What a walk along a journal keeps of the lines that it has told, so that no line is looked for again.
#[derive(Drop)]
pub struct StatusWalk {
    facts: DayFacts,
    // Empty between lines.
    banks: NumberSet,
}

impl Model for StatusWalk {
    ghost use Rattle.status_messages.specs.Walks.{Walk};

    ghost Value = { Walk };

    ghost view = { λ walk. record { facts = walk.facts; banks = walk.banks } };
}

// The one message that the line may settle.
fn subject(b: u32, n: u32) -> u32
    ensures { result ≡ subject_of b n }
{
    if b == 0 { n } else { b }
}

// ---- what a line tells, in parts

fn put_taking<S: Sink>(
    day: &Day,
    banks: &NumberSet,
    place: u32,
    head: Head,
    sink: &mut S,
) -> Result<(), WriteFault>
    ensures { Puts (S.state sink.old) (S.state sink.new)
        (intake_text day.now place head ++ information_text day.now place head.msg banks.now)
        result }
{
    put_intake(day, place, head, sink)?;
    put_information(day, banks, place, head.msg, sink)
}

fn put_opening<S: Sink>(
    day: &Day,
    banks: &NumberSet,
    place: u32,
    head: Head,
    moves: &[Move],
    sink: &mut S,
) -> Result<(), WriteFault>
    ensures { Puts (S.state sink.old) (S.state sink.new)
        (opening_text day.now place head moves.now banks.now) result }
{
    put_moves(day, place, moves, sink)?;
    put_taking(day, banks, place, head, sink)
}

fn put_asked_or_failed<S: Sink>(
    setting: &Setting,
    place: u32,
    head: Head,
    sink: &mut S,
) -> Result<(), WriteFault>
    ensures { Puts (S.state sink.old) (S.state sink.new) (ends_text setting.now.day place head)
        result }
{
    put_ask(&setting.day, place, head, sink)?;
    put_failure(&setting.day, place, head, sink)
}

fn put_rejected_or_ended<S: Sink>(
    setting: &Setting,
    place: u32,
    head: Head,
    moves: &[Move],
    sink: &mut S,
) -> Result<(), WriteFault>
    ensures { Puts (S.state sink.old) (S.state sink.new)
        (rest_text setting.now.day place head moves.now) result }
{
    put_rejections(setting, place, head, moves, sink)?;
    put_asked_or_failed(setting, place, head, sink)
}

// What the line revokes, if it accepts an objection to batch b.
fn put_revoked<S: Sink>(lines: &Noted, b: u32, sink: &mut S) -> Result<(), WriteFault>
    ensures { Puts (S.state sink.old) (S.state sink.new)
        (objection_text lines.now.setting.now.day
        (oldest lines.now.journal.now.history lines.now.place) lines.now.place b) result }
{
    put_entry_revocations(lines, b, sink)?;
    put_batch_revocation(lines, b, sink)
}

fn put_settled<S: Sink>(lines: &Noted, n: u32, before: bool, sink: &mut S) -> Result<(), WriteFault>
    ensures { Puts (S.state sink.old) (S.state sink.new)
        (settlement_text lines.now.setting.now.day lines.now.place n before
        (is_settled_in lines.now.setting.now.day
        (oldest lines.now.journal.now.history lines.now.place) n)) result }
{
    let after = lines.is_settled(n);
    put_settlement(&lines.setting.day, lines.place, n, before, after, sink)
}

fn put_subject<S: Sink>(
    lines: &Noted,
    b: u32,
    msg: u32,
    before: bool,
    sink: &mut S,
) -> Result<(), WriteFault>
    ensures { Puts (S.state sink.old) (S.state sink.new)
        (settlement_text lines.now.setting.now.day lines.now.place (subject_of b msg) before
        (is_settled_in lines.now.setting.now.day
        (oldest lines.now.journal.now.history lines.now.place) (subject_of b msg))) result }
{
    put_settled(lines, subject(b, msg), before, sink)
}

fn put_after<S: Sink>(
    lines: &Noted,
    head: Head,
    moves: &[Move],
    b: u32,
    before: bool,
    sink: &mut S,
) -> Result<(), WriteFault>
    ensures { Puts (S.state sink.old) (S.state sink.new)
        (after_text lines.now.setting.now.day (oldest lines.now.journal.now.history lines.now.place)
        lines.now.place head moves.now b before) result }
{
    put_rejected_or_ended(lines.setting, lines.place, head, moves, sink)?;
    put_subject(lines, b, head.msg, before, sink)
}

fn put_behind<S: Sink>(
    lines: &Noted,
    head: Head,
    moves: &[Move],
    b: u32,
    before: bool,
    sink: &mut S,
) -> Result<(), WriteFault>
    ensures { Puts (S.state sink.old) (S.state sink.new)
        (behind_text lines.now.setting.now.day
        (oldest lines.now.journal.now.history lines.now.place) lines.now.place head moves.now b
        before) result }
{
    put_revoked(lines, b, sink)?;
    put_after(lines, head, moves, b, before, sink)
}

// What the newest of these lines tells. It informs these banks, and objects to batch b, if that isn't 0; whether its subject
// was settled before it.
fn put_line<S: Sink>(
    lines: &Noted,
    banks: &NumberSet,
    head: Head,
    moves: &[Move],
    b: u32,
    before: bool,
    sink: &mut S,
) -> Result<(), WriteFault>
    ensures { Puts (S.state sink.old) (S.state sink.new)
        (line_text lines.now.setting.now.day (oldest lines.now.journal.now.history lines.now.place)
        lines.now.place head moves.now banks.now b before) result }
{
    let day = &lines.setting.day;
    put_opening(day, banks, lines.place, head, moves, sink)?;
    put_behind(lines, head, moves, b, before, sink)
}

// The batch to which the line after these accepts an objection, or 0, and whether the message that it may settle is settled.
fn told_before(lines: &Noted, head: Head) -> (u32, bool)
    ensures batch { result.0 ≡ objected_batch lines.now.setting.now.day head }
    ensures settled { result.1 ≡ is_settled_in lines.now.setting.now.day
        (oldest lines.now.journal.now.history lines.now.place) (subject_of result.0 head.msg) }
{
    let b = lines.objected_batch(head);
    (b, lines.is_settled(subject(b, head.msg)))
}

impl StatusWalk {
    /// A walk that stands before the first line. All memory that it can need is taken here, and `Memory` says that there
    /// wasn't that much.
    pub fn with_room(alloc: Global, setting: &Setting) -> Result<StatusWalk, Memory>
        ensures { IfOk result (λ walk. Stands setting.now.day [] walk) }
    {
        let banks = NumberSet::with_room(alloc, account_count(setting) + 1)?;
        let facts = DayFacts::with_room(alloc, setting)?;
        Ok(StatusWalk { facts, banks })
    }

    /// A walk along the lines of any day of at most so many accounts and systems, of which nothing but its setup has come, with room for
    /// so many messages, with so many entries in all. All memory that it can need is taken here, and `Memory` says that there wasn't that
    /// much.
    pub fn empty(
        alloc: Global,
        accounts: u32,
        systems: u32,
        messages: u32,
        entries: u32,
    ) -> Result<StatusWalk, Memory>
        requires accounts { accounts ≤ MAX_ACCOUNTS }
        requires room { messages + entries < 2 ^ 32 }
        ensures stands { (day : Day) → length day.accounts ≤ accounts → length day.systems ≤ systems
            → IfOk result (λ walk. Stands (setup day) [] walk) }
        ensures room { IfOk result (λ walk. HasRoom messages entries walk.facts) }
    {
        let banks = NumberSet::with_room(alloc, accounts + 1)?;
        let facts = DayFacts::empty(alloc, systems, messages, entries)?;
        Ok(StatusWalk { facts, banks })
    }

    /// Message n of the setting's day comes, which is the next. Nothing is told of it before it is taken. Takes no memory. A stop that
    /// comes changes nothing here.
    pub fn arrive(&mut self, setting: &Setting, n: MessageNumber)
        requires { HasRoom 1 (length (entries setting.now.day n)) self.old.facts }
        ensures room { (messages more : ℕ)
            → HasRoom (messages + 1) (more + length (entries setting.now.day n)) self.old.facts
            → HasRoom messages more self.new.facts }
        ensures day { (day : Day) (m : Message) (ms : List Message) (ss : List ℕ) (J : History)
            → ComesNext setting.now.day n day m ms ss → StaysLegal day m J
            → Stands day J self.old → Stands (longer day (m ∷ []) []) J self.new }
    {
        self.facts.arrive(setting, n);
    }

    /// Writes the texts of the status messages that the line at a place tells, where the walk stands for the lines before it.
    /// The walk then stands for the lines up to that one. At an error a front of the texts was written, and the sink's count of
    /// faults has risen; the walk is good for no more lines then. The room for what is still to come stays. Takes no memory.
    pub fn say<S: Sink>(
        &mut self,
        setting: &Setting,
        journal: &Journal,
        place: LinePlace,
        sink: &mut S,
    ) -> Result<(), WriteFault>
        requires legal { IsLegal setting.now.day journal.now.history }
        requires from { 1 ≤ place }
        requires to { place ≤ length journal.now.history }
        requires stands { Stands setting.now.day (oldest journal.now.history (place - 1)) self.old }
        ensures texts { Puts (S.state sink.old) (S.state sink.new)
            (texts (statuses_at setting.now.day journal.now.history place)) result }
        ensures stands { OnOk result (Stands setting.now.day (oldest journal.now.history place)
            self.new) }
        ensures room { (messages more : ℕ) → HasRoom messages more self.old.facts
            → HasRoom messages more self.new.facts }
    {
        let (head, moves) = journal.line(place);
        let (b, before) = told_before(&up_to(setting, journal, &self.facts, place - 1), head);
        note_at(setting, journal, &mut self.facts, place);
        enter_informed(&mut self.banks, setting, head);
        let lines = up_to(setting, journal, &self.facts, place);
        let said = put_line(&lines, &self.banks, head, moves, b, before, sink);
        clear(&mut self.banks);
        said
    }
}
