//! What is kept of the pending items of a day.
ghost use Rattle.batch_records.specs.DayRecord.{Day};
ghost use Rattle.batch_records.specs.declared.day.Message.{Message};
ghost use Rattle.batch_records.specs.Flat.{body_with_entries};
ghost use Rattle.live_order.specs.Coming.{ComesNext, setup, StaysLegal};
ghost use Rattle.live_order.specs.Longer.{longer};
ghost use Rattle.machine.specs.Records.Messages.{entries};
ghost use Rattle.pending_items.specs.Room.{HasRoom};
ghost use Rattle.std.specs.Prelude.{◌≡◌, ◌≤◌, ◌+◌, ◌∷◌, [], ℕ, List, false, true, length, IfOk};
ghost use Rattle.cash_amounts.specs.declared.limits.TheConstants.{MAX_ACCOUNTS, MAX_ENTRIES_OF_DAY, MAX_MESSAGES, MAX_SYSTEMS};
ghost use Rattle.commit_journal.specs.Line.{Line, History};
ghost use Rattle.machine.specs.Telling.History.{is_book, is_time};
ghost use Rattle.machine.specs.Legal.{IsLegal};
ghost use Rattle.machine.specs.Stages.Blockers.{first_blocker};
ghost use Rattle.day_facts.specs.Facts.{StandsFor};
ghost use Rattle.pending_items.specs.Cycles.{AreLeft};
ghost use Rattle.pending_items.specs.Heads.{IsHeadOn};
ghost use Rattle.pending_items.specs.Items.{RenewsBy};
ghost use Rattle.pending_items.specs.Kept.{IsRenewed, KeepsPending};
ghost use Rattle.pending_items.specs.Concerned.{IsMet, IsNamed, IsTold, frees, is_taken_well, tells};

use crate::cycles::Batches;
use crate::end_list::EndList;
use crate::ends::{end_arrives, first_ends, no_ends, renew_ending};
use crate::intake_order::IntakeOrder;
use crate::rows::ItemRows;
use batch_records::RecordBody;
use cash_amounts::{AccountNumber, Memory, MessageNumber};
use commit_journal::{Head, Kind};
use day_facts::{DayFacts, batch_named, takes_well};
use rule_book::batches::is_debit;
use rule_book::parts::{message, message_count};
use rule_book::sorts::is_a;
use rule_book::{Item, Setting};
use std::alloc::Global;
use std::marker::Model;

/// The pending items of a day on the accounts that they are to debit, kept line by line beside the facts of a journal.
#[derive(Drop)]
pub struct PendingItems {
    rows: ItemRows,
    // By message the first of its ends that the clock hasn't come to.
    ends: EndList,
    // The batches of C whose cycle lasts.
    batches: Batches,
    // Room to put all messages in order, and the number 0, which none has.
    order: IntakeOrder,
}

impl Model for PendingItems {
    ghost use Rattle.pending_items.specs.Kept.{KeptItems};

    ghost Value = { KeptItems };

    ghost view = { λ items. record {
      rows = items.rows;
      ends = items.ends.times;
      batches = items.batches;
      room = items.ends.room;
    } };
}

// Whether the line booked the last debit of a batch of A, so that its credits become pending.
fn frees(setting: &Setting, facts: &DayFacts, head: Head) -> bool
    ensures { (J : History) → StandsFor setting.now.day J facts.now
        → result ≡ frees setting.now.day head J }
{
    is_a(setting, head.msg)
        && is_debit(setting, head.msg, head.entry)
        && facts.debits_left(head.msg) == 0
}

// ---- the rows that a line concerns

fn renew_if(rows: &mut ItemRows, setting: &Setting, facts: &DayFacts, n: u32, freed: bool)
    ensures { RenewsBy setting.now.day facts.now (λ J x. (x.msg ≡ n) × (freed ≡ true)) rows.old
        rows.new }
{
    if !freed {
        return;
    }
    rows.renew_message(setting, facts, n);
}

// A Book line concerns its item, and where it booked the last debit of a batch of A all of the batch.
fn renew_booked(rows: &mut ItemRows, setting: &Setting, facts: &DayFacts, head: Head)
    requires { is_book head.kind ≡ true }
    ensures { RenewsBy setting.now.day facts.now (IsMet setting.now.day head) rows.old rows.new }
{
    rows.renew(
        setting,
        facts,
        Item {
            msg: head.msg,
            entry: head.entry,
        },
    );
    renew_if(rows, setting, facts, head.msg, frees(setting, facts, head));
}

fn renew_named(rows: &mut ItemRows, setting: &Setting, facts: &DayFacts, m: u32)
    ensures { RenewsBy setting.now.day facts.now (λ J x. IsNamed setting.now.day m x.msg) rows.old
        rows.new }
{
    match batch_named(setting, m) {
        Some(b) => rows.renew_message(setting, facts, b),
        None => {}
    }
}

fn renew_by(
    rows: &mut ItemRows,
    batches: &mut Batches,
    setting: &Setting,
    facts: &DayFacts,
    m: u32,
    body: &RecordBody,
)
    ensures rows { RenewsBy setting.now.day facts.now
        (λ J x. tells setting.now.day batches.old m x.msg (body_with_entries body.now [])) rows.old rows.new }
    ensures batches { (J : History) → StandsFor setting.now.day J facts.now
        → AreLeft setting.now.day J m batches.old batches.new }
{
    match body {
        RecordBody::Confirm { .. } => renew_named(rows, setting, facts, m),
        RecordBody::Cycle { .. } => batches.renew(rows, setting, facts, m),
        _ => {}
    }
}

// What a message that is accepted concerns beside itself: the batch that it answers on, or the batches of which it ends the cycle.
fn renew_told(
    rows: &mut ItemRows,
    batches: &mut Batches,
    setting: &Setting,
    facts: &DayFacts,
    m: u32,
)
    ensures rows { RenewsBy setting.now.day facts.now
        (λ J x. IsTold setting.now.day batches.old m x.msg) rows.old rows.new }
    ensures batches { (J : History) → StandsFor setting.now.day J facts.now
        → AreLeft setting.now.day J m batches.old batches.new }
{
    match message(&setting.day, m) {
        Some(message) => renew_by(rows, batches, setting, facts, m, &message.body),
        None => {}
    }
}

fn renew_accepted(
    rows: &mut ItemRows,
    batches: &mut Batches,
    setting: &Setting,
    facts: &DayFacts,
    head: Head,
)
    ensures rows { RenewsBy setting.now.day facts.now
        (λ J x. (is_taken_well head ≡ true) × IsTold setting.now.day batches.old head.msg x.msg)
        rows.old rows.new }
    ensures batches { (J : History) → StandsFor setting.now.day J facts.now
        → AreLeft setting.now.day J head.msg batches.old batches.new }
{
    if !takes_well(head) {
        return;
    }
    renew_told(rows, batches, setting, facts, head.msg);
}

impl PendingItems {
    // The clock comes to a time.
    fn pass_time(&mut self, setting: &Setting, facts: &DayFacts, head: Head)
        requires { is_time head.kind ≡ true }
        ensures { IsRenewed setting.now.day facts.now head self.old self.new }
    {
        renew_ending(
            &mut self.rows,
            &mut self.ends,
            &mut self.order,
            setting,
            facts,
            head.entry,
        );
    }

    fn pass_booking(&mut self, setting: &Setting, facts: &DayFacts, head: Head)
        requires { is_book head.kind ≡ true }
        ensures { IsRenewed setting.now.day facts.now head self.old self.new }
    {
        renew_booked(&mut self.rows, setting, facts, head);
    }

    // Any other line concerns its message.
    fn pass_message(&mut self, setting: &Setting, facts: &DayFacts, head: Head)
        requires book { is_book head.kind ≡ false }
        requires time { is_time head.kind ≡ false }
        ensures { IsRenewed setting.now.day facts.now head self.old self.new }
    {
        self.rows.renew_message(setting, facts, head.msg);
        renew_accepted(&mut self.rows, &mut self.batches, setting, facts, head);
    }

    fn pass(&mut self, setting: &Setting, facts: &DayFacts, head: Head)
        ensures { IsRenewed setting.now.day facts.now head self.old self.new }
    {
        match head.kind {
            Kind::Book => self.pass_booking(setting, facts, head),
            Kind::Time => self.pass_time(setting, facts, head),
            _ => self.pass_message(setting, facts, head),
        }
    }

    /// Of no messages and no lines, of any day of at most so many accounts and systems, with room for so many messages, with so many
    /// entries in all. All memory that is needed is taken here, and `Memory` says that there wasn't that much.
    pub fn empty(
        alloc: Global,
        accounts: u32,
        systems: u32,
        messages: u32,
        entries: u32,
    ) -> Result<PendingItems, Memory>
        requires accounts { accounts ≤ MAX_ACCOUNTS }
        requires systems { systems ≤ MAX_SYSTEMS }
        requires messages { messages ≤ MAX_MESSAGES }
        requires entries { entries ≤ MAX_ENTRIES_OF_DAY }
        ensures empty { (day : Day) → length day.accounts ≤ accounts → length day.systems ≤ systems
            → IfOk result (λ items. KeepsPending (setup day) [] items) }
        ensures room { IfOk result (λ items. HasRoom messages entries items) }
    {
        let order = IntakeOrder::with_room(alloc, messages + 1)?;
        let rows = ItemRows::empty(alloc, accounts + 1, messages, messages + entries)?;
        let ends = no_ends(alloc, messages)?;
        let batches = Batches::empty(alloc, systems, messages + 1)?;
        Ok(PendingItems {
            rows,
            ends,
            batches,
            order,
        })
    }

    /// Message n of the setting's day comes, which is the next, once the facts have it. Nothing of it is pending before it is taken, and
    /// all else stays. Takes no memory, but room for it.
    pub fn arrive(&mut self, setting: &Setting, facts: &DayFacts, n: MessageNumber)
        requires room { HasRoom 1 (length (entries setting.now.day n)) self.old }
        ensures room { (messages more : ℕ)
            → HasRoom (messages + 1) (more + length (entries setting.now.day n)) self.old
            → HasRoom messages more self.new }
        ensures day { (day : Day) (m : Message) (ms : List Message) (ss : List ℕ) (J : History)
            → ComesNext setting.now.day n day m ms ss → StaysLegal day m J
            → StandsFor (longer day (m ∷ []) []) J facts.now
            → KeepsPending day J self.old → KeepsPending (longer day (m ∷ []) []) J self.new }
    {
        self.rows.arrive(setting, n);
        end_arrives(&mut self.ends, setting, n, facts.clock());
    }

    /// Nothing is pending over no lines. All memory that is needed is taken here, and `Memory` says that there wasn't that much.
    pub fn with_room(alloc: Global, setting: &Setting) -> Result<PendingItems, Memory>
        ensures { IfOk result (λ items. KeepsPending setting.now.day [] items) }
    {
        let order = IntakeOrder::with_room(alloc, message_count(setting) + 1)?;
        let rows = ItemRows::with_room(alloc, setting)?;
        let ends = first_ends(alloc, setting)?;
        let batches = Batches::empty(
            alloc,
            setting.book.system_count(),
            message_count(setting) + 1,
        )?;
        Ok(PendingItems {
            rows,
            ends,
            batches,
            order,
        })
    }

    /// Notes the next line, of which the head is enough, once the facts have noted it. Where the items of the lines before it
    /// were kept, those of these and it are, and there is room for as much as before.
    pub fn note(&mut self, setting: &Setting, facts: &DayFacts, head: Head)
        ensures room { (J : History) (l : Line) → l.head ≡ head → IsLegal setting.now.day (l ∷ J)
            → StandsFor setting.now.day (l ∷ J) facts.now → KeepsPending setting.now.day J self.old
            → (messages more : ℕ) → HasRoom messages more self.old → HasRoom messages more self.new }
        ensures kept { (J : History) (l : Line) → l.head ≡ head → IsLegal setting.now.day (l ∷ J)
            → StandsFor setting.now.day (l ∷ J) facts.now → KeepsPending setting.now.day J self.old
            → KeepsPending setting.now.day (l ∷ J) self.new }
    {
        self.batches.note(setting, head);
        self.pass(setting, facts, head);
    }

    /// The item at the head of account a: the foremost of the pending items there that stand before others, the urgent and the
    /// high ones. `None` where no such item is pending on the account. Takes a few steps, however many are pending.
    pub fn head(&self, setting: &Setting, a: AccountNumber) -> Option<Item>
        ensures { (J : History) → KeepsPending setting.now.day J self.now
            → IsHeadOn setting.now.day J a result }
    {
        self.rows.head(setting, a)
    }

    /// Of the pending items on account a that stand before an item, the foremost; `None` where none does. Takes a few steps,
    /// however many are pending.
    pub fn first_blocker(
        &self,
        setting: &Setting,
        facts: &DayFacts,
        item: Item,
        a: AccountNumber,
    ) -> Option<Item>
        ensures { (J : History) → StandsFor setting.now.day J facts.now
            → KeepsPending setting.now.day J self.now
            → result ≡ first_blocker setting.now.day J item a }
    {
        self.rows.first_blocker(setting, facts, item, a)
    }
}
