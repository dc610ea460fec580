//! What is ready, kept line by line.
ghost use Rattle.std.specs.Prelude.{ℕ, List, ◌≡◌, ◌∷◌, ◌+◌, ◌^◌, ◌<◌, ◌≤◌, [], true, false, Some, None, length, slice_set, IfOk, IfSome};
ghost use Rattle.cash_amounts.specs.declared.limits.TheConstants.{MAX_ACCOUNTS, MAX_ENTRIES_OF_DAY, MAX_MESSAGES};
ghost use Rattle.batch_records.specs.DayRecord.{Day};
ghost use Rattle.batch_records.specs.declared.day.Message.{Message};
ghost use Rattle.batch_records.specs.Sound.{is_sound};
ghost use Rattle.live_order.specs.Coming.{ComesNext, setup, StaysLegal};
ghost use Rattle.live_order.specs.Longer.{longer};
ghost use Rattle.machine.specs.Records.Messages.{entries};
ghost use Rattle.ready_items.specs.Room.{HasRoom, HasSameRoom};
ghost use Rattle.least_tree.specs.Amounts.{least};
ghost use Rattle.commit_journal.specs.Line.{Line, History};
ghost use Rattle.number_set.specs.Members.{IsEmpty, has};
ghost use Rattle.number_set.specs.Next.{IsNext};
ghost use Rattle.machine.specs.Telling.Balances.{balance};
ghost use Rattle.day_facts.specs.Facts.{StandsFor};
ghost use Rattle.due_items.specs.Kept.{KeepsDue, Tells};
ghost use Rattle.pending_items.specs.Heads.{IsHeadOn};
ghost use Rattle.pending_items.specs.Kept.{KeepsPending};
ghost use Rattle.scan_laws.specs.Candidates.{IsFirstRound};
ghost use Rattle.scan_laws.specs.Numbers.{item_count, item_of};
ghost use Rattle.ready_items.specs.Kept.{Fits, IsFound, IsRenewed, KeepsReady, is_member};
ghost use Rattle.ready_items.specs.Normals.{HavePayments, fits_normal, goes_normal, pending_amount};
ghost use Rattle.ready_items.specs.Noting.{PutsNormal, Renews, Touches};

use crate::found::{Found, no_numbers, set_member, set_number};
use crate::normals::{Normals, is_normal, payer};
use crate::placing::{by_itself, head_candidate};
use crate::touching::{touch_all, touch_item, touch_moves};
use cash_amounts::{AccountNumber, Memory, MessageNumber};
use commit_journal::Move;
use day_facts::DayFacts;
use due_items::DueItems;
use growing_set::GrowingSet;
use number_set::NumberSet;
use pending_items::PendingItems;
use rule_book::parts::{account_count, entry_count, item_move, kept, message_count};
use rule_book::sorts::is_b;
use rule_book::{Item, Setting};
use std::alloc::Global;
use std::marker::Model;

/// A few items of a day that show where the next one is that has a line: of each account its candidate, the batches of B that
/// are the candidate of all their debtor accounts, and what is ready by itself.
#[derive(Drop)]
pub struct ReadyItems {
    normals: Normals,
    alone: GrowingSet,
    found: Found,
    // The accounts whose candidates are to be found anew.
    touched: NumberSet,
    // Where the scan is.
    at: u32,
}

impl Model for ReadyItems {
    ghost use Rattle.std.specs.Prelude.{◌≡◌};
    ghost use Rattle.ready_items.specs.Kept.{Ready};

    ghost Value = { Ready };

    ghost view = { λ ready. record {
      normals = ready.normals;
      alone = ready.alone.set;
      found = ready.found;
      touched = ready.touched;
      at = ready.at;
    } };

    ghost invariant = { λ ready. ready.alone.room ≡ ready.found.room };
}

// The less of two numbers that may be there.
fn least(one: Option<u32>, other: Option<u32>) -> Option<u32>
    ensures { result ≡ least one other }
{
    match (one, other) {
        (Some(one), Some(other)) => Some(one.min(other)),
        (Some(one), None) => Some(one),
        (None, other) => other,
    }
}

// The number after one.
fn behind(x: u32) -> u32
    ensures { x < 4294967295 → result ≡ x + 1 }
{
    x.saturating_add(1)
}

// All accounts on which the item of a number stands.
fn touch_number(touched: &mut NumberSet, setting: &Setting, due: &DueItems, x: u32)
    ensures { (J : History) → KeepsDue setting.now.day J due.now → x < item_count setting.now.day
        → Touches setting.now.day (item_of setting.now.day x) touched.old touched.new }
{
    match due.item(x) {
        Some(item) => touch_item(touched, setting, item),
        None => {}
    }
}

// The amount of a payment while it is pending.
fn pending_amount(setting: &Setting, facts: &DayFacts, n: u32) -> Option<u64>
    ensures { (K : History) → StandsFor setting.now.day K facts.now
        → result ≡ pending_amount setting.now.day K n }
{
    if !facts.is_pending(setting, Item { msg: n, entry: 0 }) {
        return None;
    }
    match item_move(setting, n, 0) {
        Some(found) => Some(found.amount.get()),
        None => None,
    }
}

// The amount of a normal payment, of which this is the number.
fn put_normal(normals: &mut Normals, setting: &Setting, facts: &DayFacts, i: u32, item: Item)
    ensures room { normals.new.room ≡ normals.old.room }
    ensures puts { (K : History) → StandsFor setting.now.day K facts.now → i < item_count setting.now.day
        → item ≡ item_of setting.now.day i → HavePayments setting.now.day (length setting.now.day.messages) normals.old
        → PutsNormal setting.now.day K i normals.old normals.new }
{
    if item.entry != 0 {
        return;
    }
    if !is_normal(setting, item.msg) {
        return;
    }
    normals.put(
        payer(setting, item.msg),
        item.msg,
        pending_amount(setting, facts, item.msg),
    );
}

impl ReadyItems {
    /// Over no lines nothing is ready. All memory that is needed is taken here, and `Memory` says that there wasn't that much.
    /// The due items are those of no lines.
    pub fn with_room(alloc: Global, setting: &Setting, due: &DueItems) -> Result<ReadyItems, Memory>
        requires { KeepsDue setting.now.day [] due.now }
        ensures { IfOk result (λ ready. KeepsReady setting.now.day [] ready) }
    {
        let accounts = account_count(setting) + 1;
        let items = due.count();
        let touched = NumberSet::with_room(alloc, accounts)?;
        let alone = no_numbers(alloc, items, 0)?;
        let normals = Normals::with_room(alloc, setting, due)?;
        let found = Found::with_room(alloc, accounts, items, 0, message_count(setting) + 1)?;
        Ok(ReadyItems {
            normals,
            alone,
            found,
            touched,
            at: 0,
        })
    }

    // ---- a day that goes on

    /// Of no messages and no lines, of any day of at most so many accounts, with room for so many messages, with so many entries in all.
    /// All memory that is needed is taken here, and `Memory` says that there wasn't that much.
    pub fn empty(
        alloc: Global,
        accounts: u32,
        messages: u32,
        entries: u32,
    ) -> Result<ReadyItems, Memory>
        requires accounts { accounts ≤ MAX_ACCOUNTS }
        requires messages { messages ≤ MAX_MESSAGES }
        requires entries { entries ≤ MAX_ENTRIES_OF_DAY }
        ensures empty { (day : Day) → length day.accounts ≤ accounts
            → IfOk result (λ ready. KeepsReady (setup day) [] ready) }
        ensures room { IfOk result (λ ready. HasRoom messages entries ready) }
    {
        let touched = NumberSet::with_room(alloc, accounts + 1)?;
        let alone = no_numbers(alloc, 0, messages + entries)?;
        let normals = Normals::empty(alloc, accounts + 1, messages)?;
        let found = Found::with_room(alloc, accounts + 1, 0, messages + entries, messages + 1)?;
        Ok(ReadyItems {
            normals,
            alone,
            found,
            touched,
            at: 0,
        })
    }

    /// Message n of the setting's day comes, which is the next, once the due items have it. Nothing of it is ready before it is taken, and
    /// all else stays. Takes no memory, but room for it.
    pub fn arrive(&mut self, setting: &Setting, due: &DueItems, n: MessageNumber)
        requires room { HasRoom 1 (length (entries setting.now.day n)) self.old }
        ensures room { (messages more : ℕ)
            → HasRoom (messages + 1) (more + length (entries setting.now.day n)) self.old
            → HasRoom messages more self.new }
        ensures day { (day : Day) (m : Message) (ms : List Message) (ss : List ℕ) (J : History)
            → ComesNext setting.now.day n day m ms ss → StaysLegal day m J
            → KeepsDue (longer day (m ∷ []) []) J due.now
            → KeepsReady day J self.old → KeepsReady (longer day (m ∷ []) []) J self.new }
    {
        let count = entry_count(setting, n) + 1;
        self.normals.arrive(setting, due, n);
        self.alone.grow(count);
        self.found.grow(count);
    }

    // ---- a line

    // The item of a number.
    fn renew_item(&mut self, setting: &Setting, facts: &DayFacts, i: u32, item: Item)
        ensures room { HasSameRoom self.old self.new }
        ensures renews { (K : History) → StandsFor setting.now.day K facts.now
            → i < item_count setting.now.day → item ≡ item_of setting.now.day i
            → Fits setting.now.day self.old
            → Renews setting.now.day K (λ j. j ≡ i) self.old self.new }
    {
        set_number(&mut self.alone, i, by_itself(setting, facts, item));
        touch_item(&mut self.touched, setting, item);
        put_normal(&mut self.normals, setting, facts, i, item);
    }

    fn renew_number(&mut self, setting: &Setting, facts: &DayFacts, due: &DueItems, i: u32)
        ensures room { HasSameRoom self.old self.new }
        ensures renews { (K : History) → StandsFor setting.now.day K facts.now
            → KeepsDue setting.now.day K due.now → i < item_count setting.now.day
            → Fits setting.now.day self.old
            → Renews setting.now.day K (λ j. j ≡ i) self.old self.new }
    {
        match due.item(i) {
            Some(item) => self.renew_item(setting, facts, i, item),
            None => {}
        }
    }

    // All items that the due items tell of.
    fn renew_told(&mut self, setting: &Setting, facts: &DayFacts, due: &mut DueItems)
        ensures room { HasSameRoom self.old self.new }
        ensures index { due.new.index ≡ due.old.index }
        ensures ready { (K : History) → StandsFor setting.now.day K facts.now
            → KeepsDue setting.now.day K due.old → Fits setting.now.day self.old
            → Renews setting.now.day K (λ j. has due.old.renewed j ≡ true) self.old self.new }
        ensures due { (day : Day) (K : History) → KeepsDue day K due.old → KeepsDue day K due.new }
        ensures forgotten { IsEmpty due.new.renewed }
    {
        let mut from = 0;
        while let Some(i) = due.next_renewed(from) {
            self.renew_number(setting, facts, due, i);
            due.forget(i);
            from = i + 1;
        }
    }

    /// Notes the next line by its moves, once the facts and the due items have noted it, and forgets what the due items tell of: no
    /// item is among those that were brought up to date afterwards. Accounts on which there is a move, or whose queue an item may have entered or left, are to be renewed. Takes no memory.
    pub fn note(&mut self, setting: &Setting, facts: &DayFacts, due: &mut DueItems, moves: &[Move])
        ensures room { (messages more : ℕ) → HasRoom messages more self.old
            → HasRoom messages more self.new }
        ensures index { due.new.index ≡ due.old.index }
        ensures ready { (J : History) (l : Line) → l.moves ≡ moves.now
            → StandsFor setting.now.day (l ∷ J) facts.now → KeepsDue setting.now.day (l ∷ J) due.old
            → Tells setting.now.day J l due.old.renewed → KeepsReady setting.now.day J self.old
            → KeepsReady setting.now.day (l ∷ J) self.new }
        ensures due { (day : Day) (K : History) → KeepsDue day K due.old → KeepsDue day K due.new }
        ensures forgotten { IsEmpty due.new.renewed }
    {
        touch_moves(&mut self.touched, moves);
        self.renew_told(setting, facts, due);
    }

    // ---- accounts

    /// The next account from this number on that is to be renewed. Number 0 is that of names that are no account's.
    pub fn next_touched(&self, from: u32) -> Option<u32>
        ensures next { IsNext (has self.now.touched) from result }
        ensures within { IfSome result (λ a. a < length self.now.touched) }
        ensures small { length self.now.touched < 2 ^ 32 }
    {
        self.touched.next(from)
    }

    // The first normal payment that takes at most this much, from where the scan is on and round the end.
    fn normal_within(&self, a: u32, most: u64) -> Option<u32>
        ensures { (day : Day) (J : History) → is_sound day ≡ true → KeepsReady day J self.now
            → IsFirstRound (fits_normal day J a most) self.now.at result }
    {
        match self.normals.find(a, self.at, most) {
            Some(y) => Some(y),
            None => self.normals.find(a, 0, most),
        }
    }

    // The first one for which this much is enough: each must leave the same on the account.
    fn normal_candidate(&self, setting: &Setting, a: u32, money: u64) -> Option<u32>
        ensures { (J : History) → KeepsReady setting.now.day J self.now
            → IsFirstRound (goes_normal setting.now.day J a money) self.now.at result }
    {
        let left = kept(setting, a, false);
        if money < left {
            return None;
        }
        self.normal_within(a, money - left)
    }

    fn put_normal_candidate(&mut self, setting: &Setting, a: u32, money: u64)
        ensures room { self.new.found.room ≡ self.old.found.room }
        ensures same { self.new ≡ record {
          normals = self.old.normals;
          alone = self.old.alone;
          found = self.new.found;
          touched = self.old.touched;
          at = self.old.at;
        } }
        ensures found { (J : History) → IsHeadOn setting.now.day J a None
            → a < length self.old.touched → (1 ≤ a → money ≡ balance setting.now.day J a)
            → KeepsReady setting.now.day J self.old
            → IsFound setting.now.day J a self.old self.new }
    {
        let new = self.normal_candidate(setting, a, money);
        self.found.put(a, new);
    }

    fn put_head(&mut self, setting: &Setting, due: &DueItems, a: u32, head: Item, money: u64)
        ensures room { self.new.found.room ≡ self.old.found.room }
        ensures same { self.new ≡ record {
          normals = self.old.normals;
          alone = self.old.alone;
          found = self.new.found;
          touched = self.old.touched;
          at = self.old.at;
        } }
        ensures found { (J : History) → KeepsDue setting.now.day J due.now
            → IsHeadOn setting.now.day J a (Some head) → a < length self.old.touched
            → (1 ≤ a → money ≡ balance setting.now.day J a) → KeepsReady setting.now.day J self.old
            → IsFound setting.now.day J a self.old self.new }
    {
        let new = head_candidate(setting, due, a, head, money);
        if self.found.is_found(a, new) {
            return;
        }
        if is_b(setting, head.msg) {
            self.found.put_batch(setting, a, head.msg, new);
        } else {
            self.found.put(a, new);
        }
    }

    fn put_candidate(
        &mut self,
        setting: &Setting,
        due: &DueItems,
        pending: &PendingItems,
        a: u32,
        money: u64,
    )
        ensures room { self.new.found.room ≡ self.old.found.room }
        ensures same { self.new ≡ record {
          normals = self.old.normals;
          alone = self.old.alone;
          found = self.new.found;
          touched = self.old.touched;
          at = self.old.at;
        } }
        ensures found { (J : History) → KeepsDue setting.now.day J due.now
            → KeepsPending setting.now.day J pending.now → a < length self.old.touched
            → (1 ≤ a → money ≡ balance setting.now.day J a) → KeepsReady setting.now.day J self.old
            → IsFound setting.now.day J a self.old self.new }
    {
        match pending.head(setting, a) {
            Some(head) => self.put_head(setting, due, a, head, money),
            None => self.put_normal_candidate(setting, a, money),
        }
    }

    /// Finds the candidate of account a anew, which holds this much, in cents; what number 0 holds doesn't matter. Takes no memory.
    pub fn renew_account(
        &mut self,
        setting: &Setting,
        due: &DueItems,
        pending: &PendingItems,
        a: AccountNumber,
        money: u64,
    )
        requires within { a < length self.old.touched }
        ensures room { (messages more : ℕ) → HasRoom messages more self.old
            → HasRoom messages more self.new }
        ensures ready { (J : History) → KeepsDue setting.now.day J due.now
            → KeepsPending setting.now.day J pending.now
            → (1 ≤ a → money ≡ balance setting.now.day J a) → KeepsReady setting.now.day J self.old
            → KeepsReady setting.now.day J self.new }
        ensures renewed { self.new.touched ≡ slice_set self.old.touched a false }
        ensures still { self.new.at ≡ self.old.at }
    {
        self.put_candidate(setting, due, pending, a, money);
        set_member(&mut self.touched, a, false);
    }

    // ---- the scan

    /// The next member from where the scan is on.
    pub fn next(&self) -> Option<u32>
        ensures { IsNext (is_member self.now) self.now.at result }
    {
        least(self.alone.next(self.at), self.found.next(self.at))
    }

    /// The scan comes to the next member and goes after it. The account on which it is the candidate is to be renewed.
    pub fn pass(&mut self, setting: &Setting, due: &DueItems, number: u32)
        requires { IsNext (is_member self.old) self.old.at (Some number) }
        ensures room { (messages more : ℕ) → HasRoom messages more self.old
            → HasRoom messages more self.new }
        ensures ready { (J : History) → KeepsDue setting.now.day J due.now
            → KeepsReady setting.now.day J self.old → KeepsReady setting.now.day J self.new }
        ensures at { (J : History) → KeepsReady setting.now.day J self.old
            → self.new.at ≡ number + 1 }
    {
        touch_number(&mut self.touched, setting, due, number);
        self.at = behind(number);
    }

    /// The scan goes back to the beginning, once no member is left.
    pub fn turn_back(&mut self)
        requires { IsNext (is_member self.old) self.old.at None }
        ensures room { (messages more : ℕ) → HasRoom messages more self.old
            → HasRoom messages more self.new }
        ensures ready { (day : Day) (J : History) → KeepsReady day J self.old
            → KeepsReady day J self.new }
        ensures renewed { IsRenewed self.old → IsRenewed self.new }
        ensures at { self.new.at ≡ 0 }
    {
        self.at = 0;
    }

    /// The scan goes to a number. All accounts are to be renewed, where it isn't there already.
    pub fn move_to(&mut self, number: u32)
        ensures room { (messages more : ℕ) → HasRoom messages more self.old
            → HasRoom messages more self.new }
        ensures ready { (day : Day) (J : History) → KeepsReady day J self.old
            → KeepsReady day J self.new }
        ensures at { self.new.at ≡ number }
    {
        if self.at == number {
            return;
        }
        touch_all(&mut self.touched);
        self.at = number;
    }

    /// Where the scan is.
    pub fn at(&self) -> u32
        ensures { result ≡ self.now.at }
    {
        self.at
    }
}
