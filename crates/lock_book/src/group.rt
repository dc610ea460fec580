// What lies behind the lock of a group: the balances of its accounts, and a pass that has seen the lines that they are over.
ghost use Rattle.std.specs.Prelude.{◌≡◌, ◌+◌, ◌-◌, ◌*◌, ◌/◌, ◌%◌, ◌<◌, ◌≤◌, ℕ, true, false, length, nat_eq, slice_index, MatchOption};
ghost use Rattle.cash_amounts.specs.declared.cents.TheConstants.{MAX_CENTS};
ghost use Rattle.batch_records.specs.Sound.{is_sound};
ghost use Rattle.commit_journal.specs.Histories.{Begins, oldest};
ghost use Rattle.machine.specs.Telling.Balances.{balance};
ghost use Rattle.machine.specs.Legal.{IsLegal};
ghost use Rattle.lock_book.specs.Groups.{account_at, CanMoveIn, first_of};
ghost use Rattle.lock_book.specs.Kits.{IsPart};
ghost use Rattle.lock_book.specs.Locked.{is_account};
ghost use Rattle.lock_book.specs.Moving.{all_moved_at, CanMoveAt, moved_at, only_at};

use crate::amounts::{less, more};
use crate::name::HallName;
use cash_amounts::Cents;
use commit_journal::{Journal, Move};
use journal_pass::{Pass, PassTable, Teller};
use std::marker::{Model, PhantomData};

/// The accounts of the hall's day whose number leaves NUMBER when it is divided by 8: what each holds, and a pass. Contracts see
/// the lines that the pass has seen, the newest first; the balances are those over these lines.
#[derive(Drop)]
pub struct Group<H: HallName, const NUMBER: u32> {
    balances: Vec<Cents>,
    pass: Pass,
    of: PhantomData<H>,
}

impl<H: HallName, const NUMBER: u32> Model for Group<H, NUMBER> {
    ghost use Rattle.std.specs.Prelude.{List};
    ghost use Rattle.commit_journal.specs.Line.{Line};
    ghost use Rattle.lock_book.specs.Groups.{IsGroup};

    ghost Value = { List Line };

    ghost view = { λ g. g.pass.lines };

    ghost invariant = { λ g. IsGroup H.table H.day NUMBER g.pass g.balances.items };
}

// The balances of a group and its pass, before the hall has a name.
#[derive(Drop)]
pub(crate) struct Part {
    pub(crate) balances: Vec<Cents>,
    pub(crate) pass: Pass,
}

// Four groups, before the hall has a name.
#[derive(Drop)]
pub(crate) struct Four {
    pub(crate) a: Part,
    pub(crate) b: Part,
    pub(crate) c: Part,
    pub(crate) d: Part,
}

// The place of an account in a group of so many accounts, from 0. None where it isn't one of them.
fn place_in<const NUMBER: u32>(a: u32, count: usize) -> Option<usize>
    requires { NUMBER < 8 }
    ensures { MatchOption result ((i : ℕ) → i < count → nat_eq a (account_at NUMBER i) ≡ false)
        (λ p. (p < count) × (a ≡ account_at NUMBER p)) }
{
    if a == 0 {
        return None;
    }
    if a % 8 != NUMBER {
        return None;
    }
    let place = ((a - 1) / 8) as usize;
    if place < count { Some(place) } else { None }
}

// Takes the amount from the account, if it is one of these.
fn take<const NUMBER: u32>(balances: &mut Vec<Cents>, account: u32, amount: Cents)
    requires number { NUMBER < 8 }
    requires covered { (i : ℕ) → i < length balances.old.items
        → only_at (account_at NUMBER i) account amount ≤ slice_index balances.old.items i }
    ensures count { length balances.new.items ≡ length balances.old.items }
    ensures each { (i : ℕ) → i < length balances.old.items
        → slice_index balances.new.items i
        ≡ slice_index balances.old.items i - only_at (account_at NUMBER i) account amount }
{
    if let Some(place) = place_in::<NUMBER>(account, balances.len()) {
        balances[place] = less(balances[place], amount);
    }
}

// Gives the amount to the account, if it is one of these.
fn give<const NUMBER: u32>(balances: &mut Vec<Cents>, account: u32, amount: Cents)
    requires number { NUMBER < 8 }
    requires fits { (i : ℕ) → i < length balances.old.items
        → slice_index balances.old.items i + only_at (account_at NUMBER i) account amount
        ≤ MAX_CENTS }
    ensures count { length balances.new.items ≡ length balances.old.items }
    ensures each { (i : ℕ) → i < length balances.old.items
        → slice_index balances.new.items i
        ≡ slice_index balances.old.items i + only_at (account_at NUMBER i) account amount }
{
    if let Some(place) = place_in::<NUMBER>(account, balances.len()) {
        balances[place] = more(balances[place], amount);
    }
}

// Makes a move on the accounts that it touches, if they are some of these.
fn carry<const NUMBER: u32>(balances: &mut Vec<Cents>, one: Move)
    requires number { NUMBER < 8 }
    requires can { (i : ℕ) → i < length balances.old.items
        → CanMoveAt (account_at NUMBER i) one (slice_index balances.old.items i) }
    ensures count { length balances.new.items ≡ length balances.old.items }
    ensures each { (i : ℕ) → i < length balances.old.items
        → slice_index balances.new.items i
        ≡ moved_at (account_at NUMBER i) one (slice_index balances.old.items i) }
{
    take::<NUMBER>(balances, one.debit, one.amount);
    give::<NUMBER>(balances, one.credit, one.amount);
}

// Makes moves, one after the other.
fn carry_all<const NUMBER: u32>(balances: &mut Vec<Cents>, moves: &[Move])
    requires number { NUMBER < 8 }
    requires can { CanMoveIn NUMBER moves.now balances.old.items }
    ensures count { length balances.new.items ≡ length balances.old.items }
    ensures each { (i : ℕ) → i < length balances.old.items
        → slice_index balances.new.items i
        ≡ all_moved_at (account_at NUMBER i) moves.now (slice_index balances.old.items i) }
{
    for one in moves {
        carry::<NUMBER>(balances, *one);
    }
}

impl<H: HallName, const NUMBER: u32> Group<H, NUMBER> {
    pub(crate) fn new(part: Part) -> Group<H, NUMBER>
        requires { IsPart H.table H.day NUMBER part }
        ensures { result ≡ part.pass.lines }
    {
        let Part { balances, pass } = part;
        Group {
            balances,
            pass,
            of: PhantomData,
        }
    }

    // Whether an account of this number, which goes to this group, is one of the day's.
    pub(crate) fn has(&self, a: u32) -> bool
        requires { a % 8 ≡ NUMBER }
        ensures { result ≡ is_account H.day a }
    {
        if a == 0 {
            return false;
        }
        (((a - 1) / 8) as usize) < self.balances.len()
    }

    // What an account of the group holds, over the lines that the group has seen.
    pub(crate) fn balance(&self, a: u32) -> Cents
        requires number { a % 8 ≡ NUMBER }
        requires account { is_account H.day a ≡ true }
        ensures { result ≡ balance H.day self.now a }
    {
        self.balances[((a - 1) / 8) as usize]
    }

    // Sees the whole journal, and makes the moves of the lines that it hadn't seen.
    pub(crate) fn catch_up(&mut self, table: &PassTable, teller: &mut Teller, journal: &Journal)
        requires table { (table.now.table ≡ H.table) × (teller.old.table ≡ H.table) }
        requires sound { is_sound H.day ≡ true }
        requires legal { IsLegal H.day journal.now.history }
        requires whole { journal.now.history ≡ teller.old.lines }
        ensures teller { teller.new ≡ teller.old }
        ensures before { Begins self.old self.new }
        ensures seen { self.new ≡ journal.now.history }
    {
        let Group { balances, pass, .. } = self;
        let from = pass.seen();
        let end = pass.look(table, teller, journal);
        for place in from..end {
            let (_, moves) = journal.line(place + 1);
            carry_all::<NUMBER>(balances, moves);
        }
    }
}
