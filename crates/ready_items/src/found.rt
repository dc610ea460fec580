//! Of each account its candidate, and which numbers are members by that.
ghost use Rattle.std.specs.Prelude.{◌≡◌, ◌≤◌, ◌<◌, ◌+◌, ◌^◌, None, false, true, filter, map, replicate, slice_set, IfOk, IfSome};
ghost use Rattle.std.specs.List.{list_all};
ghost use Rattle.number_set.specs.Members.{has};
ghost use Rattle.number_set.specs.Next.{IsNext};
ghost use Rattle.rule_book.specs.Moves.{goes_to};
ghost use Rattle.ready_items.specs.Found.{candidate, is_all_of, is_candidate, is_whole_of, replaced, with_if, with_numbers, without};

use cash_amounts::{AccountNumber, Memory, MessageNumber};
use commit_journal::Move;
use growing_set::GrowingSet;
use number_set::NumberSet;
use refused_memory::filled;
use rule_book::Setting;
use rule_book::batches::{debtor, debtor_number, goes_to, gross, technical_of};
use rule_book::parts::entry_moves;
use std::alloc::Global;
use std::marker::Model;

#[derive(Drop)]
pub struct Found {
    // By account the number of its candidate.
    candidates: Vec<Option<u32>>,
    members: GrowingSet,
    // By message the number under which a debtor account of a batch is entered that had another candidate: a hint, on which no answer
    // rests.
    hints: Vec<u32>,
}

impl Model for Found {
    ghost use Rattle.ready_items.specs.Found.{Found};

    ghost Value = { Found };

    ghost view = { λ found. record {
      candidates = found.candidates.items;
      members = found.members.set;
      room = found.members.room;
    } };
}

// So many accounts without a candidate.
fn no_candidates(alloc: Global, count: u32) -> Result<Vec<Option<u32>>, Memory>
    ensures { IfOk result (λ candidates. candidates.items ≡ replicate count None) }
{
    filled(alloc, None, count as usize)
}

// So many hints that say nothing.
fn no_hints(alloc: Global, count: u32) -> Result<Vec<u32>, Memory> {
    filled(alloc, 0, count as usize)
}

// Makes a number a member or none. The others stay.
pub fn set_member(set: &mut NumberSet, i: u32, member: bool)
    ensures { set.new ≡ slice_set set.old i member }
{
    if i >= set.bound() {
        return;
    }
    if member {
        set.insert(i);
    } else {
        set.remove(i);
    }
}

// The same in a set that grows.
pub fn set_number(set: &mut GrowingSet, i: u32, member: bool)
    ensures set { set.new.set ≡ slice_set set.old.set i member }
    ensures room { set.new.room ≡ set.old.room }
{
    if i >= set.bound() {
        return;
    }
    if member {
        set.insert(i);
    } else {
        set.remove(i);
    }
}

// No numbers are members, of so many and with room for so many more.
pub fn no_numbers(alloc: Global, count: u32, more: u32) -> Result<GrowingSet, Memory>
    requires { count + more < 2 ^ 32 }
    ensures { IfOk result (λ set. set ≡ record { set = replicate count false; room = more }) }
{
    let mut set = GrowingSet::with_room(alloc, count + more)?;
    set.grow(count);
    Ok(set)
}

fn set_candidate(candidates: &mut [Option<u32>], a: u32, new: Option<u32>)
    ensures { candidates.new ≡ slice_set candidates.old a new }
{
    if a as usize >= candidates.len() {
        return;
    }
    candidates[a as usize] = new;
}

impl Found {
    // So many accounts without a candidate, and so many numbers that are no members, with room for so many more, over so many messages.
    pub fn with_room(
        alloc: Global,
        accounts: u32,
        items: u32,
        more: u32,
        messages: u32,
    ) -> Result<Found, Memory>
        requires { items + more < 2 ^ 32 }
        ensures { IfOk result (λ found. found
            ≡ record { candidates = replicate accounts None; members = replicate items false; room = more }) }
    {
        let candidates = no_candidates(alloc, accounts)?;
        let members = no_numbers(alloc, items, more)?;
        let hints = no_hints(alloc, messages)?;
        Ok(Found {
            candidates,
            members,
            hints,
        })
    }

    // So many numbers more, which are no members. There is room for them.
    pub fn grow(&mut self, more: u32)
        requires { more ≤ self.old.room }
        ensures { self.new ≡ with_numbers more self.old }
    {
        self.members.grow(more);
    }

    pub fn candidate(&self, a: AccountNumber) -> Option<u32>
        ensures { result ≡ candidate self.now a }
    {
        match self.candidates.as_slice().get(a as usize) {
            Some(candidate) => *candidate,
            None => None,
        }
    }

    pub fn next(&self, from: u32) -> Option<u32>
        ensures { IsNext (has self.now.members) from result }
    {
        self.members.next(from)
    }

    // Whether the number is the candidate of the account.
    fn is_candidate(&self, y: u32, a: u32) -> bool
        ensures { result ≡ is_candidate self.now y a }
    {
        match self.candidate(a) {
            Some(other) => y == other,
            None => false,
        }
    }

    // Whether the candidate of account a is this one already.
    pub fn is_found(&self, a: AccountNumber, new: Option<u32>) -> bool
        ensures { result ≡ true → candidate self.now a ≡ new }
    {
        match (self.candidate(a), new) {
            (Some(old), Some(new)) => old == new,
            (None, None) => true,
            _ => false,
        }
    }

    // Whether it is that of all accounts from which these moves go to the technical account.
    fn is_all_in(&self, moves: &[Move], technical: Option<u32>, y: u32) -> bool
        ensures { result ≡ list_all (is_candidate self.now y)
            (map (λ m. m.debit) (filter (goes_to technical) moves.now)) }
    {
        moves
            .iter()
            .filter(|found| goes_to(found, technical))
            .map(|found| found.debit)
            .all(|a| self.is_candidate(y, a))
    }

    // Whether it is that of all debtor accounts of batch n.
    fn is_all_of(&self, setting: &Setting, n: u32, y: u32) -> bool
        ensures { result ≡ is_all_of setting.now.day self.now n y }
    {
        self.is_all_in(entry_moves(setting, n), technical_of(setting, n), y)
    }

    // Whether batch n takes something from account a, which has another candidate.
    fn lacks_account(&self, setting: &Setting, n: u32, y: u32, a: u32) -> bool
        ensures { result ≡ true → is_all_of setting.now.day self.now n y ≡ false }
    {
        if self.is_candidate(y, a) {
            return false;
        }
        0 < gross(setting, n, a)
    }

    // The same of the account that is entered under number i, where that is one of the batch.
    fn lacks_debtor(&self, setting: &Setting, n: u32, y: u32, i: u32) -> Option<bool>
        ensures { IfSome result (λ lacks. lacks ≡ true
            → is_all_of setting.now.day self.now n y ≡ false) }
    {
        match debtor(setting, n, i) {
            Some(a) => Some(self.lacks_account(setting, n, y, a)),
            None => None,
        }
    }

    // The first number from this one on under which such an account is entered, as long as accounts of the batch are.
    fn next_lacking(&self, setting: &Setting, n: u32, y: u32, from: u32) -> Option<u32>
        ensures { IfSome result (λ i. is_all_of setting.now.day self.now n y ≡ false) }
    {
        for i in from..u32::MAX {
            match self.lacks_debtor(setting, n, y, i) {
                Some(true) => return Some(i),
                Some(false) => {}
                None => return None,
            }
        }
        None
    }

    // The last one before this number.
    fn last_lacking(&self, setting: &Setting, n: u32, y: u32, from: u32) -> Option<u32>
        ensures { IfSome result (λ i. is_all_of setting.now.day self.now n y ≡ false) }
    {
        for back in 0..from {
            let i = from - 1 - back;
            match self.lacks_debtor(setting, n, y, i) {
                Some(true) => return Some(i),
                Some(false) => {}
                None => return None,
            }
        }
        None
    }

    // One of all of the batch, of which one is entered under this number.
    fn lacking_around(&self, setting: &Setting, n: u32, y: u32, from: u32) -> Option<u32>
        ensures { IfSome result (λ i. is_all_of setting.now.day self.now n y ≡ false) }
    {
        match self.next_lacking(setting, n, y, from) {
            Some(i) => Some(i),
            None => self.last_lacking(setting, n, y, from),
        }
    }

    fn hint(&self, n: u32) -> u32 {
        match self.hints.as_slice().get(n as usize) {
            Some(hint) => *hint,
            None => 0,
        }
    }

    fn set_hint(&mut self, n: u32, hint: u32)
        ensures { self.new ≡ self.old }
    {
        if n as usize >= self.hints.len() {
            return;
        }
        self.hints[n as usize] = hint;
    }

    // The number under which an account of batch n is entered: that of the hint, or that of account a.
    fn start(&self, setting: &Setting, n: u32, a: u32) -> Option<u32> {
        let hint = self.hint(n);
        if debtor(setting, n, hint).is_some() {
            return Some(hint);
        }
        debtor_number(setting, n, a)
    }

    // Where a debtor account of batch n is entered that has another candidate, if it is found.
    fn lacking(&self, setting: &Setting, n: u32, y: u32, a: u32) -> Option<u32>
        ensures { IfSome result (λ i. is_all_of setting.now.day self.now n y ≡ false) }
    {
        match self.start(setting, n, a) {
            Some(i) => self.lacking_around(setting, n, y, i),
            None => None,
        }
    }

    // Whether number y is the candidate of all debtor accounts of batch n, one of which is a. These accounts are entered one after
    // another: they are gone along for one that lacks it, from where the last call found one, as accounts mostly get it one after
    // another, each in a call. So a call takes as many short steps as the batch has debtor accounts at most, and only where all have
    // it the entries are gone along.
    fn has_all_of(&mut self, setting: &Setting, n: u32, y: u32, a: u32) -> bool
        ensures answer { result ≡ is_all_of setting.now.day self.old n y }
        ensures same { self.new ≡ self.old }
    {
        match self.lacking(setting, n, y, a) {
            Some(i) => {
                self.set_hint(n, i);
                false
            }
            None => self.is_all_of(setting, n, y),
        }
    }

    fn leave(&mut self, old: Option<u32>)
        ensures { self.new ≡ record {
          candidates = self.old.candidates;
          members = without old self.old.members;
          room = self.old.room;
        } }
    {
        match old {
            Some(y) => set_number(&mut self.members, y, false),
            None => {}
        }
    }

    // Another candidate of account a. The old one is no member.
    fn replace(&mut self, a: u32, new: Option<u32>)
        ensures { self.new ≡ replaced a new self.old }
    {
        self.leave(self.candidate(a));
        set_candidate(&mut self.candidates, a, new);
    }

    fn enter_if(&mut self, enters: bool, new: Option<u32>)
        ensures { self.new ≡ with_if enters new self.old }
    {
        if !enters {
            return;
        }
        match new {
            Some(y) => set_number(&mut self.members, y, true),
            None => {}
        }
    }

    // The candidate of account a is this one, which stands on no other, or none.
    pub fn put(&mut self, a: AccountNumber, new: Option<u32>)
        ensures { self.new ≡ with_if true new (replaced a new self.old) }
    {
        self.replace(a, new);
        self.enter_if(true, new);
    }

    fn is_whole(&mut self, setting: &Setting, n: u32, new: Option<u32>, a: u32) -> bool
        ensures answer { result ≡ is_whole_of setting.now.day self.old n new }
        ensures same { self.new ≡ self.old }
    {
        match new {
            Some(y) => self.has_all_of(setting, n, y, a),
            None => false,
        }
    }

    // The candidate of account a is batch n of B, or none. It is a member where it is that of all its debtor accounts.
    pub fn put_batch(
        &mut self,
        setting: &Setting,
        a: AccountNumber,
        n: MessageNumber,
        new: Option<u32>,
    )
        ensures { self.new ≡ with_if (is_whole_of setting.now.day (replaced a new self.old) n new)
            new (replaced a new self.old) }
    {
        self.replace(a, new);
        let whole = self.is_whole(setting, n, new, a);
        self.enter_if(whole, new);
    }
}
