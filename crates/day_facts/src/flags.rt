//! Flags in rows, of which it is known at once how many of a row stand.
ghost use Rattle.std.specs.Prelude.{◌≡◌, ◌+◌, ◌-◌, ◌<◌, ◌≤◌, ◌++◌, [], Some, IfOk, false, count_by, if◌then◌else◌, is_some, length, slice_index_or, slice_set, take};
ghost use Rattle.std.specs.Option.{option_map_or};
ghost use Rattle.refused_memory.specs.declared.lists.TheConstants.{MOST};
ghost use Rattle.number_set.specs.Next.{IsNext};
ghost use Rattle.machine.specs.Words.{numbered, when};
ghost use Rattle.machine.specs.Records.Messages.{entries};
ghost use Rattle.day_facts.specs.Left.{watched_row};
ghost use Rattle.day_facts.specs.Listed.{row_pushed, with_rows};
ghost use Rattle.day_facts.specs.Lists.{change_at, changed};
ghost use Rattle.rule_book.specs.Rows.{Rises, cut, spot_of};
ghost use Rattle.day_facts.specs.Rows.{IsCounted, count_in, flag_at, none_in};

use crate::watched::{Watched, is_watched};
use cash_amounts::{EntryNumber, Memory, MessageNumber};
use number_set::NumberSet;
use refused_memory::with_capacity;
use rule_book::Setting;
use rule_book::parts::entry_count;
use rule_book::rows::spot;
use std::alloc::Global;
use std::marker::Model;

// ---- flags as a set of numbers

fn put(items: &mut NumberSet, i: usize, flag: bool)
    ensures { items.new ≡ slice_set items.old i flag }
{
    if i >= items.bound() as usize {
        return;
    }
    if flag {
        items.insert(i as u32);
    } else {
        items.remove(i as u32);
    }
}

fn one_if(stands: bool) -> usize
    ensures { result ≡ (if stands then 1 else 0) }
{
    if stands { 1 } else { 0 }
}

// Puts the first flags of message n from this place on, and says how many of them stand.
fn fill(items: &mut NumberSet, start: u32, setting: &Setting, watched: Watched, n: u32) -> usize
    requires { start + (length (entries setting.now.day n) + 1) ≤ length items.old }
    ensures front { take (start + (length (entries setting.now.day n) + 1)) items.new
        ≡ take start items.old ++ watched_row watched setting.now.day n }
    ensures length { length items.new ≡ length items.old }
    ensures count { result ≡ count_by (λ flag. flag) (watched_row watched setting.now.day n) }
{
    let mut standing = 0;
    for k in 0..entry_count(setting, n) + 1 {
        let stands = is_watched(setting, watched, n, k);
        put(items, start as usize + k as usize, stands);
        standing += one_if(stands);
    }
    standing
}

fn flag_of(items: &NumberSet, i: usize) -> bool
    ensures { result ≡ slice_index_or items.now i false }
{
    if i >= items.bound() as usize {
        return false;
    }
    items.contains(i as u32)
}

fn lower(items: &mut NumberSet, i: usize)
    ensures { items.new ≡ change_at i (λ flag. false) items.old }
{
    if i < items.bound() as usize {
        items.remove(i as u32);
    }
}

// ---- flags in rows

// One fewer stands in row n.
fn count_down(standing: &mut [usize], n: u32)
    ensures { standing.new ≡ changed n (λ count. count - 1) standing.old }
{
    if n == 0 || n as usize > standing.len() {
        return;
    }
    standing[n as usize - 1] = standing[n as usize - 1].saturating_sub(1);
}

fn flag_in(ends: &[usize], items: &NumberSet, standing: &[usize], n: u32, k: u32) -> bool
    requires { IsCounted ends.now items.now standing.now }
    ensures { result ≡ flag_at (cut 0 ends.now items.now) n k }
{
    match spot(ends, n, k) {
        Some(i) => flag_of(items, i),
        None => false,
    }
}

fn lower_in(ends: &[usize], items: &mut NumberSet, standing: &mut [usize], n: u32, k: u32)
    requires { IsCounted ends.now items.old standing.old }
    ensures rows { cut 0 ends.now items.new
        ≡ changed n (λ row. slice_set row k false) (cut 0 ends.now items.old) }
    ensures counted { IsCounted ends.now items.new standing.new }
    ensures length { length items.new ≡ length items.old }
{
    let Some(i) = spot(ends, n, k) else {
        return;
    };
    if !flag_of(items, i) {
        return;
    }
    lower(items, i);
    count_down(standing, n);
}

// Item k of row n, where the row has it.
fn in_row(ends: &[usize], n: u32, k: u32) -> Option<u32>
    ensures { result ≡ when (is_some (spot_of ends.now n k)) k }
{
    match spot(ends, n, k) {
        Some(_) => Some(k),
        None => None,
    }
}

// The first flag of row n that stands, where the flags of the row begin there.
fn first_from(ends: &[usize], items: &NumberSet, n: u32, start: u32) -> Option<u32>
    requires rises { Rises 0 ends.now }
    requires start { Some start ≡ spot_of ends.now n 0 }
    ensures { IsNext (flag_at (cut 0 ends.now items.now) n) 0 result }
{
    match items.next(start) {
        Some(i) => in_row(ends, n, i.saturating_sub(start)),
        None => None,
    }
}

fn first_in(ends: &[usize], items: &NumberSet, n: u32) -> Option<u32>
    requires { Rises 0 ends.now }
    ensures { IsNext (flag_at (cut 0 ends.now items.now) n) 0 result }
{
    let Some(start) = spot(ends, n, 0) else {
        return None;
    };
    if start >= items.bound() as usize {
        return None;
    }
    first_from(ends, items, n, start as u32)
}

fn standing_at(standing: &[usize], n: u32) -> usize
    ensures { result ≡ option_map_or (λ count. count) (numbered standing.now n) 0 }
{
    if n == 0 {
        return 0;
    }
    match standing.get(n as usize - 1) {
        Some(count) => *count,
        None => 0,
    }
}

// For each message a row of flags, one for each of its items, and how many of a row stand. All flags stand in one list, at
// whose end some are free.
#[derive(Drop)]
pub struct FlagRows {
    ends: Vec<usize>,
    items: NumberSet,
    standing: Vec<usize>,
    free: u32,
}

impl Model for FlagRows {
    ghost use Rattle.std.specs.Prelude.{Bool, ◌-◌, vec_capacity, vec_len};
    ghost use Rattle.rule_book.specs.Rows.{cut};
    ghost use Rattle.day_facts.specs.Listed.{Rowed};
    ghost use Rattle.day_facts.specs.Rows.{AreHeld};

    ghost Value = { Rowed Bool };

    ghost view = { λ rows. record {
      rows = cut 0 rows.ends.items rows.items;
      room_for_rows = vec_capacity rows.ends - vec_len rows.ends;
      room_for_items = rows.free;
    } };

    ghost invariant = { λ rows. AreHeld rows.ends.items rows.items rows.standing.items rows.free
        (vec_capacity rows.ends) (vec_capacity rows.standing) };
}

impl FlagRows {
    // No rows, with room for so many, and for so many items in all of them.
    pub fn with_room(alloc: Global, rows: usize, items: u32) -> Result<FlagRows, Memory>
        requires { rows ≤ MOST }
        ensures { IfOk result (λ r.
            r ≡ record { rows = []; room_for_rows = rows; room_for_items = items }) }
    {
        let ends = with_capacity(alloc, rows)?;
        let standing = with_capacity(alloc, rows)?;
        let free = items;
        let items = NumberSet::with_room(alloc, free)?;
        Ok(FlagRows {
            ends,
            items,
            standing,
            free,
        })
    }

    // Takes message n, which comes next, with its first flags. Takes no memory.
    pub fn arrive(&mut self, setting: &Setting, watched: Watched, n: MessageNumber)
        requires rows { 0 < self.old.room_for_rows }
        requires items { length (entries setting.now.day n) + 1 ≤ self.old.room_for_items }
        ensures { self.new ≡ row_pushed (watched_row watched setting.now.day n) self.old }
    {
        let bound = self.items.bound();
        let start = bound - self.free;
        let standing = fill(&mut self.items, start, setting, watched, n);
        self.free -= entry_count(setting, n) + 1;
        self.ends.push_reserved((bound - self.free) as usize);
        self.standing.push_reserved(standing);
    }

    // Whether the flag of item k of message n stands. One that isn't there doesn't.
    pub fn stands(&self, n: MessageNumber, k: EntryNumber) -> bool
        ensures { result ≡ flag_at self.now.rows n k }
    {
        flag_in(
            self.ends.as_slice(),
            &self.items,
            self.standing.as_slice(),
            n,
            k,
        )
    }

    // Lets the flag of item k of message n fall, where it is there.
    pub fn fell(&mut self, n: MessageNumber, k: EntryNumber)
        ensures { self.new
            ≡ with_rows (changed n (λ row. slice_set row k false) self.old.rows) self.old }
    {
        lower_in(
            self.ends.as_slice(),
            &mut self.items,
            self.standing.as_mut_slice(),
            n,
            k,
        );
    }

    // The first item of message n whose flag stands.
    pub fn first(&self, n: MessageNumber) -> Option<u32>
        ensures { IsNext (flag_at self.now.rows n) 0 result }
    {
        first_in(self.ends.as_slice(), &self.items, n)
    }

    // How many flags of message n stand.
    pub fn count(&self, n: MessageNumber) -> usize
        ensures { result ≡ count_in self.now.rows n }
    {
        standing_at(self.standing.as_slice(), n)
    }

    // Whether none stands.
    #[tactic(auto, using(crate::proofs::RowLemmas::none_is))]
    pub fn none_stands(&self, n: MessageNumber) -> bool
        ensures { result ≡ none_in self.now.rows n }
    {
        self.count(n) == 0
    }
}
