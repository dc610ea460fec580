//! Messages of one key, each with the one before it.
ghost use Rattle.std.specs.Prelude.{◌≡◌, ◌≤◌, ◌<◌, ◌+◌, ◌-◌, ℕ, None, Some, IfOk, map, replicate, slice_index_or, slice_set, vec_capacity, vec_len};
ghost use Rattle.std.specs.List.{range_with_len};
ghost use Rattle.std.specs.Option.{option_map_or};
ghost use Rattle.due_items.specs.declared.chain.Key.TheVariants as keys;
ghost use Rattle.due_items.specs.Chains.{chain_upto, entered, is_cycle_end, key_of, no_chain, system_of};
ghost use Rattle.due_items.specs.Pages.{ArePages, row_at, rows_in};

use batch_records::RecordBody;
use cash_amounts::{Memory, MessageNumber};
use refused_memory::{filled, with_capacity};
use rule_book::Setting;
use rule_book::parts::{earliest, info_end, message, stated_end};
use rule_book::sorts::is_c;
use std::alloc::Global;
use std::marker::Model;

// What the messages of a chain have alike.
#[derive(Clone, Copy)]
pub enum Key {
    // The end of an information period.
    Info,
    // An earliest time.
    From,
    // A stated settlement end.
    Till,
    // The system of a batch of C or of the end of a cycle, by number.
    Cycle,
}

// The number of the system that sent a message; 0 where none did.
pub fn system_of(setting: &Setting, n: MessageNumber) -> u32
    ensures { result ≡ system_of setting.now.day n }
{
    match message(&setting.day, n) {
        Some(message) => match setting.book.system(&message.sender) {
            Some(system) => system,
            None => 0,
        },
        None => 0,
    }
}

// Whether message n ends a cycle, where it is accepted.
pub fn is_cycle_end(setting: &Setting, n: MessageNumber) -> bool
    ensures { result ≡ is_cycle_end setting.now.day n }
{
    match message(&setting.day, n) {
        Some(message) => match message.body {
            RecordBody::Cycle { start } => !start,
            _ => false,
        },
        None => false,
    }
}

fn cycle_key(setting: &Setting, n: u32) -> Option<u32>
    ensures { result ≡ key_of keys.Cycle setting.now.day n }
{
    if is_c(setting, n) || is_cycle_end(setting, n) {
        Some(system_of(setting, n))
    } else {
        None
    }
}

fn key_of(setting: &Setting, key: Key, n: u32) -> Option<u32>
    ensures { result ≡ key_of key setting.now.day n }
{
    match key {
        Key::Info => info_end(&setting.day, n),
        Key::From => earliest(&setting.day, n),
        Key::Till => stated_end(&setting.day, n),
        Key::Cycle => cycle_key(setting, n),
    }
}

// One for each second from 0 to midnight; there are fewer systems.
fn seconds() -> usize
    ensures { result ≡ 86401 }
{
    86401
}

fn at(list: &[u32], i: usize) -> u32
    ensures { result ≡ slice_index_or list.now i 0 }
{
    match list.get(i) {
        Some(n) => *n,
        None => 0,
    }
}

// A page of 256 rows of 0 is put after those that are made.
fn add_page(pages: &mut Vec<u32>)
    requires { vec_len pages.old + 256 ≤ vec_capacity pages.old }
    ensures same { (i : ℕ) → slice_index_or pages.new.items i 0 ≡ slice_index_or pages.old.items i 0 }
    ensures long { vec_len pages.new ≡ vec_len pages.old + 256 }
    ensures capacity { vec_capacity pages.old ≤ vec_capacity pages.new }
{
    for _i in 0..256usize {
        pages.push_reserved(0);
    }
}

// The number of the page of these 256 seconds, which is made where there is none yet; no row changes.
fn make_page(top: &mut Vec<u32>, pages: &mut Vec<u32>, b: usize) -> u32
    requires pages { ArePages top.old.items pages.old.items }
    requires below { b < 338 }
    requires room { 86528 ≤ vec_capacity pages.old }
    ensures number { result ≡ slice_index_or top.new.items b 0 }
    ensures made { 1 ≤ result }
    ensures rows { rows_in top.new.items pages.new.items ≡ rows_in top.old.items pages.old.items }
    ensures pages { ArePages top.new.items pages.new.items }
    ensures room { 86528 ≤ vec_capacity pages.new }
{
    let page = at(top.as_slice(), b);
    if page != 0 {
        return page;
    }
    add_page(pages);
    let number = (pages.len() / 256) as u32;
    top[b] = number;
    number
}

// Sets a row, whose page is made where there is none.
fn put_row(top: &mut Vec<u32>, pages: &mut Vec<u32>, key: u32, n: u32)
    requires pages { ArePages top.old.items pages.old.items }
    requires room { 86528 ≤ vec_capacity pages.old }
    ensures rows { rows_in top.new.items pages.new.items ≡ slice_set (rows_in top.old.items pages.old.items) key n }
    ensures pages { ArePages top.new.items pages.new.items }
    ensures room { 86528 ≤ vec_capacity pages.new }
{
    if key as usize >= seconds() {
        return;
    }
    let page = make_page(top, pages, key as usize / 256);
    pages[(page as usize - 1) * 256 + key as usize % 256] = n;
}

// The row of a second; 0 where its page isn't made.
fn row_at(top: &[u32], pages: &[u32], key: u32) -> u32
    ensures { result ≡ row_at top.now pages.now key }
{
    let page = at(top, key as usize / 256);
    if page == 0 {
        return 0;
    }
    at(pages, (page as usize - 1) * 256 + key as usize % 256)
}

// The same of any number; after midnight all are 0.
fn row(top: &[u32], pages: &[u32], key: u32) -> u32
    ensures { result ≡ slice_index_or (rows_in top.now pages.now) key 0 }
{
    if key as usize >= seconds() {
        return 0;
    }
    row_at(top, pages, key)
}

// No 256 seconds have a page.
fn no_pages(alloc: Global) -> Result<Vec<u32>, Memory>
    ensures { IfOk result (λ top. top.items ≡ replicate 338 0) }
{
    filled(alloc, 0u32, 338)
}

// By key the last message that has it so far, or 0. The rows of 256 seconds are a page, which is made once one of them is set, so that
// a day of few keys fills few rows, wherever they are. There is room for all pages.
#[derive(Drop)]
struct Newest {
    // By 256 seconds the number of their page, from 1; 0 where it isn't made.
    top: Vec<u32>,
    // The rows of the pages, one page after another.
    pages: Vec<u32>,
}

impl Model for Newest {
    ghost use Rattle.std.specs.Prelude.{ℕ, List, ◌≤◌, vec_capacity};
    ghost use Rattle.due_items.specs.Pages.{ArePages, rows_in};

    ghost Value = { List ℕ };

    ghost view = { λ newest. rows_in newest.top.items newest.pages.items };

    ghost invariant = { λ newest. ArePages newest.top.items newest.pages.items × (86528 ≤ vec_capacity newest.pages) };
}

impl Newest {
    fn new(alloc: Global) -> Result<Newest, Memory>
        ensures { IfOk result (λ newest. newest ≡ map (λ i. 0) (range_with_len 0 86401)) }
    {
        let top = no_pages(alloc)?;
        let pages = with_capacity(alloc, 338 * 256)?;
        Ok(Newest { top, pages })
    }

    fn at(&self, key: u32) -> u32
        ensures { result ≡ slice_index_or self.now key 0 }
    {
        row(self.top.as_slice(), self.pages.as_slice(), key)
    }

    fn put(&mut self, key: u32, n: u32)
        ensures { self.new ≡ slice_set self.old key n }
    {
        put_row(&mut self.top, &mut self.pages, key, n);
    }

    // Enters message n under its key, and answers what stood there.
    fn enter(&mut self, key: Option<u32>, n: u32) -> u32
        ensures before { result ≡ option_map_or (λ t. slice_index_or self.old t 0) key 0 }
        ensures after { self.new ≡ entered key n self.old }
    {
        let Some(t) = key else {
            return 0;
        };
        let before = self.at(t);
        self.put(t, n);
        before
    }
}

#[derive(Drop)]
pub struct Chain {
    newest: Newest,
    older: Vec<u32>,
    // For how many more messages there is room.
    room: u32,
}

impl Model for Chain {
    ghost use Rattle.std.specs.Prelude.{◌≤◌, ◌<◌, ◌+◌, ◌^◌, vec_len, vec_capacity};
    ghost use Rattle.due_items.specs.Chains.{Chain, PointsDown};

    ghost Value = { Chain };

    ghost view = { λ chain. record { newest = chain.newest; older = chain.older.items; room = chain.room } };

    ghost invariant = { λ chain. PointsDown chain.newest chain.older.items
        × (vec_len chain.older + chain.room ≤ vec_capacity chain.older) };
}

impl Chain {
    // No message, and room for so many.
    pub fn empty(alloc: Global, room: u32) -> Result<Chain, Memory>
        ensures { IfOk result (λ chain. chain ≡ no_chain room) }
    {
        let older = with_capacity(alloc, room as usize)?;
        let newest = Newest::new(alloc)?;
        Ok(Chain {
            newest,
            older,
            room,
        })
    }

    // The next message comes, with its key. Takes no memory, but room for one.
    pub fn arrive(&mut self, setting: &Setting, key: Key, n: MessageNumber)
        ensures { (k : ℕ) → n ≡ k + 1 → 1 ≤ self.old.room
            → self.old ≡ chain_upto key setting.now.day k self.old.room
            → self.new ≡ chain_upto key setting.now.day n (self.old.room - 1) }
    {
        if self.room == 0 {
            return;
        }
        if self.older.len() + 1 != n as usize {
            return;
        }
        let before = self.newest.enter(key_of(setting, key, n), n);
        self.older.push_reserved(before);
        self.room -= 1;
    }

    // The last message that has the key, or 0.
    pub fn newest(&self, key: u32) -> u32
        ensures { result ≡ slice_index_or self.now.newest key 0 }
    {
        self.newest.at(key)
    }

    // The last message before message n that has its key, or 0.
    pub fn older(&self, n: MessageNumber) -> u32
        requires { 1 ≤ n }
        ensures before { result < n }
        ensures is { result ≡ slice_index_or self.now.older (n - 1) 0 }
    {
        at(self.older.as_slice(), n as usize - 1)
    }
}
