//! The entries of batches by the banks that own accounts of them, which grow message by message.
ghost use Rattle.std.specs.Prelude.{◌≡◌, ◌≤◌, ◌<◌, ◌+◌, ◌-◌, ◌*◌, ◌%◌, ◌^◌, [], ◌∷◌, ◌++◌, ℕ, true, false, drop, length, nat_eq, take, vec_capacity, vec_len, IfOk, IfSome};
ghost use Rattle.std.specs.List.{list_any};
ghost use Rattle.std.specs.Ordering.{nat_cmp};
ghost use Rattle.std.specs.List.Sorted.{IsSorted};
ghost use Rattle.refused_memory.specs.declared.lists.TheConstants.{MOST};
ghost use Rattle.batch_records.specs.Sound.{is_sound};
ghost use Rattle.machine.specs.Records.Messages.{entries, entry_at, move_of};
ghost use Rattle.machine.specs.Telling.Facts.{is_party};
ghost use Rattle.rule_book.specs.Parties.{Adds, AreBefore, AreListed, AreParties, Arrived, HasParts, IsListedBank, IsPlace, bank_number, entry_of, is_informed, is_joined, is_listed, is_party_at, joins, key, names_entry, owner_in, owner_numbers};
ghost use Rattle.rule_book.specs.Settings.{moves_of, setup_of};

use crate::batches::is_party;
use crate::item_moves::ItemMoves;
use crate::parts::{entries, entry, info_end};
use crate::setting::Setting;
use account_book::Book;
use batch_records::Day;
use cash_amounts::{AccountNumber, EntryNumber, MAX_ENTRIES, Memory, MessageNumber, Name};
use commit_journal::Move;
use refused_memory::with_capacity;
use std::alloc::Global;
use std::marker::Model;

/// Of each batch that states an end of its information period the entries of each bank that owns an account of them, as rising
/// keys of batch, bank and entry. A bank has the number of its first dedicated cash account. Messages come one after another, within
/// room.
#[derive(Drop)]
pub struct Parties {
    keys: Vec<u64>,
    own: Vec<u64>,
    numbers: Vec<u16>,
    most: usize,
}

impl Model for Parties {
    ghost use Rattle.std.specs.Prelude.{vec_capacity};
    ghost use Rattle.rule_book.specs.Parties.{HasKeys, Listed};

    ghost Value = { Listed };

    ghost view = { λ parties. record {
      keys = parties.keys.items;
      numbers = parties.numbers.items;
      most = parties.most;
    } };

    ghost invariant = { λ parties. HasKeys parties.keys.items parties.own.items parties.most
        (vec_capacity parties.keys) (vec_capacity parties.own) };
}

/// Room for them, which is taken before there is a day. Contracts see for how many accounts, and for how many keys.
#[derive(Drop)]
pub(crate) struct PartiesRoom {
    keys: Vec<u64>,
    own: Vec<u64>,
    numbers: Vec<u16>,
    accounts: usize,
    most: usize,
}

impl Model for PartiesRoom {
    ghost use Rattle.std.specs.Prelude.{vec_capacity};
    ghost use Rattle.rule_book.specs.Parties.{IsFree, PartyRoom};

    ghost Value = { PartyRoom };

    ghost view = { λ r. record { accounts = r.accounts; most = r.most } };

    ghost invariant = { λ r. IsFree r.keys.items r.own.items r.numbers.items r.accounts r.most
        (vec_capacity r.keys) (vec_capacity r.own) (vec_capacity r.numbers) };
}

// ---- keys

fn key(n: u32, bank: u16, k: u16) -> u64
    ensures { result ≡ key n bank k }
{
    (u64::from(n) * 65_536 + u64::from(bank)) * 65_536 + u64::from(k)
}

/// The entry of a key.
pub fn entry_of(key: u64) -> EntryNumber
    ensures { result ≡ entry_of key }
{
    (key % 65_536) as u32
}

// Where a key stands among rising ones, or would stand.
fn place(keys: &[u64], key: u64) -> usize
    ensures within { result ≤ length keys.now }
    ensures place { IsSorted nat_cmp keys.now → IsPlace keys.now key result }
{
    keys.partition_point(|other| *other < key)
}

fn between(keys: &[u64], start: usize, end: usize) -> &[u64]
    requires rises { start ≤ end }
    requires within { end ≤ length keys.now }
    ensures { result.now ≡ take (end - start) (drop start keys.now) }
{
    &keys[start..end]
}

// ---- the numbers of banks

// The number of a bank; 0 of a name that is no bank's.
fn bank_number(day: &Day, book: &Book, bank: &Name) -> u16
    requires sound { is_sound day.now ≡ true }
    requires filed { book.now ≡ setup_of day.now }
    ensures { result ≡ bank_number day.now bank.now }
{
    match book.first_dca(bank) {
        Some(a) => a as u16,
        None => 0,
    }
}

// Adds those of the owners of all accounts. Takes no memory.
fn push_owners(numbers: &mut Vec<u16>, day: &Day, book: &Book)
    requires sound { is_sound day.now ≡ true }
    requires filed { book.now ≡ setup_of day.now }
    requires room { vec_len numbers.old + length day.now.accounts ≤ vec_capacity numbers.old }
    ensures { numbers.new.items ≡ numbers.old.items ++ owner_numbers day.now }
{
    let accounts = day.accounts();
    for account in accounts {
        numbers.push_reserved(bank_number(day, book, &account.owner));
    }
}

// That of the owner of account a.
fn owner_at(numbers: &[u16], a: AccountNumber) -> u16
    ensures { result ≡ owner_in numbers.now a }
{
    if a == 0 {
        return 0;
    }
    match numbers.get(a as usize - 1) {
        Some(bank) => *bank,
        None => 0,
    }
}

// ---- one entry

// Adds the key of an entry of a bank. Takes no memory.
fn push_side(keys: &mut Vec<u64>, n: u32, bank: u16, k: u16)
    requires { vec_len keys.old < vec_capacity keys.old }
    ensures more { Adds n keys.old.items keys.new.items }
    ensures listed { nat_eq bank 0 ≡ false → is_listed keys.new.items (key n bank k) ≡ true }
    ensures len { vec_len keys.new ≤ vec_len keys.old + 1 }
    ensures capacity { vec_capacity keys.new ≡ vec_capacity keys.old }
{
    if bank != 0 {
        keys.push_reserved(key(n, bank, k));
    }
}

// Adds those of the banks that own the two accounts of a move.
fn push_sides(keys: &mut Vec<u64>, numbers: &[u16], n: u32, k: u16, found: Move)
    requires { vec_len keys.old + 2 ≤ vec_capacity keys.old }
    ensures more { Adds n keys.old.items keys.new.items }
    ensures listed { (b : ℕ) → nat_eq b 0 ≡ false → joins numbers.now b found ≡ true
        → is_listed keys.new.items (key n b k) ≡ true }
    ensures len { vec_len keys.new ≤ vec_len keys.old + 2 }
    ensures capacity { vec_capacity keys.new ≡ vec_capacity keys.old }
{
    push_side(keys, n, owner_at(numbers, found.debit), k);
    push_side(keys, n, owner_at(numbers, found.credit), k);
}

fn push_entry(keys: &mut Vec<u64>, numbers: &[u16], n: u32, k: u16, found: Option<Move>)
    requires { vec_len keys.old + 2 ≤ vec_capacity keys.old }
    ensures more { Adds n keys.old.items keys.new.items }
    ensures listed { (b : ℕ) → nat_eq b 0 ≡ false → is_joined numbers.now b found ≡ true
        → is_listed keys.new.items (key n b k) ≡ true }
    ensures len { vec_len keys.new ≤ vec_len keys.old + 2 }
    ensures capacity { vec_capacity keys.new ≡ vec_capacity keys.old }
{
    match found {
        Some(found) => push_sides(keys, numbers, n, k, found),
        None => {}
    }
}

// ---- one batch

// Adds the keys of the entries of batch n.
fn push_entries(keys: &mut Vec<u64>, numbers: &[u16], day: &Day, moves: &ItemMoves, n: u32)
    requires sound { is_sound day.now ≡ true }
    requires moved { moves.now.list ≡ moves_of day.now }
    requires numbered { numbers.now ≡ owner_numbers day.now }
    requires room { vec_len keys.old + 2 * length (entries day.now n) ≤ vec_capacity keys.old }
    ensures more { Adds n keys.old.items keys.new.items }
    ensures listed { AreListed day.now keys.new.items n }
    ensures len { vec_len keys.new ≤ vec_len keys.old + 2 * length (entries day.now n) }
    ensures capacity { vec_capacity keys.new ≡ vec_capacity keys.old }
{
    for before in 0..entries(day, n).len() as u16 {
        let found = moves.at(n, u32::from(before) + 1);
        push_entry(keys, numbers, n, before + 1, found);
    }
}

// Whether batch n states an end of its information period.
fn is_informed(day: &Day, n: u32) -> bool
    ensures { result ≡ is_informed day.now n }
{
    info_end(day, n).is_some()
}

// Adds them where banks may object to the batch.
fn push_message(keys: &mut Vec<u64>, numbers: &[u16], day: &Day, moves: &ItemMoves, n: u32)
    requires sound { is_sound day.now ≡ true }
    requires moved { moves.now.list ≡ moves_of day.now }
    requires numbered { numbers.now ≡ owner_numbers day.now }
    requires room { vec_len keys.old + 2 * length (entries day.now n) ≤ vec_capacity keys.old }
    ensures more { Adds n keys.old.items keys.new.items }
    ensures listed { is_informed day.now n ≡ true → AreListed day.now keys.new.items n }
    ensures len { vec_len keys.new ≤ vec_len keys.old + 2 * length (entries day.now n) }
    ensures capacity { vec_capacity keys.new ≡ vec_capacity keys.old }
{
    if is_informed(day, n) {
        push_entries(keys, numbers, day, moves, n);
    }
}

fn put_in_order(keys: &mut Vec<u64>)
    ensures sorted { IsSorted nat_cmp keys.new.items }
    ensures keeps { (x : ℕ) → is_listed keys.new.items x ≡ is_listed keys.old.items x }
    ensures len { vec_len keys.new ≡ vec_len keys.old }
    ensures capacity { vec_capacity keys.new ≡ vec_capacity keys.old }
{
    keys.sort_unstable();
}

// Puts keys after others.
fn append(keys: &mut Vec<u64>, more: &[u64])
    requires { vec_len keys.old + length more.now ≤ vec_capacity keys.old }
    ensures items { keys.new.items ≡ keys.old.items ++ more.now }
    ensures len { vec_len keys.new ≡ vec_len keys.old + length more.now }
    ensures capacity { vec_capacity keys.new ≡ vec_capacity keys.old }
{
    for key in more {
        keys.push_reserved(*key);
    }
}

// Puts the keys of message n after those of the messages before it, by a list that is empty and is so again.
fn arrive(
    keys: &mut Vec<u64>,
    own: &mut Vec<u64>,
    numbers: &[u16],
    day: &Day,
    moves: &ItemMoves,
    n: u32,
)
    requires sound { is_sound day.now ≡ true }
    requires moved { moves.now.list ≡ moves_of day.now }
    requires numbered { numbers.now ≡ owner_numbers day.now }
    requires before { AreBefore n keys.old.items }
    requires rising { IsSorted nat_cmp keys.old.items }
    requires room { vec_len keys.old + 2 * length (entries day.now n) ≤ vec_capacity keys.old }
    requires empty { own.old.items ≡ [] }
    requires own_room { 2 * length (entries day.now n) ≤ vec_capacity own.old }
    ensures arrived { Arrived day.now n keys.old.items keys.new.items }
    ensures len { vec_len keys.new ≤ vec_len keys.old + 2 * length (entries day.now n) }
    ensures capacity { vec_capacity keys.new ≡ vec_capacity keys.old }
    ensures empty { own.new.items ≡ [] }
    ensures own_room { vec_capacity own.new ≡ vec_capacity own.old }
{
    push_message(own, numbers, day, moves, n);
    put_in_order(own);
    append(keys, own.as_slice());
    own.clear();
}

impl PartiesRoom {
    // Room for so many accounts, and for so many entries of batches. `Memory` says that there wasn't that much.
    pub(crate) fn take(alloc: Global, accounts: usize, entries: u32) -> Result<PartiesRoom, Memory>
        requires { accounts ≤ MOST }
        ensures { IfOk result (λ room. room ≡ record { accounts = accounts; most = 2 * entries }) }
    {
        let most = 2 * entries as usize;
        let keys = with_capacity(alloc, most)?;
        let own = with_capacity(alloc, most.min(2 * MAX_ENTRIES))?;
        let numbers = with_capacity(alloc, accounts)?;
        Ok(PartiesRoom {
            keys,
            own,
            numbers,
            accounts,
            most,
        })
    }
}

impl Parties {
    // Of no messages, in room that was taken for them, with the numbers of the owners of the accounts of a sound day, by its book. Takes
    // no memory.
    pub(crate) fn in_room(room: PartiesRoom, day: &Day, book: &Book) -> Parties
        requires sound { is_sound day.now ≡ true }
        requires filed { book.now ≡ setup_of day.now }
        requires fits { length day.now.accounts ≤ room.accounts }
        ensures { result ≡ record { keys = []; numbers = owner_numbers day.now; most = room.most } }
    {
        let mut numbers = room.numbers;
        push_owners(&mut numbers, day, book);
        Parties {
            keys: room.keys,
            own: room.own,
            numbers,
            most: room.most,
        }
    }

    // Takes message n of a day, which comes next. Takes no memory.
    pub(crate) fn arrive(&mut self, day: &Day, moves: &ItemMoves, n: u32)
        requires sound { is_sound day.now ≡ true }
        requires moved { moves.now.list ≡ moves_of day.now }
        requires numbered { self.old.numbers ≡ owner_numbers day.now }
        requires before { AreBefore n self.old.keys }
        requires room { length self.old.keys + 2 * length (entries day.now n) ≤ self.old.most }
        ensures arrived { Arrived day.now n self.old.keys self.new.keys }
        ensures len { length self.new.keys ≤ length self.old.keys + 2 * length (entries day.now n) }
        ensures numbers { self.new.numbers ≡ self.old.numbers }
        ensures most { self.new.most ≡ self.old.most }
    {
        arrive(
            &mut self.keys,
            &mut self.own,
            self.numbers.as_slice(),
            day,
            moves,
            n,
        );
    }

    // Those of a sound day, by its book and the moves of its items. `Memory` says that there wasn't enough of it.
    pub(crate) fn build(
        alloc: Global,
        day: &Day,
        book: &Book,
        moves: &ItemMoves,
    ) -> Result<Parties, Memory>
        requires sound { is_sound day.now ≡ true }
        requires filed { book.now ≡ setup_of day.now }
        requires moved { moves.now.list ≡ moves_of day.now }
        ensures { IfOk result (λ parties. AreParties day.now parties) }
    {
        let count = day.message_count();
        let room = PartiesRoom::take(alloc, day.accounts().len(), day.entry_count() as u32)?;
        let mut parties = Parties::in_room(room, day, book);
        for before in 0..count as u32 {
            parties.arrive(day, moves, before + 1);
        }
        Ok(parties)
    }

    /// How many keys there are.
    pub fn count(&self) -> usize
        ensures { result ≡ length self.now.keys }
    {
        self.keys.len()
    }

    // Where the keys of a bank in a batch begin.
    fn start(&self, n: u32, bank: u16) -> usize
        ensures { IsPlace self.now.keys (key n bank 0) result }
    {
        place(self.keys.as_slice(), key(n, bank, 0))
    }

    // The keys of a bank in a batch.
    fn of(&self, n: u32, bank: u16) -> &[u64]
        ensures { (k : ℕ) → k < 65535 → is_listed self.now.keys (key n bank k) ≡ true
            → names_entry result.now k ≡ true }
    {
        let keys = self.keys.as_slice();
        let start = place(keys, key(n, bank, 0));
        let end = place(keys, key(n, bank, 65_535));
        between(keys, start, end)
    }
}

// ---- what a bank has in a batch

/// Whether the bank owns an account of entry k of a batch.
pub fn is_party_at(setting: &Setting, n: MessageNumber, bank: &Name, k: EntryNumber) -> bool
    ensures { result ≡ is_party_at setting.now.day n bank.now k }
{
    match entry(&setting.day, n, k) {
        Some(entry) => is_party(setting, bank.as_bytes(), entry),
        None => false,
    }
}

// The number of a bank, where the entries of batch n are found by the banks.
fn listed_bank(setting: &Setting, n: u32, bank: &Name) -> Option<u16>
    ensures { IfSome result (λ b. IsListedBank setting.now.day n bank.now b) }
{
    if !is_informed(&setting.day, n) {
        return None;
    }
    let b = bank_number(&setting.day, &setting.book, bank);
    if b == 0 {
        return None;
    }
    Some(b)
}

/// Keys of which each entry of batch n that the bank owns an account of is one's. `None` where they weren't found: of a batch to
/// which nobody can object, and of a name that is no bank's.
pub fn party_keys<'a>(setting: &'a Setting, n: MessageNumber, bank: &Name) -> Option<&'a [u64]>
    ensures { IfSome result (λ keys. HasParts setting.now.day n bank.now keys.now) }
{
    match listed_bank(setting, n, bank) {
        Some(b) => Some(setting.tables.parties.of(n, b)),
        None => None,
    }
}

/// A place that the keys of a bank in a batch have to themselves, where they were found.
pub fn party_place(setting: &Setting, n: MessageNumber, bank: &Name) -> Option<usize>
    ensures within { IfSome result (λ i. i ≤ length setting.now.tables.parties.keys) }
    ensures own { IfSome result (λ i. IsPlace setting.now.tables.parties.keys
        (key n (bank_number setting.now.day bank.now) 0) i) }
{
    match listed_bank(setting, n, bank) {
        Some(b) => Some(setting.tables.parties.start(n, b)),
        None => None,
    }
}

fn is_party_in(setting: &Setting, n: u32, bank: &Name, keys: &[u64]) -> bool
    ensures { result ≡ list_any (λ x. is_party_at setting.now.day n bank.now (entry_of x))
        keys.now }
{
    keys.iter()
        .any(|key| is_party_at(setting, n, bank, entry_of(*key)))
}

fn is_party_of_any(setting: &Setting, n: u32, bank: &Name) -> bool
    ensures { result ≡ list_any (is_party setting.now.day bank.now) (entries setting.now.day n) }
{
    entries(&setting.day, n)
        .iter()
        .any(|entry| is_party(setting, bank.as_bytes(), entry))
}

/// Whether the bank owns an account of some entry of a batch.
pub fn takes_part(setting: &Setting, n: MessageNumber, bank: &Name) -> bool
    ensures { result ≡ list_any (is_party setting.now.day bank.now) (entries setting.now.day n) }
{
    match party_keys(setting, n, bank) {
        Some(keys) => is_party_in(setting, n, bank, keys),
        None => is_party_of_any(setting, n, bank),
    }
}
