// What a hall is opened from.
ghost use Rattle.std.specs.Prelude.{◌≡◌, ◌+◌, ◌*◌, ◌<◌, ◌≤◌, [], length, map, true, IfOk};
ghost use Rattle.cash_amounts.specs.Numbers.{numbered};
ghost use Rattle.settle_floor.specs.Floors.{IsFor, has_all};
ghost use Rattle.settle_floor.specs.Tills.{KeepsBalances};
ghost use Rattle.lock_book.specs.Groups.{Balanced, first_of, group_size};
ghost use Rattle.lock_book.specs.Kits.{IsPart, AreParts, ArePartsOf};

use crate::balances::Balances;
use crate::group::{Four, Part};
use cash_amounts::{Cents, Memory};
use journal_pass::{Pass, PassTable, Teller, open_table};
use refused_memory::{push, with_capacity};
use rule_book::Setting;
use rule_book::parts::account_count;
use settle_floor::Floor;
use std::alloc::Global;
use std::marker::Model;

// What a hall for a day needs beside the setting.
#[derive(Drop)]
pub(crate) struct Parts {
    pub(crate) table: PassTable,
    pub(crate) floor: Floor,
    pub(crate) teller: Teller,
    pub(crate) low: Four,
    pub(crate) high: Four,
    pub(crate) till: Balances,
    pub(crate) till_pass: Pass,
    pub(crate) first: Pass,
}

/// All that a hall needs, before it has a name. Contracts see the pass table and the day.
#[derive(Drop)]
pub struct HallKit {
    pub(crate) setting: Setting,
    pub(crate) parts: Parts,
}

impl Model for HallKit {
    ghost use Rattle.journal_pass.specs.Known.{TableOf};

    ghost Value = { TableOf };

    ghost use Rattle.lock_book.specs.Kits.{kit_of, IsKit};

    ghost view = { kit_of };

    ghost invariant = { IsKit };
}

// The least number of a group. Accounts count from 1, so it is 8 in group 0.
fn first_of(number: u32) -> u32
    requires { number < 8 }
    ensures value { result ≡ first_of number }
    ensures range { (0 < result) × (result ≤ 8) }
{
    if number == 0 { 8 } else { number }
}

// The opening balances of a group.
fn openings<const NUMBER: u32>(alloc: Global, setting: &Setting) -> Result<Vec<Cents>, Memory>
    requires { NUMBER < 8 }
    ensures count { IfOk result (λ v. length v.items
        ≡ group_size (length setting.now.day.accounts) NUMBER) }
    ensures balanced { IfOk result (λ v. Balanced setting.now.day [] NUMBER v.items) }
{
    let first = first_of(NUMBER);
    let count = (account_count(setting) + 8 - first) / 8;
    let mut balances = with_capacity(alloc, count as usize)?;
    for i in 0..count {
        push(&mut balances, setting.book.opening(i * 8 + first))?;
    }
    Ok(balances)
}

// A group that has seen nothing.
fn part<const NUMBER: u32>(
    alloc: Global,
    setting: &Setting,
    table: &PassTable,
    first: &mut Pass,
) -> Result<Part, Memory>
    requires number { NUMBER < 8 }
    requires first { first.old ≡ record {
      table = table.now.table;
      day = setting.now.day;
      lines = [];
      lane = 0;
    } }
    ensures same { first.new ≡ record {
      table = table.now.table;
      day = setting.now.day;
      lines = [];
      lane = 0;
    } }
    ensures part { IfOk result (λ p. IsPart table.now.table setting.now.day NUMBER p) }
{
    let balances = openings::<NUMBER>(alloc, setting)?;
    let pass = first.fork(table, 0);
    Ok(Part { balances, pass })
}

// Two groups that have seen nothing.
fn two<const A: u32, const B: u32>(
    alloc: Global,
    setting: &Setting,
    table: &PassTable,
    first: &mut Pass,
) -> Result<(Part, Part), Memory>
    requires number { (A < 8) × (B < 8) }
    requires first { first.old ≡ record {
      table = table.now.table;
      day = setting.now.day;
      lines = [];
      lane = 0;
    } }
    ensures same { first.new ≡ record {
      table = table.now.table;
      day = setting.now.day;
      lines = [];
      lane = 0;
    } }
    ensures one { IfOk result (λ t. IsPart table.now.table setting.now.day A t.0) }
    ensures other { IfOk result (λ t. IsPart table.now.table setting.now.day B t.1) }
{
    let a = part::<A>(alloc, setting, table, first)?;
    match part::<B>(alloc, setting, table, first) {
        Ok(b) => Ok((a, b)),
        Err(e) => {
            drop(a);
            Err(e)
        }
    }
}

// Four groups that have seen nothing.
fn four<const A: u32, const B: u32, const C: u32, const D: u32>(
    alloc: Global,
    setting: &Setting,
    table: &PassTable,
    first: &mut Pass,
) -> Result<Four, Memory>
    requires number { (A < 8) × (B < 8) × (C < 8) × (D < 8) }
    requires first { first.old ≡ record {
      table = table.now.table;
      day = setting.now.day;
      lines = [];
      lane = 0;
    } }
    ensures same { first.new ≡ record {
      table = table.now.table;
      day = setting.now.day;
      lines = [];
      lane = 0;
    } }
    ensures parts { IfOk result (λ four. AreParts table.now.table setting.now.day A B C D four) }
{
    let (a, b) = two::<A, B>(alloc, setting, table, first)?;
    match two::<C, D>(alloc, setting, table, first) {
        Ok((c, d)) => Ok(Four { a, b, c, d }),
        Err(e) => {
            drop(a);
            drop(b);
            Err(e)
        }
    }
}

// An empty floor for the day.
fn new_floor(alloc: Global, setting: &Setting) -> Result<Floor, Memory>
    ensures opened { IfOk result (λ floor. (floor.journal.history ≡ []) × IsFor setting.now.day floor) }
    ensures openings { IfOk result (λ floor. KeepsBalances
        (numbered (map (λ r. r.opening) setting.now.book.accounts)) setting.now.day []) }
    ensures all { IfOk result (λ floor. has_all
        (numbered (map (λ r. r.opening) setting.now.book.accounts)) setting.now.day ≡ true) }
{
    Floor::open(alloc, setting)
}

// A table for the day of the setting, its teller and a first pass.
fn new_passes(alloc: Global, setting: &Setting) -> Result<(PassTable, Teller, Pass), Memory>
    ensures table { IfOk result (λ t. t.0 ≡ record { table = t.0.table; day = setting.now.day }) }
    ensures teller { IfOk result (λ t. t.1
        ≡ record { table = t.0.table; day = setting.now.day; lines = [] }) }
    ensures first { IfOk result (λ t. t.2
        ≡ record { table = t.0.table; day = setting.now.day; lines = []; lane = 0 }) }
{
    open_table(alloc, &setting.day)
}

// The eight groups.
fn eight(
    alloc: Global,
    setting: &Setting,
    table: &PassTable,
    first: &mut Pass,
) -> Result<(Four, Four), Memory>
    requires { first.old ≡ record {
      table = table.now.table;
      day = setting.now.day;
      lines = [];
      lane = 0;
    } }
    ensures same { first.new ≡ record {
      table = table.now.table;
      day = setting.now.day;
      lines = [];
      lane = 0;
    } }
    ensures low { IfOk result (λ t. AreParts table.now.table setting.now.day 0 1 2 3 t.0) }
    ensures high { IfOk result (λ t. AreParts table.now.table setting.now.day 4 5 6 7 t.1) }
{
    let low = four::<0, 1, 2, 3>(alloc, setting, table, first)?;
    match four::<4, 5, 6, 7>(alloc, setting, table, first) {
        Ok(high) => Ok((low, high)),
        Err(e) => {
            drop(low);
            Err(e)
        }
    }
}

// What the end of a round is made on, and the floor.
fn till_and_floor(alloc: Global, setting: &Setting) -> Result<(Balances, Floor), Memory>
    ensures count { IfOk result (λ t. length t.0 ≡ length setting.now.day.accounts) }
    ensures opened { IfOk result (λ t. (t.1.journal.history ≡ []) × IsFor setting.now.day t.1) }
    ensures kept { IfOk result (λ t. KeepsBalances (numbered t.0) setting.now.day []) }
    ensures all { IfOk result (λ t. has_all (numbered t.0) setting.now.day ≡ true) }
{
    let till = Balances::open(alloc, setting)?;
    match new_floor(alloc, setting) {
        Ok(floor) => Ok((till, floor)),
        Err(e) => {
            drop(till);
            Err(e)
        }
    }
}

fn new_parts(alloc: Global, setting: &Setting) -> Result<Parts, Memory>
    ensures { IfOk result (λ parts. ArePartsOf setting.now.day parts) }
{
    let (table, teller, mut first) = new_passes(alloc, setting)?;
    match eight(alloc, setting, &table, &mut first) {
        Ok((low, high)) => {
            let till_pass = first.fork(&table, 0);
            match till_and_floor(alloc, setting) {
                Ok((till, floor)) => Ok(Parts {
                    table,
                    floor,
                    teller,
                    low,
                    high,
                    till,
                    till_pass,
                    first,
                }),
                Err(e) => {
                    drop(table);
                    drop(teller);
                    drop(first);
                    drop(low);
                    drop(high);
                    drop(till_pass);
                    Err(e)
                }
            }
        }
        Err(e) => {
            drop(table);
            drop(teller);
            drop(first);
            Err(e)
        }
    }
}

impl HallKit {
    /// The kit of a hall for the day of the setting. All memory that the hall can need is taken here. `Memory` says that there
    /// wasn't that much; the setting is dropped then.
    pub fn make(alloc: Global, setting: Setting) -> Result<HallKit, Memory>
        ensures { IfOk result (λ kit. kit.day ≡ setting.day) }
    {
        let parts = new_parts(alloc, &setting)?;
        Ok(HallKit { setting, parts })
    }
}
