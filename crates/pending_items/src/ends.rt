//! The times at which items of a message may become pending, or cease to be: the end of its information period, its earliest time,
//! its settlement end, and midnight.
ghost use Rattle.std.specs.Prelude.{◌≡◌, ◌<◌, ◌+◌, ◌^◌, [], ℕ, Some, true, IfOk, length, slice_set};
ghost use Rattle.batch_records.specs.DayRecord.{Day};
ghost use Rattle.day_facts.specs.Facts.{StandsFor};
ghost use Rattle.least_tree.specs.Amounts.{fits_at, least};
ghost use Rattle.pending_items.specs.Items.{RenewsBy};
ghost use Rattle.commit_journal.specs.Line.{History};
ghost use Rattle.machine.specs.Telling.History.{clock};
ghost use Rattle.pending_items.specs.Ends.{AreEndsUpto, AreFirst, AreMoved, AreMovedOn, IsMovedOn, later, next_end};

use crate::end_list::EndList;
use crate::intake_order::IntakeOrder;
use crate::rows::ItemRows;
use cash_amounts::{Memory, MessageNumber, Seconds};
use day_facts::DayFacts;
use period_calendar::MIDNIGHT;
use rule_book::Setting;
use rule_book::parts::{earliest, info_end, message_count, settlement_end};
use std::alloc::Global;

// The end, where it comes after a time.
fn later(time: u32, end: Option<u32>) -> Option<u64>
    ensures { result ≡ later time end }
{
    match end {
        Some(end) if time < end => Some(u64::from(end)),
        _ => None,
    }
}

fn earlier(one: Option<u64>, other: Option<u64>) -> Option<u64>
    ensures { result ≡ least one other }
{
    match (one, other) {
        (Some(one), Some(other)) => Some(one.min(other)),
        (Some(one), None) => Some(one),
        (None, other) => other,
    }
}

// The first end of a message after a time.
fn next_end(setting: &Setting, n: u32, time: u32) -> Option<u64>
    ensures { result ≡ next_end setting.now.day n time }
{
    earlier(
        earlier(
            earlier(
                later(time, info_end(&setting.day, n)),
                later(time, earliest(&setting.day, n)),
            ),
            later(time, Some(settlement_end(&setting.day, n))),
        ),
        later(time, Some(MIDNIGHT)),
    )
}

fn set_end(ends: &mut EndList, n: u32, end: Option<u64>)
    requires { n < length ends.old.times }
    ensures times { ends.new.times ≡ slice_set ends.old.times n end }
    ensures room { ends.new.room ≡ ends.old.room }
{
    match end {
        Some(end) => ends.put(n, end),
        None => ends.take(n),
    }
}

// The next message comes, while the clock stands at a time: its first end after it. Takes no memory, but room for one.
pub fn end_arrives(ends: &mut EndList, setting: &Setting, n: MessageNumber, time: Seconds)
    requires { 0 < ends.old.room }
    ensures ends { (J : History) (k : ℕ) → n ≡ k + 1 → time ≡ clock J
        → AreEndsUpto setting.now.day k J ends.old.times
        → AreEndsUpto setting.now.day n J ends.new.times }
    ensures long { length ends.new.times ≡ length ends.old.times + 1 }
    ensures room { ends.new.room + 1 ≡ ends.old.room }
{
    ends.push(next_end(setting, n, time));
}

// No message, but for the number 0, of which no end is passed over, and room for so many.
pub fn no_ends(alloc: Global, most: u32) -> Result<EndList, Memory>
    requires { most + 1 < 2 ^ 32 }
    ensures ends { (day : Day) → IfOk result (λ ends. AreEndsUpto day 0 [] ends.times) }
    ensures long { IfOk result (λ ends. length ends.times ≡ 1) }
    ensures room { IfOk result (λ ends. ends.room ≡ most) }
{
    let mut ends = EndList::with_room(alloc, most + 1)?;
    ends.push(Some(0));
    Ok(ends)
}

// The first end of each message, by its number.
pub fn first_ends(alloc: Global, setting: &Setting) -> Result<EndList, Memory>
    ensures { IfOk result (λ ends. AreFirst setting.now.day ends.times) }
{
    let count = message_count(setting) + 1;
    let mut ends = EndList::with_room(alloc, count)?;
    for n in 0..count {
        ends.push(next_end(setting, n, 0));
    }
    Ok(ends)
}

// Puts the messages that end at a time into a list, by their In lines.
fn put_ending(order: &mut IntakeOrder, ends: &EndList, facts: &DayFacts, time: u32) {
    order.clear();
    let mut from = 0;
    while let Some(n) = ends.first(from, time as u64) {
        order.put(facts, n);
        from = n + 1;
    }
    order.sort();
}

// Of the first message, from the given one on, that ends at a time: its rows, and the end that it has next.
fn renew_first(
    rows: &mut ItemRows,
    ends: &mut EndList,
    setting: &Setting,
    facts: &DayFacts,
    time: u32,
    start: u32,
)
    ensures rows { RenewsBy setting.now.day facts.now (λ J x. IsMovedOn time ends.old.times ends.new.times x.msg)
        rows.old rows.new }
    ensures ends { AreMovedOn setting.now.day time ends.old.times ends.new.times }
    ensures room { ends.new.room ≡ ends.old.room }
{
    if let Some(n) = ends.first(start, time as u64) {
        rows.renew_message(setting, facts, n);
        set_end(ends, n, next_end(setting, n, time));
    }
}

// The same of the messages of a list, one after another, as far as they end at the time.
fn renew_listed(
    rows: &mut ItemRows,
    ends: &mut EndList,
    order: &IntakeOrder,
    setting: &Setting,
    facts: &DayFacts,
    time: u32,
)
    ensures rows { RenewsBy setting.now.day facts.now (λ J x. IsMovedOn time ends.old.times ends.new.times x.msg)
        rows.old rows.new }
    ensures ends { AreMovedOn setting.now.day time ends.old.times ends.new.times }
    ensures room { ends.new.room ≡ ends.old.room }
{
    for i in 0..order.len() {
        renew_first(rows, ends, setting, facts, time, order.message(i));
    }
}

// The same of all messages.
fn renew_each(
    rows: &mut ItemRows,
    ends: &mut EndList,
    setting: &Setting,
    facts: &DayFacts,
    time: u32,
)
    ensures rows { RenewsBy setting.now.day facts.now (λ J x. fits_at ends.old.times time x.msg ≡ true)
        rows.old rows.new }
    ensures ends { AreMoved setting.now.day time ends.old.times ends.new.times }
    ensures room { ends.new.room ≡ ends.old.room }
{
    let mut from = 0;
    while let Some(n) = ends.first(from, time as u64) {
        rows.renew_message(setting, facts, n);
        set_end(ends, n, next_end(setting, n, time));
        from = n + 1;
    }
}

// The clock comes to a time: the rows of the messages that end there, and the ends that these have next. Those of which the list has
// room come in the order of their In lines, in which their rows stand.
pub fn renew_ending(
    rows: &mut ItemRows,
    ends: &mut EndList,
    order: &mut IntakeOrder,
    setting: &Setting,
    facts: &DayFacts,
    time: Seconds,
)
    ensures rows { RenewsBy setting.now.day facts.now (λ J x. fits_at ends.old.times time x.msg ≡ true)
        rows.old rows.new }
    ensures ends { AreMoved setting.now.day time ends.old.times ends.new.times }
    ensures room { ends.new.room ≡ ends.old.room }
{
    put_ending(order, ends, facts, time);
    renew_listed(rows, ends, order, setting, facts, time);
    renew_each(rows, ends, setting, facts, time);
}
