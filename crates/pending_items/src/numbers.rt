//! Items by number.
ghost use Rattle.std.specs.Prelude.{◌≡◌, ◌≤◌, ◌<◌, ◌^◌, suc, length, IfOk};
ghost use Rattle.pending_items.specs.Numbers.{is_item, number_count, number_in, start_in, starts_of};

use cash_amounts::Memory;
use refused_memory::push;
use rule_book::parts::{entry_count, message_count};
use rule_book::{Item, Setting};
use std::alloc::Global;

// The number of item 0 of each message, and the number after all.
pub fn new_starts(alloc: Global, setting: &Setting) -> Result<(Vec<u32>, u32), Memory>
    ensures starts { IfOk result (λ r. r.0.items ≡ starts_of setting.now.day) }
    ensures count { IfOk result (λ r. r.1 ≡ number_count setting.now.day) }
{
    let mut starts = Vec::new(alloc);
    let mut next = 1;
    for before in 0..message_count(setting) {
        push(&mut starts, next)?;
        next += entry_count(setting, before + 1) + 1;
    }
    Ok((starts, next))
}

fn start(starts: &[u32], n: u32) -> u32
    ensures { result ≡ start_in starts.now n }
{
    if n == 0 {
        return 0;
    }
    match starts.get(n as usize - 1) {
        Some(start) => *start,
        None => 0,
    }
}

// The number of an item, of messages whose items begin there.
pub fn number(starts: &[u32], item: Item) -> u32
    ensures { result ≡ number_in starts.now item }
{
    start(starts, item.msg).saturating_add(item.entry)
}

// Whether the day has the item.
pub fn is_item(setting: &Setting, item: Item) -> bool
    ensures { result ≡ is_item setting.now.day item }
{
    1 <= item.msg
        && item.msg <= message_count(setting)
        && item.entry <= entry_count(setting, item.msg)
}
