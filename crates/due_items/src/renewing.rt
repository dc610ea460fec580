//! Flags of items, brought up to date one by one.
ghost use Rattle.std.specs.Prelude.{◌≡◌, ◌≤◌, ◌<◌, ◌+◌, ℕ, length};
ghost use Rattle.commit_journal.specs.Line.{History};
ghost use Rattle.day_facts.specs.Facts.{StandsFor};
ghost use Rattle.due_items.specs.declared.chain.Key.TheVariants as keys;
ghost use Rattle.due_items.specs.Chains.{has_key, last_of};
ghost use Rattle.due_items.specs.Noting.{is_end_before};
ghost use Rattle.due_items.specs.Due.{is_due};
ghost use Rattle.due_items.specs.Index.{IsIndexOf};
ghost use Rattle.due_items.specs.Renewing.{HaveRoom, IsBelow, IsDownTo, IsOf, IsThis, Renews, RenewsBy};

use crate::chain::{Key, is_cycle_end};
use crate::flags::Flags;
use crate::index::Index;
use crate::wants::want_of;
use cash_amounts::{EntryNumber, MessageNumber};
use commit_journal::Code;
use day_facts::DayFacts;
use rule_book::parts::{entry_count, message_count, sender};
use rule_book::{Item, Setting};

fn is_due(setting: &Setting, facts: &DayFacts, item: Item) -> bool
    ensures { (J : History) → StandsFor setting.now.day J facts.now
        → result ≡ is_due setting.now.day J item }
{
    want_of(setting, facts, item).is_some()
}

// Item k of message n.
pub fn renew_item(
    flags: &mut Flags,
    index: &Index,
    setting: &Setting,
    facts: &DayFacts,
    n: MessageNumber,
    k: EntryNumber,
)
    ensures { RenewsBy setting.now.day facts.now index.now (λ K. IsThis n k) flags.old flags.new }
{
    let Some(i) = index.number(n, k) else {
        return;
    };
    let due = is_due(setting, facts, Item { msg: n, entry: k });
    flags.put(i, due);
}

// All items of message n.
pub fn renew_message(
    flags: &mut Flags,
    index: &Index,
    setting: &Setting,
    facts: &DayFacts,
    n: MessageNumber,
)
    ensures { RenewsBy setting.now.day facts.now index.now (λ K. IsOf n) flags.old flags.new }
{
    for k in 0..entry_count(setting, n) + 1 {
        renew_item(flags, index, setting, facts, n, k);
    }
}

// All items of the day.
pub fn renew_all(flags: &mut Flags, index: &Index, setting: &Setting, facts: &DayFacts)
    ensures { RenewsBy setting.now.day facts.now index.now
        (λ K. IsBelow (length setting.now.day.messages + 1)) flags.old flags.new }
{
    for n in 1..message_count(setting) + 1 {
        renew_message(flags, index, setting, facts, n);
    }
}

// Whether message e, of the sender of message n, ends a cycle and was accepted.
fn is_end_before(setting: &Setting, facts: &DayFacts, n: u32, e: u32) -> bool
    ensures { (K : History) → StandsFor setting.now.day K facts.now
        → result ≡ is_end_before setting.now.day K n e }
{
    sender(&setting.day, e) == sender(&setting.day, n)
        && is_cycle_end(setting, e)
        && matches!(facts.code(e), Some(Code::Ok))
}

// All items of the messages of a chain, from this one down.
pub fn renew_down(
    flags: &mut Flags,
    index: &Index,
    key: Key,
    setting: &Setting,
    facts: &DayFacts,
    start: u32,
)
    ensures { (K : History) → StandsFor setting.now.day K facts.now
        → IsIndexOf setting.now.day index.now → HaveRoom setting.now.day flags.old → (t b : ℕ)
        → t < 86401 → b ≤ length setting.now.day.messages
        → start ≡ last_of (has_key key setting.now.day t) b
        → Renews setting.now.day K (IsDownTo key setting.now.day t b 0) flags.old flags.new }
{
    let mut at = start;
    while at != 0 {
        renew_message(flags, index, setting, facts, at);
        at = index.older(key, at);
    }
}

// All items of the messages of a chain of a system, from this one down to an accepted end of a cycle: there the cycle begins that
// message n ends.
pub fn renew_cycle(
    flags: &mut Flags,
    index: &Index,
    setting: &Setting,
    facts: &DayFacts,
    n: MessageNumber,
    start: u32,
)
    ensures { (K : History) → StandsFor setting.now.day K facts.now
        → IsIndexOf setting.now.day index.now → HaveRoom setting.now.day flags.old → (t b : ℕ)
        → t < 86401 → b ≤ length setting.now.day.messages
        → start ≡ last_of (has_key keys.Cycle setting.now.day t) b
        → Renews setting.now.day K (IsDownTo keys.Cycle setting.now.day t b
        (last_of (is_end_before setting.now.day K n) b)) flags.old flags.new }
{
    let mut at = start;
    while at != 0 {
        if is_end_before(setting, facts, n, at) {
            return;
        }
        renew_message(flags, index, setting, facts, at);
        at = index.older(Key::Cycle, at);
    }
}
