//! The rows of a pending item: one on its debit account, and of a batch of B one for each of its debit entries.
ghost use Rattle.std.specs.Prelude.{◌≡◌, option_map};
ghost use Rattle.commit_journal.specs.Line.{History};
ghost use Rattle.machine.specs.Records.Messages.{is_high, sort_of};
ghost use Rattle.machine.specs.Stages.Pending.{priority_as};
ghost use Rattle.std.specs.Prelude.{unwrap_or};
ghost use Rattle.day_facts.specs.Facts.{StandsFor};
ghost use Rattle.pending_items.specs.Parts.{account_of, is_part, place_at, priority_of, waits, whole};

use batch_records::RecordBody;
use cash_amounts::MessageNumber;
use day_facts::DayFacts;
use payment_queue::{Place, Priority};
use rule_book::batches::is_debit;
use rule_book::parts::{item_move, message};
use rule_book::sorts::{is_b, is_pay};
use rule_book::{Item, Setting};

// The pending item that a row is of: of a batch of B the batch itself.
pub fn whole(setting: &Setting, item: Item) -> Item
    ensures { result ≡ whole setting.now.day item }
{
    if is_b(setting, item.msg) {
        Item {
            msg: item.msg,
            entry: 0,
        }
    } else {
        item
    }
}

// ---- accounts

// The number of the debit account of an item, or 0 where its name is no account's; `None` where nothing is debited.
pub fn account(setting: &Setting, item: Item) -> Option<u32>
    ensures { result ≡ account_of setting.now.day item }
{
    match item_move(setting, item.msg, item.entry) {
        Some(found) => Some(found.debit),
        None => None,
    }
}

// ---- which rows stand

fn is_part(setting: &Setting, item: Item) -> bool
    ensures { result ≡ is_part setting.now.day item }
{
    if is_b(setting, item.msg) {
        is_debit(setting, item.msg, item.entry)
    } else {
        account(setting, item).is_some()
    }
}

// Whether the item has a row.
pub fn waits(setting: &Setting, facts: &DayFacts, item: Item) -> bool
    ensures { (J : History) → StandsFor setting.now.day J facts.now
        → result ≡ waits setting.now.day J item }
{
    is_part(setting, item) && facts.is_pending(setting, whole(setting, item))
}

// ---- where they stand

fn is_high(setting: &Setting, n: u32) -> bool
    ensures { result ≡ is_high setting.now.day n }
{
    match message(&setting.day, n) {
        Some(message) => match message.body {
            RecordBody::Pay { high, .. } => high,
            _ => false,
        },
        None => false,
    }
}

// The priority of the items of a message.
pub fn priority(setting: &Setting, n: MessageNumber) -> Priority
    ensures { result ≡ priority_of (sort_of setting.now.day n) setting.now.day n }
{
    if !is_pay(setting, n) {
        return Priority::Urgent;
    }
    if is_high(setting, n) {
        Priority::High
    } else {
        Priority::Normal
    }
}

// The place of a line, or 0 where there is none.
pub fn or_zero(place: Option<u32>) -> u32
    ensures { result ≡ unwrap_or place 0 }
{
    match place {
        Some(place) => place,
        None => 0,
    }
}

// Where the row of an item of this number stands: by the line that made the item active, then by its In line, then by number,
// which is by entry.
pub fn place(setting: &Setting, facts: &DayFacts, item: Item, number: u32) -> Place
    ensures at { (J : History) → StandsFor setting.now.day J facts.now
        → result ≡ place_at setting.now.day J item number }
    ensures entry { result.entry ≡ number }
{
    Place {
        active: facts.active_place(setting, whole(setting, item)),
        intake: or_zero(facts.taken(item.msg)),
        entry: number,
    }
}
