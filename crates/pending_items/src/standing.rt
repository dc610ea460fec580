//! Where an item stands, by the facts, and which item stands ahead of which.
ghost use Rattle.std.specs.Prelude.{◌≡◌};
ghost use Rattle.commit_journal.specs.Line.{History};
ghost use Rattle.machine.specs.Records.Messages.{sort_of};
ghost use Rattle.machine.specs.Stages.Pending.{is_ahead, priority_as, standing};
ghost use Rattle.day_facts.specs.Facts.{StandsFor};
ghost use Rattle.pending_items.specs.Heads.{ahead_by, ahead_of_it, head_by, seen};

use crate::parts::{or_zero, priority, whole};
use day_facts::DayFacts;
use payment_queue::{Heads, Priority};
use rule_book::{Item, Setting};

// The priority of an item, the places of the line that made it active and of its In line, and its entry.
#[derive(Clone, Copy)]
pub struct ItemStanding {
    pub priority: u32,
    pub active: u32,
    pub intake: u32,
    pub entry: u32,
}

// 0 is urgent, 1 is high, 2 is normal.
fn rank(setting: &Setting, n: u32) -> u32
    ensures { result ≡ priority_as (sort_of setting.now.day n) setting.now.day n }
{
    match priority(setting, n) {
        Priority::Urgent => 0,
        Priority::High => 1,
        Priority::Normal => 2,
    }
}

// Where an item stands.
pub fn stands_at(setting: &Setting, facts: &DayFacts, item: Item) -> ItemStanding
    ensures { (J : History) → StandsFor setting.now.day J facts.now
        → seen result ≡ standing setting.now.day J item }
{
    ItemStanding {
        priority: rank(setting, item.msg),
        active: facts.active_place(setting, item),
        intake: or_zero(facts.taken(item.msg)),
        entry: item.entry,
    }
}

// Of higher priority, or of the same and of an earlier place.
fn is_ahead(one: ItemStanding, other: ItemStanding) -> bool
    ensures { result ≡ is_ahead (seen one) (seen other) }
{
    one.priority < other.priority
        || one.priority == other.priority
            && (one.active < other.active
                || one.active == other.active
                    && (one.intake < other.intake
                        || one.intake == other.intake && one.entry < other.entry))
}

fn if_ahead(setting: &Setting, facts: &DayFacts, item: Item, other: ItemStanding) -> Option<Item>
    ensures { (J : History) → StandsFor setting.now.day J facts.now
        → result ≡ ahead_of_it setting.now.day J (seen other) item }
{
    if is_ahead(stands_at(setting, facts, item), other) {
        Some(item)
    } else {
        None
    }
}

// The item of a row at the head of a band, where it stands ahead of this.
pub fn ahead(
    setting: &Setting,
    facts: &DayFacts,
    head: Option<Item>,
    other: ItemStanding,
) -> Option<Item>
    ensures { (J : History) → StandsFor setting.now.day J facts.now
        → result ≡ ahead_by setting.now.day J (seen other) head }
{
    match head {
        Some(part) => if_ahead(setting, facts, whole(setting, part), other),
        None => None,
    }
}

// The item of the urgent head, else that of the high one.
pub fn head_of(setting: &Setting, heads: Heads) -> Option<Item>
    ensures { result ≡ head_by setting.now.day heads.urgent heads.high }
{
    match heads.urgent {
        Some(part) => Some(whole(setting, part)),
        None => match heads.high {
            Some(part) => Some(whole(setting, part)),
            None => None,
        },
    }
}
