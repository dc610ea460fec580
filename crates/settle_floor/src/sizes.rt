//! What the room for a day is made of.
ghost use Rattle.std.specs.Prelude.{◌≡◌, ◌<◌, ◌≤◌, ◌+◌, ◌-◌, ◌^◌, length, min};
ghost use Rattle.cash_amounts.specs.declared.limits.TheConstants.{MAX_ENTRIES_OF_DAY, MAX_MESSAGES};
ghost use Rattle.batch_records.specs.Sound.{entries_in};
ghost use Rattle.machine.specs.Orders.Bounds.{entries_of_all};
ghost use Rattle.settle_floor.specs.Floors.{entries_left, messages_left};

use cash_amounts::{MAX_ENTRIES_OF_DAY, MAX_MESSAGES};
use rule_book::Setting;
use rule_book::parts::message_count;

/// How many entries the batches of the day have: at most `MAX_ENTRIES_OF_DAY`.
pub fn all_entries(setting: &Setting) -> u32
    ensures count { result ≡ entries_of_all setting.now.day }
    ensures few { result ≤ MAX_ENTRIES_OF_DAY }
{
    setting.day.entry_count() as u32
}

// How many more there may be of something of which there are so many: within this room, and within the limit.
fn left(count: u32, room: usize, limit: usize) -> u32
    requires { limit < 2 ^ 32 }
    ensures { result ≡ min room limit - count }
{
    (room.min(limit) as u32).saturating_sub(count)
}

/// How many messages the day has, with those that it has room for within the limit.
pub(crate) fn messages_in_all(setting: &Setting) -> u32
    ensures count { result ≡ length setting.now.day.messages + messages_left setting.now.day }
    ensures few { result ≤ MAX_MESSAGES }
{
    let count = message_count(setting);
    count + left(count, setting.day.most_messages(), MAX_MESSAGES)
}

/// How many entries the batches of the day have, with those that it has room for within the limit.
pub(crate) fn entries_in_all(setting: &Setting) -> u32
    ensures count { result ≡ entries_of_all setting.now.day + entries_left setting.now.day }
    ensures few { result ≤ MAX_ENTRIES_OF_DAY }
{
    let count = all_entries(setting);
    count + left(count, setting.day.most_entries(), MAX_ENTRIES_OF_DAY)
}
