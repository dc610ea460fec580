//! For how much a disk in memory needs room, so that the rest of the day finds it.
ghost use Rattle.std.specs.Prelude.{◌≡◌, ◌≤◌, ◌+◌, ◌*◌};
ghost use Rattle.refused_memory.specs.declared.lists.TheConstants.{MOST};
ghost use Rattle.machine.specs.Orders.Bounds.{line_limit, most_lines, most_moves, move_limit};
ghost use Rattle.durable_day.specs.Running.{most_bytes};

use period_calendar::MIDNIGHT;
use rule_book::Setting;
use rule_book::parts::{account_count, message_count};
use settle_floor::sizes::all_entries;

// How many lines the journal of the day can have at most.
fn most_lines(setting: &Setting) -> usize
    ensures count { result ≡ most_lines setting.now.day }
    ensures few { result ≤ line_limit }
{
    4 * message_count(setting) as usize
        + all_entries(setting) as usize
        + account_count(setting) as usize
        + (MIDNIGHT as usize + 1)
}

// How many moves they can have.
fn most_moves(setting: &Setting) -> usize
    ensures count { result ≡ most_moves setting.now.day }
    ensures few { result ≤ move_limit }
{
    message_count(setting) as usize
        + 2 * all_entries(setting) as usize
        + account_count(setting) as usize
}

/// How many bytes are written at most, that of a new store too.
pub(crate) fn room_for(setting: &Setting) -> usize
    ensures count { result ≡ 1 + most_bytes setting.now.day }
    ensures few { result ≤ MOST }
{
    1 + (70 * most_lines(setting) + 40 * most_moves(setting))
}

/// How many writes and syncs there are at most: two for a new store, one for the opening, and four for each line.
pub(crate) fn records_for(setting: &Setting) -> usize
    ensures count { result ≡ 3 + 4 * most_lines setting.now.day }
    ensures few { result ≤ MOST }
{
    3 + 4 * most_lines(setting)
}
