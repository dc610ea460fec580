//! The places of the Book lines.
ghost use Rattle.std.specs.Prelude.{◌≡◌, ◌+◌, ◌<◌, ◌^◌, length, sum_by};
ghost use Rattle.machine.specs.Telling.History.{is_book};
ghost use Rattle.batch_records.specs.Sound.{entries_in};
ghost use Rattle.day_facts.specs.Listed.{with_rows};
ghost use Rattle.day_facts.specs.Lists.{changed};
ghost use Rattle.day_facts.specs.Own.{row_noted, rows_noted};

use crate::places::PlaceRows;
use cash_amounts::LinePlace;
use commit_journal::{Head, Kind};
use rule_book::Setting;

// Whether the line books an item.
pub fn is_book(kind: Kind) -> bool
    ensures { result ≡ is_book kind }
{
    matches!(kind, Kind::Book)
}

// How many items all messages have: each one for itself, and its entries.
pub fn item_count(setting: &Setting) -> usize
    ensures count { result ≡ sum_by (λ m. length (entries_in m.body)) setting.now.day.messages
        + length setting.now.day.messages }
    ensures few { result < 2 ^ 32 }
{
    setting.day.entry_count() + setting.day.message_count()
}

fn put_booked(rows: &mut PlaceRows, place: u32, head: Head)
    requires { 0 < place }
    ensures { rows.new ≡ with_rows (rows_noted place head rows.old.rows) rows.old }
{
    if is_book(head.kind) {
        rows.put(head.msg, head.entry, place);
    }
}

// Notes a line.
pub fn note_booked(rows: &mut PlaceRows, place: LinePlace, head: Head)
    requires { 0 < place }
    ensures { rows.new ≡ with_rows (changed head.msg (row_noted place head) rows.old.rows)
        rows.old }
{
    put_booked(rows, place, head);
}
