//! What differs between the versions of a day file: how a batch is stated, and the limits of a day. That RES is no record of
//! version 1 is told with the kinds.

ghost use Rattle.std.specs.Prelude.{◌≡◌, ◌+◌, ◌≤◌, ◌<◌, option_map};
ghost use Rattle.cash_amounts.specs.declared.limits.TheConstants.{MAX_ENTRIES_OF_DAY, MAX_MESSAGES};
ghost use Rattle.batch_records.specs.Made.{time_in};
ghost use Rattle.batch_records.specs.Records.{field};
ghost use Rattle.batch_records.specs.Versions.{begins_with_ver, behind, count_field, from_place, from_text, has_label, has_labels, has_stated_times, info_text, is_never_early, is_no_time, is_third, migrated_version, most_entries, most_entries_of_day, most_messages, states_from, sum_field, text_behind, text_or_none, till_place, till_text};

use crate::kinds::field;
use crate::words::is_word;
use cash_amounts::{
    MAX_ENTRIES, MAX_ENTRIES_OF_DAY, MAX_ENTRIES_OF_DAY_BEFORE_THIRD, MAX_ENTRIES_OF_FIRST,
    MAX_MESSAGES, MAX_MESSAGES_BEFORE_THIRD,
};
use period_calendar::read_time;
use record_rows::Row;

// Whether a version is the third.
pub fn is_third(version: u8) -> bool
    ensures { result ≡ is_third version }
{
    version == 3
}

// Whether batches of this version state their times after labels, and accounts may keep amounts.
pub fn has_labels(version: u8) -> bool
    ensures { result ≡ has_labels version }
{
    version == 2 || is_third(version)
}

// Whether days of this version begin with VER.
pub fn begins_with_ver(version: u8) -> bool
    ensures { result ≡ begins_with_ver version }
{
    has_labels(version)
}

/// The version to which a day of this version migrates: 2, and 3 where it is of version 3.
pub fn migrated_version(version: u8) -> u8
    ensures { result ≡ migrated_version version }
{
    if is_third(version) { 3 } else { 2 }
}

/// How many messages a day of this version may have: at most `MAX_MESSAGES`.
#[tactic(auto, using(crate::proofs::VersionFacts::messages_at_most))]
pub fn most_messages(version: u8) -> usize
    ensures same { result ≡ most_messages version }
    ensures few { result ≤ MAX_MESSAGES }
{
    if is_third(version) {
        MAX_MESSAGES
    } else {
        MAX_MESSAGES_BEFORE_THIRD
    }
}

/// How many entries the batches of a day of this version may have together: at most `MAX_ENTRIES_OF_DAY`.
#[tactic(auto, using(crate::proofs::VersionFacts::entries_at_most))]
pub fn most_entries_of_day(version: u8) -> usize
    ensures same { result ≡ most_entries_of_day version }
    ensures few { result ≤ MAX_ENTRIES_OF_DAY }
{
    if is_third(version) {
        MAX_ENTRIES_OF_DAY
    } else {
        MAX_ENTRIES_OF_DAY_BEFORE_THIRD
    }
}

// How many entries a batch may have in a day of this version.
pub fn most_entries(version: u8) -> usize
    ensures { result ≡ most_entries version }
{
    if has_labels(version) {
        MAX_ENTRIES
    } else {
        MAX_ENTRIES_OF_FIRST
    }
}

// The count of a batch.
#[tactic(auto, unfolding(crate::specs::Versions::count_field))]
pub fn count_field(version: u8, row: &Row) -> &[u8]
    ensures { result.now ≡ count_field version row.now }
{
    if has_labels(version) {
        field(row, 4)
    } else {
        field(row, 6)
    }
}

// The sum of a batch.
#[tactic(auto, unfolding(crate::specs::Versions::sum_field))]
pub fn sum_field(version: u8, row: &Row) -> &[u8]
    ensures { result.now ≡ sum_field version row.now }
{
    if has_labels(version) {
        field(row, 5)
    } else {
        field(row, 7)
    }
}

// Whether a text begins with a label.
fn has_label(label: &[u8], text: &[u8]) -> bool
    ensures { result ≡ has_label label.now text.now }
{
    text.starts_with(label)
}

// The place after a field with this label, where the field at a place has it; and else that place.
fn behind(label: &[u8], row: &Row, i: usize) -> usize
    requires { i < 16 }
    ensures place { result ≡ behind label.now row.now i }
    ensures next { result ≤ i + 1 }
{
    if has_label(label, field(row, i)) {
        i + 1
    } else {
        i
    }
}

// Where a batch with labels would state its earliest time.
fn from_place(row: &Row) -> usize
    ensures place { result ≡ from_place row.now }
    ensures few { result ≤ 7 }
{
    behind(b"info=", row, 6)
}

// Where a batch with labels would state its settlement end.
fn till_place(row: &Row) -> usize
    ensures place { result ≡ till_place row.now }
    ensures few { result ≤ 8 }
{
    behind(b"from=", row, from_place(row))
}

// Whether the batches of a procedure have no earliest time.
fn is_never_early(word: &[u8]) -> bool
    ensures { result ≡ is_never_early word.now }
{
    is_word(word, b"C") || is_word(word, b"D") || is_word(word, b"E")
}

fn states_from(row: &Row) -> bool
    ensures { result ≡ states_from row.now }
{
    has_label(b"from=", field(row, from_place(row)))
}

// Whether a batch with labels has six fields, and after them its information end, its earliest time and its settlement end, in
// this order, each at most once, and nothing else. A batch of C, D or E has no earliest time.
#[tactic(auto, unfolding(crate::specs::Versions::has_stated_times))]
pub fn has_stated_times(row: &Row) -> bool
    ensures { result ≡ has_stated_times row.now }
{
    6 <= row.len()
        && behind(b"till=", row, till_place(row)) == row.len()
        && !(states_from(row) && is_never_early(field(row, 3)))
}

// What stands after a label, where the text begins with it.
fn text_behind<'a>(label: &[u8], text: &'a [u8]) -> Option<&'a [u8]>
    ensures { option_map (λ behind. behind.now) result ≡ text_behind label.now text.now }
{
    if text.starts_with(label) {
        Some(&text[label.len()..])
    } else {
        None
    }
}

// A text that isn't empty.
fn text_or_none(text: &[u8]) -> Option<&[u8]>
    ensures { option_map (λ stated. stated.now) result ≡ text_or_none text.now }
{
    match text {
        [] => None,
        _ => Some(text),
    }
}

// The text of the information end that a batch states.
#[tactic(auto, unfolding(crate::specs::Versions::info_text))]
pub fn info_text(version: u8, row: &Row) -> Option<&[u8]>
    ensures { option_map (λ text. text.now) result ≡ info_text version row.now }
{
    if has_labels(version) {
        text_behind(b"info=", field(row, 6))
    } else {
        text_or_none(field(row, 4))
    }
}

// The text of the earliest time that a batch states.
#[tactic(auto, unfolding(crate::specs::Versions::from_text))]
pub fn from_text(version: u8, row: &Row) -> Option<&[u8]>
    ensures { option_map (λ text. text.now) result ≡ from_text version row.now }
{
    if has_labels(version) {
        text_behind(b"from=", field(row, from_place(row)))
    } else {
        None
    }
}

// The text of the settlement end that a batch states.
#[tactic(auto, unfolding(crate::specs::Versions::till_text))]
pub fn till_text(version: u8, row: &Row) -> Option<&[u8]>
    ensures { option_map (λ text. text.now) result ≡ till_text version row.now }
{
    if has_labels(version) {
        text_behind(b"till=", field(row, till_place(row)))
    } else {
        text_or_none(field(row, 5))
    }
}

// Whether a text is stated and is no time.
pub fn is_no_time(text: Option<&[u8]>) -> bool
    ensures { result ≡ is_no_time (option_map (λ stated. stated.now) text.entry) }
{
    match text {
        Some(text) => read_time(text).is_none(),
        None => false,
    }
}

// The time of a text that is stated.
pub fn time_in(text: Option<&[u8]>) -> Option<u32>
    ensures { result ≡ time_in (option_map (λ stated. stated.now) text.entry) }
{
    match text {
        Some(text) => read_time(text),
        None => None,
    }
}
