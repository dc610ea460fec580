//! A day with what is found out about it once.
ghost use Rattle.std.specs.Prelude.{◌≡◌, ◌≤◌, length, true, IfOk};
ghost use Rattle.batch_records.specs.Sound.{is_sound};
ghost use Rattle.machine.specs.Records.Reserves.{kept};
ghost use Rattle.rule_book.specs.Settings.{IsFound, kept_of, setup_of};
ghost use Rattle.rule_book.specs.Tables.{AreTables};

use crate::batch_tables::BatchTables;
use crate::found::Found;
use crate::kept::Kept;
use account_book::Book;
use batch_records::Day;
use cash_amounts::{AccountNumber, Cents, Memory};
use std::alloc::Global;

/// A day, the book of its accounts and systems, what its accounts keep, and what is found out about its messages and about its
/// batches. Every setting's day is sound, and the book, what is kept and what is found are the day's.
#[derive(Drop)]
pub struct Setting {
    pub day: Day,
    pub book: Book,
    pub kept: Kept,
    pub found: Found,
    pub tables: BatchTables,

    pub ghost sound: { is_sound day ≡ true },
    pub ghost filed: { book ≡ setup_of day },
    pub ghost entered: { kept ≡ kept_of day },
    pub ghost found_out: { IsFound day found },
    pub ghost tabled: { AreTables day tables },
}

// What is found out about the messages of a sound day, by its book.
fn found_parts(alloc: Global, day: &Day, book: &Book) -> Result<(Found, BatchTables), Memory>
    requires sound { is_sound day.now ≡ true }
    requires filed { book.now ≡ setup_of day.now }
    ensures found_out { IfOk result (λ r. IsFound day.now r.0) }
    ensures tabled { IfOk result (λ r. AreTables day.now r.1) }
{
    let found = Found::build(alloc, day, book)?;
    let tables = BatchTables::build(alloc, day, book, &found)?;
    Ok((found, tables))
}

// The book of a sound day, what its accounts keep, and what is found out about its messages.
fn parts(alloc: Global, day: &Day) -> Result<(Book, Kept, (Found, BatchTables)), Memory>
    requires { is_sound day.now ≡ true }
    ensures filed { IfOk result (λ r. r.0 ≡ setup_of day.now) }
    ensures entered { IfOk result (λ r. r.1 ≡ kept_of day.now) }
    ensures found_out { IfOk result (λ r. IsFound day.now r.2.0) }
    ensures tabled { IfOk result (λ r. AreTables day.now r.2.1) }
{
    let book = Book::build(alloc, day.accounts(), day.systems())?;
    let kept = Kept::build(alloc, day)?;
    let found = found_parts(alloc, day, &book)?;
    Ok((book, kept, found))
}

impl Setting {
    /// The setting of a sound day. `Memory` says that there wasn't enough of it; the day is dropped then.
    pub fn build(alloc: Global, day: Day) -> Result<Setting, Memory>
        requires { is_sound day ≡ true }
        ensures { IfOk result (λ setting. setting.day ≡ day) }
    {
        match parts(alloc, &day) {
            Ok((book, kept, (found, tables))) => Ok(Setting {
                day,
                book,
                kept,
                found,
                tables,
            }),
            // By one call: a `?` drops each list of the day by itself, and the proof takes longer.
            Err(e) => {
                drop(day);
                Err(e)
            }
        }
    }

    /// What a payment must leave on account a, in cents: one of high priority what the account keeps for urgent items, a normal
    /// one besides what it keeps for high payments; 0 where the day says nothing of the account.
    pub fn kept(&self, a: AccountNumber, high: bool) -> Cents
        requires from_one { 1 ≤ a }
        requires within { a ≤ length self.now.day.accounts }
        ensures { result ≡ kept self.now.day a high }
    {
        let (urgent, low) = self.kept.at(a);
        if high {
            urgent
        } else {
            Cents::of(urgent.get() + low.get()).unwrap()
        }
    }
}
