//! The statements: one of each account for each year.
ghost use Rattle.std.specs.Prelude.{◌≡◌, ◌≤◌, ◌<◌, ◌++◌, ℕ, List, [], ◌∷◌, length};
ghost use Rattle.std.specs.List.{flat_map};
ghost use Rattle.cash_amounts.specs.declared.limits.TheConstants.{MAX_ACCOUNTS};
ghost use Rattle.outside_io.specs.Calls.{Puts};
ghost use Rattle.batch_records.specs.DayRecord.{Day};
ghost use Rattle.machine.specs.Words.{numbers};
ghost use Rattle.day_chain.specs.ChainTexts.{end_text, statements_text};
ghost use Rattle.day_chain.specs.Ledgers.{Stands, StandsAt};
ghost use Rattle.day_chain.specs.Summing.{HaveRoom};
ghost use Rattle.day_chain.specs.YearTexts.{AllLong, book_text, books_text, IsLong, year_line};

use crate::ledger::{Last, Ledger, YearSums};
use crate::text::put_sums;
use cash_amounts::AccountRecord;
use outside_io::{Sink, WriteFault};
use program_answers::put_ok;

// Writes the statement of account a over a year.
fn put_statement<S: Sink>(
    accounts: &[AccountRecord],
    book: &YearSums,
    a: u32,
    sink: &mut S,
) -> Result<(), WriteFault>
    requires least { 0 < a }
    requires most { a ≤ length accounts.now }
    requires long { IsLong accounts.now book.now }
    ensures { Puts (S.state sink.old) (S.state sink.new) (year_line accounts.now book.now a)
        result }
{
    let at = a as usize - 1;
    put_sums(book.year, &accounts[at], &book.sums[at], sink)
}

// Writes the statements of all accounts over a year.
fn put_year<S: Sink>(
    accounts: &[AccountRecord],
    book: &YearSums,
    sink: &mut S,
) -> Result<(), WriteFault>
    requires few { length accounts.now ≤ MAX_ACCOUNTS }
    requires long { IsLong accounts.now book.now }
    ensures { Puts (S.state sink.old) (S.state sink.new) (book_text accounts.now book.now) result }
{
    for before in 0..accounts.len() as u32 {
        put_statement(accounts, book, before + 1, sink)?;
    }
    Ok(())
}

// Writes the statements of the years that are over.
fn put_years<S: Sink>(
    accounts: &[AccountRecord],
    books: &[YearSums],
    sink: &mut S,
) -> Result<(), WriteFault>
    requires few { length accounts.now ≤ MAX_ACCOUNTS }
    requires long { AllLong accounts.now books.now }
    ensures { Puts (S.state sink.old) (S.state sink.new) (books_text accounts.now books.now)
        result }
{
    for book in books {
        put_year(accounts, book, sink)?;
    }
    Ok(())
}

// Writes the statements of all years.
fn put_all_years<S: Sink>(last: &Last, years: &[YearSums], sink: &mut S) -> Result<(), WriteFault>
    requires few { length last.now.before.accounts ≤ MAX_ACCOUNTS }
    requires latest { IsLong last.now.before.accounts last.now.year }
    requires earlier { AllLong last.now.before.accounts years.now }
    ensures { Puts (S.state sink.old) (S.state sink.new)
        (books_text last.now.before.accounts years.now
        ++ book_text last.now.before.accounts last.now.year) result }
{
    let accounts = last.before.accounts.as_slice();
    put_years(accounts, years, sink)?;
    put_year(accounts, &last.year, sink)
}

// Writes the statements over all days, of which this is kept.
fn put_statements<S: Sink>(
    last: &Option<Last>,
    years: &[YearSums],
    sink: &mut S,
) -> Result<(), WriteFault>
    requires stands { (told : List Day) × StandsAt last.now told years.now }
    ensures { (told : List Day) → StandsAt last.now told years.now
        → Puts (S.state sink.old) (S.state sink.new) (statements_text told) result }
{
    match last {
        Some(last) => put_all_years(last, years, sink),
        None => Ok(()),
    }
}

/// Writes the statements over all days, and how many days there were.
pub fn put_end<S: Sink>(ledger: &Ledger, sink: &mut S) -> Result<(), WriteFault>
    requires stands { (told : List Day) × Stands told ledger.now }
    ensures { (told : List Day) → Stands told ledger.now
        → Puts (S.state sink.old) (S.state sink.new) (end_text told) result }
{
    put_statements(&ledger.last, &ledger.years, sink)?;
    put_ok(ledger.count, sink)
}
