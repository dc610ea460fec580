//! What each account holds after the lines of a journal, and how many lines there are.
ghost use Rattle.std.specs.Prelude.{◌≡◌, ◌<◌, ◌≤◌, length};
ghost use Rattle.outside_io.specs.Calls.{Puts};
ghost use Rattle.machine.specs.Telling.Balances.{balance};
ghost use Rattle.settle_floor.specs.Floors.{IsBalanced};
ghost use Rattle.closing_balances.specs.Closing.{balance_text, balances_text, closing_text};

use account_book::Holdings;
use cash_amounts::{AccountNumber, Cents, put_cents};
use commit_journal::Journal;
use outside_io::{Sink, WriteFault, put_fields};
use program_answers::put_ok;
use rule_book::Setting;
use rule_book::parts::account_count;
use status_messages::account_name;

// What an account holds after the lines of a journal.
fn holding<T: Holdings>(setting: &Setting, journal: &Journal, till: &T, a: AccountNumber) -> Cents
    requires balanced { IsBalanced setting.now.day journal.now (T.holdings till.now) }
    requires least { 0 < a }
    requires most { a ≤ length setting.now.day.accounts }
    ensures { result ≡ balance setting.now.day journal.now.history a }
{
    let _journal = journal;
    let _setting = setting;
    till.balance(a)
}

fn put_balance<T: Holdings, S: Sink>(
    setting: &Setting,
    journal: &Journal,
    till: &T,
    a: AccountNumber,
    sink: &mut S,
) -> Result<(), WriteFault>
    requires balanced { IsBalanced setting.now.day journal.now (T.holdings till.now) }
    requires least { 0 < a }
    requires most { a ≤ length setting.now.day.accounts }
    ensures { Puts (S.state sink.old) (S.state sink.new)
        (balance_text setting.now.day journal.now.history a) result }
{
    let amount = put_cents(holding(setting, journal, till, a));
    let fields: [&[u8]; 3] = [b"B", account_name(&setting.day, a), amount.as_bytes()];
    put_fields(sink, &fields)
}

fn put_balances<T: Holdings, S: Sink>(
    setting: &Setting,
    journal: &Journal,
    till: &T,
    sink: &mut S,
) -> Result<(), WriteFault>
    requires balanced { IsBalanced setting.now.day journal.now (T.holdings till.now) }
    ensures { Puts (S.state sink.old) (S.state sink.new)
        (balances_text setting.now.day journal.now.history) result }
{
    for before in 0..account_count(setting) {
        put_balance(setting, journal, till, before + 1, sink)?;
    }
    Ok(())
}

/// Writes what each account holds after the lines of a journal, in cents as euros, in file order, and how many lines there are.
/// The till keeps the balances over these lines. At an error a write failed, and a front of this was written. Takes no memory.
pub fn put_closing<T: Holdings, S: Sink>(
    setting: &Setting,
    journal: &Journal,
    till: &T,
    sink: &mut S,
) -> Result<(), WriteFault>
    requires balanced { IsBalanced setting.now.day journal.now (T.holdings till.now) }
    ensures { Puts (S.state sink.old) (S.state sink.new)
        (closing_text setting.now.day journal.now.history) result }
{
    put_balances(setting, journal, till, sink)?;
    put_ok(journal.len(), sink)
}
