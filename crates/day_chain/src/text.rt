//! The texts that the program writes.
ghost use Rattle.std.specs.Prelude.{◌≡◌, ◌≤◌, ◌<◌, ◌^◌, ◌+◌, ◌++◌, ◌∷◌, [], length, map, decimal};
ghost use Rattle.std.specs.List.{flat_map};
ghost use Rattle.arrayvec.specs.ArrayString.{array_string_len};
ghost use Rattle.cash_amounts.specs.AmountText.{amount_text};
ghost use Rattle.account_book.specs.Directory.{account_name};
ghost use Rattle.outside_io.specs.Calls.{Puts};
ghost use Rattle.machine.specs.Orders.Order.{plain};
ghost use Rattle.day_chain.specs.ChainTexts.{date_line, fault_account, fault_text, fault_word, part_text, refusal_text, sums_text, usage_text};
ghost use Rattle.day_chain.specs.Statements.{closing_of};

use crate::joining::JoinFault;
use crate::sums::Sums;
use arrayvec::ArrayString;
use batch_records::{Day, DayCode};
use cash_amounts::AccountRecord;
use commit_journal::{Journal, put_journal};
use itoa::Buffer;
use outside_io::{Sink, WriteFault, put_all, put_fields};
use program_answers::code_text;

// ---- days

fn put_date<S: Sink>(day: &Day, sink: &mut S) -> Result<(), WriteFault>
    ensures { Puts (S.state sink.old) (S.state sink.new) (date_line day.now) result }
{
    let date = day.date().put();
    let fields: [&[u8]; 2] = [b"D", date.as_bytes()];
    put_fields(sink, &fields)
}

/// Writes a day: its date, and the lines of its journal.
pub fn put_part<S: Sink>(day: &Day, journal: &Journal, sink: &mut S) -> Result<(), WriteFault>
    requires { journal.now.history ≡ plain day.now }
    ensures { Puts (S.state sink.old) (S.state sink.new) (part_text day.now) result }
{
    put_date(day, sink)?;
    put_journal(journal, sink)
}

// ---- statements

// Puts one ASCII character at the end of a text that has room for it.
fn push_ascii(text: &mut ArrayString<48>, byte: u8)
    requires ascii { byte < 128 }
    requires room { array_string_len text.old < 48 }
    ensures bytes { text.new.bytes ≡ text.old.bytes ++ byte ∷ [] }
    ensures length { array_string_len text.new ≡ array_string_len text.old + 1 }
{
    text.push(char::from(byte));
}

fn push_digit(text: &mut ArrayString<48>, digit: u128)
    requires digit { digit < 10 }
    requires room { array_string_len text.old < 48 }
    ensures bytes { text.new.bytes ≡ text.old.bytes ++ (48 + digit) ∷ [] }
    ensures length { array_string_len text.new ≡ array_string_len text.old + 1 }
{
    push_ascii(text, b'0' + digit as u8);
}

// The text of an amount of so many cents, which may be more than an account can hold.
fn wide_amount(cents: u128) -> ArrayString<48>
    ensures { result.bytes ≡ amount_text cents }
{
    let mut text = ArrayString::new();
    text.push_str(Buffer::new().format(cents / 100));
    push_ascii(&mut text, b'.');
    push_digit(&mut text, cents / 10 % 10);
    push_digit(&mut text, cents % 10);
    text
}

fn closing(sums: &Sums) -> u128
    requires { sums.now.credits ≤ 2 ^ 127 }
    ensures { result ≡ closing_of sums.now }
{
    let held = u128::from(sums.opening) + sums.credits;
    held.saturating_sub(sums.debits).saturating_sub(sums.aside)
}

/// Writes the statement of an account over a year.
#[tactic(auto, unfolding(crate::specs::ChainTexts::sums_text))]
pub fn put_sums<S: Sink>(
    year: u16,
    account: &AccountRecord,
    sums: &Sums,
    sink: &mut S,
) -> Result<(), WriteFault>
    requires { sums.now.credits ≤ 2 ^ 127 }
    ensures { Puts (S.state sink.old) (S.state sink.new) (sums_text year account.now.name sums.now)
        result }
{
    let mut digits = Buffer::new();
    let opening = wide_amount(u128::from(sums.opening));
    let debits = wide_amount(sums.debits);
    let credits = wide_amount(sums.credits);
    let aside = wide_amount(sums.aside);
    let closing = wide_amount(closing(sums));
    let fields: [&[u8]; 8] = [
        b"Y",
        digits.format(year).as_bytes(),
        account.name.as_bytes(),
        opening.as_bytes(),
        debits.as_bytes(),
        credits.as_bytes(),
        aside.as_bytes(),
        closing.as_bytes(),
    ];
    put_fields(sink, &fields)
}

// ---- how it ends

/// Writes which record of a day is refused, and why. Days are numbered from 1.
pub fn put_refusal<S: Sink>(
    day: u32,
    number: u32,
    code: DayCode,
    sink: &mut S,
) -> Result<(), WriteFault>
    ensures { Puts (S.state sink.old) (S.state sink.new) (refusal_text day number code) result }
{
    let mut day_digits = Buffer::new();
    let mut digits = Buffer::new();
    let fields: [&[u8]; 4] = [
        b"E",
        day_digits.format(day).as_bytes(),
        digits.format(number).as_bytes(),
        code_text(code),
    ];
    put_fields(sink, &fields)
}

fn word_of(fault: JoinFault) -> &'static [u8]
    ensures { result.now ≡ fault_word fault }
{
    match fault {
        JoinFault::Gap => b"GAP",
        JoinFault::Setup { .. } => b"SETUP",
        JoinFault::Open { .. } => b"OPEN",
    }
}

fn account_of(fault: JoinFault) -> u32
    ensures { result ≡ fault_account fault }
{
    match fault {
        JoinFault::Gap => 0,
        JoinFault::Setup { account } | JoinFault::Open { account } => account,
    }
}

/// Writes that the day of this number doesn't join the one before it, and why.
pub fn put_fault<S: Sink>(day: u32, fault: JoinFault, sink: &mut S) -> Result<(), WriteFault>
    ensures { Puts (S.state sink.old) (S.state sink.new) (fault_text day fault) result }
{
    let mut day_digits = Buffer::new();
    let mut digits = Buffer::new();
    let fields: [&[u8]; 4] = [
        b"CHAIN",
        day_digits.format(day).as_bytes(),
        word_of(fault),
        digits.format(account_of(fault)).as_bytes(),
    ];
    put_fields(sink, &fields)
}

/// Writes the usage line.
pub fn put_usage<S: Sink>(sink: &mut S) -> Result<(), WriteFault>
    ensures { Puts (S.state sink.old) (S.state sink.new) usage_text result }
{
    put_all(sink, b"usage: day_chain\n")
}
