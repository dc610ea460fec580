//! The report of a party.
ghost use Rattle.std.specs.Prelude.{◌≡◌, ◌≤◌, ◌++◌, ℕ, List, true, length};
ghost use Rattle.outside_io.specs.Calls.{Puts};
ghost use Rattle.batch_records.specs.Sound.{is_sound};
ghost use Rattle.as_client.specs.KeptTexts.{holding_kept, holdings_kept, message_kept, messages_kept, report_kept};
ghost use Rattle.as_client.specs.PartyWords.{word_text};
ghost use Rattle.as_client.specs.Reports.{balance_line, count_text, word_line};

use crate::party::Party;
use crate::view::Word;
use batch_records::Day;
use cash_amounts::{Cents, MsgId, Name, put_cents};
use itoa::Buffer;
use outside_io::{Sink, WriteFault, put_fields};
use rule_book::parts::{account, message};

fn word_text<'a>(word: Word) -> &'a [u8]
    ensures { result.now ≡ word_text word }
{
    match word {
        Word::Nothing => b"NONE",
        Word::Accepted => b"ACCEPTED",
        Word::Repeated => b"REPEATED",
        Word::Rejected => b"REJECTED",
        Word::Asked => b"ASKED",
        Word::Failed => b"FAILED",
        Word::Revoked => b"REVOKED",
        Word::Settled => b"SETTLED",
    }
}

fn put_balance<S: Sink>(account: &Name, balance: Cents, sink: &mut S) -> Result<(), WriteFault>
    ensures { Puts (S.state sink.old) (S.state sink.new) (balance_line account.now balance) result }
{
    let amount = put_cents(balance);
    let fields: [&[u8]; 3] = [b"B", account.as_bytes(), amount.as_bytes()];
    put_fields(sink, &fields)
}

fn put_word<S: Sink>(msg: u32, id: &MsgId, word: Word, sink: &mut S) -> Result<(), WriteFault>
    ensures { Puts (S.state sink.old) (S.state sink.new) (word_line msg id.now word) result }
{
    let mut digits = Buffer::new();
    let fields: [&[u8]; 4] = [
        b"P",
        digits.format(msg).as_bytes(),
        id.as_bytes(),
        word_text(word),
    ];
    put_fields(sink, &fields)
}

fn put_count<S: Sink>(count: u32, sink: &mut S) -> Result<(), WriteFault>
    ensures { Puts (S.state sink.old) (S.state sink.new) (count_text count) result }
{
    let mut digits = Buffer::new();
    let fields: [&[u8]; 2] = [b"OK", digits.format(count).as_bytes()];
    put_fields(sink, &fields)
}

// What an account holds, where it is the party's.
fn put_holding<S: Sink>(party: &Party, day: &Day, a: u32, sink: &mut S) -> Result<(), WriteFault>
    ensures { Puts (S.state sink.old) (S.state sink.new) (holding_kept day.now party.now a) result }
{
    let Some(account) = account(day, a) else {
        return Ok(());
    };
    match party.balance(&account.name) {
        Some(balance) => put_balance(&account.name, balance, sink),
        None => Ok(()),
    }
}

// How far a message has come, where it is the party's.
fn put_message<S: Sink>(party: &Party, day: &Day, n: u32, sink: &mut S) -> Result<(), WriteFault>
    ensures { Puts (S.state sink.old) (S.state sink.new) (message_kept day.now party.now n) result }
{
    let Some(message) = message(day, n) else {
        return Ok(());
    };
    match party.word(n) {
        Some(word) => put_word(n, &message.id, word, sink),
        None => Ok(()),
    }
}

fn account_count(day: &Day) -> u32
    requires { is_sound day.now ≡ true }
    ensures { result ≡ length day.now.accounts }
{
    day.accounts().len() as u32
}

fn message_count(day: &Day) -> u32
    requires { is_sound day.now ≡ true }
    ensures { result ≡ length day.now.messages }
{
    day.message_count() as u32
}

fn put_holdings<S: Sink>(party: &Party, day: &Day, sink: &mut S) -> Result<(), WriteFault>
    requires { is_sound day.now ≡ true }
    ensures { Puts (S.state sink.old) (S.state sink.new) (holdings_kept day.now party.now) result }
{
    for before in 0..account_count(day) {
        put_holding(party, day, before + 1, sink)?;
    }
    Ok(())
}

fn put_messages<S: Sink>(party: &Party, day: &Day, sink: &mut S) -> Result<(), WriteFault>
    requires { is_sound day.now ≡ true }
    ensures { Puts (S.state sink.old) (S.state sink.new) (messages_kept day.now party.now) result }
{
    for before in 0..message_count(day) {
        put_message(party, day, before + 1, sink)?;
    }
    Ok(())
}

// What follows the accounts.
fn put_rest<S: Sink>(party: &Party, day: &Day, count: u32, sink: &mut S) -> Result<(), WriteFault>
    requires { is_sound day.now ≡ true }
    ensures { Puts (S.state sink.old) (S.state sink.new)
        (messages_kept day.now party.now ++ count_text count) result }
{
    put_messages(party, day, sink)?;
    put_count(count, sink)
}

// The accounts, the messages, and how many statuses were taken.
pub(crate) fn put_kept<S: Sink>(
    party: &Party,
    day: &Day,
    count: u32,
    sink: &mut S,
) -> Result<(), WriteFault>
    requires { is_sound day.now ≡ true }
    ensures { Puts (S.state sink.old) (S.state sink.new) (report_kept day.now party.now count)
        result }
{
    put_holdings(party, day, sink)?;
    put_rest(party, day, count, sink)
}
