//! The summary of a trial.
ghost use Rattle.std.specs.Prelude.{◌≡◌, ℕ, ◌<◌, ◌≤◌, ◌^◌, true};
ghost use Rattle.outside_io.specs.Calls.{Puts};
ghost use Rattle.machine.specs.Telling.Balances.{balance};
ghost use Rattle.machine.specs.Orders.Bounds.{moved};
ghost use Rattle.machine.specs.Legal.{IsLegal, is_complete};
ghost use Rattle.trial_day.specs.declared.day.TheConstants.{MAX_BATCHES};
ghost use Rattle.trial_day.specs.Trial.{generated};
ghost use Rattle.trial_day.specs.Summary.{HoldsDcas, head_text, holding_text, holdings_text, summary, summary_of_journal};

use crate::entries::BANKS;
use crate::names::dca_name;
use account_book::Holdings;
use cash_amounts::{Cents, put_cents};
use commit_journal::Journal;
use itoa::Buffer;
use outside_io::{Sink, WriteFault, put_fields};
use rule_book::Setting;
use rule_book::parts::message_count;

// How many moves the lines have.
fn move_count(journal: &Journal) -> usize
    ensures { result ≡ moved journal.now.history }
{
    journal.moves().len()
}

// How many messages, lines and moves there are.
fn put_head<S: Sink>(
    messages: u32,
    lines: u32,
    moves: usize,
    sink: &mut S,
) -> Result<(), WriteFault>
    ensures { Puts (S.state sink.old) (S.state sink.new) (head_text messages lines moves) result }
{
    let mut message_digits = Buffer::new();
    let mut line_digits = Buffer::new();
    let mut move_digits = Buffer::new();
    let fields: [&[u8]; 4] = [
        b"TRIAL",
        message_digits.format(messages).as_bytes(),
        line_digits.format(lines).as_bytes(),
        move_digits.format(moves).as_bytes(),
    ];
    put_fields(sink, &fields)
}

// What dedicated cash account a holds.
fn put_holding<S: Sink>(a: u32, amount: Cents, sink: &mut S) -> Result<(), WriteFault>
    requires least { 1 ≤ a }
    requires most { a ≤ 16 }
    ensures { Puts (S.state sink.old) (S.state sink.new) (holding_text a amount) result }
{
    let name = dca_name(a);
    let text = put_cents(amount);
    let fields: [&[u8]; 3] = [b"B", name.as_bytes(), text.as_bytes()];
    put_fields(sink, &fields)
}

// What an account holds after the journal.
fn holding<H: Holdings>(setting: &Setting, journal: &Journal, held: &H, a: u32) -> Cents
    requires held { HoldsDcas setting.now.day journal.now.history (H.holdings held.now) }
    requires least { 1 ≤ a }
    requires most { a ≤ 16 }
    ensures { result ≡ balance setting.now.day journal.now.history a }
{
    held.balance(a)
}

// What the dedicated cash accounts hold after the journal.
fn put_holdings<H: Holdings, S: Sink>(
    setting: &Setting,
    journal: &Journal,
    held: &H,
    sink: &mut S,
) -> Result<(), WriteFault>
    requires held { HoldsDcas setting.now.day journal.now.history (H.holdings held.now) }
    ensures { Puts (S.state sink.old) (S.state sink.new)
        (holdings_text (balance setting.now.day journal.now.history)) result }
{
    for before in 0..BANKS {
        let amount = holding(setting, journal, held, before + 1);
        put_holding(before + 1, amount, sink)?;
    }
    Ok(())
}

/// Writes the summary of a journal of a trial: how many messages, lines and moves there are, and what each dedicated cash account
/// holds, of which the balance after the journal is at hand. At an error a front of it was written, and the sink's count of faults
/// has risen. Where the journal is a complete legal one of a trial's day, what is written is the trial's summary, whatever the order
/// of its lines.
pub fn put_summary<H: Holdings, S: Sink>(
    setting: &Setting,
    journal: &Journal,
    held: &H,
    sink: &mut S,
) -> Result<(), WriteFault>
    requires held { HoldsDcas setting.now.day journal.now.history (H.holdings held.now) }
    ensures text { Puts (S.state sink.old) (S.state sink.new)
        (summary_of_journal setting.now.day journal.now.history) result }
    ensures summary { (seed batches : ℕ) → seed < 2 ^ 31 → 1 ≤ batches → batches ≤ MAX_BATCHES
        → setting.now.day ≡ generated seed batches → IsLegal setting.now.day journal.now.history
        → is_complete journal.now.history ≡ true
        → Puts (S.state sink.old) (S.state sink.new) (summary seed batches) result }
{
    put_head(
        message_count(setting),
        journal.len(),
        move_count(journal),
        sink,
    )?;
    put_holdings(setting, journal, held, sink)
}
