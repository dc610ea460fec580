//! What is told of the messages: how far each has come, and why its items wait.
ghost use Rattle.std.specs.Prelude.{◌≡◌, ◌+◌, ◌∷◌, [], Some, codes, decimal, length};
ghost use Rattle.std.specs.List.{flat_map, range_with_len};
ghost use Rattle.std.specs.Option.{option_map_or};
ghost use Rattle.cash_amounts.specs.AmountText.{amount_text};
ghost use Rattle.outside_io.specs.Calls.{Puts};
ghost use Rattle.outside_io.specs.TextLine.{text_line};
ghost use Rattle.period_calendar.specs.MomentTexts.{time_text};
ghost use Rattle.machine.specs.Records.Messages.{entries, item_numbers, part, sender};
ghost use Rattle.machine.specs.Records.Reserves.{must_leave};
ghost use Rattle.machine.specs.Making.Lines.{need};
ghost use Rattle.day_reasons.specs.Desks.{clear, HoldsAll};
ghost use Rattle.day_reasons.specs.Reasons.{fields_with, name_of, needed, needed_for, want_fields};
ghost use Rattle.day_reasons.specs.Told.{id_of, item_text, items_text, message_text, messages_text, reason_line, want_line};
ghost use Rattle.day_reasons.specs.Waits.{IsSettling};

use crate::texts::{account_name, amount, clock_bytes, item_head, message_id, phase_word};
use crate::waiting::{is_unfinished, waiting_want, why_unsettled};
use commit_journal::{Move, MoveList, Want};
use guarantee_fund::{missing_a, shortfall_b};
use itoa::Buffer;
use outside_io::{Sink, WriteFault, put_fields};
use rule_book::batches::gross;
use rule_book::parts::{entry_count, item_move, message_count, must_leave, sender};
use rule_book::sorts::{is_a, is_b};
use rule_book::{Desk, Phase, Setting, Why};

// ---- lines of one word, and of a word with what shows it

fn put_word<S: Sink>(head: &[u8], word: &[u8], sink: &mut S) -> Result<(), WriteFault>
    ensures { Puts (S.state sink.old) (S.state sink.new) (text_line (head.now ∷ word.now ∷ []))
        result }
{
    let fields: [&[u8]; 2] = [head, word];
    put_fields(sink, &fields)
}

// With a place, a round, a message or an entry.
fn put_number<S: Sink>(
    head: &[u8],
    word: &[u8],
    number: u32,
    sink: &mut S,
) -> Result<(), WriteFault>
    ensures { Puts (S.state sink.old) (S.state sink.new)
        (text_line (head.now ∷ word.now ∷ decimal number ∷ [])) result }
{
    let mut digits = Buffer::new();
    let fields: [&[u8]; 3] = [head, word, digits.format(number).as_bytes()];
    put_fields(sink, &fields)
}

fn put_account<S: Sink>(
    head: &[u8],
    word: &[u8],
    setting: &Setting,
    a: u32,
    sink: &mut S,
) -> Result<(), WriteFault>
    ensures { Puts (S.state sink.old) (S.state sink.new)
        (text_line (head.now ∷ word.now ∷ name_of setting.now.day a ∷ [])) result }
{
    let fields: [&[u8]; 3] = [head, word, account_name(setting, a)];
    put_fields(sink, &fields)
}

fn put_clock<S: Sink>(head: &[u8], seconds: u32, sink: &mut S) -> Result<(), WriteFault>
    ensures { Puts (S.state sink.old) (S.state sink.new)
        (text_line (head.now ∷ codes "CLOCK" ∷ time_text seconds ∷ [])) result }
{
    let time = clock_bytes(seconds);
    let fields: [&[u8]; 3] = [head, b"CLOCK", &time];
    put_fields(sink, &fields)
}

// By the word of the phase.
fn put_phase<S: Sink>(
    head: &[u8],
    phase: &[u8],
    seconds: u32,
    sink: &mut S,
) -> Result<(), WriteFault>
    ensures { Puts (S.state sink.old) (S.state sink.new)
        (text_line (head.now ∷ codes "PHASE" ∷ phase.now ∷ time_text seconds ∷ [])) result }
{
    let time = clock_bytes(seconds);
    let fields: [&[u8]; 4] = [head, b"PHASE", phase, &time];
    put_fields(sink, &fields)
}

fn put_behind<S: Sink>(
    head: &[u8],
    setting: &Setting,
    a: u32,
    n: u32,
    k: u32,
    sink: &mut S,
) -> Result<(), WriteFault>
    ensures { Puts (S.state sink.old) (S.state sink.new)
        (text_line (head.now ∷ codes "BEHIND" ∷ name_of setting.now.day a ∷ decimal n ∷ decimal k
        ∷ [])) result }
{
    let mut message = Buffer::new();
    let mut entry = Buffer::new();
    let fields: [&[u8]; 5] = [
        head,
        b"BEHIND",
        account_name(setting, a),
        message.format(n).as_bytes(),
        entry.format(k).as_bytes(),
    ];
    put_fields(sink, &fields)
}

fn put_short<S: Sink>(
    head: &[u8],
    setting: &Setting,
    a: u32,
    balance: u64,
    needed: u128,
    sink: &mut S,
) -> Result<(), WriteFault>
    ensures { Puts (S.state sink.old) (S.state sink.new)
        (text_line (head.now ∷ codes "SHORT" ∷ name_of setting.now.day a ∷ amount_text balance
        ∷ amount_text needed ∷ [])) result }
{
    let balance = amount(u128::from(balance));
    let needed = amount(needed);
    let fields: [&[u8]; 5] = [
        head,
        b"SHORT",
        account_name(setting, a),
        balance.as_bytes(),
        needed.as_bytes(),
    ];
    put_fields(sink, &fields)
}

fn put_enough<S: Sink>(head: &[u8], balance: u64, need: u64, sink: &mut S) -> Result<(), WriteFault>
    ensures { Puts (S.state sink.old) (S.state sink.new)
        (text_line (head.now ∷ codes "ENOUGH" ∷ amount_text balance ∷ amount_text need ∷ []))
        result }
{
    let balance = amount(u128::from(balance));
    let need = amount(u128::from(need));
    let fields: [&[u8]; 4] = [head, b"ENOUGH", balance.as_bytes(), need.as_bytes()];
    put_fields(sink, &fields)
}

// ---- a want that is ready

fn put_ready_word<S: Sink>(head: &[u8], word: &[u8], sink: &mut S) -> Result<(), WriteFault>
    ensures { Puts (S.state sink.old) (S.state sink.new)
        (text_line (head.now ∷ codes "READY" ∷ word.now ∷ [])) result }
{
    let fields: [&[u8]; 3] = [head, b"READY", word];
    put_fields(sink, &fields)
}

fn put_ready_message<S: Sink>(
    head: &[u8],
    word: &[u8],
    n: u32,
    sink: &mut S,
) -> Result<(), WriteFault>
    ensures { Puts (S.state sink.old) (S.state sink.new)
        (text_line (head.now ∷ codes "READY" ∷ word.now ∷ decimal n ∷ [])) result }
{
    let mut digits = Buffer::new();
    let fields: [&[u8]; 4] = [head, b"READY", word, digits.format(n).as_bytes()];
    put_fields(sink, &fields)
}

fn put_ready_entry<S: Sink>(head: &[u8], n: u32, k: u32, sink: &mut S) -> Result<(), WriteFault>
    ensures { Puts (S.state sink.old) (S.state sink.new)
        (text_line (head.now ∷ codes "READY" ∷ codes "BOOK" ∷ decimal n ∷ decimal k ∷ [])) result }
{
    let mut message = Buffer::new();
    let mut entry = Buffer::new();
    let fields: [&[u8]; 5] = [
        head,
        b"READY",
        b"BOOK",
        message.format(n).as_bytes(),
        entry.format(k).as_bytes(),
    ];
    put_fields(sink, &fields)
}

fn put_ready_account<S: Sink>(
    head: &[u8],
    setting: &Setting,
    a: u32,
    sink: &mut S,
) -> Result<(), WriteFault>
    ensures { Puts (S.state sink.old) (S.state sink.new)
        (text_line (head.now ∷ codes "READY" ∷ codes "SWEEP" ∷ name_of setting.now.day a ∷ []))
        result }
{
    let fields: [&[u8]; 4] = [head, b"READY", b"SWEEP", account_name(setting, a)];
    put_fields(sink, &fields)
}

fn put_ready<S: Sink>(
    head: &[u8],
    setting: &Setting,
    want: Want,
    sink: &mut S,
) -> Result<(), WriteFault>
    ensures { Puts (S.state sink.old) (S.state sink.new)
        (text_line (head.now ∷ codes "READY" ∷ want_fields setting.now.day want)) result }
{
    match want {
        Want::In { msg } => put_ready_message(head, b"IN", msg, sink),
        Want::Book { msg, entry } => put_ready_entry(head, msg, entry, sink),
        Want::All { msg } => put_ready_message(head, b"ALL", msg, sink),
        Want::Time => put_ready_word(head, b"TIME", sink),
        Want::Expire { msg } => put_ready_message(head, b"EXPIRE", msg, sink),
        Want::Ask { msg } => put_ready_message(head, b"ASK", msg, sink),
        Want::Cover { msg } => put_ready_message(head, b"COVER", msg, sink),
        Want::Refuse { msg } => put_ready_message(head, b"REFUSE", msg, sink),
        Want::Sweep { account } => put_ready_account(head, setting, account, sink),
        Want::End => put_ready_word(head, b"END", sink),
    }
}

// ---- what has to stand on an account

// An amount, and what it must leave.
fn with_left(found: Move, left: u64) -> u128
    ensures { result ≡ found.amount + left }
{
    u128::from(found.amount.get()) + u128::from(left)
}

fn needed_by_item(setting: &Setting, n: u32, k: u32, a: u32) -> u128
    ensures { result ≡ option_map_or (λ e. e.amount + must_leave setting.now.day n a)
        (part setting.now.day n k) 0 }
{
    match item_move(setting, n, k) {
        Some(found) => with_left(found, must_leave(setting, n, a)),
        None => 0,
    }
}

// What a batch lacks, which the fund is to pay.
fn needed_of_fund<D: Desk>(desk: &D, n: u32) -> u128
    requires all { HoldsAll (D.held desk.now) (D.day desk.now) }
    ensures { result ≡ need (D.day desk.now) (D.past desk.now) n }
{
    let setting = desk.setting();
    if is_a(setting, n) {
        return u128::from(missing_a(desk, n).get());
    }
    if is_b(setting, n) {
        return u128::from(shortfall_b(desk, n).get());
    }
    0
}

fn needed<D: Desk>(desk: &D, want: Want, a: u32) -> u128
    requires all { HoldsAll (D.held desk.now) (D.day desk.now) }
    ensures { result ≡ needed (D.day desk.now) (D.past desk.now) want a }
{
    match want {
        Want::Book { msg, entry } => needed_by_item(desk.setting(), msg, entry, a),
        Want::All { msg } => gross(desk.setting(), msg, a),
        Want::Cover { msg } => needed_of_fund(desk, msg),
        _ => 0,
    }
}

/// What has to stand on the account that is short, where that is the reason why a want has no line, in cents; else 0.
pub fn needed_for<D: Desk>(desk: &D, want: Want, why: &Why) -> u128
    requires all { HoldsAll (D.held desk.now) (D.day desk.now) }
    ensures { result ≡ needed_for (D.day desk.now) (D.past desk.now) want why.now }
{
    match why {
        Why::Short { account, .. } => needed(desk, want, *account),
        _ => 0,
    }
}

// ---- reasons

/// Writes a line of a reason, behind these fields. Of an account that is short it also tells what has to stand there, in cents.
pub fn put_reason<S: Sink>(
    setting: &Setting,
    head: &[u8],
    needed: u128,
    why: Why,
    sink: &mut S,
) -> Result<(), WriteFault>
    ensures { Puts (S.state sink.old) (S.state sink.new)
        (text_line (head.now ∷ fields_with setting.now.day needed why)) result }
{
    match why {
        Why::Over { place } => put_number(head, b"OVER", place, sink),
        Why::NoSuch => put_word(head, b"NOSUCH", sink),
        Why::Taken { place } => put_number(head, b"TAKEN", place, sink),
        Why::Round { round } => put_number(head, b"ROUND", round, sink),
        Why::Earlier { msg } => put_number(head, b"EARLIER", msg, sink),
        Why::Untaken => put_word(head, b"UNTAKEN", sink),
        Why::Phase { phase, clock } => put_phase(head, phase_word(phase), clock, sink),
        Why::Booked { place } => put_number(head, b"BOOKED", place, sink),
        Why::Revoked { place } => put_number(head, b"REVOKED", place, sink),
        Why::Covered { place } => put_number(head, b"COVERED", place, sink),
        Why::Debits { entry } => put_number(head, b"DEBITS", entry, sink),
        Why::Blocked {
            account,
            msg,
            entry,
        } => put_behind(head, setting, account, msg, entry, sink),
        Why::Short { account, balance } => {
            put_short(head, setting, account, balance.get(), needed, sink)
        }
        Why::Fund { account } => put_account(head, b"FUND", setting, account, sink),
        Why::NoFund => put_word(head, b"NOFUND", sink),
        Why::Answer => put_word(head, b"ANSWER", sink),
        Why::Enough { balance, need } => put_enough(head, balance.get(), need.get(), sink),
        Why::Empty => put_word(head, b"EMPTY", sink),
        Why::Clock { clock } => put_clock(head, clock, sink),
        Why::Left { msg } => put_number(head, b"LEFT", msg, sink),
        Why::Ready { want } => put_ready(head, setting, want, sink),
    }
}

// ---- items

fn put_known<D: Desk, S: Sink>(
    desk: &D,
    n: u32,
    k: u32,
    want: Want,
    why: Why,
    sink: &mut S,
) -> Result<(), WriteFault>
    requires all { HoldsAll (D.held desk.now) (D.day desk.now) }
    ensures { Puts (S.state sink.old) (S.state sink.new)
        (reason_line (D.day desk.now) (D.past desk.now) n k want (Some why)) result }
{
    let needed = needed_for(desk, want, &why);
    let head = item_head(n, k);
    put_reason(desk.setting(), head.as_bytes(), needed, why, sink)
}

// Writes why an item waits, where it does for a reason.
fn put_if_waiting<D: Desk, S: Sink>(
    desk: &D,
    n: u32,
    k: u32,
    want: Want,
    why: Option<Why>,
    sink: &mut S,
) -> Result<(), WriteFault>
    requires all { HoldsAll (D.held desk.now) (D.day desk.now) }
    ensures { Puts (S.state sink.old) (S.state sink.new)
        (reason_line (D.day desk.now) (D.past desk.now) n k want why) result }
{
    match why {
        Some(why) => put_known(desk, n, k, want, why, sink),
        None => Ok(()),
    }
}

fn put_want<D: Desk, S: Sink>(
    desk: &D,
    n: u32,
    k: u32,
    want: Want,
    moves: &mut MoveList,
    sink: &mut S,
) -> Result<(), WriteFault>
    requires settles { IsSettling (D.day desk.now) want }
    requires all { HoldsAll (D.held desk.now) (D.day desk.now) }
    requires moves { moves.old ≡ clear }
    ensures put { Puts (S.state sink.old) (S.state sink.new)
        (want_line (D.day desk.now) (D.past desk.now) n k (Some want)) result }
    ensures moves { moves.new ≡ clear }
{
    let why = why_unsettled(desk, want, moves);
    put_if_waiting(desk, n, k, want, why, sink)
}

#[tactic(auto, unfolding(crate::specs::Told::item_text))]
fn put_item<D: Desk, S: Sink>(
    desk: &D,
    n: u32,
    k: u32,
    moves: &mut MoveList,
    sink: &mut S,
) -> Result<(), WriteFault>
    requires all { HoldsAll (D.held desk.now) (D.day desk.now) }
    requires moves { moves.old ≡ clear }
    ensures put { Puts (S.state sink.old) (S.state sink.new)
        (item_text (D.day desk.now) (D.past desk.now) n k) result }
    ensures moves { moves.new ≡ clear }
{
    match waiting_want(desk, n, k) {
        Some(want) => put_want(desk, n, k, want, moves, sink),
        None => Ok(()),
    }
}

fn entries_of<D: Desk>(desk: &D, n: u32) -> u32
    ensures { result ≡ length (entries (D.day desk.now) n) }
{
    entry_count(desk.setting(), n)
}

// The entries of a message.
fn put_entries<D: Desk, S: Sink>(
    desk: &D,
    n: u32,
    moves: &mut MoveList,
    sink: &mut S,
) -> Result<(), WriteFault>
    requires all { HoldsAll (D.held desk.now) (D.day desk.now) }
    requires moves { moves.old ≡ clear }
    ensures put { Puts (S.state sink.old) (S.state sink.new)
        (flat_map (item_text (D.day desk.now) (D.past desk.now) n)
        (range_with_len 1 (length (entries (D.day desk.now) n)))) result }
    ensures moves { moves.new ≡ clear }
{
    for before in 0..entries_of(desk, n) {
        put_item(desk, n, before + 1, moves, sink)?;
    }
    Ok(())
}

fn put_items<D: Desk, S: Sink>(
    desk: &D,
    n: u32,
    moves: &mut MoveList,
    sink: &mut S,
) -> Result<(), WriteFault>
    requires all { HoldsAll (D.held desk.now) (D.day desk.now) }
    requires moves { moves.old ≡ clear }
    ensures put { Puts (S.state sink.old) (S.state sink.new)
        (flat_map (item_text (D.day desk.now) (D.past desk.now) n)
        (item_numbers (D.day desk.now) n)) result }
    ensures moves { moves.new ≡ clear }
{
    put_item(desk, n, 0, moves, sink)?;
    put_entries(desk, n, moves, sink)
}

fn put_unfinished<D: Desk, S: Sink>(
    desk: &D,
    n: u32,
    phase: Phase,
    moves: &mut MoveList,
    sink: &mut S,
) -> Result<(), WriteFault>
    requires all { HoldsAll (D.held desk.now) (D.day desk.now) }
    requires moves { moves.old ≡ clear }
    ensures put { Puts (S.state sink.old) (S.state sink.new)
        (items_text (D.day desk.now) (D.past desk.now) n phase) result }
    ensures moves { moves.new ≡ clear }
{
    if is_unfinished(phase) {
        put_items(desk, n, moves, sink)
    } else {
        Ok(())
    }
}

// ---- messages

// By the word of its phase.
fn put_message_line<S: Sink>(
    setting: &Setting,
    n: u32,
    phase: &[u8],
    sink: &mut S,
) -> Result<(), WriteFault>
    ensures { Puts (S.state sink.old) (S.state sink.new)
        (text_line (codes "W" ∷ decimal n ∷ sender setting.now.day n ∷ id_of setting.now.day n
        ∷ phase.now ∷ [])) result }
{
    let mut digits = Buffer::new();
    let fields: [&[u8]; 5] = [
        b"W",
        digits.format(n).as_bytes(),
        sender(&setting.day, n),
        message_id(setting, n),
        phase,
    ];
    put_fields(sink, &fields)
}

#[tactic(auto, unfolding(crate::specs::Told::message_text))]
fn put_message<D: Desk, S: Sink>(
    desk: &D,
    n: u32,
    moves: &mut MoveList,
    sink: &mut S,
) -> Result<(), WriteFault>
    requires all { HoldsAll (D.held desk.now) (D.day desk.now) }
    requires moves { moves.old ≡ clear }
    ensures put { Puts (S.state sink.old) (S.state sink.new)
        (message_text (D.day desk.now) (D.past desk.now) n) result }
    ensures moves { moves.new ≡ clear }
{
    let phase = desk.phase(n);
    put_message_line(desk.setting(), n, phase_word(phase), sink)?;
    put_unfinished(desk, n, phase, moves, sink)
}

fn messages_of<D: Desk>(desk: &D) -> u32
    ensures { result ≡ length (D.day desk.now).messages }
{
    message_count(desk.setting())
}

/// Writes each message, and directly after it its items that wait. The list of moves is empty before and after.
#[tactic(auto, unfolding(crate::specs::Told::messages_text))]
pub fn put_messages<D: Desk, S: Sink>(
    desk: &D,
    moves: &mut MoveList,
    sink: &mut S,
) -> Result<(), WriteFault>
    requires all { HoldsAll (D.held desk.now) (D.day desk.now) }
    requires moves { moves.old ≡ clear }
    ensures put { Puts (S.state sink.old) (S.state sink.new)
        (messages_text (D.day desk.now) (D.past desk.now)) result }
    ensures moves { moves.new ≡ clear }
{
    for before in 0..messages_of(desk) {
        put_message(desk, before + 1, moves, sink)?;
    }
    Ok(())
}
