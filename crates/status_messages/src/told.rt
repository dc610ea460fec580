//! What a line tells the parties, each cause by a function.
ghost use Rattle.std.specs.Prelude.{◌≡◌, ◌&&◌, if◌then◌else◌};
ghost use Rattle.std.specs.List.{flat_map};
ghost use Rattle.outside_io.specs.Calls.{Puts};
ghost use Rattle.commit_journal.specs.Histories.{oldest};
ghost use Rattle.machine.specs.Records.Messages.{entries, is_d, sort_of};
ghost use Rattle.machine.specs.Records.Setup.{owner};
ghost use Rattle.status_messages.specs.StatusTexts.{status_text};
ghost use Rattle.status_messages.specs.Statuses.{account_name, id_of, moved_on, reply, turn_told};
ghost use Rattle.status_messages.specs.LineTexts.{ask_text, batch_text, failure_text, information_text, information_to, intake_text, is_acceptance, is_moved_by, move_text, moves_text, rejection, rejections_text, settlement_text, text_unless, unmoved};

use crate::noted::{Noted, is_acceptance};
use crate::status::TurnCode;
use crate::text::{put_moved, put_turn};
use batch_records::{Day, Entry};
use cash_amounts::{AccountNumber, Cents, EntryNumber, LinePlace, MessageNumber};
use commit_journal::{Code, Head, Kind, Move};
use number_set::NumberSet;
use outside_io::{Sink, WriteFault};
use rule_book::Setting;
use rule_book::parts::{account, entries, entry_count, message, sender};
use rule_book::sorts::is_d;

// ---- names, empty where there is none

fn id(day: &Day, n: u32) -> &[u8]
    ensures { result.now ≡ id_of day.now n }
{
    match message(day, n) {
        Some(message) => message.id.as_bytes(),
        None => b"",
    }
}

fn owner(day: &Day, a: u32) -> &[u8]
    ensures { result.now ≡ owner day.now a }
{
    match account(day, a) {
        Some(account) => account.owner.as_bytes(),
        None => b"",
    }
}

/// The name of an account, empty where there is none.
pub fn account_name(day: &Day, a: AccountNumber) -> &[u8]
    ensures { result.now ≡ account_name day.now a }
{
    match account(day, a) {
        Some(account) => account.name.as_bytes(),
        None => b"",
    }
}

// ---- turns

// That message n, or its entry k, took a turn, told to the message's sender.
#[tactic(auto, unfolding(crate::specs::StatusTexts::status_text))]
pub fn put_told<S: Sink>(
    day: &Day,
    place: LinePlace,
    code: TurnCode,
    n: MessageNumber,
    k: EntryNumber,
    reason: Code,
    sink: &mut S,
) -> Result<(), WriteFault>
    ensures { Puts (S.state sink.old) (S.state sink.new)
        (status_text (turn_told day.now place code n k reason)) result }
{
    let from = sender(day, n);
    put_turn(place, from, code, n, from, id(day, n), k, reason, sink)
}

fn reply(code: Code) -> TurnCode
    ensures { result ≡ reply code }
{
    match code {
        Code::Ok => TurnCode::Acpt,
        Code::Du => TurnCode::Dupl,
        _ => TurnCode::Rjct,
    }
}

// An intake, told to the sender.
pub fn put_intake<S: Sink>(
    day: &Day,
    place: LinePlace,
    head: Head,
    sink: &mut S,
) -> Result<(), WriteFault>
    ensures { Puts (S.state sink.old) (S.state sink.new) (intake_text day.now place head) result }
{
    if matches!(head.kind, Kind::In) {
        put_told(day, place, reply(head.code), head.msg, 0, head.code, sink)
    } else {
        Ok(())
    }
}

// That the system is asked for its guarantee fund.
pub fn put_ask<S: Sink>(
    day: &Day,
    place: LinePlace,
    head: Head,
    sink: &mut S,
) -> Result<(), WriteFault>
    ensures { Puts (S.state sink.old) (S.state sink.new) (ask_text day.now place head) result }
{
    if matches!(head.kind, Kind::Ask) {
        put_told(day, place, TurnCode::Askg, head.msg, 0, Code::Ok, sink)
    } else {
        Ok(())
    }
}

// That a message ended unsettled, told to its sender.
pub fn put_failure<S: Sink>(
    day: &Day,
    place: LinePlace,
    head: Head,
    sink: &mut S,
) -> Result<(), WriteFault>
    ensures { Puts (S.state sink.old) (S.state sink.new) (failure_text day.now place head) result }
{
    if matches!(head.kind, Kind::Expire | Kind::Refuse) {
        put_told(day, place, TurnCode::Fail, head.msg, 0, head.code, sink)
    } else {
        Ok(())
    }
}

// ---- moves

// That an amount left account a, or came to it, told to its owner.
#[tactic(auto, unfolding(crate::specs::StatusTexts::status_text))]
fn put_side<S: Sink>(
    day: &Day,
    place: u32,
    debit: bool,
    a: u32,
    amount: Cents,
    sink: &mut S,
) -> Result<(), WriteFault>
    ensures { Puts (S.state sink.old) (S.state sink.new)
        (status_text (moved_on day.now place debit a amount)) result }
{
    put_moved(
        place,
        owner(day, a),
        debit,
        account_name(day, a),
        amount,
        sink,
    )
}

fn put_move<S: Sink>(day: &Day, place: u32, one: Move, sink: &mut S) -> Result<(), WriteFault>
    ensures { Puts (S.state sink.old) (S.state sink.new) (move_text day.now place one) result }
{
    put_side(day, place, true, one.debit, one.amount, sink)?;
    put_side(day, place, false, one.credit, one.amount, sink)
}

// Each move, told to the owners of its accounts.
pub fn put_moves<S: Sink>(
    day: &Day,
    place: LinePlace,
    moves: &[Move],
    sink: &mut S,
) -> Result<(), WriteFault>
    ensures { Puts (S.state sink.old) (S.state sink.new) (moves_text day.now place moves.now)
        result }
{
    for one in moves {
        put_move(day, place, *one, sink)?;
    }
    Ok(())
}

// ---- information

#[tactic(auto, unfolding(crate::specs::StatusTexts::status_text))]
fn put_information_to<S: Sink>(
    day: &Day,
    place: u32,
    n: u32,
    a: u32,
    sink: &mut S,
) -> Result<(), WriteFault>
    ensures { Puts (S.state sink.old) (S.state sink.new) (information_to day.now place n a) result }
{
    let (to, from) = (owner(day, a), sender(day, n));
    let code = TurnCode::Info;
    put_turn(place, to, code, n, from, id(day, n), 0, Code::Ok, sink)
}

// That batch n was accepted, told to the banks of these first cash accounts.
pub fn put_information<S: Sink>(
    day: &Day,
    banks: &NumberSet,
    place: LinePlace,
    n: MessageNumber,
    sink: &mut S,
) -> Result<(), WriteFault>
    ensures { Puts (S.state sink.old) (S.state sink.new)
        (information_text day.now place n banks.now) result }
{
    let mut at = 0;
    while let Some(a) = banks.next(at) {
        put_information_to(day, place, n, a, sink)?;
        at = a + 1;
    }
    Ok(())
}

// ---- objections

// That batch b, to which the newest of these lines accepts an objection, is revoked.
pub fn put_batch_revocation<S: Sink>(
    lines: &Noted,
    b: MessageNumber,
    sink: &mut S,
) -> Result<(), WriteFault>
    ensures { Puts (S.state sink.old) (S.state sink.new)
        (batch_text lines.now.setting.now.day (oldest lines.now.journal.now.history lines.now.place)
        lines.now.place b) result }
{
    if lines.is_whole_revoked(b) {
        let day = &lines.setting.day;
        put_told(day, lines.place, TurnCode::Rvkd, b, 0, Code::Ok, sink)
    } else {
        Ok(())
    }
}

// ---- entries of D that aren't booked

// Whether the move that comes next, if any does, has the amount of the entry.
fn is_moved(moves: &[Move], next: usize, entry: &Entry) -> bool
    ensures { result ≡ is_moved_by moves.now next entry.now }
{
    match moves.get(next) {
        Some(one) => one.amount == entry.amount,
        None => false,
    }
}

// How many moves an entry takes.
fn taken(moved: bool) -> usize
    ensures { result ≡ (if moved then 1 else 0) }
{
    if moved { 1 } else { 0 }
}

fn put_unless<S: Sink>(
    moved: bool,
    day: &Day,
    place: u32,
    n: u32,
    k: u32,
    sink: &mut S,
) -> Result<(), WriteFault>
    ensures { Puts (S.state sink.old) (S.state sink.new)
        (text_unless moved (rejection day.now place n k)) result }
{
    if moved {
        Ok(())
    } else {
        put_told(day, place, TurnCode::Rjct, n, k, Code::Nc, sink)
    }
}

// The entries that a line of these moves doesn't book: to each booked one its move comes in turn.
fn put_unmoved<S: Sink>(
    setting: &Setting,
    place: u32,
    n: u32,
    moves: &[Move],
    sink: &mut S,
) -> Result<(), WriteFault>
    ensures { Puts (S.state sink.old) (S.state sink.new)
        (flat_map (rejection setting.now.day place n)
        (unmoved 1 (entries setting.now.day n) moves.now)) result }
{
    let list = entries(&setting.day, n);
    let mut next = 0;
    for before in 0..entry_count(setting, n) {
        let moved = is_moved(moves, next, &list[before as usize]);
        put_unless(moved, &setting.day, place, n, before + 1, sink)?;
        next += taken(moved);
    }
    Ok(())
}

fn rejects(setting: &Setting, head: Head) -> bool
    ensures { result ≡ (is_acceptance head && is_d (sort_of setting.now.day head.msg)) }
{
    is_acceptance(head) && is_d(setting, head.msg)
}

// Which entries of an accepted batch of procedure D aren't booked.
pub fn put_rejections<S: Sink>(
    setting: &Setting,
    place: LinePlace,
    head: Head,
    moves: &[Move],
    sink: &mut S,
) -> Result<(), WriteFault>
    ensures { Puts (S.state sink.old) (S.state sink.new)
        (rejections_text setting.now.day place head moves.now) result }
{
    if rejects(setting, head) {
        put_unmoved(setting, place, head.msg, moves, sink)
    } else {
        Ok(())
    }
}

// ---- settlement

// That message n is settled, where it wasn't before.
pub fn put_settlement<S: Sink>(
    day: &Day,
    place: LinePlace,
    n: MessageNumber,
    before: bool,
    after: bool,
    sink: &mut S,
) -> Result<(), WriteFault>
    ensures { Puts (S.state sink.old) (S.state sink.new)
        (settlement_text day.now place n before after) result }
{
    if after && !before {
        put_told(day, place, TurnCode::Setl, n, 0, Code::Ok, sink)
    } else {
        Ok(())
    }
}
