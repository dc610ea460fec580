//! The taking of messages.
ghost use Rattle.std.specs.Prelude.{◌≡◌, ◌≤◌, ◌+◌, true, [], None, is_none, length};
ghost use Rattle.machine.specs.Making.Accounts.{accounts_of_want};
ghost use Rattle.rule_book.specs.Answering.{has_accounts, HasMoves, IsAnswer};
ghost use Rattle.machine.specs.Telling.Facts.{is_reached, untaken_earlier};
ghost use Rattle.machine.specs.Telling.History.{taken};
ghost use Rattle.machine.specs.Stages.Intake.{intake_code, intake_moves};
ghost use Rattle.machine.specs.Records.Messages.{entries, is_liquidity, is_message, round_of, sort_of, sort_of_batch};
ghost use Rattle.machine.specs.Making.Reasons.{why_not_in};
ghost use Rattle.settle_floor.specs.Taking.{obstacle_in};

use crate::codes::{answer_code, cycle_code, objection_code, payment_code, transfer_code};
use crate::desk::IndexedDesk;
use crate::payments::push_transfer;
use batch_records::{Day, RecordBody};
use cash_amounts::{MessageNumber, Procedure};
use commit_journal::{Code, Head, Kind, MoveList, Want};
use rule_book::lines::head;
use rule_book::parts::message;
use rule_book::{Desk, Setting, Why};

// ---- codes and moves

// The code of a liquidity transfer, and its move, where it is accepted.
#[tactic(auto, using(crate::proofs::PaymentFacts::transfer_moves_are))]
fn intake_of_transfer<D: Desk>(desk: &D, n: u32, moves: &mut MoveList) -> Code
    requires transfer { is_liquidity (sort_of (D.day desk.now) n) ≡ true }
    requires held { has_accounts (D.held desk.now) (D.day desk.now) (Want.In n) ≡ true }
    requires empty { moves.old.moves ≡ [] }
    requires room { 1 ≤ moves.old.room }
    ensures code { result ≡ intake_code (D.day desk.now) (D.past desk.now) n }
    ensures moves { moves.new.moves ≡ intake_moves (D.day desk.now) (D.past desk.now) n result }
    ensures room { HasMoves moves.old moves.new }
{
    let code = transfer_code(desk, n);
    if matches!(code, Code::Ok) {
        push_transfer(desk.setting(), n, moves);
    }
    code
}

// The code of a batch and its moves.
fn intake_of_batch<D: Desk>(desk: &D, n: u32, procedure: Procedure, moves: &mut MoveList) -> Code
    requires batch { sort_of (D.day desk.now) n ≡ sort_of_batch procedure }
    requires untaken { is_none (taken (D.past desk.now) n) ≡ true }
    requires held { has_accounts (D.held desk.now) (D.day desk.now) (Want.In n) ≡ true }
    requires empty { moves.old.moves ≡ [] }
    requires room { length (entries (D.day desk.now) n) ≤ moves.old.room }
    ensures code { result ≡ intake_code (D.day desk.now) (D.past desk.now) n }
    ensures moves { moves.new.moves ≡ intake_moves (D.day desk.now) (D.past desk.now) n result }
    ensures room { HasMoves moves.old moves.new }
{
    match procedure {
        Procedure::A => proc_a::intake(desk, n, moves),
        Procedure::B => proc_b::intake(desk, n, moves),
        Procedure::C => proc_c::intake(desk, n, moves),
        Procedure::D => proc_d::intake(desk, n, moves),
        Procedure::E => proc_e::intake(desk, n, moves),
    }
}

/// The code with which message n is taken, and the moves of its line: with code OK of a liquidity transfer its move, and of a
/// batch of D those of the entries that its technical account affords one after the other; else none.
pub fn intake<D: IndexedDesk>(desk: &D, n: MessageNumber, moves: &mut MoveList) -> Code
    requires message { is_message (sort_of (D.day desk.now) n) ≡ true }
    requires untaken { is_none (taken (D.past desk.now) n) ≡ true }
    requires held { has_accounts (D.held desk.now) (D.day desk.now) (Want.In n) ≡ true }
    requires empty { moves.old.moves ≡ [] }
    requires room { 1 + length (entries (D.day desk.now) n) ≤ moves.old.room }
    ensures code { result ≡ intake_code (D.day desk.now) (D.past desk.now) n }
    ensures moves { moves.new.moves ≡ intake_moves (D.day desk.now) (D.past desk.now) n result }
    ensures room { HasMoves moves.old moves.new }
{
    match message(&desk.setting().day, n) {
        Some(message) => match message.body {
            RecordBody::Batch { procedure, .. } => intake_of_batch(desk, n, procedure, moves),
            RecordBody::Pay { .. } => payment_code(desk, n),
            RecordBody::Liquidity { .. } => intake_of_transfer(desk, n, moves),
            RecordBody::Object { .. } => objection_code(desk, n),
            RecordBody::Confirm { .. } => answer_code(desk, n),
            RecordBody::Cycle { .. } => cycle_code(desk, n),
        },
        None => unreachable!(),
    }
}

// ---- which messages may be taken

// The number of stops that stand before a message.
fn round_of(day: &Day, n: u32) -> u32
    ensures { result ≡ round_of day.now n }
{
    match message(day, n) {
        Some(message) => message.round,
        None => 0,
    }
}

// Whether the clock has reached the stop after which a message stands.
fn is_reached<D: Desk>(desk: &D, n: u32) -> bool
    ensures { result ≡ is_reached (D.day desk.now) (D.past desk.now) n }
{
    round_of(&desk.setting().day, n) <= desk.round()
}

// The first message before message n, of its sender, that isn't taken. Where it is known that there is none, it isn't looked for.
fn earlier<D: IndexedDesk>(desk: &D, n: u32, is_next: bool) -> Option<u32>
    requires { is_next ≡ true → untaken_earlier (D.day desk.now) (D.past desk.now) n ≡ None }
    ensures { result ≡ untaken_earlier (D.day desk.now) (D.past desk.now) n }
{
    if is_next {
        return None;
    }
    desk.untaken_earlier(n)
}

// Why message n isn't taken, besides that the day may have ended.
#[tactic(auto, unfolding(crate::specs::Taking::obstacle_in))]
fn obstacle<D: IndexedDesk>(desk: &D, n: u32, is_next: bool) -> Option<Why>
    requires { is_next ≡ true → untaken_earlier (D.day desk.now) (D.past desk.now) n ≡ None }
    ensures { result ≡ obstacle_in (D.day desk.now) (D.past desk.now) n }
{
    let day = &desk.setting().day;
    if message(day, n).is_none() {
        return Some(Why::NoSuch);
    }
    if let Some(place) = desk.taken(n) {
        return Some(Why::Taken { place });
    }
    if !is_reached(desk, n) {
        return Some(Why::Round {
            round: round_of(day, n),
        });
    }
    match earlier(desk, n, is_next) {
        Some(msg) => Some(Why::Earlier { msg }),
        None => None,
    }
}

// Why message n isn't taken.
fn why_not_taken<D: IndexedDesk>(desk: &D, n: u32, is_next: bool) -> Option<Why>
    requires { is_next ≡ true → untaken_earlier (D.day desk.now) (D.past desk.now) n ≡ None }
    ensures { result ≡ why_not_in (D.day desk.now) (D.past desk.now) n }
{
    match desk.ended() {
        Some(place) => Some(Why::Over { place }),
        None => obstacle(desk, n, is_next),
    }
}

/// The head of the line of a want to take message n, by whatever number; or the first reason why there is no line. `Over`:
/// the day has ended. `NoSuch`: there is no such message. `Taken`: it is taken. `Round`: the clock hasn't reached the stop
/// after which it stands. `Earlier`: an earlier message of its sender isn't taken.
///
/// With a line, `moves` is left with its moves. With a reason it is as before. `is_next` says that the earlier messages of the
/// sender are known to be taken; they aren't looked for then.
pub fn judge_in<D: IndexedDesk>(
    desk: &D,
    n: MessageNumber,
    is_next: bool,
    moves: &mut MoveList,
) -> Result<Head, Why>
    requires next { is_next ≡ true → untaken_earlier (D.day desk.now) (D.past desk.now) n ≡ None }
    requires held { has_accounts (D.held desk.now) (D.day desk.now) (Want.In n) ≡ true }
    requires empty { moves.old.moves ≡ [] }
    requires room { 1 + length (entries (D.day desk.now) n) ≤ moves.old.room }
    ensures { IsAnswer (D.day desk.now) (D.past desk.now) (Want.In n) moves.old moves.new result }
{
    match why_not_taken(desk, n, is_next) {
        Some(why) => Err(why),
        None => {
            let code = intake(desk, n, moves);
            Ok(head(Kind::In, n, 0, code))
        }
    }
}
