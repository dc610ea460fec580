//! What an item asks of an account, and which items are ready by themselves.
ghost use Rattle.std.specs.Prelude.{◌≡◌, ◌&&◌, false, filter, map, nat_le, not, true, unwrap_or};
ghost use Rattle.std.specs.Option.{option_map_or};
ghost use Rattle.std.specs.List.{list_all, list_any};
ghost use Rattle.commit_journal.specs.Line.{History};
ghost use Rattle.machine.specs.Telling.History.{clock};
ghost use Rattle.machine.specs.Records.Messages.{is_b, part, sort_of};
ghost use Rattle.machine.specs.Stages.Pending.{debtors, is_pending};
ghost use Rattle.machine.specs.Stages.Phases.{phase};
ghost use Rattle.scan_laws.specs.Views.{alone};
ghost use Rattle.day_facts.specs.Facts.{StandsFor};
ghost use Rattle.due_items.specs.Kept.{KeepsDue};
ghost use Rattle.rule_book.specs.Moves.{goes_to};
ghost use Rattle.ready_items.specs.Found.{IsHeadCandidate};
ghost use Rattle.ready_items.specs.Goes.{asks, by_itself, is_account, is_placed, takes};

use cash_amounts::AccountNumber;
use commit_journal::Move;
use day_facts::DayFacts;
use due_items::DueItems;
use period_calendar::MIDNIGHT;
use rule_book::batches::{goes_to, gross, technical_of};
use rule_book::parts::{account_count, entry_moves, item_move, must_leave};
use rule_book::sorts::{is_a_or_b, is_b, may_lapse};
use rule_book::{Item, Phase, Setting};

// ---- what an item takes

fn amount(setting: &Setting, item: Item) -> u128
    ensures { result ≡ option_map_or (λ e. e.amount) (part setting.now.day item.msg item.entry) 0 }
{
    match item_move(setting, item.msg, item.entry) {
        Some(found) => u128::from(found.amount.get()),
        None => 0,
    }
}

fn takes(setting: &Setting, item: Item, a: u32) -> u128
    ensures { result ≡ takes setting.now.day item a }
{
    if is_b(setting, item.msg) {
        gross(setting, item.msg, a)
    } else {
        amount(setting, item)
    }
}

// Whether this much is enough for what it takes and must leave.
fn affords(setting: &Setting, item: Item, a: u32, money: u64) -> bool
    ensures { result ≡ nat_le (asks setting.now.day item a) money }
{
    let left = must_leave(setting, item.msg, a);
    if money < left {
        return false;
    }
    takes(setting, item, a) <= u128::from(money - left)
}

// The head of account a, if this much is enough for it.
pub fn head_candidate(
    setting: &Setting,
    due: &DueItems,
    a: AccountNumber,
    head: Item,
    money: u64,
) -> Option<u32>
    ensures { (J : History) → KeepsDue setting.now.day J due.now
        → IsHeadCandidate setting.now.day a head money result }
{
    if !affords(setting, head, a, money) {
        return None;
    }
    due.number(head)
}

// ---- by itself

fn is_account(setting: &Setting, a: u32) -> bool
    ensures { result ≡ is_account setting.now.day a }
{
    1 <= a && a <= account_count(setting)
}

// Whether some account is one of the day's from which these moves go to the technical account.
fn is_some_placed(setting: &Setting, moves: &[Move], technical: Option<u32>) -> bool
    ensures { result ≡ list_any (is_account setting.now.day)
        (map (λ m. m.debit) (filter (goes_to technical) moves.now)) }
{
    moves
        .iter()
        .filter(|found| goes_to(found, technical))
        .map(|found| found.debit)
        .any(|a| is_account(setting, a))
}

fn are_all_placed(setting: &Setting, moves: &[Move], technical: Option<u32>) -> bool
    ensures { result ≡ list_all (is_account setting.now.day)
        (map (λ m. m.debit) (filter (goes_to technical) moves.now)) }
{
    moves
        .iter()
        .filter(|found| goes_to(found, technical))
        .map(|found| found.debit)
        .all(|a| is_account(setting, a))
}

fn is_some_debtor_placed(setting: &Setting, n: u32) -> bool
    ensures { result ≡ list_any (is_account setting.now.day) (debtors setting.now.day n) }
{
    is_some_placed(setting, entry_moves(setting, n), technical_of(setting, n))
}

fn are_debtors_placed(setting: &Setting, n: u32) -> bool
    ensures { result ≡ list_all (is_account setting.now.day) (debtors setting.now.day n) }
{
    are_all_placed(setting, entry_moves(setting, n), technical_of(setting, n))
}

fn is_batch_placed(setting: &Setting, item: Item) -> bool
    requires { is_b (sort_of setting.now.day item.msg) ≡ true }
    ensures { result ≡ is_placed setting.now.day item }
{
    is_some_debtor_placed(setting, item.msg) && are_debtors_placed(setting, item.msg)
}

fn is_part_placed(setting: &Setting, item: Item) -> bool
    requires { is_b (sort_of setting.now.day item.msg) ≡ false }
    ensures { result ≡ is_placed setting.now.day item }
{
    match item_move(setting, item.msg, item.entry) {
        Some(found) => is_account(setting, found.debit),
        None => false,
    }
}

fn is_alone_in(setting: &Setting, n: u32, time: u32, phase: Phase) -> bool
    ensures { result ≡ unwrap_or (alone setting.now.day n 0 phase time) false }
{
    match phase {
        Phase::Overdue => may_lapse(setting, n),
        Phase::Answered => is_a_or_b(setting, n),
        Phase::Asking => is_a_or_b(setting, n) && time == MIDNIGHT,
        _ => false,
    }
}

// Whether the item is ready by its message's phase alone.
fn is_alone(setting: &Setting, facts: &DayFacts, item: Item) -> bool
    ensures { (J : History) → StandsFor setting.now.day J facts.now
        → result ≡ unwrap_or
        (alone setting.now.day item.msg item.entry (phase setting.now.day J item.msg) (clock J))
        false }
{
    if item.entry != 0 {
        return false;
    }
    is_alone_in(
        setting,
        item.msg,
        facts.clock(),
        facts.phase(setting, item.msg),
    )
}

// Whether an item of a batch of B is pending and no account of the day can tell of it. That it is pending is asked first, as the
// batch may have many entries.
fn is_batch_unplaced(setting: &Setting, facts: &DayFacts, item: Item) -> bool
    requires { is_b (sort_of setting.now.day item.msg) ≡ true }
    ensures { (J : History) → StandsFor setting.now.day J facts.now
        → result ≡ (is_pending setting.now.day J item && not (is_placed setting.now.day item)) }
{
    facts.is_pending(setting, item) && !is_batch_placed(setting, item)
}

// Whether any other item is. Its account is asked first, as it mostly has one.
fn is_part_unplaced(setting: &Setting, facts: &DayFacts, item: Item) -> bool
    requires { is_b (sort_of setting.now.day item.msg) ≡ false }
    ensures { (J : History) → StandsFor setting.now.day J facts.now
        → result ≡ (is_pending setting.now.day J item && not (is_placed setting.now.day item)) }
{
    !is_part_placed(setting, item) && facts.is_pending(setting, item)
}

fn is_unplaced(setting: &Setting, facts: &DayFacts, item: Item) -> bool
    ensures { (J : History) → StandsFor setting.now.day J facts.now
        → result ≡ (is_pending setting.now.day J item && not (is_placed setting.now.day item)) }
{
    if is_b(setting, item.msg) {
        is_batch_unplaced(setting, facts, item)
    } else {
        is_part_unplaced(setting, facts, item)
    }
}

// Whether the item is ready by itself: by its message's phase alone, or as it is pending and no account of the day can tell of it.
pub fn by_itself(setting: &Setting, facts: &DayFacts, item: Item) -> bool
    ensures { (J : History) → StandsFor setting.now.day J facts.now
        → result ≡ by_itself setting.now.day J item }
{
    is_alone(setting, facts, item) || is_unplaced(setting, facts, item)
}
