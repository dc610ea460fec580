//! The want of an item that is due.
ghost use Rattle.std.specs.Prelude.{◌≡◌, is_some};
ghost use Rattle.commit_journal.specs.Line.{History};
ghost use Rattle.machine.specs.Orders.Hints.{hint_of, message_hint, pending_want};
ghost use Rattle.machine.specs.Records.Messages.{fund_of, sort_of};
ghost use Rattle.day_facts.specs.Facts.{StandsFor};
ghost use Rattle.due_items.specs.Wants.{answered_by, asking_by, hint_by, overdue_by};

use commit_journal::Want;
use day_facts::DayFacts;
use period_calendar::MIDNIGHT;
use rule_book::batches::fund_of;
use rule_book::sorts::{is_a_or_b, is_b, may_lapse};
use rule_book::{Item, Phase, Setting};

fn pending_want(setting: &Setting, item: Item) -> Want
    ensures { result ≡ pending_want setting.now.day item }
{
    if is_b(setting, item.msg) {
        Want::All { msg: item.msg }
    } else {
        Want::Book {
            msg: item.msg,
            entry: item.entry,
        }
    }
}

fn has_fund(setting: &Setting, n: u32) -> bool
    ensures { result ≡ is_some (fund_of setting.now.day n) }
{
    fund_of(setting, n).is_some()
}

// Of an overdue message.
fn overdue_want(setting: &Setting, n: u32, time: u32) -> Option<Want>
    ensures { result ≡ overdue_by (sort_of setting.now.day n) n
        (is_some (fund_of setting.now.day n)) time }
{
    if is_a_or_b(setting, n) && has_fund(setting, n) && time < MIDNIGHT {
        return Some(Want::Ask { msg: n });
    }
    if may_lapse(setting, n) {
        Some(Want::Expire { msg: n })
    } else {
        None
    }
}

// Of one on which the fund has answered.
fn answered_want(setting: &Setting, n: u32, answer: Option<bool>) -> Option<Want>
    ensures { result ≡ answered_by (sort_of setting.now.day n) n answer }
{
    if !is_a_or_b(setting, n) {
        return None;
    }
    match answer {
        Some(true) => Some(Want::Cover { msg: n }),
        _ => Some(Want::Refuse { msg: n }),
    }
}

// Of one that waits for the answer.
fn asking_want(setting: &Setting, n: u32, time: u32) -> Option<Want>
    ensures { result ≡ asking_by (sort_of setting.now.day n) n time }
{
    if is_a_or_b(setting, n) && time == MIDNIGHT {
        Some(Want::Refuse { msg: n })
    } else {
        None
    }
}

fn want_in(setting: &Setting, n: u32, time: u32, answer: Option<bool>, phase: Phase) -> Option<Want>
    ensures { result ≡ hint_by (sort_of setting.now.day n) n (is_some (fund_of setting.now.day n))
        time answer phase }
{
    match phase {
        Phase::Overdue => overdue_want(setting, n, time),
        Phase::Answered => answered_want(setting, n, answer),
        Phase::Asking => asking_want(setting, n, time),
        _ => None,
    }
}

// Of a message whose phase asks for a line.
fn message_hint(setting: &Setting, facts: &DayFacts, n: u32) -> Option<Want>
    ensures { (J : History) → StandsFor setting.now.day J facts.now
        → result ≡ message_hint setting.now.day J n }
{
    want_in(
        setting,
        n,
        facts.clock(),
        facts.answer(n),
        facts.phase(setting, n),
    )
}

/// The want of an item, where it is pending or its message's phase asks for a line.
pub fn want_of(setting: &Setting, facts: &DayFacts, item: Item) -> Option<Want>
    ensures { (J : History) → StandsFor setting.now.day J facts.now
        → result ≡ hint_of setting.now.day J item }
{
    if facts.is_pending(setting, item) {
        return Some(pending_want(setting, item));
    }
    if item.entry == 0 {
        message_hint(setting, facts, item.msg)
    } else {
        None
    }
}
