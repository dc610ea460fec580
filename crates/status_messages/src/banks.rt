//! The banks with accounts in a batch, by their first cash accounts: found in the time of the batch's entries.
ghost use Rattle.std.specs.Prelude.{ℕ, ◌≡◌, ◌<◌, ◌||◌, Some, false, length, replicate};
ghost use Rattle.number_set.specs.Members.{has};
ghost use Rattle.machine.specs.Words.{same_account};
ghost use Rattle.status_messages.specs.LineTexts.{first_of, informs, is_called, is_called_in, is_informed};

use crate::noted::is_acceptance;
use batch_records::Day;
use commit_journal::{Head, Move};
use number_set::NumberSet;
use rule_book::Setting;
use rule_book::parts::{account, entry_moves, first_dca, info_end};

// The first cash account of whom an account belongs to.
fn first_of(setting: &Setting, a: u32) -> Option<u32>
    ensures { result ≡ first_of setting.now.day (Some a) }
{
    match account(&setting.day, a) {
        Some(record) => first_dca(setting, &record.owner),
        None => None,
    }
}

fn enter(banks: &mut NumberSet, setting: &Setting, account: u32)
    requires { length setting.now.day.accounts < length banks.old }
    ensures length { length banks.new ≡ length banks.old }
    ensures each { (a : ℕ) → has banks.new a
        ≡ (has banks.old a || same_account (first_of setting.now.day (Some account)) (Some a)) }
{
    match first_of(setting, account) {
        Some(a) => banks.insert(a),
        None => {}
    }
}

fn enter_both(banks: &mut NumberSet, setting: &Setting, found: &Move)
    requires { length setting.now.day.accounts < length banks.old }
    ensures length { length banks.new ≡ length banks.old }
    ensures each { (a : ℕ) → has banks.new a
        ≡ (has banks.old a || is_called_in setting.now.day a found.now) }
{
    enter(banks, setting, found.debit);
    enter(banks, setting, found.credit);
}

fn enter_all(banks: &mut NumberSet, setting: &Setting, n: u32)
    requires { length setting.now.day.accounts < length banks.old }
    ensures length { length banks.new ≡ length banks.old }
    ensures each { (a : ℕ) → has banks.new a ≡ (has banks.old a || is_called setting.now.day n a) }
{
    let list = entry_moves(setting, n);
    for found in list {
        enter_both(banks, setting, found);
    }
}

fn informs(day: &Day, head: Head) -> bool
    ensures { result ≡ informs day.now head }
{
    is_acceptance(head) && info_end(day, head.msg).is_some()
}

/// Enters the banks that the line informs of a batch. Takes no memory.
pub fn enter_informed(banks: &mut NumberSet, setting: &Setting, head: Head)
    requires { length setting.now.day.accounts < length banks.old }
    ensures length { length banks.new ≡ length banks.old }
    ensures each { (a : ℕ) → has banks.new a
        ≡ (has banks.old a || is_informed setting.now.day head a) }
{
    if informs(&setting.day, head) {
        enter_all(banks, setting, head.msg);
    }
}

/// Makes the set empty.
pub fn clear(banks: &mut NumberSet)
    ensures { banks.new ≡ replicate (length banks.old) false }
{
    let mut at = 0;
    while let Some(a) = banks.next(at) {
        banks.remove(a);
        at = a + 1;
    }
}
