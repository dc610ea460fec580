//! Accounts that are touched.
ghost use Rattle.std.specs.Prelude.{◌≡◌, ◌+◌, true, length, slice_set};
ghost use Rattle.machine.specs.Records.Messages.{entries};
ghost use Rattle.pending_items.specs.Parts.{account_of};
ghost use Rattle.ready_items.specs.Touching.{TouchesBelow, TouchesParts, touched_by};
ghost use Rattle.ready_items.specs.Noting.{Touches, TouchesMoves};

use crate::found::set_member;
use commit_journal::Move;
use number_set::NumberSet;
use rule_book::parts::{entry_count, item_move};
use rule_book::sorts::is_b;
use rule_book::{Item, Setting};

fn touch(touched: &mut NumberSet, a: u32)
    ensures { touched.new ≡ slice_set touched.old a true }
{
    set_member(touched, a, true);
}

// The account that a part of an item debits.
fn touch_part(touched: &mut NumberSet, setting: &Setting, part: Item)
    ensures { touched.new ≡ touched_by (account_of setting.now.day part) touched.old }
{
    match item_move(setting, part.msg, part.entry) {
        Some(found) => touch(touched, found.debit),
        None => {}
    }
}

fn touch_parts(touched: &mut NumberSet, setting: &Setting, n: u32)
    ensures { TouchesParts setting.now.day n (length (entries setting.now.day n) + 1) touched.old
        touched.new }
{
    for k in 0..entry_count(setting, n) + 1 {
        touch_part(touched, setting, Item { msg: n, entry: k });
    }
}

// All accounts on which an item stands.
pub fn touch_item(touched: &mut NumberSet, setting: &Setting, item: Item)
    ensures { Touches setting.now.day item touched.old touched.new }
{
    if !is_b(setting, item.msg) {
        touch_part(touched, setting, item);
        return;
    }
    if item.entry == 0 {
        touch_parts(touched, setting, item.msg);
    }
}

// All accounts of moves.
pub fn touch_moves(touched: &mut NumberSet, moves: &[Move])
    ensures { TouchesMoves moves.now touched.old touched.new }
{
    for found in moves {
        touch(touched, found.debit);
        touch(touched, found.credit);
    }
}

// All accounts.
pub fn touch_all(touched: &mut NumberSet)
    ensures { TouchesBelow (length touched.old) touched.old touched.new }
{
    for a in 0..touched.bound() {
        touch(touched, a);
    }
}
