//! Which items are counted, and what these take from the accounts of a bank and bring to them.
ghost use Rattle.std.specs.Prelude.{◌≡◌, ◌↔◌, ◌<◌, ◌≤◌, false, true, length, slice_set, IfOk};
ghost use Rattle.number_set.specs.Members.{has};
ghost use Rattle.scan_laws.specs.Numbers.{item_of};
ghost use Rattle.liquidity_view.specs.Counted.{AddsUp, most_of_all, none_counted};

use crate::shares::item_share;
use crate::sides::Side;
use cash_amounts::{Memory, Name};
use number_set::NumberSet;
use rule_book::{Item, Setting};
use std::alloc::Global;
use std::marker::Model;

fn is_same(one: bool, other: bool) -> bool
    ensures { (result ≡ true) ↔ (one ≡ other) }
{
    if one { other } else { !other }
}

// By number the items that are counted, and the sums over these, in cents.
#[derive(Drop)]
pub struct Counted {
    set: NumberSet,
    leaving: u128,
    coming: u128,
}

impl Model for Counted {
    ghost use Rattle.liquidity_view.specs.Counted.{Counted, AreLow};

    ghost Value = { Counted };

    ghost view = { λ counted. record {
      set = counted.set;
      leaving = counted.leaving;
      coming = counted.coming;
    } };

    ghost invariant = { λ counted. AreLow counted.leaving counted.coming };
}

impl Counted {
    // Of so many items none.
    pub fn with_room(alloc: Global, count: u32) -> Result<Counted, Memory>
        ensures { IfOk result (λ counted. counted ≡ none_counted count) }
    {
        let set = NumberSet::with_room(alloc, count)?;
        Ok(Counted {
            set,
            leaving: 0,
            coming: 0,
        })
    }

    // Counts an item that wasn't.
    fn add(&mut self, setting: &Setting, name: &Name, number: u32, item: Item)
        requires sums { AddsUp setting.now.day name.now self.old }
        requires within { number < length self.old.set }
        requires item { item ≡ item_of setting.now.day number }
        requires uncounted { has self.old.set number ≡ false }
        ensures set { self.new.set ≡ slice_set self.old.set number true }
        ensures sums { AddsUp setting.now.day name.now self.new }
    {
        self.leaving += item_share(setting, name, Side::Out, item.msg, item.entry);
        self.coming += item_share(setting, name, Side::In, item.msg, item.entry);
        self.set.insert(number);
    }

    // Counts an item no longer.
    fn take_off(&mut self, setting: &Setting, name: &Name, number: u32, item: Item)
        requires sums { AddsUp setting.now.day name.now self.old }
        requires within { number < length self.old.set }
        requires item { item ≡ item_of setting.now.day number }
        requires counted { has self.old.set number ≡ true }
        ensures set { self.new.set ≡ slice_set self.old.set number false }
        ensures sums { AddsUp setting.now.day name.now self.new }
    {
        self.leaving -= item_share(setting, name, Side::Out, item.msg, item.entry);
        self.coming -= item_share(setting, name, Side::In, item.msg, item.entry);
        self.set.remove(number);
    }

    // Counts the item of a number, or doesn't. Its share is asked for only where that changes: that of a batch of B is a sum over
    // its entries.
    pub fn put(&mut self, setting: &Setting, name: &Name, number: u32, item: Item, counts: bool)
        requires sums { AddsUp setting.now.day name.now self.old }
        requires within { number < length self.old.set }
        requires item { item ≡ item_of setting.now.day number }
        ensures set { self.new.set ≡ slice_set self.old.set number counts }
        ensures sums { AddsUp setting.now.day name.now self.new }
    {
        if is_same(self.set.contains(number), counts) {
            return;
        }
        if counts {
            self.add(setting, name, number, item);
        } else {
            self.take_off(setting, name, number, item);
        }
    }

    // What the items that are counted take.
    pub fn leaving(&self) -> u128
        ensures value { result ≡ self.now.leaving }
        ensures small { result ≤ most_of_all }
    {
        self.leaving
    }

    // What they bring.
    pub fn coming(&self) -> u128
        ensures value { result ≡ self.now.coming }
        ensures small { result ≤ most_of_all }
    {
        self.coming
    }
}
