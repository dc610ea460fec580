//! The line of the first want that is ready, for who makes one line at a time. It is found in a few steps, however many items wait.
ghost use Rattle.std.specs.Prelude.{◌≡◌, ◌<◌, false};
ghost use Rattle.machine.specs.Telling.Facts.{untaken_reached};
ghost use Rattle.machine.specs.Telling.History.{is_ended};
ghost use Rattle.ready_items.specs.Kept.{IsRenewed};
ghost use Rattle.scan_laws.specs.Numbers.{item_count};
ghost use Rattle.scan_laws.specs.Runs.{want_at};
ghost use Rattle.settle_floor.specs.Floors.{AtWork, IsFor};
ghost use Rattle.settle_floor.specs.NextLines.{MakesReady, MakesWant, MayMakeReady};

use crate::floor::Floor;
use account_book::Till;
use commit_journal::Want;
use rule_book::Setting;

impl Floor {
    /// The first message of the rounds reached that isn't taken.
    pub fn untaken_reached(&self, setting: &Setting) -> Option<u32>
        requires opened { IsFor setting.now.day self.now }
        ensures { result ≡ untaken_reached setting.now.day self.now.journal.history }
    {
        self.lines.untaken_reached(setting)
    }

    // Makes the line of the want, where it has one.
    fn make<T: Till>(&mut self, setting: &Setting, till: &mut T, want: Want) -> Option<u32>
        requires at_work { AtWork setting.now.day self.old (T.holdings till.old) }
        ensures made { MakesWant setting.now.day self.old.journal.history self.new.journal.history
            want result }
        ensures at_work { AtWork setting.now.day self.new (T.holdings till.new) }
    {
        match self.answer(setting, till, want) {
            Ok(place) => Some(place),
            Err(_) => None,
        }
    }

    // Makes the line of the item of this number, where it has one.
    fn make_item<T: Till>(&mut self, setting: &Setting, till: &mut T, number: u32) -> Option<u32>
        requires at_work { AtWork setting.now.day self.old (T.holdings till.old) }
        requires within { number < item_count setting.now.day }
        ensures made { MakesWant setting.now.day self.old.journal.history self.new.journal.history
            (want_at setting.now.day self.old.journal.history number) result }
        ensures at_work { AtWork setting.now.day self.new (T.holdings till.new) }
    {
        let item = self.lines.item(number);
        let want = self.want_at(setting, till, item.msg, item.entry);
        self.make(setting, till, want)
    }

    // Makes the line of the next member, where it has one: from the beginning on no item before it is ready.
    fn make_member<T: Till>(&mut self, setting: &Setting, till: &mut T) -> Option<u32>
        requires at_work { AtWork setting.now.day self.old (T.holdings till.old) }
        requires renewed { IsRenewed self.old.index.ready }
        requires start { self.old.index.ready.at ≡ 0 }
        ensures made { MayMakeReady setting.now.day self.old.journal.history
            self.new.journal.history result }
        ensures at_work { AtWork setting.now.day self.new (T.holdings till.new) }
    {
        match self.next_member() {
            Some(number) => self.make_item(setting, till, number),
            None => None,
        }
    }

    // Makes the line of the first want that is ready, for which it looks at each item that is due unless no member is left.
    fn make_candidate<T: Till>(&mut self, setting: &Setting, till: &mut T) -> Option<u32>
        requires at_work { AtWork setting.now.day self.old (T.holdings till.old) }
        requires lasts { is_ended self.old.journal.history ≡ false }
        ensures made { MakesReady setting.now.day self.old.journal.history self.new.journal.history
            result }
        ensures at_work { AtWork setting.now.day self.new (T.holdings till.new) }
    {
        match self.candidate(setting, till) {
            Some(want) => self.make(setting, till, want),
            None => None,
        }
    }

    /// Makes the line of the first want that is ready, by message and by entry and then the sweeps by account, and answers its place,
    /// from 1: it is put at the end of the journal, and its moves are made on the till. None where nothing is ready: then no line is
    /// made. Takes no memory.
    pub fn make_ready<T: Till>(&mut self, setting: &Setting, till: &mut T) -> Option<u32>
        requires at_work { AtWork setting.now.day self.old (T.holdings till.old) }
        requires lasts { is_ended self.old.journal.history ≡ false }
        ensures made { MakesReady setting.now.day self.old.journal.history self.new.journal.history
            result }
        ensures at_work { AtWork setting.now.day self.new (T.holdings till.new) }
    {
        self.go_on_from(setting, till, 0);
        match self.make_member(setting, till) {
            Some(place) => Some(place),
            None => self.make_candidate(setting, till),
        }
    }
}
