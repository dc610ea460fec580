//! A desk over the lines so far: what they tell, and the balances of all accounts.
ghost use Rattle.std.specs.Prelude.{◌≡◌, ℕ, true, is_some};
ghost use Rattle.cash_amounts.specs.Numbers.{numbered};
ghost use Rattle.day_facts.specs.Facts.{StandsFor};
ghost use Rattle.day_facts.specs.Props.{StandsFor-prop};
ghost use Rattle.pending_items.specs.Kept.{KeepsPending};
ghost use Rattle.pending_items.specs.Props.{KeepsPending-prop};
ghost use Rattle.settle_floor.specs.Floors.{has_all};
ghost use Rattle.settle_floor.specs.Tills.{KeepsBalances};

use account_book::{Holdings, OneTill};
use cash_amounts::{AccountNumber, Cents, EntryNumber, MessageNumber};
use commit_journal::{Code, Journal};
use day_facts::DayFacts;
use pending_items::PendingItems;
use rule_book::{Desk, Item, Phase, Setting};

/// The lines so far with what they tell, and what every account holds.
#[derive(Drop)]
pub struct LinesDesk<'a> {
    pub setting: &'a Setting,
    pub journal: &'a Journal,
    pub facts: &'a DayFacts,
    pub pending: &'a PendingItems,
    pub till: &'a OneTill,

    pub ghost stands: { StandsFor setting.now.day journal.now.history
        facts.now } by { StandsFor-prop _ _ _ },
    pub ghost queued: { KeepsPending setting.now.day journal.now.history
        pending.now } by { KeepsPending-prop _ _ _ },
    pub ghost kept: { KeepsBalances (numbered till.now) setting.now.day journal.now.history },
    pub ghost all: { has_all (numbered till.now) setting.now.day ≡ true },
}

impl Desk for LinesDesk<'_> {
    ghost day = { λ desk. desk.setting.now.day };

    ghost past = { λ desk. desk.journal.now.history };

    ghost held = { λ desk a. is_some (numbered desk.till.now a) };

    ghost sound = { λ desk. desk.setting.now.sound };

    ghost legal = { λ desk. desk.stands.legal };

    fn setting(&self) -> &Setting {
        self.setting
    }

    fn clock(&self) -> u32 {
        self.facts.clock()
    }

    fn round(&self) -> u32 {
        self.facts.round()
    }

    fn lines(&self) -> u32 {
        self.journal.len()
    }

    fn taken(&self, n: MessageNumber) -> Option<u32> {
        self.facts.taken(n)
    }

    fn code(&self, n: MessageNumber) -> Option<Code> {
        self.facts.code(n)
    }

    fn booked(&self, n: MessageNumber, k: EntryNumber) -> Option<u32> {
        self.facts.booked(n, k)
    }

    fn first_unbooked_debit(&self, n: MessageNumber) -> Option<u32> {
        self.facts.first_unbooked_debit(n)
    }

    fn revoked(&self, n: MessageNumber, k: EntryNumber) -> Option<u32> {
        self.facts.revoked(self.setting, n, k)
    }

    fn asked(&self, n: MessageNumber) -> Option<u32> {
        self.facts.asked(n)
    }

    fn answered(&self, n: MessageNumber) -> Option<bool> {
        self.facts.answer(n)
    }

    fn covered(&self, n: MessageNumber) -> Option<u32> {
        self.facts.covered(n)
    }

    fn closed(&self, n: MessageNumber) -> Option<u32> {
        self.facts.closed(n)
    }

    fn cycle(&self, system: u32) -> Option<u32> {
        let name = self.setting.book.system_name(system);
        self.facts.cycle(self.setting, name)
    }

    fn phase(&self, n: MessageNumber) -> Phase {
        self.facts.phase(self.setting, n)
    }

    fn balance(&self, a: AccountNumber) -> Cents {
        self.till.balance(a)
    }

    fn ended(&self) -> Option<u32> {
        self.facts.ended()
    }

    fn has(&self, a: AccountNumber) -> bool {
        self.till.has(a)
    }

    fn first_blocker(&self, item: Item, a: AccountNumber) -> Option<Item> {
        self.pending
            .first_blocker(self.setting, self.facts, item, a)
    }
}
