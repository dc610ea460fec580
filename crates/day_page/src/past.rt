//! The lines so far, with what is known of them.
ghost use Rattle.std.specs.Prelude.{◌≡◌, count_by};
ghost use Rattle.commit_journal.specs.Histories.{oldest};
ghost use Rattle.machine.specs.Telling.History.{clock, is_accepted, taken, taken_code};
ghost use Rattle.machine.specs.Stages.Phases.{is_booked, phase};
ghost use Rattle.machine.specs.Stages.Pending.{is_pending};
ghost use Rattle.machine.specs.Records.Messages.{item_numbers};
ghost use Rattle.day_facts.specs.Facts.{StandsFor};
ghost use Rattle.day_facts.specs.Left.{owes};
ghost use Rattle.day_facts.specs.Props.{StandsFor-prop};

use cash_amounts::{EntryNumber, MessageNumber};
use commit_journal::{Code, Journal};
use day_facts::DayFacts;
use rule_book::{Item, Phase, Setting};

// The first lines of a journal, up to a place, and the facts that stand for them.
#[derive(Drop)]
pub struct Past<'a> {
    pub setting: &'a Setting,
    pub journal: &'a Journal,
    pub place: u32,
    pub facts: &'a DayFacts,

    pub ghost stands: { StandsFor setting.now.day (oldest journal.now.history place)
        facts.now } by { StandsFor-prop _ _ _ },
}

impl Past<'_> {
    // Whether an item is pending.
    pub fn is_pending(&self, item: Item) -> bool
        ensures { result ≡ is_pending self.now.setting.now.day
            (oldest self.now.journal.now.history self.now.place) item }
    {
        self.facts.is_pending(self.setting, item)
    }

    // How far message n has come.
    pub fn phase(&self, n: MessageNumber) -> Phase
        ensures { result ≡ phase self.now.setting.now.day
            (oldest self.now.journal.now.history self.now.place) n }
    {
        self.facts.phase(self.setting, n)
    }

    // The clock.
    pub fn clock(&self) -> u32
        ensures { result ≡ clock (oldest self.now.journal.now.history self.now.place) }
    {
        self.facts.clock()
    }

    // The place of the line that took message n.
    pub fn taken(&self, n: MessageNumber) -> Option<u32>
        ensures { result ≡ taken (oldest self.now.journal.now.history self.now.place) n }
    {
        self.facts.taken(n)
    }

    // Whether a payment, or an entry of a batch, has a Book line.
    pub fn is_booked(&self, n: MessageNumber, k: EntryNumber) -> bool
        ensures { result ≡ is_booked (oldest self.now.journal.now.history self.now.place) n k }
    {
        self.facts.booked(n, k).is_some()
    }

    // The code with which message n was taken.
    pub fn code(&self, n: MessageNumber) -> Option<Code>
        ensures { result ≡ taken_code (oldest self.now.journal.now.history self.now.place) n }
    {
        self.facts.code(n)
    }

    // How many debit entries of batch n aren't booked.
    pub fn debits_left(&self, n: MessageNumber) -> usize
        ensures { result ≡ count_by
            (owes self.now.setting.now.day (oldest self.now.journal.now.history self.now.place) n)
            (item_numbers self.now.setting.now.day n) }
    {
        self.facts.debits_left(n)
    }

    // Whether message n was accepted.
    pub fn is_accepted(&self, n: MessageNumber) -> bool
        ensures { result ≡ is_accepted (oldest self.now.journal.now.history self.now.place) n }
    {
        matches!(self.code(n), Some(Code::Ok))
    }
}
