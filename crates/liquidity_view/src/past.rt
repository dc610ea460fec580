//! The lines so far, with what is known of them.
ghost use Rattle.std.specs.Prelude.{◌≡◌};
ghost use Rattle.commit_journal.specs.Histories.{oldest};
ghost use Rattle.machine.specs.Stages.Pending.{is_pending};
ghost use Rattle.day_facts.specs.Facts.{StandsFor};
ghost use Rattle.day_facts.specs.Props.{StandsFor-prop};

use commit_journal::Journal;
use day_facts::DayFacts;
use rule_book::{Item, Setting};

// The first lines of a journal, up to a place, and the facts that stand for them.
#[derive(Drop)]
pub struct Past<'a> {
    pub setting: &'a Setting,
    pub journal: &'a Journal,
    pub place: u32,
    pub facts: &'a DayFacts,

    pub ghost stands: { StandsFor setting.now.day (oldest journal.now.history place)
        facts.now } by { StandsFor-prop _ _ _ },
}

impl Past<'_> {
    // Whether an item is pending.
    pub fn is_pending(&self, item: Item) -> bool
        ensures { result ≡ is_pending self.now.setting.now.day
            (oldest self.now.journal.now.history self.now.place) item }
    {
        self.facts.is_pending(self.setting, item)
    }
}
