// What lies behind the lock of the floor: the journal, and the teller that counts its lines.
ghost use Rattle.std.specs.Prelude.{◌≡◌, ◌∷◌, [], ℕ, true, false, is_some, length};
ghost use Rattle.batch_records.specs.Sound.{is_sound};
ghost use Rattle.commit_journal.specs.Histories.{Begins};
ghost use Rattle.rule_book.specs.Answering.{has_accounts};
ghost use Rattle.machine.specs.Telling.Facts.{round};
ghost use Rattle.machine.specs.Orders.Hints.{hint};
ghost use Rattle.machine.specs.Telling.History.{is_ended};
ghost use Rattle.machine.specs.Legal.{IsLegal};
ghost use Rattle.machine.specs.Orders.Order.{to_round};
ghost use Rattle.settle_floor.specs.Floors.{IsFor};
ghost use Rattle.journal_pass.specs.Known.{told_lines, with_lines};
ghost use Rattle.lock_book.specs.Locked.{holdings_of};
ghost use Rattle.lock_book.specs.Steps.{Adds, IsNextFor, Tells};

use crate::held::Held;
use crate::name::HallName;
use crate::round_till::RoundTill;
use commit_journal::{Head, Journal, Want};
use journal_pass::{Pass, PassTable, Teller};
use rule_book::{Item, Setting, Why};
use settle_floor::Floor;
use std::marker::{Model, PhantomData};

/// What a step did.
#[derive(Clone, Copy, Debug)]
pub enum Stepped {
    /// It made the want's line, which has this head and stands at this place.
    Made { place: u32, head: Head },
    /// The want had no line after so many lines, for this reason.
    NotNow { seen: u32, why: Why },
}

/// The floor of the hall's day, and the teller that has counted all its lines. Contracts see these lines, the newest first.
#[derive(Drop)]
pub struct CountedFloor<H: HallName> {
    floor: Floor,
    teller: Teller,
    of: PhantomData<H>,
}

impl<H: HallName> Model for CountedFloor<H> {
    ghost use Rattle.std.specs.Prelude.{List};
    ghost use Rattle.commit_journal.specs.Line.{Line};
    ghost use Rattle.lock_book.specs.CountedFloors.{IsCounted};

    ghost Value = { List Line };

    ghost view = { λ c. c.floor.journal.history };

    ghost invariant = { λ c. IsCounted H.table H.day c.floor c.teller };
}

impl<H: HallName> CountedFloor<H> {
    pub(crate) fn new(floor: Floor, teller: Teller) -> CountedFloor<H>
        requires floor { (floor.journal.history ≡ []) × IsFor H.day floor }
        requires teller { teller ≡ record { table = H.table; day = H.day; lines = [] } }
        ensures { result ≡ [] }
    {
        CountedFloor {
            floor,
            teller,
            of: PhantomData,
        }
    }

    // Puts a want to the floor, under the locks of all groups that it needs, and tells what came of it. No other line is made.
    // The pass has then seen the whole journal.
    pub(crate) fn work(
        &mut self,
        setting: &Setting,
        table: &PassTable,
        held: &mut Held<H>,
        pass: &mut Pass,
        want: Want,
    ) -> Stepped
        requires hall { (setting.now.day ≡ H.day) × (table.now.table ≡ H.table)
            × (pass.old.table ≡ H.table) }
        requires accounts { has_accounts (λ a. is_some
            (holdings_of H.day
            (held.old.zero ∷ held.old.one ∷ held.old.two ∷ held.old.three ∷ held.old.four
            ∷ held.old.five ∷ held.old.six ∷ held.old.seven ∷ []) a)) H.day want ≡ true }
        ensures adds { Adds H.day want self.old self.new result }
        ensures pass { pass.new ≡ with_lines pass.old self.new }
        ensures before { Begins pass.old.lines self.new }
        ensures legal { IsLegal H.day self.new }
        ensures tells { Tells H.day want pass.old.lines self.new result }
    {
        let seen = pass.look(table, &mut self.teller, self.floor.journal());
        held.catch_up(table, &mut self.teller, self.floor.journal());
        match self.floor.enter(setting, held, want) {
            Ok(place) => {
                let (head, _) = self.floor.journal().line(place);
                self.teller.count(table, self.floor.journal());
                held.catch_up(table, &mut self.teller, self.floor.journal());
                pass.look(table, &mut self.teller, self.floor.journal());
                Stepped::Made { place, head }
            }
            Err(why) => Stepped::NotNow { seen, why },
        }
    }

    // The same with the balances of all accounts at hand, which are brought up to the journal. With `is_next`, of a want to take a
    // message, each earlier message of its sender is taken in what the pass had seen, and isn't looked for.
    pub(crate) fn work_on(
        &mut self,
        setting: &Setting,
        table: &PassTable,
        till: &mut RoundTill<H>,
        pass: &mut Pass,
        want: Want,
        is_next: bool,
    ) -> Stepped
        requires hall { (setting.now.day ≡ H.day) × (table.now.table ≡ H.table)
            × (pass.old.table ≡ H.table) }
        requires next { is_next ≡ true → IsNextFor H.day pass.old.lines want }
        ensures adds { Adds H.day want self.old self.new result }
        ensures pass { pass.new ≡ with_lines pass.old self.new }
        ensures before { Begins pass.old.lines self.new }
        ensures legal { IsLegal H.day self.new }
        ensures tells { Tells H.day want pass.old.lines self.new result }
    {
        let seen = pass.look(table, &mut self.teller, self.floor.journal());
        till.catch_up(table, &mut self.teller, self.floor.journal());
        match self
            .floor
            .enter_known(setting, till.balances(), want, is_next)
        {
            Ok(at) => {
                let (head, _) = self.floor.journal().line(at);
                self.teller.count(table, self.floor.journal());
                pass.look(table, &mut self.teller, self.floor.journal());
                Stepped::Made { place: at, head }
            }
            Err(why) => Stepped::NotNow { seen, why },
        }
    }

    // The want that the floor names for the first item at or after this one. The pass has then seen the whole journal.
    pub(crate) fn hint(
        &mut self,
        setting: &Setting,
        table: &PassTable,
        pass: &mut Pass,
        from: Item,
    ) -> Option<Want>
        requires hall { (setting.now.day ≡ H.day) × (table.now.table ≡ H.table)
            × (pass.old.table ≡ H.table) }
        ensures same { self.new ≡ self.old }
        ensures pass { pass.new ≡ with_lines pass.old self.new }
        ensures before { Begins pass.old.lines self.new }
        ensures legal { IsLegal H.day self.new }
        ensures hint { result ≡ hint H.day self.new from }
    {
        pass.look(table, &mut self.teller, self.floor.journal());
        self.floor.hint(setting, from)
    }

    // The rest of a round, by a thread beside which no other one is at work. True where the End line stands.
    pub(crate) fn finish(
        &mut self,
        setting: &Setting,
        table: &PassTable,
        till: &mut RoundTill<H>,
        pass: &mut Pass,
    ) -> bool
        requires hall { (setting.now.day ≡ H.day) × (table.now.table ≡ H.table)
            × (pass.old.table ≡ H.table) }
        ensures pass { pass.new ≡ with_lines pass.old self.new }
        ensures before { Begins pass.old.lines self.old }
        ensures grows { Begins self.old self.new }
        ensures legal { IsLegal H.day self.old × IsLegal H.day self.new }
        ensures lines { self.new ≡ to_round H.day self.old }
        ensures ended { result ≡ is_ended self.new }
    {
        let seen = pass.look(table, &mut self.teller, self.floor.journal());
        till.catch_up(table, &mut self.teller, self.floor.journal());
        let RoundTill {
            till,
            pass: till_pass,
        } = till;
        let ended = self.floor.run_round(setting, till);
        count_all(&mut self.teller, table, self.floor.journal(), seen);
        till_pass.look(table, &mut self.teller, self.floor.journal());
        pass.look(table, &mut self.teller, self.floor.journal());
        ended
    }

    // The round that the journal has reached.
    pub(crate) fn round(&self) -> u32
        ensures { result ≡ round H.day self.now }
    {
        self.floor.round()
    }

    // The journal, once the pass and the till have seen it.
    pub(crate) fn close(
        mut self,
        table: &PassTable,
        till: &mut RoundTill<H>,
        pass: &mut Pass,
    ) -> Journal
        requires tables { (table.now.table ≡ H.table) × (pass.old.table ≡ H.table) }
        requires sound { is_sound H.day ≡ true }
        ensures journal { result.history ≡ self }
        ensures before { Begins pass.old.lines self }
        ensures legal { IsLegal H.day self }
        ensures till { till.new ≡ self }
    {
        pass.look(table, &mut self.teller, self.floor.journal());
        till.catch_up(table, &mut self.teller, self.floor.journal());
        let CountedFloor { floor, .. } = self;
        floor.into_journal()
    }
}

// Counts the lines after those that are counted, which are so many.
fn count_all(teller: &mut Teller, table: &PassTable, journal: &Journal, counted: u32)
    requires table { teller.old.table ≡ table.now.table }
    requires begins { Begins teller.old.lines journal.now.history }
    requires counted { counted ≡ length teller.old.lines }
    ensures { teller.new ≡ told_lines teller.old journal.now.history }
{
    for _place in counted..journal.len() {
        teller.count(table, journal);
    }
}
