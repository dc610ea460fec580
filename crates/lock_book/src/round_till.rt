// What the end of a round is made on.
ghost use Rattle.std.specs.Prelude.{◌≡◌, true, length};
ghost use Rattle.batch_records.specs.Sound.{is_sound};
ghost use Rattle.cash_amounts.specs.Numbers.{numbered};
ghost use Rattle.journal_pass.specs.Known.{with_lines};
ghost use Rattle.machine.specs.Legal.{IsLegal};
ghost use Rattle.settle_floor.specs.Floors.{has_all};
ghost use Rattle.settle_floor.specs.Tills.{KeepsBalances};
ghost use Rattle.lock_book.specs.RoundTills.{IsRoundTill};

use crate::balances::{Balances, HallTill};
use crate::name::HallName;
use commit_journal::Journal;
use journal_pass::{Pass, PassTable, Teller};
use settle_floor::carry_out;
use std::marker::Model;

// The balances of all accounts of the hall's day, and a pass. Contracts see the lines that the pass has seen, the newest first; the
// balances are those over these lines.
#[derive(Drop)]
pub(crate) struct RoundTill<H: HallName> {
    pub(crate) till: HallTill<H>,
    pub(crate) pass: Pass,
}

impl<H: HallName> Model for RoundTill<H> {
    ghost use Rattle.std.specs.Prelude.{List};
    ghost use Rattle.commit_journal.specs.Line.{Line};
    ghost use Rattle.lock_book.specs.RoundTills.{IsRoundTill};

    ghost Value = { List Line };

    ghost view = { λ r. r.pass.lines };

    ghost invariant = { λ r. IsRoundTill H.table H.day r.pass r.till };
}

// Sees the whole journal, and makes on the till the moves of the lines that the pass hadn't seen.
fn bring_up<H: HallName>(
    till: &mut HallTill<H>,
    pass: &mut Pass,
    table: &PassTable,
    teller: &mut Teller,
    journal: &Journal,
)
    requires table { (table.now.table ≡ H.table) × (teller.old.table ≡ H.table)
        × (pass.old.table ≡ H.table) }
    requires sound { is_sound H.day ≡ true }
    requires legal { IsLegal H.day journal.now.history }
    requires whole { journal.now.history ≡ teller.old.lines }
    requires all { has_all (numbered till.old) H.day ≡ true }
    requires kept { KeepsBalances (numbered till.old) H.day pass.old.lines }
    ensures teller { teller.new ≡ teller.old }
    ensures pass { pass.new ≡ with_lines pass.old journal.now.history }
    ensures all { has_all (numbered till.new) H.day ≡ true }
    ensures kept { KeepsBalances (numbered till.new) H.day journal.now.history }
{
    let from = pass.seen();
    let end = pass.look(table, teller, journal);
    for place in from..end {
        let (_, moves) = journal.line(place + 1);
        carry_out(till, moves);
    }
}

impl<H: HallName> RoundTill<H> {
    pub(crate) fn new(balances: Balances, pass: Pass) -> RoundTill<H>
        requires count { length balances ≡ length H.day.accounts }
        requires till { IsRoundTill H.table H.day pass balances }
        ensures { result ≡ pass.lines }
    {
        RoundTill {
            till: HallTill::new(balances),
            pass,
        }
    }

    // The balances over what the pass has seen.
    pub(crate) fn balances(&self) -> &HallTill<H>
        ensures all { has_all (numbered result.now) H.day ≡ true }
        ensures kept { KeepsBalances (numbered result.now) H.day self.now }
    {
        &self.till
    }

    // Sees the whole journal, and has then the balances over it.
    pub(crate) fn catch_up(&mut self, table: &PassTable, teller: &mut Teller, journal: &Journal)
        requires table { (table.now.table ≡ H.table) × (teller.old.table ≡ H.table) }
        requires sound { is_sound H.day ≡ true }
        requires legal { IsLegal H.day journal.now.history }
        requires whole { journal.now.history ≡ teller.old.lines }
        ensures teller { teller.new ≡ teller.old }
        ensures seen { self.new ≡ journal.now.history }
    {
        let RoundTill { till, pass } = self;
        bring_up(till, pass, table, teller, journal);
    }

    pub(crate) fn into_balances(self) -> Balances
        ensures count { length result ≡ length H.day.accounts }
        ensures all { has_all (numbered result) H.day ≡ true }
        ensures kept { KeepsBalances (numbered result) H.day self }
    {
        let RoundTill { till, pass } = self;
        drop(pass);
        till.into_balances()
    }
}
